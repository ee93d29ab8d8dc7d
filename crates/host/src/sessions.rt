// Sessions over u32: made, asked for a count, billed, shown.
ghost use Rattle.paper.specs.Paper as paper;
ghost use Rattle.paper.specs.Boundary.{shape_in, session_in, FreshValues};
ghost use Rattle.host.specs.Crossing as crossing;
ghost use Rattle.host.specs.Entries.{FreshCrossing};

use crate::crossing::{SESSION, load, load_shape, store};
use session::Session;

pub fn shaftglimmer_fresh(shape: &[u32; 10], session: &mut [u32; SESSION]) -> u32
    ensures made { FreshCrossing (crossing.shape_in shape.now) session.old session.new result }
    ensures paper { FreshValues (shape_in shape.now) session.old session.new result }
{
    match Session::fresh(load_shape(shape)) {
        Ok(fresh) => {
            store(fresh, session);
            0
        }
        Err(e) => gtb::number::refused(e.refusal),
    }
}

pub fn shaftglimmer_count(session: &[u32; SESSION], function: u32) -> u64
    ensures { paper.Counting (session_in session.now) function result }
{
    session::number::counted(load(session).count(function))
}

pub fn shaftglimmer_bill(session: &[u32; SESSION], prices: &[u32]) -> u64
    ensures { paper.Billing (session_in session.now) prices.now result }
{
    energy::number::billed(energy::bill(load(session), prices))
}

pub fn shaftglimmer_cover(session: &[u32; SESSION], bytes: &mut [u8]) -> u32
    ensures { paper.Covering (session_in session.now) bytes.old bytes.new result }
{
    gtb::number::answer(coverage::cover(load(session), bytes))
}
