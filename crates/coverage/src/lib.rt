// The coverage viewer: which functions were called at all.
#![tactic(auto)]

ghost use Rattle.std.specs.Prelude.{◌≡◌, ltb, length};
ghost use Rattle.parity.specs.Count.{bit};
ghost use Rattle.paper.specs.Requests as paper;
ghost use Rattle.session.specs.Session.{plain};
ghost use Rattle.coverage.specs.Coverage.{Covering};
ghost use Rattle.gtb.specs.Answer.{answer_number};
ghost use Rattle.coverage.specs.Steps.{Marking};

use gtb::Refusal;
use session::Session;

// Tests 1, 18, 11, then 2; only after these is the slice written to: a yes or no for each function.
pub fn cover(session: Session, bytes: &mut [u8]) -> Result<u32, Refusal>
    ensures covered { Covering session bytes.old bytes.new result }
    ensures paper { paper.Covering (plain session) bytes.old bytes.new (answer_number result) }
{
    session.status()?;
    if bytes.len() != Session::FUNCTIONS {
        return Err(Refusal::Length);
    }
    Ok(mark(&session.calls, bytes))
}

// Writes every function's byte, and counts those that are yes.
fn mark(calls: &[u32; Session::FUNCTIONS], bytes: &mut [u8]) -> u32
    requires { length bytes.old ≡ 256 }
    ensures { Marking calls.now 256 bytes.new result }
{
    let mut covered = 0u32;
    for (f, calls) in calls.iter().enumerate() {
        let byte = covers(*calls);
        bytes[f] = byte;
        covered += byte as u32;
    }
    covered
}

// Yes is 1, no is 0.
#[tactic(auto, using(crate::proofs::Marks::byte_yes, crate::proofs::Marks::byte_no))]
fn covers(calls: u32) -> u8
    ensures { result ≡ bit (ltb 0 calls) }
{
    (calls > 0) as u8
}
