// Arrivals over u32. The session is written only after a page was taken.
ghost use Rattle.host.specs.Entries.{Arrives, Delivers};

use host::{SESSION, arrivals};

// One word; the answer is in the outcome.
#[unsafe(no_mangle)]
pub extern "C" fn shaftglimmer_arrive(
    session: &mut [u32; SESSION],
    way: u32,
    word: &mut [u32],
    outcome: &mut [u32; 3],
    scratch: &mut [u32],
) -> u32
    ensures { Arrives session.old way word.old scratch.old session.new word.new scratch.new outcome.new result }
{
    arrivals::shaftglimmer_arrive(session, way, word, outcome, scratch)
}

// A bundle of words; their answers are in the outcomes.
#[unsafe(no_mangle)]
pub extern "C" fn shaftglimmer_arrive_all(
    session: &mut [u32; SESSION],
    way: u32,
    words: &mut [u32],
    outcomes: &mut [u32],
    scratch: &mut [u32],
) -> u32
    ensures { Delivers session.old way words.old scratch.old outcomes.old session.new words.new scratch.new outcomes.new result }
{
    arrivals::shaftglimmer_arrive_all(session, way, words, outcomes, scratch)
}
