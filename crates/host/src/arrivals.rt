// Arrivals over u32. The session is written only after a page was taken.
ghost use Rattle.host.specs.Entries.{Arrives, Delivers};

use crate::arrival::arrive;
use crate::crossing::{SESSION, load, store};

// One word; the answer is in the outcome.
pub fn shaftglimmer_arrive(
    session: &mut [u32; SESSION],
    way: u32,
    word: &mut [u32],
    outcome: &mut [u32; 3],
    scratch: &mut [u32],
) -> u32
    ensures { Arrives session.old way word.old scratch.old session.new word.new scratch.new outcome.new result }
{
    *outcome = arrive(session, way, word, scratch).values();
    0
}

// A bundle of words; their answers are in the outcomes.
pub fn shaftglimmer_arrive_all(
    session: &mut [u32; SESSION],
    way: u32,
    words: &mut [u32],
    outcomes: &mut [u32],
    scratch: &mut [u32],
) -> u32
    ensures { Delivers session.old way words.old scratch.old outcomes.old session.new words.new scratch.new outcomes.new result }
{
    let before = load(session);
    let delivered = batch::arrive_all(before, way, words, scratch, outcomes);
    let answer = gtb::number::status(delivered.status);
    let after = delivered.session;
    if after.pages == before.pages {
        return answer;
    }
    store(after, session);
    answer
}
