// Answers counted as they are given.
ghost use Rattle.std.specs.Prelude.{◌≡◌};
ghost use Rattle.capture.specs.Counting.{counted_by, counted};

use crate::{Answer, Counts};
use session::Outcome;

pub fn count_outcome(counts: Counts, outcome: Outcome) -> Counts
    ensures { result ≡ counted_by counts outcome }
{
    match outcome {
        Outcome::Taken(_, _) => Counts {
            taken: counts.taken.saturating_add(1),
            ..counts
        },
        Outcome::Again(_, _) => Counts {
            again: counts.again.saturating_add(1),
            ..counts
        },
        Outcome::Refused(_) => Counts {
            refused: counts.refused.saturating_add(1),
            ..counts
        },
    }
}

// The refused line of a fault in the first three lines is the answer to no word.
pub fn count_answer(counts: Counts, answer: Answer) -> Counts
    ensures { result ≡ counted counts answer }
{
    match answer {
        Answer::Word(outcome) => count_outcome(counts, outcome),
        Answer::Nothing | Answer::Head(_) => counts,
    }
}
