// Refusals and answers as the numbers of the rules.
ghost use Rattle.std.specs.Prelude.{◌≡◌, ◌+◌, ◌^◌};
ghost use Rattle.gtb.specs.Answer.{refusal_number, answer_number, status_number};

use crate::Refusal;

impl From<Refusal> for u32 {
    ghost from_gives = { λ e n. n ≡ refusal_number e };

    fn from(refusal: Refusal) -> u32 {
        refusal as u32
    }
}

// A refusal as an answer.
pub fn refused(e: Refusal) -> u32
    ensures { result ≡ 2 ^ 31 + refusal_number e }
{
    2147483648 + u32::from(e)
}

// The number that is carried, or the refusal.
pub fn answer(answer: Result<u32, Refusal>) -> u32
    ensures { result ≡ answer_number answer }
{
    match answer {
        Ok(k) => k,
        Err(e) => refused(e),
    }
}

// 0, or the refusal.
pub fn status(status: Result<(), Refusal>) -> u32
    ensures { result ≡ status_number status }
{
    match status {
        Ok(()) => 0,
        Err(e) => refused(e),
    }
}
