// The answer to a proposal as the one number of the rules.
ghost use Rattle.std.specs.Prelude.{◌≡◌};
ghost use Rattle.verify.specs.Verify.{verdict_number};

use gtb::Refusal;

pub fn verdict(answer: Result<bool, Refusal>) -> u32
    ensures { result ≡ verdict_number answer }
{
    match answer {
        Ok(true) => 1,
        Ok(false) => 0,
        Err(e) => gtb::number::refused(e),
    }
}
