// The bill as the number of the rules.
ghost use Rattle.std.specs.Prelude.{◌≡◌};
ghost use Rattle.energy.specs.Energy.{billed_number};

use gtb::Refusal;

// A refusal is above all bills.
pub fn billed(billed: Result<u64, Refusal>) -> u64
    ensures { result ≡ billed_number billed }
{
    match billed {
        Ok(p) => p,
        Err(e) => 9223372036854775808 + u32::from(e) as u64,
    }
}
