// A count as the number of the rules.
ghost use Rattle.std.specs.Prelude.{◌≡◌};
ghost use Rattle.session.specs.Session.{counted_number};

use gtb::Refusal;

// A refusal is above all counts.
pub fn counted(counted: Result<u32, Refusal>) -> u64
    ensures { result ≡ counted_number counted }
{
    match counted {
        Ok(k) => k as u64,
        Err(e) => 4294967296 + u32::from(e) as u64,
    }
}
