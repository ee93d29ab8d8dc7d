// The energy of a run: calls times price, in whole picojoules.
#![tactic(auto)]

pub mod number;

ghost use Rattle.std.specs.Prelude.{◌≡◌, ◌*◌, length, get_or};
ghost use Rattle.paper.specs.Requests.{Billing};
ghost use Rattle.session.specs.Session.{plain};
ghost use Rattle.energy.specs.Energy.{millis, due, bill_of, billed_number};

use gtb::Refusal;
use session::Session;

// Tests 1, 18, 11, 2, then 19. A price is in thousandths of a picojoule a call; that of function 0 has no bearing.
pub fn bill(session: Session, prices: &[u32]) -> Result<u64, Refusal>
    ensures billed { result ≡ bill_of session prices.now }
    ensures paper { Billing (plain session) prices.now (billed_number result) }
{
    session.status()?;
    if prices.len() != Session::FUNCTIONS {
        return Err(Refusal::Length);
    }
    priced(&session.calls, prices)
}

// The bill of these counts, rounded up to whole picojoules. The sum only rises, so the first term that does not fit decides. Function 0 is passed over.
fn priced(calls: &[u32; Session::FUNCTIONS], prices: &[u32]) -> Result<u64, Refusal>
    requires { length prices.now ≡ 256 }
    ensures { result ≡ due (millis (λ f. get_or calls.now f 0) prices.now) }
{
    let mut sum = 0u64;
    for (calls, price) in calls[1..].iter().zip(&prices[1..]) {
        sum = sum.checked_add(cost(*calls, *price)).ok_or(Refusal::Bill)?;
    }
    Ok(sum.div_ceil(1000))
}

// What the calls of one function cost: the product of two u32 fits.
fn cost(calls: u32, price: u32) -> u64
    ensures { result ≡ calls * price }
{
    calls as u64 * price as u64
}
