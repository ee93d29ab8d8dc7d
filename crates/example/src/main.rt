// A capture taken in by value, from a fresh session to the bill: what a program in Rattle does with the library. Words of shape (5, 3, 8) arrive, each read the way that it names.
#![tactic(auto)]

ghost use Rattle.std.specs.Prelude.{◌≡◌};
ghost use Rattle.session.specs.Arrival.{the_ways, presented, session_after};

use gtb::{Refusal, Shape};
use session::{Outcome, Session};

// The stored words of page 1 with marks 3 and 5, of page 2 with marks 7, 7 and 0, which is the idle loop, and of page 4 with mark 255.
const FIRST: [u32; 25] = [
    5, 5, 1, 2, 3, 0, 4, 3, 1, 6, 5, 1, 2, 3, 5, 0, 0, 0, 0, 0, 0, 0, 0, 0, 0,
];

const SECOND: [u32; 25] = [
    7, 1, 2, 3, 7, 6, 3, 1, 4, 0, 1, 2, 3, 7, 7, 0, 0, 0, 0, 0, 0, 0, 0, 0, 0,
];

const FOURTH: [u32; 25] = [
    0, 250, 4, 1, 255, 250, 254, 5, 254, 255, 250, 4, 1, 255, 0, 0, 0, 0, 0, 0, 0, 0, 0, 0, 0,
];

// A line of output: a name and a number. What can't be written is not written elsewhere.
fn print_value(rt: &impl Print, name: &str, value: u64) {
    let _ = println!(rt; "{name}{value}");
}

// A name and two numbers.
fn print_line(rt: &impl Print, name: &str, first: u64, second: u64) {
    let _ = println!(rt; "{name}{first} {second}");
}

// What a query turns down.
fn print_refusal(rt: &impl Print, refusal: Refusal) {
    print_value(rt, "refused ", u32::from(refusal) as u64);
}

// The answer of an arrival: page number and symbols changed, or the refusal's number.
fn print_outcome(rt: &impl Print, outcome: Outcome) {
    match outcome {
        Outcome::Taken(page, changed) => print_line(rt, "taken ", page as u64, changed as u64),
        Outcome::Again(page, changed) => print_line(rt, "again ", page as u64, changed as u64),
        Outcome::Refused(e) => print_line(rt, "refused ", u32::from(e) as u64, 0),
    }
}

// One word arrives. The session goes in by value, and the one after it comes back.
fn take_word(
    rt: &impl Print,
    session: Session,
    way: u32,
    word: [u32; 25],
    scratch: &mut [u32],
) -> Session
    ensures { result ≡ session_after session (presented the_ways session way word scratch.old) }
{
    let mut lent = word;
    let arrived = session.arrive(way, &mut lent, scratch);
    let outcome = arrived.outcome;
    print_outcome(rt, outcome);
    arrived.session
}

// All words of the sample, with two symbols changed in some. Those of page 4 are changed alike on one line, where the clean way sees nothing.
fn take_sample(rt: &impl Print, session: Session) -> Session {
    let mut scratch = [0u32; 13];
    let mut short = [0u32; 12];
    let mut session = take_word(rt, session, Session::CLEAN, FIRST, &mut scratch);
    let mut word = FIRST;
    word[0] ^= 9;
    word[7] ^= 200;
    session = take_word(rt, session, Session::CLEAN, word, &mut scratch);
    word = SECOND;
    word[3] ^= 1;
    session = take_word(rt, session, Session::VOTE, word, &mut scratch);
    word = FOURTH;
    word[0] ^= 9;
    word[1] ^= 9;
    session = take_word(rt, session, Session::CLEAN, word, &mut scratch);
    session = take_word(rt, session, Session::CLEAN, SECOND, &mut short);
    take_word(rt, session, Session::TWO, word, &mut scratch)
}

// How often a function was called.
fn print_count(rt: &impl Print, session: Session, function: u32) {
    match session.count(function) {
        Ok(calls) => print_line(rt, "calls ", function as u64, calls as u64),
        Err(e) => print_refusal(rt, e),
    }
}

// The bill at one and a half picojoules a call.
fn print_bill(rt: &impl Print, session: Session) {
    let prices = [1500u32; Session::FUNCTIONS];
    match energy::bill(session, &prices) {
        Ok(sum) => print_value(rt, "picojoules ", sum),
        Err(e) => print_refusal(rt, e),
    }
}

// How many functions were called at all.
fn print_coverage(rt: &impl Print, session: Session) {
    let mut called = [0u8; Session::FUNCTIONS];
    match coverage::cover(session, &mut called) {
        Ok(number) => print_value(rt, "covered ", number as u64),
        Err(e) => print_refusal(rt, e),
    }
}

// From a fresh session to the bill.
fn show(rt: &impl Print, session: Session) {
    let session = take_sample(rt, session);
    print_count(rt, session, 7);
    print_count(rt, session, 0);
    print_bill(rt, session);
    print_coverage(rt, session);
}

fn main(rt: HostRuntime) {
    let fresh = Session::fresh(Shape {
        q: 5,
        n: 3,
        b: 8,
        slopes: gtb::STANDARD,
    });
    match fresh {
        Ok(session) => show(&rt, session),
        Err(e) => print_refusal(&rt, e.refusal),
    }
}
