// A shape as ten values, a session as 10 + 2 + 1024 + 256, and an outcome as three.
ghost use Rattle.std.specs.Prelude.{◌≡◌, map, length};
ghost use Rattle.parity.specs.Count.{bit};
ghost use Rattle.host.specs.Crossing.{shape_in, is_yes, session_of, values_of};

use gtb::Shape;
use session::Session;

// How many values a shape crosses as. In a session the number of pages taken and the lowest page not taken follow it, then the page marks, then the calls counts.
pub const SHAPE: usize = 10;

pub const PAGES: usize = 10;

pub const LOWEST: usize = 11;

pub const MARKS: usize = 12;

pub const CALLS: usize = 1036;

// How many values a session crosses as.
pub const SESSION: usize = 1292;

// The shape in the values.
pub fn load_shape(values: &[u32]) -> Shape
    requires { length values.now ≡ 10 }
    ensures { result ≡ shape_in values.now }
{
    let mut slopes = [0u32; 7];
    slopes.copy_from_slice(&values[3..]);
    Shape {
        q: values[0],
        n: values[1],
        b: values[2],
        slopes,
    }
}

// A page mark is no where its value is 0.
fn load_taken(values: &[u32]) -> [bool; Session::PAGES]
    requires { length values.now ≡ 1024 }
    ensures { result ≡ map is_yes values.now }
{
    let mut taken = [false; Session::PAGES];
    for (i, value) in values.iter().enumerate() {
        taken[i] = *value != 0;
    }
    taken
}

// The session in the values.
pub fn load(values: &[u32]) -> Session
    requires { length values.now ≡ 1292 }
    ensures { result ≡ session_of values.now }
{
    let mut calls = [0u32; Session::FUNCTIONS];
    calls.copy_from_slice(&values[CALLS..]);
    Session {
        shape: load_shape(&values[..SHAPE]),
        taken: load_taken(&values[MARKS..CALLS]),
        calls,
        pages: values[PAGES],
        lowest: values[LOWEST],
    }
}

// Yes crosses as 1, no as 0.
fn store_taken(taken: [bool; Session::PAGES], values: &mut [u32])
    requires { length values.old ≡ 1024 }
    ensures { values.new ≡ map bit taken }
{
    for (i, mark) in taken.iter().enumerate() {
        values[i] = *mark as u32;
    }
}

// The values of the session, laid down from the first to the last.
pub fn store(session: Session, values: &mut [u32])
    requires { length values.old ≡ 1292 }
    ensures { values.new ≡ values_of session }
{
    let shape = session.shape;
    let slopes = shape.slopes;
    let taken = session.taken;
    let calls = session.calls;
    values[0] = shape.q;
    values[1] = shape.n;
    values[2] = shape.b;
    values[3..SHAPE].copy_from_slice(&slopes);
    values[PAGES] = session.pages;
    values[LOWEST] = session.lowest;
    store_taken(taken, &mut values[MARKS..CALLS]);
    values[CALLS..SESSION].copy_from_slice(&calls);
}
