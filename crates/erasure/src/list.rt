// The list of places: its test, and the changes that are made there.
ghost use Rattle.std.specs.Prelude.{◌≡◌, ℕ, ◌<◌, ◌≤◌, length};
ghost use Rattle.gtb.specs.Square.{at};
ghost use Rattle.erasure.specs.Fill.{rising};
ghost use Rattle.erasure.specs.Steps.{Applied};

// Test 12: each place is below `size` and above the one before it.
pub fn is_rising(places: &[u32], size: usize) -> bool
    requires { size ≤ 961 }
    ensures { result ≡ rising size places.now }
{
    let mut next: usize = 0;
    for place in places {
        let j = *place as usize;
        if j < next || size <= j {
            return false;
        }
        next = j + 1;
    }
    true
}

// The changes are XORed onto the word, each at its place: how many are not 0.
pub fn apply(word: &mut [u32], places: &[u32], changes: &[u32; 248]) -> u32
    requires { (length places.now ≤ 248) × ((k : ℕ) → k < length places.now → at places.now k < length word.old) }
    ensures { Applied places.now changes.now (length places.now) word.old word.new result }
{
    for (k, place) in places.iter().enumerate() {
        word[*place as usize] ^= changes[k];
    }
    let count = places.len();
    changes[..count].iter().filter(|x| **x != 0).count() as u32
}
