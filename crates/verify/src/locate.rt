// The positions where two words differ, in rising order, in a local array of 8. One more than n - 1 of them is one too many, and ends the search with none.
ghost use Rattle.std.specs.Prelude.{◌≡◌, ◌+◌, ◌≤◌, ◌<◌, eqb, length};
ghost use Rattle.parity.specs.Count.{all};
ghost use Rattle.gtb.specs.Shape.{word_length};
ghost use Rattle.correction.specs.Steps.{Listed, Scanned};
ghost use Rattle.verify.specs.Verify.{difference};
ghost use Rattle.verify.specs.Steps.{differs};

use correction::checks::Checks;

// The `count` symbols from place `from` on are the same in both. One value gathers the bits of all differences, so that the loop
// has no branch and is compiled for several symbols at once. Kept as it is: to compare the two slices took 2.4 times as long at order 17.
fn are_same(received: &[u32], proposed: &[u32], from: usize, count: usize) -> bool
    requires { (from + count ≤ length received.now) × (from + count ≤ length proposed.now) }
    ensures { result ≡ all count (λ i. eqb (difference received.now proposed.now (from + i)) 0) }
{
    let mut bits = 0;
    for i in 0..count {
        bits |= received[from + i] ^ proposed[from + i];
    }
    bits == 0
}

// Position j joins the list if the words differ there.
fn keep(
    received: &[u32],
    proposed: &[u32],
    j: usize,
    places: &mut [usize; 8],
    count: usize,
) -> usize
    requires { (j < length received.now) × (j < length proposed.now) × (count < 8) × Listed (differs received.now proposed.now) j count places.old }
    ensures { Listed (differs received.now proposed.now) (j + 1) result places.new }
{
    if received[j] != proposed[j] {
        places[count] = j;
        return count + 1;
    }
    count
}

// The `size` symbols from place `from` on; most runs are the same in both words.
fn scan_run(
    received: &[u32],
    proposed: &[u32],
    from: usize,
    size: usize,
    n: usize,
    places: &mut [usize; 8],
    count: usize,
) -> Option<usize>
    requires { (from + size ≤ length received.now) × (from + size ≤ length proposed.now) × (n ≤ 8) × (count < n)
        × Listed (differs received.now proposed.now) from count places.old }
    ensures { Scanned (differs received.now proposed.now) n (from + size) result places.new }
{
    if are_same(received, proposed, from, size) {
        return Some(count);
    }
    let mut found = count;
    for i in 0..size {
        found = keep(received, proposed, from + i, places, found);
        if n <= found {
            return None;
        }
    }
    Some(found)
}

// The whole word: the number of positions, or none if there are more than n - 1. By runs of 16, a literal, so that comparing one is
// compiled without a loop; then the rest.
pub fn locate(
    checks: Checks,
    received: &[u32],
    proposed: &[u32],
    places: &mut [usize; 8],
) -> Option<usize>
    requires { (length received.now ≡ word_length checks.shape) × (length proposed.now ≡ word_length checks.shape) × (length places.old ≡ 8) }
    ensures { Scanned (differs received.now proposed.now) checks.shape.n (word_length checks.shape) result places.new }
{
    let n = checks.shape.n as usize;
    let size = received.len();
    let runs = size / 16;
    let mut found = 0;
    for k in 0..runs {
        found = scan_run(received, proposed, k * 16, 16, n, places, found)?;
    }
    scan_run(
        received,
        proposed,
        runs * 16,
        size - runs * 16,
        n,
        places,
        found,
    )
}
