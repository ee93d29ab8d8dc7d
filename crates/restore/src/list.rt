// The list of places.
ghost use Rattle.std.specs.Prelude.{◌≡◌, [], ◌∷◌, ◌++◌, ◌+◌, ◌<◌, length, take};

// The list with one place more, in the first entries.
pub fn append(places: &[u32], place: u32) -> [u32; 16]
    requires { length places.now < 16 }
    ensures { take (length places.now + 1) result ≡ places.now ++ (place ∷ []) }
{
    let count = places.len();
    let mut named = [0u32; 16];
    named[..count].copy_from_slice(places);
    named[count] = place;
    named
}
