// Test 11 on page marks that are lent as values: any value but 0 is yes.
ghost use Rattle.std.specs.Prelude.{◌≡◌, ◌&&◌, map, ◌+◌, ◌≤◌, eqb, length};
ghost use Rattle.session.specs.Session.{pages_of, lowest_of};
ghost use Rattle.session.specs.Steps.{marks_in};
ghost use Rattle.host.specs.Crossing.{is_yes};

// How many of the marks are no. The loop has no early exit, so that many are counted at once; and a comparison with 0 is what is added up, where one for yes would have to be turned round first.
fn unmarked_in(marks: &[u32]) -> u32
    requires { length marks.now ≤ 1024 }
    ensures { result + marks_in (map is_yes marks.now) ≡ length marks.now }
{
    let mut unmarked = 0u32;
    for mark in marks {
        unmarked += (*mark == 0) as u32;
    }
    unmarked
}

// Both figures are what the marks say. Each mark is looked at once. It counts what the session's own test does not, so it stands beside that: a mark of 32 bits is slower to turn into a yes than to compare with 0.
pub fn agree(marks: &[u32], pages: u32, lowest: u32) -> bool
    requires { length marks.now ≡ 1024 }
    ensures { result ≡ (eqb pages (pages_of (map is_yes marks.now)) && eqb lowest (lowest_of (map is_yes marks.now))) }
{
    if lowest > 1024 {
        return false;
    }
    let at = lowest as usize;
    if unmarked_in(&marks[..at]) != 0 {
        return false;
    }
    let above = unmarked_in(&marks[at..]);
    if 1024 - above != pages {
        return false;
    }
    at == 1024 || marks[at] == 0
}
