// Document 02, i: the marks of a journal, 32 numbers of two bytes: where each 32nd entry begins, so that the newest is found without a walk over all.
#![tactic(auto)]

ghost use Rattle.std.specs.Prelude.{◌≡◌, ◌≤◌, ◌<◌, length};
ghost use Rattle.entries.specs.Entries.{scan, reading_of};
ghost use Rattle.marks.specs.Marks.{mark_in, stands_at, rest_unused, Last, newest_of, NewestFits};

// A mark: how many stand before it, and the place that it says.
#[derive(Clone, Copy)]
pub struct Mark {
    pub number: usize,
    pub place: usize,
}

// The place that the mark with so many before it says.
fn place_in(m: &[u8], number: usize) -> usize
    requires { (length m.now ≡ 64) × (number < 32) }
    ensures { result ≡ mark_in m.now number }
{
    wire::be16(m, 2 * number) as usize
}

// The newest entry of a part of a journal: where it begins, and how many entries are passed on the way there.
#[derive(Clone, Copy, PartialEq, Eq)]
pub struct Newest {
    pub place: usize,
    pub passed: usize,
}

// ---- the test, entry by entry

// An entry at a place, with n before it: if it is a 32nd one, its mark says so.
#[tactic(auto, unfolding(crate::specs::Marks::stands_at))]
pub fn stands(m: &[u8], n: usize, at: usize) -> bool
    requires { (length m.now ≡ 64) × (n < 1024) }
    ensures { result ≡ stands_at m.now n at }
{
    if n % 32 != 0 {
        return true;
    }
    place_in(m, n / 32) == at
}

// After n entries the other marks are 0.
#[tactic(auto, unfolding(crate::specs::Marks::rest_unused))]
pub fn rest_unused(m: &[u8], n: usize) -> bool
    requires { (length m.now ≡ 64) × (n ≤ 1024) }
    ensures { result ≡ rest_unused m.now n }
{
    let used = 2 * ((n + 31) / 32);
    wire::all_are(&m[used..], 0)
}

// ---- where to begin

// The last mark that is used, or the first one where none is: used ones but for the first aren't 0, and those after them are.
pub fn last(m: &[u8]) -> Mark
    requires { length m.now ≡ 64 }
    ensures { Last m.now result }
{
    let mut place = place_in(m, 0);
    for number in 0..31 {
        let next = place_in(m, number + 1);
        if next == 0 {
            return Mark { number, place };
        }
        place = next;
    }
    Mark { number: 31, place }
}

// Finds the newest entry of the part that it gets, which is all that it sees, and counts each entry as it passes it.
#[tactic(auto, unfolding(crate::specs::Marks::newest_of))]
pub fn find_newest(part: &[u8]) -> Option<Newest>
    ensures value { result ≡ newest_of (reading_of (scan part.now)) }
    ensures newest_fits { NewestFits (length part.now) result }
{
    let whole = entries::read(part).ok()?;
    let passed = whole.count.checked_sub(1)?;
    Some(Newest {
        place: whole.newest,
        passed,
    })
}
