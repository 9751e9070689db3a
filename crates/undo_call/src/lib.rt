// The calls `undo` and `redo`: the newest change is taken back, or the one last taken back put in again. The record and all that is worked out from
// it, or the timer; the next id stays. Both walk one road; the way says which store an entry is taken from.
#![tactic(auto)]

ghost use Rattle.std.specs.Prelude.{true, ◌≡◌, ◌≤◌, ◌+◌, length};
ghost use Rattle.journal.specs.Ways.{by_way, other};
ghost use Rattle.journal.specs.Add.{entry_len};
ghost use Rattle.journal.specs.declared.Way.TheVariants.{After};
ghost use Rattle.session.specs.Session.{well_formed};
ghost use Rattle.image.specs.Image.{image_of, session_in};
ghost use Rattle.layout.specs.Layout.{image_length};
ghost use Rattle.inplace.specs.InPlace.{HeadStands};
ghost use Rattle.session.specs.Road.{session_moved};
ghost use Rattle.undo_call.specs.Undo.{none_left, head_moved, edit_asks, newest_asks, passed_by, moved_by, LooksFrom, NewestFound, MarksBefore, MarksAfter, Moved, MoveAllows, UndoAllows, RedoAllows};

use change::Edit;
use image::Head;
use inplace::Told;
use journal::Way;
use marks::Newest;
use record::{Record, Timer};

// ---- the marks

// Where to begin looking for the newest entry of a store: undo at the last mark.
#[tactic(auto, using(inplace::proofs::Marking::parts_long, crate::proofs::Marking::looks_before, crate::proofs::Marking::looks_after))]
fn look_from(lent: &[u8], way: Way) -> usize
    requires { length lent.now ≡ image_length }
    ensures { LooksFrom way lent.now result }
{
    match way {
        Way::Before => {
            let last = marks::last(&lent[layout::MARKS..layout::TIMER]);
            last.place
        }
        Way::After => 0,
    }
}

// The marks for the newest entry less, which begins at `at`, or for one more at the used end.
#[tactic(auto, using(crate::proofs::Marking::again_before, crate::proofs::Marking::again_after))]
fn mark_again(lent: &mut [u8], way: Way, used: usize, at: usize)
    requires { (length lent.old ≡ image_length) × MarksBefore way used at lent.old × (way ≡ After → used + 2 ≤ 2048) }
    ensures { MarksAfter way used at lent.old lent.new }
{
    match way {
        Way::Before => inplace::mark_removed(lent, used, at),
        Way::After => inplace::mark_added(lent, used),
    }
}

// ---- the change `e`, whose entry starts at `at` of its store

// The entry is zeroed, and what takes the change back put at the end of the other store.
#[tactic(auto, using(crate::proofs::Taking::entry_moved, crate::proofs::Taking::long_moved))]
fn move_entry(lent: &mut [u8], way: Way, at: usize, from: usize, to: usize, back: Edit)
    requires { (length lent.old ≡ image_length) × (to + entry_len back ≤ 2048) }
    ensures { Moved way at from to back lent.old lent.new }
{
    inplace::cut(&mut *lent, way, at, from);
    inplace::append(lent, way.pick(Way::After, Way::Before), to, back);
}

// The head with the timer and the record after it; its entry's store ends at `at` then, the other one at `end`.
#[tactic(auto, unfolding(crate::specs::Undo::head_moved))]
fn head_moved(h: Head, way: Way, timer: Timer, after: Record, at: usize, end: usize) -> Head
    requires { (at ≤ 2048) × (end ≤ 2048) }
    ensures { result ≡ head_moved h way timer after at end }
{
    let used = way.pick(at as u16, end as u16);
    let ahead = way.pick(end as u16, at as u16);
    let timed = image::with_timer(h, timer);
    image::renewed(timed, after, h.next, used, ahead)
}

#[tactic(auto, using(crate::proofs::Taking::room, crate::proofs::Taking::at_fits, crate::proofs::Taking::session_moved_lem, crate::proofs::Marking::marked_again, crate::proofs::Marking::two_more))]
fn carry_on(lent: &mut [u8], h: Head, way: Way, at: usize, e: Edit, after: Record)
    requires { (length lent.old ≡ image_length) × (at + entry_len e ≡ by_way way h.used h.ahead) × (h.used + h.ahead ≤ 2048) × MarksBefore way h.used at lent.old }
    ensures { lent.new ≡ image_of (session_moved way (session_in h lent.old) at e after) }
{
    let back = change::takes_back(h.held, h.timer, e);
    let timer = change::timer_after(h.timer, e.change);
    let n = journal::entry_len(back);
    let from = way.pick(h.used, h.ahead) as usize;
    let to = way.pick(h.ahead, h.used) as usize;
    mark_again(&mut *lent, way, h.used as usize, at);
    move_entry(&mut *lent, way, at, from, to, back);
    let head = head_moved(h, way, timer, after, at, to + n);
    image::write_head(lent, head);
}

// It is put into the record, or refused. So many entries were passed to find it.
#[tactic(auto, using(crate::proofs::Taking::put_refused, crate::proofs::Taking::put_ill, crate::proofs::Taking::put_done))]
fn take(lent: &mut [u8], h: Head, way: Way, at: usize, e: Edit, passed: u8) -> Told
    requires { HeadStands h lent.old × (at + entry_len e ≡ by_way way h.used h.ahead) × (h.used + h.ahead ≤ 2048) × MarksBefore way h.used at lent.old × (passed ≡ passed_by way (session_in h lent.old)) }
    ensures value { result ≡ (moved_by way (session_in h lent.old) (edit_asks way (session_in h lent.old) at e)).told }
    ensures lent_after { lent.new ≡ (moved_by way (session_in h lent.old) (edit_asks way (session_in h lent.old) at e)).image }
{
    let Some(after) = change::put(h.held, e) else {
        return inplace::answer_with(7, 0);
    };
    if !formed::record_ok(after, h.next) {
        return inplace::answer_with(7, 0);
    }
    carry_on(lent, h, way, at, e, after);
    Told {
        answer: 0,
        small: passed,
        beside: change::kind(e.change) as u16,
    }
}

// The newest entry of a store that has one: where it begins, and how many entries undo passed, from the last mark on, to find it.
#[tactic(auto, using(image::proofs::laws::Stores::store_low, crate::proofs::Taking::count_fits, crate::proofs::Finding::from_low, crate::proofs::Finding::found_there, crate::proofs::Finding::never_nothing, crate::proofs::Marking::found_bound))]
fn newest_of(lent: &[u8], h: Head, way: Way, used: usize) -> Option<Newest>
    requires { HeadStands h lent.now × (well_formed (session_in h lent.now) ≡ true) × (used ≡ by_way way h.used h.ahead) × (used ≡ 0 → ⊥) }
    ensures { NewestFound way (session_in h lent.now) result }
{
    let store = image::store_at(way);
    let from = look_from(lent, way);
    let first = store + from;
    let end = store + used;
    let found = marks::find_newest(&lent[first..end])?;
    let passed = way.pick(found.passed, 0);
    Some(Newest {
        place: from + found.place,
        passed,
    })
}

// A well-formed session reads as entries with good values; what the two `else` answer can't come.
#[tactic(auto, using(image::proofs::laws::Stores::store_low, crate::proofs::Taking::none_held, crate::proofs::Taking::sum_fits, crate::proofs::Taking::count_fits, crate::proofs::Taking::by_newest, crate::proofs::Taking::at_low, crate::proofs::Taking::entry_bad, crate::proofs::Taking::entry_good, crate::proofs::Taking::entry_ends, crate::proofs::Finding::marks_before, crate::proofs::Marking::passed_low))]
fn take_newest(lent: &mut [u8], h: Head, way: Way) -> Told
    requires { HeadStands h lent.old × (well_formed (session_in h lent.old) ≡ true) }
    ensures value { result ≡ (moved_by way (session_in h lent.old) (newest_asks way (session_in h lent.old))).told }
    ensures lent_after { lent.new ≡ (moved_by way (session_in h lent.old) (newest_asks way (session_in h lent.old))).image }
{
    let used = way.pick(h.used, h.ahead) as usize;
    if used == 0 {
        return inplace::answer_with(way.pick(6, 8), 0);
    }
    let Some(newest) = newest_of(&*lent, h, way, used) else {
        return inplace::answer_with(1, 0);
    };
    let at = newest.place;
    let store = image::store_at(way);
    let start = store + at;
    let end = store + used;
    let Some(e) = journal::get(way, &lent[start..end]) else {
        return inplace::answer_with(1, 0);
    };
    take(lent, h, way, at, e, newest.passed as u8)
}

// ---- the calls, on a session that is lent as its image's bytes; kind and number passed stand beside the answer

#[tactic(auto, using(crate::proofs::Taking::unopened, crate::proofs::Taking::newest_taken))]
fn take_from(lent: &mut [u8], way: Way) -> Told
    ensures { MoveAllows way lent.old result lent.new }
{
    let Some(h) = inplace::open(&*lent) else {
        return inplace::answer_with(1, 0);
    };
    take_newest(lent, h, way)
}

pub fn undo(lent: &mut [u8]) -> Told
    ensures { UndoAllows lent.old result lent.new }
{
    take_from(lent, Way::Before)
}

pub fn redo(lent: &mut [u8]) -> Told
    ensures { RedoAllows lent.old result lent.new }
{
    take_from(lent, Way::After)
}
