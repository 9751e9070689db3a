// A session that is lent as its image's bytes and worked on where it stands: its head is handed round by value, its stores are looked at
// and changed in place, and the head is written back only where it changed.
#![tactic(auto)]

ghost use Rattle.std.specs.Prelude.{◌≡◌, true, is_err, ◌≤◌, ◌+◌, length, MatchOption};
ghost use Rattle.wire.specs.Wire.{pasted};
ghost use Rattle.change.specs.Change.{takes_back};
ghost use Rattle.entries.specs.Entries.{Sized};
ghost use Rattle.marks.specs.Marks.{marks_of};
ghost use Rattle.journal.specs.Bytes.{entry_for, entry_bytes};
ghost use Rattle.journal.specs.Add.{entry_len, end_of, added_to, cut_from};
ghost use Rattle.session.specs.Session.{stores_ok, entries_in, profile_ok, well_formed, carried_of};
ghost use Rattle.image.specs.Image.{store_at, store_in, with_part, with_store, journal_in, redo_in, session_in};
ghost use Rattle.layout.specs.Layout.{marks_size, journal_at, marks_at, image_length};
ghost use Rattle.inplace.specs.InPlace.{Unopened, Opens, Marked, MarksMore, Entered, MarkedTo, head_after, carried_in};

use change::Edit;
use image::Head;
use journal::Way;

// The entry of a change is longer than the unused journal.
#[derive(Clone, Copy)]
pub struct NoRoom;

// A session answer; beside it a small number, the reason of a status 0x13, and one of 16 bits: the place of that status, the doorbell, the kind
// moved. 0 where a call has none.
#[derive(Clone, Copy)]
pub struct Told {
    pub answer: u8,
    pub small: u8,
    pub beside: u16,
}

// The same without a small number.
pub fn answer_with(answer: u8, beside: u16) -> Told
    ensures { result ≡ record { answer = answer; small = 0; beside = beside } }
{
    Told {
        answer,
        small: 0,
        beside,
    }
}

// ---- the test for answer 1, on the head that was read and the stores that stand there

fn stores_ok(lent: &[u8], h: Head) -> bool
    requires { length lent.now ≡ image_length }
    ensures { result ≡ stores_ok (session_in h lent.now) }
{
    let used = h.used as usize;
    let ahead = h.ahead as usize;
    if layout::STORE < used + ahead {
        return false;
    }
    let marks = &lent[layout::MARKS..layout::TIMER];
    if !session::store_ok(
        Way::Before,
        &lent[layout::JOURNAL..layout::AHEAD],
        used,
        marks,
    ) {
        return false;
    }
    session::store_ok(
        Way::After,
        &lent[layout::REDO..layout::REDO_END],
        ahead,
        marks,
    )
}

// Full, or watch-only with clears alone in both stores, which read as entries.
fn profile_ok(lent: &[u8], h: Head) -> bool
    requires { (length lent.now ≡ image_length) × (stores_ok (session_in h lent.now) ≡ true) }
    ensures { result ≡ profile_ok h.profile (entries_in h.used (journal_in lent.now)) (entries_in h.ahead (redo_in lent.now)) }
{
    if h.profile == 0 {
        return true;
    }
    if h.profile != 1 {
        return false;
    }
    let end = layout::JOURNAL + h.used as usize;
    if !session::only_clears(&lent[layout::JOURNAL..end]) {
        return false;
    }
    let redo_end = layout::REDO + h.ahead as usize;
    session::only_clears(&lent[layout::REDO..redo_end])
}

pub fn well_formed(lent: &[u8], h: Head) -> bool
    requires { length lent.now ≡ image_length }
    ensures { result ≡ well_formed (session_in h lent.now) }
{
    if !session::held_ok(h.held, h.worked, h.next) {
        return false;
    }
    if !formed::timer_ok(h.timer) {
        return false;
    }
    if !stores_ok(lent, h) {
        return false;
    }
    profile_ok(lent, h)
}

// What each call begins with: the head of the session that is lent, None where the bytes are no image, or one of a session that isn't
// well formed. Answer 1 is due then.
#[tactic(auto, using(std::proofs::Common::sym, std::proofs::Common::ap, crate::proofs::laws::InPlace::as_read, crate::proofs::laws::InPlace::stands))]
pub fn open(lent: &[u8]) -> Option<Head>
    ensures { MatchOption result (Unopened lent.now) (Opens lent.now) }
{
    if lent.len() != layout::IMAGE {
        return None;
    }
    let h = image::read_head(lent);
    if !well_formed(lent, h) {
        return None;
    }
    Some(h)
}

// ---- a store changed where it stands

// Its bytes from `at` to the end of the used ones are zeroed.
#[tactic(auto, using(crate::proofs::Standing::lent_on, crate::proofs::Standing::lent_fits))]
pub fn cut(lent: &mut [u8], way: Way, at: usize, used: usize)
    requires { length lent.old ≡ image_length }
    ensures { lent.new ≡ with_store (store_at way) (cut_from at used (store_in way lent.old)) lent.old }
{
    let start = image::store_at(way);
    let end = start + layout::STORE;
    journal::cut(&mut lent[start..end], at, used);
}

// An entry is put at the end of its used bytes; the room is known.
#[tactic(auto, using(crate::proofs::Standing::lent_fits, crate::proofs::Standing::lent_room, crate::proofs::Standing::appended_in))]
pub fn append(lent: &mut [u8], way: Way, used: usize, e: Edit)
    requires { (length lent.old ≡ image_length) × (used + entry_len e ≤ 2048) }
    ensures lent_after { lent.new ≡ with_store (store_at way) (pasted used (entry_bytes e) (store_in way lent.old)) lent.old }
    ensures lent_len { length (pasted used (entry_bytes e) (store_in way lent.old)) ≡ 2048 }
{
    let start = image::store_at(way);
    let end = start + layout::STORE;
    journal::append(&mut lent[start..end], used, e);
}

// Adds an entry to the journal, where there is room.
#[tactic(auto, using(crate::proofs::Standing::added_in))]
fn add(lent: &mut [u8], used: usize, e: Edit) -> Option<usize>
    requires { length lent.old ≡ image_length }
    ensures value { result ≡ end_of 2048 used e }
    ensures lent_after { lent.new ≡ with_store journal_at (added_to used e (journal_in lent.old)) lent.old }
    ensures lent_len { length (added_to used e (journal_in lent.old)) ≡ 2048 }
    ensures sized { Sized (entry_for e) }
{
    journal::add(&mut lent[layout::JOURNAL..layout::AHEAD], used, e)
}

// ---- its marks: no walk over the whole journal

// For an entry more, whatever it is, that begins at the used end: it is marked where 32 stand from the last mark on.
#[tactic(auto, using(crate::proofs::laws::Marked::place_low, crate::proofs::Marking::parts_long, crate::proofs::Marking::none_more, crate::proofs::Marking::unmarked_more, crate::proofs::Marking::marked_more, crate::proofs::Marking::next_room))]
pub fn mark_added(lent: &mut [u8], used: usize)
    requires { (length lent.old ≡ image_length) × Marked used lent.old × (used + 2 ≤ 2048) }
    ensures { MarksMore used lent.old lent.new }
{
    let last = marks::last(&lent[layout::MARKS..layout::TIMER]);
    let start = layout::JOURNAL + last.place;
    let end = layout::JOURNAL + used;
    let Some(newest) = marks::find_newest(&lent[start..end]) else {
        return;
    };
    if newest.passed != 31 {
        return;
    }
    let next = 2 * (last.number + 1);
    wire::put_be(
        &mut lent[layout::MARKS..layout::TIMER],
        next,
        2,
        used as u64,
    );
}

// For the newest entry less, which begins at `at`: its mark, if it has one, is the last.
#[tactic(auto, using(crate::proofs::Marking::parts_long, crate::proofs::Marking::still_less, crate::proofs::Marking::marked_less))]
pub fn mark_removed(lent: &mut [u8], used: usize, at: usize)
    requires { (length lent.old ≡ image_length) × MarkedTo used at lent.old }
    ensures { lent.new ≡ with_part marks_size marks_at (marks_of (entries_in at (journal_in lent.old))) lent.old }
{
    let last = marks::last(&lent[layout::MARKS..layout::TIMER]);
    if last.place != at {
        return;
    }
    wire::put_be(
        &mut lent[layout::MARKS..layout::TIMER],
        2 * last.number,
        2,
        0,
    );
}

// An entry is added to the journal, where there is room, with its mark.
#[tactic(auto, using(std::proofs::Common::None, std::proofs::Common::rules, crate::proofs::Standing::no_room_lem, crate::proofs::Standing::marked_still, crate::proofs::Standing::has_more))]
fn enter(lent: &mut [u8], used: usize, e: Edit) -> Option<usize>
    requires { (length lent.old ≡ image_length) × Marked used lent.old }
    ensures value { result ≡ end_of 2048 used e }
    ensures entered { Entered used e lent.old lent.new result }
{
    let to = add(&mut *lent, used, e)?;
    mark_added(lent, used);
    Some(to)
}

// ---- a change carried out

#[tactic(auto, unfolding(crate::specs::InPlace::head_after), using(crate::proofs::Carrying::made_fits))]
#[inline(never)]
fn head_after(h: Head, e: Edit, used: u16) -> Head
    requires { h.next ≤ 256 }
    ensures { result ≡ head_after h e used }
{
    let next = h.next + session::made(e.change);
    let timed = image::with_timer(h, change::timer_after(h.timer, e.change));
    match change::put(h.held, e) {
        Some(after) => image::renewed(timed, after, next, used, 0),
        None => image::renewed(timed, h.held, next, used, 0),
    }
}

// What takes a change back, as an entry. It and the head after the change aren't inlined: the
// stack that one takes isn't added to the other's.
#[inline(never)]
fn enter_back(lent: &mut [u8], h: Head, e: Edit) -> Option<usize>
    requires { (length lent.old ≡ image_length) × Marked h.used lent.old }
    ensures value { result ≡ end_of 2048 h.used (takes_back h.held h.timer e) }
    ensures entered { Entered h.used (takes_back h.held h.timer e) lent.old lent.new result }
{
    let back = change::takes_back(h.held, h.timer, e);
    enter(lent, h.used as usize, back)
}

// A change carried out: entry, record, worked-out values, next id and timer, in one place, and the redo store is emptied. Nothing else writes a record
// but undo and redo, by the same road. Where the entry has no room, nothing is written.
#[tactic(auto, using(crate::proofs::Carrying::end_fits, crate::proofs::Standing::is_marked, crate::proofs::Standing::full_in, crate::proofs::Standing::long_more, crate::proofs::Standing::length_cut, crate::proofs::Standing::done_in, crate::proofs::Standing::next_fits))]
pub fn carry(lent: &mut [u8], h: Head, e: Edit) -> Result<(), NoRoom>
    requires { (length lent.old ≡ image_length) × (well_formed (session_in h lent.old) ≡ true) }
    ensures value { is_err result ≡ (carried_of (session_in h lent.old) e).full }
    ensures lent_after { lent.new ≡ carried_in lent.old (carried_of (session_in h lent.old) e) }
{
    let Some(used) = enter_back(&mut *lent, h, e) else {
        return Err(NoRoom);
    };
    cut(&mut *lent, Way::After, 0, h.ahead as usize);
    let after = head_after(h, e, used as u16);
    image::write_head(lent, after);
    Ok(())
}
