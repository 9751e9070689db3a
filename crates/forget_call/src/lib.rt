// The call `forget`: the oldest changes go out of the journal, and the rest moves down, so that their room is used again. The record stays, and all
// that is worked out from it, the next id and the redo store.
#![tactic(auto)]

ghost use Rattle.std.specs.Prelude.{true, ◌++◌, ◌≡◌, ◌≤◌, ◌<◌, ◌-◌, length, take, drop};
ghost use Rattle.entries.specs.Entries.{entries_of, scan, ReadsWhole};
ghost use Rattle.marks.specs.Marks.{marks_of};
ghost use Rattle.session.specs.Session.{well_formed, entries_in};
ghost use Rattle.session.specs.Road.{moved_down, session_freed};
ghost use Rattle.image.specs.Image.{image_of, with_part, with_store, journal_in, session_in};
ghost use Rattle.layout.specs.Layout.{marks_size, journal_at, marks_at, image_length};
ghost use Rattle.inplace.specs.InPlace.{HeadStands};
ghost use Rattle.forget_call.specs.Forget.{oldest_asks, forgot_by, ForgetAllows, OldestEnd, marked_at};

use image::Head;
use inplace::Told;

// ---- the entries that go

// Where the `n` oldest end, of bytes that read as entries; none where there are fewer.
#[tactic(auto, using(crate::proofs::Walks::none_came, crate::proofs::Walks::stays_in, crate::proofs::Walks::came_next, crate::proofs::Walks::too_few, crate::proofs::Walks::found_end))]
fn oldest_end(j: &[u8], n: usize) -> Option<usize>
    requires { ReadsWhole j.now }
    ensures { OldestEnd j.now n result }
{
    let mut at = 0;
    for _ in 0..n {
        if j.len() <= at {
            return None;
        }
        at += entries::body_len(j[at]) + 1;
    }
    Some(at)
}

// ---- the bytes that stay

// Those from `at` on go to the front, and what they leave is zeroed.
#[tactic(auto, using(std::proofs::Common::drop, std::proofs::Common::length, std::proofs::Common::refl, std::proofs::Common::arith, std::proofs::lemmas::Grind::common_steps, crate::proofs::Freeing::moved_down_lem))]
fn move_down(j: &mut [u8], at: usize)
    requires { at ≤ length j.old }
    ensures { j.new ≡ moved_down at j.old }
{
    j.copy_within(at.., 0);
    let left = j.len() - at;
    wire::zero_all(&mut j[left..]);
}

#[tactic(auto, using(crate::proofs::Freeing::journal_long, crate::proofs::Freeing::journal_moved))]
fn move_journal(lent: &mut [u8], at: usize)
    requires { (length lent.old ≡ image_length) × (at ≤ 2048) }
    ensures { lent.new ≡ with_store journal_at (moved_down at (journal_in lent.old)) lent.old }
{
    move_down(&mut lent[layout::JOURNAL..layout::AHEAD], at);
}

// ---- their marks

// An entry with `n` before it, which begins at `at`: every 32nd is marked.
#[tactic(auto, using(crate::proofs::Walks::put_mark, crate::proofs::Walks::no_mark))]
fn mark(m: &mut [u8], n: usize, at: usize)
    requires { (length m.old ≡ 64) × (n < 1024) }
    ensures { m.new ≡ marked_at n at m.old }
{
    if n % 32 != 0 {
        return;
    }
    wire::put_be(m, 2 * (n / 32), 2, at as u64);
}

// The marks of bytes that read as entries, by a walk over all of them: each stands elsewhere than before.
#[tactic(auto, using(crate::proofs::Walks::stays_in, crate::proofs::Walks::few, crate::proofs::Walks::none_walked, crate::proofs::Walks::marks_wide, crate::proofs::Walks::walked_next, crate::proofs::Walks::walked_all))]
pub fn marks_of(j: &[u8]) -> [u8; 64]
    requires { ReadsWhole j.now × (length j.now ≤ 2048) }
    ensures { result ≡ marks_of (entries_of (scan j.now)) }
{
    let mut m = [0u8; 64];
    let mut at = 0;
    let mut count = 0;
    while at < j.len() {
        mark(&mut m, count, at);
        at += entries::body_len(j[at]) + 1;
        count += 1;
    }
    m
}

#[tactic(auto, using(crate::proofs::Freeing::reads_part, crate::proofs::Freeing::used_long, crate::proofs::Freeing::marks_put, crate::proofs::Freeing::marks_fit_lem))]
fn mark_all(lent: &mut [u8], used: usize)
    requires { (length lent.old ≡ image_length) × (used ≤ 2048) × ReadsWhole (take used (journal_in lent.old)) }
    ensures { lent.new ≡ with_part marks_size marks_at (marks_of (entries_in used (journal_in lent.old))) lent.old }
{
    let end = layout::JOURNAL + used;
    let m = marks_of(&lent[layout::JOURNAL..end]);
    wire::copy(lent, layout::MARKS, &m);
}

// ---- the call, on a session that is lent as its image's bytes

// The journal without its first `at` bytes, which are whole entries.
#[tactic(auto, using(crate::proofs::Freeing::long_c, crate::proofs::Freeing::left_fits, crate::proofs::Freeing::left_whole, crate::proofs::Freeing::long_d, crate::proofs::Freeing::session_freed_lem))]
fn free(lent: &mut [u8], h: Head, at: usize)
    requires { (length lent.old ≡ image_length) × (at ≤ h.used) × (h.used ≤ 2048) × ReadsWhole (drop at (take h.used (journal_in lent.old))) }
    ensures { lent.new ≡ image_of (session_freed at (session_in h lent.old)) }
{
    let left = h.used as usize - at;
    move_journal(&mut *lent, at);
    mark_all(&mut *lent, left);
    let head = image::renewed(h, h.held, h.next, left as u16, h.ahead);
    image::write_head(lent, head);
}

#[tactic(auto, using(crate::proofs::Freeing::used_low, crate::proofs::Freeing::journal_whole, crate::proofs::Freeing::fewer_held, crate::proofs::Freeing::at_low, crate::proofs::Freeing::rest_whole, crate::proofs::Freeing::all_forgotten))]
fn forget_oldest(lent: &mut [u8], h: Head, n: usize) -> Told
    requires { HeadStands h lent.old × (well_formed (session_in h lent.old) ≡ true) }
    ensures value { result ≡ (forgot_by (session_in h lent.old) (oldest_asks n (session_in h lent.old))).told }
    ensures lent_after { lent.new ≡ (forgot_by (session_in h lent.old) (oldest_asks n (session_in h lent.old))).image }
{
    let end = layout::JOURNAL + h.used as usize;
    let Some(at) = oldest_end(&lent[layout::JOURNAL..end], n) else {
        return inplace::answer_with(9, 0);
    };
    free(lent, h, at);
    inplace::answer_with(0, 0)
}

#[tactic(auto, using(crate::proofs::Freeing::unopened, crate::proofs::Freeing::oldest_forgotten))]
pub fn forget(lent: &mut [u8], n: u32) -> Told
    ensures { ForgetAllows n lent.old result lent.new }
{
    let Some(h) = inplace::open(&*lent) else {
        return inplace::answer_with(1, 0);
    };
    forget_oldest(lent, h, n as usize)
}
