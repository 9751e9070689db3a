// Document 02, m: sessions saved and restored, and those saved by the base version moved across, up and down. What is read is read whole, into a session of
// its own, before a byte of the caller's buffer is written.
#![tactic(auto)]

ghost use Rattle.std.specs.Prelude.{true, ◌∷◌, ◌≡◌, ◌≤◌, ◌+◌, length, drop};
ghost use Rattle.wire.specs.Wire.{pasted};
ghost use Rattle.entries.specs.Entries.{body_len, scan, entries_of, ReadsWhole};
ghost use Rattle.session.specs.Session.{well_formed};
ghost use Rattle.image.specs.Image.{image_of, part_at, record_in, head_in, session_in, session_of};
ghost use Rattle.layout.specs.Layout.{image_length};
ghost use Rattle.saving.specs.Forms.{base_head, base_most, base_of, padded, session_of_base, saved_length, saved_of, kinds_ok, used_in, timer_from, session_of_saved};
ghost use Rattle.saving.specs.Moves.{first_rule, base_entry, base_entries, base_holds, goes_down, base_reads, saved_reads, Allows, put_into, save_to, restore_to, move_up_to, move_down_to};

use entries::Entries;
use image::Head;
use inplace::Told;
use record::{Record, Timer};
use session::Session;

// The new form's bytes; the base form's before its journal, and the most that it has.
pub const SAVED: usize = 4409;

pub const BASE_HEAD: usize = 232;

pub const BASE_MOST: usize = 2280;

// ---- what the base version could hold

// Document 01's first rule, on nine thermal bytes.
#[tactic(auto, unfolding(crate::specs::Moves::first_rule, formed::specs::Formed::in_order_first))]
fn first_rule(t: &[u8]) -> bool
    requires { 9 ≤ length t.now }
    ensures { result ≡ first_rule t.now }
{
    t[0] <= t[1] && t[3] <= t[4] && t[6] <= t[7]
}

// Of kind 0C none, of kind 06 by the rule.
#[tactic(auto, unfolding(crate::specs::Moves::base_entry, entries::specs::Entries::body_len))]
fn entry_holds(kind: u8, body: &[u8]) -> bool
    requires { length body.now ≡ body_len kind }
    ensures { result ≡ base_entry (record { kind = kind; body = body.now }) }
{
    match kind {
        0x0C => false,
        0x06 => first_rule(&body[1..]),
        _ => true,
    }
}

// Whether each entry is one of the base version's.
fn entries_hold(j: &[u8]) -> bool
    ensures { result ≡ base_entries (entries_of (scan j.now)) }
{
    for (kind, body) in Entries::new(j) {
        if !entry_holds(kind, body) {
            return false;
        }
    }
    true
}

// Of a well-formed session.
#[tactic(auto, using(crate::proofs::Holding::used_fits, crate::proofs::Holding::holds_not, crate::proofs::Holding::holds_so))]
fn holds_base(d: &[u8], h: Head) -> bool
    requires { (length d.now ≡ image_length) × (h ≡ head_in d.now) × (well_formed (session_in h d.now) ≡ true) }
    ensures { result ≡ base_holds (session_in h d.now) }
{
    let end = layout::JOURNAL + h.used as usize;
    first_rule(&d[172..181]) && entries_hold(&d[layout::JOURNAL..end])
}

// "Moving down is possible only with an empty redo store, the full profile, no kind 0C entry or timer, and no threshold .."
#[tactic(auto, unfolding(crate::specs::Moves::goes_down, image::specs::Image::session_in))]
fn goes_down(d: &[u8], h: Head) -> bool
    requires { (length d.now ≡ image_length) × (h ≡ head_in d.now) × (well_formed (session_in h d.now) ≡ true) }
    ensures { result ≡ goes_down (session_in h d.now) }
{
    h.ahead == 0 && h.profile == 0 && h.timer.running == 0 && holds_base(d, h)
}

// ---- the new form read

// The seven kinds, each where its part begins.
#[tactic(auto, unfolding(crate::specs::Forms::kinds_ok))]
fn kinds_ok(b: &[u8]) -> bool
    requires { length b.now ≡ saved_length }
    ensures { result ≡ kinds_ok b.now }
{
    b[0] == 0x01
        && b[231] == 0x02
        && b[234] == 0x03
        && b[2283] == 0x04
        && b[4332] == 0x05
        && b[4397] == 0x06
        && b[4399] == 0x07
}

// How many bytes of a store its entries take: up to what is none.
#[tactic(auto, using(crate::proofs::Reading::used, crate::proofs::Reading::used_broken))]
fn used_in(j: &[u8]) -> usize
    ensures { (result ≡ used_in j.now) × (result ≤ length j.now) }
{
    match entries::read(j) {
        Ok(_) => j.len(),
        Err(broken) => broken.place,
    }
}

#[tactic(auto, unfolding(crate::specs::Forms::timer_from))]
fn timer_from(b: &[u8]) -> Timer
    requires { length b.now ≡ saved_length }
    ensures { result ≡ timer_from b.now }
{
    Timer {
        running: b[4400],
        left: wire::be64(b, 4401),
    }
}

#[tactic(auto, using(crate::proofs::Reading::session_read))]
fn session_in(b: &[u8]) -> Session
    requires { length b.now ≡ saved_length }
    ensures { result ≡ session_of_saved b.now }
{
    let held = image::record_in(&b[1..]);
    let worked = record::work_out(held);
    let next = wire::be16(b, 232);
    let used = used_in(&b[235..2283]) as u16;
    let ahead = used_in(&b[2284..4332]) as u16;
    let journal = journal::part_at(b, 235);
    let redo = journal::part_at(b, 2284);
    let marks = journal::part_at(b, 4333);
    let timer = timer_from(b);
    Session {
        held,
        worked,
        next,
        journal,
        used,
        redo,
        ahead,
        marks,
        timer,
        profile: b[4398],
    }
}

// Whether a new form reads; d is the image of its session then.
#[tactic(auto, using(wire::proofs::laws::Wire::bytes_of, crate::proofs::Calls::saved_length_lem, crate::proofs::Calls::saved_kinds, crate::proofs::Calls::saved_found))]
fn read_saved(b: &[u8], d: &mut [u8]) -> bool
    requires { length d.old ≡ image_length }
    ensures value { result ≡ saved_reads b.now }
    ensures d_after { result ≡ true → d.new ≡ image_of (session_of_saved b.now) }
{
    if b.len() != SAVED {
        return false;
    }
    if !kinds_ok(b) {
        return false;
    }
    image::write(session_in(b), &mut *d);
    inplace::open(&*d).is_some()
}

// ---- the base form read

// Its record: `image::record_in` asks for 239 bytes, and a save may have 232.
#[tactic(auto, using(crate::proofs::Reading::front_read, crate::proofs::Reading::front_fits))]
fn base_record(b: &[u8]) -> Record
    requires { base_head ≤ length b.now }
    ensures { result ≡ record_in b.now }
{
    let mut front = [0u8; 239];
    wire::copy(&mut front, 0, &b[..230]);
    image::record_in(&front)
}

// "The journal padded to 2,048".
#[tactic(auto, using(crate::proofs::Reading::padded_is))]
fn pad(j: &[u8]) -> [u8; 2048]
    requires { length j.now ≤ 2048 }
    ensures { result ≡ padded j.now }
{
    let mut journal = [0u8; 2048];
    wire::copy(&mut journal, 0, j);
    journal
}

// "Moving up leaves redo empty, profile full and timer off, and works the marks out."
#[tactic(auto, using(crate::proofs::Reading::base_read, crate::proofs::Reading::journal_reads))]
fn session_of_base(b: &[u8]) -> Session
    requires { (base_head ≤ length b.now) × (length b.now ≤ base_most) × ReadsWhole (drop base_head b.now) }
    ensures { result ≡ session_of_base b.now }
{
    let held = base_record(b);
    let worked = record::work_out(held);
    let next = wire::be16(b, 230);
    let journal = pad(&b[BASE_HEAD..]);
    let marks = forget_call::marks_of(&b[BASE_HEAD..]);
    Session {
        held,
        worked,
        next,
        journal,
        used: (b.len() - BASE_HEAD) as u16,
        redo: [0; 2048],
        ahead: 0,
        marks,
        timer: Timer {
            running: 0,
            left: 0,
        },
        profile: 0,
    }
}

// Whether a base save reads: the image of its session stands in d then.
#[tactic(auto, using(wire::proofs::laws::Wire::bytes_of, crate::proofs::Calls::base_short, crate::proofs::Calls::base_over, crate::proofs::Calls::base_broken, crate::proofs::Calls::base_whole, crate::proofs::Calls::base_shut, crate::proofs::Calls::base_found))]
fn read_base(b: &[u8], d: &mut [u8]) -> bool
    requires { length d.old ≡ image_length }
    ensures value { result ≡ base_reads b.now }
    ensures d_after { result ≡ true → d.new ≡ image_of (session_of_base b.now) }
{
    if b.len() < BASE_HEAD {
        return false;
    }
    if BASE_MOST < b.len() {
        return false;
    }
    if used_in(&b[BASE_HEAD..]) != b.len() - BASE_HEAD {
        return false;
    }
    image::write(session_of_base(b), &mut *d);
    let Some(h) = inplace::open(&*d) else {
        return false;
    };
    holds_base(&*d, h)
}

// ---- writing, from a session's image

// A part: its kind and its body.
#[tactic(auto, using(crate::proofs::Writing::part_put))]
fn put_part(out: &mut [u8], at: usize, kind: u8, body: &[u8])
    requires { at + (length body.now + 1) ≤ length out.old }
    ensures { out.new ≡ pasted at (kind ∷ body.now) out.old }
{
    wire::copy(&mut *out, at, &[kind]);
    wire::copy(out, at + 1, body);
}

// The new form: the image's parts but for what is worked out and the used lengths.
#[tactic(auto, using(wire::proofs::laws::Wire::bytes_of, crate::proofs::Writing::part_long, crate::proofs::Writing::saved_put))]
fn put_saved(b: &[u8], out: &mut [u8])
    requires { (length b.now ≡ image_length) × (saved_length ≤ length out.old) }
    ensures out_after { out.new ≡ pasted 0 (saved_of (session_of b.now)) out.old }
    ensures b_len { length (saved_of (session_of b.now)) ≡ saved_length }
{
    put_part(&mut *out, 0, 0x01, &b[..230]);
    put_part(&mut *out, 231, 0x02, &b[235..237]);
    put_part(&mut *out, 234, 0x03, &b[layout::JOURNAL..layout::AHEAD]);
    put_part(&mut *out, 2283, 0x04, &b[layout::REDO..layout::REDO_END]);
    put_part(&mut *out, 4332, 0x05, &b[layout::MARKS..layout::TIMER]);
    put_part(&mut *out, 4397, 0x06, &b[layout::PROFILE..layout::IMAGE]);
    put_part(out, 4399, 0x07, &b[layout::TIMER..layout::PROFILE]);
}

// "13 output buffer too short" is known before a byte is written.
#[tactic(auto, using(wire::proofs::laws::Wire::bytes_of, crate::proofs::Writing::saved_long, crate::proofs::Writing::put_short, crate::proofs::Writing::put_done))]
fn put_new(b: &[u8], out: &mut [u8]) -> Told
    requires { length b.now ≡ image_length }
    ensures { Allows (put_into (saved_of (session_of b.now)) out.old) result out.new }
{
    if out.len() < SAVED {
        return inplace::answer_with(13, 0);
    }
    put_saved(b, out);
    inplace::answer_with(0, 4409)
}

// The base form: the record, the next id and the used journal.
#[tactic(auto, using(wire::proofs::laws::Wire::bytes_of, crate::proofs::Writing::base_put))]
fn put_base(b: &[u8], used: usize, out: &mut [u8])
    requires { (length b.now ≡ image_length) × (used ≡ (session_of b.now).used) × (used ≤ 2048) × (base_head + used ≤ length out.old) }
    ensures out_after { out.new ≡ pasted 0 (base_of (session_of b.now)) out.old }
    ensures b_len { length (base_of (session_of b.now)) ≡ base_head + used }
{
    let end = layout::JOURNAL + used;
    wire::copy(&mut *out, 0, &b[..230]);
    wire::copy(&mut *out, 230, &b[235..237]);
    wire::copy(out, BASE_HEAD, &b[layout::JOURNAL..end]);
}

#[tactic(auto, using(wire::proofs::laws::Wire::bytes_of, crate::proofs::Writing::base_long, crate::proofs::Writing::put_short, crate::proofs::Writing::put_done))]
fn put_old(b: &[u8], used: usize, out: &mut [u8]) -> Told
    requires { (length b.now ≡ image_length) × (used ≡ (session_of b.now).used) × (used ≤ 2048) }
    ensures { Allows (put_into (base_of (session_of b.now)) out.old) result out.new }
{
    if out.len() < BASE_HEAD + used {
        return inplace::answer_with(13, 0);
    }
    put_base(b, used, out);
    inplace::answer_with(0, (BASE_HEAD + used) as u16)
}

// ---- the public calls

// An image's bytes, to read a saved session into.
fn blank() -> [u8; 4411]
    ensures { length result ≡ image_length }
{
    [0; 4411]
}

// The new form of a well-formed session, which is lent as its image's bytes.
#[tactic(auto, using(crate::proofs::Calls::save_unopened, crate::proofs::Calls::save_put))]
pub fn save(session: &[u8], out: &mut [u8]) -> Told
    ensures { Allows (save_to session.now out.old) result out.new }
{
    let Some(_) = inplace::open(session) else {
        return inplace::answer_with(1, 0);
    };
    put_new(session, out)
}

// The session of a new form, as its image's bytes, whatever session was there.
#[tactic(auto, using(crate::proofs::Calls::restore_length, crate::proofs::Calls::restore_ill, crate::proofs::Calls::restore_done))]
pub fn restore(session: &mut [u8], saved: &[u8]) -> Told
    ensures { Allows (restore_to saved.now session.old) result session.new }
{
    if session.len() != layout::IMAGE {
        return inplace::answer_with(1, 0);
    }
    let mut d = blank();
    if !read_saved(saved, &mut d) {
        return inplace::answer_with(11, 0);
    }
    wire::copy(session, 0, &d);
    inplace::answer_with(0, 0)
}

// A base save as the new form.
#[tactic(auto, using(wire::proofs::laws::Wire::bytes_of, crate::proofs::Calls::up_ill, crate::proofs::Calls::up_put))]
pub fn move_up(saved: &[u8], out: &mut [u8]) -> Told
    ensures { Allows (move_up_to saved.now out.old) result out.new }
{
    let mut d = blank();
    if !read_base(saved, &mut d) {
        return inplace::answer_with(11, 0);
    }
    put_new(&d, out)
}

// A new form as a base save.
#[tactic(auto, using(wire::proofs::laws::Wire::bytes_of, crate::proofs::Holding::used_fits, crate::proofs::Calls::down_ill, crate::proofs::Calls::down_formed, crate::proofs::Calls::down_used, crate::proofs::Calls::down_not, crate::proofs::Calls::down_put))]
pub fn move_down(saved: &[u8], out: &mut [u8]) -> Told
    ensures { Allows (move_down_to saved.now out.old) result out.new }
{
    let mut d = blank();
    if !read_saved(saved, &mut d) {
        return inplace::answer_with(11, 0);
    }
    let h = image::read_head(&d);
    if !goes_down(&d, h) {
        return inplace::answer_with(12, 0);
    }
    put_old(&d, h.used as usize, out)
}
