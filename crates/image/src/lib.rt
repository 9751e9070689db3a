// A session as 4,411 bytes, its image: its head read and written at the fields' offsets, numbers big-endian, no padding.
#![tactic(auto)]

ghost use Rattle.std.specs.Prelude.{◌≡◌, ◌≤◌, ◌+◌, length};
ghost use Rattle.wire.specs.Wire.{pasted, Bytes, joined};
ghost use Rattle.image.specs.Image.{head_rows, throttles_rows, thermal_rows, logs_rows, mailbox_rows, worked_rows, record_rows, image_of, written_to, received_in, log_at, logs_in, record_in, worked_in, timer_rows, timer_in, head_in, head_renewed, head_timed, store_at, journal_in, redo_in, marks_in, session_in};
ghost use Rattle.layout.specs.Layout.{journal_at, timer_at, image_length};

use journal::Way;
use record::{Areas, Caps, Deadman, Log, Received, Record, Throttles, Timer, Worked};
use session::Session;

// A session without its journal, its redo store and its marks, which stay in the lent bytes.
#[derive(Clone, Copy)]
pub struct Head {
    pub held: Record,
    pub worked: Worked,
    pub next: u16,
    pub used: u16,
    pub ahead: u16,
    pub timer: Timer,
    pub profile: u8,
}

// A head from a head: this record, with what is worked out of it, this next id and these used lengths; the rest is kept.
#[tactic(auto, unfolding(crate::specs::Image::head_renewed))]
pub fn renewed(h: Head, held: Record, next: u16, used: u16, ahead: u16) -> Head
    ensures { result ≡ head_renewed h held next used ahead }
{
    Head {
        held,
        worked: record::work_out(held),
        next,
        used,
        ahead,
        ..h
    }
}

// And one with another timer.
#[tactic(auto, unfolding(crate::specs::Image::head_timed))]
pub fn with_timer(h: Head, timer: Timer) -> Head
    ensures { result ≡ head_timed h timer }
{
    Head { timer, ..h }
}

// Where a store stands, 2,048 bytes.
#[tactic(auto, unfolding(crate::specs::Image::store_at))]
pub fn store_at(way: Way) -> usize
    ensures { result ≡ store_at way }
{
    match way {
        Way::Before => layout::JOURNAL,
        Way::After => layout::REDO,
    }
}

// ---- writing, a part at a time; the rest of the buffer is kept

#[tactic(auto, using(crate::proofs::Fields::head_put))]
fn put_head(d: &mut [u8], state: u8, role: u8, caps: Caps)
    requires { journal_at ≤ length d.old }
    ensures { d.new ≡ pasted 0 (joined (head_rows state role caps)) d.old }
{
    wire::copy(&mut *d, 0, &[state, role]);
    wire::put_be(&mut *d, 2, 2, caps.min as u64);
    wire::put_be(&mut *d, 4, 2, caps.max as u64);
    wire::put_be(d, 6, 2, caps.over as u64);
}

#[tactic(auto, using(crate::proofs::Fields::throttles_put))]
fn put_throttles(d: &mut [u8], throttles: Throttles)
    requires { journal_at ≤ length d.old }
    ensures { d.new ≡ pasted 8 (joined (throttles_rows throttles)) d.old }
{
    wire::put_be(&mut *d, 8, 2, throttles.present as u64);
    wire::copy(d, 10, &throttles.sets);
}

#[tactic(auto, using(crate::proofs::Fields::thermal_put))]
fn put_thermal(d: &mut [u8], user: u16, thermal: [u8; 9])
    requires { journal_at ≤ length d.old }
    ensures { d.new ≡ pasted 170 (joined (thermal_rows user thermal)) d.old }
{
    wire::put_be(&mut *d, 170, 2, user as u64);
    wire::copy(d, 172, &thermal);
}

#[tactic(auto, unfolding(wire::specs::Wire::joined, crate::specs::Image::logs_rows))]
fn put_logs(d: &mut [u8], got: Received, logs: [Log; 4])
    requires { journal_at ≤ length d.old }
    ensures { d.new ≡ pasted 181 (joined (logs_rows got logs)) d.old }
{
    let [a, b, c, e] = logs;
    let bytes = [
        got.role,
        got.caps,
        got.throttles,
        got.thermal,
        a.id,
        a.reason,
        b.id,
        b.reason,
        c.id,
        c.reason,
        e.id,
        e.reason,
    ];
    wire::copy(d, 181, &bytes);
}

#[tactic(auto, using(crate::proofs::Fields::mailbox_put))]
fn put_mailbox(d: &mut [u8], mask: u32, deadman: Deadman, areas: Areas)
    requires { journal_at ≤ length d.old }
    ensures { d.new ≡ pasted 193 (joined (mailbox_rows mask deadman areas)) d.old }
{
    wire::put_be(&mut *d, 193, 4, mask as u64);
    wire::copy(&mut *d, 197, &[deadman.running]);
    wire::put_be(&mut *d, 198, 8, deadman.time);
    wire::put_be(&mut *d, 206, 8, areas.ffdc.address);
    wire::put_be(&mut *d, 214, 4, areas.ffdc.size as u64);
    wire::put_be(&mut *d, 218, 8, areas.pass.address);
    wire::put_be(d, 226, 4, areas.pass.size as u64);
}

#[tactic(auto, using(crate::proofs::Fields::worked_put))]
fn put_worked(d: &mut [u8], worked: Worked, next: u16, used: u16)
    requires { journal_at ≤ length d.old }
    ensures { d.new ≡ pasted 230 (joined (worked_rows worked next used)) d.old }
{
    wire::put_be(&mut *d, 230, 2, worked.limit as u64);
    wire::copy(
        &mut *d,
        232,
        &[worked.observation, worked.active, worked.wanted],
    );
    wire::put_be(&mut *d, 235, 2, next as u64);
    wire::put_be(d, 237, 2, used as u64);
}

#[tactic(auto, using(crate::proofs::Fields::record_put, crate::proofs::Fields::length_record))]
fn put_record(d: &mut [u8], r: Record)
    requires { journal_at ≤ length d.old }
    ensures d_after { d.new ≡ pasted 0 (joined (record_rows r)) d.old }
    ensures r_len { length (joined (record_rows r)) ≡ 230 }
{
    put_head(&mut *d, r.state, r.role, r.caps);
    put_throttles(&mut *d, r.throttles);
    put_thermal(&mut *d, r.user, r.thermal);
    put_logs(&mut *d, r.received, r.logs);
    put_mailbox(d, r.mask, r.deadman, r.areas);
}

// And the profile, which stands after it.
#[tactic(auto, using(crate::proofs::Fields::timer_put))]
fn put_timer(d: &mut [u8], timer: Timer, profile: u8)
    requires { image_length ≤ length d.old }
    ensures { d.new ≡ pasted timer_at (joined (timer_rows timer profile)) d.old }
{
    wire::copy(&mut *d, layout::TIMER, &[timer.running]);
    wire::put_be(&mut *d, layout::TIMER + 1, 8, timer.left);
    wire::copy(d, layout::PROFILE, &[profile]);
}

// The head, around the stores and marks that stand there.
#[tactic(auto, using(crate::proofs::Standing::head_stands))]
pub fn write_head(d: &mut [u8], h: Head)
    requires { length d.old ≡ image_length }
    ensures { d.new ≡ image_of (session_in h d.old) }
{
    put_record(&mut *d, h.held);
    put_worked(&mut *d, h.worked, h.next, h.used);
    wire::put_be(&mut *d, layout::AHEAD, 2, h.ahead as u64);
    put_timer(d, h.timer, h.profile);
}

fn put_stores(d: &mut [u8], journal: [u8; 2048], redo: [u8; 2048], marks: [u8; 64])
    requires { length d.old ≡ image_length }
    ensures { (journal_in d.new ≡ journal) × ((redo_in d.new ≡ redo) × (marks_in d.new ≡ marks)) }
{
    wire::copy(&mut *d, layout::JOURNAL, &journal);
    wire::copy(&mut *d, layout::REDO, &redo);
    wire::copy(d, layout::MARKS, &marks);
}

// A whole session; bytes of another length are kept.
pub fn write(s: Session, d: &mut [u8])
    ensures { d.new ≡ written_to d.old s }
{
    if d.len() != layout::IMAGE {
        return;
    }
    put_stores(&mut *d, s.journal, s.redo, s.marks);
    write_head(
        d,
        Head {
            held: s.held,
            worked: s.worked,
            next: s.next,
            used: s.used,
            ahead: s.ahead,
            timer: s.timer,
            profile: s.profile,
        },
    );
}

// ---- reading, a part at a time

#[tactic(auto, unfolding(crate::specs::Image::received_in))]
fn received_in(b: &[u8]) -> Received
    requires { journal_at ≤ length b.now }
    ensures { result ≡ received_in b.now }
{
    Received {
        role: b[181],
        caps: b[182],
        throttles: b[183],
        thermal: b[184],
    }
}

#[tactic(auto, unfolding(crate::specs::Image::log_at))]
fn log_at(b: &[u8], at: usize) -> Log
    requires { at + 2 ≤ length b.now }
    ensures { result ≡ log_at at b.now }
{
    Log {
        id: b[at],
        reason: b[at + 1],
    }
}

#[tactic(auto, unfolding(crate::specs::Image::logs_in))]
fn logs_in(b: &[u8]) -> [Log; 4]
    requires { journal_at ≤ length b.now }
    ensures { result ≡ logs_in b.now }
{
    [
        log_at(b, 185),
        log_at(b, 187),
        log_at(b, 189),
        log_at(b, 191),
    ]
}

#[tactic(auto, unfolding(crate::specs::Image::record_in, crate::specs::Image::caps_in, crate::specs::Image::throttles_in, crate::specs::Image::deadman_in, crate::specs::Image::areas_in, journal::specs::Read::caps_at, journal::specs::Read::area_at))]
pub fn record_in(b: &[u8]) -> Record
    requires { journal_at ≤ length b.now }
    ensures { result ≡ record_in b.now }
{
    Record {
        state: b[0],
        role: b[1],
        caps: journal::caps_at(b, 2),
        throttles: journal::throttles_at(b, 8),
        user: wire::be16(b, 170),
        thermal: journal::part_at(b, 172),
        received: received_in(b),
        logs: logs_in(b),
        mask: wire::be32(b, 193),
        deadman: Deadman {
            running: b[197],
            time: wire::be64(b, 198),
        },
        areas: Areas {
            ffdc: journal::area_at(b, 206),
            pass: journal::area_at(b, 218),
        },
    }
}

#[tactic(auto, unfolding(crate::specs::Image::worked_in))]
fn worked_in(b: &[u8]) -> Worked
    requires { journal_at ≤ length b.now }
    ensures { result ≡ worked_in b.now }
{
    Worked {
        limit: wire::be16(b, 230),
        observation: b[232],
        active: b[233],
        wanted: b[234],
    }
}

#[tactic(auto, unfolding(crate::specs::Image::timer_in))]
fn timer_in(b: &[u8]) -> Timer
    requires { image_length ≤ length b.now }
    ensures { result ≡ timer_in b.now }
{
    Timer {
        running: b[layout::TIMER],
        left: wire::be64(b, layout::TIMER + 1),
    }
}

// The head, by value; the stores stay where they stand. That lent bytes are bytes is said here, once: a call that writes nothing leaves
// the image of what was read.
#[tactic(auto, unfolding(crate::specs::Image::head_in), using(wire::proofs::laws::Wire::bytes_of))]
pub fn read_head(b: &[u8]) -> Head
    requires { image_length ≤ length b.now }
    ensures value { result ≡ head_in b.now }
    ensures bytes { Bytes b.now }
{
    Head {
        held: record_in(b),
        worked: worked_in(b),
        next: wire::be16(b, 235),
        used: wire::be16(b, 237),
        ahead: wire::be16(b, layout::AHEAD),
        timer: timer_in(b),
        profile: b[layout::PROFILE],
    }
}
