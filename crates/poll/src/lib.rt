// The poll's reply: 40 data bytes, and the CAPS block of a master with caps received.
#![tactic(auto, unfolding(crate::specs::Poll::master_bit, crate::specs::Poll::mark_bit, crate::specs::Poll::status_byte, crate::specs::Poll::oldest_id, crate::specs::Poll::log_length, crate::specs::Poll::poll_head, crate::specs::Poll::caps_block, crate::specs::Poll::shows_caps, crate::specs::Poll::poll_data))]

ghost use Rattle.std.specs.Prelude.{◌≡◌, ◌≤◌};
ghost use Rattle.packet.specs.Packet.{replied};
ghost use Rattle.poll.specs.Poll.{master_bit, mark_bit, status_byte, log_length, shows_caps, poll_head, caps_block, poll_data};

use record::{Caps, Record, Worked};

fn master_bit(role: u8) -> u8
    ensures { (result ≡ master_bit role) × (result ≤ 0x80) }
{
    if role == 1 { 0x80 } else { 0x00 }
}

fn mark_bit(mark: u8, bit: u8) -> u8
    ensures { (result ≡ mark_bit mark bit) × (result ≤ bit) }
{
    if mark == 0 { 0x00 } else { bit }
}

fn status_byte(role: u8, w: Worked) -> u8
    ensures { result ≡ status_byte role w }
{
    master_bit(role) + mark_bit(w.observation, 0x02) + mark_bit(w.active, 0x01)
}

// A pending log has 0x0010 bytes.
fn log_length(id: u8) -> u8
    ensures { result ≡ log_length id }
{
    if id == 0 { 0x00 } else { 0x10 }
}

// Whether the reply has the CAPS block: a master with caps received.
fn shows_caps(role: u8, got: u8) -> bool
    ensures { result ≡ shows_caps role got }
{
    role == 1 && got != 0
}

// The 40 data bytes; the log's address is its id x 256.
fn poll_head(status: u8, wanted: u8, state: u8, id: u8, blocks: u8) -> [u8; 40]
    ensures { result ≡ poll_head status wanted state id blocks }
{
    let len = log_length(id);
    [
        status, 0, 0x01, wanted, state, 0, 0, id, 0, 0, id, 0, 0, len, 0, 0, b'b', b'e', b'n',
        b'c', b'h', 0, 0, 0, 0, 0, 0, 0, 0, 0, 0, 0, b'S', b'E', b'N', b'S', b'O', b'R', blocks,
        0x01,
    ]
}

// The CAPS block: its header, and six numbers of two bytes.
fn caps_block(limit: u16, caps: Caps, user: u16) -> [u8; 20]
    ensures { result ≡ caps_block limit caps user }
{
    let header = [b'C', b'A', b'P', b'S', 0x00, 0x01, 0x0C, 0x01];
    let mut b = [0u8; 20];
    wire::copy(&mut b, 0, &header);
    wire::put_be(&mut b, 8, 2, limit as u64);
    wire::put_be(&mut b, 10, 2, 0);
    wire::put_be(&mut b, 12, 2, caps.max as u64);
    wire::put_be(&mut b, 14, 2, caps.max as u64);
    wire::put_be(&mut b, 16, 2, caps.min as u64);
    wire::put_be(&mut b, 18, 2, user as u64);
    b
}

// Writes the reply to a poll.
pub fn poll_reply(d: &mut [u8], seq: u8, r: Record, w: Worked)
    ensures { d.new ≡ replied seq 0x00 0x00 (poll_data r w) d.old }
{
    let got = r.received;
    let logs = r.logs;
    let caps = r.caps;
    let oldest = logs[0];
    let status = status_byte(r.role, w);
    if !shows_caps(r.role, got.caps) {
        let head = poll_head(status, w.wanted, r.state, oldest.id, 0);
        packet::reply(d, seq, 0x00, 0x00, &head);
        return;
    }
    let head = poll_head(status, w.wanted, r.state, oldest.id, 1);
    let block = caps_block(w.limit, caps, r.user);
    let mut all = [0u8; 60];
    wire::copy(&mut all, 0, &head);
    wire::copy(&mut all, 40, &block);
    packet::reply(d, seq, 0x00, 0x00, &all);
}
