// OCC packets: the command reader, which hands back the data as that part of the caller's buffer, and the replies.
#![tactic(auto, unfolding(crate::specs::Packet::whole_length, crate::specs::Packet::data_length, crate::specs::Packet::status_at, crate::specs::Packet::packet_status, crate::specs::Packet::data_at, crate::specs::Packet::data_of, crate::specs::Packet::unsummed, crate::specs::Packet::reply_bytes, crate::specs::Packet::replied))]

ghost use Rattle.std.specs.Prelude.{◌≡◌};
ghost use Rattle.packet.specs.Packet.{whole_length, packet_status, data_of, no_log_id, replied};

// Why a command gets an error reply.
#[derive(Clone, Copy)]
pub enum Status {
    InvalidCommand,
    InvalidLength,
    InvalidData,
    ChecksumFailure,
    InternalError,
    StateProhibits,
}

impl From<Status> for u8 {
    ghost use Rattle.std.specs.Prelude.{◌≡◌};
    ghost use Rattle.packet.specs.Packet.{status_number};

    ghost from_gives = { λ status n. n ≡ status_number status };

    fn from(status: Status) -> u8 {
        match status {
            Status::InvalidCommand => 0x11,
            Status::InvalidLength => 0x12,
            Status::InvalidData => 0x13,
            Status::ChecksumFailure => 0x14,
            Status::InternalError => 0x15,
            Status::StateProhibits => 0x16,
        }
    }
}

// The length of the data, where the whole packet is in the buffer.
fn whole_length(c: &[u8]) -> Option<usize>
    ensures { result ≡ whole_length c.now }
{
    if c.len() < 6 {
        return None;
    }
    let n = wire::be16(c, 2) as usize;
    if c.len() - 6 < n {
        return None;
    }
    Some(n)
}

// Whether the packet is whole and its checksum right.
pub fn check(c: &[u8]) -> Result<(), Status>
    ensures { result ≡ packet_status c.now }
{
    let n = whole_length(c).ok_or(Status::InvalidLength)?;
    if 4090 < n {
        return Err(Status::InvalidLength);
    }
    let end = n + 4;
    let sent = wire::be16(c, end);
    if sent != packet_sum::sum(&c[..end]) {
        return Err(Status::ChecksumFailure);
    }
    Ok(())
}

// The data, uncopied; an empty part where the packet is longer than the buffer.
pub fn data_part(c: &[u8]) -> &[u8]
    ensures { result.now ≡ data_of c.now }
{
    let Some(n) = whole_length(c) else {
        return &c[..0];
    };
    let end = 4 + n;
    &c[4..end]
}

// Writes a reply to the front of `d`; the bytes past it, and a buffer without room, are kept.
pub fn reply(d: &mut [u8], seq: u8, kind: u8, status: u8, part: &[u8])
    ensures { d.new ≡ replied seq kind status part.now d.old }
{
    if d.len() < 7 {
        return;
    }
    if d.len() - 7 < part.len() {
        return;
    }
    let n = part.len();
    let head = [seq, kind, status];
    wire::copy(&mut *d, 0, &head);
    wire::put_be(&mut *d, 3, 2, n as u64);
    wire::copy(&mut *d, 5, part);
    let end = 5 + n;
    let sum = packet_sum::sum(&d[..end]);
    wire::put_be(d, end, 2, sum as u64);
}

// An error reply has one data byte, log id 0x00.
pub fn error_reply(d: &mut [u8], seq: u8, kind: u8, status: u8)
    ensures { d.new ≡ replied seq kind status no_log_id d.old }
{
    let id = [0x00];
    reply(d, seq, kind, status, &id);
}
