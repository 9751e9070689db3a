// The SBE mailbox: a request judged, its doorbell bits and its response. Nothing here changes a record or the timer.
#![tactic(auto, unfolding(crate::specs::Mailbox::flags_of, crate::specs::Mailbox::word_at, crate::specs::Mailbox::register_at, crate::specs::Mailbox::plain_flags, crate::specs::Mailbox::start_or_stop, crate::specs::Mailbox::deadman_of, crate::specs::Mailbox::exit_of, crate::specs::Mailbox::cores_of, crate::specs::Mailbox::target_of, crate::specs::Mailbox::chiplet_of, crate::specs::Mailbox::chiplet_ranges, crate::specs::Mailbox::within, crate::specs::Mailbox::in_ranges, crate::specs::Mailbox::chiplet_known, crate::specs::Mailbox::ring_at, crate::specs::Mailbox::ring_of, crate::specs::Mailbox::timer_of, crate::specs::Mailbox::seeprom_of, crate::specs::Mailbox::area_status, crate::specs::Mailbox::area_of, crate::specs::Mailbox::if_fine, crate::specs::Mailbox::areas_read, crate::specs::Mailbox::areas_judged, crate::specs::Mailbox::areas_of, crate::specs::Mailbox::core_state, crate::specs::Mailbox::ring_class, crate::specs::Mailbox::timer_class, crate::specs::Mailbox::general, crate::specs::Mailbox::request_for, crate::specs::Mailbox::request_ruling, crate::specs::Mailbox::bell_of, crate::specs::Mailbox::response_bytes))]

ghost use Rattle.std.specs.Prelude.{◌≡◌, ◌≤◌, length};
ghost use Rattle.wire.specs.Wire.{pasted};
ghost use Rattle.sbe.specs.declared.Ruling.TheVariants.{Grant};
ghost use Rattle.sbe.specs.Mailbox.{start_or_stop, deadman_of, exit_of, cores_of, chiplet_known, ring_of, timer_of, seeprom_of, area_status, area_of, areas_read, areas_of, request_ruling, plain_flags, bell_of, response_bytes};

use change::Change;
use record::{Area, Areas, Deadman, Timer};

// Why a request is refused.
#[derive(Clone, Copy)]
pub enum Refusal {
    ClassNotSupported,
    CommandNotSupported,
    InvalidAddress,
    InvalidTarget,
    InvalidChiplet,
    BufferOverflow,
    InvalidParameters,
    AccessDenied,
}

// Primary and secondary status.
impl From<Refusal> for (u16, u16) {
    ghost use Rattle.std.specs.Prelude.{◌≡◌};
    ghost use Rattle.sbe.specs.Mailbox.{numbers_of};

    ghost from_gives = { λ why n. n ≡ numbers_of why };

    fn from(why: Refusal) -> (u16, u16) {
        match why {
            Refusal::ClassNotSupported => (0x01, 0x01),
            Refusal::CommandNotSupported => (0x01, 0x02),
            Refusal::InvalidAddress => (0x02, 0x03),
            Refusal::InvalidTarget => (0x02, 0x04),
            Refusal::InvalidChiplet => (0x02, 0x05),
            Refusal::BufferOverflow => (0x02, 0x18),
            Refusal::InvalidParameters => (0x02, 0x19),
            Refusal::AccessDenied => (0x05, 0x20),
        }
    }
}

// Refused; the change to make; accepted without one; or an offset and a size of the SEEPROM to read, judged where its
// image is known.
#[derive(Clone, Copy)]
pub enum Ruling {
    Decline(Refusal),
    Grant(Change),
    Done,
    Read(u32, u32),
}

// No flag but 0x0100 and 0x0200.
fn plain_flags(flags: u16) -> bool
    ensures { result ≡ plain_flags flags }
{
    if 0x0400 <= flags {
        return false;
    }
    flags % 0x0100 == 0
}

// Exactly one of the two flags, beside those that ask for a doorbell bit.
fn start_or_stop(flags: u16, start: Change, stop: Change) -> Ruling
    ensures { result ≡ start_or_stop flags (Grant start) (Grant stop) }
{
    if 0x0400 <= flags {
        return Ruling::Decline(Refusal::InvalidParameters);
    }
    let asked = flags % 0x0100;
    match asked {
        0x01 => Ruling::Grant(start),
        0x02 => Ruling::Grant(stop),
        0x00 | 0x03..=0xFFFF => Ruling::Decline(Refusal::InvalidParameters),
    }
}

// D1 01: start with the time in register 1, or stop.
fn deadman(r: &[u8]) -> Ruling
    requires { 32 ≤ length r.now }
    ensures { result ≡ deadman_of r.now }
{
    let start = Change::SetDeadman(Deadman {
        running: 1,
        time: wire::be64(r, 8),
    });
    let stop = Change::SetDeadman(Deadman {
        running: 0,
        time: 0,
    });
    start_or_stop(wire::be16(r, 2), start, stop)
}

// D1 02: nothing but the response.
fn exit_contained(r: &[u8]) -> Ruling
    requires { 32 ≤ length r.now }
    ensures { result ≡ exit_of r.now }
{
    if !plain_flags(wire::be16(r, 2)) {
        return Ruling::Decline(Refusal::InvalidParameters);
    }
    Ruling::Done
}

// D1 03: register 1's first four bytes become the mask.
fn cores(r: &[u8]) -> Ruling
    requires { 32 ≤ length r.now }
    ensures { result ≡ cores_of r.now }
{
    if !plain_flags(wire::be16(r, 2)) {
        return Ruling::Decline(Refusal::InvalidParameters);
    }
    Ruling::Grant(Change::SetMask(wire::be32(r, 8)))
}

// A pervasive chiplet, target type 1.
fn pervasive(chiplet: u8) -> bool
    ensures { result ≡ chiplet_known 1 chiplet }
{
    match chiplet {
        0x01 | 0x02..=0x03 | 0x08..=0x09 | 0x0C..=0x0F | 0x10..=0x14 | 0x18..=0x1F | 0x20..=0x27 =>
            true,
        0x00 | 0x04..=0x07 | 0x0A..=0x0B | 0x15..=0x17 | 0x28..=0xFF => false,
    }
}

// The chiplets of each target type, by the table of section 1.1.6 of source document 003.
fn chiplet_known(target: u16, chiplet: u8) -> bool
    ensures { result ≡ chiplet_known target chiplet }
{
    match target {
        0 => true,
        1 => pervasive(chiplet),
        2 | 3 => chiplet == 0xFF,
        4 => chiplet <= 0x0F,
        5..=0xFFFF => false,
    }
}

// D3 01: target type, then chiplet; ring id and mode are taken as sent.
fn ring(r: &[u8]) -> Ruling
    requires { 32 ≤ length r.now }
    ensures { result ≡ ring_of r.now }
{
    if !plain_flags(wire::be16(r, 2)) {
        return Ruling::Decline(Refusal::InvalidParameters);
    }
    let target = wire::be16(r, 8);
    if 4 < target {
        return Ruling::Decline(Refusal::InvalidTarget);
    }
    if !chiplet_known(target, r[11]) {
        return Ruling::Decline(Refusal::InvalidChiplet);
    }
    Ruling::Done
}

// D4 01: start with the microseconds in register 1's second half, or stop.
fn timer(r: &[u8]) -> Ruling
    requires { 32 ≤ length r.now }
    ensures { result ≡ timer_of r.now }
{
    let start = Change::SetTimer(Timer {
        running: 1,
        left: wire::be32(r, 12) as u64,
    });
    let stop = Change::SetTimer(Timer {
        running: 0,
        left: 0,
    });
    start_or_stop(wire::be16(r, 2), start, stop)
}

// D7 03: offset and size in register 1.
fn seeprom(r: &[u8]) -> Ruling
    requires { 32 ≤ length r.now }
    ensures { result ≡ seeprom_of r.now }
{
    if !plain_flags(wire::be16(r, 2)) {
        return Ruling::Decline(Refusal::InvalidParameters);
    }
    Ruling::Read(wire::be32(r, 8), wire::be32(r, 12))
}

// Whether an area may be set; one of size 0 always may.
fn area_status(address: u64, size: u32) -> Result<(), Refusal>
    ensures { result ≡ area_status address size }
{
    if size == 0 {
        return Ok(());
    }
    if !formed::aligned(address) {
        return Err(Refusal::InvalidAddress);
    }
    if !formed::in_memory(address, size) {
        return Err(Refusal::InvalidAddress);
    }
    if !formed::aligned(size as u64) {
        return Err(Refusal::InvalidParameters);
    }
    Ok(())
}

// Size 0 makes that area's address and size 0.
fn area(address: u64, size: u32) -> Area
    ensures { result ≡ area_of address size }
{
    if size == 0 {
        return Area {
            address: 0,
            size: 0,
        };
    }
    Area {
        address: address,
        size: size,
    }
}

// Sizes in register 1, addresses in 2 and 3, the FFDC area first.
fn areas_read(r: &[u8]) -> Result<Areas, Refusal>
    requires { 32 ≤ length r.now }
    ensures { result ≡ areas_read r.now }
{
    let ffdc = wire::be32(r, 8);
    let pass = wire::be32(r, 12);
    let front = wire::be64(r, 16);
    let back = wire::be64(r, 24);
    area_status(front, ffdc)?;
    area_status(back, pass)?;
    Ok(Areas {
        ffdc: area(front, ffdc),
        pass: area(back, pass),
    })
}

// D7 04: both areas, or neither.
fn areas(r: &[u8]) -> Ruling
    requires { 32 ≤ length r.now }
    ensures { result ≡ areas_of r.now }
{
    if !plain_flags(wire::be16(r, 2)) {
        return Ruling::Decline(Refusal::InvalidParameters);
    }
    match areas_read(r) {
        Ok(areas) => Ruling::Grant(Change::SetAreas(areas)),
        Err(why) => Ruling::Decline(why),
    }
}

// A whole request of four registers, judged.
pub fn judge(r: &[u8]) -> Ruling
    requires { 32 ≤ length r.now }
    ensures { result ≡ request_ruling r.now }
{
    match (r[6], r[7]) {
        (0xD1, 0x01) => deadman(r),
        (0xD1, 0x02) => exit_contained(r),
        (0xD1, 0x03) => cores(r),
        (0xD3, 0x01) => ring(r),
        (0xD4, 0x01) => timer(r),
        (0xD7, 0x03) => seeprom(r),
        (0xD7, 0x04) => areas(r),
        (0xD1 | 0xD3..=0xD7, 0x00..=0xFF) => Ruling::Decline(Refusal::CommandNotSupported),
        (0x00..=0xD0 | 0xD2 | 0xD8..=0xFF, 0x00..=0xFF) => Ruling::Decline(
            Refusal::ClassNotSupported,
        ),
    }
}

// The doorbell bits that a request asks for, refused or not.
pub fn bell(r: &[u8]) -> u16
    requires { 32 ≤ length r.now }
    ensures { result ≡ bell_of r.now }
{
    let flags = wire::be16(r, 2);
    flags / 0x0100 % 2 * 0x8000 + flags / 0x0200 % 2 * 0x4000
}

// Writes the response to the front of `d`; the rest is kept.
pub fn respond(d: &mut [u8], r: &[u8], primary: u16, secondary: u16)
    requires { (32 ≤ length d.old) × (32 ≤ length r.now) }
    ensures { d.new ≡ pasted 0 (response_bytes primary secondary r.now) d.old }
{
    let zeros = [0u8; 24];
    wire::put_be(&mut *d, 0, 2, primary as u64);
    wire::put_be(&mut *d, 2, 2, secondary as u64);
    wire::copy(&mut *d, 4, &r[4..8]);
    wire::copy(d, 8, &zeros);
}
