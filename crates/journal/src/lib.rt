// A change as an entry's bytes and back, on any lent bytes: writing one, reading one, judging its values, adding one at the end
// and cutting it off.
#![tactic(auto, unfolding(entries::specs::Entries::body_len, formed::specs::Formed::change_ok, crate::specs::Read::entry_ok, crate::specs::Read::values_ok, crate::specs::Read::found_for, crate::specs::Read::tables_in, crate::specs::Read::cleared_as, crate::specs::Read::reset_as, crate::specs::Read::reset_ok, crate::specs::Ways::by_way))]

ghost use Rattle.std.specs.Prelude.{◌≡◌, ◌∷◌, true, ◌≤◌, ◌<◌, ◌+◌, length, take, drop};
ghost use Rattle.wire.specs.Wire.{pasted, to_be};
ghost use Rattle.change.specs.Change.{kind_of};
ghost use Rattle.entries.specs.Entries.{body_len};
ghost use Rattle.entries.specs.Entries.{Sized};
ghost use Rattle.marks.specs.Marks.{stands_at, rest_unused};
ghost use Rattle.journal.specs.Bytes.{throttles_body, clock_body, areas_body, Spells, entry_for, entry_bytes};
ghost use Rattle.journal.specs.Read.{caps_at, area_at, throttles_at, cleared_as, reset_as, reset_ok, found_for, tables_in, got_of, entry_ok, read_ok};
ghost use Rattle.journal.specs.Ways.{by_way};
ghost use Rattle.journal.specs.Add.{entry_len, end_of, added_to, cut_from};

use change::{Change, Edit, Tables};
use record::{Area, Areas, Caps, Deadman, Log, Throttles, Timer};

// What a store's entries hold: what was before (the journal), or what was after (the redo store). Kinds 01 and 08 read differently.
#[derive(Clone, Copy)]
pub enum Way {
    Before,
    After,
}

impl Way {
    // Of two values the one for undo, or the one for redo.
    #[tactic(auto, unfolding(crate::specs::Ways::by_way))]
    pub fn pick<T: Copy>(self, undo: T, redo: T) -> T
        ensures { result ≡ by_way self undo redo }
    {
        match self {
            Way::Before => undo,
            Way::After => redo,
        }
    }
}

// ---- writing an entry to the front of lent bytes; the rest is kept

// A kind and one number of `n` bytes.
#[tactic(auto, using(crate::proofs::Fields::number_put, crate::proofs::Fields::number_long))]
fn put_number(d: &mut [u8], kind: u8, n: usize, v: u64)
    requires { 1 + n ≤ length d.old }
    ensures { d.new ≡ pasted 0 (kind ∷ to_be n v) d.old }
{
    d[0] = kind;
    wire::put_be(d, 1, n, v);
}

#[tactic(auto, using(crate::proofs::Fields::marked_put))]
fn put_thermal(d: &mut [u8], got: u8, thermal: [u8; 9])
    requires { 11 ≤ length d.old }
    ensures { d.new ≡ pasted 0 (0x06 ∷ got ∷ thermal) d.old }
{
    put_number(&mut *d, 0x06, 1, got as u64);
    wire::copy(d, 2, &thermal);
}

#[tactic(auto, unfolding(crate::specs::Bytes::throttles_body), using(crate::proofs::Fields::throttles_put))]
fn put_throttles(d: &mut [u8], got: u8, throttles: Throttles)
    requires { 164 ≤ length d.old }
    ensures { d.new ≡ pasted 0 (0x07 ∷ throttles_body got throttles) d.old }
{
    put_number(
        &mut *d,
        0x07,
        3,
        got as u64 * 65536 + throttles.present as u64,
    );
    wire::copy(d, 4, &throttles.sets);
}

#[tactic(auto, unfolding(crate::specs::Bytes::clock_body), using(crate::proofs::Fields::marked_put))]
fn put_clock(d: &mut [u8], kind: u8, running: u8, time: u64)
    requires { 10 ≤ length d.old }
    ensures { d.new ≡ pasted 0 (kind ∷ clock_body running time) d.old }
{
    put_number(&mut *d, kind, 1, running as u64);
    wire::put_be(d, 2, 8, time);
}

#[tactic(auto, unfolding(crate::specs::Bytes::area_bytes, crate::specs::Bytes::areas_body), using(crate::proofs::Fields::areas_put))]
fn put_areas(d: &mut [u8], areas: Areas)
    requires { 25 ≤ length d.old }
    ensures { d.new ≡ pasted 0 (0x0B ∷ areas_body areas) d.old }
{
    put_number(&mut *d, 0x0B, 8, areas.ffdc.address);
    wire::put_be(&mut *d, 9, 4, areas.ffdc.size as u64);
    wire::put_be(&mut *d, 13, 8, areas.pass.address);
    wire::put_be(d, 21, 4, areas.pass.size as u64);
}

// How many bytes a change's entry has: by the types of its tables as many as its kind says.
#[tactic(auto, using(crate::proofs::Parts::body_short, crate::proofs::Parts::entry_sized))]
pub fn entry_len(e: Edit) -> usize
    ensures value { result ≡ entry_len e }
    ensures sized { Sized (entry_for e) }
{
    entries::body_len(change::kind(e.change)) + 1
}

// A body of eight bytes at most, as the number that it spells.
#[tactic(auto, using(crate::proofs::Spelled::spells_as, crate::proofs::Spelled::clear_spells, crate::proofs::Spelled::unclear_spells, crate::proofs::Spelled::state_spells, crate::proofs::Spelled::role_spells, crate::proofs::Spelled::unreset_spells, crate::proofs::Spelled::reset_spells, crate::proofs::Spelled::caps_spells, crate::proofs::Spelled::user_spells, crate::proofs::Spelled::mask_spells, crate::proofs::Spelled::wide_spells))]
fn small(change: Change) -> u64
    ensures { Spells result change }
{
    match change {
        Change::Clear(place, log) => place as u64 * 65536 + log.id as u64 * 256 + log.reason as u64,
        Change::Unclear(place, log) => place as u64 * 65536
            + log.id as u64 * 256
            + log.reason as u64,
        Change::SetState(state) => state as u64,
        Change::SetRole(got, role) => got as u64 * 256 + role as u64,
        Change::SetCaps(got, caps) => ((got as u64 * 65536 + caps.min as u64) * 65536
            + caps.max as u64)
            * 65536
            + caps.over as u64,
        Change::SetUser(user) => user as u64,
        Change::Reset(log) => log.id as u64 * 256 + log.reason as u64,
        Change::Unreset(state, made) => state as u64 * 256 + made as u64,
        Change::SetMask(mask) => mask as u64,
        _ => 0,
    }
}

#[tactic(auto, unfolding(crate::specs::Bytes::entry_bytes, crate::specs::Bytes::entry_for, entries::specs::Entries::bytes_of, crate::specs::Bytes::body_of, entries::specs::Entries::body_len, change::specs::Change::kind_of), using(crate::proofs::Parts::put_by, crate::proofs::Parts::put_room, crate::proofs::Spelled::number_room, crate::proofs::Spelled::number_is))]
fn put(d: &mut [u8], e: Edit)
    requires { body_len (kind_of e.change) + 1 ≤ length d.old }
    ensures { d.new ≡ pasted 0 (entry_bytes e) d.old }
{
    let change = e.change;
    let kind = change::kind(change);
    match change {
        Change::SetThermal(got) => put_thermal(d, got, e.tables.thermal),
        Change::SetThrottles(got) => put_throttles(d, got, e.tables.throttles),
        Change::SetDeadman(deadman) => put_clock(d, 0x0A, deadman.running, deadman.time),
        Change::SetAreas(areas) => put_areas(d, areas),
        Change::SetTimer(timer) => put_clock(d, 0x0C, timer.running, timer.left),
        _ => put_number(d, kind, entries::body_len(kind), small(change)),
    }
}

// ---- reading an entry

#[tactic(auto, unfolding(crate::specs::Read::caps_at))]
pub fn caps_at(b: &[u8], at: usize) -> Caps
    requires { at + 6 ≤ length b.now }
    ensures { result ≡ caps_at at b.now }
{
    Caps {
        min: wire::be16(b, at),
        max: wire::be16(b, at + 2),
        over: wire::be16(b, at + 4),
    }
}

#[tactic(auto, unfolding(crate::specs::Read::area_at))]
pub fn area_at(b: &[u8], at: usize) -> Area
    requires { at + 12 ≤ length b.now }
    ensures { result ≡ area_at at b.now }
{
    Area {
        address: wire::be64(b, at),
        size: wire::be32(b, at + 8),
    }
}

// The bytes from a place on, as many as the array has.
pub fn part_at<const N: usize>(b: &[u8], at: usize) -> [u8; N]
    requires { at + N ≤ length b.now }
    ensures { result ≡ take N (drop at b.now) }
{
    let mut part = [0u8; N];
    wire::copy(&mut part, 0, &b[at..at + N]);
    part
}

pub fn throttles_at(b: &[u8], at: usize) -> Throttles
    requires { at + 162 ≤ length b.now }
    ensures { result ≡ throttles_at at b.now }
{
    Throttles {
        present: wire::be16(b, at),
        sets: part_at(b, at + 2),
    }
}

// A clear is taken back, or done again.
fn cleared_as(way: Way, place: u8, log: Log) -> Change
    ensures { result ≡ cleared_as way place log }
{
    match way {
        Way::Before => Change::Unclear(place, log),
        Way::After => Change::Clear(place, log),
    }
}

// So is a reset: the two bytes are the state before and whether a log was made, or that log's id and reason.
fn reset_as(way: Way, a: u8, b: u8) -> Change
    ensures { result ≡ reset_as way a b }
{
    match way {
        Way::Before => Change::Unreset(a, b),
        Way::After => Change::Reset(Log { id: a, reason: b }),
    }
}

// What a kind's body says, if there is such a kind.
fn found_for(way: Way, kind: u8, b: &[u8]) -> Option<Change>
    requires { body_len kind ≤ length b.now }
    ensures { result ≡ found_for way kind b.now }
{
    match kind {
        0x01 => Some(cleared_as(
            way,
            b[0],
            Log {
                id: b[1],
                reason: b[2],
            },
        )),
        0x02 => Some(Change::SetState(b[0])),
        0x03 => Some(Change::SetRole(b[0], b[1])),
        0x04 => Some(Change::SetCaps(b[0], caps_at(b, 1))),
        0x05 => Some(Change::SetUser(wire::be16(b, 0))),
        0x06 => Some(Change::SetThermal(b[0])),
        0x07 => Some(Change::SetThrottles(b[0])),
        0x08 => Some(reset_as(way, b[0], b[1])),
        0x09 => Some(Change::SetMask(wire::be32(b, 0))),
        0x0A => Some(Change::SetDeadman(Deadman {
            running: b[0],
            time: wire::be64(b, 1),
        })),
        0x0B => Some(Change::SetAreas(Areas {
            ffdc: area_at(b, 0),
            pass: area_at(b, 12),
        })),
        0x0C => Some(Change::SetTimer(Timer {
            running: b[0],
            left: wire::be64(b, 1),
        })),
        _ => None,
    }
}

// The tables that a kind's body has.
fn tables_in(kind: u8, b: &[u8]) -> Tables
    requires { body_len kind ≤ length b.now }
    ensures { result ≡ tables_in kind b.now }
{
    let none = change::no_tables();
    match kind {
        0x06 => Tables {
            thermal: part_at(b, 1),
            ..none
        },
        0x07 => Tables {
            throttles: throttles_at(b, 1),
            ..none
        },
        _ => none,
    }
}

// What one whole entry says, if the bytes are exactly one.
#[tactic(auto, unfolding(crate::specs::Read::got_of, crate::specs::Read::got_for, crate::specs::Read::edit_by))]
pub fn get(way: Way, e: &[u8]) -> Option<Edit>
    ensures { result ≡ got_of way e.now }
{
    let (&kind, b) = e.split_first()?;
    if b.len() != entries::body_len(kind) {
        return None;
    }
    let change = found_for(way, kind, b)?;
    let tables = tables_in(kind, b);
    Some(Edit { change, tables })
}

// ---- judging entries

fn reset_ok(way: Way, a: u8, b: u8) -> bool
    ensures { result ≡ reset_ok way a b }
{
    match way {
        Way::Before => formed::unreset_ok(a, b),
        Way::After => formed::made_ok(Log { id: a, reason: b }),
    }
}

// Whether a body's values are ones that a well-formed record could hold, straight off its bytes.
fn body_ok(way: Way, kind: u8, b: &[u8]) -> bool
    requires { body_len kind ≤ length b.now }
    ensures { result ≡ entry_ok way (record { kind = kind; body = b.now }) }
{
    match kind {
        0x01 => formed::cleared_ok(
            b[0],
            Log {
                id: b[1],
                reason: b[2],
            },
        ),
        0x02 => formed::state_ok(b[0]),
        0x03 => formed::role_ok(b[0], b[1]),
        0x04 => formed::caps_ok(b[0], caps_at(b, 1)),
        0x05 => true,
        0x06 => formed::thermal_ok(b[0], part_at(b, 1)),
        0x07 => formed::throttles_ok(b[0], throttles_at(b, 1)),
        0x08 => reset_ok(way, b[0], b[1]),
        0x09 => true,
        0x0A => formed::deadman_ok(Deadman {
            running: b[0],
            time: wire::be64(b, 1),
        }),
        0x0B => formed::areas_ok(Areas {
            ffdc: area_at(b, 0),
            pass: area_at(b, 12),
        }),
        0x0C => formed::timer_ok(Timer {
            running: b[0],
            left: wire::be64(b, 1),
        }),
        _ => false,
    }
}

// Document 02, i: only the journal is marked. Most entries aren't, in either store: that is looked at first.
#[tactic(auto, unfolding(crate::specs::Ways::by_way), using(crate::proofs::Judging::not_marked))]
fn mark_stands(way: Way, m: &[u8], n: usize, at: usize) -> bool
    requires { (length m.now ≡ 64) × (n < 1024) }
    ensures { result ≡ by_way way (stands_at m.now n at) true }
{
    if n % 32 != 0 {
        return true;
    }
    match way {
        Way::Before => marks::stands(m, n, at),
        Way::After => true,
    }
}

fn rest_unused(way: Way, m: &[u8], n: usize) -> bool
    requires { (length m.now ≡ 64) × (n ≤ 1024) }
    ensures { result ≡ by_way way (rest_unused m.now n) true }
{
    match way {
        Way::Before => marks::rest_unused(m, n),
        Way::After => true,
    }
}

// Whether the bytes read exactly as entries with such values, and the journal's marks m are theirs. It is one pass.
pub fn all_ok(way: Way, j: &[u8], m: &[u8]) -> bool
    requires { (length m.now ≡ 64) × (length j.now ≤ 2048) }
    ensures { result ≡ read_ok way m.now j.now }
{
    let mut at = 0;
    let mut count = 0;
    let mut last = 0;
    let mut n = 0;
    while at < j.len() {
        let kind = j[at];
        n = entries::next_len(last, n, kind);
        last = kind;
        if n == 0 {
            return false;
        }
        if j.len() - at <= n {
            return false;
        }
        let start = at + 1;
        let end = start + n;
        if !body_ok(way, kind, &j[start..end]) {
            return false;
        }
        if !mark_stands(way, m, count, at) {
            return false;
        }
        count += 1;
        at = end;
    }
    rest_unused(way, m, count)
}

// ---- the end of the used bytes

// Puts a change's entry there; the room is known.
#[tactic(auto, using(crate::proofs::Parts::tail_pasted, crate::proofs::Parts::append_room))]
pub fn append(j: &mut [u8], used: usize, e: Edit)
    requires { used + entry_len e ≤ length j.old }
    ensures { j.new ≡ pasted used (entry_bytes e) j.old }
{
    put(&mut j[used..], e);
}

// Adds a change's entry at the end of the used bytes, where there is room: they end there then.
#[tactic(auto, unfolding(crate::specs::Add::end_of, crate::specs::Add::added_to), using(crate::proofs::Parts::add_room))]
pub fn add(j: &mut [u8], used: usize, e: Edit) -> Option<usize>
    ensures value { result ≡ end_of (length j.old) used e }
    ensures j_after { j.new ≡ added_to used e j.old }
    ensures sized { Sized (entry_for e) }
{
    let n = entry_len(e);
    if j.len() < used || j.len() - used < n {
        return None;
    }
    append(j, used, e);
    Some(used + n)
}

// Zeroes the bytes from `at` to the end of the used ones.
#[tactic(auto, unfolding(crate::specs::Add::cut_from), using(crate::proofs::Parts::part_zeroed))]
pub fn cut(j: &mut [u8], at: usize, used: usize)
    ensures { j.new ≡ cut_from at used j.old }
{
    if at <= used && used <= j.len() {
        wire::zero_all(&mut j[at..used]);
    }
}
