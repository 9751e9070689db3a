// Document 02, c: the first data byte of an OCC command that is wrong, and why. `occ` judges the status; this judge says where.
#![tactic(auto, unfolding(crate::specs::Places::wrong, crate::specs::Places::poll_fault, crate::specs::Places::clear_fault, crate::specs::Places::state_fault, crate::specs::Places::role_fault, crate::specs::Places::caps_fault, crate::specs::Places::user_fault, crate::specs::Places::reset_fault, crate::specs::Places::width_of, crate::specs::Places::most_of, crate::specs::Places::same_number, crate::specs::Places::same_second, crate::specs::Places::any_below, crate::specs::Places::seen_before, crate::specs::Places::rest_fault, crate::specs::Places::configure_fault, crate::specs::Places::sets_fault, crate::specs::Places::count_fault, crate::specs::Places::format_fault, crate::specs::Places::fault_of, crate::specs::Reasons::named, crate::specs::Places::first_set, crate::specs::Places::set_fault))]

ghost use Rattle.std.specs.Prelude.{◌≡◌, ◌+◌, ◌*◌, ◌<◌, ◌≤◌, length};
ghost use Rattle.places.specs.Places.{wrong, poll_fault, clear_fault, state_fault, role_fault, caps_fault, user_fault, reset_fault};
ghost use Rattle.places.specs.Places.{width_of, most_of, start_of, same_number, seen_before, rest_fault, set_fault, first_set, sets_fault, configure_fault, fault_of};

use record::{Caps, Log, Record};

// What is wrong with a byte.
#[derive(Clone, Copy)]
pub enum Reason {
    BadVersion,
    BadCount,
    OutOfRange,
    Repeated,
    Clash,
    NotPending,
}

// The data byte that is wrong, numbered from 1.
#[derive(Clone, Copy)]
pub struct Fault {
    pub reason: Reason,
    pub at: u16,
}

impl From<Reason> for u8 {
    ghost use Rattle.std.specs.Prelude.{◌≡◌};
    ghost use Rattle.places.specs.Reasons.{number_of};

    ghost from_gives = { λ reason n. n ≡ number_of reason };

    fn from(reason: Reason) -> u8 {
        match reason {
            Reason::BadVersion => 1,
            Reason::BadCount => 2,
            Reason::OutOfRange => 3,
            Reason::Repeated => 4,
            Reason::Clash => 5,
            Reason::NotPending => 6,
        }
    }
}

fn found_at(reason: Reason, at: usize) -> Option<Fault>
    requires { at < 65536 }
    ensures { result ≡ wrong reason at }
{
    let at = at as u16;
    Some(Fault { reason, at })
}

// ---- the small commands

fn poll(d: &[u8]) -> Option<Fault>
    ensures { result ≡ poll_fault d.now }
{
    if d.len() != 1 {
        return None;
    }
    if d[0] != 0x10 {
        return found_at(Reason::BadVersion, 1);
    }
    None
}

#[tactic(auto, unfolding(crate::specs::Places::clear_fault))]
fn clear_log(logs: [Log; 4], d: &[u8]) -> Option<Fault>
    ensures { result ≡ clear_fault logs d.now }
{
    if d.len() != 1 {
        return None;
    }
    if change::find(logs, d[0]).is_none() {
        return found_at(Reason::NotPending, 1);
    }
    None
}

fn set_state(d: &[u8]) -> Option<Fault>
    ensures { result ≡ state_fault d.now }
{
    if d.len() != 3 {
        return None;
    }
    let state = d[1];
    let last = d[2];
    if d[0] != 0 {
        return found_at(Reason::BadVersion, 1);
    }
    if state < 1 {
        return found_at(Reason::OutOfRange, 2);
    }
    if 3 < state {
        return found_at(Reason::OutOfRange, 2);
    }
    if last != 0 {
        return found_at(Reason::OutOfRange, 3);
    }
    None
}

fn role_format(d: &[u8]) -> Option<Fault>
    ensures { result ≡ role_fault d.now }
{
    if d.len() != 2 {
        return None;
    }
    if 1 < d[1] {
        return found_at(Reason::OutOfRange, 2);
    }
    None
}

fn caps_format(d: &[u8]) -> Option<Fault>
    ensures { result ≡ caps_fault d.now }
{
    if d.len() != 8 {
        return None;
    }
    if d[1] != 0x10 {
        return found_at(Reason::BadVersion, 2);
    }
    if wire::be16(d, 4) < wire::be16(d, 2) {
        return found_at(Reason::Clash, 5);
    }
    None
}

fn user_cap(got: u8, caps: Caps, d: &[u8]) -> Option<Fault>
    ensures { result ≡ user_fault got caps d.now }
{
    if d.len() != 2 {
        return None;
    }
    if !occ::user_allowed(got, caps, wire::be16(d, 0)) {
        return found_at(Reason::OutOfRange, 1);
    }
    None
}

fn reset_prep(d: &[u8]) -> Option<Fault>
    ensures { result ≡ reset_fault d.now }
{
    if d.len() != 2 {
        return None;
    }
    let reason = d[1];
    if d[0] != 0 {
        return found_at(Reason::BadVersion, 1);
    }
    if 2 < reason {
        return found_at(Reason::OutOfRange, 2);
    }
    None
}

// ---- the formats with sets

// Throttle sets are of twelve bytes, thermal ones of four.
#[derive(Clone, Copy)]
pub enum SetTable {
    Throttles,
    Thermal,
}

impl SetTable {
    fn width(self) -> usize
        ensures { result ≡ width_of self }
    {
        match self {
            SetTable::Throttles => 12,
            SetTable::Thermal => 4,
        }
    }

    // The greatest hub or FRU.
    fn most(self) -> u8
        ensures { result ≡ most_of self }
    {
        match self {
            SetTable::Throttles => 7,
            SetTable::Thermal => 2,
        }
    }

    // The bytes before the i-th set, from 0.
    fn start(self, i: usize) -> usize
        requires { i < 256 }
        ensures { result ≡ start_of self i }
    {
        3 + i * self.width()
    }

    // Whether the k-th set and the i-th are of one pair or FRU.
    fn same_number(self, d: &[u8], k: usize, i: usize) -> bool
        requires { (k < 256) × (i < 256) × (start_of self k + 1 < length d.now) × (start_of self i + 1 < length d.now) }
        ensures { result ≡ same_number self d.now (start_of self k) (start_of self i) }
    {
        let one = self.start(k);
        let other = self.start(i);
        if d[one] != d[other] {
            return false;
        }
        match self {
            SetTable::Throttles => d[one + 1] == d[other + 1],
            SetTable::Thermal => true,
        }
    }
}

fn seen_before(table: SetTable, d: &[u8], i: usize) -> bool
    requires { (i < 255) × (start_of table i + 1 < length d.now) }
    ensures { result ≡ seen_before table d.now i }
{
    (0..i).any(|k| table.same_number(d, k, i))
}

// What comes after a set's first byte: the MBA, or DVFS and ERROR.
fn rest_fault(table: SetTable, d: &[u8], first: usize) -> Option<Fault>
    requires { (first + width_of table ≤ length d.now) × (first < 65000) }
    ensures { result ≡ rest_fault table d.now first }
{
    match table {
        SetTable::Throttles => {
            if 1 < d[first + 1] {
                return found_at(Reason::OutOfRange, first + 2);
            }
        }
        SetTable::Thermal => {
            if !formed::in_order(d[first + 1], d[first + 2]) {
                return found_at(Reason::Clash, first + 3);
            }
        }
    }
    None
}

fn set_fault(table: SetTable, d: &[u8], i: usize) -> Option<Fault>
    requires { (i < 255) × (start_of table i + width_of table ≤ length d.now) }
    ensures { result ≡ set_fault table d.now i }
{
    let first = table.start(i);
    if table.most() < d[first] {
        return found_at(Reason::OutOfRange, first + 1);
    }
    if seen_before(table, d, i) {
        return found_at(Reason::Repeated, first + 1);
    }
    rest_fault(table, d, first)
}

fn first_set(table: SetTable, d: &[u8], n: usize) -> Option<Fault>
    requires { (n < 256) × (start_of table n ≤ length d.now) }
    ensures { result ≡ first_set table d.now n }
{
    for i in 0..n {
        let found = set_fault(table, d, i);
        if let Some(_) = found {
            return found;
        }
    }
    None
}

fn sets_format(table: SetTable, d: &[u8]) -> Option<Fault>
    ensures { result ≡ sets_fault table d.now }
{
    if d.len() < 3 {
        return None;
    }
    let n = d[2] as usize;
    if d.len() - 3 != n * table.width() {
        return None;
    }
    if d[1] != 0x10 {
        return found_at(Reason::BadVersion, 2);
    }
    if n == 0 {
        return found_at(Reason::BadCount, 3);
    }
    first_set(table, d, n)
}

// ---- every command

fn configure(d: &[u8]) -> Option<Fault>
    ensures { result ≡ configure_fault d.now }
{
    if d.len() == 0 {
        return None;
    }
    let format = d[0];
    match format {
        0x03 => role_format(d),
        0x07 => caps_format(d),
        0x12 => sets_format(SetTable::Throttles, d),
        0x13 => sets_format(SetTable::Thermal, d),
        _ => found_at(Reason::OutOfRange, 1),
    }
}

// Nothing where the type is unknown or its length is wrong: then no byte is judged.
pub fn find(r: Record, kind: u8, d: &[u8]) -> Option<Fault>
    ensures { result ≡ fault_of r kind d.now }
{
    let got = r.received;
    let caps = r.caps;
    let logs = r.logs;
    match kind {
        0x00 => poll(d),
        0x12 => clear_log(logs, d),
        0x20 => set_state(d),
        0x21 => configure(d),
        0x22 => user_cap(got.caps, caps, d),
        0x25 => reset_prep(d),
        0x01..=0x11 | 0x13..=0x1F | 0x23..=0x24 | 0x26..=0xFF => None,
    }
}
