// When a record is well formed, and which values a change may hold: ones that a well-formed record could.
#![tactic(auto, unfolding(crate::specs::Formed::state_ok, crate::specs::Formed::flag_ok, crate::specs::Formed::role_ok, crate::specs::Formed::caps_ok, crate::specs::Formed::clock_ok, crate::specs::Formed::deadman_ok, crate::specs::Formed::timer_ok, crate::specs::Formed::pair_ok, crate::specs::Formed::absent_zero, crate::specs::Formed::throttles_ok, crate::specs::Formed::multiple_of128, crate::specs::Formed::in_memory, crate::specs::Formed::area_ok, crate::specs::Formed::areas_ok, crate::specs::Formed::fields_ok, crate::specs::Formed::in_order, crate::specs::Formed::thermal_rule, crate::specs::Formed::thermal_ok, crate::specs::Formed::next_ok, crate::specs::Formed::reason_ok, crate::specs::Formed::unused, crate::specs::Formed::log_ok, crate::specs::Formed::logs_ok, crate::specs::Formed::record_ok, crate::specs::Formed::cleared_ok, crate::specs::Formed::made_ok, crate::specs::Formed::unreset_ok))]

ghost use Rattle.std.specs.Prelude.{◌≡◌, ◌&&◌, eqb};
ghost use Rattle.std.specs.List.{list_all};
ghost use Rattle.formed.specs.Formed.{state_ok, flag_ok, role_ok, caps_ok, pair_ok, absent_zero, throttles_ok, clock_ok, deadman_ok, timer_ok, multiple_of128, in_memory, area_ok, areas_ok, in_order, thermal_rule, thermal_ok, reason_ok, log_ok, logs_ok, next_ok, fields_ok, record_ok, cleared_ok, made_ok, unreset_ok};

use record::{Area, Areas, Caps, Deadman, Log, Record, Throttles, Timer};

pub fn state_ok(state: u8) -> bool
    ensures { result ≡ state_ok state }
{
    1 <= state && state <= 3
}

pub fn flag_ok(flag: u8) -> bool
    ensures { result ≡ flag_ok flag }
{
    flag <= 1
}

pub fn role_ok(got: u8, role: u8) -> bool
    ensures { result ≡ role_ok got role }
{
    if !flag_ok(got) {
        return false;
    }
    if got == 0 {
        return role == 0;
    }
    role <= 1
}

pub fn caps_ok(got: u8, caps: Caps) -> bool
    ensures { result ≡ caps_ok got caps }
{
    if !flag_ok(got) {
        return false;
    }
    if got != 0 {
        return caps.min <= caps.max;
    }
    caps.min == 0 && caps.max == 0 && caps.over == 0
}

// Whether a pair is present, or its ten bytes are zero.
fn pair_ok(bit: u16, set: &[u8]) -> bool
    ensures { result ≡ pair_ok bit set.now }
{
    bit == 1 || wire::all_are(set, 0)
}

fn absent_zero(present: u16, sets: [u8; 160]) -> bool
    ensures { result ≡ absent_zero present sets }
{
    let mut left = present;
    for i in 0..16 {
        let at = i * 10;
        if !pair_ok(left % 2, &sets[at..at + 10]) {
            return false;
        }
        left /= 2;
    }
    true
}

pub fn throttles_ok(got: u8, throttles: Throttles) -> bool
    ensures { result ≡ throttles_ok got throttles }
{
    let sets = throttles.sets;
    if !flag_ok(got) {
        return false;
    }
    if got != 0 {
        return absent_zero(throttles.present, sets);
    }
    throttles.present == 0 && wire::all_are(&sets, 0)
}

// What is off has time 0.
fn clock_ok(running: u8, time: u64) -> bool
    ensures { result ≡ clock_ok running time }
{
    flag_ok(running) && (running != 0 || time == 0)
}

pub fn deadman_ok(deadman: Deadman) -> bool
    ensures { result ≡ deadman_ok deadman }
{
    clock_ok(deadman.running, deadman.time)
}

pub fn timer_ok(timer: Timer) -> bool
    ensures { result ≡ timer_ok timer }
{
    clock_ok(timer.running, timer.left)
}

pub fn aligned(n: u64) -> bool
    ensures { result ≡ multiple_of128 n }
{
    n % 128 == 0
}

// Whether address and size stay within 2^64.
pub fn in_memory(address: u64, size: u32) -> bool
    ensures { result ≡ in_memory address size }
{
    size == 0 || u64::from(size - 1) <= u64::MAX - address
}

pub fn area_ok(area: Area) -> bool
    ensures { result ≡ area_ok area }
{
    if area.size == 0 {
        return area.address == 0;
    }
    aligned(area.address) && in_memory(area.address, area.size) && aligned(u64::from(area.size))
}

pub fn areas_ok(areas: Areas) -> bool
    ensures { result ≡ areas_ok areas }
{
    area_ok(areas.ffdc) && area_ok(areas.pass)
}

// Whether DVFS is at most ERROR; one that is 0xFF is not defined, and compared with nothing.
pub fn in_order(dvfs: u8, error: u8) -> bool
    ensures { result ≡ in_order dvfs error }
{
    dvfs == 0xFF || error == 0xFF || dvfs <= error
}

// The thresholds of each of the three FRU types.
fn thermal_rule(t: [u8; 9]) -> bool
    ensures { result ≡ thermal_rule t }
{
    in_order(t[0], t[1]) && in_order(t[3], t[4]) && in_order(t[6], t[7])
}

pub fn thermal_ok(got: u8, t: [u8; 9]) -> bool
    ensures { result ≡ thermal_ok got t }
{
    if !flag_ok(got) {
        return false;
    }
    if got != 0 {
        return thermal_rule(t);
    }
    wire::all_are(&t, 0xFF)
}

fn reason_ok(reason: u8) -> bool
    ensures { result ≡ reason_ok reason }
{
    reason == 1 || reason == 2
}

// Whether a used place's log follows an id, stays below the next id and has a reason.
fn log_ok(low: u8, next: u16, log: Log) -> bool
    ensures { result ≡ log_ok low next log }
{
    low < log.id && u16::from(log.id) < next && reason_ok(log.reason)
}

fn unused(logs: &[Log]) -> bool
    ensures { result ≡ list_all (λ (x : Log). eqb x.id 0 && eqb x.reason 0) logs.now }
{
    logs.iter().all(|log| log.id == 0 && log.reason == 0)
}

pub fn logs_ok(next: u16, logs: [Log; 4]) -> bool
    ensures { result ≡ logs_ok next logs }
{
    let mut low = 0;
    for (i, log) in logs.iter().enumerate() {
        if log.id == 0 {
            return unused(&logs[i..]);
        }
        if !log_ok(low, next, *log) {
            return false;
        }
        low = log.id;
    }
    true
}

pub fn next_ok(next: u16) -> bool
    ensures { result ≡ next_ok next }
{
    1 <= next && next <= 256
}

// The rules of the fields alone.
fn fields_ok(r: Record) -> bool
    ensures { result ≡ fields_ok r }
{
    state_ok(r.state)
        && role_ok(r.received.role, r.role)
        && caps_ok(r.received.caps, r.caps)
        && deadman_ok(r.deadman)
        && throttles_ok(r.received.throttles, r.throttles)
        && areas_ok(r.areas)
}

// Whether a record is one that a session with this next id may hold.
pub fn record_ok(r: Record, next: u16) -> bool
    ensures { result ≡ record_ok r next }
{
    fields_ok(r)
        && thermal_ok(r.received.thermal, r.thermal)
        && next_ok(next)
        && logs_ok(next, r.logs)
}

// ---- the values of a change

pub fn cleared_ok(place: u8, log: Log) -> bool
    ensures { result ≡ cleared_ok place log }
{
    place <= 3 && log.id != 0 && reason_ok(log.reason)
}

// A log that a reset made, or none.
pub fn made_ok(log: Log) -> bool
    ensures { result ≡ made_ok log }
{
    if log.id == 0 {
        return log.reason == 0;
    }
    reason_ok(log.reason)
}

pub fn unreset_ok(state: u8, made: u8) -> bool
    ensures { result ≡ unreset_ok state made }
{
    state_ok(state) && flag_ok(made)
}
