// Changes to a record: as a command makes them, and as undo takes them back. Nothing else writes a record.
#![tactic(auto, unfolding(crate::specs::Logs::pending_of, crate::specs::Logs::find_of, crate::specs::Logs::remove_at, crate::specs::Logs::insert_at, crate::specs::Logs::pends_at, crate::specs::With::with_state, crate::specs::With::with_role, crate::specs::With::with_caps, crate::specs::With::with_throttles, crate::specs::With::with_user, crate::specs::With::with_thermal, crate::specs::With::with_logs, crate::specs::With::with_mask, crate::specs::With::with_deadman, crate::specs::With::with_areas, crate::specs::Change::clear_of, crate::specs::Change::unclear_of, crate::specs::Change::reset_of, crate::specs::Change::unreset_of, crate::specs::Change::put_with, crate::specs::Change::put_of, crate::specs::Change::last_of, crate::specs::Change::made_by, crate::specs::Change::made_again, crate::specs::Change::back_of, crate::specs::Change::kind_of, crate::specs::Change::tables_for, crate::specs::Change::inverse_of, crate::specs::Change::timed_change, crate::specs::Change::timed, crate::specs::Change::takes_back, crate::specs::Change::timer_after,))]

ghost use Rattle.std.specs.Prelude.{◌≡◌, ◌<◌, length, eqb, position, IfSome};
ghost use Rattle.change.specs.Logs.{pending_of, find_of, remove_at, insert_at, pends_at};
ghost use Rattle.change.specs.Change.{clear_of, unclear_of, reset_of, unreset_of, put_of, last_of, made_by, made_again, back_of, kind_of, no_tables, tables_for, timed_change, takes_back, timer_after};

use record::{Areas, Caps, Deadman, Log, Received, Record, Throttles, Timer};

// One change. A case that sets values holds them, with the received mark first; the wide tables stand beside it, in Edit.
// A clear and a reset take another case to be taken back.
#[derive(Clone, Copy)]
pub enum Change {
    Clear(u8, Log),
    Unclear(u8, Log),
    SetState(u8),
    SetRole(u8, u8),
    SetCaps(u8, Caps),
    SetUser(u16),
    SetThermal(u8),
    SetThrottles(u8),
    Reset(Log),
    Unreset(u8, u8),
    SetMask(u32),
    SetDeadman(Deadman),
    SetAreas(Areas),
    SetTimer(Timer),
}

// The tables that SetThermal and SetThrottles put in; all zero where a change has none.
#[derive(Clone, Copy)]
pub struct Tables {
    pub thermal: [u8; 9],
    pub throttles: Throttles,
}

#[derive(Clone, Copy)]
pub struct Edit {
    pub change: Change,
    pub tables: Tables,
}

// ---- logs by place

// The first place with an id.
fn first_with(logs: &[Log], id: u8) -> Option<usize>
    ensures value { result ≡ position (λ (x : Log). eqb x.id id) logs.now }
    ensures bound { IfSome result (λ i. i < length logs.now) }
{
    logs.iter().position(|log| log.id == id)
}

// How many logs pend: used places come first.
pub fn pending(logs: [Log; 4]) -> usize
    ensures { result ≡ pending_of logs }
{
    first_with(&logs, 0).unwrap_or(4)
}

// The place of the pending log with an id. Id 0 is none's.
pub fn find(logs: [Log; 4], id: u8) -> Option<usize>
    ensures value { result ≡ find_of id logs }
    ensures bound { IfSome result (λ i. i < 4) }
{
    if id == 0 {
        return None;
    }
    first_with(&logs, id)
}

// The log at a place is taken out, and those above it move down.
pub fn removed(logs: [Log; 4], place: usize) -> [Log; 4]
    ensures { result ≡ remove_at place logs }
{
    let unused = Log { id: 0, reason: 0 };
    let a = logs[0];
    let b = logs[1];
    let c = logs[2];
    let d = logs[3];
    match place {
        0 => [b, c, d, unused],
        1 => [a, c, d, unused],
        2 => [a, b, d, unused],
        3 => [a, b, c, unused],
        _ => logs,
    }
}

// A log is put in at a place, and those from there on move up.
pub fn inserted(logs: [Log; 4], place: usize, log: Log) -> [Log; 4]
    ensures { result ≡ insert_at place log logs }
{
    let a = logs[0];
    let b = logs[1];
    let c = logs[2];
    let d = logs[3];
    match place {
        0 => [log, a, b, c],
        1 => [a, log, b, c],
        2 => [a, b, log, c],
        3 => [a, b, c, log],
        _ => logs,
    }
}

// Whether that very log pends at that place.
fn pends_at(logs: [Log; 4], place: u8, log: Log) -> bool
    ensures { result ≡ pends_at place log logs }
{
    if 3 < place {
        return false;
    }
    if log.id == 0 {
        return false;
    }
    logs[usize::from(place)] == log
}

// ---- putting a change into a record; nothing where it can't be put in

fn clear(r: Record, place: u8, log: Log) -> Option<Record>
    ensures { result ≡ clear_of r place log }
{
    if !pends_at(r.logs, place, log) {
        return None;
    }
    let logs = removed(r.logs, usize::from(place));
    Some(Record { logs, ..r })
}

fn unclear(r: Record, place: u8, log: Log) -> Option<Record>
    ensures { result ≡ unclear_of r place log }
{
    let n = pending(r.logs);
    let at = usize::from(place);
    if n < at {
        return None;
    }
    if 4 <= n {
        return None;
    }
    let logs = inserted(r.logs, at, log);
    Some(Record { logs, ..r })
}

fn reset(r: Record, log: Log) -> Option<Record>
    ensures { result ≡ reset_of r log }
{
    if log.id == 0 {
        return Some(Record { state: 1, ..r });
    }
    let n = pending(r.logs);
    if 4 <= n {
        return None;
    }
    let logs = inserted(r.logs, n, log);
    Some(Record {
        state: 1,
        logs,
        ..r
    })
}

fn unreset(r: Record, state: u8, made: u8) -> Option<Record>
    ensures { result ≡ unreset_of r state made }
{
    if made == 0 {
        return Some(Record { state, ..r });
    }
    let n = pending(r.logs);
    if n == 0 {
        return None;
    }
    let logs = removed(r.logs, n - 1);
    Some(Record { state, logs, ..r })
}

// The one function that puts a change into a record, for a command and for undo.
pub fn put(r: Record, e: Edit) -> Option<Record>
    ensures { result ≡ put_of r e }
{
    let got = r.received;
    Some(match e.change {
        Change::Clear(place, log) => return clear(r, place, log),
        Change::Unclear(place, log) => return unclear(r, place, log),
        Change::Reset(log) => return reset(r, log),
        Change::Unreset(state, made) => return unreset(r, state, made),
        Change::SetState(state) => Record { state, ..r },
        Change::SetRole(mark, role) => Record {
            role,
            received: Received { role: mark, ..got },
            ..r
        },
        Change::SetCaps(mark, caps) => Record {
            caps,
            received: Received { caps: mark, ..got },
            ..r
        },
        Change::SetUser(user) => Record { user, ..r },
        Change::SetThermal(mark) => Record {
            thermal: e.tables.thermal,
            received: Received {
                thermal: mark,
                ..got
            },
            ..r
        },
        Change::SetThrottles(mark) => Record {
            throttles: e.tables.throttles,
            received: Received {
                throttles: mark,
                ..got
            },
            ..r
        },
        Change::SetMask(mask) => Record { mask, ..r },
        Change::SetDeadman(deadman) => Record { deadman, ..r },
        Change::SetAreas(areas) => Record { areas, ..r },
        Change::SetTimer(_) => r,
    })
}

// ---- the change that takes a change back

// A change's kind, as the journal has it.
pub fn kind(change: Change) -> u8
    ensures { result ≡ kind_of change }
{
    match change {
        Change::Clear(_, _) => 0x01,
        Change::Unclear(_, _) => 0x01,
        Change::SetState(_) => 0x02,
        Change::SetRole(_, _) => 0x03,
        Change::SetCaps(_, _) => 0x04,
        Change::SetUser(_) => 0x05,
        Change::SetThermal(_) => 0x06,
        Change::SetThrottles(_) => 0x07,
        Change::Reset(_) => 0x08,
        Change::Unreset(_, _) => 0x08,
        Change::SetMask(_) => 0x09,
        Change::SetDeadman(_) => 0x0A,
        Change::SetAreas(_) => 0x0B,
        Change::SetTimer(_) => 0x0C,
    }
}

// The last pending log; an unused one where none pends.
#[tactic(auto, using(crate::proofs::Logs::pending_le), unfolding(crate::specs::Change::last_of))]
fn last(logs: [Log; 4]) -> Log
    ensures { result ≡ last_of logs }
{
    match pending(logs) {
        0 => Log { id: 0, reason: 0 },
        n => logs[n - 1],
    }
}

// 1 where a reset with this log makes one.
pub fn made_by(log: Log) -> u8
    ensures { result ≡ made_by log }
{
    if log.id == 0 {
        return 0;
    }
    1
}

// The log that a reset is to make again.
fn made_again(logs: [Log; 4], made: u8) -> Log
    ensures { result ≡ made_again logs made }
{
    if made == 0 {
        return Log { id: 0, reason: 0 };
    }
    last(logs)
}

fn back(r: Record, change: Change) -> Change
    ensures { result ≡ back_of r change }
{
    match change {
        Change::Clear(place, log) => Change::Unclear(place, log),
        Change::Unclear(place, log) => Change::Clear(place, log),
        Change::SetState(_) => Change::SetState(r.state),
        Change::SetRole(_, _) => Change::SetRole(r.received.role, r.role),
        Change::SetCaps(_, _) => Change::SetCaps(r.received.caps, r.caps),
        Change::SetUser(_) => Change::SetUser(r.user),
        Change::SetThermal(_) => Change::SetThermal(r.received.thermal),
        Change::SetThrottles(_) => Change::SetThrottles(r.received.throttles),
        Change::Reset(log) => Change::Unreset(r.state, made_by(log)),
        Change::Unreset(_, made) => Change::Reset(made_again(r.logs, made)),
        Change::SetMask(_) => Change::SetMask(r.mask),
        Change::SetDeadman(_) => Change::SetDeadman(r.deadman),
        Change::SetAreas(_) => Change::SetAreas(r.areas),
        Change::SetTimer(timer) => Change::SetTimer(timer),
    }
}

// The tables of a change that has none.
pub fn no_tables() -> Tables
    ensures { result ≡ no_tables }
{
    Tables {
        thermal: [0; 9],
        throttles: Throttles {
            present: 0,
            sets: [0; 160],
        },
    }
}

// The tables beside a change of a kind: those it has are the record's, the others zero.
fn tables_for(kind: u8, r: Record) -> Tables
    ensures { result ≡ tables_for kind r }
{
    let none = no_tables();
    let thermal = r.thermal;
    let throttles = r.throttles;
    match kind {
        0x06 => Tables { thermal, ..none },
        0x07 => Tables { throttles, ..none },
        _ => none,
    }
}

// ---- the timer, which stands outside the record

// A timer change holds the timer as it stands; every other change stays.
fn timed(t: Timer, change: Change) -> Change
    ensures { result ≡ timed_change t change }
{
    if kind(change) != 0x0C {
        return change;
    }
    Change::SetTimer(t)
}

// The timer after a change.
pub fn timer_after(t: Timer, change: Change) -> Timer
    ensures { result ≡ timer_after t change }
{
    match change {
        Change::SetTimer(timer) => timer,
        _ => t,
    }
}

// What was before: the change that takes `e` back, once it is put into `r` beside the timer `t`.
pub fn takes_back(r: Record, t: Timer, e: Edit) -> Edit
    ensures { result ≡ takes_back r t e }
{
    Edit {
        change: timed(t, back(r, e.change)),
        tables: tables_for(kind(e.change), r),
    }
}
