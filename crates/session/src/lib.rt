// The session: one value, and the parts of the test whether it is well formed.
#![tactic(auto, unfolding(crate::specs::Session::fresh_session, crate::specs::Session::worked_fits, crate::specs::Session::held_ok, crate::specs::Session::made_of))]

ghost use Rattle.std.specs.Prelude.{◌≡◌, false, cond, length};
ghost use Rattle.session.specs.Session.{fresh_session, held_ok, store_ok, entries_in, only_clears, made_of};
ghost use Rattle.entries.specs.Entries.{entries_of, scan};
ghost use Rattle.journal.specs.Read.{marks_ok};

use change::Change;
use entries::Entries;
use journal::Way;
use record::{Record, Timer, Worked};

#[derive(Clone, Copy)]
pub struct Session {
    pub held: Record,
    pub worked: Worked,
    pub next: u16,
    pub journal: [u8; 2048],
    pub used: u16,
    pub redo: [u8; 2048],
    pub ahead: u16,
    pub marks: [u8; 64],
    pub timer: Timer,
    pub profile: u8,
}

pub fn fresh() -> Session
    ensures { result ≡ fresh_session }
{
    let held = record::fresh();
    let worked = record::work_out(held);
    Session {
        held,
        worked,
        next: 1,
        journal: [0; 2048],
        used: 0,
        redo: [0; 2048],
        ahead: 0,
        marks: [0; 64],
        timer: Timer {
            running: 0,
            left: 0,
        },
        profile: 0,
    }
}

// ---- well formed

// The record, against the next id, and what is worked out from it.
pub fn held_ok(held: Record, worked: Worked, next: u16) -> bool
    ensures { result ≡ held_ok held worked next }
{
    formed::record_ok(held, next) && record::work_out(held) == worked
}

// The used bytes of a store read as entries with good values, and the unused part is zero; the journal's marks m are those of its entries. It is read once.
#[tactic(auto, unfolding(crate::specs::Session::store_ok, crate::specs::Session::entries_in, journal::specs::Read::read_ok), using(wire::proofs::laws::Wire::tail_part, crate::proofs::Tests::tests_are))]
pub fn store_ok(way: Way, j: &[u8], used: usize, m: &[u8]) -> bool
    requires { (length m.now ≡ 64) × (length j.now ≡ 2048) }
    ensures { result ≡ cond (store_ok way j.now used) (marks_ok way m.now (entries_in used j.now)) false }
{
    used <= j.len() && journal::all_ok(way, &j[..used], m) && wire::all_zero(&j[used..])
}

// Whether each entry is of kind 01.
pub fn only_clears(b: &[u8]) -> bool
    ensures { result ≡ only_clears (entries_of (scan b.now)) }
{
    for (kind, _) in Entries::new(b) {
        if kind != 0x01 {
            return false;
        }
    }
    true
}

// ---- the id counter

// How many logs a change makes: one for a reset with a log.
pub fn made(change: Change) -> u16
    ensures { result ≡ made_of change }
{
    match change {
        Change::Clear(_, _) => 0,
        Change::Unclear(_, _) => 0,
        Change::SetState(_) => 0,
        Change::SetRole(_, _) => 0,
        Change::SetCaps(_, _) => 0,
        Change::SetUser(_) => 0,
        Change::SetThermal(_) => 0,
        Change::SetThrottles(_) => 0,
        Change::Reset(log) => u16::from(change::made_by(log)),
        Change::Unreset(_, _) => 0,
        Change::SetMask(_) => 0,
        Change::SetDeadman(_) => 0,
        Change::SetAreas(_) => 0,
        Change::SetTimer(_) => 0,
    }
}
