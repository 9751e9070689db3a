// The record of a session, and what is worked out from it. Plain numbers only: every byte pattern is some record.
#![tactic(auto, unfolding(crate::specs::Record::fresh_record, crate::specs::Record::limit_of, crate::specs::Record::clamped, crate::specs::Record::observation_ready, crate::specs::Record::active_ready, crate::specs::Record::caps_missing, crate::specs::Record::wanted_of, crate::specs::Record::flag_of, crate::specs::Record::worked_of,))]

ghost use Rattle.std.specs.Prelude.{◌≡◌};
ghost use Rattle.record.specs.Record.{fresh_record, limit_of, observation_ready, active_ready, caps_missing, wanted_of, worked_of};

// A pending log; an unused place has both numbers 0.
#[derive(Clone, Copy, PartialEq, Eq)]
pub struct Log {
    pub id: u8,
    pub reason: u8,
}

#[derive(Clone, Copy)]
pub struct Caps {
    pub min: u16,
    pub max: u16,
    pub over: u16,
}

#[derive(Clone, Copy)]
pub struct Area {
    pub address: u64,
    pub size: u32,
}

// The FFDC area and the pass-through area.
#[derive(Clone, Copy)]
pub struct Areas {
    pub ffdc: Area,
    pub pass: Area,
}

#[derive(Clone, Copy)]
pub struct Deadman {
    pub running: u8,
    pub time: u64,
}

// The one timer of the mailbox (document 02, h), outside the record: off, or the microseconds left.
#[derive(Clone, Copy)]
pub struct Timer {
    pub running: u8,
    pub left: u64,
}

// What was received: 0 or 1 each.
#[derive(Clone, Copy)]
pub struct Received {
    pub role: u8,
    pub caps: u8,
    pub throttles: u8,
    pub thermal: u8,
}

// The present pairs as one number, and ten bytes for each of the 16 pairs, in the order 2 x hub + MBA.
#[derive(Clone, Copy)]
pub struct Throttles {
    pub present: u16,
    pub sets: [u8; 160],
}

#[derive(Clone, Copy)]
pub struct Record {
    pub state: u8,
    pub role: u8,
    pub caps: Caps,
    pub throttles: Throttles,
    pub user: u16,
    pub thermal: [u8; 9],
    pub received: Received,
    pub logs: [Log; 4],
    pub mask: u32,
    pub deadman: Deadman,
    pub areas: Areas,
}

// What is worked out from a record; the two readies are 0 or 1.
#[derive(Clone, Copy, PartialEq, Eq)]
pub struct Worked {
    pub limit: u16,
    pub observation: u8,
    pub active: u8,
    pub wanted: u8,
}

pub fn fresh() -> Record
    ensures { result ≡ fresh_record }
{
    let unused = Log { id: 0, reason: 0 };
    let nowhere = Area {
        address: 0,
        size: 0,
    };
    Record {
        state: 1,
        role: 0,
        caps: Caps {
            min: 0,
            max: 0,
            over: 0,
        },
        throttles: Throttles {
            present: 0,
            sets: [0; 160],
        },
        user: 0,
        thermal: [0xFF; 9],
        received: Received {
            role: 0,
            caps: 0,
            throttles: 0,
            thermal: 0,
        },
        logs: [unused; 4],
        mask: 0,
        deadman: Deadman {
            running: 0,
            time: 0,
        },
        areas: Areas {
            ffdc: nowhere,
            pass: nowhere,
        },
    }
}

// The cap in force.
pub fn limit(role: u8, got: u8, caps: Caps, user: u16) -> u16
    ensures { result ≡ limit_of role got caps user }
{
    if role == 0 {
        return 0;
    }
    if got == 0 {
        return 0;
    }
    if user == 0 {
        return caps.max;
    }
    if user < caps.min {
        return caps.min;
    }
    if caps.max < user {
        return caps.max;
    }
    user
}

pub fn observation_ready(got: Received, role: u8) -> bool
    ensures { result ≡ observation_ready got role }
{
    if got.role == 0 {
        return false;
    }
    if got.thermal == 0 {
        return false;
    }
    if role == 1 {
        return got.caps != 0;
    }
    true
}

pub fn active_ready(got: Received, role: u8) -> bool
    ensures { result ≡ active_ready got role }
{
    if observation_ready(got, role) {
        return got.throttles != 0;
    }
    false
}

fn caps_missing(got: Received, role: u8) -> bool
    ensures { result ≡ caps_missing got role }
{
    if role == 1 {
        return got.caps == 0;
    }
    false
}

// The configuration format that the stand-in asks for next.
pub fn wanted(got: Received, role: u8) -> u8
    ensures { result ≡ wanted_of got role }
{
    if got.role == 0 {
        return 0x03;
    }
    if got.thermal == 0 {
        return 0x13;
    }
    if caps_missing(got, role) {
        return 0x07;
    }
    if got.throttles == 0 {
        return 0x12;
    }
    0x00
}

pub fn work_out(r: Record) -> Worked
    ensures { result ≡ worked_of r }
{
    Worked {
        limit: limit(r.role, r.received.caps, r.caps, r.user),
        observation: u8::from(observation_ready(r.received, r.role)),
        active: u8::from(active_ready(r.received, r.role)),
        wanted: wanted(r.received, r.role),
    }
}
