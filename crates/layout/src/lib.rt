// The image of a session by the names of its parts: where each begins, and how long an image is.
#![tactic(auto)]

// Bytes of a store.
pub const STORE: usize = 2048;

// The journal begins, and ends where the used bytes of the redo store stand.
pub const JOURNAL: usize = 239;

pub const AHEAD: usize = 2287;

// The redo store begins and ends.
pub const REDO: usize = 2289;

pub const REDO_END: usize = 4337;

// The marks begin, and end where the timer stands.
pub const MARKS: usize = 4337;

pub const TIMER: usize = 4401;

pub const PROFILE: usize = 4410;

// All of it.
pub const IMAGE: usize = 4411;
