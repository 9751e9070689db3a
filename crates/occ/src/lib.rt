// Each OCC command judged against record, worked-out values and next id. Nothing here changes a record.
#![tactic(auto, unfolding(crate::specs::Commands::poll_verdict, crate::specs::Commands::clear_at, crate::specs::Commands::clear_verdict, crate::specs::Commands::state_fits, crate::specs::Commands::not_ready, crate::specs::Commands::state_verdict, crate::specs::Commands::role_verdict, crate::specs::Commands::caps_for, crate::specs::Commands::sent_caps, crate::specs::Commands::caps_verdict, crate::specs::Commands::user_allowed, crate::specs::Commands::user_for, crate::specs::Commands::user_verdict, crate::specs::Commands::log_due, crate::specs::Commands::reset_for, crate::specs::Commands::reset_verdict, crate::specs::Judge::plainly, crate::specs::Judge::count_status, crate::specs::Judge::sets_status, crate::specs::Judge::read_judged, crate::specs::Judge::throttles_judged, crate::specs::Judge::thermal_judged, crate::specs::Judge::format_judged, crate::specs::Judge::configure_judged, crate::specs::Judge::type_judged, crate::specs::Judge::judge_of, crate::specs::Open::row_of, crate::specs::Open::open_to, crate::specs::Open::open_in, crate::specs::Open::shut_status, crate::specs::Open::shut, crate::specs::Open::by_profile))]

ghost use Rattle.std.specs.Prelude.{◌≡◌, ◌≤◌};
ghost use Rattle.occ.specs.Commands.{poll_verdict, clear_verdict, state_fits, not_ready, state_verdict, role_verdict, caps_for, caps_verdict, user_allowed, user_for, user_verdict, log_due, reset_for, reset_verdict};
ghost use Rattle.occ.specs.Judge.{plainly, sets_status, throttles_read, throttles_judged, thermal_read, thermal_judged, configure_judged, judge_of};
ghost use Rattle.occ.specs.Open.{row_of, open_to, open_in, shut, by_profile};

use change::{Change, Tables};
use packet::Status;
use record::{Caps, Log, Record, Throttles, Worked};

// Refused with a status, a poll to answer, or the change to make.
#[derive(Clone, Copy)]
pub enum Verdict {
    Refuse(Status),
    Poll,
    Make(Change),
}

// A row of the table of what is open: whether the BMC may send it, and whether it is open in a watch-only session.
#[derive(Clone, Copy)]
pub struct Row {
    pub bmc: bool,
    pub watch: bool,
}

// A verdict with the change's tables beside it, zero where it has none.
#[derive(Clone, Copy)]
pub struct Judged {
    pub verdict: Verdict,
    pub tables: Tables,
}

// ---- the small commands

fn poll(d: &[u8]) -> Verdict
    ensures { result ≡ poll_verdict d.now }
{
    if d.len() != 1 {
        return Verdict::Refuse(Status::InvalidLength);
    }
    if d[0] != 0x10 {
        return Verdict::Refuse(Status::InvalidData);
    }
    Verdict::Poll
}

#[tactic(auto, unfolding(crate::specs::Commands::clear_at, crate::specs::Commands::clear_verdict))]
fn clear_log(logs: [Log; 4], d: &[u8]) -> Verdict
    ensures { result ≡ clear_verdict logs d.now }
{
    if d.len() != 1 {
        return Verdict::Refuse(Status::InvalidLength);
    }
    match change::find(logs, d[0]) {
        None => Verdict::Refuse(Status::InvalidData),
        Some(place) => Verdict::Make(Change::Clear(place as u8, logs[place])),
    }
}

// Version 0, state 1 to 3, last byte 0.
fn state_fits(version: u8, state: u8, last: u8) -> bool
    ensures { result ≡ state_fits version state last }
{
    if version != 0 {
        return false;
    }
    if state < 1 {
        return false;
    }
    if 3 < state {
        return false;
    }
    last == 0
}

fn not_ready(w: Worked, state: u8) -> bool
    ensures { result ≡ not_ready w state }
{
    if state == 2 {
        return w.observation == 0;
    }
    if state == 3 {
        return w.active == 0;
    }
    false
}

fn set_state(w: Worked, d: &[u8]) -> Verdict
    ensures { result ≡ state_verdict w d.now }
{
    if d.len() != 3 {
        return Verdict::Refuse(Status::InvalidLength);
    }
    let state = d[1];
    if !state_fits(d[0], state, d[2]) {
        return Verdict::Refuse(Status::InvalidData);
    }
    if not_ready(w, state) {
        return Verdict::Refuse(Status::StateProhibits);
    }
    Verdict::Make(Change::SetState(state))
}

fn role_format(state: u8, d: &[u8]) -> Verdict
    ensures { result ≡ role_verdict state d.now }
{
    if d.len() != 2 {
        return Verdict::Refuse(Status::InvalidLength);
    }
    let role = d[1];
    if 1 < role {
        return Verdict::Refuse(Status::InvalidData);
    }
    if state != 1 {
        return Verdict::Refuse(Status::StateProhibits);
    }
    Verdict::Make(Change::SetRole(1, role))
}

fn caps_for(role: u8, caps: Caps) -> Verdict
    ensures { result ≡ caps_for role caps }
{
    if caps.max < caps.min {
        return Verdict::Refuse(Status::InvalidData);
    }
    if role == 0 {
        return Verdict::Refuse(Status::StateProhibits);
    }
    Verdict::Make(Change::SetCaps(1, caps))
}

fn caps_format(role: u8, d: &[u8]) -> Verdict
    ensures { result ≡ caps_verdict role d.now }
{
    if d.len() != 8 {
        return Verdict::Refuse(Status::InvalidLength);
    }
    if d[1] != 0x10 {
        return Verdict::Refuse(Status::InvalidData);
    }
    let min = wire::be16(d, 2);
    let max = wire::be16(d, 4);
    let over = wire::be16(d, 6);
    caps_for(
        role,
        Caps {
            min: min,
            max: max,
            over: over,
        },
    )
}

// 0 disables; else it must lie in minimum to maximum, and without caps received it may not be.
pub fn user_allowed(got: u8, caps: Caps, user: u16) -> bool
    ensures { result ≡ user_allowed got caps user }
{
    if user == 0 {
        return true;
    }
    if got == 0 {
        return false;
    }
    if user < caps.min {
        return false;
    }
    user <= caps.max
}

fn user_for(role: u8, got: u8, caps: Caps, user: u16) -> Verdict
    ensures { result ≡ user_for role got caps user }
{
    if !user_allowed(got, caps, user) {
        return Verdict::Refuse(Status::InvalidData);
    }
    if role == 0 {
        return Verdict::Refuse(Status::StateProhibits);
    }
    Verdict::Make(Change::SetUser(user))
}

fn user_cap(role: u8, got: u8, caps: Caps, d: &[u8]) -> Verdict
    ensures { result ≡ user_verdict role got caps d.now }
{
    if d.len() != 2 {
        return Verdict::Refuse(Status::InvalidLength);
    }
    user_for(role, got, caps, wire::be16(d, 0))
}

// A log is made for reason 1, and for 2 on a master.
fn log_due(role: u8, reason: u8) -> bool
    ensures { result ≡ log_due role reason }
{
    if reason == 1 {
        return true;
    }
    if reason == 2 {
        return role == 1;
    }
    false
}

// The reset with the log that it makes, whose id is the next one; 255 is the last.
fn reset_for(role: u8, logs: [Log; 4], next: u16, reason: u8) -> Verdict
    ensures { result ≡ reset_for role logs next reason }
{
    if !log_due(role, reason) {
        return Verdict::Make(Change::Reset(Log { id: 0, reason: 0 }));
    }
    if 4 <= change::pending(logs) {
        return Verdict::Refuse(Status::InternalError);
    }
    if 256 <= next {
        return Verdict::Refuse(Status::InternalError);
    }
    Verdict::Make(Change::Reset(Log {
        id: next as u8,
        reason: reason,
    }))
}

fn reset_prep(role: u8, logs: [Log; 4], next: u16, d: &[u8]) -> Verdict
    ensures { result ≡ reset_verdict role logs next d.now }
{
    if d.len() != 2 {
        return Verdict::Refuse(Status::InvalidLength);
    }
    let reason = d[1];
    if d[0] != 0 {
        return Verdict::Refuse(Status::InvalidData);
    }
    if 2 < reason {
        return Verdict::Refuse(Status::InvalidData);
    }
    reset_for(role, logs, next, reason)
}

// ---- configuration

pub fn plain(verdict: Verdict) -> Judged
    ensures { result ≡ plainly verdict }
{
    let none = change::no_tables();
    Judged {
        verdict: verdict,
        tables: none,
    }
}

// What both formats with sets begin with: `n` sets of a width.
fn sets_status(d: &[u8], width: usize) -> Result<(), Status>
    requires { width ≤ 12 }
    ensures { result ≡ sets_status width d.now }
{
    if d.len() < 3 {
        return Err(Status::InvalidLength);
    }
    let n = d[2] as usize;
    if d.len() - 3 != n * width {
        return Err(Status::InvalidLength);
    }
    if d[1] != 0x10 {
        return Err(Status::InvalidData);
    }
    if n == 0 {
        return Err(Status::InvalidData);
    }
    Ok(())
}

fn throttles_read(d: &[u8]) -> Result<Throttles, Status>
    ensures { result ≡ throttles_read d.now }
{
    sets_status(d, 12)?;
    sets::read_sets(&d[3..]).ok_or(Status::InvalidData)
}

fn thermal_read(d: &[u8]) -> Result<[u8; 9], Status>
    ensures { result ≡ thermal_read d.now }
{
    sets_status(d, 4)?;
    sets::read_frus(&d[3..]).ok_or(Status::InvalidData)
}

fn throttles_format(d: &[u8]) -> Judged
    ensures { result ≡ throttles_judged d.now }
{
    match throttles_read(d) {
        Err(status) => plain(Verdict::Refuse(status)),
        Ok(throttles) => Judged {
            verdict: Verdict::Make(Change::SetThrottles(1)),
            tables: Tables {
                thermal: [0; 9],
                throttles,
            },
        },
    }
}

fn thermal_format(d: &[u8]) -> Judged
    ensures { result ≡ thermal_judged d.now }
{
    match thermal_read(d) {
        Err(status) => plain(Verdict::Refuse(status)),
        Ok(thermal) => Judged {
            verdict: Verdict::Make(Change::SetThermal(1)),
            tables: Tables {
                thermal,
                throttles: Throttles {
                    present: 0,
                    sets: [0; 160],
                },
            },
        },
    }
}

fn configure(state: u8, role: u8, d: &[u8]) -> Judged
    ensures { result ≡ configure_judged state role d.now }
{
    if d.len() == 0 {
        return plain(Verdict::Refuse(Status::InvalidLength));
    }
    let format = d[0];
    match format {
        0x03 => plain(role_format(state, d)),
        0x07 => plain(caps_format(role, d)),
        0x12 => throttles_format(d),
        0x13 => thermal_format(d),
        _ => plain(Verdict::Refuse(Status::InvalidData)),
    }
}

// ---- every command

fn opens(bmc: bool, watch: bool) -> Row
    ensures { result ≡ record { bmc = bmc; watch = watch } }
{
    Row {
        bmc: bmc,
        watch: watch,
    }
}

// The table of what is open, to the BMC and in a watch-only session: HTMGT may send every known type, and each is open in a full session.
fn row_of(kind: u8) -> Row
    ensures { result ≡ row_of kind }
{
    match kind {
        0x00 => opens(true, true),
        0x12 => opens(false, true),
        0x20 => opens(false, false),
        0x21 => opens(false, false),
        0x22 => opens(true, false),
        0x25 => opens(false, false),
        0x01..=0x11 | 0x13..=0x1F | 0x23..=0x24 | 0x26..=0xFF => opens(false, false),
    }
}

fn open_to(sender: u8, kind: u8) -> bool
    ensures { result ≡ open_to sender kind }
{
    if sender != 0x20 {
        return true;
    }
    let open = row_of(kind);
    open.bmc
}

fn open_in(profile: u8, kind: u8) -> bool
    ensures { result ≡ open_in profile kind }
{
    if profile == 0 {
        return true;
    }
    let open = row_of(kind);
    open.watch
}

// A whole packet's type and data, judged in document 01's order of statuses.
pub fn judge(r: Record, w: Worked, next: u16, sender: u8, kind: u8, d: &[u8]) -> Judged
    ensures { result ≡ judge_of r w next sender kind d.now }
{
    let got = r.received;
    let caps = r.caps;
    let logs = r.logs;
    let state = r.state;
    let role = r.role;
    if !open_to(sender, kind) {
        return plain(Verdict::Refuse(Status::InvalidCommand));
    }
    match kind {
        0x00 => plain(poll(d)),
        0x12 => plain(clear_log(logs, d)),
        0x20 => plain(set_state(w, d)),
        0x21 => configure(state, role, d),
        0x22 => plain(user_cap(role, got.caps, caps, d)),
        0x25 => plain(reset_prep(role, logs, next, d)),
        0x01..=0x11 | 0x13..=0x1F | 0x23..=0x24 | 0x26..=0xFF => plain(Verdict::Refuse(
            Status::InvalidCommand,
        )),
    }
}

// Where the profile shuts a type, what would be done is 0x16, and so is what would be 0x15.
fn shut(verdict: Verdict) -> Verdict
    ensures { result ≡ shut verdict }
{
    match verdict {
        Verdict::Refuse(Status::InternalError) => Verdict::Refuse(Status::StateProhibits),
        Verdict::Refuse(status) => Verdict::Refuse(status),
        Verdict::Poll => Verdict::Refuse(Status::StateProhibits),
        Verdict::Make(_) => Verdict::Refuse(Status::StateProhibits),
    }
}

// What was judged, in a session of this profile.
pub fn by_profile(profile: u8, kind: u8, verdict: Verdict) -> Verdict
    ensures { result ≡ by_profile profile kind verdict }
{
    if open_in(profile, kind) {
        return verdict;
    }
    shut(verdict)
}
