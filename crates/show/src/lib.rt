// The session as text for a person, on a page, a function for each line of docs/PROTOCOL.md. Every
// byte pattern shows.
#![tactic(auto, unfolding(text::specs::Text::put_all, crate::specs::Show::number_text, crate::specs::Show::named_text, crate::specs::Show::mark_text, crate::specs::Show::yes_text, crate::specs::Show::state_word, crate::specs::Show::state_text, crate::specs::Show::role_word, crate::specs::Show::role_text, crate::specs::Show::caps_text, crate::specs::Show::wanted_text, crate::specs::Show::worked_text, crate::specs::Show::settings_text, crate::specs::Show::thresholds_text, crate::specs::Show::pair_text, crate::specs::Show::throttles_text, crate::specs::Show::log_text, crate::specs::Show::places_text, crate::specs::Show::logs_text, crate::specs::Show::mask_text, crate::specs::Show::deadman_text, crate::specs::Show::area_text, crate::specs::Show::areas_text, crate::specs::Show::rest_text, crate::specs::Show::timer_text, crate::specs::Show::profile_word, crate::specs::Show::redo_text, crate::specs::Show::journal_text, crate::specs::Show::session_text, crate::specs::Show::reading_text), using(text::proofs::laws::Pieces::put_all_append))]

ghost use Rattle.std.specs.Prelude.{◌≡◌, ◌∷◌, cond, [], eqb};
ghost use Rattle.text.specs.Pages.{Puts};
ghost use Rattle.show.specs.Show.{number_text, named_text, mark_text, yes_text, state_word, state_text, role_word, role_text, caps_text, wanted_text, worked_text, settings_text, thresholds_text, pair_text, pairs_text, throttles_text, log_text, places_text, logs_text, cores_text, mask_text, deadman_text, area_text, areas_text, rest_text, reading_text, store_text, redo_text, journal_text, timer_text, profile_word, session_text};

use entries::{Broken, Whole};
use record::{Area, Areas, Caps, Deadman, Log, Record, Timer, Worked};
use text::Page;

// ---- numbers and marks

// A line of a name and a number.
fn put_named(page: &mut Page, name: &[u8], n: u64)
    ensures { Puts page.old page.new (named_text name.now n) }
{
    page.put(name);
    page.put_number(n);
    page.put(b"\n");
}

// What a line of parts ends with.
fn mark_text(mark: u8) -> &'static [u8]
    ensures { result.now ≡ mark_text mark }
{
    if mark == 0 {
        b" not received\n"
    } else {
        b" received\n"
    }
}

fn yes_text(flag: u8) -> &'static [u8]
    ensures { result.now ≡ yes_text flag }
{
    if flag == 0 { b" no\n" } else { b" yes\n" }
}

// ---- the lines

fn state_word(state: u8) -> &'static [u8]
    ensures { result.now ≡ state_word state }
{
    match state {
        1 => b" standby\n",
        2 => b" observation\n",
        3 => b" active\n",
        _ => b" unknown\n",
    }
}

fn put_state(page: &mut Page, state: u8)
    ensures { Puts page.old page.new (state_text state) }
{
    page.put(b"state");
    page.put_number(u64::from(state));
    page.put(state_word(state));
}

fn role_word(role: u8) -> &'static [u8]
    ensures { result.now ≡ role_word role }
{
    match role {
        0 => b" slave",
        1 => b" master",
        _ => b" unknown",
    }
}

fn put_role(page: &mut Page, role: u8, mark: u8)
    ensures { Puts page.old page.new (role_text role mark) }
{
    page.put(b"role");
    page.put_number(u64::from(role));
    page.put(role_word(role));
    page.put(mark_text(mark));
}

fn put_caps(page: &mut Page, caps: Caps, mark: u8)
    ensures { Puts page.old page.new (caps_text caps mark) }
{
    page.put(b"caps");
    page.put_number(u64::from(caps.min));
    page.put_number(u64::from(caps.max));
    page.put_number(u64::from(caps.over));
    page.put(mark_text(mark));
}

fn put_wanted(page: &mut Page, wanted: u8)
    ensures { Puts page.old page.new (wanted_text wanted) }
{
    page.put(b"wanted format ");
    page.put_hex(wanted);
    page.put(b"\n");
}

// The two readies and the configuration format that is wanted.
fn put_worked(page: &mut Page, worked: Worked)
    ensures { Puts page.old page.new (worked_text worked) }
{
    put_named(page, b"limit", u64::from(worked.limit));
    page.put(b"observation-ready");
    page.put(yes_text(worked.observation));
    page.put(b"active-ready");
    page.put(yes_text(worked.active));
    put_wanted(page, worked.wanted);
}

fn put_thresholds(page: &mut Page, thermal: &[u8], mark: u8)
    ensures { Puts page.old page.new (thresholds_text thermal.now mark) }
{
    page.put(b"thresholds");
    page.put_numbers(thermal);
    page.put(mark_text(mark));
}

// A pair as `hub.MBA`; its number is 2 x hub + MBA.
fn put_pair(page: &mut Page, pair: u64)
    ensures { Puts page.old page.new (pair_text pair) }
{
    page.put_number(pair / 2);
    page.put(b".");
    page.put_decimal(pair % 2);
}

// The pair is put where its bit is set.
fn put_present(page: &mut Page, bit: u16, pair: u64)
    ensures { Puts page.old page.new (cond (eqb bit 0) [] (pair_text pair)) }
{
    if bit != 0 {
        put_pair(page, pair);
    }
}

// Pair 0 is the least significant bit.
fn put_pairs(page: &mut Page, present: u16)
    ensures { Puts page.old page.new (pairs_text present) }
{
    if present == 0 {
        page.put(b" none");
        return;
    }
    let mut left = present;
    for pair in 0..16 {
        put_present(page, left % 2, pair);
        left /= 2;
    }
}

fn put_throttles(page: &mut Page, present: u16, mark: u8)
    ensures { Puts page.old page.new (throttles_text present mark) }
{
    page.put(b"throttles");
    put_pairs(page, present);
    page.put(mark_text(mark));
}

// A log as `id:reason`; an unused place has the id 0.
fn put_log(page: &mut Page, log: Log)
    ensures { Puts page.old page.new (log_text log) }
{
    if log.id == 0 {
        return;
    }
    page.put_number(u64::from(log.id));
    page.put(b":");
    page.put_decimal(u64::from(log.reason));
}

fn put_places(page: &mut Page, a: Log, b: Log, c: Log, d: Log)
    ensures { Puts page.old page.new (places_text a b c d) }
{
    if a.id as u16 + b.id as u16 + c.id as u16 + d.id as u16 == 0 {
        page.put(b" none");
        return;
    }
    put_log(page, a);
    put_log(page, b);
    put_log(page, c);
    put_log(page, d);
}

fn put_logs(page: &mut Page, logs: [Log; 4])
    ensures { Puts page.old page.new (logs_text logs) }
{
    page.put(b"logs");
    put_places(page, logs[0], logs[1], logs[2], logs[3]);
    page.put(b"\n");
}

// The core is put where its bit is set.
fn put_core(page: &mut Page, bit: u32, core: u64)
    ensures { Puts page.old page.new (cond (eqb bit 0) [] (number_text core)) }
{
    if bit != 0 {
        page.put_number(core);
    }
}

// Core 0 is the most significant bit.
fn put_cores(page: &mut Page, mask: u32)
    ensures { Puts page.old page.new (cores_text mask) }
{
    if mask == 0 {
        page.put(b" none");
        return;
    }
    let mut left = mask;
    for core in 0..32 {
        put_core(page, left / 0x8000_0000, core);
        left = left % 0x8000_0000 * 2;
    }
}

fn put_mask(page: &mut Page, mask: u32)
    ensures { Puts page.old page.new (mask_text mask) }
{
    page.put(b"cores out");
    put_cores(page, mask);
    page.put(b"\n");
}

fn put_deadman(page: &mut Page, deadman: Deadman)
    ensures { Puts page.old page.new (deadman_text deadman) }
{
    if deadman.running == 0 {
        put_named(page, b"deadman off", deadman.time);
    } else {
        put_named(page, b"deadman on", deadman.time);
    }
}

// An area's address and size in hex.
fn put_area(page: &mut Page, name: &[u8], area: Area)
    ensures { Puts page.old page.new (area_text name.now area) }
{
    let mut address = [0u8; 8];
    wire::put_be(&mut address, 0, 8, area.address);
    let mut size = [0u8; 4];
    wire::put_be(&mut size, 0, 4, area.size as u64);
    page.put(name);
    page.put_hexes(&address);
    page.put(b" ");
    page.put_hexes(&size);
    page.put(b"\n");
}

fn put_areas(page: &mut Page, areas: Areas)
    ensures { Puts page.old page.new (areas_text areas) }
{
    put_area(page, b"area ffdc ", areas.ffdc);
    put_area(page, b"area pass ", areas.pass);
}

// A number after the name that fits how a store reads.
fn put_reading(page: &mut Page, whole: &[u8], damaged: &[u8], reading: Result<Whole, Broken>)
    ensures { Puts page.old page.new (reading_text whole.now damaged.now reading) }
{
    match reading {
        Ok(read) => put_named(page, whole, read.count as u64),
        Err(broken) => put_named(page, damaged, broken.place as u64),
    }
}

// How a store's first `used` bytes read.
fn put_store(page: &mut Page, whole: &[u8], damaged: &[u8], long: &[u8], s: &[u8], used: usize)
    ensures { Puts page.old page.new (store_text whole.now damaged.now long.now s.now used) }
{
    if s.len() < used {
        page.put(long);
        return;
    }
    put_reading(page, whole, damaged, entries::read(&s[..used]));
}

fn put_redo(page: &mut Page, redo: &[u8], ahead: usize)
    ensures { Puts page.old page.new (redo_text redo.now ahead) }
{
    put_store(
        page,
        b"redo",
        b"redo damaged at",
        b"redo too long\n",
        redo,
        ahead,
    );
}

// How the journal reads, and its unused bytes.
fn put_journal(page: &mut Page, j: &[u8], used: usize)
    ensures { Puts page.old page.new (journal_text j.now used) }
{
    put_store(page, b"journal", b"damaged at", b"too long\n", j, used);
    put_named(page, b"room", j.len().saturating_sub(used) as u64);
}

// Every running byte but 0 is on.
fn put_timer(page: &mut Page, timer: Timer)
    ensures { Puts page.old page.new (timer_text timer) }
{
    if timer.running == 0 {
        page.put(b"timer off\n");
    } else {
        put_named(page, b"timer on", timer.left);
    }
}

fn profile_word(profile: u8) -> &'static [u8]
    ensures { result.now ≡ profile_word profile }
{
    match profile {
        0 => b"profile full\n",
        1 => b"profile watch-only\n",
        _ => b"profile unknown\n",
    }
}

fn put_settings(page: &mut Page, held: Record, worked: Worked)
    ensures { Puts page.old page.new (settings_text held worked) }
{
    put_state(page, held.state);
    put_role(page, held.role, held.received.role);
    put_caps(page, held.caps, held.received.caps);
    put_named(page, b"user cap", u64::from(held.user));
    put_worked(page, worked);
}

fn put_rest(page: &mut Page, held: Record)
    ensures { Puts page.old page.new (rest_text held) }
{
    put_thresholds(page, &held.thermal, held.received.thermal);
    put_throttles(page, held.throttles.present, held.received.throttles);
    put_logs(page, held.logs);
    put_mask(page, held.mask);
    put_deadman(page, held.deadman);
    put_areas(page, held.areas);
}

// All of a session, and the line that ends it; `used` bytes of the journal and `ahead` of the redo
// store are used.
pub fn put_session(
    page: &mut Page,
    held: Record,
    worked: Worked,
    next: u16,
    j: &[u8],
    used: usize,
    redo: &[u8],
    ahead: usize,
    timer: Timer,
    profile: u8,
)
    ensures { Puts page.old page.new (session_text held worked next j.now used redo.now ahead timer profile) }
{
    put_settings(page, held, worked);
    put_rest(page, held);
    put_redo(page, redo, ahead);
    put_timer(page, timer);
    page.put(profile_word(profile));
    put_named(page, b"next id", u64::from(next));
    put_journal(page, j, used);
    page.put(b".\n");
}
