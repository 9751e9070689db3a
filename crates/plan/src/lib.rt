// The calls `plan_ok` and `plan`: whether an order of prepared packets leads to a wanted state, and the first order that does. Packets are tried on a
// record and a next id, by value; the session is only looked at.
#![tactic(auto, unfolding(crate::specs::Plan::sound, crate::specs::Plan::sounds, crate::specs::Plan::wanted_ok, crate::specs::Plan::given, crate::specs::Plan::trial_by))]

ghost use Rattle.std.specs.Prelude.{true, ◌≡◌, ◌≤◌, ◌<◌, length, drop, IfSome};
ghost use Rattle.plan.specs.Plan.{packet_at, packets_in, sound, sounds, trial_made, trial_of, is_order, reaches, plan_ok, digits_of, trimmed, least_plan, wanted_ok, Plannable, given, plan_ok_on, PlanAllows};

use change::Edit;
use image::Head;
use inplace::Told;
use occ::Verdict;
use record::Record;

// Orders of five packets, by number: 6 ^ 5.
const ORDERS: u16 = 7776;

// The record and next id as the packets tried so far leave them.
#[derive(Clone, Copy)]
pub struct Trial {
    pub held: Record,
    pub next: u16,
}

// ---- the packets

// The packet at a place, uncopied; an empty part where there is none.
fn packet_at(packets: &[u8], place: usize) -> &[u8]
    requires { place ≤ 4 }
    ensures { result.now ≡ packet_at place packets.now }
{
    let at = 4096 * place;
    if packets.len() <= at {
        return &packets[..0];
    }
    if packets.len() - at <= 4096 {
        return &packets[at..];
    }
    let end = at + 4096;
    &packets[at..end]
}

// What a packet's bytes alone decide.
fn sound(command: &[u8]) -> bool
    ensures { result ≡ sound command.now }
{
    if command.len() < 4 {
        return false;
    }
    packet::check(command).is_ok()
}

// Of all five places: each packet is read and summed once.
fn sounds(packets: &[u8]) -> [bool; 5]
    ensures { result ≡ sounds packets.now }
{
    let a = sound(packet_at(packets, 0));
    let b = sound(packet_at(packets, 1));
    let c = sound(packet_at(packets, 2));
    let d = sound(packet_at(packets, 3));
    let e = sound(packet_at(packets, 4));
    [a, b, c, d, e]
}

// ---- a trial

// A change carried out: the record, and the next id where it makes a log.
fn made(t: Trial, e: Edit) -> Trial
    requires { t.next ≤ 65534 }
    ensures { result ≡ trial_made t e.tables e.change }
{
    Trial {
        held: change::put(t.held, e).unwrap_or(t.held),
        next: t.next + session::made(e.change),
    }
}

// A packet from HTMGT, whose bytes are known to be sound or not, tried where the trial stands.
fn attempt(t: Trial, fine: bool, command: &[u8]) -> Option<Trial>
    requires { (t.next ≤ 65534) × (fine ≡ sound command.now) }
    ensures { result ≡ trial_of t command.now }
{
    if !fine {
        return None;
    }
    let worked = record::work_out(t.held);
    let kind = command[1];
    let judged = occ::judge(
        t.held,
        worked,
        t.next,
        0x10,
        kind,
        packet::data_part(command),
    );
    let tables = judged.tables;
    match judged.verdict {
        Verdict::Refuse(_) => None,
        Verdict::Poll => Some(t),
        Verdict::Make(change) => Some(made(t, Edit { change, tables })),
    }
}

// ---- a proposal

fn is_order(count: u8, order: &[u8]) -> bool
    ensures { result ≡ is_order count order.now }
{
    let mut left = order;
    while let Some((x, rest)) = left.split_first() {
        if *x == 0 {
            return false;
        }
        if count < *x {
            return false;
        }
        if rest.contains(x) {
            return false;
        }
        left = rest;
    }
    true
}

// Whether the packets of an order, tried one after the other, all succeed and leave the wanted state.
fn reaches(packets: &[u8], fine: [bool; 5], wanted: u8, start: Trial, order: &[u8]) -> bool
    requires { (fine ≡ sounds packets.now) × (start.next ≤ 256) × (length order.now ≤ 5) × (is_order 5 order.now ≡ true) }
    ensures { result ≡ reaches packets.now wanted start order.now }
{
    let mut t = start;
    for number in order {
        let place = *number as usize - 1;
        let Some(after) = attempt(t, fine[place], packet_at(packets, place)) else {
            return false;
        };
        t = after;
    }
    let held = t.held;
    held.state == wanted
}

// The check of a proposal.
fn passes(packets: &[u8], fine: [bool; 5], wanted: u8, start: Trial, order: &[u8]) -> bool
    requires { (fine ≡ sounds packets.now) × (start.next ≤ 256) × (packets_in packets.now ≤ 5) }
    ensures { result ≡ plan_ok packets.now wanted start order.now }
{
    if 5 < order.len() {
        return false;
    }
    let count = (packets.len() + 4095) / 4096;
    if !is_order(count as u8, order) {
        return false;
    }
    reaches(packets, fine, wanted, start, order)
}

// ---- the first order that passes

fn digits(n: u16) -> [u8; 5]
    requires { n < 7776 }
    ensures { result ≡ digits_of n }
{
    let a = n / 1296 % 6;
    let b = n / 216 % 6;
    let c = n / 36 % 6;
    let d = n / 6 % 6;
    let e = n % 6;
    [a as u8, b as u8, c as u8, d as u8, e as u8]
}

// Where the digits' leading zeros end.
fn zeros(digits: [u8; 5]) -> usize
    ensures { (result ≤ 5) × (drop result digits ≡ trimmed digits) }
{
    for (i, digit) in digits.iter().enumerate() {
        if *digit != 0 {
            return i;
        }
    }
    5
}

// Its number.
fn search(packets: &[u8], wanted: u8, start: Trial) -> Option<u16>
    requires { (start.next ≤ 256) × (packets_in packets.now ≤ 5) }
    ensures { result ≡ least_plan packets.now wanted start }
{
    let fine = sounds(packets);
    for n in 0..ORDERS {
        let digits = digits(n);
        let from = zeros(digits);
        if passes(packets, fine, wanted, start, &digits[from..]) {
            return Some(n);
        }
    }
    None
}

// ---- the public calls, on a session that is lent as its image's bytes

fn wanted_ok(wanted: u8) -> bool
    ensures { result ≡ wanted_ok wanted }
{
    if wanted == 2 {
        return true;
    }
    wanted == 3
}

// Whether a well-formed session is not answered by 10.
fn plannable(packets: &[u8], wanted: u8) -> bool
    ensures { Plannable packets.now wanted result }
{
    if 20480 < packets.len() {
        return false;
    }
    wanted_ok(wanted)
}

fn start_of(h: Head) -> Trial
    ensures { result ≡ record { held = h.held; next = h.next } }
{
    let held = h.held;
    Trial {
        held: held,
        next: h.next,
    }
}

// Whether a proposal is a plan; the session is kept.
pub fn plan_ok(lent: &[u8], packets: &[u8], wanted: u8, order: &[u8]) -> Told
    ensures { result ≡ plan_ok_on lent.now packets.now wanted order.now }
{
    let Some(h) = inplace::open(lent) else {
        return inplace::answer_with(1, 0);
    };
    if !plannable(packets, wanted) {
        return inplace::answer_with(10, 0);
    }
    let start = start_of(h);
    if !passes(packets, sounds(packets), wanted, start, order) {
        return inplace::answer_with(0, 0);
    }
    Told {
        answer: 0,
        small: 1,
        beside: 0,
    }
}

// The plan of an order's number is written to the front of the buffer.
fn give(found: Option<u16>, order: &mut [u8]) -> Told
    requires { IfSome found (λ n. n < 7776) × (5 ≤ length order.old) }
    ensures value { result ≡ (given found order.old).told }
    ensures order_after { order.new ≡ (given found order.old).order }
{
    let Some(n) = found else {
        return inplace::answer_with(0, 0);
    };
    let digits = digits(n);
    let from = zeros(digits);
    wire::copy(order, 0, &digits[from..]);
    Told {
        answer: 0,
        small: 1,
        beside: (5 - from) as u16,
    }
}

// The plan with the fewest packets, the least of these in index order; the session is kept.
pub fn plan(lent: &[u8], packets: &[u8], wanted: u8, order: &mut [u8]) -> Told
    ensures { PlanAllows lent.now packets.now wanted order.old result order.new }
{
    let Some(h) = inplace::open(lent) else {
        return inplace::answer_with(1, 0);
    };
    if !plannable(packets, wanted) {
        return inplace::answer_with(10, 0);
    }
    if order.len() < 5 {
        return inplace::answer_with(3, 0);
    }
    let start = start_of(h);
    give(search(packets, wanted, start), order)
}
