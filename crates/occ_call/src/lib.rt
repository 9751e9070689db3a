// The call `occ`: a command buffer from a sender, answered on a lent session. Refuse first, read, judge, carry out, reply last.
#![tactic(auto, unfolding(crate::specs::Occ::known_sender, crate::specs::Occ::refusal_of, crate::specs::Occ::asked_of, crate::specs::Occ::asked_for, crate::specs::Occ::told_of, crate::specs::Occ::fault_by, crate::specs::Occ::fault_for, crate::specs::Occ::beside_of))]

ghost use Rattle.std.specs.Prelude.{true, ◌≡◌, ◌≤◌, length, get_or};
ghost use Rattle.occ_call.specs.Occ.{known_sender, refusal_of, asked_of, told_of, fault_for, beside_of, occ_read_left, OccAllows};
ghost use Rattle.packet.specs.Packet.{data_of};
ghost use Rattle.session.specs.Session.{well_formed};
ghost use Rattle.image.specs.Image.{session_in};
ghost use Rattle.inplace.specs.InPlace.{HeadStands, Refused};

use change::Edit;
use image::Head;
use inplace::Told;
use occ::{Judged, Verdict};
use packet::Status;
use places::Fault;
use record::{Record, Worked};

// HTMGT or the BMC.
fn known_sender(sender: u8) -> bool
    ensures { result ≡ known_sender sender }
{
    if sender == 0x10 {
        return true;
    }
    sender == 0x20
}

// Answers 2 to 4 in document 01's order, of a session that is well formed.
fn refusal(sender: u8, command: usize, reply: usize) -> Option<u8>
    ensures { Refused (refusal_of true sender command reply) result }
{
    if !known_sender(sender) {
        return Some(2);
    }
    if reply < 4096 {
        return Some(3);
    }
    if command < 4 {
        return Some(4);
    }
    None
}

// What a command asks for: its packet's own statuses first, then its type and data judged.
fn ask(held: Record, worked: Worked, next: u16, sender: u8, command: &[u8]) -> Judged
    requires { 4 ≤ length command.now }
    ensures { result ≡ asked_of held worked next sender command.now }
{
    if let Err(status) = packet::check(command) {
        return occ::plain(Verdict::Refuse(status));
    }
    let kind = command[1];
    occ::judge(held, worked, next, sender, kind, packet::data_part(command))
}

// The reply to what is no change; a change has none yet.
fn tell(verdict: Verdict, held: Record, worked: Worked, seq: u8, kind: u8, reply: &mut [u8])
    ensures { reply.new ≡ told_of verdict held worked seq kind reply.old }
{
    match verdict {
        Verdict::Refuse(status) => packet::error_reply(reply, seq, kind, u8::from(status)),
        Verdict::Poll => poll::poll_reply(reply, seq, held, worked),
        Verdict::Make(_) => {}
    }
}

// The first wrong byte of a 0x13; other statuses have none.
fn why(verdict: Verdict, held: Record, command: &[u8]) -> Option<Fault>
    requires { 4 ≤ length command.now }
    ensures { result ≡ fault_for verdict held (get_or command.now 1 0) (data_of command.now) }
{
    let Verdict::Refuse(Status::InvalidData) = verdict else {
        return None;
    };
    let kind = command[1];
    places::find(held, kind, packet::data_part(command))
}

// Answer 0, and beside it reason and place.
fn answer_why(found: Option<Fault>) -> Told
    ensures { result ≡ beside_of 0 found }
{
    let Some(fault) = found else {
        return inplace::answer_with(0, 0);
    };
    let small = u8::from(fault.reason);
    Told {
        answer: 0,
        small,
        beside: fault.at,
    }
}

// A command that is due an answer: judged, carried out if it asks for a change, and replied to.
fn hear(lent: &mut [u8], h: Head, sender: u8, command: &[u8], reply: &mut [u8]) -> Told
    requires { HeadStands h lent.old × (well_formed (session_in h lent.old) ≡ true) × (4 ≤ length command.now) }
    ensures value { result ≡ (occ_read_left (session_in h lent.old) sender command.now reply.old).told }
    ensures lent_after { lent.new ≡ (occ_read_left (session_in h lent.old) sender command.now reply.old).image }
    ensures reply_after { reply.new ≡ (occ_read_left (session_in h lent.old) sender command.now reply.old).reply }
{
    let seq = command[0];
    let kind = command[1];
    let asked = ask(h.held, h.worked, h.next, sender, command);
    let verdict = occ::by_profile(h.profile, kind, asked.verdict);
    let Verdict::Make(change) = verdict else {
        tell(verdict, h.held, h.worked, seq, kind, reply);
        return answer_why(why(verdict, h.held, command));
    };
    let tables = asked.tables;
    if inplace::carry(lent, h, Edit { change, tables }).is_err() {
        return inplace::answer_with(5, 0);
    }
    let nothing = [0u8; 1];
    packet::reply(reply, seq, kind, 0x00, &nothing[..0]);
    inplace::answer_with(0, 0)
}

// The public call, on a session that is lent as its image's bytes.
pub fn occ(lent: &mut [u8], sender: u8, command: &[u8], reply: &mut [u8]) -> Told
    ensures { OccAllows lent.old sender command.now reply.old result lent.new reply.new }
{
    let Some(h) = inplace::open(&*lent) else {
        return inplace::answer_with(1, 0);
    };
    if let Some(n) = refusal(sender, command.len(), reply.len()) {
        return inplace::answer_with(n, 0);
    }
    hear(lent, h, sender, command, reply)
}
