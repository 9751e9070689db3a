// The call `sbe`: a mailbox request, answered on a lent session. Refuse first, judge, serve, carry out, respond and ring last.
#![tactic(auto, unfolding(crate::specs::Sbe::refusal_of, crate::specs::Sbe::counted_in, crate::specs::Sbe::read_status, crate::specs::Sbe::read_at, crate::specs::Sbe::judged_for, crate::specs::Sbe::denied, crate::specs::Sbe::by_profile, crate::specs::Sbe::served_by, crate::specs::Sbe::served_at, crate::specs::Sbe::told_of))]

ghost use Rattle.std.specs.Prelude.{true, ◌≡◌, ◌≤◌, length};
ghost use Rattle.sbe_call.specs.Sbe.{refusal_of, counted_in, read_status, judged_for, denied, by_profile, served_by, told_of, ruled_left, SbeAllows, AloneAllows};
ghost use Rattle.session.specs.Session.{well_formed};
ghost use Rattle.image.specs.Image.{session_in};
ghost use Rattle.inplace.specs.InPlace.{HeadStands, Refused};

use change::Edit;
use image::Head;
use inplace::Told;
use sbe::{Refusal, Ruling};

// Answers 3 and 4 in document 01's order, of a session that is well formed.
fn refusal(request: usize, reply: usize) -> Option<u8>
    ensures { Refused (refusal_of true request reply) result }
{
    if reply < 32 {
        return Some(3);
    }
    if request < 32 {
        return Some(4);
    }
    None
}

// ---- D7 03, where the lent image and the second buffer are known

// Only the first 65,536 bytes count.
fn counted(image: usize) -> usize
    ensures { result ≡ counted_in image }
{
    if 65536 < image {
        return 65536;
    }
    image
}

// Whether a read is served.
fn read_status(image: usize, room: usize, offset: u32, size: u32) -> Result<(), Refusal>
    ensures { result ≡ read_status image room offset size }
{
    if offset % 8 != 0 {
        return Err(Refusal::InvalidParameters);
    }
    if size % 8 != 0 {
        return Err(Refusal::InvalidParameters);
    }
    if counted(image) < offset as usize + size as usize {
        return Err(Refusal::InvalidParameters);
    }
    if room < size as usize {
        return Err(Refusal::BufferOverflow);
    }
    Ok(())
}

// A read is declined, or done; other rulings stay.
fn judged(ruling: Ruling, image: usize, room: usize) -> Ruling
    ensures { result ≡ judged_for image room ruling }
{
    let Ruling::Read(offset, size) = ruling else {
        return ruling;
    };
    match read_status(image, room, offset, size) {
        Ok(()) => Ruling::Done,
        Err(why) => Ruling::Decline(why),
    }
}

// The bytes asked for go to the front of the second buffer; the rest is kept.
fn serve(ruling: Ruling, seeprom: &[u8], served: &mut [u8])
    ensures { served.new ≡ served_by ruling seeprom.now served.old }
{
    let Ruling::Read(offset, size) = ruling else {
        return;
    };
    if read_status(seeprom.len(), served.len(), offset, size).is_err() {
        return;
    }
    let start = offset as usize;
    let end = start + size as usize;
    wire::copy(served, 0, &seeprom[start..end]);
}

// ---- a request that is due an answer

// In a watch-only session no change is granted; other rulings stay.
fn denied(ruling: Ruling) -> Ruling
    ensures { result ≡ denied ruling }
{
    match ruling {
        Ruling::Decline(why) => Ruling::Decline(why),
        Ruling::Grant(_) => Ruling::Decline(Refusal::AccessDenied),
        Ruling::Done => Ruling::Done,
        Ruling::Read(offset, size) => Ruling::Read(offset, size),
    }
}

fn by_profile(profile: u8, ruling: Ruling) -> Ruling
    ensures { result ≡ by_profile profile ruling }
{
    if profile == 0 {
        return ruling;
    }
    denied(ruling)
}

// The response to what is no change; a change has none yet.
fn tell(ruling: Ruling, request: &[u8], reply: &mut [u8])
    requires { (32 ≤ length request.now) × (32 ≤ length reply.old) }
    ensures { reply.new ≡ told_of ruling request.now reply.old }
{
    match ruling {
        Ruling::Decline(why) => {
            let (primary, secondary) = why.into();
            sbe::respond(reply, request, primary, secondary);
        }
        Ruling::Grant(_) => {}
        Ruling::Done => sbe::respond(reply, request, 0x00, 0x00),
        Ruling::Read(_, _) => sbe::respond(reply, request, 0x00, 0x00),
    }
}

// By its ruling: carried out if it asks for a change, and responded to.
fn hear(lent: &mut [u8], h: Head, request: &[u8], reply: &mut [u8], ruling: Ruling) -> Told
    requires { HeadStands h lent.old × (well_formed (session_in h lent.old) ≡ true) × (32 ≤ length request.now) × (32 ≤ length reply.old) }
    ensures value { result ≡ (ruled_left (session_in h lent.old) request.now reply.old ruling).told }
    ensures lent_after { lent.new ≡ (ruled_left (session_in h lent.old) request.now reply.old ruling).image }
    ensures reply_after { reply.new ≡ (ruled_left (session_in h lent.old) request.now reply.old ruling).reply }
{
    let bell = sbe::bell(request);
    let Ruling::Grant(change) = ruling else {
        tell(ruling, request, reply);
        return inplace::answer_with(0, bell);
    };
    let tables = change::no_tables();
    if inplace::carry(lent, h, Edit { change, tables }).is_err() {
        return inplace::answer_with(5, 0);
    }
    sbe::respond(reply, request, 0x00, 0x00);
    inplace::answer_with(0, bell)
}

// The public call, on a session that is lent as its image's bytes; the doorbell stands beside the answer. A read of the SEEPROM is served from the lent image
// into the second buffer.
pub fn sbe(
    lent: &mut [u8],
    request: &[u8],
    reply: &mut [u8],
    seeprom: &[u8],
    served: &mut [u8],
) -> Told
    ensures { SbeAllows lent.old request.now reply.old seeprom.now served.old result lent.new reply.new served.new }
{
    let Some(h) = inplace::open(&*lent) else {
        return inplace::answer_with(1, 0);
    };
    if let Some(n) = refusal(request.len(), reply.len()) {
        return inplace::answer_with(n, 0);
    }
    let asked = sbe::judge(request);
    let found = judged(asked, seeprom.len(), served.len());
    let ruling = by_profile(h.profile, found);
    serve(asked, seeprom, served);
    hear(lent, h, request, reply, ruling)
}

// The same with no image and no second buffer: only a read of no bytes from offset 0 succeeds.
pub fn alone(lent: &mut [u8], request: &[u8], reply: &mut [u8]) -> Told
    ensures { AloneAllows lent.old request.now reply.old result lent.new reply.new }
{
    let nothing = [0u8; 0];
    let mut nowhere = [0u8; 0];
    sbe(lent, request, reply, &nothing, &mut nowhere)
}
