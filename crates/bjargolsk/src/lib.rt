// The calls for C: those of `occ_call`, `sbe_call`, `undo_call`, `forget_call`, `time_call`, `watch_call`, `plan`, `parting` and `saving` under C names, which `bjargolsk_c` exports. A result has the answer in bits 0 to 7,
// a small number beside it in bits 8 to 15, and one of 16 bits above.
#![tactic(auto)]

ghost use Rattle.std.specs.Prelude.{◌≡◌};
ghost use Rattle.bjargolsk.specs.Calls.{packed, FreshReturns, OccReturns, SbeReturns, SeepromReturns, UndoReturns, RedoReturns, ForgetReturns, TimeReturns, WatchReturns, PlanReturns, PlanOkReturns, SaveReturns, RestoreReturns, MoveUpReturns, MoveDownReturns, PartReturns};

use inplace::Told;

fn pack(t: Told) -> u32
    ensures { result ≡ packed t }
{
    (t.beside as u32) * 65536 + (t.small as u32) * 256 + (t.answer as u32)
}

// The fresh session; bytes of another length than an image's are answered by 1 and kept.
pub fn bjargolsk_fresh(lent: &mut [u8]) -> u32
    ensures { FreshReturns lent.old result lent.new }
{
    if lent.len() != layout::IMAGE {
        return pack(inplace::answer_with(1, 0));
    }
    image::write(session::fresh(), lent);
    pack(inplace::answer_with(0, 0))
}

// A command buffer from a sender, answered; bits 8 to 15 are the reason of a status 0x13, the high 16 the data byte that it is for.
pub fn bjargolsk_occ(lent: &mut [u8], sender: u8, command: &[u8], reply: &mut [u8]) -> u32
    ensures { OccReturns lent.old sender command.now reply.old result lent.new reply.new }
{
    pack(occ_call::occ(lent, sender, command, reply))
}

// A mailbox request, answered; the high 16 bits are the doorbell.
pub fn bjargolsk_sbe(lent: &mut [u8], request: &[u8], reply: &mut [u8]) -> u32
    ensures { SbeReturns lent.old request.now reply.old result lent.new reply.new }
{
    pack(sbe_call::alone(lent, request, reply))
}

// The same with the SEEPROM's image lent, and a second buffer for what is read from it.
pub fn bjargolsk_sbe_seeprom(
    lent: &mut [u8],
    request: &[u8],
    reply: &mut [u8],
    seeprom: &[u8],
    served: &mut [u8],
) -> u32
    ensures { SeepromReturns lent.old request.now reply.old seeprom.now served.old result lent.new reply.new served.new }
{
    pack(sbe_call::sbe(lent, request, reply, seeprom, served))
}

// The newest change taken back; the high 16 bits are its kind.
pub fn bjargolsk_undo(lent: &mut [u8]) -> u32
    ensures { UndoReturns lent.old result lent.new }
{
    pack(undo_call::undo(lent))
}

// The change last taken back put in again; the high 16 bits are its kind.
pub fn bjargolsk_redo(lent: &mut [u8]) -> u32
    ensures { RedoReturns lent.old result lent.new }
{
    pack(undo_call::redo(lent))
}

// The oldest `n` changes forgotten.
pub fn bjargolsk_forget(lent: &mut [u8], n: u32) -> u32
    ensures { ForgetReturns lent.old n result lent.new }
{
    pack(forget_call::forget(lent, n))
}

// So many microseconds have passed; the high 16 bits are the doorbell.
pub fn bjargolsk_time(lent: &mut [u8], n: u64) -> u32
    ensures { TimeReturns lent.old n result lent.new }
{
    pack(time_call::time(lent, n))
}

// A watch-only session opened over this one.
pub fn bjargolsk_watch(lent: &mut [u8]) -> u32
    ensures { WatchReturns lent.old result lent.new }
{
    pack(watch_call::watch(lent))
}

// The least order of prepared packets that leads to the wanted state, written to the front of the buffer; bits 8 to 15 are 1 where there is one, the high 16 bits its length.
pub fn bjargolsk_plan(lent: &[u8], packets: &[u8], wanted: u8, order: &mut [u8]) -> u32
    ensures { PlanReturns lent.now packets.now wanted order.old result order.new }
{
    pack(plan::plan(lent, packets, wanted, order))
}

// Whether a proposed order is a plan: bits 8 to 15 are 1 where it is.
pub fn bjargolsk_plan_ok(lent: &[u8], packets: &[u8], wanted: u8, order: &[u8]) -> u32
    ensures { PlanOkReturns lent.now packets.now wanted order.now result }
{
    pack(plan::plan_ok(lent, packets, wanted, order))
}

// Where two traces part, in one or two lines at the front of the buffer; the high 16 bits are their length. A buffer too short for the longest is answered by 3 and kept.
pub fn bjargolsk_part(first: &[u8], second: &[u8], text: &mut [u8]) -> u32
    ensures { PartReturns first.now second.now text.old result text.new }
{
    if text.len() < parting::LONGEST {
        return pack(inplace::answer_with(3, 0));
    }
    let length = parting::tell(first, second, text);
    pack(inplace::answer_with(0, length as u16))
}

// A session in the form for keeping; the high 16 bits are how many bytes were written.
pub fn bjargolsk_save(lent: &[u8], out: &mut [u8]) -> u32
    ensures { SaveReturns lent.now out.old result out.new }
{
    pack(saving::save(lent, out))
}

// The session of such a form, over whatever session was there.
pub fn bjargolsk_restore(lent: &mut [u8], saved: &[u8]) -> u32
    ensures { RestoreReturns lent.old saved.now result lent.new }
{
    pack(saving::restore(lent, saved))
}

// A session saved by the base version moved up to that form; the high 16 bits are how many bytes were written.
pub fn bjargolsk_move_up(saved: &[u8], out: &mut [u8]) -> u32
    ensures { MoveUpReturns saved.now out.old result out.new }
{
    pack(saving::move_up(saved, out))
}

// One in that form moved down to the base version's; the same in the high 16 bits.
pub fn bjargolsk_move_down(saved: &[u8], out: &mut [u8]) -> u32
    ensures { MoveDownReturns saved.now out.old result out.new }
{
    pack(saving::move_down(saved, out))
}
