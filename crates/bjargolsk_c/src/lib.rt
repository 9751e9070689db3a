// The C library: the calls of `bjargolsk`, exported under their names and with their clauses.
// `include/bjargolsk.h` declares them for C.
#![tactic(auto)]

ghost use Rattle.bjargolsk.specs.Calls.{FreshReturns, OccReturns, SbeReturns, SeepromReturns, UndoReturns, RedoReturns, ForgetReturns, TimeReturns, WatchReturns, PlanReturns, PlanOkReturns, SaveReturns, RestoreReturns, MoveUpReturns, MoveDownReturns, PartReturns};

// The fresh session.
#[unsafe(no_mangle)]
pub extern "C" fn bjargolsk_fresh(lent: &mut [u8]) -> u32
    ensures { FreshReturns lent.old result lent.new }
{
    bjargolsk::bjargolsk_fresh(lent)
}

// A command buffer from a sender, answered.
#[unsafe(no_mangle)]
pub extern "C" fn bjargolsk_occ(
    lent: &mut [u8],
    sender: u8,
    command: &[u8],
    reply: &mut [u8],
) -> u32
    ensures { OccReturns lent.old sender command.now reply.old result lent.new reply.new }
{
    bjargolsk::bjargolsk_occ(lent, sender, command, reply)
}

// A mailbox request, answered.
#[unsafe(no_mangle)]
pub extern "C" fn bjargolsk_sbe(lent: &mut [u8], request: &[u8], reply: &mut [u8]) -> u32
    ensures { SbeReturns lent.old request.now reply.old result lent.new reply.new }
{
    bjargolsk::bjargolsk_sbe(lent, request, reply)
}

// The same with the SEEPROM's image lent, and a second buffer for what is read from it.
#[unsafe(no_mangle)]
pub extern "C" fn bjargolsk_sbe_seeprom(
    lent: &mut [u8],
    request: &[u8],
    reply: &mut [u8],
    seeprom: &[u8],
    served: &mut [u8],
) -> u32
    ensures { SeepromReturns lent.old request.now reply.old seeprom.now served.old result lent.new reply.new served.new }
{
    bjargolsk::bjargolsk_sbe_seeprom(lent, request, reply, seeprom, served)
}

// The newest change taken back.
#[unsafe(no_mangle)]
pub extern "C" fn bjargolsk_undo(lent: &mut [u8]) -> u32
    ensures { UndoReturns lent.old result lent.new }
{
    bjargolsk::bjargolsk_undo(lent)
}

// The change last taken back put in again.
#[unsafe(no_mangle)]
pub extern "C" fn bjargolsk_redo(lent: &mut [u8]) -> u32
    ensures { RedoReturns lent.old result lent.new }
{
    bjargolsk::bjargolsk_redo(lent)
}

// The oldest `n` changes forgotten.
#[unsafe(no_mangle)]
pub extern "C" fn bjargolsk_forget(lent: &mut [u8], n: u32) -> u32
    ensures { ForgetReturns lent.old n result lent.new }
{
    bjargolsk::bjargolsk_forget(lent, n)
}

// So many microseconds have passed.
#[unsafe(no_mangle)]
pub extern "C" fn bjargolsk_time(lent: &mut [u8], n: u64) -> u32
    ensures { TimeReturns lent.old n result lent.new }
{
    bjargolsk::bjargolsk_time(lent, n)
}

// A watch-only session opened over this one.
#[unsafe(no_mangle)]
pub extern "C" fn bjargolsk_watch(lent: &mut [u8]) -> u32
    ensures { WatchReturns lent.old result lent.new }
{
    bjargolsk::bjargolsk_watch(lent)
}

// The least order of prepared packets that leads to the wanted state.
#[unsafe(no_mangle)]
pub extern "C" fn bjargolsk_plan(lent: &[u8], packets: &[u8], wanted: u8, order: &mut [u8]) -> u32
    ensures { PlanReturns lent.now packets.now wanted order.old result order.new }
{
    bjargolsk::bjargolsk_plan(lent, packets, wanted, order)
}

// Whether a proposed order is a plan.
#[unsafe(no_mangle)]
pub extern "C" fn bjargolsk_plan_ok(lent: &[u8], packets: &[u8], wanted: u8, order: &[u8]) -> u32
    ensures { PlanOkReturns lent.now packets.now wanted order.now result }
{
    bjargolsk::bjargolsk_plan_ok(lent, packets, wanted, order)
}

// Where two traces part, in one or two lines at the front of the buffer.
#[unsafe(no_mangle)]
pub extern "C" fn bjargolsk_part(first: &[u8], second: &[u8], text: &mut [u8]) -> u32
    ensures { PartReturns first.now second.now text.old result text.new }
{
    bjargolsk::bjargolsk_part(first, second, text)
}

// A session in the form for keeping.
#[unsafe(no_mangle)]
pub extern "C" fn bjargolsk_save(lent: &[u8], out: &mut [u8]) -> u32
    ensures { SaveReturns lent.now out.old result out.new }
{
    bjargolsk::bjargolsk_save(lent, out)
}

// The session of such a form, over whatever session was there.
#[unsafe(no_mangle)]
pub extern "C" fn bjargolsk_restore(lent: &mut [u8], saved: &[u8]) -> u32
    ensures { RestoreReturns lent.old saved.now result lent.new }
{
    bjargolsk::bjargolsk_restore(lent, saved)
}

// A session saved by the base version moved up to that form.
#[unsafe(no_mangle)]
pub extern "C" fn bjargolsk_move_up(saved: &[u8], out: &mut [u8]) -> u32
    ensures { MoveUpReturns saved.now out.old result out.new }
{
    bjargolsk::bjargolsk_move_up(saved, out)
}

// One in that form moved down to the base version's.
#[unsafe(no_mangle)]
pub extern "C" fn bjargolsk_move_down(saved: &[u8], out: &mut [u8]) -> u32
    ensures { MoveDownReturns saved.now out.old result out.new }
{
    bjargolsk::bjargolsk_move_down(saved, out)
}
