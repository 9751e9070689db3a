// Plays a recorded trace of any length from standard input on a fresh session. A line is written for each entry before more input is waited for.
#![tactic(auto)]

ghost use Rattle.std.specs.Prelude.{◌+◌, ◌≤◌, length, IfSome};
ghost use Rattle.io.specs.Counts.{IsPrefixLen};
ghost use Rattle.streams.specs.Reads.{count_of};

use entries::{Broken, Fault};
use std::io::Read;
use streams::Failed;

// ---- lines

// Writes the lines that wait where another may have no room behind them. The bytes that wait then;
// none where lines can't be written any more.
fn make_room(rt: &(impl Print + Eprint), out: &[u8], waiting: usize) -> Option<usize>
    requires { IsPrefixLen waiting out.now }
    ensures { IfSome result (λ n. IsPrefixLen n out.now) }
{
    if playing::LINE <= out.len() - waiting {
        return Some(waiting);
    }
    streams::write(rt, &out[..waiting]).then_some(0)
}

// Plays a whole entry, and puts its line behind those that wait.
fn play(
    rt: &(impl Print + Eprint),
    lent: &mut [u8],
    number: u64,
    entry: &[u8],
    out: &mut [u8],
    before: usize,
) -> Option<usize>
    requires { IsPrefixLen before out.old }
    ensures { IfSome result (λ n. IsPrefixLen n out.new) }
{
    let waiting = make_room(rt, out, before)?;
    Some(waiting + playing::step(lent, number, entry, &mut out[waiting..]))
}

fn tell_stop(rt: &(impl Print + Eprint), out: &mut [u8], place: usize, fault: Fault) {
    let n = playing::stop(out, Err(Broken { place, fault }));
    streams::write(rt, &out[..n]);
}

// ---- the bytes at hand

// The length of the entry at the front, where one stands there whole.
fn front(rest: &[u8]) -> Option<usize>
    ensures { IfSome result (λ n. (1 ≤ n) × (n ≤ length rest.now)) }
{
    trace::next(rest).ok().flatten()
}

// How many entries were played since the start, and how many of the bytes at hand they take.
#[derive(Clone, Copy)]
struct Past {
    entries: u64,
    bytes: usize,
}

// Plays the whole entries at the front. Their numbers go on from those before; no run comes to the
// number at which they would wrap. None where lines can't be written any more.
fn play_front(
    rt: &(impl Print + Eprint),
    lent: &mut [u8],
    before: u64,
    piece: &[u8],
    out: &mut [u8],
) -> Option<Past>
    ensures { IfSome result (λ past. past.bytes ≤ length piece.now) }
{
    let mut entries = before;
    let mut bytes = 0;
    let mut waiting = 0;
    while let Some(n) = front(&piece[bytes..]) {
        let next = bytes + n;
        entries = entries.wrapping_add(1);
        waiting = play(rt, lent, entries, &piece[bytes..next], out, waiting)?;
        bytes = next;
    }
    streams::write(rt, &out[..waiting]).then_some(Past { entries, bytes })
}

// The bytes from `start` to `end` go to the front; how many they are.
fn keep(held: &mut [u8], start: usize, end: usize) -> usize
    requires { (start ≤ end) × (end ≤ length held.old) }
    ensures { result ≤ length held.new }
{
    held.copy_within(start..end, 0);
    end - start
}

// ---- input

// Reads behind the first `have` bytes.
fn fetch<R: Read>(
    rt: &impl Eprint,
    input: &mut R,
    held: &mut [u8],
    have: usize,
) -> Result<usize, Failed>
    requires { have ≤ length held.old }
    ensures { have + count_of result ≤ length held.new }
{
    streams::read_input(rt, input, &mut held[have..])
}

// The input has ended: what is left of it is a cut entry.
fn finish(rt: &(impl Print + Eprint), out: &mut [u8], have: usize, place: usize) {
    if have > 0 {
        tell_stop(rt, out, place, Fault::Cut);
    }
}

// `held` has the bytes from the first entry on that isn't played, whose kind is byte `place` of the trace. A proved loop has to end: it counts
// up to a number that no run comes to.
fn serve<R: Read>(
    rt: &(impl Print + Eprint),
    input: &mut R,
    lent: &mut [u8],
    held: &mut [u8],
    out: &mut [u8],
) {
    let mut number = 0u64;
    let mut place = 0;
    let mut have = 0;
    for _ in 0..u64::MAX {
        let Ok(n) = fetch(rt, input, held, have) else {
            return;
        };
        if n == 0 {
            finish(rt, out, have, place);
            return;
        }
        let end = have + n;
        let Some(past) = play_front(rt, lent, number, &held[..end], out) else {
            return;
        };
        let at = past.bytes;
        number = past.entries;
        place = place.wrapping_add(at);
        if let Err(Fault::UnknownKind) = trace::next(&held[at..end]) {
            tell_stop(rt, out, place, Fault::UnknownKind);
            return;
        }
        have = keep(held, at, end);
    }
}

// A whole entry, of 4,098 bytes at most, has always room among the bytes held.
fn main(rt: HostRuntime) {
    let mut lent = [0u8; layout::IMAGE];
    image::write(session::fresh(), &mut lent);
    let mut held = io::large_buffer();
    let mut out = io::large_buffer();
    serve(&rt, &mut rt.stdin(), &mut lent, &mut held, &mut out);
}
