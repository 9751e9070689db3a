// Answers each line of standard input by calls on one session, as docs/PROTOCOL.md says. A line is answered as soon as it is complete.
#![tactic(auto)]

ghost use Rattle.std.specs.Prelude.{◌≡◌, ◌≤◌, length};
ghost use Rattle.io.specs.Counts.{IsPrefixLen};
ghost use Rattle.layout.specs.Layout.{image_length};
ghost use Rattle.standin.specs.Pages.{StaysOn};

use inplace::Told;
use orders::{Buffer, Call, Order, View, Word, Wrong};
use std::io::Read;
use std::rt::{Env, Files};
use streams::Failed;
use text::Page;

// The bytes of a SEEPROM's image that count.
const MOST_SEEPROM: usize = 65536;

// The slots of six packets, one more than a plan takes.
const SLOTS: usize = 6 * orders::MOST_PACKET;

// Where the last of them begins.
const LAST_SLOT: usize = 5 * orders::MOST_PACKET;

// Where they begin in the buffer below.
const PACKETS: usize = orders::ROOM + MOST_SEEPROM;

// What lines give: a line's bytes, as `orders` puts them, behind them the SEEPROM's image, and behind that the packets' slots. One buffer that is lent costs
// the prover less than three.
const GIVEN: usize = PACKETS + SLOTS;

// The longest answer: a read of a whole image.
const LONGEST: usize = 131186;

// ---- calls, on the session that is lent as its image's bytes

// Makes a packet of bytes whose type and data stand from 3 on: head and sum.
fn frame(p: &mut [u8], sequence: u8)
    requires { 6 ≤ length p.old }
{
    let end = p.len() - 2;
    let head = [sequence, p[3]];
    wire::copy(p, 0, &head);
    wire::put_be(p, 2, 2, (end - 4) as u64);
    let sum = packet_sum::sum(&p[..end]);
    wire::put_be(p, end, 2, sum as u64);
}

// The sender stands where the packet's length will.
fn send(lent: &mut [u8], packet: &mut [u8], sequence: u8, reply: &mut [u8]) -> Told
    requires { 6 ≤ length packet.old }
{
    let sender = packet[2];
    frame(packet, sequence);
    occ_call::occ(lent, sender, packet, reply)
}

// The first `n` bytes. That there are as many isn't known where this is used, so it is tested.
fn front<'a>(bytes: &'a [u8], n: usize) -> &'a [u8] {
    if bytes.len() < n {
        return bytes;
    }
    &bytes[..n]
}

// A function, since the request and the image are two parts of one buffer, which can't be lent twice from a `&mut`.
fn sbe(
    lent: &mut [u8],
    sent: &[u8],
    count: usize,
    seeprom: usize,
    reply: &mut [u8],
    second: &mut [u8],
) -> Told
    requires { (count ≤ 16384) × (106502 ≤ length sent.now) }
{
    sbe_call::sbe(
        lent,
        &sent[..count],
        reply,
        front(&sent[orders::ROOM..PACKETS], seeprom),
        second,
    )
}

// The packets stand in that buffer too.
fn find_plan(lent: &[u8], sent: &[u8], prepared: usize, wanted: u8, order: &mut [u8]) -> Told
    requires { 106502 ≤ length sent.now }
{
    plan::plan(lent, front(&sent[PACKETS..], prepared), wanted, order)
}

fn load(lent: &mut [u8], sent: &[u8]) -> Told
    requires { (length lent.old ≡ image_length) × (106502 ≤ length sent.now) }
{
    wire::copy(lent, 0, &sent[..layout::IMAGE]);
    inplace::answer_with(0, 0)
}

// The form stands in that buffer too.
fn restore(lent: &mut [u8], sent: &[u8], count: usize) -> Told
    requires { (count ≤ 16384) × (106502 ≤ length sent.now) }
{
    saving::restore(lent, &sent[..count])
}

fn fresh(lent: &mut [u8]) -> Told {
    image::write(session::fresh(), lent);
    inplace::answer_with(0, 0)
}

fn carry_out(
    lent: &mut [u8],
    call: Call,
    count: usize,
    b: Bench,
    sent: &mut [u8],
    reply: &mut [u8],
    second: &mut [u8],
) -> Told
    requires { (length lent.old ≡ image_length) × (count ≤ 16384) × (106502 ≤ length sent.old) }
{
    match call {
        Call::Occ => occ_call::occ(lent, sent[0], &sent[1..count + 1], reply),
        Call::Send => send(lent, &mut sent[..count + 6], b.sequence, reply),
        Call::Sbe => sbe(lent, sent, count, b.seeprom, reply, second),
        Call::Load => load(lent, sent),
        Call::Undo => undo_call::undo(lent),
        Call::Redo => undo_call::redo(lent),
        Call::Forget(n) => forget_call::forget(lent, n),
        Call::Time(n) => time_call::time(lent, n),
        Call::Watch => watch_call::watch(lent),
        Call::Plan(n) => find_plan(lent, sent, b.prepared, n, reply),
        Call::Save => saving::save(lent, reply),
        Call::Restore => restore(lent, sent, count),
        Call::Fresh => fresh(lent),
    }
}

// ---- their answers

// How a call is answered.
#[derive(Clone, Copy)]
enum Form {
    Reply,
    Response,
    Kind,
    Answer,
    Bell,
    Passed,
    Plan,
    Save,
    Ok,
}

fn form_of(call: Call) -> Form {
    match call {
        Call::Occ => Form::Reply,
        Call::Send => Form::Reply,
        Call::Sbe => Form::Response,
        Call::Load => Form::Ok,
        Call::Undo => Form::Passed,
        Call::Redo => Form::Kind,
        Call::Forget(_) => Form::Answer,
        Call::Time(_) => Form::Bell,
        Call::Watch => Form::Answer,
        Call::Plan(_) => Form::Plan,
        Call::Save => Form::Save,
        Call::Restore => Form::Answer,
        Call::Fresh => Form::Ok,
    }
}

// A kind is a byte.
fn kind_of(beside: u16) -> u8 {
    (beside % 256) as u8
}

// A response has 32 bytes, and a longer buffer is kept past them; so is the buffer of a plan's order
// past those that it has.
#[tactic(auto, using(crate::proofs::Pages::stays_on))]
fn put_told(page: &mut Page, call: Call, told: Told, request: &[u8], reply: &[u8], second: &[u8])
    ensures { StaysOn page.old page.new }
{
    let answer = told.answer;
    match form_of(call) {
        Form::Reply => answers::reply(page, answer, reply),
        Form::Response => {
            answers::rung(page, answer, request, front(reply, 32), told.beside, second)
        }
        Form::Kind => answers::with_kind(page, answer, kind_of(told.beside)),
        Form::Answer => answers::reply(page, answer, &[]),
        Form::Bell => answers::timed(page, answer, told.beside),
        Form::Passed => answers::with_passed(page, answer, kind_of(told.beside), told.small),
        Form::Plan => {
            answers::planned(page, answer, told.small, front(reply, told.beside as usize))
        }
        Form::Save => answers::saved(page, answer, reply),
        Form::Ok => answers::line(page, b"ok"),
    }
}

// ---- reply buffers

// On its own, since the prover writes an array out where it is made.
fn reply_buffer() -> [u8; orders::MOST_BUFFER] {
    [0u8; orders::MOST_BUFFER]
}

// The bytes that a call's reply can take.
fn whole(call: Call) -> usize
    ensures { result ≤ 8192 }
{
    if let Call::Sbe = call { 32 } else { 4096 }
}

// The bytes of reply buffer that a call gets. A plan's order and a save's form go there, and are no replies.
fn reply_len(buffer: Buffer, call: Call) -> usize
    ensures { result ≤ 8192 }
{
    if let Call::Plan(_) = call {
        return 5;
    }
    if let Call::Save = call {
        return saving::SAVED;
    }
    let Buffer::Bytes(n) = buffer else {
        return whole(call);
    };
    if n < orders::MOST_BUFFER {
        return n;
    }
    orders::MOST_BUFFER
}

// What is kept beside the session: the sequence of the last packet sent, the reply buffers that are
// lent, the bytes that the SEEPROM's image has and those of the prepared packets in their slots, and
// what the last OCC call told.
#[derive(Clone, Copy)]
struct Bench {
    sequence: u8,
    buffer: Buffer,
    seeprom: usize,
    prepared: usize,
    last: Told,
}

// What the last OCC call told, after this one.
fn next_last(call: Call, told: Told, last: Told) -> Told {
    let Form::Reply = form_of(call) else {
        return last;
    };
    told
}

// Lends the call its part of a reply buffer, and a second buffer that takes a whole image. What the
// last OCC call told comes back.
fn call_with(
    lent: &mut [u8],
    call: Call,
    count: usize,
    b: Bench,
    sent: &mut [u8],
    page: &mut Page,
) -> Told
    requires { (length lent.old ≡ image_length) × (count ≤ 16384) × (106502 ≤ length sent.old) }
    ensures { StaysOn page.old page.new }
{
    let mut reply = reply_buffer();
    let part = &mut reply[..reply_len(b.buffer, call)];
    let mut second = io::large_buffer();
    let told = carry_out(lent, call, count, b, sent, part, &mut second);
    put_told(page, call, told, &sent[..count], part, &second);
    next_last(call, told, b.last)
}

// ---- views

#[tactic(auto, using(crate::proofs::Pages::stays_on))]
fn put_show(page: &mut Page, lent: &[u8])
    requires { length lent.now ≡ image_length }
    ensures { StaysOn page.old page.new }
{
    let h = image::read_head(lent);
    show::put_session(
        page,
        h.held,
        h.worked,
        h.next,
        &lent[layout::JOURNAL..layout::AHEAD],
        h.used as usize,
        &lent[layout::REDO..layout::REDO_END],
        h.ahead as usize,
        h.timer,
        h.profile,
    );
}

#[tactic(auto, using(crate::proofs::Pages::stays_on))]
fn put_journal(page: &mut Page, lent: &[u8])
    requires { length lent.now ≡ image_length }
    ensures { StaysOn page.old page.new }
{
    let used = wire::be16(lent, 237) as usize;
    answers::journal(page, &lent[layout::JOURNAL..layout::AHEAD], used);
}

#[tactic(auto, using(crate::proofs::Pages::stays_on))]
fn look(page: &mut Page, lent: &[u8], view: View, last: Told)
    requires { length lent.now ≡ image_length }
    ensures { StaysOn page.old page.new }
{
    match view {
        View::Image => answers::image(page, lent),
        View::Why => answers::why(page, last.small, last.beside),
        View::Show => put_show(page, lent),
        View::Journal => put_journal(page, lent),
        View::Help => answers::help(page),
    }
}

// ---- lines

// The answer to a line that makes no call; a line that is skipped has none.
#[tactic(auto, using(crate::proofs::Pages::stays_on))]
fn put_other(page: &mut Page, lent: &[u8], order: Order, last: Told)
    requires { length lent.now ≡ image_length }
    ensures { StaysOn page.old page.new }
{
    match order.word {
        Word::Look(view) => look(page, lent, view, last),
        Word::Lend(_) | Word::Seeprom | Word::Packet => answers::line(page, b"ok"),
        Word::Fail(what) => answers::complaint(page, what, order.column),
        Word::Make(_) | Word::Skip => {}
    }
}

fn obey(lent: &mut [u8], order: Order, b: Bench, sent: &mut [u8], page: &mut Page) -> Told
    requires { (length lent.old ≡ image_length) × (order.count ≤ 16384) × (106502 ≤ length sent.old) }
    ensures { StaysOn page.old page.new }
{
    if let Word::Make(call) = order.word {
        return call_with(lent, call, order.count, b, sent, page);
    }
    put_other(page, lent, order, b.last);
    b.last
}

// The sequence of the last packet that `send` made goes up by one with each, and wraps.
fn next_sequence(word: Word, sequence: u8) -> u8 {
    if let Word::Make(call) = word {
        if let Call::Send = call {
            return sequence.wrapping_add(1);
        }
    }
    sequence
}

// The reply buffers that calls get from now on.
fn next_buffer(word: Word, buffer: Buffer) -> Buffer {
    if let Word::Lend(asked) = word {
        return asked;
    }
    buffer
}

// The bytes that the SEEPROM's image has from now on. Those of a line that gives it are put in their place.
fn next_seeprom(word: Word, count: usize, sent: &mut [u8], seeprom: usize) -> usize
    requires { (count ≤ 16384) × (106502 ≤ length sent.old) }
{
    let Word::Seeprom = word else {
        return seeprom;
    };
    sent.copy_within(..count, orders::ROOM);
    count
}

// A line's bytes become the slot that begins at `at`, zeros behind them.
fn fill_slot(sent: &mut [u8], count: usize, at: usize)
    requires { (count ≤ 16384) × (106502 ≤ length sent.old) × (at ≤ 102406) }
{
    let n = count.min(orders::MOST_PACKET);
    sent.copy_within(..n, at);
    sent[at + n..at + orders::MOST_PACKET].fill(0);
}

// The bytes that the prepared packets have from now on: the last slot ends with its packet. Without bytes all are dropped. That a slot is left isn't known
// here, so it is tested.
fn next_prepared(word: Word, count: usize, sent: &mut [u8], prepared: usize) -> usize
    requires { (count ≤ 16384) × (106502 ≤ length sent.old) }
{
    let Word::Packet = word else {
        return prepared;
    };
    if count == 0 {
        return 0;
    }
    if LAST_SLOT < prepared {
        return prepared;
    }
    let at = (prepared + 4095) / 4096 * 4096;
    fill_slot(sent, count, PACKETS + at);
    at + count
}

// A packet after the sixth isn't taken.
fn admitted(order: Order, prepared: usize) -> Order
    requires { order.count ≤ 16384 }
    ensures { result.count ≤ 16384 }
{
    let Word::Packet = order.word else {
        return order;
    };
    if order.count == 0 || prepared <= LAST_SLOT {
        return order;
    }
    Order {
        word: Word::Fail(Wrong::ManyPackets),
        count: 0,
        column: 0,
    }
}

// The bench that a line is obeyed on.
fn ready(b: Bench, order: Order, sent: &mut [u8]) -> Bench
    requires { (order.count ≤ 16384) × (106502 ≤ length sent.old) }
{
    Bench {
        sequence: next_sequence(order.word, b.sequence),
        buffer: next_buffer(order.word, b.buffer),
        seeprom: next_seeprom(order.word, order.count, sent, b.seeprom),
        prepared: next_prepared(order.word, order.count, sent, b.prepared),
        ..b
    }
}

// An answer is written as soon as it is there; none comes back where it can't be.
fn answer(
    rt: &(impl Print + Eprint),
    lent: &mut [u8],
    b: Bench,
    line: &[u8],
    sent: &mut [u8],
    out: &mut [u8],
) -> Option<Bench>
    requires { (length lent.old ≡ image_length) × (106502 ≤ length sent.old) }
{
    let order = admitted(orders::read(line, sent), b.prepared);
    let now = ready(b, order, sent);
    let mut page = Page::new(out);
    let last = obey(lent, order, now, sent, &mut page);
    streams::write(rt, page.text()).then_some(Bench { last, ..now })
}

// ---- input

// Adds a part of a line to the first `held` bytes; what has no room is left out, and the line is too long already.
fn gather(line: &mut [u8], held: usize, part: &[u8]) -> usize
    ensures { IsPrefixLen result line.new }
{
    if line.len() < held {
        return line.len();
    }
    let room = line.len() - held;
    if part.len() <= room {
        wire::copy(line, held, part);
        return held + part.len();
    }
    wire::copy(line, held, &part[..room]);
    line.len()
}

// The bench after the lines that were complete, and how many bytes of the next line are held.
#[derive(Clone, Copy)]
struct Served {
    bench: Bench,
    held: usize,
}

// Answers each line that the piece ends; none comes back where an answer can't be written.
fn serve_piece(
    rt: &(impl Print + Eprint),
    lent: &mut [u8],
    b: Bench,
    before: usize,
    piece: &[u8],
    line: &mut [u8],
    sent: &mut [u8],
    out: &mut [u8],
) -> Option<Served>
    requires { (length lent.old ≡ image_length) × (106502 ≤ length sent.old) }
{
    let mut bench = b;
    let mut held = before;
    let mut rest = piece;
    while !rest.is_empty() {
        let (part, end) = rest.split_at(text::find(rest, b'\n'));
        held = gather(line, held, part);
        let Some((_, after)) = end.split_first() else {
            break;
        };
        rest = after;
        bench = answer(rt, lent, bench, &line[..held], sent, out)?;
        held = 0;
    }
    Some(Served { bench, held })
}

// A piece of the input, and whether nothing comes after it.
#[derive(Clone, Copy)]
struct Piece {
    count: usize,
    last: bool,
}

// Where the input ends a line's end is put, so that a last line without one is answered too.
fn fetch<R: Read>(rt: &impl Eprint, input: &mut R, piece: &mut [u8]) -> Piece
    requires { 1 ≤ length piece.old }
    ensures { IsPrefixLen result.count piece.new }
{
    match streams::read_input(rt, input, piece) {
        Ok(0) => {
            piece[0] = b'\n';
            Piece {
                count: io::count(1, piece),
                last: true,
            }
        }
        Ok(count) => Piece { count, last: false },
        Err(failed) => {
            Piece {
                count: failed.count,
                last: true,
            }
        }
    }
}

// A proved loop has to end: it counts up to a number that no run reaches.
fn serve<R: Read>(
    rt: &(impl Print + Eprint),
    input: &mut R,
    lent: &mut [u8],
    seeprom: usize,
    piece: &mut [u8],
    line: &mut [u8],
    sent: &mut [u8],
    out: &mut [u8],
)
    requires { (length lent.old ≡ image_length) × (1 ≤ length piece.old) × (106502 ≤ length sent.old) }
{
    let mut bench = Bench {
        sequence: 0,
        buffer: Buffer::Whole,
        seeprom,
        prepared: 0,
        last: inplace::answer_with(0, 0),
    };
    let mut held = 0;
    for _ in 0..u64::MAX {
        let got = fetch(rt, input, piece);
        let n = got.count;
        let served = serve_piece(rt, lent, bench, held, &piece[..n], line, sent, out);
        let Some(next) = served else {
            return;
        };
        if got.last {
            return;
        }
        bench = next.bench;
        held = next.held;
    }
}

// The file that the argument names, as the SEEPROM's image at the start; an empty one where none is named.
fn first_seeprom(rt: &(impl Env + Files + Eprint), sent: &mut [u8]) -> Result<usize, Failed>
    requires { 106502 ≤ length sent.old }
{
    if !streams::is_given(rt, 1) {
        return Ok(0);
    }
    let mut name = io::large_buffer();
    let n = streams::argument(rt, 1, &mut name);
    streams::read_named(rt, &name[..n], &mut sent[orders::ROOM..PACKETS])
}

// A line is held with a byte more than the longest and its carriage return, so that a longer one is seen.
fn serve_fresh<R: Read>(rt: &(impl Print + Eprint), input: &mut R, sent: &mut [u8], seeprom: usize)
    requires { 106502 ≤ length sent.old }
{
    let mut lent = [0u8; layout::IMAGE];
    image::write(session::fresh(), &mut lent);
    let mut piece = io::large_buffer();
    let mut line = [0u8; 32770];
    let mut out = [0u8; LONGEST];
    serve(
        rt, input, &mut lent, seeprom, &mut piece, &mut line, sent, &mut out,
    );
}

// A file that can't be read has been told of, and no line is answered.
fn main(rt: HostRuntime) {
    let mut sent = [0u8; GIVEN];
    let Ok(seeprom) = first_seeprom(&rt, &mut sent) else {
        return;
    };
    serve_fresh(&rt, &mut rt.stdin(), &mut sent, seeprom);
}
