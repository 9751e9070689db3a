// A recorded trace played: each entry is a call on a lent session, and gives a line.
#![tactic(auto, unfolding(text::specs::Text::put_all, crate::specs::Playing::status_text, crate::specs::Playing::if_written, crate::specs::Playing::line_with, crate::specs::Playing::place_text, crate::specs::Playing::stop_line, crate::specs::Playing::fault_text, crate::specs::Playing::whole_entry, wire::specs::Wire::joined), using(text::proofs::laws::Pieces::put_all_append))]

ghost use Rattle.std.specs.Prelude.{true, ◌≡◌, ◌≤◌, ◌+◌, ◌*◌, leb, [], length, replicate};
ghost use Rattle.wire.specs.Wire.{joined};
ghost use Rattle.io.specs.Counts.{IsPrefixLen};
ghost use Rattle.text.specs.Text.{sheet, put_all};
ghost use Rattle.text.specs.Pages.{Puts};
ghost use Rattle.entries.specs.Entries.{entry_of, entries_of};
ghost use Rattle.trace.specs.Trace.{trace_scan};
ghost use Rattle.session.specs.Session.{fresh_session};
ghost use Rattle.image.specs.Image.{image_of};
ghost use Rattle.occ_call.specs.Occ.{occ_on};
ghost use Rattle.sbe_call.specs.Sbe.{sbe_on};
ghost use Rattle.undo_call.specs.Undo.{undo_on};
ghost use Rattle.playing.specs.Playing.{if_written, occ_heard, sbe_heard, undo_heard, heard, status_text, line_with, line_room, Plays, image_after, lines_of, place_text, fault_text, stop_line, whole_entry, StepAllows, room_for, PlayAllows};

use entries::{Broken, Fault, Whole};
use text::Page;

// ---- the line of a call

// A blank and the status bytes, if a reply was written.
fn put_status(page: &mut Page, answer: u8, status: &[u8])
    ensures { Puts page.old page.new (status_text (if_written answer status.now)) }
{
    if answer != 0 {
        return;
    }
    if status.len() == 0 {
        return;
    }
    page.put(b" ");
    page.put_hexes(status);
}

fn put_line(page: &mut Page, number: u64, answer: u8, status: &[u8])
    requires { length status.now ≤ 4 }
    ensures puts { Puts page.old page.new (line_with number answer (if_written answer status.now)) }
    ensures fits { length (joined (line_with number answer (if_written answer status.now))) ≤ line_room }
{
    page.put_decimal(number);
    page.put(b" ");
    page.put_decimal(u64::from(answer));
    put_status(page, answer, status);
    page.put(b"\n");
}

// ---- each kind of entry: its call, and its line

fn occ_reply() -> [u8; 4096]
    ensures { result ≡ replicate 4096 0 }
{
    [0; 4096]
}

fn play_occ(lent: &mut [u8], number: u64, sender: u8, command: &[u8], page: &mut Page)
    ensures { Plays number (occ_heard (occ_on lent.old sender command.now (replicate 4096 0))) page.old page.new lent.new }
{
    let mut reply = occ_reply();
    let told = occ_call::occ(lent, sender, command, &mut reply);
    put_line(page, number, told.answer, &reply[2..3]);
}

fn play_sbe(lent: &mut [u8], number: u64, request: &[u8], page: &mut Page)
    ensures { Plays number (sbe_heard (sbe_on lent.old request.now (replicate 32 0) [] [])) page.old page.new lent.new }
{
    let mut reply = [0u8; 32];
    let told = sbe_call::alone(lent, request, &mut reply);
    put_line(page, number, told.answer, &reply[..4]);
}

fn play_undo(lent: &mut [u8], number: u64, page: &mut Page)
    ensures { Plays number (undo_heard (undo_on lent.old)) page.old page.new lent.new }
{
    let told = undo_call::undo(lent);
    put_line(page, number, told.answer, &[]);
}

fn play_entry(lent: &mut [u8], number: u64, entry: &[u8], page: &mut Page)
    requires { whole_entry entry.now ≡ true }
    ensures { Plays number (heard lent.old (entry_of entry.now)) page.old page.new lent.new }
{
    let kind = entry[0];
    if kind == 0x03 {
        play_sbe(lent, number, &entry[1..], page);
    } else if kind == 0x04 {
        play_undo(lent, number, page);
    } else {
        play_occ(lent, number, entry[1], &entry[2..], page);
    }
}

// ---- one entry

fn is_whole(entry: &[u8]) -> bool
    ensures { result ≡ whole_entry entry.now }
{
    if entry.len() == 0 {
        return false;
    }
    trace::entry_len(entry[0]) == entry.len()
}

// The longest line.
pub const LINE: usize = 34;

// Plays one whole entry of a trace, the `number`th, on a lent session: its line at the front of `out`, and the line's length. 0, and all is kept,
// where the bytes aren't one whole entry or `out` is shorter than the longest line.
pub fn step(lent: &mut [u8], number: u64, entry: &[u8], out: &mut [u8]) -> usize
    ensures step_allows { StepAllows lent.old number entry.now out.old result lent.new out.new }
    ensures prefix_len { IsPrefixLen result out.new }
{
    if !is_whole(entry) {
        return 0;
    }
    if out.len() < LINE {
        return 0;
    }
    let mut page = Page::new(out);
    play_entry(lent, number, entry, &mut page);
    page.past
}

// ---- a whole trace

// Why a trace isn't played: the lent session is no image, or the lines may have no room.
#[derive(Clone, Copy, PartialEq, Eq)]
pub enum NotPlayed {
    NoImage,
    NoRoom,
}

// A trace that was played: so many bytes of lines, and how it reads.
#[derive(Clone, Copy)]
pub struct Played {
    pub length: usize,
    pub reading: Result<Whole, Broken>,
}

// Whether `len` bytes take the lines of `count` entries and a stop line.
fn has_room(len: usize, count: usize) -> bool
    ensures { result ≡ leb (room_for count) len }
{
    if len < 37 {
        return false;
    }
    count <= (len - 37) / LINE
}

// The entries of a trace, up to its end or to where it breaks, on a fresh session.
fn play_entries(lent: &mut [u8], t: &[u8], page: &mut Page)
    requires { lent.old ≡ image_of fresh_session }
    ensures lent_after { lent.new ≡ image_after (entries_of (trace_scan t.now)) }
    ensures puts { Puts page.old page.new (lines_of (entries_of (trace_scan t.now))) }
    ensures fits { length (joined (lines_of (entries_of (trace_scan t.now)))) ≤ line_room * length (entries_of (trace_scan t.now)) }
{
    let mut at = 0;
    let mut number: u64 = 0;
    while let Ok(Some(n)) = trace::next(&t[at..]) {
        let past = at + n;
        number += 1;
        play_entry(lent, number, &t[at..past], page);
        at = past;
    }
}

fn put_place(page: &mut Page, words: &[u8], place: usize)
    ensures puts { Puts page.old page.new (place_text words.now place) }
    ensures fits { length (joined (place_text words.now place)) ≤ length words.now + 21 }
{
    page.put(words);
    page.put_decimal(place as u64);
    page.put(b"\n");
}

fn fault_text(fault: Fault) -> &'static [u8]
    ensures { result.now ≡ fault_text fault }
{
    match fault {
        Fault::UnknownKind => b"unknown kind at ",
        Fault::Cut => b"cut entry at ",
    }
}

// Where the trace breaks, and why.
fn put_stop(page: &mut Page, reading: Result<Whole, Broken>)
    ensures puts { Puts page.old page.new (stop_line reading) }
    ensures fits { length (joined (stop_line reading)) ≤ 37 }
{
    let Err(broken) = reading else {
        return;
    };
    put_place(page, fault_text(broken.fault), broken.place);
}

// The stop line alone, at the front of `out`, and its length: for a trace that is played step by
// step. 37 bytes always take it.
pub fn stop(out: &mut [u8], reading: Result<Whole, Broken>) -> usize
    ensures prefix_len { IsPrefixLen result out.new }
    ensures result_after { sheet out.new result ≡ put_all (sheet out.old 0) (stop_line reading) }
{
    let mut page = Page::new(out);
    put_stop(&mut page, reading);
    page.past
}

// Plays a lent trace from a fresh session, which the lent bytes become: a line for each whole entry at the front of `out`, and the stop line where it breaks.
// A buffer of 34 bytes for each entry and 37 more has always room.
pub fn play(lent: &mut [u8], t: &[u8], out: &mut [u8]) -> Result<Played, NotPlayed>
    ensures { PlayAllows lent.old t.now out.old result lent.new out.new }
{
    if lent.len() != layout::IMAGE {
        return Err(NotPlayed::NoImage);
    }
    let count = trace::count(t);
    if !has_room(out.len(), count) {
        return Err(NotPlayed::NoRoom);
    }
    image::write(session::fresh(), &mut *lent);
    let mut page = Page::new(out);
    play_entries(lent, t, &mut page);
    let reading = trace::read(t);
    put_stop(&mut page, reading);
    Ok(Played {
        length: page.past,
        reading,
    })
}
