// The text of each answer, put on a page with its line feed. Nothing is written here.
#![tactic(auto, unfolding(text::specs::Text::put_all, crate::specs::Answers::line_text, crate::specs::Answers::column_text, crate::specs::Answers::image_complaint, crate::specs::Answers::packets_complaint, crate::specs::Answers::complaint_text, crate::specs::Answers::call_text, crate::specs::Answers::reply_text, crate::specs::Answers::bell_text, crate::specs::Answers::data_text, crate::specs::Answers::rung_text, crate::specs::Answers::timed_text, crate::specs::Answers::kind_text, crate::specs::Answers::passed_text, crate::specs::Answers::plan_text, crate::specs::Answers::planned_text, crate::specs::Answers::saved_text, crate::specs::Answers::why_text, crate::specs::Answers::image_text, crate::specs::Answers::journal_text), using(text::proofs::laws::Pieces::put_all_append))]

ghost use Rattle.std.specs.Prelude.{◌≡◌, ◌∷◌, [], ◌≤◌, length};
ghost use Rattle.io.specs.Counts.{IsPrefixLen};
ghost use Rattle.text.specs.Text.{ascii};
ghost use Rattle.text.specs.Pages.{Puts};
ghost use Rattle.places.specs.Reasons.{words_for};
ghost use Rattle.listing.specs.Listing.{listing};
ghost use Rattle.answers.specs.Answers.{line_text, column_text, image_complaint, complaint_text, reply_length, reply_text, bell_text, data_text, bytes_read, read_text, rung_text, timed_text, kind_text, passed_text, plan_text, planned_text, saved_text, why_text, image_text, list_text, journal_text, help_text};

use orders::Wrong;
use text::Page;

pub fn line(page: &mut Page, s: &[u8])
    ensures { Puts page.old page.new (line_text s.now) }
{
    page.put(s);
    page.put(b"\n");
}

// ---- what is wrong in a line

fn at_column(page: &mut Page, what: &[u8], column: usize)
    ensures { Puts page.old page.new (column_text what.now column) }
{
    page.put(b"? ");
    page.put(what);
    page.put(b" at column ");
    page.put_decimal(column as u64);
    page.put(b"\n");
}

fn not_an_image(page: &mut Page)
    ensures { Puts page.old page.new image_complaint }
{
    page.put(b"? image must be ");
    page.put_decimal(layout::IMAGE as u64);
    page.put(b" bytes\n");
}

pub fn complaint(page: &mut Page, what: Wrong, column: usize)
    ensures { Puts page.old page.new (complaint_text what column) }
{
    match what {
        Wrong::LongLine => at_column(page, b"line over 32768 bytes", column),
        Wrong::NoWord => at_column(page, b"unknown word", column),
        Wrong::MoreText => at_column(page, b"nothing more expected", column),
        Wrong::NoDigit => at_column(page, b"hex digit expected", column),
        Wrong::TooMany => at_column(page, b"command over 8192 bytes", column),
        Wrong::NoImage => not_an_image(page),
        Wrong::NoNumber => at_column(page, b"number expected", column),
        Wrong::LongBuffer => at_column(page, b"number over 8192", column),
        Wrong::GreatNumber => at_column(page, b"number over 4294967295", column),
        Wrong::GreatTime => at_column(page, b"number over 18446744073709551615", column),
        Wrong::LongSeeprom => at_column(page, b"seeprom over 8192 bytes", column),
        Wrong::GreatState => at_column(page, b"number over 255", column),
        Wrong::LongPacket => at_column(page, b"packet over 4096 bytes", column),
        Wrong::ManyPackets => line(page, b"? six packets at most"),
    }
}

// ---- calls

// An OCC reply has 7 bytes and the data bytes that its length field counts.
fn reply_len(reply: &[u8]) -> usize
    ensures value { result ≡ reply_length reply.now }
    ensures prefix_len { IsPrefixLen result reply.now }
{
    if reply.len() < 5 {
        return 0;
    }
    let n = 7 + wire::be16(reply, 3) as usize;
    if reply.len() < n {
        return 0;
    }
    n
}

// The session answer, and after 0 the reply.
pub fn reply(page: &mut Page, answer: u8, bytes: &[u8])
    ensures { Puts page.old page.new (reply_text answer bytes.now) }
{
    page.put_decimal(u64::from(answer));
    if answer == 0 {
        page.put_bytes(&bytes[..reply_len(bytes)]);
    }
    page.put(b"\n");
}

fn put_bell(page: &mut Page, bell: u16)
    ensures { Puts page.old page.new (bell_text bell) }
{
    let mut digits = [0u8; 2];
    wire::put_be(&mut digits, 0, 2, bell as u64);
    page.put(b" bell ");
    page.put_hexes(&digits);
}

// What was read of the SEEPROM, perhaps nothing.
fn put_data(page: &mut Page, bytes: &[u8])
    ensures { Puts page.old page.new (data_text bytes.now) }
{
    page.put(b" data");
    if bytes.len() == 0 {
        return;
    }
    page.put(b" ");
    page.put_hexes(bytes);
}

// Of the second buffer, as many bytes as the request asks for.
fn bytes_read<'a>(request: &[u8], buffer: &'a [u8]) -> &'a [u8]
    requires { 32 ≤ length request.now }
    ensures { result.now ≡ bytes_read request.now buffer.now }
{
    let n = wire::be32(request, 12) as usize;
    if buffer.len() < n {
        return buffer;
    }
    &buffer[..n]
}

// Nothing but after a read of the SEEPROM with success: the request's class and command and the
// response's statuses tell.
fn put_read(page: &mut Page, request: &[u8], response: &[u8], buffer: &[u8])
    ensures { Puts page.old page.new (read_text request.now response.now buffer.now) }
{
    if request.len() < 32 {
        return;
    }
    if response.len() < 32 {
        return;
    }
    if wire::be16(request, 6) != 0xD703 {
        return;
    }
    if wire::be32(response, 0) != 0 {
        return;
    }
    put_data(page, bytes_read(request, buffer));
}

// The session answer, and after 0 the response, the doorbell's four digits and what was read into
// the second buffer.
pub fn rung(page: &mut Page, answer: u8, request: &[u8], response: &[u8], bell: u16, buffer: &[u8])
    ensures { Puts page.old page.new (rung_text answer request.now response.now bell buffer.now) }
{
    page.put_decimal(u64::from(answer));
    if answer == 0 {
        page.put_bytes(response);
        put_bell(page, bell);
        put_read(page, request, response, buffer);
    }
    page.put(b"\n");
}

// The session answer of a time report, and after 0 the doorbell.
pub fn timed(page: &mut Page, answer: u8, bell: u16)
    ensures { Puts page.old page.new (timed_text answer bell) }
{
    page.put_decimal(u64::from(answer));
    if answer == 0 {
        put_bell(page, bell);
    }
    page.put(b"\n");
}

// The session answer of a redo, and after 0 the kind.
pub fn with_kind(page: &mut Page, answer: u8, kind: u8)
    ensures { Puts page.old page.new (kind_text answer kind) }
{
    page.put_decimal(u64::from(answer));
    if answer == 0 {
        page.put(b" ");
        page.put_hex(kind);
    }
    page.put(b"\n");
}

// The session answer of an undo, and after 0 the kind and how many entries were passed.
pub fn with_passed(page: &mut Page, answer: u8, kind: u8, passed: u8)
    ensures { Puts page.old page.new (passed_text answer kind passed) }
{
    page.put_decimal(u64::from(answer));
    if answer == 0 {
        page.put(b" ");
        page.put_hex(kind);
        page.put_number(u64::from(passed));
    }
    page.put(b"\n");
}

// The plan that was found, or that there is none.
fn put_plan(page: &mut Page, found: u8, order: &[u8])
    ensures { Puts page.old page.new (plan_text found order.now) }
{
    if found == 0 {
        page.put(b" no plan");
        return;
    }
    page.put(b" plan");
    page.put_numbers(order);
}

// The session answer of a plan, and after 0 the plan.
pub fn planned(page: &mut Page, answer: u8, found: u8, order: &[u8])
    ensures { Puts page.old page.new (planned_text answer found order.now) }
{
    page.put_decimal(u64::from(answer));
    if answer == 0 {
        put_plan(page, found, order);
    }
    page.put(b"\n");
}

// The session answer of a save that is refused, or the form.
pub fn saved(page: &mut Page, answer: u8, form: &[u8])
    ensures { Puts page.old page.new (saved_text answer form.now) }
{
    if answer != 0 {
        page.put_decimal(u64::from(answer));
        page.put(b"\n");
        return;
    }
    page.put(b"save ");
    page.put_hexes(form);
    page.put(b"\n");
}

// ---- views

fn put_reason(page: &mut Page, reason: u8)
    ensures { Puts page.old page.new (ascii (words_for reason) ∷ []) }
{
    page.put(words::nth(
        b"|bad version|bad count|out of range|repeated|clash|not pending|",
        reason as usize,
    ));
}

// The data byte that the last OCC call had wrong and the reason by its number, of which 0 is none.
pub fn why(page: &mut Page, reason: u8, at: u16)
    ensures { Puts page.old page.new (why_text reason at) }
{
    if reason == 0 {
        line(page, b"0");
        return;
    }
    page.put_decimal(u64::from(at));
    page.put(b" ");
    put_reason(page, reason);
    page.put(b"\n");
}

pub fn image(page: &mut Page, bytes: &[u8])
    ensures { Puts page.old page.new (image_text bytes.now) }
{
    page.put(b"image ");
    page.put_hexes(bytes);
    page.put(b"\n");
}

// A listing, by a buffer of its own.
fn put_apart(page: &mut Page, j: &[u8])
    ensures { Puts page.old page.new (listing j.now ∷ []) }
{
    let mut text = [0; listing::LONGEST];
    let n = listing::list(j, &mut text);
    page.put(&text[..n]);
}

// A listing, straight onto the page where the longest has room.
fn put_used(page: &mut Page, j: &[u8])
    ensures { Puts page.old page.new (listing j.now ∷ []) }
{
    let past = page.past;
    if page.out.len() < past || page.out.len() - past < listing::LONGEST {
        put_apart(page, j);
        return;
    }
    page.past += listing::list(j, &mut page.out[past..]);
}

// The listing of the journal's first `used` bytes. A page too short for the longest gets none.
fn put_list(page: &mut Page, j: &[u8], used: usize)
    ensures { Puts page.old page.new (list_text (length page.old.out.now) j.now used) }
{
    if j.len() < used {
        page.put(b"too long\n");
        return;
    }
    if page.out.len() < listing::LONGEST {
        return;
    }
    put_used(page, &j[..used]);
}

// That listing, and the line that ends it.
pub fn journal(page: &mut Page, j: &[u8], used: usize)
    ensures { Puts page.old page.new (journal_text (length page.old.out.now) j.now used) }
{
    put_list(page, j, used);
    page.put(b".\n");
}

pub fn help(page: &mut Page)
    ensures { Puts page.old page.new help_text }
{
    words::put_words(
        page,
        b"occ SS BYTES      an OCC command from sender SS (10 HTMGT, 20 BMC)\n|\
          sbe BYTES         an SBE mailbox request of 32 bytes\n|\
          undo              take the newest change back\n|\
          redo              put the change last taken back in again\n|\
          forget N          forget the N oldest changes\n|\
          time N            N microseconds have passed\n|\
          watch             go on with a watch-only session over this one\n|\
          fresh             begin again with a fresh session\n|\
          image             the session as |",
    );
    page.put_decimal(layout::IMAGE as u64);
    words::put_words(
        page,
        b" bytes\n|\
          load BYTES        go on with the session of such an image\n|\
          save              the session in the form for keeping\n|\
          restore BYTES     go on with the session of such a form\n|\
          send SS TT DATA   as occ: a packet of type TT, framed for you\n|\
          buffer N          reply buffers of N bytes; alone: whole ones again\n|\
          seeprom BYTES     lend these bytes as the SEEPROM's image\n|\
          packet BYTES      prepare a packet for a plan; alone: drop all\n|\
          plan N            in which order prepared packets lead to state N\n|\
          why               which data byte the last packet had wrong\n|\
          show              the session for a person\n|\
          journal           the journal's entries\n|\
          help              these words\n|",
    );
    page.put(b".\n");
}
