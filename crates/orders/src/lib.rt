// A line read as an order: what its word asks for, and the bytes after it, which go into a lent buffer. Nothing is carried out here.
#![tactic(auto, unfolding(crate::specs::Orders::view_of, crate::specs::Orders::given_of, crate::specs::Orders::kept_of, crate::specs::Orders::word_of, crate::specs::Orders::alone_at, crate::specs::Orders::numbered_by, crate::specs::Orders::buffer_at, crate::specs::Orders::numbered_at, crate::specs::Orders::bytes_by, crate::specs::Orders::image_by, crate::specs::Orders::remark, crate::specs::Orders::line_length, crate::specs::Orders::call_of, crate::specs::Orders::order_by, crate::specs::Orders::order_at, crate::specs::Orders::order_of, crate::specs::Orders::order_in))]

ghost use Rattle.std.specs.Prelude.{◌≡◌, ◌≤◌, ◌-◌, ℕ, Ok, length};
ghost use Rattle.io.specs.Counts.{IsPrefixLen};
ghost use Rattle.wire.specs.Wire.{pasted};
ghost use Rattle.text.specs.Text.{hex_run};
ghost use Rattle.orders.specs.Orders.{plainly, wrong_at, view_of, given_of, kept_of, word_of, alone_of, numbered_by, bytes_by, image_by, buffer_of, ReadsAs, ordered, occ_of, plain_bytes, send_of, load_of, forget_of, time_of, plan_of, call_of, order_at, remark, order_of, line_length, order_in};

use text::{Fault, Number, NumberError, Taken};

pub const MOST_LINE: usize = 32768;
// More bytes than a line holds.
pub const MOST_BYTES: usize = 16384;

// A buffer with room for them, and for the longest command as it is framed.
pub const ROOM: usize = 16390;

// The longest reply buffer that can be asked for.
pub const MOST_BUFFER: usize = 8192;

// The most changes that can be asked to be forgotten.
pub const MOST_FORGOTTEN: u64 = 4294967295;

// The most microseconds that can be reported.
pub const MOST_TIME: u64 = 18446744073709551615;

// The greatest number that can be asked for as a state.
pub const MOST_STATE: u64 = 255;

// The longest packet that can be prepared.
pub const MOST_PACKET: usize = 4096;

// What is made on a session.
#[derive(Clone, Copy)]
pub enum Call {
    Occ,
    Sbe,
    Send,
    Load,
    Undo,
    Redo,
    Forget(u32),
    Time(u64),
    Watch,
    Plan(u8),
    Save,
    Restore,
    Fresh,
}

// What only looks.
#[derive(Clone, Copy)]
pub enum View {
    Image,
    Why,
    Show,
    Journal,
    Help,
}

// The reply buffers that calls get: as long as the call needs, or of so many bytes.
#[derive(Clone, Copy)]
pub enum Buffer {
    Whole,
    Bytes(usize),
}

// What a line can have wrong; `ManyPackets` is wrong only beside the packets of earlier lines.
#[derive(Clone, Copy)]
pub enum Wrong {
    LongLine,
    NoWord,
    MoreText,
    NoDigit,
    TooMany,
    NoImage,
    NoNumber,
    LongBuffer,
    GreatNumber,
    GreatTime,
    LongSeeprom,
    GreatState,
    LongPacket,
    ManyPackets,
}

// `Seeprom`: the bytes become the SEEPROM's image. `Packet`: they are prepared for a plan.
#[derive(Clone, Copy)]
pub enum Word {
    Make(Call),
    Look(View),
    Lend(Buffer),
    Seeprom,
    Packet,
    Fail(Wrong),
    Skip,
}

// `count` bytes follow those that are due; `column` is where the line is wrong.
#[derive(Clone, Copy)]
pub struct Order {
    pub word: Word,
    pub count: usize,
    pub column: usize,
}

fn plain(word: Word) -> Order
    ensures value { result ≡ plainly word }
    ensures count_value { result.count ≡ 0 }
{
    Order {
        word: word,
        count: 0,
        column: 0,
    }
}

fn wrong_at(what: Wrong, column: usize) -> Order
    ensures value { result ≡ wrong_at what column }
    ensures count_value { result.count ≡ 0 }
{
    Order {
        word: Word::Fail(what),
        count: 0,
        column: column,
    }
}

// ---- words

fn view_of(word: &[u8]) -> Word
    ensures { result ≡ view_of word.now }
{
    if text::same(word, b"image") {
        return Word::Look(View::Image);
    }
    if text::same(word, b"why") {
        return Word::Look(View::Why);
    }
    if text::same(word, b"show") {
        return Word::Look(View::Show);
    }
    if text::same(word, b"journal") {
        return Word::Look(View::Journal);
    }
    if text::same(word, b"help") {
        return Word::Look(View::Help);
    }
    Word::Fail(Wrong::NoWord)
}

// What is given for later lines, or a view.
fn given_of(word: &[u8]) -> Word
    ensures { result ≡ given_of word.now }
{
    if text::same(word, b"buffer") {
        return Word::Lend(Buffer::Whole);
    }
    if text::same(word, b"seeprom") {
        return Word::Seeprom;
    }
    if text::same(word, b"packet") {
        return Word::Packet;
    }
    view_of(word)
}

// What is kept of a session, or gone on with.
fn kept_of(word: &[u8]) -> Word
    ensures { result ≡ kept_of word.now }
{
    if text::same(word, b"save") {
        return Word::Make(Call::Save);
    }
    if text::same(word, b"restore") {
        return Word::Make(Call::Restore);
    }
    given_of(word)
}

fn word_of(word: &[u8]) -> Word
    ensures { result ≡ word_of word.now }
{
    if text::same(word, b"occ") {
        return Word::Make(Call::Occ);
    }
    if text::same(word, b"sbe") {
        return Word::Make(Call::Sbe);
    }
    if text::same(word, b"send") {
        return Word::Make(Call::Send);
    }
    if text::same(word, b"load") {
        return Word::Make(Call::Load);
    }
    if text::same(word, b"undo") {
        return Word::Make(Call::Undo);
    }
    if text::same(word, b"redo") {
        return Word::Make(Call::Redo);
    }
    if text::same(word, b"forget") {
        return Word::Make(Call::Forget(0));
    }
    if text::same(word, b"time") {
        return Word::Make(Call::Time(0));
    }
    if text::same(word, b"watch") {
        return Word::Make(Call::Watch);
    }
    if text::same(word, b"plan") {
        return Word::Make(Call::Plan(0));
    }
    if text::same(word, b"fresh") {
        return Word::Make(Call::Fresh);
    }
    kept_of(word)
}

// ---- what follows a word

// Nothing may.
fn alone(word: Word, line: &[u8], from: usize) -> Order
    ensures value { result ≡ alone_of word line.now from }
    ensures count_value { result.count ≡ 0 }
{
    let place = text::past_blanks(line, from);
    if place < line.len() {
        return wrong_at(Wrong::MoreText, place + 1);
    }
    plain(word)
}

// Blanks after a number that was read at `column`; `word` makes the order's word of the number.
fn numbered<F: FnOnce(u64) -> Word>(
    read: Result<Number, NumberError>,
    over: Wrong,
    word: F,
    line: &[u8],
    column: usize,
) -> Order
    requires { (n : Number) → read ≡ Ok n → F.pre word n.value }
    ensures value { (w : ℕ → Word) → ((n : ℕ) (r : Word) → F.post word n r → r ≡ w n) → result ≡ numbered_by read over w line.now column }
    ensures count_value { result.count ≡ 0 }
{
    match read {
        Ok(number) => alone(word(number.value), line, number.past),
        Err(NumberError::Missing) => wrong_at(Wrong::NoNumber, column),
        Err(NumberError::TooGreat) => wrong_at(over, column),
    }
}

// A number of bytes, or nothing for whole buffers.
fn read_buffer(line: &[u8], from: usize) -> Order
    ensures value { result ≡ buffer_of line.now from }
    ensures count_value { result.count ≡ 0 }
{
    let place = text::past_blanks(line, from);
    if line.len() <= place {
        return plain(Word::Lend(Buffer::Whole));
    }
    let read = text::number_at(line, place, MOST_BUFFER as u64);
    let word = |n| Word::Lend(Buffer::Bytes(n as usize));
    numbered(read, Wrong::LongBuffer, word, line, place + 1)
}

// A number of changes.
fn read_forget(line: &[u8], from: usize) -> Order
    ensures value { result ≡ forget_of line.now from }
    ensures count_value { result.count ≡ 0 }
{
    let place = text::past_blanks(line, from);
    let read = text::number_at(line, place, MOST_FORGOTTEN);
    let word = |n| Word::Make(Call::Forget(n as u32));
    numbered(read, Wrong::GreatNumber, word, line, place + 1)
}

// A number of microseconds.
fn read_time(line: &[u8], from: usize) -> Order
    ensures value { result ≡ time_of line.now from }
    ensures count_value { result.count ≡ 0 }
{
    let place = text::past_blanks(line, from);
    let read = text::number_at(line, place, MOST_TIME);
    numbered(
        read,
        Wrong::GreatTime,
        |n| Word::Make(Call::Time(n)),
        line,
        place + 1,
    )
}

// A state.
fn read_plan(line: &[u8], from: usize) -> Order
    ensures value { result ≡ plan_of line.now from }
    ensures count_value { result.count ≡ 0 }
{
    let place = text::past_blanks(line, from);
    let read = text::number_at(line, place, MOST_STATE);
    let word = |n| Word::Make(Call::Plan(n as u8));
    numbered(read, Wrong::GreatState, word, line, place + 1)
}

// Bytes, of which the first `due` must be there; `over` is what more than the most are, `end` the
// column past the line.
fn with_bytes(over: Wrong, word: Word, taken: Taken, due: usize, end: usize) -> Order
    ensures value { result ≡ bytes_by taken.fault over word taken.count due end }
    ensures count_bound { result.count ≤ taken.count - due }
{
    match taken.fault {
        Some(Fault::Digit(column)) => wrong_at(Wrong::NoDigit, column),
        Some(Fault::Over(column)) => wrong_at(over, column),
        None => {
            if taken.count < due {
                return wrong_at(Wrong::NoDigit, end);
            }
            Order {
                word,
                count: taken.count - due,
                column: 0,
            }
        }
    }
}

// The bytes of an image, not one more or less.
fn with_image(taken: Taken) -> Order
    ensures value { result ≡ image_by taken.fault taken.count }
    ensures count_value { result.count ≡ 0 }
{
    match taken.fault {
        Some(Fault::Digit(column)) => wrong_at(Wrong::NoDigit, column),
        Some(Fault::Over(_)) => wrong_at(Wrong::NoImage, 0),
        None => {
            if taken.count != layout::IMAGE {
                return wrong_at(Wrong::NoImage, 0);
            }
            plain(Word::Make(Call::Load))
        }
    }
}

// At most `room` bytes, put from `at` on.
fn take(line: &[u8], from: usize, sent: &mut [u8], at: usize, room: usize) -> Taken
    requires { (at ≤ 2) × (room ≤ 16384) × (16390 ≤ length sent.old) }
    ensures reads_as { ReadsAs (hex_run line.now from room) result.count result.fault }
    ensures sent_after { sent.new ≡ pasted at (hex_run line.now from room).bytes sent.old }
    ensures count_le_room { result.count ≤ room }
{
    let end = at + room;
    text::take_bytes(line, from, &mut sent[at..end])
}

// The sender stands at 0, the command from 1 on.
fn occ(line: &[u8], from: usize, sent: &mut [u8]) -> Order
    requires { (length line.now ≤ 32768) × (16390 ≤ length sent.old) }
    ensures sent_after { ordered result sent.new ≡ occ_of line.now from sent.old }
    ensures count_bound { result.count ≤ 16384 }
{
    let taken = take(line, from, sent, 0, 8193);
    with_bytes(
        Wrong::TooMany,
        Word::Make(Call::Occ),
        taken,
        1,
        line.len() + 1,
    )
}

// At most `most` bytes, without any that must be there.
fn plain_bytes(
    most: usize,
    over: Wrong,
    word: Word,
    line: &[u8],
    from: usize,
    sent: &mut [u8],
) -> Order
    requires { (most ≤ 16384) × (length line.now ≤ 32768) × (16390 ≤ length sent.old) }
    ensures sent_after { ordered result sent.new ≡ plain_bytes most over word line.now from sent.old }
    ensures count_bound { result.count ≤ 16384 }
{
    let taken = take(line, from, sent, 0, most);
    with_bytes(over, word, taken, 0, line.len() + 1)
}

// The sender stands at 2, the type at 3, and the data from 4 on, where they stand in a packet.
fn send(line: &[u8], from: usize, sent: &mut [u8]) -> Order
    requires { (length line.now ≤ 32768) × (16390 ≤ length sent.old) }
    ensures sent_after { ordered result sent.new ≡ send_of line.now from sent.old }
    ensures count_bound { result.count ≤ 16384 }
{
    let taken = take(line, from, sent, 2, 8188);
    with_bytes(
        Wrong::TooMany,
        Word::Make(Call::Send),
        taken,
        2,
        line.len() + 1,
    )
}

fn load(line: &[u8], from: usize, sent: &mut [u8]) -> Order
    requires { 16390 ≤ length sent.old }
    ensures sent_after { ordered result sent.new ≡ load_of line.now from sent.old }
    ensures count_bound { result.count ≤ 16384 }
{
    with_image(take(line, from, sent, 0, layout::IMAGE))
}

fn read_call(call: Call, line: &[u8], from: usize, sent: &mut [u8]) -> Order
    requires { (length line.now ≤ 32768) × (16390 ≤ length sent.old) }
    ensures sent_after { ordered result sent.new ≡ call_of call line.now from sent.old }
    ensures count_bound { result.count ≤ 16384 }
{
    match call {
        Call::Occ => occ(line, from, sent),
        Call::Sbe => plain_bytes(
            8192,
            Wrong::TooMany,
            Word::Make(Call::Sbe),
            line,
            from,
            sent,
        ),
        Call::Send => send(line, from, sent),
        Call::Load => load(line, from, sent),
        Call::Undo => alone(Word::Make(Call::Undo), line, from),
        Call::Redo => alone(Word::Make(Call::Redo), line, from),
        Call::Forget(_) => read_forget(line, from),
        Call::Time(_) => read_time(line, from),
        Call::Watch => alone(Word::Make(Call::Watch), line, from),
        Call::Plan(_) => read_plan(line, from),
        Call::Save => alone(Word::Make(Call::Save), line, from),
        Call::Restore => plain_bytes(
            MOST_BYTES,
            Wrong::TooMany,
            Word::Make(Call::Restore),
            line,
            from,
            sent,
        ),
        Call::Fresh => alone(Word::Make(Call::Fresh), line, from),
    }
}

// ---- lines

// The line's word stands from `at` on.
fn read_word(line: &[u8], at: usize, sent: &mut [u8]) -> Order
    requires { (at ≤ length line.now) × (length line.now ≤ 32768) × (16390 ≤ length sent.old) }
    ensures sent_after { ordered result sent.new ≡ order_at line.now at sent.old }
    ensures count_bound { result.count ≤ 16384 }
{
    let rest = &line[at..];
    let n = text::word_len(rest);
    let end = at + n;
    let word = word_of(&rest[..n]);
    match word {
        Word::Make(call) => read_call(call, line, end, sent),
        Word::Look(view) => alone(Word::Look(view), line, end),
        Word::Lend(_) => read_buffer(line, end),
        Word::Seeprom => plain_bytes(8192, Wrong::LongSeeprom, Word::Seeprom, line, end, sent),
        Word::Packet => plain_bytes(
            MOST_PACKET,
            Wrong::LongPacket,
            Word::Packet,
            line,
            end,
            sent,
        ),
        Word::Fail(what) => wrong_at(what, at + 1),
        Word::Skip => plain(Word::Skip),
    }
}

// Whether nothing stands from `at` on, or a remark.
fn is_remark(line: &[u8], at: usize) -> bool
    ensures { result ≡ remark line.now at }
{
    if line.len() <= at {
        return true;
    }
    line[at] == b'#'
}

fn read_line(line: &[u8], sent: &mut [u8]) -> Order
    requires { 16390 ≤ length sent.old }
    ensures sent_after { ordered result sent.new ≡ order_of line.now sent.old }
    ensures count_bound { result.count ≤ 16384 }
{
    if MOST_LINE < line.len() {
        return wrong_at(Wrong::LongLine, MOST_LINE + 1);
    }
    let at = text::past_blanks(line, 0);
    if is_remark(line, at) {
        return plain(Word::Skip);
    }
    read_word(line, at, sent)
}

// The length without one carriage return at the very end.
fn line_len(s: &[u8]) -> usize
    ensures value { result ≡ line_length s.now }
    ensures prefix_len { IsPrefixLen result s.now }
{
    if s.len() == 0 {
        return 0;
    }
    let last = s.len() - 1;
    if s[last] == b'\r' {
        return last;
    }
    s.len()
}

// The order of a line without its line feed. A buffer that is too short for what a line holds takes no order.
pub fn read(s: &[u8], sent: &mut [u8]) -> Order
    ensures sent_after { ordered result sent.new ≡ order_in s.now sent.old }
    ensures count_bound { result.count ≤ 16384 }
{
    if sent.len() < ROOM {
        return plain(Word::Skip);
    }
    let n = line_len(s);
    read_line(&s[..n], sent)
}
