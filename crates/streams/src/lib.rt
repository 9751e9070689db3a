// Reading and writing over std, and the program's arguments. A call on a stream that isn't ready is
// repeated until it is. If reading or writing fails, standard error gets the system's reason.
#![tactic(auto)]

ghost use Rattle.std.specs.Prelude.{◌≡◌, ◌<◌, ◌≤◌, true, length, take, IfOk, IfErr, OnErr};
ghost use Rattle.io.specs.Counts.{IsPrefixLen};
ghost use Rattle.streams.specs.Reads.{count_of};
ghost use Rattle.std.specs.Io.{ReadsAtMost, WritesAtMost};
ghost use Rattle.std.specs.Io.KnownBytes.{Appends, Consumes, IsAtEnd, Keeps};

use std::env::FillError;
use std::fmt::{self, Display, Write as _};
use std::fs::File;
use std::io::{Error, ErrorKind, Read, Write};
use std::rt::{Env, Files};
use std::{io, str, thread};

// Whether to repeat a failed call: a signal interrupted it, or the stream isn't ready. std can't
// wait for one stream, so other programs get their turn.
fn once_more(error: &Error) -> bool {
    if error.kind() == ErrorKind::WouldBlock {
        thread::yield_now();
        return true;
    }
    error.kind() == ErrorKind::Interrupted
}

// The first 256 bytes of a reason's text.
#[derive(Drop)]
struct Reason {
    text: [u8; 256],
    len: usize,
    ghost held: { len ≤ 256 },
}

impl fmt::Write for Reason {
    fn write_str(&mut self, s: &str) -> fmt::Result {
        for b in s.bytes() {
            if self.len < 256 {
                self.text[self.len] = b;
                self.len += 1;
            }
        }
        Ok(())
    }
}

// Writes a line to standard error: what failed, and the system's reason without the number that std
// puts behind it. If that fails too, nobody can be informed.
pub fn complain(rt: &impl Eprint, name: &[u8], reason: impl Display + Drop) {
    let mut said = Reason {
        text: [0; 256],
        len: 0,
    };
    let _ = write!(said, "{reason}");
    let text = str::from_utf8(&said.text[..said.len]).unwrap_or("");
    let words = text
        .split_once(" (os error ")
        .map_or(text, |(words, _)| words);
    let _ = match str::from_utf8(name) {
        Ok(name) => eprintln!(rt; "{name}: {words}"),
        Err(_) => eprintln!(rt; "{}: {words}", name.escape_ascii()),
    };
}

// The system's answer to a write, once it isn't to be repeated. A proved loop must end, so this one
// counts up to a number that no run reaches.
fn taken<W: Write>(writer: &mut W, bytes: &[u8]) -> io::Result<usize>
    ensures bound { WritesAtMost result bytes.now }
    ensures some { IfOk result (λ n. 0 < n) }
    ensures ok { IfOk result (λ n. Appends (W.contents writer.old) (W.contents writer.new) (take n bytes.now)) }
{
    for _ in 0..u64::MAX {
        match writer.write(bytes) {
            Ok(0) => return Err(Error::from(ErrorKind::WriteZero)),
            Ok(n) => return Ok(n),
            Err(e) => {
                if !once_more(&e) {
                    return Err(e);
                }
            }
        }
    }
    Err(Error::from(ErrorKind::TimedOut))
}

// Writes all of it; false where that can't be done. The name is what a complaint begins with.
pub fn write_to<W: Write>(rt: &impl Eprint, writer: &mut W, name: &[u8], bytes: &[u8]) -> bool
    ensures { result ≡ true → Appends (W.contents writer.old) (W.contents writer.new) bytes.now }
{
    let mut rest = bytes;
    while !rest.is_empty() {
        match taken(writer, rest) {
            Ok(n) => rest = &rest[n..],
            Err(e) => {
                complain(rt, name, e);
                return false;
            }
        }
    }
    true
}

// Writes all of it to standard output; false where that can't be done.
pub fn write(rt: &(impl Print + Eprint), bytes: &[u8]) -> bool {
    write_to(rt, &mut io::writer(rt), b"standard output", bytes)
}

// What the system answers to a read once it doesn't ask for another.
fn answered<R: Read>(reader: &mut R, space: &mut [u8]) -> io::Result<usize>
    ensures bound { ReadsAtMost result space.new }
    ensures ok { IfOk result (λ n. Consumes (R.remaining reader.old) (R.remaining reader.new) (take n space.new)) }
    ensures end { IfOk result (λ n. n ≡ 0 → 0 < length space.old → IsAtEnd (R.remaining reader.new)) }
    ensures err { OnErr result (Keeps (R.remaining reader.old) (R.remaining reader.new)) }
{
    for _ in 0..u64::MAX {
        match reader.read(space) {
            Ok(n) => return Ok(n),
            Err(e) => {
                if !once_more(&e) {
                    return Err(e);
                }
            }
        }
    }
    Err(Error::from(ErrorKind::TimedOut))
}

// Reading failed, which standard error was told, once so many bytes were read.
#[derive(Clone, Copy, PartialEq, Eq)]
pub struct Failed {
    pub count: usize,
}

// One read, of no bytes at the end of the input. The name is what a complaint begins with.
pub fn read<R: Read>(
    rt: &impl Eprint,
    reader: &mut R,
    name: &[u8],
    space: &mut [u8],
) -> Result<usize, Failed>
    ensures count { IsPrefixLen (count_of result) space.new }
    ensures bytes { Consumes (R.remaining reader.old) (R.remaining reader.new) (take (count_of result) space.new) }
    ensures end { IfOk result (λ n. n ≡ 0 → 0 < length space.old → IsAtEnd (R.remaining reader.new)) }
    ensures failed { IfErr result (λ failed. failed.count ≡ 0) }
{
    match answered(reader, space) {
        Ok(n) => Ok(n),
        Err(e) => {
            complain(rt, name, e);
            Err(Failed { count: 0 })
        }
    }
}

pub fn read_input<R: Read>(
    rt: &impl Eprint,
    input: &mut R,
    space: &mut [u8],
) -> Result<usize, Failed>
    ensures count { IsPrefixLen (count_of result) space.new }
    ensures bytes { Consumes (R.remaining input.old) (R.remaining input.new) (take (count_of result) space.new) }
    ensures end { IfOk result (λ n. n ≡ 0 → 0 < length space.old → IsAtEnd (R.remaining input.new)) }
    ensures failed { IfErr result (λ failed. failed.count ≡ 0) }
{
    read(rt, input, b"standard input", space)
}

// Reads until the space is full or the input ends.
pub fn read_full<R: Read>(
    rt: &impl Eprint,
    reader: &mut R,
    name: &[u8],
    space: &mut [u8],
) -> Result<usize, Failed>
    ensures count { IsPrefixLen (count_of result) space.new }
    ensures bytes { Consumes (R.remaining reader.old) (R.remaining reader.new) (take (count_of result) space.new) }
    ensures end { IfOk result (λ n. n < length space.old → IsAtEnd (R.remaining reader.new)) }
{
    let mut done = 0;
    while done < space.len() {
        match read(rt, reader, name, &mut space[done..]) {
            Ok(0) => return Ok(done),
            Ok(n) => done += n,
            Err(_) => return Err(Failed { count: done }),
        }
    }
    Ok(done)
}

// Opens the file of that name for reading. std takes no name that isn't UTF-8.
pub fn open<R: Files>(rt: &R, name: &[u8]) -> io::Result<R::File> {
    match str::from_utf8(name) {
        Ok(text) => File::open(rt, text),
        Err(_) => Err(Error::from(ErrorKind::InvalidFilename)),
    }
}

// Reads the file of that name, as far as the space goes. If it can't be opened, that is reported.
pub fn read_named<R: Files + Eprint>(rt: &R, name: &[u8], space: &mut [u8]) -> Result<usize, Failed>
    ensures { IsPrefixLen (count_of result) space.new }
{
    match open(rt, name) {
        Ok(mut file) => read_full(rt, &mut file, name, space),
        Err(e) => {
            complain(rt, name, e);
            Err(Failed { count: 0 })
        }
    }
}

// Whether the program was started with an argument of that number; number 0 is its own name.
pub fn is_given(rt: &impl Env, number: usize) -> bool {
    let Err(FillError::NotPresent) = rt.arg(number, &mut []) else {
        return true;
    };
    false
}

// Puts that argument at the start of a buffer and answers its length: 0 if not given or too long.
pub fn argument(rt: &impl Env, number: usize, space: &mut [u8]) -> usize
    ensures { IsPrefixLen result space.new }
{
    rt.arg(number, space).unwrap_or(0)
}

#[cfg(test)]
mod tests {
    use super::*;

    // A stream that a signal interrupts, that isn't ready once, moves a byte at a time, and breaks.
    #[derive(Drop)]
    struct Frail {
        turn: u8,
    }

    impl Frail {
        fn answer(&mut self) -> io::Result<usize>
            ensures { IfOk result (λ n. n ≤ 1) }
        {
            self.turn = self.turn.saturating_add(1);
            match self.turn {
                1 => Err(Error::from(ErrorKind::Interrupted)),
                3 => Err(Error::from(ErrorKind::WouldBlock)),
                5 => Err(Error::other("broken")),
                _ => Ok(1),
            }
        }
    }

    impl Read for Frail {
        fn read(&mut self, space: &mut [u8]) -> io::Result<usize> {
            let n = self.answer()?.min(space.len());
            if n > 0 {
                space[0] = b'0' + self.turn % 10;
            }
            Ok(n)
        }
    }

    impl Write for Frail {
        fn write(&mut self, bytes: &[u8]) -> io::Result<usize> {
            Ok(self.answer()?.min(bytes.len()))
        }

        fn flush(&mut self) -> io::Result<()> {
            Ok(())
        }
    }

    #[test]
    fn reads_on_until_it_breaks(rt: HostRuntime) {
        let mut space = [0u8; 3];
        let broken = read_full(&rt, &mut Frail { turn: 0 }, b"frail", &mut space);
        assert!(rt; broken == Err(Failed { count: 2 }));
        assert_eq!(rt; space[0], b'2');
        assert_eq!(rt; space[1], b'4');
        let whole = read_full(&rt, &mut Frail { turn: 5 }, b"frail", &mut space);
        assert!(rt; whole == Ok(3));
    }

    #[test]
    fn writes_on_until_it_breaks(rt: HostRuntime) {
        assert!(rt; write_to(&rt, &mut Frail { turn: 0 }, b"frail", b"ab"));
        assert!(rt; !write_to(&rt, &mut Frail { turn: 0 }, b"frail", b"abc"));
        assert!(rt; write(&rt, b""));
    }

    #[test]
    fn a_file_that_is_missing_is_said(rt: HostRuntime) {
        let mut space = [0u8; 8];
        assert!(rt; read_named(&rt, b"no such file", &mut space).is_err());
        assert!(rt; read_named(&rt, b"\xFF", &mut space).is_err());
    }
}
