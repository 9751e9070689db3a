// The journal as entries: kinds and lengths, on any lent bytes. Values are judged elsewhere. Other rows of entries are read alike, by their own lengths.
#![tactic(auto)]

ghost use Rattle.std.specs.Prelude.{◌≡◌, length};
ghost use Rattle.entries.specs.Entries.{body_len, scan, reading_of, ReadingFits, next_for};

mod iterating;

// Whole entries: how many, and where the newest starts, 0 where there is none.
#[derive(Clone, Copy, PartialEq, Eq)]
pub struct Whole {
    pub count: usize,
    pub newest: usize,
}

// Why an entry won't read: its kind is none that there is, or it is cut.
#[derive(Clone, Copy, PartialEq, Eq)]
pub enum Fault {
    UnknownKind,
    Cut,
}

// The place of the entry that breaks a row of them, and why.
#[derive(Clone, Copy, PartialEq, Eq)]
pub struct Broken {
    pub place: usize,
    pub fault: Fault,
}

// The length of the entry at the front of bytes: its kind's entries have `len` bytes, 0 where there is no such kind,
// and so many there are.
#[tactic(auto, unfolding(crate::specs::Entries::next_for))]
pub fn next_for(len: usize, have: usize) -> Result<usize, Fault>
    ensures { result ≡ next_for len have }
{
    if len == 0 {
        return Err(Fault::UnknownKind);
    }
    if have < len {
        return Err(Fault::Cut);
    }
    Ok(len)
}

// Document 01, "The journal": the length of each kind's body; 0 where there is no such kind. A `match`, because a table in a constant
// is copied to the stack at each call.
#[tactic(auto, unfolding(crate::specs::Entries::body_len))]
pub fn body_len(kind: u8) -> usize
    ensures { result ≡ body_len kind }
{
    match kind {
        0x01 => 3,
        0x02 => 1,
        0x03 => 2,
        0x04 => 7,
        0x05 => 2,
        0x06 => 10,
        0x07 => 163,
        0x08 => 2,
        0x09 => 4,
        0x0A => 9,
        0x0B => 24,
        0x0C => 9,
        _ => 0,
    }
}

// The same, of the kind after one whose length is known: entries of one kind often follow each other, and then no length is looked up,
// which a walk over a thousand entries would wait for.
pub fn next_len(last: u8, n: usize, kind: u8) -> usize
    requires { n ≡ body_len last }
    ensures { result ≡ body_len kind }
{
    if kind == last {
        return n;
    }
    body_len(kind)
}

// How lent bytes read.
pub fn read(j: &[u8]) -> Result<Whole, Broken>
    ensures value { result ≡ reading_of (scan j.now) }
    ensures reading_fits { ReadingFits (length j.now) result }
{
    let mut at = 0;
    let mut count = 0;
    let mut newest = 0;
    let mut last = 0;
    let mut n = 0;
    while at < j.len() {
        let kind = j[at];
        n = next_len(last, n, kind);
        last = kind;
        if n == 0 {
            return Err(Broken {
                place: at,
                fault: Fault::UnknownKind,
            });
        }
        if j.len() - at <= n {
            return Err(Broken {
                place: at,
                fault: Fault::Cut,
            });
        }
        newest = at;
        count += 1;
        at += n + 1;
    }
    Ok(Whole { count, newest })
}

// The journal's entries one after the other, the oldest first: each its kind and its body. They end
// where the bytes end or break.
#[derive(Clone, Copy)]
pub struct Entries<'a> {
    rest: &'a [u8],
    // The kind of the entry before, and how many bytes its body has: for `next_len`.
    last: u8,
    len: usize,
    ghost len_of_last: { len ≡ body_len last },
}

impl<'a> Entries<'a> {
    #[tactic(auto, unfolding(crate::specs::Entries::body_len))]
    pub fn new(j: &'a [u8]) -> Entries<'a>
        ensures { result.rest.now ≡ j.now }
    {
        Entries {
            rest: j,
            last: 0,
            len: 0,
        }
    }
}
