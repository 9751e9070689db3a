// Where two recordings part: the whole entries that two lent traces share at their start, and the lines that say it.
#![tactic(auto, unfolding(text::specs::Text::put_all, crate::specs::Lines::shared_line, crate::specs::Lines::refusal_line))]

ghost use Rattle.std.specs.Prelude.{◌≡◌, ◌≤◌, ◌==◌, length};
ghost use Rattle.std.specs.List.{take_while, zip};
ghost use Rattle.wire.specs.Wire.{joined};
ghost use Rattle.io.specs.Counts.{IsPrefixLen};
ghost use Rattle.text.specs.Pages.{Puts};
ghost use Rattle.entries.specs.Entries.{written, entries_of};
ghost use Rattle.trace.specs.Trace.{trace_scan};
ghost use Rattle.parting.specs.Parting.{shared_part, refusal_of, parting_of};
ghost use Rattle.parting.specs.Lines.{shared_line, refusal_line, pieces_of, told, told_length};

use entries::Fault;
use text::Page;

// The trace whose first entry won't read, and why.
#[derive(Clone, Copy, PartialEq, Eq)]
pub enum Refusal {
    InFirst(Fault),
    InSecond(Fault),
}

// How many entries are shared, the number of the one after them, and what is refused.
#[derive(Clone, Copy, PartialEq, Eq)]
pub struct Parting {
    pub entries: usize,
    pub next: usize,
    pub refusal: Option<Refusal>,
}

// ---- the shared entries

// How many bytes both begin with.
fn agree(first: &[u8], second: &[u8]) -> usize
    ensures { result ≡ length (take_while (λ p. p.0 == p.1) (zip first.now second.now)) }
{
    let n = first.len().min(second.len());
    for i in 0..n {
        if first[i] != second[i] {
            return i;
        }
    }
    n
}

// How many bytes the whole entries of a trace have.
fn whole_len(t: &[u8]) -> usize
    ensures value { result ≡ length (written (entries_of (trace_scan t.now))) }
    ensures prefix_len { IsPrefixLen result t.now }
{
    match trace::read(t) {
        Ok(_) => t.len(),
        Err(broken) => broken.place,
    }
}

// The longest run of whole entries that both begin with, of which so many bytes are the same, as that
// part of the first.
fn part_shared<'a, 'b>(first: &'a [u8], second: &'b [u8], same: usize) -> &'a [u8]
    requires { same ≡ length (take_while (λ p. p.0 == p.1) (zip first.now second.now)) }
    ensures { result.now ≡ shared_part first.now second.now }
{
    let end = whole_len(&first[..same]);
    &first[..end]
}

// The same, of any two traces.
pub fn shared<'a, 'b>(first: &'a [u8], second: &'b [u8]) -> &'a [u8]
    ensures { result.now ≡ shared_part first.now second.now }
{
    part_shared(first, second, agree(first, second))
}

// ---- what stands beside it

fn refusal_of(first: &[u8], second: &[u8]) -> Option<Refusal>
    ensures { result ≡ refusal_of first.now second.now }
{
    if let Err(fault) = trace::next(first) {
        return Some(Refusal::InFirst(fault));
    }
    if let Err(fault) = trace::next(second) {
        return Some(Refusal::InSecond(fault));
    }
    None
}

// The number of the entry after the shared ones, and the refusal; so many bytes are the same.
fn parting_at(first: &[u8], second: &[u8], same: usize) -> Parting
    requires { same ≡ length (take_while (λ p. p.0 == p.1) (zip first.now second.now)) }
    ensures { result ≡ parting_of first.now second.now }
{
    let count = trace::count(&first[..same]);
    let refusal = refusal_of(first, second);
    Parting {
        entries: count,
        next: count + 1,
        refusal: refusal,
    }
}

// The same, of any two traces.
pub fn where_they_part(first: &[u8], second: &[u8]) -> Parting
    ensures { result ≡ parting_of first.now second.now }
{
    parting_at(first, second, agree(first, second))
}

// ---- the lines

fn put_shared(page: &mut Page, entries: usize, bytes: usize, next: usize)
    ensures puts { Puts page.old page.new (shared_line entries bytes next) }
    ensures fits { length (joined (shared_line entries bytes next)) ≤ 91 }
{
    page.put(b"shared ");
    page.put_decimal(entries as u64);
    page.put(b" entries, ");
    page.put_decimal(bytes as u64);
    page.put(b" bytes; next ");
    page.put_decimal(next as u64);
    page.put(b"\n");
}

fn put_refusal(page: &mut Page, refusal: Option<Refusal>)
    ensures { Puts page.old page.new (refusal_line refusal) }
{
    match refusal {
        None => {}
        Some(Refusal::InFirst(Fault::UnknownKind)) => page.put(b"unknown kind in the first\n"),
        Some(Refusal::InFirst(Fault::Cut)) => page.put(b"cut entry in the first\n"),
        Some(Refusal::InSecond(Fault::UnknownKind)) => page.put(b"unknown kind in the second\n"),
        Some(Refusal::InSecond(Fault::Cut)) => page.put(b"cut entry in the second\n"),
    }
}

fn put_parting(page: &mut Page, first: &[u8], second: &[u8])
    ensures puts { Puts page.old page.new (pieces_of first.now second.now) }
    ensures fits { length (joined (pieces_of first.now second.now)) ≤ 118 }
{
    let same = agree(first, second);
    let part = part_shared(first, second, same);
    let parting = parting_at(first, second, same);
    put_shared(page, parting.entries, part.len(), parting.next);
    put_refusal(page, parting.refusal);
}

// The longest text: 31 bytes of words and three numbers of 20 digits in the first line, 27 bytes in
// the second.
pub const LONGEST: usize = 118;

// Where two traces part, in one or two lines at the front of `out`, and their length. A buffer too
// short for the longest is kept: 0.
pub fn tell(first: &[u8], second: &[u8], out: &mut [u8]) -> usize
    ensures value { result ≡ told_length first.now second.now out.old }
    ensures out_after { out.new ≡ told first.now second.now out.old }
    ensures prefix_len { IsPrefixLen result out.new }
    ensures upper_bound { result ≤ 118 }
{
    if out.len() < LONGEST {
        return 0;
    }
    let mut page = Page::new(out);
    put_parting(&mut page, first, second);
    page.past
}
