// A trace as entries: kinds and lengths, on any lent bytes. What the entries say is played elsewhere.
#![tactic(auto, unfolding(entries::specs::Entries::next_by, entries::specs::Entries::some_next))]

ghost use Rattle.std.specs.Prelude.{◌≡◌, ◌≤◌, length};
ghost use Rattle.entries.specs.Entries.{entries_of, reading_of, ReadingFits, next_by};
ghost use Rattle.trace.specs.Trace.{trace_table, trace_scan};

use entries::{Broken, Fault, Whole};

// Document 02, a: the length of an entry of each kind, its kind included; 0 where there is no such kind.
#[tactic(auto, unfolding(crate::specs::Trace::trace_table))]
pub fn entry_len(kind: u8) -> usize
    ensures value { result ≡ trace_table kind }
    ensures upper_bound { result ≤ 4098 }
{
    match kind {
        0x01 => 66,
        0x02 => 4098,
        0x03 => 33,
        0x04 => 1,
        _ => 0,
    }
}

// The length of the entry at the front of a trace, or of the rest of one: none at the end.
pub fn next(t: &[u8]) -> Result<Option<usize>, Fault>
    ensures { result ≡ next_by trace_table t.now }
{
    if t.is_empty() {
        return Ok(None);
    }
    let n = entries::next_for(entry_len(t[0]), t.len())?;
    Ok(Some(n))
}

// The whole trace, or up to where it breaks.
pub fn read(t: &[u8]) -> Result<Whole, Broken>
    ensures value { result ≡ reading_of (trace_scan t.now) }
    ensures reading_fits { ReadingFits (length t.now) result }
{
    let mut at = 0;
    let mut count = 0;
    let mut newest = 0;
    while at < t.len() {
        let n = match entries::next_for(entry_len(t[at]), t.len() - at) {
            Ok(n) => n,
            Err(fault) => return Err(Broken { place: at, fault }),
        };
        newest = at;
        count += 1;
        at += n;
    }
    Ok(Whole { count, newest })
}

// How many whole entries there are, up to the end or to where the trace breaks.
pub fn count(t: &[u8]) -> usize
    ensures { result ≡ length (entries_of (trace_scan t.now)) }
{
    let mut at = 0;
    let mut count = 0;
    while let Ok(Some(n)) = next(&t[at..]) {
        count += 1;
        at += n;
    }
    count
}
