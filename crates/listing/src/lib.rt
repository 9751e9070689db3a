// The listing of raw journal bytes, put on a page piece by piece.
#![tactic(auto, unfolding(text::specs::Text::put_all, crate::specs::Listing::damaged_at, crate::specs::Listing::whole, crate::specs::Listing::line, crate::specs::Listing::pieces_of), using(text::proofs::laws::Pieces::put_all_append))]

ghost use Rattle.std.specs.Prelude.{◌≡◌};
ghost use Rattle.io.specs.Counts.{IsPrefixLen};
ghost use Rattle.entries.specs.Entries.{scan, entries_of};
ghost use Rattle.text.specs.Pages.{Puts};
ghost use Rattle.listing.specs.Listing.{line, lines_of, whole, damaged_at, pieces_of, listed, listed_length};

use entries::Entries;
use text::Page;

// The longest listing is 6,157 bytes: 13 of `journal N`, and at most 3 for each of 2,048 bytes.
pub const LONGEST: usize = 6157;

// An entry: kind, one space, body, line feed.
fn put_line(page: &mut Page, kind: u8, body: &[u8])
    ensures { Puts page.old page.new (line (record { kind = kind; body = body.now })) }
{
    page.put_hex(kind);
    page.put(b" ");
    page.put_hexes(body);
    page.put(b"\n");
}

// The lines of the entries.
fn put_lines(page: &mut Page, j: &[u8])
    ensures { Puts page.old page.new (lines_of (entries_of (scan j.now))) }
{
    for (kind, body) in Entries::new(j) {
        put_line(page, kind, body);
    }
}

// `journal N` and the entries' lines.
fn put_whole(page: &mut Page, j: &[u8], count: usize)
    ensures { Puts page.old page.new (whole count (entries_of (scan j.now))) }
{
    page.put(b"journal ");
    page.put_decimal(count as u64);
    page.put(b"\n");
    put_lines(page, j);
}

// Only `damaged at N`.
fn put_damaged(page: &mut Page, place: usize)
    ensures { Puts page.old page.new (damaged_at place) }
{
    page.put(b"damaged at ");
    page.put_decimal(place as u64);
    page.put(b"\n");
}

fn put_listing(page: &mut Page, j: &[u8])
    ensures { Puts page.old page.new (pieces_of j.now) }
{
    if 2048 < j.len() {
        page.put(b"too long\n");
        return;
    }
    match entries::read(j) {
        Ok(read) => put_whole(page, j, read.count),
        Err(broken) => put_damaged(page, broken.place),
    }
}

// The listing of `j` at the front of `out`, and its length. A buffer too short for the longest
// listing is kept: 0.
pub fn list(j: &[u8], out: &mut [u8]) -> usize
    ensures value { result ≡ listed_length j.now out.old }
    ensures out_after { out.new ≡ listed j.now out.old }
    ensures prefix_len { IsPrefixLen result out.new }
{
    if out.len() < LONGEST {
        return 0;
    }
    let mut page = Page::new(out);
    put_listing(&mut page, j);
    page.past
}
