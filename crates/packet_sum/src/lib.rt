// The two-byte sum of a packet's bytes, eight at a turn.
#![tactic(auto)]

ghost use Rattle.std.specs.Prelude.{◌≡◌, ◌+◌, ◌*◌, ◌%◌, ◌≤◌, length, take};
ghost use Rattle.wire.specs.Wire.{packet_sum};

// One byte more in a two-byte sum that wraps.
fn plus(acc: u16, b: u8) -> u16
    ensures { result ≡ (acc + b) % 65536 }
{
    acc.wrapping_add(u16::from(b))
}

// The sum of the leftovers, fewer than eight bytes.
fn one_by_one(s: &[u8]) -> u16
    ensures { result ≡ packet_sum s.now }
{
    let mut acc: u16 = 0;
    for b in s {
        acc = plus(acc, *b);
    }
    acc
}

// Two such sums together.
fn joined(a: u16, b: u16) -> u16
    ensures { result ≡ (a + b) % 65536 }
{
    a.wrapping_add(b)
}

// Eight such sums together.
fn eight_joined(a: u16, b: u16, c: u16, d: u16, e: u16, f: u16, g: u16, h: u16) -> u16
    ensures { result ≡ (a + b + c + d + e + f + g + h) % 65536 }
{
    let front = joined(joined(joined(a, b), c), d);
    joined(joined(joined(joined(front, e), f), g), h)
}

// The sum of eight parts of `n` bytes, one after the other: a byte of each at a turn, each part with a sum of its own. So every part is read
// in order, and no sum waits for another.
fn eight_parts(s: &[u8], n: usize) -> u16
    requires { 8 * n ≤ length s.now }
    ensures { result ≡ packet_sum (take (8 * n) s.now) }
{
    let mut a: u16 = 0;
    let mut b: u16 = 0;
    let mut c: u16 = 0;
    let mut d: u16 = 0;
    let mut e: u16 = 0;
    let mut f: u16 = 0;
    let mut g: u16 = 0;
    let mut h: u16 = 0;
    for i in 0..n {
        a = plus(a, s[i]);
        b = plus(b, s[n + i]);
        c = plus(c, s[2 * n + i]);
        d = plus(d, s[3 * n + i]);
        e = plus(e, s[4 * n + i]);
        f = plus(f, s[5 * n + i]);
        g = plus(g, s[6 * n + i]);
        h = plus(h, s[7 * n + i]);
    }
    eight_joined(a, b, c, d, e, f, g, h)
}

// The sum of `n` rows of eight bytes, a row at a turn: for what is too short for eight parts of 16 bytes.
fn eight_in_row(s: &[u8], n: usize) -> u16
    requires { 8 * n ≤ length s.now }
    ensures { result ≡ packet_sum (take (8 * n) s.now) }
{
    let mut a: u16 = 0;
    let mut b: u16 = 0;
    let mut c: u16 = 0;
    let mut d: u16 = 0;
    let mut e: u16 = 0;
    let mut f: u16 = 0;
    let mut g: u16 = 0;
    let mut h: u16 = 0;
    for k in 0..n {
        let at = 8 * k;
        a = plus(a, s[at]);
        b = plus(b, s[at + 1]);
        c = plus(c, s[at + 2]);
        d = plus(d, s[at + 3]);
        e = plus(e, s[at + 4]);
        f = plus(f, s[at + 5]);
        g = plus(g, s[at + 6]);
        h = plus(h, s[at + 7]);
    }
    eight_joined(a, b, c, d, e, f, g, h)
}

// The sum of a few rows, then of the leftovers.
fn rows_and_leftovers(s: &[u8]) -> u16
    ensures { result ≡ packet_sum s.now }
{
    let n = s.len() / 8;
    let end = 8 * n;
    joined(eight_in_row(s, n), one_by_one(&s[end..]))
}

// The two-byte sum of every byte of `s`, ignoring overflow: eight at a turn, the leftovers after. A long packet is taken by eight parts first,
// each of whole vectors of 16 bytes.
pub fn sum(s: &[u8]) -> u16
    ensures { result ≡ packet_sum s.now }
{
    let all = s.len();
    if all < 128 {
        return rows_and_leftovers(s);
    }
    let n = all / 128 * 16;
    let end = 8 * n;
    joined(eight_parts(s, n), rows_and_leftovers(&s[end..]))
}
