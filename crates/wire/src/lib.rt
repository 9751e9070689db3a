// Bytes on the wire: big-endian numbers of any width, and parts of lent buffers.
#![tactic(auto)]

ghost use Rattle.std.specs.Prelude.{cond, false, ◌≡◌, ◌+◌, ◌^◌, ◌≤◌, ◌<◌, length, take, drop, replicate};
ghost use Rattle.wire.specs.Wire.{be_nat, to_be, pasted, all_are};

// The number that the `n` bytes from `at` on spell.
pub fn be(s: &[u8], at: usize, n: usize) -> u64
    requires { (n ≤ 8) × (at + n ≤ length s.now) }
    ensures { (result ≡ be_nat (take n (drop at s.now))) × (result < 256 ^ n) }
{
    let mut acc: u64 = 0;
    for b in &s[at..at + n] {
        acc = acc * 256 + u64::from(*b);
    }
    acc
}

pub fn be16(s: &[u8], at: usize) -> u16
    requires { at + 2 ≤ length s.now }
    ensures { result ≡ be_nat (take 2 (drop at s.now)) }
{
    be(s, at, 2) as u16
}

pub fn be32(s: &[u8], at: usize) -> u32
    requires { at + 4 ≤ length s.now }
    ensures { result ≡ be_nat (take 4 (drop at s.now)) }
{
    be(s, at, 4) as u32
}

pub fn be64(s: &[u8], at: usize) -> u64
    requires { at + 8 ≤ length s.now }
    ensures { result ≡ be_nat (take 8 (drop at s.now)) }
{
    be(s, at, 8)
}

// Writes `v` as `n` bytes from `at` on; the rest is kept.
pub fn put_be(d: &mut [u8], at: usize, n: usize, v: u64)
    requires { at + n ≤ length d.old }
    ensures { d.new ≡ pasted at (to_be n v) d.old }
{
    let mut left = v;
    for i in (0..n).rev() {
        d[at + i] = (left % 256) as u8;
        left /= 256;
    }
}

// Copies `s` into `d` from `at` on; the rest is kept.
#[tactic(auto, unfolding(crate::specs::Wire::pasted))]
pub fn copy(d: &mut [u8], at: usize, s: &[u8])
    requires { at + length s.now ≤ length d.old }
    ensures { d.new ≡ pasted at s.now d.old }
{
    d[at..at + s.len()].copy_from_slice(s);
}

// Zeroes all of `d`.
pub fn zero_all(d: &mut [u8])
    ensures { d.new ≡ replicate (length d.old) 0 }
{
    for b in d.iter_mut() {
        *b = 0;
    }
}

// Whether every byte of `s` is `v`. It goes to the end whatever it meets, so that the compiler can take many bytes at a turn.
pub fn all_are(s: &[u8], v: u8) -> bool
    ensures { result ≡ all_are v s.now }
{
    let mut same = true;
    for b in s {
        same &= *b == v;
    }
    same
}

// Whether every byte of two parts is 0: the highest is. Two at a turn, so that neither waits for the other.
fn both_zero(a: &[u8], b: &[u8]) -> bool
    requires { length a.now ≡ length b.now }
    ensures { result ≡ cond (all_are 0 a.now) (all_are 0 b.now) false }
{
    let mut top = 0;
    let mut high = 0;
    for i in 0..a.len() {
        top = top.max(a[i]);
        high = high.max(b[i]);
    }
    top == 0 && high == 0
}

// The same of a store: two parts of whole vectors beside each other, then its last 64 bytes, some of them a second time, so that no byte is
// looked at by itself.
pub fn all_zero(s: &[u8]) -> bool
    ensures { result ≡ all_are 0 s.now }
{
    let n = s.len();
    if n < 64 {
        return all_are(s, 0);
    }
    let half = n / 64 * 32;
    let end = half + half;
    if !both_zero(&s[..half], &s[half..end]) {
        return false;
    }
    all_are(&s[n - 64..], 0)
}
