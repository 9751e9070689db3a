// The sets of configuration formats 0x12 and 0x13, read one after the other from the part that starts at the fourth data byte.
#![tactic(auto)]

ghost use Rattle.std.specs.Prelude.{◌≡◌, ◌<◌, ◌+◌, ◌*◌, ◌^◌, ℕ, length, MatchOption};
ghost use Rattle.sets.specs.Sets.{bit_of, one_set, throttles_of, one_fru, thermal_of};

use record::Throttles;

// A bit more.
#[tactic(auto, using(crate::proofs::Stored::shifted, crate::proofs::Stored::bit_fits), unfolding(crate::specs::Sets::bit_of))]
fn with_bit(bits: u16, i: usize) -> u16
    requires { (i < 16) × (bit_of bits i ≡ 0) }
    ensures { result ≡ bits + 2 ^ i }
{
    bits + (1 << i)
}

// ---- throttle sets

// One set of twelve bytes: hub 0 to 7, MBA 0 or 1, no pair twice. It goes into the lent table; None where it is refused.
#[tactic(auto, unfolding(crate::specs::Sets::one_set, crate::specs::Sets::with_pair, crate::specs::Sets::bit_of))]
fn one_set(t: &mut Throttles, s: &[u8]) -> Option<()>
    requires { length s.now ≡ 12 }
    ensures { MatchOption result (one_set t.old s.now ≡ None) (λ _. one_set t.old s.now ≡ Some t.new) }
{
    let hub = s[0];
    let mba = s[1];
    if 7 < hub {
        return None;
    }
    if 1 < mba {
        return None;
    }
    let pair = hub as usize * 2 + mba as usize;
    if (t.present >> pair) % 2 != 0 {
        return None;
    }
    t.present = with_bit(t.present, pair);
    wire::copy(&mut t.sets, pair * 10, &s[2..12]);
    Some(())
}

// The sets of the part that starts at the fourth data byte, as a table; None where one of them is refused.
pub fn read_sets(part: &[u8]) -> Option<Throttles>
    ensures { (n : ℕ) → length part.now ≡ n * 12 → result ≡ throttles_of n part.now }
{
    let mut table = Throttles {
        present: 0,
        sets: [0; 160],
    };
    for set in part.chunks_exact(12) {
        one_set(&mut table, set)?;
    }
    Some(table)
}

// ---- thermal thresholds

// The FRU types read so far; `seen` has a bit for each.
#[derive(Clone, Copy)]
struct Frus {
    seen: u16,
    bytes: [u8; 9],
}

// One set of four bytes: FRU 0 to 2, none twice, DVFS and ERROR in order.
#[tactic(auto, unfolding(crate::specs::Sets::one_fru, crate::specs::Sets::with_fru, crate::specs::Sets::bit_of))]
fn one_fru(t: Frus, s: &[u8]) -> Option<Frus>
    requires { length s.now ≡ 4 }
    ensures { result ≡ one_fru t s.now }
{
    let fru = s[0] as usize;
    if 2 < fru {
        return None;
    }
    if !formed::in_order(s[1], s[2]) {
        return None;
    }
    if (t.seen >> fru) % 2 != 0 {
        return None;
    }
    let seen = with_bit(t.seen, fru);
    let mut bytes = t.bytes;
    wire::copy(&mut bytes, fru * 3, &s[1..4]);
    Some(Frus { seen, bytes })
}

pub fn read_frus(part: &[u8]) -> Option<[u8; 9]>
    ensures { (n : ℕ) → length part.now ≡ n * 4 → result ≡ thermal_of n part.now }
{
    let mut t = Frus {
        seen: 0,
        bytes: [0xFF; 9],
    };
    for set in part.chunks_exact(4) {
        t = one_fru(t, set)?;
    }
    Some(t.bytes)
}
