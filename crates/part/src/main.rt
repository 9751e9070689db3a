// Tells where two recorded traces part: two files, named as arguments. Room for one byte more than a trace may have, so that a longer one is seen.
#![tactic(auto)]

ghost use Rattle.std.specs.Prelude.{IfSome};
ghost use Rattle.io.specs.Counts.{IsPrefixLen};

use std::rt::{Env, Files};

// 1 MiB.
const MOST: usize = 1048576;

fn room() -> [u8; MOST + 1] {
    [0; MOST + 1]
}

// The trace's length. There is none where the file can't be read or is too long.
fn read_named(rt: &(impl Files + Eprint), name: &[u8], space: &mut [u8]) -> Option<usize>
    ensures { IfSome result (λ n. IsPrefixLen n space.new) }
{
    let n = streams::read_named(rt, name, space).ok()?;
    if MOST < n {
        streams::complain(rt, name, "over 1048576 bytes");
        return None;
    }
    Some(n)
}

// The trace that an argument names.
fn read_arg(rt: &(impl Env + Files + Eprint), i: usize, space: &mut [u8]) -> Option<usize>
    ensures { IfSome result (λ n. IsPrefixLen n space.new) }
{
    let mut name = io::large_buffer();
    let n = streams::argument(rt, i, &mut name);
    read_named(rt, &name[..n], space)
}

fn tell(rt: &(impl Print + Eprint), first: &[u8], second: &[u8]) {
    let mut text = [0u8; parting::LONGEST];
    let n = parting::tell(first, second, &mut text);
    streams::write(rt, &text[..n]);
}

fn main(rt: HostRuntime) {
    if !streams::is_given(&rt, 2) || streams::is_given(&rt, 3) {
        let _ = rt.eprintln("usage: part FIRST SECOND");
        return;
    }
    let mut first = room();
    let Some(n) = read_arg(&rt, 1, &mut first) else {
        return;
    };
    let mut second = room();
    let Some(m) = read_arg(&rt, 2, &mut second) else {
        return;
    };
    tell(&rt, &first[..n], &second[..m]);
}
