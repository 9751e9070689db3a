// Lists each file that an argument names, under a heading, by the call that `list_journal` makes. Each function answers whether to go on: the
// output can still be written.
#![tactic(auto)]

use std::io::Read;
use std::rt::{Env, Files};

// The listing of what an open file holds.
fn list_open<F: Read>(rt: &(impl Print + Eprint), file: &mut F, name: &[u8]) -> bool {
    let mut raw = [0u8; 2049];
    let Ok(used) = streams::read_full(rt, file, name, &mut raw) else {
        return true;
    };
    let mut text = [0u8; listing::LONGEST];
    let n = listing::list(&raw[..used], &mut text);
    streams::write(rt, &text[..n])
}

fn list_named(rt: &(impl Files + Print + Eprint), name: &[u8]) -> bool {
    match streams::open(rt, name) {
        Ok(mut file) => list_open(rt, &mut file, name),
        Err(_) => streams::write(rt, b"cannot be opened\n"),
    }
}

fn put_heading(rt: &(impl Print + Eprint), name: &[u8]) -> bool {
    if !streams::write(rt, b"== ") {
        return false;
    }
    if !streams::write(rt, name) {
        return false;
    }
    streams::write(rt, b"\n")
}

fn list_arg(rt: &(impl Env + Files + Print + Eprint), i: usize) -> bool {
    let mut space = io::buffer();
    let n = streams::argument(rt, i, &mut space);
    if !put_heading(rt, &space[..n]) {
        return false;
    }
    list_named(rt, &space[..n])
}

fn main(rt: HostRuntime) {
    for i in 1..usize::MAX {
        if !streams::is_given(&rt, i) || !list_arg(&rt, i) {
            return;
        }
    }
}
