// Lists raw journal bytes from standard input. One byte more than a journal can have is read, so that longer input is seen.
#![tactic(auto)]

fn main(rt: HostRuntime) {
    let mut raw = [0u8; 2049];
    let Ok(used) = streams::read_full(&rt, &mut rt.stdin(), b"standard input", &mut raw) else {
        return;
    };
    let mut text = [0u8; listing::LONGEST];
    let n = listing::list(&raw[..used], &mut text);
    streams::write(&rt, &text[..n]);
}
