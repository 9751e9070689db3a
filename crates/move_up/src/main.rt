// Moves a session that the base version saved, from standard input, up to the new form. One byte more than a base save can have is read, so that longer
// input is seen.
#![tactic(auto)]

fn main(rt: HostRuntime) {
    let mut saved = [0u8; saving::BASE_MOST + 1];
    let Ok(n) = streams::read_full(&rt, &mut rt.stdin(), b"standard input", &mut saved) else {
        return;
    };
    let mut form = [0u8; saving::SAVED];
    let told = saving::move_up(&saved[..n], &mut form);
    if told.answer != 0 {
        let _ = rt.eprintln("11 won't read or is ill formed");
        return;
    }
    streams::write(&rt, &form);
}
