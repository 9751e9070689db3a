// Moves a session in the new form, from standard input, down to the base version's. One byte more than the new form has is read, so that longer input is
// seen.
#![tactic(auto)]

fn complain(rt: &impl Eprint, said: &str) {
    let _ = rt.eprintln(said);
}

fn move_down(rt: &(impl Print + Eprint), saved: &[u8]) {
    let mut base = [0u8; saving::BASE_MOST];
    let told = saving::move_down(saved, &mut base);
    if told.answer == 11 {
        complain(rt, "11 won't read or is ill formed");
        return;
    }
    if told.answer != 0 {
        complain(rt, "12 can't go down");
        return;
    }
    let n = told.beside as usize;
    streams::write(rt, &base[..n]);
}

fn main(rt: HostRuntime) {
    let mut saved = [0u8; saving::SAVED + 1];
    let Ok(n) = streams::read_full(&rt, &mut rt.stdin(), b"standard input", &mut saved) else {
        return;
    };
    move_down(&rt, &saved[..n]);
}
