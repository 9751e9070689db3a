// The call `time`: the bench reports that so many microseconds have passed. The timer alone moves; no entry is made, and the redo store stays.
#![tactic(auto, unfolding(session::specs::Road::timer_bell, session::specs::Road::expires, session::specs::Road::ticked))]

ghost use Rattle.std.specs.Prelude.{◌≡◌};
ghost use Rattle.session.specs.Road.{expires, ticked, timer_bell, passes};
ghost use Rattle.image.specs.Image.{session_in};
ghost use Rattle.inplace.specs.InPlace.{HeadStands};
ghost use Rattle.time_call.specs.Time.{timed_by, TimeAllows};

use image::Head;
use inplace::Told;
use record::Timer;

// As many microseconds as are left, or more.
fn expires(t: Timer, n: u64) -> bool
    ensures { result ≡ expires n t }
{
    t.running != 0 && t.left <= n
}

// Fewer are taken off; as many or more stop the timer.
fn ticked(t: Timer, n: u64) -> Timer
    ensures { result ≡ ticked n t }
{
    if expires(t, n) {
        return Timer {
            running: 0,
            left: 0,
        };
    }
    if t.running == 0 {
        return t;
    }
    Timer {
        left: t.left - n,
        ..t
    }
}

// Doorbell bit 14, where it expires.
fn bell(t: Timer, n: u64) -> u16
    ensures { result ≡ timer_bell n t }
{
    if expires(t, n) {
        return 0x0002;
    }
    0
}

// On a well-formed session.
#[tactic(auto, using(crate::proofs::Passing::time_passes))]
fn pass(lent: &mut [u8], h: Head, n: u64) -> Told
    requires { HeadStands h lent.old }
    ensures value { result ≡ (timed_by (session_in h lent.old) (passes n)).told }
    ensures lent_after { lent.new ≡ (timed_by (session_in h lent.old) (passes n)).image }
{
    let head = image::with_timer(h, ticked(h.timer, n));
    image::write_head(lent, head);
    inplace::answer_with(0, bell(h.timer, n))
}

// The public call, on a session that is lent as its image's bytes; the doorbell stands beside the answer.
#[tactic(auto, using(crate::proofs::Passing::unopened, crate::proofs::Passing::passed_in_lem))]
pub fn time(lent: &mut [u8], n: u64) -> Told
    ensures { TimeAllows n lent.old result lent.new }
{
    let Some(h) = inplace::open(&*lent) else {
        return inplace::answer_with(1, 0);
    };
    pass(lent, h, n)
}
