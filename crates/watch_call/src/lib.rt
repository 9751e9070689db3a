// The call `watch`: a watch-only session is opened over a well-formed one. Record, next id and timer stay; both stores are empty then.
#![tactic(auto)]

ghost use Rattle.std.specs.Prelude.{◌≡◌, length};
ghost use Rattle.session.specs.Road.{opens};
ghost use Rattle.image.specs.Image.{session_in};
ghost use Rattle.layout.specs.Layout.{image_length};
ghost use Rattle.watch_call.specs.Watch.{opened_by, WatchAllows};

use image::Head;
use inplace::Told;
use session::Session;

// On a well-formed session.
#[tactic(auto, using(crate::proofs::Opening::opened_on))]
fn open_over(lent: &mut [u8], h: Head) -> Told
    requires { length lent.old ≡ image_length }
    ensures value { result ≡ (opened_by (session_in h lent.old) opens).told }
    ensures lent_after { lent.new ≡ (opened_by (session_in h lent.old) opens).image }
{
    image::write(
        Session {
            held: h.held,
            worked: record::work_out(h.held),
            next: h.next,
            journal: [0; 2048],
            used: 0,
            redo: [0; 2048],
            ahead: 0,
            marks: [0; 64],
            timer: h.timer,
            profile: 1,
        },
        lent,
    );
    inplace::answer_with(0, 0)
}

// The public call, on a session that is lent as its image's bytes.
#[tactic(auto, using(crate::proofs::Opening::unopened, crate::proofs::Opening::opened_in))]
pub fn watch(lent: &mut [u8]) -> Told
    ensures { WatchAllows lent.old result lent.new }
{
    let Some(h) = inplace::open(&*lent) else {
        return inplace::answer_with(1, 0);
    };
    open_over(lent, h)
}
