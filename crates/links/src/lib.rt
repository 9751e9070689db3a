// Every value of the types of a record and of a session has what those types say.
#![tactic(auto)]

ghost use Rattle.std.specs.Prelude.{◌<◌, ◌^◌};
ghost use Rattle.links.specs.Typed.{TypedRecord, TypedSession};

use record::{Record, Timer};
use session::Session;

pub fn typed_record(r: Record)
    ensures { TypedRecord r }
{}

pub fn typed_timer(t: Timer)
    ensures { t.left < 256 ^ 8 }
{}

pub fn typed_session(s: Session)
    ensures { TypedSession s }
{
    typed_record(s.held);
    typed_timer(s.timer);
}
