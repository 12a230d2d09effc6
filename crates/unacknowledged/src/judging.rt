// Whether a run may be acted on.
ghost use Rattle.std.specs.Prelude.{◌≡◌, ℕ};
ghost use Rattle.unacknowledged.specs.Judging.{accepted, replied, after, standing_of};

use crate::Missing;
use model::{Call, Event, Reply};

// How a run stands: finished once the last accepted next_have answered none, no tip was added after it, and the walk was
// not stopped; else what is missing.
type Standing = Result<(), Missing>;

// What an accepted call makes of a run's standing; `next` is what a next_have makes of it.
fn on_accepted(standing: Standing, next: Standing, call: Call) -> Standing
    ensures { result ≡ accepted standing next call }
{
    match call {
        Call::NextHave => next,
        Call::AddTip(_) => standing.and(Err(Missing::NoneAfterTip)),
        Call::KnownCommon(_) | Call::InCommonWithRemote(_) | Call::Note(_, _) => standing,
    }
}

// What a reply makes of the standing of a run that is not stopped.
fn on_reply(standing: Standing, event: Event) -> Standing
    ensures { result ≡ replied standing event.asked event.gave }
{
    match event.gave {
        Reply::NoneLeft => on_accepted(standing, Ok(()), event.asked),
        Reply::Denied(denial) if denial.stops() => Err(Missing::Going),
        Reply::Denied(_) => standing,
        Reply::Done | Reply::Have(_) | Reply::Told(_) => {
            on_accepted(standing, Err(Missing::LastNone), event.asked)
        }
    }
}

fn on_event(standing: Standing, event: Event) -> Standing
    ensures { result ≡ after standing event }
{
    match standing {
        Err(Missing::Going) => standing,
        _ => on_reply(standing, event),
    }
}

// How a run of calls stands, from what each of them gave back.
pub fn judge(events: &[Event]) -> Result<(), Missing>
    ensures { result ≡ standing_of events.now }
{
    events.iter().fold(
        Err(Missing::LastNone),
        |standing, event| on_event(standing, *event),
    )
}
