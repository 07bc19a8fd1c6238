// How a history ends that lets nobody live.
ghost use Rattle.std.specs.Prelude.{◌≡◌};
ghost use Rattle.std.specs.List.{last_or};
ghost use Rattle.cil_meaning.specs.Shown.{fallen_kind};
ghost use Rattle.schedules.specs.Ends.{stopped_by, fallen_or, ended_by};
ghost use Rattle.std.specs.Prelude.{None};

use store_object::{Ending, Event, Reply, Request};

// The exact type with which a request ends the run, if it does.
fn fallen_kind(request: Request) -> Option<u32>
    ensures { result ≡ fallen_kind request }
{
    match request {
        Request::Fall { kind } => Some(kind),
        _ => None,
    }
}

// The limit that a reply names, or the end of all threads.
fn stopped_by(reply: Reply) -> Ending
    ensures { result ≡ stopped_by reply }
{
    match reply {
        Reply::Stopped(cause) => Ending::Stopped { cause },
        _ => Ending::Done,
    }
}

// The end by an uncaught exception of this exact type, or else another end.
fn fallen_or(kind: Option<u32>, other: Ending) -> Ending
    ensures { result ≡ fallen_or kind other }
{
    match kind {
        Some(kind) => Ending::Uncaught { kind },
        None => other,
    }
}

// The end after this last event, if there is one.
fn ended_after(last: Option<Event>) -> Ending
    ensures { result ≡ ended_by last }
{
    match last {
        None => Ending::Done,
        Some(event) => fallen_or(fallen_kind(event.request), stopped_by(event.reply)),
    }
}

/// The end of a history after which nobody lives: an uncaught exception with its kind, a limit, or that all
/// threads have finished. This project's own.
pub fn ended_by(history: &[Event]) -> Ending
    ensures { result ≡ ended_by (last_or None history.now) }
{
    ended_after(history.last().copied())
}
