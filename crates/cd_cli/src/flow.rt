//! How the run goes on after a command.
ghost use Rattle.std.specs.Prelude.{◌≡◌, ℕ, List};
ghost use Rattle.cd_cli.specs.Flow.{was_refused, last_in, ends_in, ends_by, status_after};
ghost use Rattle.cd_input.specs.Input.{Whole};
ghost use Rattle.cd_input.specs.Scanner.{event_of};
ghost use Rattle.cd_turn.specs.Reply.{is_refused};

use cd_input::Found;
use cd_turn::{Reply, Status};

/// Whether the last command was refused.
#[derive(Clone, Copy, Debug, PartialEq, Eq)]
pub(crate) enum Last {
    Done,
    Refused,
}

/// Whether the run goes on; with how the last command went.
#[derive(Clone, Copy, Debug, PartialEq, Eq)]
pub(crate) enum Flow {
    Goes(Last),
    Ends(Last),
}

fn last_of(reply: &Reply) -> Last
    ensures { was_refused result ≡ is_refused reply.now }
{
    match reply {
        Reply::Refused(_) => Last::Refused,
        Reply::Home(..)
        | Reply::Submitted(_)
        | Reply::Viewed(_)
        | Reply::Reported(_)
        | Reply::Stopped => Last::Done,
    }
}

// What the reply to a command makes of the run.
fn flow_after(reply: &Reply) -> Flow
    ensures ends { (text : List ℕ) → ends_in result ≡ ends_by (Whole text) reply.now }
    ensures last { was_refused (last_in result) ≡ is_refused reply.now }
{
    match reply {
        Reply::Stopped => Flow::Ends(Last::Done),
        Reply::Refused(_) => Flow::Goes(Last::Refused),
        Reply::Home(..) | Reply::Submitted(_) | Reply::Viewed(_) | Reply::Reported(_) => {
            Flow::Goes(Last::Done)
        }
    }
}

/// What the reply to what came to its end makes of the run.
pub(crate) fn flow_of(found: &Found, reply: &Reply) -> Flow
    ensures ends { ends_in result ≡ ends_by (event_of found.now) reply.now }
    ensures last { was_refused (last_in result) ≡ is_refused reply.now }
{
    match found {
        Found::Command(_) => flow_after(reply),
        Found::TooLong | Found::Unfinished => Flow::Ends(last_of(reply)),
    }
}

impl Flow {
    /// How the last command went.
    pub(crate) fn last(self) -> Last
        ensures { result ≡ last_in self }
    {
        match self {
            Flow::Goes(last) | Flow::Ends(last) => last,
        }
    }
}

impl Last {
    /// The status of a run that came to its end.
    pub(crate) fn status(self) -> Status
        ensures { result ≡ status_after self }
    {
        match self {
            Last::Done => Status::Done,
            Last::Refused => Status::Refused,
        }
    }
}
