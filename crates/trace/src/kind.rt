// The kinds of events: the number of each, and how long its events are.
ghost use Rattle.std.specs.Prelude.{◌≡◌};
ghost use Rattle.events.specs.Kinds.{kind as kind_number};
ghost use Rattle.trace.specs.Codec.{size};
ghost use Rattle.trace.specs.Kinds.{code, Decodes};

use crate::fault::TraceFault;
use events::Action;

// The numbers are those that stand in a file.
#[derive(Clone, Copy, PartialEq, Eq, Debug)]
pub(crate) enum Kind {
    Read = 0,
    Write = 1,
    Acquire = 2,
    Release = 3,
    ReadFlag = 4,
    WriteFlag = 5,
    Fork = 6,
    Join = 7,
    Allocate = 8,
    Commit = 9,
}

impl Kind {
    // How many bytes an event of the kind takes: kind, thread, and one operand or the two sets of a commit.
    pub(crate) fn size(self) -> usize
        ensures { result ≡ size (code self) }
    {
        match self {
            Kind::Commit => 18,
            _ => 3,
        }
    }
}

impl TryFrom<u8> for Kind {
    type Error = TraceFault;

    ghost try_from_gives = { Decodes };

    fn try_from(number: u8) -> Result<Kind, TraceFault> {
        match number {
            0 => Ok(Kind::Read),
            1 => Ok(Kind::Write),
            2 => Ok(Kind::Acquire),
            3 => Ok(Kind::Release),
            4 => Ok(Kind::ReadFlag),
            5 => Ok(Kind::WriteFlag),
            6 => Ok(Kind::Fork),
            7 => Ok(Kind::Join),
            8 => Ok(Kind::Allocate),
            9 => Ok(Kind::Commit),
            _ => Err(TraceFault::Kind),
        }
    }
}

impl From<Action> for Kind {
    ghost from_gives = { λ a k. code k ≡ kind_number a };

    fn from(action: Action) -> Kind {
        match action {
            Action::Read { .. } => Kind::Read,
            Action::Write { .. } => Kind::Write,
            Action::Acquire { .. } => Kind::Acquire,
            Action::Release { .. } => Kind::Release,
            Action::ReadFlag { .. } => Kind::ReadFlag,
            Action::WriteFlag { .. } => Kind::WriteFlag,
            Action::Fork { .. } => Kind::Fork,
            Action::Join { .. } => Kind::Join,
            Action::Allocate { .. } => Kind::Allocate,
            Action::Commit { .. } => Kind::Commit,
        }
    }
}

impl From<Kind> for u8 {
    ghost from_gives = { λ k n. n ≡ code k };

    fn from(kind: Kind) -> u8 {
        kind as u8
    }
}
