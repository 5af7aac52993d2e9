// Why a command ends early.
ghost use Rattle.std.specs.Prelude.{◌≡◌};

use crate::failure::Failure;
use crate::text_file::Unread;
use std::process::ExitCode;

#[derive(Clone, Copy, PartialEq, Eq)]
pub enum Stop {
    // A refusal, or a broken trace.
    Refused,
    // Bad usage, or a file that can't be read or written.
    Unusable,
}

impl From<Failure> for Stop {
    ghost use Rattle.cli_io.specs.declared.stop.Stop.{Stop};

    ghost from_gives = { λ _ stop. stop ≡ Stop.Unusable };

    fn from(_failure: Failure) -> Self {
        Self::Unusable
    }
}

impl From<Unread> for Stop {
    ghost use Rattle.cli_io.specs.declared.stop.Stop.{Stop};

    ghost from_gives = { λ _ stop. stop ≡ Stop.Unusable };

    fn from(_unread: Unread) -> Self {
        Stop::Unusable
    }
}

impl From<Stop> for ExitCode {
    fn from(stop: Stop) -> Self {
        match stop {
            Stop::Refused => ExitCode::from(1),
            Stop::Unusable => ExitCode::from(2),
        }
    }
}
