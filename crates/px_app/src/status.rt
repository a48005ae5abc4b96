//! How a run that serves ends.
ghost use Rattle.std.specs.Prelude.{◌≡◌};

use px_outside::NetError;
use px_text::NoMemory;

/// How a run that serves ends: the program's exit status, and the line that is printed for it.
#[derive(Clone, Copy, Debug, PartialEq, Eq)]
pub enum Status {
    /// The net gave its end.
    Ended,
    /// The net failed as a whole.
    NetFault,
    /// So many things were heard as may be, and the last was not the end.
    BudgetSpent,
    /// The net gave its end, and a line was not printed whole.
    OutputFailed,
    /// Memory ran out.
    NoMemory,
}

impl Status {
    ghost use Rattle.px_app.specs.Statuses.{code_of};
    ghost use Rattle.px_app.specs.Lines.{line_of};

    /// The exit status.
    pub fn code(self) -> u8
        ensures code { result ≡ code_of self }
    {
        match self {
            Status::Ended => 0,
            Status::NetFault => 5,
            Status::BudgetSpent => 6,
            Status::OutputFailed => 7,
            Status::NoMemory => 8,
        }
    }

    /// The line that is printed, or none.
    #[tactic(auto, unfolding(crate::specs::Lines::line_of))]
    pub fn line(self) -> &'static str
        ensures line { result.now ≡ line_of (code_of self) }
    {
        match self {
            Status::NetFault => "network fault\n",
            Status::BudgetSpent => "event budget spent\n",
            Status::Ended | Status::OutputFailed | Status::NoMemory => "",
        }
    }
}

impl From<NetError> for Status {
    ghost use Rattle.px_app.specs.Statuses.{status_of};

    ghost from_gives = { λ error status. status ≡ status_of error };

    fn from(error: NetError) -> Status {
        match error {
            NetError::Fault => Status::NetFault,
            NetError::NoMemory => Status::NoMemory,
        }
    }
}

impl From<NoMemory> for Status {
    ghost use Rattle.px_app.specs.declared.status.Status.TheVariants.{NoMemory as OutOfMemory};

    ghost from_gives = { λ _ status. status ≡ OutOfMemory };

    fn from(_: NoMemory) -> Status {
        Status::NoMemory
    }
}
