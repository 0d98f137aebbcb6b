//! How a call of the program ends.
ghost use Rattle.std.specs.Prelude.{◌≡◌};
ghost use Rattle.data_path.specs.StatusCode.{status_code};

/// How a call of the program ends. Statuses 6 and 8 are `main`'s own.
#[derive(Clone, Copy, Debug, PartialEq, Eq)]
pub enum Status {
    /// Each fragment has its result.
    Done,
    /// All was written, with a failure among the lines.
    SomeFailed,
    /// The words are no command line.
    Usage,
    /// The plan isn't one that the program runs.
    BadPlan,
    /// A write failed.
    WriteFault,
    /// A read of the plan failed.
    PlanFault,
    /// Memory was refused.
    NoMemory,
}

impl Status {
    /// The exit status: 0 to 5, or 7.
    pub fn code(self) -> u8
        ensures { result ≡ status_code self }
    {
        match self {
            Status::Done => 0,
            Status::SomeFailed => 1,
            Status::Usage => 2,
            Status::BadPlan => 3,
            Status::WriteFault => 4,
            Status::PlanFault => 5,
            Status::NoMemory => 7,
        }
    }
}
