ghost use Rattle.std.specs.Prelude.{◌≡◌};
ghost use Rattle.command_plans.specs.Status.{number_of};

/// How a call of the program ended. `number` gives the exit status.
#[derive(Clone, Copy, Debug, PartialEq, Eq)]
pub enum Status {
    /// The command did all of its work.
    Done,
    /// The input was rejected; one line with the error was printed.
    Refused,
    /// The words are no command; the usage line was printed.
    Usage,
    /// A file or the input could not be read.
    ReadFault,
    /// A write failed, so the output is incomplete.
    WriteFault,
    /// Out of memory.
    Memory,
    /// A verification or a condition of the driver stopped the run.
    Stopped,
}

impl Status {
    /// The exit status: 0 where the command did its work.
    pub fn number(self) -> u8
        ensures { result ≡ number_of self }
    {
        match self {
            Status::Done => 0,
            Status::Refused => 1,
            Status::Usage => 2,
            Status::ReadFault => 3,
            Status::WriteFault => 4,
            Status::Memory => 5,
            Status::Stopped => 6,
        }
    }
}
