ghost use Rattle.std.specs.Prelude.{◌≡◌};
ghost use Rattle.tax_print.specs.FaultLines.{fault_line};
ghost use Rattle.command_plans.specs.Refusals.{refusal_line};

use m_places::Name;
use tax_print::Fault;

/// Why the input is rejected before the files are gathered.
#[derive(Drop)]
pub enum Refusal {
    /// This line of the list, counted from 1, is malformed.
    ListLine(u32),
    /// The list has more rule files than the limit.
    TooManyFiles,
    /// The file of this name is larger than its limit.
    FileTooLong(Name),
}

impl Refusal {
    /// The fault to be reported. Takes no memory.
    pub fn fault(&self) -> Fault<'_>
        ensures { fault_line result ≡ refusal_line self.now }
    {
        match self {
            Refusal::ListLine(line) => Fault::OfNumber(b"refused list line ", (*line).into()),
            Refusal::TooManyFiles => Fault::Words(b"refused too many files"),
            Refusal::FileTooLong(name) => Fault::OfName(b"refused file too long ", name.bytes()),
        }
    }
}
