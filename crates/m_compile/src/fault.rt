//! Faults of a source.

ghost use Rattle.std.specs.Prelude.{◌≡◌};
ghost use Rattle.m_compile.specs.declared.fault.SourceFault.TheVariants.{Memory};
ghost use Rattle.m_compile.specs.inner.Steps.{rule_step, driver_step, core_step, request_step, inline_step};

use m_symbols::RequestFault;
use mpp_core::CoreFault;
use mpp_inline::InlineFault;
use mpp_lexer::DriverFault;
use rule_base::RuleFault;
use std::alloc::{AllocError, AllocFailed};

/// Why a source is rejected: the fault of its earliest faulty step. `Memory` is the only variant
/// for running out of memory; the faults of steps inside the others are never that.
#[derive(Drop)]
pub enum SourceFault {
    /// The rule files have no base.
    Rules(RuleFault),
    /// The driver doesn't parse.
    Driver(DriverFault),
    /// A name in the driver has a fault, or its functions are recursive.
    Core(CoreFault),
    /// A line of the requests is bad, or there are too many requests.
    Requests(RequestFault),
    /// The weight of the whole exceeds the limit; a weight over 64 bits is reported as
    /// 18446744073709551615.
    DriverTooLarge(u64),
    /// Out of memory.
    Memory,
}

impl From<RuleFault> for SourceFault {
    ghost from_gives = { λ e f. f ≡ rule_step e };

    fn from(fault: RuleFault) -> SourceFault {
        SourceFault::Rules(match fault {
            RuleFault::Memory => return SourceFault::Memory,
            RuleFault::Lex(fault) => RuleFault::Lex(fault),
            RuleFault::Parse(fault) => RuleFault::Parse(fault),
            RuleFault::Declare(fault) => RuleFault::Declare(fault),
            RuleFault::Expand(fault) => RuleFault::Expand(fault),
            RuleFault::Resolve(fault) => RuleFault::Resolve(fault),
            RuleFault::Cycle(names) => RuleFault::Cycle(names),
        })
    }
}

impl From<DriverFault> for SourceFault {
    ghost from_gives = { λ e f. f ≡ driver_step e };

    fn from(fault: DriverFault) -> SourceFault {
        SourceFault::Driver(match fault {
            DriverFault::Memory => return SourceFault::Memory,
            DriverFault::DriverToken(line) => DriverFault::DriverToken(line),
            DriverFault::DriverTooDeep(line) => DriverFault::DriverTooDeep(line),
            DriverFault::DriverSyntax(line) => DriverFault::DriverSyntax(line),
        })
    }
}

impl From<CoreFault> for SourceFault {
    ghost from_gives = { λ e f. f ≡ core_step e };

    fn from(fault: CoreFault) -> SourceFault {
        SourceFault::Core(match fault {
            CoreFault::Memory => return SourceFault::Memory,
            CoreFault::FunctionTwice(name, line) => CoreFault::FunctionTwice(name, line),
            CoreFault::NoMain => CoreFault::NoMain,
            CoreFault::UnknownInDriver(name, line) => CoreFault::UnknownInDriver(name, line),
            CoreFault::BadTargetInDriver(name, line) => CoreFault::BadTargetInDriver(name, line),
            CoreFault::DriverRecursion(names) => CoreFault::DriverRecursion(names),
        })
    }
}

impl From<RequestFault> for SourceFault {
    ghost from_gives = { λ e f. f ≡ request_step e };

    fn from(fault: RequestFault) -> SourceFault {
        SourceFault::Requests(match fault {
            RequestFault::Memory => return SourceFault::Memory,
            RequestFault::BadRequest(line) => RequestFault::BadRequest(line),
            RequestFault::TooManyRequests => RequestFault::TooManyRequests,
        })
    }
}

impl From<InlineFault> for SourceFault {
    ghost from_gives = { λ e f. f ≡ inline_step e };

    fn from(fault: InlineFault) -> SourceFault {
        match fault {
            InlineFault::Memory => SourceFault::Memory,
            InlineFault::DriverTooLarge(weight) => SourceFault::DriverTooLarge(weight),
        }
    }
}

impl From<AllocError> for SourceFault {
    ghost from_gives = { λ _ f. f ≡ Memory };

    fn from(_error: AllocError) -> SourceFault {
        SourceFault::Memory
    }
}

impl<T: Drop> From<AllocFailed<T>> for SourceFault {
    ghost from_gives = { λ _ f. f ≡ Memory };

    fn from(_error: AllocFailed<T>) -> SourceFault {
        SourceFault::Memory
    }
}
