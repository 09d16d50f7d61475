ghost use Rattle.std.specs.Prelude.{◌≡◌};
ghost use Rattle.leasecheck.specs.FileFaults.{FailsReading, failure_by, reading_failure};
ghost use Rattle.leasecheck.specs.declared.failure.Failure.TheVariants.{Wire, Run, Memory};

use crate::file_fault::FileFault;
use lease_state::Memory;
use lease_wire::WireFault;
use lease_world::RunFault;
use std::alloc::{AllocError, AllocFailed};
use std::fmt;
use std::io::ErrorKind;

/// Why a task is refused. As text it is the line that standard error gets, without its line feed.
#[derive(Clone, Copy, Debug, PartialEq, Eq)]
pub enum Failure {
    /// The argument isn't bytes in hexadecimal digits.
    Hex,
    /// The bytes are refused.
    Wire(WireFault),
    /// The file can't be opened or read.
    File(FileFault),
    /// The file has more lines than there are numbers of 64 bits.
    Lines,
    /// The line of this number, from 1, is refused.
    Line(u64),
    /// There is no run of the schedule.
    Run(RunFault),
    /// There are more facts than a picture has.
    Picture,
    /// There was no memory.
    Memory,
    /// A write to standard output failed.
    Output,
}

fn failure_by(fault: Option<FileFault>) -> Failure
    ensures { result ≡ failure_by fault }
{
    match fault {
        Some(fault) => Failure::File(fault),
        None => Failure::Memory,
    }
}

impl Failure {
    /// What a read, or the opening of a file, fails as whose error is of this kind.
    pub fn of_reading(kind: ErrorKind) -> Failure
        ensures exact { result ≡ reading_failure kind }
        ensures fails { FailsReading result }
    {
        failure_by(FileFault::of(kind))
    }
}

impl fmt::Display for Failure {
    ghost use Rattle.std.specs.Prelude.{Some};
    ghost use Rattle.leasecheck.specs.Refusals.{failure_text};

    ghost output = { λ failure. Some (failure_text failure) };

    fn fmt<W: fmt::Write>(&self, f: &mut fmt::Formatter<W>) -> fmt::Result {
        match self {
            Failure::Hex => f.write_str("fault hex"),
            Failure::Wire(fault) => write!(f, "fault {fault}"),
            Failure::File(_) | Failure::Lines => f.write_str("fault file"),
            Failure::Line(number) => write!(f, "fault line {number}"),
            Failure::Run(RunFault::BadSetup) => f.write_str("fault run 1 BadSetup"),
            Failure::Run(RunFault::TooMany) => f.write_str("fault run 2 TooMany"),
            Failure::Picture => f.write_str("fault picture TooMany"),
            Failure::Run(RunFault::Memory) | Failure::Memory => f.write_str("fault memory"),
            Failure::Output => f.write_str("fault output"),
        }
    }
}

impl From<WireFault> for Failure {
    ghost from_gives = { λ fault failure. failure ≡ Wire fault };

    fn from(fault: WireFault) -> Failure {
        Failure::Wire(fault)
    }
}

impl From<AllocError> for Failure {
    ghost from_gives = { λ _ failure. failure ≡ Memory };

    fn from(_error: AllocError) -> Failure {
        Failure::Memory
    }
}

impl<T: Drop> From<AllocFailed<T>> for Failure {
    ghost from_gives = { λ _ failure. failure ≡ Memory };

    fn from(_error: AllocFailed<T>) -> Failure {
        Failure::Memory
    }
}

impl From<Memory> for Failure {
    ghost from_gives = { λ _ failure. failure ≡ Memory };

    fn from(_error: Memory) -> Failure {
        Failure::Memory
    }
}

impl From<RunFault> for Failure {
    ghost from_gives = { λ fault failure. failure ≡ Run fault };

    fn from(fault: RunFault) -> Failure {
        Failure::Run(fault)
    }
}
