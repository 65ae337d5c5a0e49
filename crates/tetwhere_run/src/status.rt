//! The answers of the program.

ghost use Rattle.std.specs.Prelude.{◌≡◌};
ghost use Rattle.mesh_check.specs.declared.fault.CheckFault.TheVariants.{NoMemory as WantsMemory};
ghost use Rattle.tetwhere_run.specs.Statuses.{fault_code_of, query_code_of};
ghost use Rattle.tetwhere_run.specs.declared.status.WhereStatus.TheVariants.{Refused};

use mesh_check::CheckFault;
use tet_ports::NoMemory;

/// The answer of a run.
#[derive(Debug, Drop)]
pub enum WhereStatus {
    Done,
    /// The words are not two names; the first bad word, from 1, and the place in it.
    Usage { word: usize, place: usize },
    /// The files are refused, or memory ran out. A file has at most 2^26 bytes and a mesh at most
    /// 120,000 points; the defect is the first tetrahedron that is not positively oriented.
    Refused { fault: CheckFault },
    /// The lines could not be written.
    WriteFault,
}

impl WhereStatus {
    /// The exit code.
    pub fn code(&self) -> u8
        ensures { result ≡ query_code_of self.now }
    {
        match self {
            WhereStatus::Done => 0,
            WhereStatus::Usage { .. } => 1,
            WhereStatus::Refused { fault } => fault_code(fault),
            WhereStatus::WriteFault => 11,
        }
    }
}

/// The exit code on a refusal of the files.
fn fault_code(fault: &CheckFault) -> u8
    ensures { result ≡ fault_code_of fault.now }
{
    match fault {
        CheckFault::Missing { .. } => 2,
        CheckFault::ReadFault { .. } => 3,
        CheckFault::BadText { .. } => 4,
        CheckFault::TooLong { .. } | CheckFault::TooMany { .. } | CheckFault::OffGrid { .. } => 5,
        CheckFault::NoMemory => 10,
        CheckFault::Unsound { .. } => 13,
    }
}

impl From<CheckFault> for WhereStatus {
    ghost from_gives = { λ fault status. status ≡ Refused fault };

    fn from(fault: CheckFault) -> WhereStatus {
        WhereStatus::Refused { fault }
    }
}

impl From<NoMemory> for WhereStatus {
    ghost from_gives = { λ _ status. status ≡ Refused WantsMemory };

    fn from(want: NoMemory) -> WhereStatus {
        WhereStatus::from(CheckFault::from(want))
    }
}
