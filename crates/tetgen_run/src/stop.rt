//! Why a run stopped before its end.

ghost use Rattle.std.specs.Prelude.{◌≡◌, Err, None};
ghost use Rattle.tetgen_run.specs.Ends.{answer_of};
ghost use Rattle.tetgen_run.specs.Stops.{stop_of_words, stop_of_check, stop_of_store};
ghost use Rattle.tetgen_run.specs.declared.stop.Stop.TheVariants.{Refused};

use command_words::WordsFault;
use mesh_check::{CheckFault, MOST_BYTES, MOST_POINTS};
use run_steps::{LimitKind, NamedText, Numbering, Status, StoreStop};
use tet_ports::NoMemory;

/// Why a run stopped before its end.
#[derive(Debug, Drop)]
pub enum Stop {
    /// A refusal before anything was stored, and the numbers of the input's points, where they are
    /// on their grid.
    Refused {
        status: Status,
        numbering: Option<Numbering>,
    },
    /// The folder failed in the store of this text.
    Unwritten(NamedText),
    /// The summary could not be written.
    Unsummed,
    NoMemory,
}

impl Stop {
    /// The status of a run with this stop.
    pub fn status(self) -> Status
        ensures { result ≡ answer_of (Err self) }
    {
        match self {
            Stop::Refused {
                status,
                numbering: _,
            } => status,
            Stop::Unwritten(text) => Status::WriteFault {
                name: Some(text.name),
            },
            Stop::Unsummed => Status::WriteFault { name: None },
            Stop::NoMemory => Status::NoMemory,
        }
    }
}

impl From<Status> for Stop {
    ghost from_gives = { λ status stop. stop ≡ Refused status None };

    fn from(status: Status) -> Stop {
        Stop::Refused {
            status,
            numbering: None,
        }
    }
}

impl From<WordsFault> for Stop {
    ghost from_gives = { λ fault stop. stop ≡ stop_of_words fault };

    fn from(fault: WordsFault) -> Stop {
        match fault {
            WordsFault::Usage { word, place } => Stop::from(Status::Usage { word, place }),
            WordsFault::NoMemory => Stop::NoMemory,
        }
    }
}

impl From<CheckFault> for Stop {
    ghost from_gives = { λ fault stop. stop ≡ stop_of_check fault };

    fn from(fault: CheckFault) -> Stop {
        match fault {
            CheckFault::Missing { name } => Stop::from(Status::Missing { name }),
            CheckFault::ReadFault { name } => Stop::from(Status::ReadFault { name }),
            CheckFault::BadText { name, fault } => Stop::from(Status::BadText { name, fault }),
            CheckFault::TooLong { name } => Stop::from(Status::Limit {
                what: LimitKind::Bytes {
                    name,
                    most: MOST_BYTES,
                },
            }),
            CheckFault::TooMany { count } => Stop::from(Status::Limit {
                what: LimitKind::Points {
                    count,
                    most: MOST_POINTS as usize,
                },
            }),
            CheckFault::OffGrid { line } => Stop::from(Status::Limit {
                what: LimitKind::Grid { line },
            }),
            CheckFault::Unsound { defect, first } => {
                Stop::from(Status::Unsound { defect, first })
            }
            CheckFault::NoMemory => Stop::NoMemory,
        }
    }
}

impl From<StoreStop> for Stop {
    ghost from_gives = { λ fault stop. stop ≡ stop_of_store fault };

    fn from(fault: StoreStop) -> Stop {
        match fault {
            StoreStop::Failed(text) => Stop::Unwritten(text),
            StoreStop::NoMemory => Stop::NoMemory,
        }
    }
}

impl From<NoMemory> for Stop {
    ghost use Rattle.std.specs.Prelude.{◌≡◌};
    ghost use Rattle.tetgen_run.specs.declared.stop.Stop.TheVariants.{NoMemory as OutOfMemory};

    ghost from_gives = { λ _ stop. stop ≡ OutOfMemory };

    fn from(_: NoMemory) -> Stop {
        Stop::NoMemory
    }
}
