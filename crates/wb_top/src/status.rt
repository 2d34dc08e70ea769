//! How a call ends.

use check_report::Spent;
use v_design::Design;

/// How a call ends; its number is the program's exit status.
#[derive(Clone, Copy, PartialEq, Eq, Debug)]
pub enum Status {
    /// A report was written in which all obligations are `proved`, so every run of the design refines the model; or a simulation, or what
    /// is emitted of a model.
    Done,
    /// A report with a `failed` line was written.
    Failed,
    /// A report without `failed` lines was written in which an obligation is `unknown`.
    Unknown,
    /// The words ask for nothing that the program does.
    Usage,
    /// The files are not accepted.
    Refused,
    /// A file could not be read. Nothing was written.
    ReadFault,
    /// The text could not be written whole.
    WriteFault,
    /// Memory could not be found. Nothing was written.
    NoMemory,
    /// A file is longer than files may be; or a check has more bits of memory, or more micro-steps of an instruction, than it may have.
    Limit,
}

impl Status {
    ghost use Rattle.std.specs.Prelude.{◌≡◌};
    ghost use Rattle.wb_top.specs.StatusNumber.{number_of};

    /// The program's exit status.
    pub fn number(self) -> u8
        ensures { result ≡ number_of self }
    {
        match self {
            Status::Done => 0,
            Status::Failed => 1,
            Status::Unknown => 2,
            Status::Usage => 3,
            Status::Refused => 4,
            Status::ReadFault => 5,
            Status::WriteFault => 6,
            Status::NoMemory => 7,
            Status::Limit => 8,
        }
    }
}

/// What shows that the budget was spent on the `unknown` lines of a report.
#[derive(Drop)]
pub struct AllSpent {
    /// The design, whose registers and inputs the formulas speak of.
    pub design: Design,
    /// For each `unknown` line, in order, its formula and the lemmas on which the budget was spent.
    pub entries: Vec<Spent>,
}

/// What a call answers.
#[derive(Drop)]
pub struct Ended {
    pub status: Status,
    /// Beside a report, what shows that the budget was spent.
    pub spent: Option<AllSpent>,
}
