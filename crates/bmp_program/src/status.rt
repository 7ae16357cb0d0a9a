//! How a run ended.
ghost use Rattle.std.specs.Prelude.{◌≡◌};
ghost use Rattle.std.specs.Process.{exit_status};
ghost use Rattle.bmp_program.specs.Statuses.{status_number};

use std::process::ExitCode;

/// How a run of the program ended. Where several would fit, the one that comes first in this order counts: `Usage`,
/// `ReadFault`, `TooLong`, `BadText`, `BadJob`, `GkmFailed`, `Refused`, `TableLimit`, and last `WriteFault`. `NoMemory`
/// may come anywhere.
#[derive(Clone, Copy, Debug, PartialEq, Eq)]
pub enum Status {
    /// All was done and written.
    Done,
    /// The certificate doesn't hold.
    Refused,
    /// The input is no text of what the command reads: a certificate or a job.
    BadText,
    /// The job breaks a rule.
    BadJob,
    /// At a vertex of the job's moment graph two edges have parallel labels.
    GkmFailed,
    /// The source failed.
    ReadFault,
    /// The sink failed.
    WriteFault,
    /// Memory was wanting.
    NoMemory,
    /// The input is longer than the limit.
    TooLong,
    /// A coefficient of the table is larger than the limit.
    TableLimit,
    /// The words are no command of the program.
    Usage,
}

impl Status {
    /// The number that the process ends with.
    pub fn number(self) -> u8
        ensures { result ≡ status_number self }
    {
        match self {
            Status::Done => 0,
            Status::Refused => 1,
            Status::BadText => 2,
            Status::BadJob => 3,
            Status::GkmFailed => 4,
            Status::ReadFault => 5,
            Status::WriteFault => 6,
            Status::NoMemory => 7,
            Status::TooLong => 8,
            Status::TableLimit => 9,
            Status::Usage => 64,
        }
    }

    /// What the process ends with.
    pub fn exit_code(self) -> ExitCode
        ensures { exit_status result ≡ status_number self }
    {
        ExitCode::from(self.number())
    }
}
