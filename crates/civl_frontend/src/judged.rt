// What is written, and the status if that is written whole.
ghost use Rattle.std.specs.Prelude.{◌≡◌};

use crate::status::Status;

/// The most bytes that an input with a program, a script or an outline may have.
pub const LIMIT: usize = 1_048_576;

/// A report: a fixed text, or one that was made.
#[derive(Drop)]
pub enum Report {
    /// It is always the same.
    Fixed(&'static [u8]),
    /// It was made of what was found.
    Made(Vec<u8>),
}

impl Report {
    ghost use Rattle.civl_frontend.specs.Report.{bytes_of};

    /// The bytes of the report.
    pub fn as_slice(&self) -> &[u8]
        ensures { result.now ≡ bytes_of self.now }
    {
        match self {
            Report::Fixed(text) => text,
            Report::Made(text) => text.as_slice(),
        }
    }
}

/// What to write, and the status if that is written whole.
#[derive(Drop)]
pub struct Judged {
    /// How the command ends.
    pub status: Status,
    /// What it writes.
    pub report: Report,
}

impl Judged {
    ghost use Rattle.civl_frontend.specs.Report.{bytes_of};
    ghost use Rattle.civl_frontend.specs.Told.{WantsMemory};

    /// Memory is wanting, so nothing is written.
    pub fn wanting() -> Judged
        ensures { WantsMemory result.status (bytes_of result.report) }
    {
        Judged {
            status: Status::Memory,
            report: Report::Fixed(b""),
        }
    }
}
