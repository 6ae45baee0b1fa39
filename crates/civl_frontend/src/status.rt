// How the program ends.
ghost use Rattle.std.specs.Prelude.{◌≡◌, ◌==◌};
ghost use Rattle.civl_frontend.specs.Status.{code_of, verdict_status};

use civl_verdicts::Verdict;

/// How a call of a command ended.
#[derive(Clone, Copy, Debug, PartialEq, Eq)]
pub enum Status {
    /// The program was accepted, or the command did what it says. The code is 0.
    Done,
    /// A condition of the program that is checked doesn't hold. The code is 1.
    Rejected,
    /// The budget of a search was spent on the program that is checked. The code is 2.
    Undecided,
    /// The text is refused. The code is 3.
    Refused,
    /// The source failed. The code is 4.
    ReadFault,
    /// The sink failed, or took nothing more. The code is 5.
    WriteFault,
    /// The words are no command. The code is 6.
    Usage,
    /// Memory is wanting. The code is 7.
    Memory,
}

impl Status {
    /// The exit code, from 0 to 7.
    pub fn code(self) -> u8
        ensures { result ≡ code_of self }
    {
        match self {
            Status::Done => 0,
            Status::Rejected => 1,
            Status::Undecided => 2,
            Status::Refused => 3,
            Status::ReadFault => 4,
            Status::WriteFault => 5,
            Status::Usage => 6,
            Status::Memory => 7,
        }
    }

    /// Whether memory is wanting.
    pub fn wants_memory(self) -> bool
        ensures { result ≡ (code_of self == 7) }
    {
        self.code() == 7
    }
}

/// The status of a verdict.
pub fn verdict_status(verdict: &Verdict) -> Status
    ensures { result ≡ verdict_status verdict.now }
{
    match verdict {
        Verdict::Accepted(_) => Status::Done,
        Verdict::Rejected(_) => Status::Rejected,
        Verdict::Undecided(_, _) => Status::Undecided,
        Verdict::NoInitial => Status::Refused,
    }
}
