//! The front end of a command: from the bytes of an input to a program, a script or an outline that keeps the static rules, or to the
//! refusal that belongs to it.
//!
//! A text is read as what it spells ([`read_program`], [`read_script`], [`read_outline`]), or has a first fault; a program keeps all static
//! rules ([`admitted`]), or breaks a first one. Each refusal has its report. What a command writes is made whole first ([`Judged`]), and
//! the status ([`Status`]) belongs to it; the exit code is that of the status.
//!
//! What is said of the two streams, and of a command that tells what it finds of its input, stands in specs/ (`Streams`, `Told`), for
//! whatever is found.
#![tactic(auto)]

mod admission;
mod judged;
mod reader;
mod report;
mod status;

pub use admission::admitted;
pub use judged::{Judged, LIMIT, Report};
pub use reader::{Fault, Text, read_outline, read_program, read_script};
pub use report::{
    put_failing, put_place, report_fault, report_long, report_misfit, report_refusal,
};
pub use status::{Status, verdict_status};
