//! What the commands of certificates find, and their reports: one condition of a program with its certificate ([`make_proof`],
//! [`report_making`]), and a certificate whose log is replayed ([`replay_text`], [`report_replaying`]).

pub mod laws;
mod making;
mod memory;
mod replaying;
mod reports;

pub use making::{Making, make_proof};
pub use memory::Memory;
pub use replaying::{Replaying, replay_text};
pub use reports::{report_making, report_replaying};
