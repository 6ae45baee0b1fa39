//! Certificates: a clause set and a log of clauses that is to refute it, as one text that stands alone, in the manner of DIMACS ("Satisfiability: Suggested Format", 1993).
#![tactic(auto)]

mod fault;
mod heading;
pub mod laws;
mod memory;
mod reading;
mod trimming;
mod word;
mod writing;

pub use fault::CertificateFault;
pub use memory::Memory;
pub use reading::read_certificate;
pub use trimming::trim;
pub use writing::certificate;
