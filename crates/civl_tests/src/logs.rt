// Logs that are trimmed.

use civl_proofs::{certificate, read_certificate, trim};
use civl_rup::{Replay, replay};
use std::alloc::Global;

/// The clauses of a certificate with the lean log that is left of its own. There is none where that one doesn't refute them.
fn trimmed(alloc: Global, text: &str) -> Option<Vec<u8>> {
    let (cnf, log) = read_certificate(alloc, text.as_bytes()).ok()?;
    match replay(alloc, &cnf, &log).ok()? {
        Replay::Refutes => {
            let lean = trim(alloc, &cnf, &log).ok()?;
            certificate(alloc, &cnf, &lean).ok()
        }
        _ => None,
    }
}

/// Whether the empty clause alone is left of a log that has a clause more.
pub(crate) fn a_log_is_trimmed(alloc: Global, text: &str) -> Option<bool> {
    let lean = trimmed(alloc, text)?;
    let wanted = b"p cnf 1 2\n1 0\n-1 0\nlog\n0\n";
    Some(lean.as_slice() == wanted.as_slice())
}
