// A certificate that is read and replayed.
ghost use Rattle.std.specs.Prelude.{IfOk};
ghost use Rattle.civl_certify.specs.proof_reports.Replaying.{IsReplaying};

use crate::proof_reports::Memory;
use civl_proofs::{CertificateFault, read_certificate};
use civl_rup::{Replay, replay};
use std::alloc::Global;

/// What is found of a text that is to be a certificate.
#[derive(Clone, Copy, Debug, PartialEq, Eq)]
pub enum Replaying {
    /// It is none: the bytes before this place begin one, and with the byte there, or with the end, they don't.
    Unread(usize),
    /// It is one, and the replay of its log finds this.
    Read(Replay),
}

/// What is found of any text: its first fault where it is no certificate, and else what the replay of its log finds.
///
/// # Errors
///
/// For want of memory.
pub fn replay_text(alloc: Global, bytes: &[u8]) -> Result<Replaying, Memory>
    ensures { IfOk result (IsReplaying bytes.now) }
{
    match read_certificate(alloc, bytes) {
        Ok((cnf, log)) => {
            let found = replay(alloc, &cnf, &log)?;
            Ok(Replaying::Read(found))
        }
        Err(CertificateFault::At(place)) => Ok(Replaying::Unread(place)),
        Err(CertificateFault::Memory) => Err(Memory),
    }
}
