// Reading to the end.
ghost use Rattle.std.specs.Prelude.{◌≡◌, ◌≤◌};
ghost use Rattle.civl_outside.specs.Count.{Rose};
ghost use Rattle.civl_outside.specs.Whole.{WholeFrom};

use crate::{Source, Took};
use std::alloc::Global;

/// What reading to the end gave.
#[derive(Debug, Drop)]
pub enum Whole {
    /// All the bytes that were left, no more than the limit.
    Bytes(Vec<u8>),
    /// More bytes than the limit: one more than the limit was read.
    Long,
    /// The source failed, after it gave no more bytes than the limit.
    Failed,
    /// Memory was refused.
    Memory,
}

/// How many bytes one read asks for at most.
const PIECE: usize = 4096;

/// Reads to the end, or to one byte past the limit, in pieces of up to 4096 bytes.
/// A source is at its end where it says so or gives no bytes.
///
/// # Answers
///
/// [`Whole::Failed`] where the source failed, [`Whole::Memory`] for want of memory, [`Whole::Long`] where there are more bytes
/// than the limit, and else [`Whole::Bytes`] with all of them.
pub fn read_whole<S: Source>(alloc: Global, source: &mut S, limit: usize) -> Whole
    ensures bytes { WholeFrom (S.left source.old) (S.left source.new) limit result }
    ensures failed { result ≡ Whole.Failed → Rose (S.faults source.old) (S.faults source.new) }
    ensures never_falls { S.faults source.old ≤ S.faults source.new }
{
    let mut bytes: Vec<u8> = Vec::new(alloc);
    let mut piece = [0u8; PIECE];
    while bytes.len() <= limit {
        let room = (limit - bytes.len()).min(PIECE - 1) + 1;
        match source.read(&mut piece[..room]) {
            Took::End => return Whole::Bytes(bytes),
            Took::Bytes(0) => return Whole::Bytes(bytes),
            Took::Bytes(count) => {
                if bytes.extend_from_slice(&piece[..count]).is_err() {
                    return Whole::Memory;
                }
            }
            Took::Failed => return Whole::Failed,
        }
    }
    Whole::Long
}
