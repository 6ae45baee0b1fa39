// Writing all of some bytes.
ghost use Rattle.std.specs.Prelude.{◌≡◌, ◌≤◌, []};
ghost use Rattle.civl_outside.specs.Count.{Rose, Stayed};
ghost use Rattle.civl_outside.specs.Sent.{SendsTo};

use crate::{Sink, Wrote};

/// How writing all of some bytes ended.
#[derive(Clone, Copy, Debug, PartialEq, Eq)]
pub enum Sent {
    /// The sink took all the bytes.
    All,
    /// The sink failed. It took a first part of the bytes.
    Failed,
    /// The sink took nothing of what was left. It took a first part of the bytes.
    Stuck,
}

/// Writes all the bytes, in as many calls as it takes, up to the first that fails or takes nothing.
/// It takes no memory, and no bytes want no call.
///
/// # Answers
///
/// [`Sent::Failed`] where a call failed, [`Sent::Stuck`] where one took nothing, and else [`Sent::All`].
pub fn write_all<K: Sink>(sink: &mut K, bytes: &[u8]) -> Sent
    ensures bytes { SendsTo (K.written sink.old) (K.written sink.new) result bytes.now }

    // No bytes want no call.
    ensures unwritten { bytes.now ≡ [] → sink.new ≡ sink.old }
    ensures empty { bytes.now ≡ [] → result ≡ Sent.All }

    // Each answer but `All` has its cause, so where neither count rose all the bytes were taken.
    ensures failed { result ≡ Sent.Failed → Rose (K.faults sink.old) (K.faults sink.new) }
    ensures stuck { result ≡ Sent.Stuck → Rose (K.stalls sink.old) (K.stalls sink.new) }
    ensures all { Stayed (K.faults sink.old) (K.faults sink.new)
        → Stayed (K.stalls sink.old) (K.stalls sink.new) → result ≡ Sent.All }

    ensures faults_never_fall { K.faults sink.old ≤ K.faults sink.new }
    ensures stalls_never_fall { K.stalls sink.old ≤ K.stalls sink.new }
{
    let mut at = 0;
    while at < bytes.len() {
        match sink.write(&bytes[at..]) {
            Wrote::Bytes(0) => return Sent::Stuck,
            Wrote::Bytes(count) => at += count,
            Wrote::Failed => return Sent::Failed,
        }
    }
    Sent::All
}
