// What a schedule gives.

use civl_meaning::{Stepped, Store};

/// What a list of moves gives from the start of a plain program.
///
/// `moved` is the number of moves that were made, from the first on. `stopped` is the answer of the next one, which wasn't
/// made; `None` where all were. `failing` is the least thread that fails in the last configuration, `None` where none
/// does, and `end` is the store there.
#[derive(Drop)]
pub struct Trace {
    pub moved: usize,
    pub stopped: Option<Stepped>,
    pub failing: Option<u32>,
    pub end: Store,
}
