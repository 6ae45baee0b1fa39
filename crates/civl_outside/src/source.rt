// Where bytes come from.
ghost use Rattle.std.specs.Prelude.{◌≤◌, ◌<◌, List, ℕ, length, Option};
ghost use Rattle.civl_outside.specs.Took.{TakesAtMost, TakesFrom, ReadRaises};

/// What one read gave.
#[derive(Clone, Copy, Debug, PartialEq, Eq)]
pub enum Took {
    /// So many bytes, in the front of the buffer. A reader treats 0 of them as the end.
    Bytes(usize),
    /// No bytes are left.
    End,
    /// The source failed, and its bytes stay.
    Failed,
}

/// A source of bytes, read in pieces as std's `Read`: a read may give fewer bytes than there is room for.
///
/// Where a source tells the bytes still to come, the contract says which bytes each read gives. A source
/// that tells none, as a terminal, is bound by the lengths and the count of faults alone.
pub trait Source {
    /// The bytes still to come, where the source tells them.
    ghost left: { Self → Option (List ℕ) };

    /// How often the source has failed. It never falls, and stays at the last number of a u64.
    ghost faults: { Self → ℕ };

    /// Reads some bytes into the front of `into`, which isn't empty. What stands behind them in `into` is free.
    fn read(&mut self, into: &mut [u8]) -> Took
        requires { 0 < length into.old }
        ensures bound { TakesAtMost result (length into.old) }
        ensures bytes { TakesFrom (left self.old) (left self.new) result into.new }
        ensures cause { ReadRaises result (faults self.old) (faults self.new) }
        ensures never_falls { faults self.old ≤ faults self.new };
}
