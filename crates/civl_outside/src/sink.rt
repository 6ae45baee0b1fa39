// Where bytes go.
ghost use Rattle.std.specs.Prelude.{◌≤◌, List, ℕ, length, Option};
ghost use Rattle.civl_outside.specs.Wrote.{WritesAtMost, GivesTo, WriteRaises, WriteStalls};

/// What one write took.
#[derive(Clone, Copy, Debug, PartialEq, Eq)]
pub enum Wrote {
    /// So many bytes, from the front of the piece.
    Bytes(usize),
    /// The sink failed, and took nothing.
    Failed,
}

/// A sink for bytes, written in pieces as std's `Write`: a write may take fewer bytes than it is given.
pub trait Sink {
    /// The bytes taken so far, where the sink tells them.
    ghost written: { Self → Option (List ℕ) };

    /// How often the sink has failed. It never falls, and stays at the last number of a u64.
    ghost faults: { Self → ℕ };

    /// How often the sink took nothing of a piece that isn't empty. It never falls, and stays at the last number
    /// of a u64.
    ghost stalls: { Self → ℕ };

    /// Takes some of the bytes, from the front.
    fn write(&mut self, bytes: &[u8]) -> Wrote
        ensures bound { WritesAtMost result (length bytes.now) }
        ensures bytes { GivesTo (written self.old) (written self.new) result bytes.now }
        ensures fault { WriteRaises result (faults self.old) (faults self.new) }
        ensures stall { WriteStalls result (length bytes.now) (stalls self.old) (stalls self.new) }
        ensures faults_never_fall { faults self.old ≤ faults self.new }
        ensures stalls_never_fall { stalls self.old ≤ stalls self.new };
}
