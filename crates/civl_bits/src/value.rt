// Values.
ghost use Rattle.std.specs.Prelude.{◌≡◌, ◌↔◌, IsTrue};

use crate::{Row, Word};

/// A value: a truth value, a word or a row of words.
#[derive(Clone, Copy, Debug, PartialEq, Eq, Hash)]
pub enum Value {
    Bool(bool),
    Word(Word),
    Row(Row),
}

impl Value {
    ghost use Rattle.civl_bits.specs.Value.{same_value};

    /// Whether two values are of one sort and the same.
    pub fn same(&self, other: &Value) -> bool
        ensures is { result ≡ same_value self.now other.now }
        ensures exact { IsTrue result ↔ (self.now ≡ other.now) }
    {
        self == other
    }
}
