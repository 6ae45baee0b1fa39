// Gates as keys, under which their outputs are found again.
ghost use Rattle.std.specs.Prelude.{◌≡◌};
ghost use Rattle.civl_circuits.specs.Hashing.{literal_of};

use civl_cnf::Lit;

/// A literal in a key.
#[derive(Clone, Copy, Debug, PartialEq, Eq, Hash)]
pub(crate) struct Operand {
    variable: u32,
    positive: bool,
}

/// A gate with its operands. A full adder is two, its sum and its carry.
#[derive(Clone, Copy, Debug, PartialEq, Eq, Hash)]
pub(crate) enum Gate {
    And(Operand, Operand),
    Xor(Operand, Operand),
    Ite(Operand, Operand, Operand),
    Sum(Operand, Operand, Operand),
    Carry(Operand, Operand, Operand),
}

impl Operand {
    /// The literal as an operand.
    pub(crate) fn new(lit: Lit) -> Operand
        ensures { literal_of result ≡ lit }
    {
        Operand {
            variable: lit.variable(),
            positive: lit.positive(),
        }
    }
}
