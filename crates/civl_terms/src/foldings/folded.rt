// What an operation is folded to.

use civl_bits::Value;

/// What an operation is: a node of its own, a constant, or one of its operands.
#[derive(Clone, Copy, Debug, PartialEq, Eq)]
pub enum Folded {
    New,
    Constant(Value),
    First,
    Second,
    Third,
}
