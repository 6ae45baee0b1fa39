// Sorts and expressions.

use crate::boxed::Boxed;
use crate::name::Name;

/// The sort of a value: a bool, a word of so many bits, or a row of 2 to the `index` words of `width` bits, as
/// `Row(index, width)`. A tree may have any numbers here; the static rules bound them.
#[derive(Clone, Copy, Debug, PartialEq, Eq, Hash)]
pub enum Sort {
    Bool,
    Word(u32),
    Row(u32, u32),
}

/// The operations with one operand: `!`, `~` and `-`.
#[derive(Clone, Copy, Debug, PartialEq, Eq, Hash)]
pub enum One {
    Not,
    Flip,
    Minus,
}

/// The operations with two operands, in the order of the grammar. The last five belong to version 2.
#[derive(Clone, Copy, Debug, PartialEq, Eq, Hash)]
pub enum Two {
    Add,
    Sub,
    Mul,
    BitAnd,
    BitOr,
    BitXor,
    Shl,
    Shr,
    Lt,
    Le,
    Eq,
    Ne,
    And,
    Or,
    Implies,
    Udiv,
    Urem,
    Slt,
    Sle,
    Sar,
}

/// An expression. `Literal(value, width)` is `value:width`; `Fill(index, cell)`, `Slice(word, high, low)` and
/// `Widen(word, width)` have their numbers where the text has them.
#[derive(Drop)]
pub enum Expr {
    Name(Name),
    Literal(u32, u32),
    True,
    False,
    Done,
    Old(Name),
    OldDone,
    One(One, Boxed<Expr>),
    Two(Two, Boxed<Expr>, Boxed<Expr>),
    Pick(Boxed<Expr>, Boxed<Expr>, Boxed<Expr>),
    Get(Boxed<Expr>, Boxed<Expr>),
    Set(Boxed<Expr>, Boxed<Expr>, Boxed<Expr>),
    Fill(u32, Boxed<Expr>),
    Slice(Boxed<Expr>, u32, u32),
    Widen(Boxed<Expr>, u32),
    Join(Boxed<Expr>, Boxed<Expr>),
}
