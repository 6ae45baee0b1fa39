//! The operators of expressions, at telling values.
ghost use Rattle.civl_firing.specs.examples.Operators.{ArithmeticAtEdges, BitsAtEdges, ShiftsAtEdges, DivisionByZero, OrdersAtTheTopBit, PartsOfWords, Literals, Connectives, EqualityOfEachSort, RowsReadAndWrite, MisfitsAreNothing};

/// Arithmetic, bits, shifts, divisions, orders, parts and literals of words, at their edges.
pub fn words()
    ensures arithmetic { ArithmeticAtEdges }
    ensures bits { BitsAtEdges }
    ensures shifts { ShiftsAtEdges }
    ensures division { DivisionByZero }
    ensures orders { OrdersAtTheTopBit }
    ensures parts { PartsOfWords }
    ensures literals { Literals }
{}

/// Connectives, equality of each sort, and rows.
pub fn bools_and_rows()
    ensures connectives { Connectives }
    ensures equality { EqualityOfEachSort }
    ensures rows { RowsReadAndWrite }
{}

/// Where sorts do not fit the value is the default.
pub fn misfits()
    ensures { MisfitsAreNothing }
{}
