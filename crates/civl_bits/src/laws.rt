//! Laws of the operations. Each function computes nothing; its clauses are theorems about the definitions
//! that the operations' own clauses cite.
ghost use Rattle.civl_bits.specs.WordLaws.{BitsDetermine, AndActsOnBits, OrActsOnBits, XorActsOnBits, ComplementActsOnBits, LeftShiftMovesBits, RightShiftMovesBits, ArithmeticRightShiftMovesBits, LeftShiftMultiplies, RightShiftDivides, SliceTakesBits, ConcatenationPlacesBits, WideningAddsZeros, SlicesConcatenate, SumUndoesDifference, NegativeIsInverse, DifferenceAddsNegative, NegativeIsComplementAndOne, QuotientAndRemainder, SignedNumbers, SignedOrderByTopBits, OperationsStayInWidth, SliceFits, ConcatenationFits};
ghost use Rattle.civl_bits.specs.RowLaws.{ReadOverWriteSame, ReadOverWriteOther, ReadOfFill, CellsDetermine, WritesStayRows, FillsAreRows};
ghost use Rattle.civl_bits.specs.ValueLaws.{SameWordIsEquality, SameRowIsEquality, SameValueIsEquality};

/// The bitwise operations act on each bit alone, and a value is known by its bits.
pub fn bitwise()
    ensures and { AndActsOnBits }
    ensures or { OrActsOnBits }
    ensures xor { XorActsOnBits }
    ensures complement { ComplementActsOnBits }
    ensures determined { BitsDetermine }
{}

/// Where the shifts move each bit, and the standard's formulas for them.
pub fn shifts()
    ensures left { LeftShiftMovesBits }
    ensures right { RightShiftMovesBits }
    ensures arithmetic { ArithmeticRightShiftMovesBits }
    ensures multiplies { LeftShiftMultiplies }
    ensures divides { RightShiftDivides }
{}

/// Which bits a slice, a join and a widened word have.
pub fn parts()
    ensures slice { SliceTakesBits }
    ensures join { ConcatenationPlacesBits }
    ensures widen { WideningAddsZeros }
    ensures again { SlicesConcatenate }
{}

/// The sum, the difference and the negative are those of the numbers modulo 2 to the width.
pub fn ring()
    ensures difference { SumUndoesDifference }
    ensures negative { NegativeIsInverse }
    ensures adds { DifferenceAddsNegative }
    ensures complement { NegativeIsComplementAndOne }
{}

/// Quotient and remainder are those of division with remainder.
pub fn division()
    ensures { QuotientAndRemainder }
{}

/// The signed order is that of two's complement.
pub fn signed_order()
    ensures numbers { SignedNumbers }
    ensures top_bits { SignedOrderByTopBits }
{}

/// The result of each operation fits its width.
pub fn widths()
    ensures operations { OperationsStayInWidth }
    ensures slice { SliceFits }
    ensures join { ConcatenationFits }
{}

/// Rows are arrays: what a read gives after a write or a fill, and that a row is known by its cells.
pub fn arrays()
    ensures same { ReadOverWriteSame }
    ensures other { ReadOverWriteOther }
    ensures fill { ReadOfFill }
    ensures determined { CellsDetermine }
    ensures writes { WritesStayRows }
    ensures fills { FillsAreRows }
{}

/// The tests of equality that clauses cite hold exactly of equal words, rows and values.
pub fn equality()
    ensures words { SameWordIsEquality }
    ensures rows { SameRowIsEquality }
    ensures values { SameValueIsEquality }
{}
