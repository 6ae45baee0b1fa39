//! Laws of words of literals and of circuits. Each function computes nothing; its clauses are theorems about the definitions that the circuits' own clauses cite.
ghost use Rattle.civl_circuits.specs.Laws.{NumbersOfWords, BitsAreLiterals, NumbersFit, WordsJoin, ExtendsItself, ExtendsFurther, WordsStay};

/// The number of a word: two worked examples, its bits, its range, and that of two words side by side.
pub fn numbers()
    ensures examples { NumbersOfWords }
    ensures bits { BitsAreLiterals }
    ensures fit { NumbersFit }
    ensures join { WordsJoin }
{}

/// Extensions follow one another, and what a circuit has made stays.
pub fn extensions()
    ensures itself { ExtendsItself }
    ensures further { ExtendsFurther }
    ensures stay { WordsStay }
{}
