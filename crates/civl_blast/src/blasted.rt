// What blasting answers.

use civl_cnf::Cnf;
use civl_tree::List;

/// Where the bits of a variable's value stand: bit j of its cell `cell` is the clause variable `first + j`, bit 0 being the lowest. A bool or a word has cell 0 alone.
#[derive(Clone, Copy, Debug, PartialEq, Eq)]
pub struct Place {
    pub variable: u32,
    pub cell: u32,
    pub first: u32,
}

/// Clauses that stand for a term, and the places of its variables' values.
#[derive(Drop)]
pub struct Blasted {
    pub cnf: Cnf,
    pub places: List<Place>,
}
