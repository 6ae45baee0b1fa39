// A term without rows.

use civl_terms::Id;
use civl_tree::List;

/// A cell of a variable that is a row: the variable's number, the cell's index, and the number of the variable that stands
/// for the cell.
#[derive(Clone, Copy, Debug, PartialEq, Eq)]
pub struct Cell {
    pub variable: u32,
    pub cell: u32,
    pub number: u32,
}

/// A term without rows, and the variables that stand for cells.
#[derive(Debug, Drop)]
pub struct Flat {
    pub id: Id,
    pub cells: List<Cell>,
}
