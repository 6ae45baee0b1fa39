// A row of words.
ghost use Rattle.std.specs.Prelude.{◌≡◌, ◌^◌, ◌≤◌, ◌<◌, length};
ghost use Rattle.civl_bits.specs.Row.{IsRow, cell_at, row_with, filled_row};

use crate::Word;
use std::marker::Model;

/// A row: an array with one word for each index of 1 to 6 bits, so of 2 to 64 cells, each of one width.
///
/// Contracts see it as the index's width, the cells' width and the list of the cells' values. Its calls
/// are those of SMT-LIB's ArraysEx.
#[derive(Clone, Copy, Debug, Hash)]
pub struct Row {
    index: u32,
    width: u32,
    cells: [u32; 64],
}

impl Model for Row {
    ghost use Rattle.civl_bits.specs.Row.{Cells, padded, row_in, HoldsRow, padded_again};

    ghost Value = { Cells };

    ghost view = { row_in };

    ghost invariant = { HoldsRow };

    ghost inverse = { λ d. record { index = d.index; width = d.width; cells = padded d.cells } };

    ghost inverse_ok = { padded_again };
}

impl PartialEq for Row {
    ghost use Rattle.civl_bits.specs.Row.{same_row, IsEquivalence-same_row};
    ghost use Rattle.std.specs.Cmp.{partial_equiv_from_equiv};

    ghost eq = { same_row };

    ghost laws = { partial_equiv_from_equiv IsEquivalence-same_row };

    fn eq(&self, other: &Row) -> bool {
        self.index == other.index && self.width == other.width && self.cells == other.cells
    }
}

impl Eq for Row {
    ghost use Rattle.civl_bits.specs.Row.{IsEquivalence-same_row};

    ghost laws = { IsEquivalence-same_row };
}

fn cells_at(index: u32) -> u32
    requires { index ≤ 6 }
    ensures is { result ≡ 2 ^ index }
    ensures few { result ≤ 64 }
{
    1 << index
}

impl Row {
    /// The row for indices of `index` bits, 1 to 6, whose cells are all this one.
    pub fn fill(index: u32, cell: Word) -> Row
        requires low { 1 ≤ index }
        requires high { index ≤ 6 }
        ensures { result ≡ filled_row index cell.0 cell.1 }
    {
        let value = cell.value();
        let mut cells = [0u32; 64];
        for at in 0..cells_at(index) as usize {
            cells[at] = value;
        }
        Row {
            index,
            width: cell.width(),
            cells,
        }
    }

    /// The cell at this index, a word of as many bits as the row's indices have (select).
    pub fn get(&self, at: Word) -> Word
        requires { at.0 ≡ self.now.index }
        ensures { result ≡ (self.now.width, cell_at self.now at.1) }
    {
        Word::of(self.width, self.cells[at.value() as usize])
    }

    /// The row with this cell at this index; the others stay. The widths are those of the row's indices
    /// and cells (store).
    pub fn set(&self, at: Word, cell: Word) -> Row
        requires index { at.0 ≡ self.now.index }
        requires width { cell.0 ≡ self.now.width }
        ensures { result ≡ row_with self.now at.1 cell.1 }
    {
        let mut cells = self.cells;
        let place = at.value();
        let value = cell.value();
        cells[place as usize] = value;
        Row {
            index: self.index,
            width: self.width,
            cells,
        }
    }

    /// The number of bits of an index, 1 to 6.
    pub fn index(&self) -> u32
        ensures is { result ≡ self.now.index }
        ensures row { IsRow self.now }
    {
        self.index
    }

    /// The number of bits of a cell, 1 to 32.
    pub fn width(&self) -> u32
        ensures is { result ≡ self.now.width }
        ensures row { IsRow self.now }
    {
        self.width
    }

    /// The number of cells, 2 to the number of bits of an index.
    pub fn size(&self) -> u32
        ensures is { result ≡ 2 ^ self.now.index }
        ensures cells { result ≡ length self.now.cells }
    {
        cells_at(self.index)
    }

    /// The cell at this place, which is below the number of cells.
    pub fn cell(&self, at: u32) -> Word
        requires { at < 2 ^ self.now.index }
        ensures { result ≡ (self.now.width, cell_at self.now at) }
    {
        Word::of(self.width, self.cells[at as usize])
    }
}
