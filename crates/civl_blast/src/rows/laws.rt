//! Laws of the definitions. Each function computes nothing; its clauses are theorems.
ghost use Rattle.std.specs.Prelude.{◌≡◌, ℕ, true, Some};
ghost use Rattle.civl_bits.specs.declared.value.Value.{Value};
ghost use Rattle.civl_bits.specs.declared.value.Value.TheVariants as value;
ghost use Rattle.civl_tree.specs.declared.expr.Sort.TheVariants as sort;
ghost use Rattle.civl_blast.specs.reach.Reaching.{Reaches, IsRowless};
ghost use Rattle.civl_blast.specs.rows.Cells.{cell_of, cells_in, cell_sort, next_number, Reads, HasEntries};
ghost use Rattle.civl_blast.specs.examples.Rows.{cell_bits, pair, example, example_cells, example_array};

/// The cells of the array of 5 and 9, and the numbers that stand for them after 3, the greatest of the worked graph.
pub fn worked_cells()
    ensures first { cell_of example_array 0 ≡ value.Word (cell_bits, 5) }
    ensures second { cell_of example_array 1 ≡ value.Word (cell_bits, 9) }
    ensures own { cell_of (value.Bool true) 0 ≡ value.Bool true }
    ensures count { cells_in (Some pair) ≡ 2 }
    ensures sort { cell_sort (Some pair) ≡ Some (sort.Word cell_bits) }
    ensures next { next_number example ≡ 4 }
    ensures reads { (env : ℕ → Value) → env 3 ≡ example_array → env 4 ≡ value.Word (cell_bits, 5) → env 5 ≡ value.Word (cell_bits, 9) → Reads env example_cells }
{}

/// The term of the worked graph reaches the row, so it isn't without rows; its entries are those of the two cells.
pub fn worked_term()
    ensures reaches { Reaches example 4 0 }
    ensures rows { IsRowless example 4 → ⊥ }
    ensures entries { HasEntries example 4 example_cells }
{}
