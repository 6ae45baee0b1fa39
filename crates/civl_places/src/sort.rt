// How many tokens sorts have.
ghost use Rattle.std.specs.Prelude.{◌≡◌, length};
ghost use Rattle.civl_tree.specs.Spelling.{spell_sort};

use civl_tree::Sort;

/// The tokens of a sort.
pub(crate) fn sort_count(sort: Sort) -> usize
    ensures { result ≡ length (spell_sort sort) }
{
    match sort {
        Sort::Bool => 1,
        Sort::Word(_) => 4,
        Sort::Row(_, _) => 6,
    }
}
