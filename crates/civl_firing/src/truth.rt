// Operators on bools, and the places of names.
ghost use Rattle.std.specs.Prelude.{◌≡◌};
ghost use Rattle.civl_firing.specs.Truth.{place_of, one_truth, two_truth};

use civl_tree::{List, Name, One, Two};

/// The place of the first of these names that is this one, or the number of the names where none is.
pub fn place(names: &List<Name>, name: &Name) -> usize
    ensures { result ≡ place_of names.now name.now }
{
    for at in 0..names.len() {
        if names.get(at).is_same(name) {
            return at;
        }
    }
    names.len()
}

/// What `!` gives; another operator gives false.
pub(crate) fn one(op: One, a: bool) -> bool
    ensures { result ≡ one_truth op a }
{
    match op {
        One::Not => !a,
        One::Flip | One::Minus => false,
    }
}

/// What `&&` and `||` give; another operator gives false.
pub(crate) fn two(op: Two, a: bool, b: bool) -> bool
    ensures { result ≡ two_truth op a b }
{
    match op {
        Two::And => a && b,
        Two::Or => a || b,
        _ => false,
    }
}
