// The numbers of variables.
ghost use Rattle.std.specs.Prelude.{◌≡◌, ℕ, ◌≤◌, ◌^◌, Some, slice_get};
ghost use Rattle.civl_terms.specs.declared.node.Node.{Node};
ghost use Rattle.civl_terms.specs.declared.node.Node.TheVariants as node;
ghost use Rattle.civl_blast.specs.rows.Cells.{next_number, number_above};

use civl_terms::{Node, Terms};

/// The number after a variable's, and 0 for another node.
fn number_above(node: &Node) -> u32
    requires { number_above node.now ≤ 2 ^ 31 }
    ensures { result ≡ number_above node.now }
{
    match node {
        Node::Variable(number, _) => *number + 1,
        _ => 0,
    }
}

/// The least number above those of all variables.
pub(crate) fn next_number(terms: &Terms) -> u32
    requires { (i : ℕ) (n : Node) → slice_get terms.now i ≡ Some n → number_above n ≤ 2 ^ 31 }
    ensures is { result ≡ next_number terms.now }
    ensures low { result ≤ 2 ^ 31 }
{
    let mut next = 0;
    for at in 0..terms.len() {
        next = next.max(number_above(terms.node(at)));
    }
    next
}
