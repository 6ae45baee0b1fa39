// Marks on the nodes that a term reaches.
ghost use Rattle.std.specs.Prelude.{◌≡◌, ℕ, ◌<◌, ◌||◌, length, IfOk};
ghost use Rattle.civl_terms.specs.Graphs.{PartsBelow};
ghost use Rattle.civl_terms.specs.Weights.{is_part};
ghost use Rattle.civl_blast.specs.reach.Marks.{marked, IsMarking};

use crate::reach::memory::Memory;
use civl_terms::{Id, Node, Terms};
use std::alloc::Global;

/// Marks the parts of a node.
fn mark_parts(marks: &mut [bool], node: &Node)
    requires { PartsBelow (length marks.old) node.now }
    ensures size { length marks.new ≡ length marks.old }
    ensures parts { (k : ℕ) → marked marks.new k ≡ (marked marks.old k || is_part node.now k) }
{
    match node {
        Node::Constant(_) | Node::Variable(_, _) => {}
        Node::One(_, a) | Node::Fill(_, a) | Node::Slice(a, _, _) | Node::Widen(a, _) => {
            marks[*a] = true;
        }
        Node::Two(_, a, b) | Node::Get(a, b) | Node::Join(a, b) => {
            marks[*a] = true;
            marks[*b] = true;
        }
        Node::Pick(a, b, c) | Node::Set(a, b, c) => {
            marks[*a] = true;
            marks[*b] = true;
            marks[*c] = true;
        }
    }
}

/// The marks of the nodes that a term reaches, up to the term.
///
/// Goes down from the term. Each part has a smaller number, so a node is marked before its turn comes.
///
/// # Errors
///
/// For want of memory.
pub fn marks(alloc: Global, terms: &Terms, id: Id) -> Result<Vec<bool>, Memory>
    requires { id < length terms.now }
    ensures { IfOk result (λ marks. IsMarking terms.now id 0 marks.items) }
{
    let _count = terms.len();
    let mut marks: Vec<bool> = vec![in alloc; false; id + 1]?;
    marks[id] = true;
    for done in 0..id + 1 {
        let at = id - done;
        if marks[at] {
            mark_parts(marks.as_mut_slice(), terms.node(at));
        }
    }
    Ok(marks)
}
