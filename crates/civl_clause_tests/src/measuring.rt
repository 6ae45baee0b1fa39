// What a graph of terms weighs, and whether its variables' numbers are small: what blasting asks for, found out by going over the graph.
ghost use Rattle.std.specs.Prelude.{◌≡◌, ℕ, ◌≤◌, ◌<◌, ◌^◌, length, Some, IsSome, IsTrue, IfSome};
ghost use Rattle.civl_tree.specs.declared.expr.Sort.{Sort};
ghost use Rattle.civl_tree.specs.rules.StoreSize.{bits_of};
ghost use Rattle.civl_firing.specs.values.Weights.{one_weight, two_weight, set_weight};
ghost use Rattle.civl_firing.specs.values.Values.{is_sort};
ghost use Rattle.civl_terms.specs.declared.node.Node.TheVariants.{Variable};
ghost use Rattle.civl_terms.specs.Graphs.{sort_at, IsFree};
ghost use Rattle.civl_terms.specs.Weights.{own_weight, graph_weight};
ghost use Rattle.civl_blast.specs.rows.Cells.{NumbersBelow};

use civl_bits::{Row, Word};
use civl_terms::{Id, Memory, Node, Terms};
use civl_tree::{One, Sort, Two};

/// How many cells a row with indices of so many bits has.
fn cells(index: u32) -> Option<u32>
    ensures is { IfSome result (λ n. n ≡ 2 ^ index) }
    ensures few { IfSome result (λ n. n ≤ 64) }
{
    match index {
        1 => Some(2),
        2 => Some(4),
        3 => Some(8),
        4 => Some(16),
        5 => Some(32),
        6 => Some(64),
        _ => None,
    }
}

/// The bits of a value of a sort.
fn bits(sort: Sort) -> Option<u32>
    ensures is { IfSome result (λ n. n ≡ bits_of sort) }
    ensures few { IfSome result (λ n. n ≤ 2048) }
{
    match sort {
        Sort::Bool => Some(1),
        Sort::Word(width) if width <= 32 => Some(width),
        Sort::Row(index, width) if width <= 32 => {
            let cells = cells(index)?;
            Some(width * cells)
        }
        _ => None,
    }
}

fn weight_of_two(op: Two, bits: u32) -> u32
    requires { bits ≤ 2048 }
    ensures { result ≡ two_weight op bits }
{
    match op {
        Two::Add | Two::Sub | Two::Lt | Two::Le | Two::Slt | Two::Sle => 2 * bits,
        Two::Mul => 2 * bits * bits,
        Two::BitAnd | Two::BitOr | Two::BitXor | Two::Eq | Two::Ne => bits,
        Two::Shl | Two::Shr | Two::Sar => 6 * bits,
        Two::And | Two::Or | Two::Implies => 1,
        Two::Udiv | Two::Urem => 4 * bits * bits,
    }
}

fn weight_of_one(op: One, bits: u32) -> u32
    requires { bits ≤ 2048 }
    ensures { result ≡ one_weight op bits }
{
    match op {
        One::Not => 1,
        One::Flip => bits,
        One::Minus => 2 * bits,
    }
}

fn weight_of_set(row: Sort) -> Option<u32>
    ensures { IfSome result (λ w. w ≡ set_weight (Some row)) }
{
    match row {
        Sort::Row(index, width) if width <= 32 && index <= 6 => {
            let cells = cells(index)?;
            Some((width + index) * cells)
        }
        Sort::Row(_, _) => None,
        _ => Some(0),
    }
}

/// The own weight of a node.
fn weight_at(terms: &Terms, at: Id) -> Option<u32>
    requires { at < length terms.now }
    ensures { IfSome result (λ w. w ≡ own_weight terms.now at) }
{
    match terms.node(at) {
        Node::Constant(_) => Some(0),
        Node::Variable(_, sort) => {
            let own = bits(*sort)?;
            Some(own)
        }
        Node::One(op, a) => {
            let bits = bits(terms.sort(*a))?;
            Some(weight_of_one(*op, bits))
        }
        Node::Two(op, a, _) => {
            let bits = bits(terms.sort(*a))?;
            Some(weight_of_two(*op, bits))
        }
        Node::Pick(_, a, _) => {
            let own = bits(terms.sort(*a))?;
            Some(own)
        }
        Node::Get(row, _) => {
            let own = bits(terms.sort(*row))?;
            Some(own)
        }
        Node::Set(row, _, _) => {
            let own = weight_of_set(terms.sort(*row))?;
            Some(own)
        }
        Node::Fill(_, _) | Node::Slice(_, _, _) | Node::Widen(_, _) | Node::Join(_, _) => Some(1),
    }
}

/// Whether a node is no variable with a large number.
fn is_small(node: &Node) -> bool
    ensures { IsTrue result → (k : ℕ) (s : Sort) → node.now ≡ Variable k s → k < 2 ^ 31 }
{
    match node {
        Node::Variable(number, _) => *number < 2147483648,
        _ => true,
    }
}

/// The weight of a graph whose variables have small numbers.
pub fn measure(terms: &Terms) -> Option<u32>
    ensures weight { IfSome result (λ w. graph_weight terms.now ≡ w) }
    ensures numbers { IsSome result → NumbersBelow (2 ^ 31) terms.now }
{
    let mut total: u32 = 0;
    for at in 0..terms.len() {
        if !is_small(terms.node(at)) {
            return None;
        }
        let own = weight_at(terms, at)?;
        total = total.checked_add(own)?;
    }
    Some(total)
}

/// Whether a node is no variable with this number and another sort.
fn agrees(node: &Node, number: u32, sort: Sort) -> bool
    ensures { IsTrue result → (t : Sort) → node.now ≡ Variable number t → t ≡ sort }
{
    match node {
        Node::Variable(other, found) => *other != number || *found == sort,
        _ => true,
    }
}

fn is_free(terms: &Terms, number: u32, sort: Sort) -> bool
    ensures { IsTrue result → IsFree terms.now number sort }
{
    for at in 0..terms.len() {
        if !agrees(terms.node(at), number, sort) {
            return false;
        }
    }
    true
}

/// The variable with this number and this sort, where the number has no other.
pub fn variable(terms: &mut Terms, number: u32, sort: Sort) -> Result<Option<Id>, Memory>
    requires { IsTrue (is_sort sort) }
{
    let free = is_free(terms, number, sort);
    if !free {
        return Ok(None);
    }
    let id = terms.variable(number, sort)?;
    Ok(Some(id))
}

/// Whether a number is that of a node of this sort.
pub fn has_sort(terms: &Terms, id: Id, sort: Sort) -> bool
    ensures within { IsTrue result → id < length terms.now }
    ensures sort { IsTrue result → sort_at terms.now id ≡ Some sort }
{
    if id >= terms.len() {
        return false;
    }
    terms.sort(id) == sort
}

/// The row of two cells of 2 bits, where both numbers are below 4.
pub fn pair(first: u32, second: u32) -> Option<Row> {
    let first = Word::new(2, first)?;
    let second = Word::new(2, second)?;
    let behind = Word::new(1, 1)?;
    Some(Row::fill(1, first).set(behind, second))
}
