// The values of nodes.
ghost use Rattle.std.specs.Prelude.{◌≡◌};
ghost use Rattle.civl_terms.specs.Graphs.{node_value, value_in, listed};

use crate::node::Node;
use civl_bits::Value;
use civl_firing::values::{fill, get, join, nothing, one, pick, set, slice, two, widen};

/// The value at a place, if there is one.
pub(crate) fn value_in(values: &[Value], at: usize) -> Value
    ensures { result ≡ value_in values.now at }
{
    if at < values.len() {
        values[at]
    } else {
        nothing()
    }
}

/// The value of a node, from those of the nodes before it, where the variables have these values.
pub(crate) fn node_value(env: &[Value], values: &[Value], node: &Node) -> Value
    ensures { result ≡ node_value (listed env.now) values.now node.now }
{
    match node {
        Node::Constant(value) => *value,
        Node::Variable(number, _) => value_in(env, *number as usize),
        Node::One(op, a) => one(*op, value_in(values, *a)),
        Node::Two(op, a, b) => two(*op, value_in(values, *a), value_in(values, *b)),
        Node::Pick(c, a, b) => pick(
            value_in(values, *c),
            value_in(values, *a),
            value_in(values, *b),
        ),
        Node::Get(row, at) => get(value_in(values, *row), value_in(values, *at)),
        Node::Set(row, at, cell) => set(
            value_in(values, *row),
            value_in(values, *at),
            value_in(values, *cell),
        ),
        Node::Fill(index, cell) => fill(*index, value_in(values, *cell)),
        Node::Slice(a, high, low) => slice(value_in(values, *a), *high, *low),
        Node::Widen(a, width) => widen(value_in(values, *a), *width),
        Node::Join(a, b) => join(value_in(values, *a), value_in(values, *b)),
    }
}
