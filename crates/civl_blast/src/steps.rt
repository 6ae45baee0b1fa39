// The clauses of one node.
ghost use Rattle.std.specs.Prelude.{◌≤◌, ◌^◌, IsTrue, IfOk};
ghost use Rattle.civl_cnf.specs.Gates.{Extends};
ghost use Rattle.civl_circuits.specs.Circuits.{IsOne};
ghost use Rattle.civl_blast.specs.inner.Steps.{IsReady, NodeMade, StepMade};

use crate::Memory;
use civl_circuits::Circuit;
use civl_cnf::Lit;
use civl_symbolic::{Symbolic, binary, constant, join, pick, slice, unary, variable, widen};
use civl_terms::{Id, Node, Terms};
use std::alloc::Global;

/// The symbolic value of a node, from those of the nodes before. A variable's bits are the clause variables from `first` on.
#[tactic(auto, using(crate::proofs::Nodes::extending))]
fn blast_node(
    gates: &mut Circuit,
    alloc: Global,
    one: Lit,
    first: u32,
    table: &[Symbolic],
    terms: &Terms,
    at: Id,
) -> Result<Symbolic, Memory>
    requires room { gates.old.variables ≤ 2 ^ 29 }
    requires one { IsOne gates.old one }
    requires ready { IsReady terms.now at gates.old first table.now }
    ensures ok { IfOk result (λ made. NodeMade terms.now at gates.old gates.new first table.now made) }
    ensures extends { Extends gates.old gates.new }
{
    match terms.node(at) {
        Node::Constant(value) => {
            let made = constant(alloc, one, value)?;
            Ok(made)
        }
        Node::Variable(_, sort) => {
            let made = variable(alloc, first, *sort)?;
            Ok(made)
        }
        Node::One(op, a) => {
            let made = unary(gates, alloc, one, *op, &table[*a])?;
            Ok(made)
        }
        Node::Two(op, a, b) => {
            let made = binary(gates, alloc, one, *op, &table[*a], &table[*b])?;
            Ok(made)
        }
        Node::Pick(c, a, b) => {
            let made = pick(gates, alloc, &table[*c], &table[*a], &table[*b])?;
            Ok(made)
        }
        Node::Slice(a, high, low) => {
            let made = slice(alloc, &table[*a], *high, *low)?;
            Ok(made)
        }
        Node::Widen(a, width) => {
            let made = widen(alloc, one, &table[*a], *width)?;
            Ok(made)
        }
        Node::Join(a, b) => {
            let made = join(alloc, &table[*a], &table[*b])?;
            Ok(made)
        }
        Node::Get(_, _) | Node::Set(_, _, _) | Node::Fill(_, _) => unreachable!(),
    }
}

/// The symbolic value of a node where it is marked, and any other elsewhere.
pub(crate) fn step(
    gates: &mut Circuit,
    alloc: Global,
    one: Lit,
    first: u32,
    marked: bool,
    table: &[Symbolic],
    terms: &Terms,
    at: Id,
) -> Result<Symbolic, Memory>
    requires room { gates.old.variables ≤ 2 ^ 29 }
    requires one { IsOne gates.old one }
    requires ready { IsTrue marked → IsReady terms.now at gates.old first table.now }
    ensures ok { IfOk result (λ made. StepMade marked terms.now at gates.old gates.new first table.now made) }
    ensures extends { Extends gates.old gates.new }
{
    if marked {
        let made = blast_node(gates, alloc, one, first, table, terms, at)?;
        Ok(made)
    } else {
        Ok(Symbolic::Bool(one))
    }
}
