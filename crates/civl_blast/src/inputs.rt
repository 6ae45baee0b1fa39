// The inputs of the clauses: the bits of the term's variables.
ghost use Rattle.std.specs.Prelude.{◌≡◌, ◌≤◌, ◌<◌, ◌+◌, ◌++◌, length, Bool, Some, IsTrue, IfOk, OnOk};
ghost use Rattle.civl_tree.specs.rules.StoreSize.{bits_of};
ghost use Rattle.civl_terms.specs.Weights.{term_weight};
ghost use Rattle.civl_blast.specs.reach.Reaching.{IsRowless, is_plain};
ghost use Rattle.civl_blast.specs.reach.Marks.{IsMarking};
ghost use Rattle.civl_blast.specs.inner.Steps.{input_bits, input_place, inputs_before, places_before, TakesPlain};

use crate::{Memory, Place};
use civl_terms::{Id, Node, Terms};
use civl_tree::{List, Sort};
use std::alloc::Global;

/// The places of a term's variables, and how many bits they have together.
#[derive(Drop)]
pub(crate) struct Inputs {
    pub(crate) places: List<Place>,
    pub(crate) count: u32,
}

/// The bits of a sort that isn't a row.
fn bits(sort: Sort) -> u32
    requires { IsTrue (is_plain (Some sort)) }
    ensures { result ≡ bits_of sort }
{
    match sort {
        Sort::Bool => 1,
        Sort::Word(width) => width,
        Sort::Row(_, _) => unreachable!(),
    }
}

/// The bits that a node takes as an input: a marked variable's.
pub(crate) fn bits_of_input(marked: bool, node: &Node) -> u32
    requires { IsTrue marked → TakesPlain node.now }
    ensures { result ≡ input_bits marked (Some node.now) }
{
    if !marked {
        return 0;
    }
    match node {
        Node::Variable(_, sort) => bits(*sort),
        _ => 0,
    }
}

/// Adds the place of a marked variable.
fn add_place(places: &mut Vec<Place>, first: u32, marked: bool, node: &Node) -> Result<(), Memory>
    ensures { OnOk result (places.new.items ≡ places.old.items ++ input_place marked (Some node.now) first) }
{
    if !marked {
        return Ok(());
    }
    match node {
        Node::Variable(variable, _) => {
            let place = Place {
                variable: *variable,
                cell: 0,
                first,
            };
            places.push(place)?;
            Ok(())
        }
        _ => Ok(()),
    }
}

/// The places of the variables that a term reaches, one behind the other from clause variable 0 on.
pub(crate) fn lay_out(
    alloc: Global,
    terms: &Terms,
    id: Id,
    marks: &[bool],
) -> Result<Inputs, Memory>
    requires marking { IsMarking terms.now id 0 marks.now }
    requires within { id < length terms.now }
    requires rowless { IsRowless terms.now id }
    requires light { term_weight terms.now id ≤ 3200000 }
    ensures places { IfOk result (λ inputs. inputs.places ≡ places_before terms.now marks.now (id + 1)) }
    ensures count { IfOk result (λ inputs. inputs.count ≡ inputs_before terms.now marks.now (id + 1)) }
{
    let _count = terms.len();
    let mut places = Vec::new(alloc);
    let mut count = 0;
    for at in 0..id + 1 {
        let marked = marks[at];
        let node = terms.node(at);
        add_place(&mut places, count, marked, node)?;
        count += bits_of_input(marked, node);
    }
    Ok(Inputs {
        places: List::from_vec(places),
        count,
    })
}
