// Clauses that stand for a term.
ghost use Rattle.std.specs.Prelude.{◌≡◌, ◌≤◌, ◌<◌, ◌+◌, ◌*◌, length, Some, IfOk};
ghost use Rattle.civl_tree.specs.declared.expr.Sort.TheVariants as sort;
ghost use Rattle.civl_terms.specs.Graphs.{sort_at};
ghost use Rattle.civl_terms.specs.Weights.{term_weight};
ghost use Rattle.civl_blast.specs.reach.Reaching.{IsRowless};
ghost use Rattle.civl_blast.specs.reach.Marks.{IsMarking};
ghost use Rattle.civl_blast.specs.Standing.{HasPlaces, StandsFor, GivesValues, IsSmall};
ghost use Rattle.civl_blast.specs.inner.Steps.{inputs_before, output_of, IsCircuit};

use crate::inputs::{Inputs, bits_of_input, lay_out};
use crate::reach::marks;
use crate::steps::step;
use crate::{Blasted, Memory};
use civl_circuits::{Circuit, start};
use civl_cnf::{Clause, Lit};
use civl_symbolic::Symbolic;
use civl_terms::{Id, Terms};
use std::alloc::Global;

/// The circuit of a term, and the literal of its truth value.
#[derive(Drop)]
struct Truth {
    gates: Circuit,
    output: Lit,
}

/// The literal of a bool, and another one for a word.
fn output(other: Lit, made: &Symbolic) -> Lit
    ensures { result ≡ output_of other made.now }
{
    match made {
        Symbolic::Bool(lit) => *lit,
        Symbolic::Word(_) => other,
    }
}

/// The gates of the marked nodes, one after another.
fn gates_of(
    alloc: Global,
    terms: &Terms,
    id: Id,
    marks: &[bool],
    count: u32,
) -> Result<Truth, Memory>
    requires within { id < length terms.now }
    requires truth { sort_at terms.now id ≡ Some sort.Bool }
    requires marking { IsMarking terms.now id 0 marks.now }
    requires rowless { IsRowless terms.now id }
    requires light { term_weight terms.now id ≤ 3200000 }
    requires count { count ≡ inputs_before terms.now marks.now (id + 1) }
    ensures { IfOk result (λ circuit. IsCircuit terms.now id marks.now count circuit.gates circuit.output) }
{
    let _count = terms.len();
    let (mut gates, one) = start(alloc, count)?;
    let mut table: Vec<Symbolic> = Vec::new(alloc);
    let mut first = 0;
    for at in 0..id + 1 {
        let marked = marks[at];
        let made = step(
            &mut gates,
            alloc,
            one,
            first,
            marked,
            table.as_slice(),
            terms,
            at,
        )?;
        first += bits_of_input(marked, terms.node(at));
        table.push(made)?;
    }
    let output = output(one, &table[id]);
    Ok(Truth { gates, output })
}

/// Clauses that stand for a boolean term that reaches no row.
///
/// It uses at most two variables for each unit of the term's weight, and two more.
///
/// # Errors
///
/// For want of memory.
pub fn blast_flat(alloc: Global, terms: &Terms, id: Id) -> Result<Blasted, Memory>
    requires within { id < length terms.now }
    requires truth { sort_at terms.now id ≡ Some sort.Bool }
    requires rowless { IsRowless terms.now id }
    requires light { term_weight terms.now id ≤ 3200000 }
    ensures places { IfOk result (λ blasted. HasPlaces terms.now id blasted.cnf.variables blasted.places) }
    ensures stands { IfOk result (λ blasted. StandsFor terms.now id blasted.cnf blasted.places) }
    ensures back { IfOk result (λ blasted. GivesValues terms.now blasted.places) }
    ensures small { IfOk result (λ blasted. IsSmall blasted.cnf (2 * term_weight terms.now id + 2)) }
{
    let _count = terms.len();
    let marks = marks(alloc, terms, id)?;
    let Inputs { places, count } = lay_out(alloc, terms, id, marks.as_slice())?;
    let Truth { gates, output } = gates_of(alloc, terms, id, marks.as_slice(), count)?;
    let mut cnf = gates.into_cnf();
    let unit = [output];
    let clause = Clause::from_slice(alloc, unit.as_slice())?;
    cnf.push(clause)?;
    Ok(Blasted { cnf, places })
}
