// Where paths end or stop, at terms.
ghost use Rattle.std.specs.Prelude.{◌≡◌, ◌≤◌, [], ◌∷◌, ◌++◌, false, map, IfOk, OnOk};
ghost use Rattle.civl_tree.specs.declared.program.Proc.{Proc as Procedure};
ghost use Rattle.civl_tree.specs.declared.program.Program.{Program as Whole};
ghost use Rattle.civl_terms.specs.Building.{Grows};
ghost use Rattle.civl_terms.specs.Weights.{graph_weight};
ghost use Rattle.civl_moves.specs.sweeps.Sweeps.{cut_at, halted, stopped};
ghost use Rattle.civl_moves.specs.States.{CanSweep, Moves};

use crate::sweep::{Stop, Sweep};
use civl_bits::Value;
use civl_terms::{Id, Memory, Terms};
use civl_tree::List;
use std::alloc::Global as Alloc;

/// The same terms once more.
///
/// # Errors
///
/// For want of memory.
pub fn copied(alloc: Alloc, ids: &List<Id>) -> Result<List<Id>, Memory>
    ensures { IfOk result (λ copy. copy ≡ ids.now) }
{
    let copy = Vec::from_slice(alloc, ids.as_slice())?;
    Ok(List::from_vec(copy))
}

/// The cut that is the statement with this number, where paths end with the sweep's state.
fn stop_at(alloc: Alloc, sweep: &Sweep, number: u32) -> Result<Stop, Memory>
    ensures { IfOk result (λ stop. stop ≡ record { number = number; taken = sweep.now.live; globals = sweep.now.globals; locals = sweep.now.locals; done = sweep.now.done }) }
{
    let globals = copied(alloc, &sweep.globals)?;
    let locals = copied(alloc, &sweep.locals)?;
    Ok(Stop {
        number,
        taken: sweep.live,
        globals,
        locals,
        done: sweep.done,
    })
}

/// Puts a stop behind all others.
fn push_stop(stops: &mut List<Stop>, stop: Stop) -> Result<(), Memory>
    ensures { OnOk result (stops.new ≡ stops.old ++ stop ∷ []) }
{
    stops.push(stop)?;
    Ok(())
}

/// A cut: paths end before it. It weighs nothing.
///
/// # Errors
///
/// For want of memory; the nodes before stay.
pub fn pass_cut(
    alloc: Alloc,
    terms: &mut Terms,
    sweep: &mut Sweep,
    number: u32,
) -> Result<(), Memory>
    ensures moves { OnOk result ((program : Whole) (proc : Procedure) → CanSweep terms.old program proc sweep.old → Moves terms.old terms.new program proc sweep.old sweep.new (λ env. cut_at number)) }
    ensures numbers { OnOk result (map (λ s. s.number) sweep.new.stops ≡ map (λ s. s.number) sweep.old.stops ++ number ∷ []) }
    ensures rest { OnOk result (sweep.new ≡ record sweep.old { onward = false; live = sweep.new.live; stops = sweep.new.stops }) }
    ensures weighs { OnOk result (graph_weight terms.new ≤ graph_weight terms.old) }
    ensures grows { Grows terms.old terms.new }
{
    let no = terms.constant(Value::Bool(false))?;
    let stop = stop_at(alloc, sweep, number)?;
    push_stop(&mut sweep.stops, stop)?;
    sweep.live = no;
    sweep.onward = false;
    Ok(())
}

/// A call that isn't passed: the path isn't behind it. It weighs nothing.
///
/// # Errors
///
/// For want of memory; the nodes before stay.
pub fn halt(terms: &mut Terms, sweep: &mut Sweep) -> Result<(), Memory>
    ensures moves { OnOk result ((program : Whole) (proc : Procedure) → CanSweep terms.old program proc sweep.old → Moves terms.old terms.new program proc sweep.old sweep.new (λ env. halted)) }
    ensures rest { OnOk result (sweep.new ≡ record sweep.old { live = sweep.new.live }) }
    ensures weighs { OnOk result (graph_weight terms.new ≤ graph_weight terms.old) }
    ensures grows { Grows terms.old terms.new }
{
    let no = terms.constant(Value::Bool(false))?;
    sweep.live = no;
    Ok(())
}

/// What no path passes. It weighs nothing.
///
/// # Errors
///
/// For want of memory; the nodes before stay.
pub fn stop(terms: &mut Terms, sweep: &mut Sweep) -> Result<(), Memory>
    ensures moves { OnOk result ((program : Whole) (proc : Procedure) → CanSweep terms.old program proc sweep.old → Moves terms.old terms.new program proc sweep.old sweep.new (λ env. stopped)) }
    ensures rest { OnOk result (sweep.new ≡ record sweep.old { onward = false; live = sweep.new.live }) }
    ensures weighs { OnOk result (graph_weight terms.new ≤ graph_weight terms.old) }
    ensures grows { Grows terms.old terms.new }
{
    let no = terms.constant(Value::Bool(false))?;
    sweep.live = no;
    sweep.onward = false;
    Ok(())
}
