// All that is worked out of a program, whatever the condition.
ghost use Rattle.std.specs.Prelude.{◌≡◌, Some, map, slice_get, IfOk};
ghost use Rattle.std.specs.List.{AllZip};
ghost use Rattle.civl_layers.specs.Cuts.{proc_cuts};
ghost use Rattle.civl_linear.specs.Cuts.{held_of, all_held};
ghost use Rattle.civl_conditions.specs.Weights.{linear_globals, weights_of, global_weight, linear_inputs, initial_own, summed, thread_items};
ghost use Rattle.civl_weighing.specs.Weighing.{Weighs};
ghost use Rattle.civl_weights.specs.sums.Sums.{OfAction, OfStep, OfNotes, OfCuts};
ghost use Rattle.civl_weights.specs.sums.Tables.{OfProc, OfProgram, own_step};

use crate::sums::actions::{ActionSums, action_sums};
use crate::sums::cuts::{CutSums, path_sums};
use crate::sums::notes::{NoteSums, note_sums};
use crate::sums::steps::{StepSums, first_sums, sums_at};
use civl_layers::{Held, Layered, cuts, program};
use civl_names::walks::statements;
use civl_tree::{List, Memory, Proc, Program, Refines, Thread};
use civl_types::names::proc_named;
use civl_types::view::View;
use civl_weighing::bits::{all_globals, linear_globals, linear_inputs};
use civl_weighing::exprs::{weight_of, weights_of};
use civl_weighing::weight::{Weight, linear};
use std::alloc::Global;

/// What is worked out of a procedure: whatever the step, and of its paths at one step.
#[derive(Drop)]
pub struct ProcSums {
    pub step: u32,
    pub notes: NoteSums,
    pub cuts: List<CutSums>,
}

/// The bits of all globals, how many are linear, the weight of `initial` without its variables, and the sums of each action
/// and of each procedure, at the step that they name.
#[derive(Drop)]
pub struct Tables {
    pub bits: Weight,
    pub globals: Weight,
    pub initial: Weight,
    pub actions: List<ActionSums>,
    pub procs: List<ProcSums>,
}

// ---- initial stores

/// The linear inputs of the procedure that a thread calls.
fn thread_items(program: &Program, thread: &Thread) -> Weight
    ensures { Weighs result (thread_items program.now thread.now) }
{
    match proc_named(program, &thread.callee) {
        Some(proc) => linear_inputs(proc.params.as_slice()),
        None => Weight::of(0),
    }
}

fn all_thread_items(program: &Program, threads: &[Thread]) -> Weight
    ensures { Weighs result (summed (map (thread_items program.now) threads.now)) }
{
    let mut total = Weight::of(0);
    for thread in threads {
        total = total.plus(thread_items(program, thread));
    }
    total
}

/// The weight of all threads' arguments.
fn args_weight(program: &Program, threads: &[Thread]) -> Weight
    ensures { Weighs result (summed (map (λ t. weights_of (global_weight program.now) t.args) threads.now)) }
{
    let view = View::Globals(program);
    let mut total = Weight::of(0);
    for thread in threads {
        total = total.plus(weights_of(&view, thread.args.as_slice()));
    }
    total
}

/// The weight of `initial` without its variables, where so many globals are linear.
pub fn initial_own(program: &Program, globals: Weight) -> Weight
    requires { Weighs globals (linear_globals program.now) }
    ensures { Weighs result (initial_own program.now) }
{
    let threads = program.threads.as_slice();
    let init = weight_of(&View::Globals(program), &program.init);
    let items = globals.plus(all_thread_items(program, threads));
    init.plus(args_weight(program, threads))
        .plus(linear(program, items))
}

// ---- procedures

/// The step of a procedure's layer.
fn own_step(refines: &Option<Refines>) -> u32
    ensures { result ≡ own_step refines.now }
{
    match refines {
        Some(refines) => refines.layer,
        None => 0,
    }
}

/// The sums of the cuts of the procedure with this number, at a step.
///
/// # Errors
///
/// For want of memory.
pub fn cuts_at(
    alloc: Global,
    src: &Layered,
    actions: &[ActionSums],
    globals: Weight,
    step: &StepSums,
    number: u32,
    proc: &Proc,
    notes: &NoteSums,
) -> Result<List<CutSums>, Memory>
    requires actions { AllZip (OfAction src.now) src.now.actions actions.now }
    requires globals { Weighs globals (linear_globals src.now) }
    requires step { OfStep src.now step.now }
    requires found { slice_get src.now.procs number ≡ Some proc.now }
    requires notes { OfNotes src.now proc.now notes.now }
    ensures { IfOk result (OfCuts src.now step.now.step proc.now 0 (proc_cuts proc.now)) }
{
    let cuts = cuts(alloc, src, number)?;
    let flat = statements(alloc, &proc.body)?;
    let sums = path_sums(
        alloc,
        program(src),
        actions,
        globals,
        step,
        proc,
        &flat,
        &cuts,
        notes,
    )?;
    Ok(sums)
}

fn notes_at(
    alloc: Global,
    src: &Layered,
    number: u32,
    proc: &Proc,
    held: &List<List<u32>>,
) -> Result<NoteSums, Memory>
    requires found { slice_get src.now.procs number ≡ Some proc.now }
    requires held { held.now ≡ held_of src.now proc.now }
    ensures { IfOk result (OfNotes src.now proc.now) }
{
    let cuts = cuts(alloc, src, number)?;
    let flat = statements(alloc, &proc.body)?;
    note_sums(alloc, program(src), proc, &flat, &cuts, held)
}

/// The sums of the procedure with this number, at its own step, which these sums are of.
fn proc_sums(
    alloc: Global,
    src: &Layered,
    actions: &[ActionSums],
    globals: Weight,
    step: &StepSums,
    number: u32,
    proc: &Proc,
    held: &List<List<u32>>,
) -> Result<ProcSums, Memory>
    requires actions { AllZip (OfAction src.now) src.now.actions actions.now }
    requires globals { Weighs globals (linear_globals src.now) }
    requires step { OfStep src.now step.now }
    requires found { slice_get src.now.procs number ≡ Some proc.now }
    requires held { held.now ≡ held_of src.now proc.now }
    ensures { IfOk result (OfProc src.now proc.now) }
{
    let notes = notes_at(alloc, src, number, proc, held)?;
    let cuts = cuts_at(alloc, src, actions, globals, step, number, proc, &notes)?;
    Ok(ProcSums {
        step: step.step,
        notes,
        cuts,
    })
}

/// The sums of each procedure, at the step that they name.
fn all_procs(
    alloc: Global,
    src: &Layered,
    actions: &[ActionSums],
    globals: Weight,
    held: &[List<List<u32>>],
) -> Result<List<ProcSums>, Memory>
    requires actions { AllZip (OfAction src.now) src.now.actions actions.now }
    requires globals { Weighs globals (linear_globals src.now) }
    requires held { held.now ≡ all_held src.now }
    ensures { IfOk result (AllZip (OfProc src.now) src.now.procs) }
{
    let procs = program(src).procs.as_slice();
    let mut sums = List::new(alloc);
    let mut step = first_sums(alloc, src)?;
    for (number, proc) in procs.iter().enumerate() {
        step = sums_at(alloc, src, step, own_step(&proc.refines))?;
        let items = &held[number];
        let number = number as u32;
        let found = proc_sums(alloc, src, actions, globals, &step, number, proc, items)?;
        sums.push(found)?;
    }
    Ok(sums)
}

/// All that is worked out once, where these locals are held.
///
/// # Errors
///
/// For want of memory.
pub fn work_out(alloc: Global, src: &Layered, held: &Held) -> Result<Tables, Memory>
    requires { held.now.cuts ≡ all_held src.now }
    ensures { IfOk result (OfProgram src.now) }
{
    let program = program(src);
    let globals = linear_globals(program);
    let actions = action_sums(alloc, program)?;
    let procs = all_procs(
        alloc,
        src,
        actions.as_slice(),
        globals,
        held.cuts.as_slice(),
    )?;
    Ok(Tables {
        bits: all_globals(program.globals.as_slice()),
        globals,
        initial: initial_own(program, globals),
        actions,
        procs,
    })
}
