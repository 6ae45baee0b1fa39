// What is lost on the path of a condition.
ghost use Rattle.std.specs.Prelude.{◌≡◌, ◌<◌, ◌≤◌, ◌^◌, Some, None, slice_get, get_or, [], IfOk};
ghost use Rattle.std.specs.Option.{option_map_or};
ghost use Rattle.civl_tree.specs.Numbered.{IsNumbered};
ghost use Rattle.civl_tree.specs.Numbering.{sizes_of};
ghost use Rattle.civl_layers.specs.Cuts.{proc_cuts};
ghost use Rattle.civl_linear.specs.Cuts.{all_held};
ghost use Rattle.civl_conditions.specs.Permissions.{held_at};
ghost use Rattle.civl_conditions.specs.Steps.{of_cut};
ghost use Rattle.civl_losses.specs.Beginnings.{begun_from};
ghost use Rattle.civl_losses.specs.Losses.{loss};
ghost use Rattle.civl_losses.specs.Stories.{IsAtStep, story_from};
ghost use Rattle.civl_losses.specs.inner.Asking.{asked_loss, lost_on};

use crate::blocks::block_lost;
use crate::loss::Loss;
use crate::paths::path_loss;
use crate::route::Route;
use crate::story::{Story, story_from};
use civl_bits::Value;
use civl_conditions::{Condition, Part, Target};
use civl_layers::{Cut, Held, Layered, cuts, program};
use civl_names::walks::statements;
use civl_tree::{Memory, Proc};
use std::alloc::Global;

/// What a condition on a path asks: a part of what the path has to do, or that a target is kept.
#[derive(Clone, Copy)]
pub(crate) enum Asked {
    Part(Part),
    Target(Target),
}

/// A cut of a procedure at a step, with its number, all cuts of the procedure, and the locals that are held there and at all cuts.
#[derive(Clone, Copy)]
pub(crate) struct Start<'a> {
    pub src: &'a Layered,
    pub all_held: &'a Held,
    pub step: u32,
    pub proc: &'a Proc,
    pub cuts: &'a [Cut],
    pub number: u32,
    pub cut: Cut,
    pub held: &'a [u32],
}

/// What is lost on the path that was told.
fn lost_on(
    alloc: Global,
    start: &Start<'_>,
    asked: Asked,
    values: &[Value],
    told: &Story,
) -> Result<Option<Loss>, Memory>
    requires numbered { sizes_of start.now.proc.now.body < 2 ^ 32 }
    requires cuts { start.now.cuts.now ≡ proc_cuts start.now.proc.now }
    requires held { start.now.held.now ≡ held_at start.now.src.now start.now.proc.now start.now.number }
    requires all { start.now.all_held.now.cuts ≡ all_held start.now.src.now }
    ensures { IfOk result (λ found. found ≡ lost_on start.now asked values.now (begun_from told.now.beginning) told.now.walked) }
{
    let program = program(start.src);
    let stmts = statements(alloc, &start.proc.body)?;
    let route = Route {
        program,
        step: start.step,
        proc: start.proc,
        stmts: stmts.as_slice(),
        cuts: start.cuts,
        number: start.number,
        cut: start.cut,
        held: start.held,
        beginning: &told.beginning,
        walked: &told.walked,
    };
    match asked {
        Asked::Part(part) => path_loss(alloc, &route, part),
        Asked::Target(target) => {
            block_lost(alloc, start.src, start.all_held, &route, target, values)
        }
    }
}

/// What is lost on the path from a cut.
fn lost_from(
    alloc: Global,
    start: &Start<'_>,
    asked: Asked,
    values: &[Value],
) -> Result<Option<Loss>, Memory>
    requires step { start.now.step ≤ start.now.src.now.layers }
    requires numbered { sizes_of start.now.proc.now.body < 2 ^ 32 }
    requires cuts { start.now.cuts.now ≡ proc_cuts start.now.proc.now }
    requires held { start.now.held.now ≡ held_at start.now.src.now start.now.proc.now start.now.number }
    requires all { start.now.all_held.now.cuts ≡ all_held start.now.src.now }
    ensures { IfOk result (λ found. found ≡ asked_loss start.now.src.now start.now.step asked start.now.number values.now
        start.now.proc.now start.now.cut) }
{
    let told = story_from(alloc, start.src, start.step, start.proc, start.cut, values)?;
    lost_on(alloc, start, asked, values, &told)
}

/// The numbers of the locals that are held at a cut.
fn held_at(held: &Held, number: u32, cut: u32) -> &[u32]
    ensures { result.now ≡ get_or (get_or held.now.cuts number []) cut [] }
{
    match held.cuts.as_slice().get(number as usize) {
        Some(cuts) => match cuts.as_slice().get(cut as usize) {
            Some(numbers) => numbers.as_slice(),
            None => &[],
        },
        None => &[],
    }
}

/// What is lost on the path from the cut with this number of this procedure.
fn lost_in(
    alloc: Global,
    src: &Layered,
    held: &Held,
    step: u32,
    number: u32,
    proc: &Proc,
    cut: u32,
    asked: Asked,
    values: &[Value],
) -> Result<Option<Loss>, Memory>
    requires step { step ≤ src.now.layers }
    requires numbered { IsNumbered src.now }
    requires found { slice_get src.now.procs number ≡ Some proc.now }
    requires held { held.now.cuts ≡ all_held src.now }
    ensures { IfOk result (λ found. found ≡ option_map_or (asked_loss src.now step asked cut values.now proc.now)
        (slice_get (proc_cuts proc.now) cut) None) }
{
    let cuts = cuts(alloc, src, number)?;
    match cuts.as_slice().get(cut as usize) {
        Some(found) => {
            let start = Start {
                src,
                all_held: held,
                step,
                proc,
                cuts: cuts.as_slice(),
                number: cut,
                cut: *found,
                held: held_at(held, number, cut),
            };
            lost_from(alloc, &start, asked, values)
        }
        None => Ok(None),
    }
}

/// What is lost on the path from the cut with this number of the procedure with this number.
fn lost(
    alloc: Global,
    src: &Layered,
    held: &Held,
    step: u32,
    number: u32,
    cut: u32,
    asked: Asked,
    values: &[Value],
) -> Result<Option<Loss>, Memory>
    requires step { step ≤ src.now.layers }
    requires held { held.now.cuts ≡ all_held src.now }
    ensures { IfOk result (λ found. found ≡ of_cut src.now number cut None (asked_loss src.now step asked cut values.now)) }
{
    match program(src).procs.as_slice().get(number as usize) {
        Some(proc) => { lost_in(alloc, src, held, step, number, proc, cut, asked, values) }
        None => Ok(None),
    }
}

/// What is lost on the path of a condition K9 or K10 by these values, one for each variable of the condition in their order; nothing
/// where they don't violate it, and for a condition on actions. The step is one of the program, and `held` are the locals that its
/// procedures hold at their cuts.
///
/// # Errors
///
/// For want of memory.
#[tactic(auto, unfolding(crate::specs::Losses::loss))]
pub fn loss_of(
    alloc: Global,
    src: &Layered,
    held: &Held,
    condition: &Condition,
    values: &[Value],
) -> Result<Option<Loss>, Memory>
    requires step { IsAtStep src.now condition.now }
    requires held { held.now.cuts ≡ all_held src.now }
    ensures { IfOk result (λ found. found ≡ loss src.now condition.now values.now) }
{
    match condition {
        Condition::Path(part, step, number, cut) => {
            let asked = Asked::Part(*part);
            lost(alloc, src, held, *step, *number, *cut, asked, values)
        }
        Condition::Block(step, number, cut, target) => {
            let asked = Asked::Target(*target);
            lost(alloc, src, held, *step, *number, *cut, asked, values)
        }
        Condition::Start(_, _) => Ok(None),
        Condition::Keep(_, _) => Ok(None),
        Condition::Pair(_, _, _, _) => Ok(None),
        Condition::Fire(_, _) => Ok(None),
        Condition::Act(_, _, _) => Ok(None),
    }
}
