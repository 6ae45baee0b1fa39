// The path of a condition, told from the condition's values.
ghost use Rattle.std.specs.Prelude.{◌≡◌, ◌<◌, ◌≤◌, ◌^◌, false, Some, None, option_map, slice_get, IfOk};
ghost use Rattle.civl_tree.specs.Numbered.{IsNumbered};
ghost use Rattle.civl_tree.specs.Numbering.{sizes_of};
ghost use Rattle.std.specs.Option.{option_map_or};
ghost use Rattle.civl_layers.specs.Cuts.{proc_cuts};
ghost use Rattle.civl_conditions.specs.Steps.{of_cut};
ghost use Rattle.civl_conditions.specs.Values.{begun};
ghost use Rattle.civl_losses.specs.Beginnings.{begun_from};
ghost use Rattle.civl_losses.specs.Losses.{walked_of};
ghost use Rattle.civl_losses.specs.Stories.{story, story_from, story_of};

use crate::beginning::{Beginning, From, begins, copied};
use civl_bits::Value;
use civl_firing::Store;
use civl_layers::{Cut, Layered, at, cuts, program};
use civl_traces::{Moment, Walked, walk};
use civl_tree::{List, Memory, Proc};
use std::alloc::Global;

/// The path of a condition: the values with which it begins, and what it passes.
#[derive(Drop)]
pub struct Story {
    pub beginning: Beginning,
    pub walked: Walked,
}

/// The state in which a path begins.
fn first_moment(alloc: Global, beginning: &Beginning) -> Result<Moment, Memory>
    ensures store { IfOk result (λ m. m.store ≡ beginning.now.store) }
    ensures locals { IfOk result (λ m. m.locals ≡ beginning.now.locals) }
    ensures done { IfOk result (λ m. m.done ≡ beginning.now.done) }
    ensures again { IfOk result (λ m. m.again ≡ false) }
{
    let values = copied(alloc, beginning.store.values.as_slice())?;
    let locals = copied(alloc, beginning.locals.as_slice())?;
    Ok(Moment {
        store: Store { values },
        locals,
        done: beginning.done,
        again: false,
    })
}

/// What the path from a cut passes that begins so.
fn walked_from(
    alloc: Global,
    src: &Layered,
    step: u32,
    proc: &Proc,
    cut: Cut,
    beginning: &Beginning,
) -> Result<Walked, Memory>
    requires step { step ≤ src.now.layers }
    requires numbered { sizes_of proc.now.body < 2 ^ 32 }
    ensures { IfOk result (λ walked. walked ≡ walked_of src.now step proc.now cut (begun_from beginning.now)) }
{
    let plain = at(alloc, src, step.saturating_sub(1))?;
    let moment = first_moment(alloc, beginning)?;
    let walked = walk(
        alloc,
        &plain,
        proc,
        cut,
        beginning.chosen.as_slice(),
        moment,
    )?;
    Ok(walked)
}

/// The path from a cut, told from these values.
pub(crate) fn story_from(
    alloc: Global,
    src: &Layered,
    step: u32,
    proc: &Proc,
    cut: Cut,
    values: &[Value],
) -> Result<Story, Memory>
    requires step { step ≤ src.now.layers }
    requires numbered { sizes_of proc.now.body < 2 ^ 32 }
    ensures { IfOk result (λ told. story told ≡ story_from src.now step values.now proc.now cut) }
{
    let from = From {
        program: program(src),
        step,
        proc,
        cut,
    };
    let beginning = begins(alloc, &from, values)?;
    let walked = walked_from(alloc, src, step, proc, cut, &beginning)?;
    Ok(Story { beginning, walked })
}

/// The path from the cut with this number of this procedure, told from these values.
fn story_in(
    alloc: Global,
    src: &Layered,
    step: u32,
    number: u32,
    proc: &Proc,
    cut: u32,
    values: &[Value],
) -> Result<Option<Story>, Memory>
    requires step { step ≤ src.now.layers }
    requires numbered { IsNumbered src.now }
    requires found { slice_get src.now.procs number ≡ Some proc.now }
    ensures { IfOk result (λ told. option_map story told ≡ option_map_or
        (λ cut. Some (story_from src.now step values.now proc.now cut)) (slice_get (proc_cuts proc.now) cut) None) }
{
    let cuts = cuts(alloc, src, number)?;
    match cuts.as_slice().get(cut as usize) {
        Some(found) => {
            let told = story_from(alloc, src, step, proc, *found, values)?;
            Ok(Some(told))
        }
        None => Ok(None),
    }
}

/// The path from the cut with this number of the procedure with this number, told from the values of a condition K9 or K10 of a step,
/// which stand in the order of the condition's variables; `None` exactly where there is no such cut. The step is one of the program.
///
/// # Errors
///
/// For want of memory.
pub fn story_of(
    alloc: Global,
    src: &Layered,
    step: u32,
    number: u32,
    cut: u32,
    values: &[Value],
) -> Result<Option<Story>, Memory>
    requires step { step ≤ src.now.layers }
    ensures { IfOk result (λ told. option_map story told ≡ story_of src.now step number cut values.now) }
{
    match program(src).procs.as_slice().get(number as usize) {
        Some(proc) => {
            let told = story_in(alloc, src, step, number, proc, cut, values)?;
            Ok(told)
        }
        None => Ok(None),
    }
}
