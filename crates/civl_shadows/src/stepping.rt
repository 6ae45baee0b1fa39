// The shadow beside a start and a step.
ghost use Rattle.std.specs.Prelude.{ℕ, ◌≡◌, ◌+◌, ◌<◌, ◌≤◌, ◌^◌, length, IfOk, OnOk};
ghost use Rattle.civl_meaning.specs.declared.config.Stepped.TheVariants.{Moved};
ghost use Rattle.civl_meaning.specs.Step.{step_of};
ghost use Rattle.civl_meaning.specs.Table.{ArePlaces};
ghost use Rattle.civl_reduction.specs.blocks.Cuts.{frame_at};
ghost use Rattle.civl_reduction.specs.blocks.Shadow.{Shadow as Kept, Shadowed as Beside, before_frame, after_frame, shadowed_start, shadowed_step};
ghost use Rattle.civl_shadows.specs.Frames.{framed_of};
ghost use Rattle.civl_shadows.specs.inner.Stepping.{with_effect, begun_by, IsProgressIn};
ghost use Rattle.civl_shadows.specs.Shadows.{IsShadow, IsLayerOf, Shows};

use crate::frames::{Framed, frame_at};
use crate::merging::merged;
use crate::notes::{Noting, Progress, at_yield, glide, lead, settled};
use crate::shadow::{Shadow, Shadowed};
use civl_firing::Store;
use civl_meaning::remaining::rest_at;
use civl_meaning::{Move, Places, Plain, Stepped, start, step};
use civl_tree::{List, Memory, Program};
use std::alloc::Global;

/// The configuration in which the program of a layer starts from a store, with the shadow beside it: the same values, and no
/// thread has passed a commit.
///
/// # Errors
///
/// For want of memory.
pub fn shadowed_start(alloc: Global, plain: &Plain, store: &Store) -> Result<Shadowed, Memory>
    ensures { IfOk result (λ s. (layer : ℕ) → IsLayerOf plain.now layer → Shows s (shadowed_start plain.now.program layer store.now)) }
{
    let config = start(alloc, plain, store)?;
    let values = Vec::from_slice(alloc, store.values.as_slice())?;
    let done = vec![in alloc; false; config.threads.len()]?;
    let store = Store {
        values: List::from_vec(values),
    };
    Ok(Shadowed {
        config,
        shadow: Shadow { store, done },
    })
}

/// The state of the frame of a thread: this store with the shadow's values, and whether it has passed a commit.
fn progress_in(
    alloc: Global,
    program: &Program,
    layer: u32,
    number: usize,
    store: &Store,
    shadow: &Shadow,
) -> Result<Progress, Memory>
    requires few { layer + 1 < 2 ^ 32 }
    requires there { number < length shadow.now.done.items }
    ensures { IfOk result (λ p. IsProgressIn program.now layer number store.now shadow.now p) }
{
    let values = merged(
        alloc,
        program.globals.as_slice(),
        layer,
        store,
        &shadow.store,
    )?;
    Ok(Progress {
        values,
        done: shadow.done[number],
        again: false,
    })
}

/// What takes effect just before a step of a thread whose topmost frame is this one: where it stands at a yield, what is
/// behind that.
fn before_step(
    alloc: Global,
    program: &Program,
    layer: u32,
    number: usize,
    store: &Store,
    shadow: &Shadow,
    framed: Option<Framed<'_>>,
) -> Result<Option<Progress>, Memory>
    requires few { layer + 1 < 2 ^ 32 }
    requires there { number < length shadow.now.done.items }
    ensures { IfOk result (λ effect. (s : Kept) → IsShadow shadow.now s → with_effect number effect s ≡ before_frame program.now layer number store.now s (framed_of framed.entry)) }
{
    match framed {
        None => Ok(None),
        Some(framed) => {
            let rest = rest_at(alloc, framed.proc, framed.frame.place)?;
            if !at_yield(&rest) {
                return Ok(None);
            }
            let noting = Noting {
                program,
                layer,
                proc: framed.proc,
                locals: framed.frame.locals.as_slice(),
            };
            let mut progress = progress_in(alloc, program, layer, number, store, shadow)?;
            glide(&noting, &rest, settled(&rest), &mut progress);
            Ok(Some(progress))
        }
    }
}

/// What takes effect just behind a step of a thread whose topmost frame is then this one.
fn after_step(
    alloc: Global,
    program: &Program,
    layer: u32,
    number: usize,
    store: &Store,
    shadow: &Shadow,
    framed: Option<Framed<'_>>,
) -> Result<Option<Progress>, Memory>
    requires few { layer + 1 < 2 ^ 32 }
    requires there { number < length shadow.now.done.items }
    ensures { IfOk result (λ effect. (s : Kept) → IsShadow shadow.now s → with_effect number effect s ≡ after_frame program.now layer number store.now s (framed_of framed.entry)) }
{
    match framed {
        None => Ok(None),
        Some(framed) => {
            let rest = rest_at(alloc, framed.proc, framed.frame.place)?;
            let noting = Noting {
                program,
                layer,
                proc: framed.proc,
                locals: framed.frame.locals.as_slice(),
            };
            let mut progress = progress_in(alloc, program, layer, number, store, shadow)?;
            lead(&noting, &rest, &mut progress);
            Ok(Some(progress))
        }
    }
}

/// Keeps what took effect for a thread.
fn keep(shadow: &mut Shadow, number: usize, effect: Option<Progress>)
    requires { number < length shadow.old.done.items }
    ensures kept { (s : Kept) → IsShadow shadow.old s → IsShadow shadow.new (with_effect number effect s) }
    ensures one_each { length shadow.new.done.items ≡ length shadow.old.done.items }
{
    if let Some(progress) = effect {
        shadow.store = Store {
            values: List::from_vec(progress.values),
        };
        shadow.done[number] = progress.done;
    }
}

/// Where a thread stood in no frame of the layer, a frame that is new has passed no commit.
fn begin(shadow: &mut Shadow, number: usize, framed: bool)
    requires { number < length shadow.old.done.items }
    ensures begun { (s : Kept) → IsShadow shadow.old s → IsShadow shadow.new (begun_by number framed s) }
    ensures one_each { length shadow.new.done.items ≡ length shadow.old.done.items }
{
    if !framed {
        shadow.done[number] = false;
    }
}

/// A thread that is new has passed no commit.
fn grow(shadow: &mut Shadow, threads: usize) -> Result<(), Memory>
    requires few { threads ≤ length shadow.old.done.items + 1 }
    requires more { length shadow.old.done.items ≤ threads }
    ensures kept { OnOk result ((s : Kept) → IsShadow shadow.old s → IsShadow shadow.new s) }
    ensures one_each { OnOk result (length shadow.new.done.items ≡ threads) }
{
    if shadow.done.len() < threads {
        shadow.done.push(false)?;
    }
    Ok(())
}

/// The shadow behind a step that was made, before which this took effect, of a thread that stood in a frame of the layer or
/// in none.
fn move_on(
    alloc: Global,
    program: &Program,
    layer: u32,
    number: usize,
    effect: Option<Progress>,
    framed: bool,
    shadowed: &mut Shadowed,
) -> Result<(), Memory>
    requires few { layer + 1 < 2 ^ 32 }
    requires there { number < length shadowed.old.shadow.done.items }
    requires more { length shadowed.old.config.threads ≤ length shadowed.old.shadow.done.items + 1 }
    requires fewer { length shadowed.old.shadow.done.items ≤ length shadowed.old.config.threads }
    ensures config { shadowed.new.config ≡ shadowed.old.config }
    ensures shadow { OnOk result ((s : Kept) → IsShadow shadowed.old.shadow s → IsShadow shadowed.new.shadow (after_frame program.now layer number shadowed.old.config.store (begun_by number framed (with_effect number effect s)) (frame_at program.now (layer + 1) shadowed.old.config.threads number))) }
    ensures one_each { OnOk result (length shadowed.new.shadow.done.items ≡ length shadowed.new.config.threads) }
{
    keep(&mut shadowed.shadow, number, effect);
    begin(&mut shadowed.shadow, number, framed);
    grow(&mut shadowed.shadow, shadowed.config.threads.len())?;
    let threads = shadowed.config.threads.as_slice();
    let now = frame_at(program, layer + 1, threads, number);
    let store = &shadowed.config.store;
    let behind = after_step(alloc, program, layer, number, store, &shadowed.shadow, now)?;
    keep(&mut shadowed.shadow, number, behind);
    Ok(())
}

/// One step of the configuration, as [`step`] makes it, and what it does to the shadow. After any other answer than `Moved`
/// both are as they were. After want of memory nothing is said of them.
///
/// # Errors
///
/// For want of memory.
pub fn shadowed_step(
    alloc: Global,
    plain: &Plain,
    places: &Places<'_>,
    layer: u32,
    shadowed: &mut Shadowed,
    chosen: &Move,
) -> Result<Stepped, Memory>
    requires few { layer + 1 < 2 ^ 32 }
    requires layer { IsLayerOf plain.now layer }
    requires places { ArePlaces plain.now places.now }
    requires one_each { length shadowed.old.shadow.done.items ≡ length shadowed.old.config.threads }
    ensures answer { IfOk result (λ a. a ≡ (step_of plain.now shadowed.old.config chosen.now).0) }
    ensures moved { IfOk result (λ a. a ≡ Moved → (s : Beside) → Shows shadowed.old s → Shows shadowed.new (shadowed_step plain.now.program layer s chosen.now)) }
    ensures stays { IfOk result (λ a. (a ≡ Moved → ⊥) → shadowed.new ≡ shadowed.old) }
    ensures one_each { OnOk result (length shadowed.new.shadow.done.items ≡ length shadowed.new.config.threads) }
{
    let number = chosen.thread as usize;
    let threads = shadowed.config.threads.as_slice();
    if number >= threads.len() {
        return Ok(Stepped::NoThread);
    }
    let program = &plain.program;
    let before = frame_at(program, layer + 1, threads, number);
    let store = &shadowed.config.store;
    let effect = before_step(
        alloc,
        program,
        layer,
        number,
        store,
        &shadowed.shadow,
        before,
    )?;
    let framed = before.is_some();
    let answer = step(alloc, &mut shadowed.config, plain, places, chosen)?;
    if answer == Stepped::Moved {
        move_on(alloc, program, layer, number, effect, framed, shadowed)?;
        return Ok(answer);
    }
    Ok(answer)
}
