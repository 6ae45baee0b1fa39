// Where threads stand.
ghost use Rattle.std.specs.Prelude.{◌≡◌, ◌+◌, ◌<◌, ◌^◌, Some, List, IfOk, IsTrue, IsFalse};
ghost use Rattle.civl_reduction.specs.interleavings.Reduction.{Early, Late, is_inside};
ghost use Rattle.civl_yields.specs.Movers.{called_action};
ghost use Rattle.civl_reduction.specs.blocks.Ahead.{stops, ahead, ahead_list, ahead_in};
ghost use Rattle.civl_reduction.specs.blocks.Stands.{stands};
ghost use Rattle.civl_meaning.specs.Remaining.{rest_of};
ghost use Rattle.civl_blocked.specs.inner.Places.{place_of};
ghost use Rattle.civl_reduction.specs.gathered.System.{place_at};

use civl_meaning::remaining::{Numbered, rest_at};
use civl_meaning::{Config, Running};
use civl_shadows::frames::frame_of_layer;
use civl_shadows::notes::at_yield;
use civl_tree::{List, Memory, Mover, Name, Program, Stmt};
use civl_yields::called_action;
use std::alloc::Global;

/// Where a thread stands in the blocks of the procedures above a layer.
#[derive(Clone, Copy, PartialEq, Eq)]
pub enum Place {
    /// Inside no block.
    Between,
    /// Inside a block, before its turn.
    Early,
    /// Inside a block, behind its turn.
    Late,
}

/// Whether this is inside a block.
pub fn is_inside(place: Place) -> bool
    ensures { result ≡ is_inside (place_of place) }
{
    match place {
        Place::Between => false,
        Place::Early => true,
        Place::Late => true,
    }
}

/// Whether this is inside a block before its turn.
pub fn is_early(place: Place) -> bool
    ensures yes { IsTrue result → place_of place ≡ Early }
    ensures no { IsFalse result → place_of place ≡ Early → ⊥ }
{
    match place {
        Place::Between => false,
        Place::Early => true,
        Place::Late => false,
    }
}

/// Whether this is inside a block behind its turn.
pub fn is_late(place: Place) -> bool
    ensures yes { IsTrue result → place_of place ≡ Late }
    ensures no { IsFalse result → place_of place ≡ Late → ⊥ }
{
    match place {
        Place::Between => false,
        Place::Early => false,
        Place::Late => true,
    }
}

/// Whether a call of this name is of no left mover.
fn stops(program: &Program, name: &Name) -> bool
    ensures { result ≡ stops program.now name.now }
{
    match called_action(program, name) {
        None => false,
        Some(action) => match action.mover {
            Mover::Atomic | Mover::Right => true,
            Mover::Left | Mover::Both => false,
        },
    }
}

/// Whether such a call is ahead before a statement, where it is told whether one is ahead behind it.
#[cycle(ahead)]
fn ahead(program: &Program, stmt: &Stmt, later: bool) -> bool
    ensures { result ≡ ahead program.now stmt.now later }
{
    match stmt {
        Stmt::Call(name, _, _) => later || stops(program, name),
        Stmt::If(_, a, b) => ahead_list(program, a, later) || ahead_list(program, b, later),
        Stmt::While(_, a) => ahead_list(program, a, false) || later,
        Stmt::RankLoop(_, _, _, a) => ahead_list(program, a, false) || later,
        Stmt::YieldLoop(_, _, _) => false,
        Stmt::Yield(_) => false,
        Stmt::Assign(_, _) => later,
        Stmt::Assert(_) => later,
        Stmt::Commit => later,
        Stmt::Intro(_, _) => later,
        Stmt::Spawn(_, _) => later,
    }
}

/// The same before statements.
#[cycle(ahead)]
fn ahead_list(program: &Program, stmts: &List<Stmt>, later: bool) -> bool
    ensures { result ≡ ahead_list program.now stmts.now later }
{
    let items = stmts.as_slice();
    let mut behind = later;
    for at in (0..items.len()).rev() {
        behind = ahead(program, &items[at], behind);
    }
    behind
}

/// The same in what is still to run.
fn ahead_in(program: &Program, rest: &[Numbered<'_>]) -> bool
    ensures { result ≡ ahead_in program.now (rest_of rest.now) }
{
    let mut behind = false;
    for at in (0..rest.len()).rev() {
        behind = ahead(program, rest[at].stmt, behind);
    }
    behind
}

/// Where a thread stands.
pub fn stands(
    alloc: Global,
    program: &Program,
    layer: u32,
    thread: &Running,
) -> Result<Place, Memory>
    requires { layer + 1 < 2 ^ 32 }
    ensures { IfOk result (λ place. place_of place ≡ stands program.now layer thread.now) }
{
    match frame_of_layer(program, layer + 1, thread) {
        None => Ok(Place::Between),
        Some(framed) => {
            let rest = rest_at(alloc, framed.proc, framed.frame.place)?;
            if at_yield(&rest) {
                return Ok(Place::Between);
            }
            if ahead_in(program, &rest) {
                Ok(Place::Early)
            } else {
                Ok(Place::Late)
            }
        }
    }
}

/// Where the thread with this number stands; between blocks, if it isn't there.
pub fn place_at(
    alloc: Global,
    program: &Program,
    layer: u32,
    config: &Config,
    thread: u32,
) -> Result<Place, Memory>
    requires { layer + 1 < 2 ^ 32 }
    ensures { IfOk result (λ place. place_of place ≡ place_at program.now layer config.now thread) }
{
    let at = thread as usize;
    if at >= config.threads.len() {
        return Ok(Place::Between);
    }
    stands(alloc, program, layer, config.threads.get(at))
}
