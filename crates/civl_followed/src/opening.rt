// Where a block begins.
ghost use Rattle.std.specs.Prelude.{◌≡◌, ◌+◌, ◌<◌, ◌^◌, List, Contains, IfOk};
ghost use Rattle.civl_bits.specs.declared.value.Value.{Value as Given};
ghost use Rattle.civl_reduction.specs.blocks.Shadow.{Shadowed as Beside};
ghost use Rattle.civl_shadows.specs.Frames.{framed_of};
ghost use Rattle.civl_shadows.specs.Shadows.{done_in, Shows};
ghost use Rattle.civl_followed.specs.inner.Along.{BeginsAs, IsOffered, done_by};

use crate::choosing::push_stops;
use crate::walk::Opening;
use civl_bits::Value;
use civl_firing::Store;
use civl_meaning::remaining::rest_at;
use civl_shadows::frames::{Framed, frame_at};
use civl_shadows::notes::{Noting, Progress, settled};
use civl_shadows::{Shadowed, merged};
use civl_tree::{List, Memory, Program};
use std::alloc::Global;

/// What is said of a thread: of one that isn't there, that it has passed no commit.
pub fn done_at(done: &[bool], number: usize) -> bool
    ensures { result ≡ done_in done.now number }
{
    if number < done.len() {
        done[number]
    } else {
        false
    }
}

/// Whether the thread with this number, whose topmost frame is this one, has passed a commit.
fn is_done(done: &[bool], framed: Option<Framed<'_>>, number: usize) -> bool
    ensures { result ≡ done_by (framed_of framed.entry) done.now number }
{
    match framed {
        None => false,
        Some(_) => done_at(done, number),
    }
}

/// The values behind `with` at the ends of the blocks without a step that begin at a frame's yield, in this store with the
/// shadow's values.
fn offered(
    alloc: Global,
    program: &Program,
    layer: u32,
    store: &Store,
    done: bool,
    framed: Option<Framed<'_>>,
) -> Result<Vec<List<Value>>, Memory>
    ensures { IfOk result (λ found. (chosen : List Given) → IsOffered program.now layer store.now done (framed_of framed.entry) chosen → Contains found.items chosen) }
{
    let mut found = Vec::new(alloc);
    match framed {
        None => Ok(found),
        Some(framed) => {
            let rest = rest_at(alloc, framed.proc, framed.frame.place)?;
            let noting = Noting {
                program,
                layer,
                proc: framed.proc,
                locals: framed.frame.locals.as_slice(),
            };
            let values = Vec::from_slice(alloc, store.values.as_slice())?;
            let mut progress = Progress {
                values,
                done,
                again: false,
            };
            push_stops(
                alloc,
                &noting,
                &rest,
                settled(&rest),
                &mut progress,
                &mut found,
            )?;
            Ok(found)
        }
    }
}

/// Where a block of the thread with this number begins.
pub fn open(
    alloc: Global,
    program: &Program,
    layer: u32,
    lower: &Shadowed,
    number: usize,
) -> Result<Opening, Memory>
    requires { layer + 1 < 2 ^ 32 }
    ensures thread { IfOk result (λ b. b.thread ≡ number) }
    ensures begins { IfOk result (λ b. (s : Beside) → Shows lower.now s → BeginsAs program.now layer s b) }
{
    let globals = program.globals.as_slice();
    let values = merged(
        alloc,
        globals,
        layer,
        &lower.config.store,
        &lower.shadow.store,
    )?;
    let store = Store {
        values: List::from_vec(values),
    };
    let framed = frame_at(program, layer + 1, lower.config.threads.as_slice(), number);
    let done = is_done(&lower.shadow.done, framed, number);
    let offered = offered(alloc, program, layer, &store, done, framed)?;
    Ok(Opening {
        thread: number,
        store,
        done,
        offered,
    })
}
