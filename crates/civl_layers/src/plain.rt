// The plain programs of a layered one.
ghost use Rattle.std.specs.Prelude.{◌≡◌, ◌≤◌, map, IfOk};
ghost use Rattle.civl_meaning.specs.Config.{IsPlain};
ghost use Rattle.civl_meaning.specs.Layers.{means_body, program_at, lowest, topmost};

use crate::source::{Layered, program};
use civl_meaning::Plain;
use civl_tree::{List, Memory, Proc, Refines, copy_program};
use std::alloc::Global;

/// Whether a procedure means its body in the program of a layer: one above the layer, or a root.
fn means_body(k: u32, refines: &Option<Refines>) -> bool
    ensures { result ≡ means_body k refines.now }
{
    match refines {
        Some(refines) => k < refines.layer,
        None => true,
    }
}

fn bodies_at(alloc: Global, procs: &[Proc], k: u32) -> Result<List<bool>, Memory>
    ensures { IfOk result (λ bodies. bodies ≡ map (λ proc. means_body k proc.refines) procs.now) }
{
    let mut bodies = List::new(alloc);
    for proc in procs {
        bodies.push(means_body(k, &proc.refines))?;
    }
    Ok(bodies)
}

/// The program of layer `k`, which is at most the number of layers: each procedure of layer `k` or less means the action
/// that it refines, and every other procedure its body (Kragl, Qadeer, CAV 2018). It holds a copy of the source, and keeps the rules that plain
/// programs keep.
///
/// # Errors
///
/// For want of memory.
pub fn at(alloc: Global, src: &Layered, k: u32) -> Result<Plain, Memory>
    requires { k ≤ src.now.layers }
    ensures same { IfOk result (λ plain. plain ≡ program_at src.now k) }
    ensures keeps { IfOk result (λ plain. IsPlain plain) }
{
    let source = program(src);
    let bodies = bodies_at(alloc, source.procs.as_slice(), k)?;
    let program = copy_program(alloc, source)?;
    Ok(Plain { program, bodies })
}

/// The lowest program, that of layer 0: each procedure means its body.
///
/// # Errors
///
/// For want of memory.
pub fn low(alloc: Global, src: &Layered) -> Result<Plain, Memory>
    ensures same { IfOk result (λ plain. plain ≡ lowest src.now) }
    ensures keeps { IfOk result (λ plain. IsPlain plain) }
{
    at(alloc, src, 0)
}

/// The topmost program, that of the last layer: each procedure but the roots means the action that it refines.
///
/// # Errors
///
/// For want of memory.
pub fn top(alloc: Global, src: &Layered) -> Result<Plain, Memory>
    ensures same { IfOk result (λ plain. plain ≡ topmost src.now) }
    ensures keeps { IfOk result (λ plain. IsPlain plain) }
{
    at(alloc, src, program(src).layers)
}
