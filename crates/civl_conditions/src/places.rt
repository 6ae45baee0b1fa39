// The cuts of the procedures of a layer.
ghost use Rattle.std.specs.Prelude.{◌≡◌, ◌≤◌, ◌++◌, ◌^◌, [], ◌∷◌, length, Some, slice_get, OnOk, IfOk, if◌then◌else◌};
ghost use Rattle.civl_tree.specs.Numbered.{IsNumbered};
ghost use Rattle.civl_layers.specs.Cuts.{proc_cuts};
ghost use Rattle.civl_conditions.specs.Steps.{has_layer, each_at};
ghost use Rattle.civl_conditions.specs.inner.Placed.{place_of, step_places};

use crate::steps::has_layer;
use civl_layers::{Cut, CutKind, Layered, cuts, program};
use civl_tree::{List, Memory, Proc};
use std::alloc::Global;

/// A cut of a procedure: the numbers of the procedure and of the cut, and what it is.
#[derive(Clone, Copy)]
pub(crate) struct Place {
    pub proc: u32,
    pub cut: u32,
    pub kind: CutKind,
}

fn push_cuts(places: &mut List<Place>, number: u32, cuts: &List<Cut>) -> Result<(), Memory>
    requires { length cuts.now ≤ 2 ^ 32 }
    ensures { OnOk result (places.new ≡ places.old ++ each_at (λ c cut. place_of number c cut ∷ []) 0 cuts.now) }
{
    let items = cuts.as_slice();
    for (at, cut) in items.iter().enumerate() {
        places.push(Place {
            proc: number,
            cut: at as u32,
            kind: cut.kind,
        })?;
    }
    Ok(())
}

/// Puts the cuts of the procedure with this number behind the others, where it is of the layer.
fn push_proc(
    alloc: Global,
    places: &mut List<Place>,
    src: &Layered,
    layer: u32,
    number: u32,
    proc: &Proc,
) -> Result<(), Memory>
    requires numbered { IsNumbered src.now }
    requires found { slice_get src.now.procs number ≡ Some proc.now }
    ensures { OnOk result (places.new ≡ places.old ++ (if has_layer layer proc.now then each_at (λ c cut. place_of number c cut ∷ []) 0 (proc_cuts proc.now) else [])) }
{
    if has_layer(layer, proc) {
        let cuts = cuts(alloc, src, number)?;
        push_cuts(places, number, &cuts)?;
    }
    Ok(())
}

/// The cuts of each procedure of a layer.
pub(crate) fn step_places(alloc: Global, src: &Layered, layer: u32) -> Result<List<Place>, Memory>
    ensures { IfOk result (λ places. places ≡ step_places src.now layer) }
{
    let procs = program(src).procs.as_slice();
    let mut places = List::new(alloc);
    for (number, proc) in procs.iter().enumerate() {
        push_proc(alloc, &mut places, src, layer, number as u32, proc)?;
    }
    Ok(places)
}
