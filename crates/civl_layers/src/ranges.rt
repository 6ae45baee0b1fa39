// The layers in which something exists, and ranges that fail (E30).
ghost use Rattle.std.specs.Prelude.{◌≡◌};
ghost use Rattle.civl_layers.specs.Ranges.{exists_in, exists_through, exists_around, life_end};
ghost use Rattle.civl_layers.specs.Range.{range_fails, step_fails, refines_range};

use civl_tree::{Program, Refines};

fn exists_in(layer: u32, first: u32, last: u32) -> bool
    ensures { result ≡ exists_in layer (record { first = first; last = last }) }
{
    first <= layer && layer <= last
}

/// Whether all layers from one to another are among those from the first to the last.
pub(crate) fn exists_through(from: u32, to: u32, first: u32, last: u32) -> bool
    ensures { result ≡ exists_through from to (record { first = first; last = last }) }
{
    to < from || first <= from && to <= last
}

/// Whether the layer of a step or the one below it is among those from the first to the last.
pub(crate) fn exists_around(step: u32, first: u32, last: u32) -> bool
    ensures { result ≡ exists_around step (record { first = first; last = last }) }
{
    exists_in(step.saturating_sub(1), first, last) || exists_in(step, first, last)
}

/// The last layer of the life of a procedure's body.
pub(crate) fn life_end(program: &Program, refines: &Option<Refines>) -> u32
    ensures { result ≡ life_end program.now refines.now }
{
    match refines {
        Some(refines) => refines.layer.saturating_sub(1),
        None => program.layers,
    }
}

/// Whether the range of a global or an action breaks E30.
pub(crate) fn range_fails(program: &Program, first: u32, last: u32) -> bool
    ensures { result ≡ range_fails program.now (record { first = first; last = last }) }
{
    last < first || program.layers < last
}

/// Whether a step or a procedure's layer breaks E30.
pub(crate) fn step_fails(program: &Program, step: u32) -> bool
    ensures { result ≡ step_fails program.now step }
{
    !(1 <= step && step <= program.layers)
}

/// Whether the layer of a procedure breaks E30.
pub(crate) fn refines_range(program: &Program, refines: &Option<Refines>) -> bool
    ensures { result ≡ refines_range program.now refines.now }
{
    match refines {
        Some(refines) => step_fails(program, refines.layer),
        None => false,
    }
}
