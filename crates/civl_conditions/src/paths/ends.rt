// Where the paths from a cut end, by the numbers of cuts.
ghost use Rattle.std.specs.Prelude.{◌≡◌, ◌+◌, ◌++◌, ◌∷◌, [], ◌<◌, ◌^◌, nat_eq, if◌then◌else◌, length, map, IfOk};
ghost use Rattle.std.specs.List.{list_any};
ghost use Rattle.civl_conditions.specs.paths.EndsMet.{is_before, number_among, is_reached, ends_by, AreEnds};

use crate::paths::met::Met;
use civl_layers::{Cut, CutKind};
use civl_tree::{List, Memory};
use std::alloc::Global;

/// Whether a cut is a statement that comes before the one with this number.
fn is_before(cut: &Cut, number: u32) -> bool
    ensures { result ≡ is_before number cut.now }
{
    match cut.kind {
        CutKind::Entry => false,
        CutKind::Yield | CutKind::YieldLoop | CutKind::RankLoop => cut.statement < number,
    }
}

/// The number of the cut that is the statement with this number: behind the entry and the cuts before it.
fn number_among(cuts: &List<Cut>, number: u32) -> usize
    requires { length cuts.now < 2 ^ 32 }
    ensures { result ≡ number_among cuts.now number }
{
    let mut place = 1;
    for cut in cuts.as_slice() {
        if is_before(cut, number) {
            place += 1;
        }
    }
    place
}

/// The numbers of the cuts that are the statements with these numbers.
fn numbers_among(
    alloc: Global,
    cuts: &List<Cut>,
    statements: &List<u32>,
) -> Result<List<usize>, Memory>
    requires { length cuts.now < 2 ^ 32 }
    ensures { IfOk result (λ numbers. numbers ≡ map (number_among cuts.now) statements.now) }
{
    let mut numbers = List::new(alloc);
    for statement in statements.as_slice() {
        numbers.push(number_among(cuts, *statement))?;
    }
    Ok(numbers)
}

/// Whether this is one of these numbers.
fn is_any(numbers: &List<usize>, end: usize) -> bool
    ensures { result ≡ list_any (λ number. nat_eq end number) numbers.now }
{
    for number in numbers.as_slice() {
        if end == *number {
            return true;
        }
    }
    false
}

/// Whether this is the exit, to which some path goes on, or one of these numbers.
fn is_reached(onward: bool, exit: usize, numbers: &List<usize>, end: usize) -> bool
    ensures { result ≡ is_reached onward exit numbers.now end }
{
    (onward && end == exit) || is_any(numbers, end)
}

/// Puts this number behind the others, where it is reached.
fn push_end(ends: &mut List<u32>, reached: bool, end: usize) -> Result<(), Memory>
    requires { end < 2 ^ 32 }
    ensures { IfOk result (λ done. ends.new ≡ ends.old ++ (if reached then end ∷ [] else [])) }
{
    if reached {
        ends.push(end as u32)?;
    }
    Ok(())
}

/// Of the numbers of these cuts and of the exit, those that are reached.
fn ends_by(
    alloc: Global,
    onward: bool,
    cuts: &List<Cut>,
    numbers: &List<usize>,
) -> Result<List<u32>, Memory>
    requires { length cuts.now < 2 ^ 32 }
    ensures { IfOk result (λ ends. ends ≡ ends_by onward cuts.now numbers.now) }
{
    let exit = cuts.len();
    let mut ends = List::new(alloc);
    for end in 0..exit {
        let reached = is_reached(onward, exit, numbers, end);
        push_end(&mut ends, reached, end)?;
    }
    let reached = is_reached(onward, exit, numbers, exit);
    push_end(&mut ends, reached, exit)?;
    Ok(ends)
}

/// The numbers of the cuts at which some path from a cut ends, and that of the exit, which comes behind them, if some path
/// goes on to it; rising. `cuts` are those of its procedure, and `met` is what the paths meet.
///
/// # Errors
///
/// For want of memory.
pub fn ends_from(alloc: Global, cuts: &List<Cut>, met: &Met) -> Result<List<u32>, Memory>
    requires { length cuts.now < 2 ^ 32 }
    ensures { IfOk result (AreEnds cuts.now met.now) }
{
    let numbers = numbers_among(alloc, cuts, &met.ends)?;
    let ends = ends_by(alloc, met.onward, cuts, &numbers)?;
    Ok(ends)
}
