// What leads to a conflict.
ghost use Rattle.std.specs.Prelude.{◌≡◌, ◌<◌, ◌≤◌, Some, length, slice_index_or, All, IfOk, OnOk, IsFalse};
ghost use Rattle.civl_cnf.specs.ClauseSet.{IsBelow, AreBelow};
ghost use Rattle.civl_units.specs.Propagation.{IsFalsified};
ghost use Rattle.civl_units.specs.Marks.{marked};
ghost use Rattle.civl_propagation.specs.declared.trail.Step.{Step as StepOf};
ghost use Rattle.civl_propagation.specs.Trail.{IsAt, IsTrailOver};
ghost use Rattle.civl_cdcl.specs.inner.Levels.{FirstSays, LastSays};
ghost use Rattle.civl_cdcl.specs.inner.Analysis.{AreFound, SeesOne, Sees, Analyses, HasOne, IsUnseen};

use crate::Memory;
use civl_cnf::Lit;
use civl_propagation::{Clauses, Step, Trail};

/// The place of a variable that has a value.
pub fn place_in(places: &[usize], variable: u32) -> usize
    requires { variable < length places.now }
    ensures { result ≡ slice_index_or places.now variable 0 }
{
    places[variable as usize]
}

/// Sees a variable that got its value at or behind a place, and lists it if it wasn't seen.
fn see_one(
    seen: &mut [bool],
    found: &mut Vec<u32>,
    variable: u32,
    place: usize,
    root: usize,
) -> Result<(), Memory>
    requires variable { variable < length seen.old }
    requires found { AreFound seen.old found.old.items }
    ensures sees { OnOk result (SeesOne place root seen.old seen.new variable) }
    ensures found { OnOk result (AreFound seen.new found.new.items) }
{
    if place < root {
        return Ok(());
    }
    if seen[variable as usize] {
        return Ok(());
    }
    found.push(variable)?;
    seen[variable as usize] = true;
    Ok(())
}

/// Sees the variables of a clause that got their values at or behind a place.
fn see(
    seen: &mut [bool],
    found: &mut Vec<u32>,
    clause: &[Lit],
    places: &[usize],
    root: usize,
) -> Result<(), Memory>
    requires clause { IsBelow (length seen.old) clause.now }
    requires places { length places.now ≡ length seen.old }
    requires found { AreFound seen.old found.old.items }
    ensures sees { OnOk result (Sees places.now root seen.old seen.new clause.now) }
    ensures found { OnOk result (AreFound seen.new found.new.items) }
{
    for lit in clause {
        let variable = lit.variable();
        let place = place_in(places, variable);
        see_one(seen, found, variable, place, root)?;
    }
    Ok(())
}

/// Whether one of these steps is seen, looking from the last.
fn any_seen(steps: &[Step], seen: &[bool], from: usize, to: usize) -> bool
    requires within { All (λ (s : StepOf). s.lit.variable < length seen.now) steps.now }
    requires from { from ≤ to }
    requires to { to ≤ length steps.now }
    ensures { IsFalse result → IsUnseen steps.now seen.now from to }
{
    let mut at = to;
    while from < at {
        at -= 1;
        if seen[steps[at].lit.variable() as usize] {
            return true;
        }
    }
    false
}

/// Goes from the end of the trail down, and sees the reason of each literal that is seen, until one literal of the level is left: the first unique implication point, which is answered.
fn walk(
    trail: &Trail,
    clauses: &Clauses,
    start: usize,
    root: usize,
    seen: &mut [bool],
    found: &mut Vec<u32>,
) -> Result<Lit, Memory>
    requires below { AreBelow (length trail.now.marks) clauses.now }
    requires trail { IsTrailOver trail.now clauses.now }
    requires start { LastSays trail.now.starts (Some start) }
    requires root { FirstSays trail.now.starts root }
    requires seen { Analyses trail.now.marks trail.now.places clauses.now (length trail.now.steps) seen.old }
    requires found { AreFound seen.old found.old.items }
    ensures one { IfOk result (λ one. HasOne trail.now.marks trail.now.places clauses.now start one seen.new) }
    ensures found { OnOk result (AreFound seen.new found.new.items) }
{
    let mut at = trail.len();
    loop {
        at -= 1;
        let step = trail.step(at);
        let variable = step.lit.variable();
        if seen[variable as usize] {
            if !any_seen(trail.steps(), seen, start, at) {
                return Ok(step.lit);
            }
            match step.reason {
                None => return Ok(step.lit),
                Some(reason) => see(seen, found, clauses.lits(reason), trail.places(), root)?,
            }
        }
    }
}

/// Sees what leads to a conflict, with one literal of the last level, which is answered.
pub fn analyse(
    trail: &Trail,
    clauses: &Clauses,
    conflict: usize,
    start: usize,
    root: usize,
    seen: &mut [bool],
    found: &mut Vec<u32>,
) -> Result<Lit, Memory>
    requires below { AreBelow (length trail.now.marks) clauses.now }
    requires trail { IsTrailOver trail.now clauses.now }
    requires start { LastSays trail.now.starts (Some start) }
    requires root { FirstSays trail.now.starts root }
    requires conflict { IsAt clauses.now conflict (IsFalsified (marked trail.now.marks)) }
    requires seen { length seen.old ≡ length trail.now.marks }
    requires found { AreFound seen.old found.old.items }
    ensures one { IfOk result (λ one. HasOne trail.now.marks trail.now.places clauses.now start one seen.new) }
    ensures found { OnOk result (AreFound seen.new found.new.items) }
{
    see(seen, found, clauses.lits(conflict), trail.places(), root)?;
    let one = walk(trail, clauses, start, root, seen, found)?;
    Ok(one)
}
