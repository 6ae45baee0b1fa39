// The clause that a conflict teaches.
ghost use Rattle.std.specs.Prelude.{◌≡◌, ◌⊎◌, ◌<◌, ◌≤◌, ◌^◌, None, Some, false, length, slice_index_or, All, IfOk, OnOk, IsTrue};
ghost use Rattle.std.specs.List.Sorted.{IsPermutation};
ghost use Rattle.civl_cnf.specs.ClauseSet.{IsBelow, AreBelow};
ghost use Rattle.civl_units.specs.Propagation.{IsFalsified};
ghost use Rattle.civl_units.specs.Marks.{marked};
ghost use Rattle.civl_propagation.specs.Trail.{IsAt, IsTrailOver};
ghost use Rattle.civl_cdcl.specs.inner.Levels.{FirstSays, LastSays};
ghost use Rattle.civl_cdcl.specs.inner.Analysis.{sees, AreFound, HasOne, AreSeen, Follows, KeepSays, with_kept, Teaches, ReachSays, LearnSays};

use crate::Memory;
use crate::analysis::{analyse, place_in};
use crate::hints::place_of;
use crate::levels::{first_start, levels_below};
use civl_cnf::{Clause, Lit};
use civl_propagation::{Clauses, Trail};
use std::alloc::Global;

/// The value that a variable has.
fn value_of(trail: &Trail, variable: u32) -> Option<bool>
    requires { variable < length trail.now.marks }
    ensures { result ≡ slice_index_or trail.now.marks variable None }
{
    trail.marks()[variable as usize]
}

/// Whether a variable is this one, or seen, or got its value before a place.
fn is_known(seen: &[bool], variable: u32, place: usize, root: usize, besides: u32) -> bool
    requires { variable < length seen.now }
    ensures { IsTrue result → (variable ≡ besides) ⊎ (place < root) ⊎ IsTrue (sees seen.now variable) }
{
    if variable == besides {
        return true;
    }
    if place < root {
        return true;
    }
    seen[variable as usize]
}

/// Whether each variable of a clause but one is seen, or got its value before a place.
fn all_seen(seen: &[bool], clause: &[Lit], places: &[usize], root: usize, besides: u32) -> bool
    requires clause { IsBelow (length seen.now) clause.now }
    requires places { length places.now ≡ length seen.now }
    ensures { IsTrue result → AreSeen places.now root seen.now besides clause.now }
{
    for lit in clause {
        let variable = lit.variable();
        let place = place_in(places, variable);
        if !is_known(seen, variable, place, root, besides) {
            return false;
        }
    }
    true
}

/// Whether a literal follows from those that are seen and were made true before it, by its reason alone (Sorensson and Biere, "Minimizing learned clauses", 2009).
fn is_redundant(trail: &Trail, clauses: &Clauses, variable: u32, root: usize, seen: &[bool]) -> bool
    requires below { AreBelow (length trail.now.marks) clauses.now }
    requires trail { IsTrailOver trail.now clauses.now }
    requires root { FirstSays trail.now.starts root }
    requires seen { length seen.now ≡ length trail.now.marks }
    requires variable { variable < length trail.now.marks }
    ensures { IsTrue result → Follows trail.now.marks trail.now.places clauses.now seen.now variable }
{
    let place = place_in(trail.places(), variable);
    if trail.len() <= place {
        return false;
    }
    let step = trail.step(place);
    match step.reason {
        None => false,
        Some(reason) => all_seen(seen, clauses.lits(reason), trail.places(), root, variable),
    }
}

/// The opposite of the literal of a variable that is seen, where it was made true before the level, and the others don't lead to it.
fn keep(
    trail: &Trail,
    clauses: &Clauses,
    variable: u32,
    start: usize,
    root: usize,
    seen: &[bool],
) -> Option<Lit>
    requires few { length trail.now.marks ≤ 2 ^ 31 }
    requires below { AreBelow (length trail.now.marks) clauses.now }
    requires trail { IsTrailOver trail.now clauses.now }
    requires root { FirstSays trail.now.starts root }
    requires seen { length seen.now ≡ length trail.now.marks }
    requires variable { variable < length trail.now.marks }
    ensures { KeepSays trail.now.marks trail.now.places clauses.now start seen.now variable result }
{
    let place = place_in(trail.places(), variable);
    if start <= place {
        return None;
    }
    match value_of(trail, variable) {
        None => None,
        Some(value) => {
            if is_redundant(trail, clauses, variable, root, seen) {
                return None;
            }
            Some(Lit::new(variable, !value))
        }
    }
}

/// Adds a literal, if there is one.
fn push_kept(lits: &mut Vec<Lit>, kept: &Option<Lit>) -> Result<(), Memory>
    ensures { OnOk result (lits.new.items ≡ with_kept lits.old.items kept.now) }
{
    match kept {
        None => Ok(()),
        Some(lit) => {
            lits.push(*lit)?;
            Ok(())
        }
    }
}

/// The opposite of the level's one literal, and of each other that is kept.
fn collect(
    alloc: Global,
    trail: &Trail,
    clauses: &Clauses,
    one: Lit,
    start: usize,
    root: usize,
    seen: &[bool],
    found: &[u32],
) -> Result<Vec<Lit>, Memory>
    requires few { length trail.now.marks ≤ 2 ^ 31 }
    requires below { AreBelow (length trail.now.marks) clauses.now }
    requires trail { IsTrailOver trail.now clauses.now }
    requires root { FirstSays trail.now.starts root }
    requires one { HasOne trail.now.marks trail.now.places clauses.now start one seen.now }
    requires found { AreFound seen.now found.now }
    ensures { IfOk result (λ lits. Teaches trail.now.marks trail.now.places clauses.now start one seen.now lits.items) }
{
    let mut lits: Vec<Lit> = Vec::new(alloc);
    lits.push(one.negate())?;
    for variable in found {
        let kept = keep(trail, clauses, *variable, start, root, seen);
        push_kept(&mut lits, &kept)?;
    }
    Ok(lits)
}

/// Puts literals into the order in which their variables got their values. Propagation looks through a clause from its front, so it finds those that were decided on low levels first, which stay longest.
fn by_place(lits: &mut Vec<Lit>, places: &[usize])
    ensures { IsPermutation lits.old.items lits.new.items }
{
    lits.sort_unstable_by_key(|lit| place_of(places, lit.variable()));
}

/// Sees nothing any more.
fn forget(seen: &mut [bool], found: &[u32])
    requires { AreFound seen.old found.now }
    ensures size { length seen.new ≡ length seen.old }
    ensures none { All (λ b. b ≡ false) seen.new }
{
    for variable in found {
        seen[*variable as usize] = false;
    }
}

/// How much of the trail is to stay, so that the clause forces one of its literals: the place behind the last of the others.
fn reach(places: &[usize], clause: &[Lit], start: usize) -> usize
    requires { IsBelow (length places.now) clause.now }
    ensures { ReachSays places.now clause.now start result }
{
    let mut reach = 0;
    for lit in clause {
        let place = places[lit.variable() as usize];
        if place < start && reach <= place {
            reach = place + 1;
        }
    }
    reach
}

/// A clause that was learned, and how many levels are to stay.
#[derive(Drop)]
pub struct Learned {
    pub clause: Clause,
    pub levels: usize,
}

/// Learns the clause of what was seen.
fn teach(
    alloc: Global,
    trail: &Trail,
    clauses: &Clauses,
    one: Lit,
    start: usize,
    root: usize,
    seen: &[bool],
    found: &[u32],
) -> Result<Learned, Memory>
    requires few { length trail.now.marks ≤ 2 ^ 31 }
    requires below { AreBelow (length trail.now.marks) clauses.now }
    requires trail { IsTrailOver trail.now clauses.now }
    requires start { LastSays trail.now.starts (Some start) }
    requires root { FirstSays trail.now.starts root }
    requires one { HasOne trail.now.marks trail.now.places clauses.now start one seen.now }
    requires found { AreFound seen.now found.now }
    ensures { IfOk result (λ learned. LearnSays trail.now clauses.now learned.clause learned.levels) }
{
    let mut lits = collect(alloc, trail, clauses, one, start, root, seen, found)?;
    by_place(&mut lits, trail.places());
    let limit = reach(trail.places(), lits.as_slice(), start);
    let levels = levels_below(trail.starts(), limit);
    let clause = Clause::from_slice(alloc, lits.as_slice())?;
    Ok(Learned { clause, levels })
}

/// The clause that a conflict above the first level teaches. What was seen for that is listed, and nothing is seen any more.
pub fn learn(
    alloc: Global,
    trail: &Trail,
    clauses: &Clauses,
    conflict: usize,
    start: usize,
    seen: &mut [bool],
    found: &mut Vec<u32>,
) -> Result<Learned, Memory>
    requires few { length trail.now.marks ≤ 2 ^ 31 }
    requires below { AreBelow (length trail.now.marks) clauses.now }
    requires trail { IsTrailOver trail.now clauses.now }
    requires start { LastSays trail.now.starts (Some start) }
    requires conflict { IsAt clauses.now conflict (IsFalsified (marked trail.now.marks)) }
    requires seen { length seen.old ≡ length trail.now.marks }
    requires none { All (λ b. b ≡ false) seen.old }
    ensures says { IfOk result (λ learned. LearnSays trail.now clauses.now learned.clause learned.levels) }
    ensures size { OnOk result (length seen.new ≡ length seen.old) }
    ensures none { OnOk result (All (λ b. b ≡ false) seen.new) }
{
    found.clear();
    let root = first_start(trail.starts());
    let one = analyse(trail, clauses, conflict, start, root, seen, found)?;
    let learned = teach(
        alloc,
        trail,
        clauses,
        one,
        start,
        root,
        seen,
        found.as_slice(),
    )?;
    forget(seen, found.as_slice());
    Ok(learned)
}
