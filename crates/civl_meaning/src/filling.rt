// The table of what stands at the places of a program's procedures: how it is made, and what it says.
ghost use Rattle.std.specs.Prelude.{◌≡◌, ℕ, ◌+◌, ◌^◌, ◌<◌, ◌≤◌, length, slice_get, Some, IfOk};
ghost use Rattle.civl_tree.specs.Numbering.{size_of, sizes_of};
ghost use Rattle.civl_meaning.specs.Places.{spot_among, inside_of, spot_at};
ghost use Rattle.civl_meaning.specs.Found.{spot, Fits};
ghost use Rattle.civl_meaning.specs.Table.{IsFound, entry, ArePlacesOf, ArePlaces};
ghost use Rattle.civl_meaning.specs.inner.Filled.{Filled, here_spot};

use crate::config::Plain;
use crate::found::{Found, itself, skipped};
use crate::sizes::{counted_all, size, sizes};
use crate::table::{BodyPlaces, Places};
use civl_tree::{List, Memory, Proc, Stmt};
use std::alloc::Global;

/// What stands at the number of a statement, with what comes after it.
fn found_here<'p>(
    stmt: &'p Stmt,
    at: usize,
    next: usize,
    after: Option<Found<'p>>,
) -> Option<Found<'p>>
    requires small { at + size_of stmt.now < 2 ^ 64 }
    requires after { Fits after }
    ensures { IsFound result (here_spot stmt.now at next (spot after.entry)) }
{
    if skipped(stmt) {
        after
    } else {
        itself(stmt, at, next)
    }
}

/// Fills in what stands at the places of these statements. It goes from the last one to the first, so that what comes
/// after a statement is known.
#[cycle(fill)]
fn fill<'p>(
    stmts: &'p List<Stmt>,
    entries: &mut [Option<Found<'p>>],
    at: usize,
    next: usize,
    after: Option<Found<'p>>,
)
    requires small { at + sizes_of stmts.now < 2 ^ 64 }
    requires room { at + sizes_of stmts.now ≤ length entries.old }
    requires after { Fits after }
    ensures { Filled entries.old entries.new at (at + sizes_of stmts.now) (spot_among stmts.now at next (spot after.entry)) }
{
    let items = stmts.as_slice();
    let mut behind = at + sizes(stmts);
    let mut next = next;
    let mut after = after;
    let mut left = items.len();
    while left > 0 {
        left -= 1;
        let stmt = &items[left];
        let here = behind - size(stmt);
        fill_inside(stmt, entries, here, next, after);
        after = found_here(stmt, here, next, after);
        entries[here] = after;
        next = here;
        behind = here;
    }
}

/// Fills in what stands at the places inside a statement.
#[cycle(fill)]
fn fill_inside<'p>(
    stmt: &'p Stmt,
    entries: &mut [Option<Found<'p>>],
    at: usize,
    next: usize,
    after: Option<Found<'p>>,
)
    requires small { at + size_of stmt.now < 2 ^ 64 }
    requires room { at + size_of stmt.now ≤ length entries.old }
    requires after { Fits after }
    ensures { Filled entries.old entries.new (at + 1) (at + size_of stmt.now) (inside_of stmt.now stmt.now at next (spot after.entry)) }
{
    match stmt {
        Stmt::If(_, a, b) => {
            let second = at + 1 + sizes(a);
            fill(a, entries, at + 1, next, after);
            fill(b, entries, second, next, after);
        }
        Stmt::While(_, a) => fill(a, entries, at + 1, at, itself(stmt, at, next)),
        Stmt::YieldLoop(_, _, a) => fill(a, entries, at + 1, at, itself(stmt, at, next)),
        Stmt::RankLoop(_, _, _, a) => fill(a, entries, at + 1, at, itself(stmt, at, next)),
        Stmt::Assign(_, _) => {}
        Stmt::Assert(_) => {}
        Stmt::Call(_, _, _) => {}
        Stmt::Yield(_) => {}
        Stmt::Commit => {}
        Stmt::Intro(_, _) => {}
        Stmt::Spawn(_, _) => {}
    }
}

/// The table of a body with so many statements.
fn filled<'p>(
    alloc: Global,
    body: &'p List<Stmt>,
    count: usize,
) -> Result<Vec<Option<Found<'p>>>, Memory>
    requires { count ≡ sizes_of body.now }
    ensures { IfOk result (λ found. (place : ℕ) → IsFound (entry found.items place) (spot_at body.now place)) }
{
    let mut found: Vec<Option<Found<'p>>> = vec![in alloc; None; count]?;
    fill(body, found.as_mut_slice(), 0, count, None);
    Ok(found)
}

/// The table of a procedure.
fn proc_places<'p>(alloc: Global, proc: &'p Proc) -> Result<BodyPlaces<'p>, Memory>
    ensures { IfOk result (ArePlacesOf proc.now) }
{
    match counted_all(&proc.body) {
        None => Err(Memory),
        Some(count) => {
            let found = filled(alloc, &proc.body, count)?;
            Ok(BodyPlaces { found })
        }
    }
}

/// The table of what stands at the places of a plain program's procedures. It is made in time that grows with the number
/// of their statements times the depth of nesting.
///
/// # Errors
///
/// For want of memory; and where no `usize` says how many statements a body has, since no memory holds so many.
pub fn places_of(alloc: Global, plain: &Plain) -> Result<Places<'_>, Memory>
    ensures { IfOk result (ArePlaces plain.now) }
{
    let mut procs = Vec::new(alloc);
    for proc in plain.program.procs.as_slice() {
        let places = proc_places(alloc, proc)?;
        procs.push(places)?;
    }
    Ok(Places { procs })
}

/// What a step finds at a place of this procedure, which has this number.
pub fn found_at<'p>(
    plain: &Plain,
    places: &Places<'p>,
    number: usize,
    proc: &Proc,
    place: usize,
) -> Option<Found<'p>>
    requires places { ArePlaces plain.now places.now }
    requires proc { slice_get plain.now.program.procs number ≡ Some proc.now }
    ensures { IsFound result (spot_at proc.now.body place) }
{
    let found = places.procs[number].found.as_slice();
    if place < found.len() {
        found[place]
    } else {
        None
    }
}
