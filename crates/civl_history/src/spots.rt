// The statements with which a plain program goes on from the places of its bodies, each with its number.
ghost use Rattle.std.specs.Prelude.{ℕ, ◌≡◌, ◌+◌, ◌^◌, ◌<◌, ◌≤◌, length, slice_get, Some, Option, IfOk};
ghost use Rattle.civl_tree.specs.Numbering.{size_of, sizes_of};
ghost use Rattle.civl_meaning.specs.Places.{Spot, spot_among, inside_of, spot_at, loop_spot};
ghost use Rattle.civl_meaning.specs.inner.Filled.{here_spot};
ghost use Rattle.civl_history.specs.Stands.{spot_of_frame};
ghost use Rattle.civl_history.specs.inner.Spots.{IsFound, entry, Filled, AreSpotsOf, AreSpots};

use crate::counting::counted_all;
use civl_meaning::remaining::Numbered;
use civl_meaning::sizes::{size, sizes};
use civl_meaning::{Activation, Plain, skipped};
use civl_tree::{List, Memory, Proc, Stmt};
use std::alloc::Global;

/// The entry for each place of a body: the statement with which a plain program goes on from there.
#[derive(Drop)]
pub(crate) struct BodySpots<'p> {
    entries: Vec<Option<Numbered<'p>>>,
}

/// The entries for the places of all procedures, in the order of the procedures.
#[derive(Drop)]
pub(crate) struct Spots<'p> {
    procs: Vec<BodySpots<'p>>,
}

/// The statement itself, or what comes after it, if a plain program passes over it.
fn found_here<'p>(
    stmt: &'p Stmt,
    number: usize,
    after: Option<Numbered<'p>>,
) -> Option<Numbered<'p>>
    ensures { (next : ℕ) (last : Option Spot) → IsFound after.entry last → IsFound result (here_spot stmt.now number next last) }
{
    if skipped(stmt) {
        after
    } else {
        Some(Numbered { number, stmt })
    }
}

/// Fills in the entries for the places of these statements, the first of which has this number. It goes from the last one
/// to the first, so that what comes after a statement is known.
#[cycle(fill)]
fn fill<'p>(
    stmts: &'p List<Stmt>,
    entries: &mut [Option<Numbered<'p>>],
    at: usize,
    after: Option<Numbered<'p>>,
)
    requires small { at + sizes_of stmts.now < 2 ^ 64 }
    requires room { at + sizes_of stmts.now ≤ length entries.old }
    ensures long { length entries.new ≡ length entries.old }
    ensures filled { (next : ℕ) (last : Option Spot) → IsFound after.entry last
        → Filled entries.old entries.new at (at + sizes_of stmts.now) (spot_among stmts.now at next last) }
{
    let items = stmts.as_slice();
    let mut behind = at + sizes(stmts);
    let mut after = after;
    let mut left = items.len();
    while left > 0 {
        left -= 1;
        let stmt = &items[left];
        let here = behind - size(stmt);
        fill_inside(stmt, entries, here, after);
        after = found_here(stmt, here, after);
        entries[here] = after;
        behind = here;
    }
}

/// Fills in the entries for the places inside a statement.
#[cycle(fill)]
fn fill_inside<'p>(
    stmt: &'p Stmt,
    entries: &mut [Option<Numbered<'p>>],
    at: usize,
    after: Option<Numbered<'p>>,
)
    requires small { at + size_of stmt.now < 2 ^ 64 }
    requires room { at + size_of stmt.now ≤ length entries.old }
    ensures long { length entries.new ≡ length entries.old }
    ensures filled { (next : ℕ) (last : Option Spot) → IsFound after.entry last
        → Filled entries.old entries.new (at + 1) (at + size_of stmt.now) (inside_of stmt.now stmt.now at next last) }
{
    let itself = Some(Numbered { number: at, stmt });
    match stmt {
        Stmt::If(_, a, b) => {
            let second = at + 1 + sizes(a);
            fill(a, entries, at + 1, after);
            fill(b, entries, second, after);
        }
        Stmt::While(_, a) => fill(a, entries, at + 1, itself),
        Stmt::YieldLoop(_, _, a) => fill(a, entries, at + 1, itself),
        Stmt::RankLoop(_, _, _, a) => fill(a, entries, at + 1, itself),
        Stmt::Assign(_, _) => {}
        Stmt::Assert(_) => {}
        Stmt::Call(_, _, _) => {}
        Stmt::Yield(_) => {}
        Stmt::Commit => {}
        Stmt::Intro(_, _) => {}
        Stmt::Spawn(_, _) => {}
    }
}

/// The entries for a body with so many statements.
fn filled<'p>(
    alloc: Global,
    body: &'p List<Stmt>,
    count: usize,
) -> Result<Vec<Option<Numbered<'p>>>, Memory>
    requires { count ≡ sizes_of body.now }
    ensures { IfOk result (λ entries. (place : ℕ) → IsFound (entry entries.items place) (spot_at body.now place)) }
{
    let mut entries: Vec<Option<Numbered<'p>>> = vec![in alloc; None; count]?;
    fill(body, entries.as_mut_slice(), 0, None);
    Ok(entries)
}

/// The table of a procedure.
fn body_spots<'p>(alloc: Global, proc: &'p Proc) -> Result<BodySpots<'p>, Memory>
    ensures { IfOk result (AreSpotsOf proc.now) }
{
    match counted_all(&proc.body) {
        None => Err(Memory),
        Some(count) => {
            let entries = filled(alloc, &proc.body, count)?;
            Ok(BodySpots { entries })
        }
    }
}

/// The table of a plain program. It is made in time that grows with the number of statements times the depth of nesting.
pub(crate) fn spots_of(alloc: Global, plain: &Plain) -> Result<Spots<'_>, Memory>
    ensures { IfOk result (AreSpots plain.now) }
{
    let mut procs = Vec::new(alloc);
    for proc in plain.program.procs.as_slice() {
        let spots = body_spots(alloc, proc)?;
        procs.push(spots)?;
    }
    Ok(Spots { procs })
}

/// The statement with which a frame goes on, where there is one.
pub(crate) fn spot_of<'p>(
    plain: &Plain,
    spots: &Spots<'p>,
    frame: &Activation,
) -> Option<Numbered<'p>>
    requires { AreSpots plain.now spots.now }
    ensures { IsFound result (spot_of_frame plain.now frame.now) }
{
    if frame.procedure >= spots.procs.len() {
        return None;
    }
    let entries = spots.procs[frame.procedure].entries.as_slice();
    if frame.place < entries.len() {
        entries[frame.place]
    } else {
        None
    }
}
