// The statements of a body with what comes after each.
ghost use Rattle.std.specs.Prelude.{◌≡◌, ◌+◌, ◌<◌, ◌^◌, ◌++◌, map, length, nat_lt, if◌then◌else◌, IfOk, OnOk};
ghost use Rattle.civl_tree.specs.Numbering.{size_of, sizes_of, inner_of, statements_of};
ghost use Rattle.civl_meaning.specs.Places.{spot_among, inside_of};
ghost use Rattle.civl_outlined.specs.inner.Places.{Own, ArePlaces};

use crate::sizes::{size, sizes};
use civl_tree::{List, Memory, Stmt};
use std::alloc::Global;

/// A statement, and the place that comes after it.
#[derive(Clone, Copy)]
pub(crate) struct Place<'a> {
    pub stmt: &'a Stmt,
    pub next: u32,
}

/// What comes after the one with this index of so many statements: the number behind it, or what comes after all of them.
fn place_after(index: usize, count: usize, behind: u32, next: u32) -> u32
    requires { index < count }
    ensures { result ≡ (if nat_lt (index + 1) count then behind else next) }
{
    if index + 1 < count { behind } else { next }
}

/// Adds these statements and those in them, where the first has this number and this place comes after them.
#[cycle(places)]
#[tactic(auto, using(civl_names::proofs::walks::Collecting::collecting))]
fn add_all<'a>(
    stmts: &'a List<Stmt>,
    places: &mut Vec<Place<'a>>,
    at: u32,
    next: u32,
) -> Result<(), Memory>
    requires small { at + sizes_of stmts.now < 2 ^ 32 }
    requires count { length places.old.items ≡ at }
    ensures statements { OnOk result (map (λ p. p.stmt.now) places.new.items ≡ map (λ p. p.stmt.now) places.old.items ++ statements_of stmts.now) }
    ensures own { OnOk result (Own places.old.items places.new.items at (at + sizes_of stmts.now) (spot_among stmts.now at next)) }
{
    let items = stmts.as_slice();
    let mut here = at;
    for (index, stmt) in items.iter().enumerate() {
        let behind = here + size(stmt);
        let after = place_after(index, items.len(), behind, next);
        places.push(Place { stmt, next: after })?;
        add_inner(stmt, places, here, after)?;
        here = behind;
    }
    Ok(())
}

/// Adds the statements in this one, which has this number and which this place comes after.
#[cycle(places)]
#[tactic(auto, using(civl_names::proofs::walks::Collecting::collecting))]
fn add_inner<'a>(
    stmt: &'a Stmt,
    places: &mut Vec<Place<'a>>,
    at: u32,
    next: u32,
) -> Result<(), Memory>
    requires small { at + size_of stmt.now < 2 ^ 32 }
    requires count { length places.old.items ≡ at + 1 }
    ensures statements { OnOk result (map (λ p. p.stmt.now) places.new.items ≡ map (λ p. p.stmt.now) places.old.items ++ inner_of stmt.now) }
    ensures own { OnOk result (Own places.old.items places.new.items (at + 1) (at + size_of stmt.now) (inside_of stmt.now stmt.now at next)) }
{
    match stmt {
        Stmt::If(_, first, second) => {
            add_all(first, places, at + 1, next)?;
            add_all(second, places, at + 1 + sizes(first), next)?;
            Ok(())
        }
        Stmt::While(_, body) => {
            add_all(body, places, at + 1, at)?;
            Ok(())
        }
        Stmt::YieldLoop(_, _, body) => {
            add_all(body, places, at + 1, at)?;
            Ok(())
        }
        Stmt::RankLoop(_, _, _, body) => {
            add_all(body, places, at + 1, at)?;
            Ok(())
        }
        Stmt::Assign(_, _) => Ok(()),
        Stmt::Assert(_) => Ok(()),
        Stmt::Call(_, _, _) => Ok(()),
        Stmt::Yield(_) => Ok(()),
        Stmt::Commit => Ok(()),
        Stmt::Intro(_, _) => Ok(()),
        Stmt::Spawn(_, _) => Ok(()),
    }
}

/// The statements of a body in text order, each with the place that comes after it: the number of a statement is its place
/// here.
pub(crate) fn places_of<'a>(alloc: Global, body: &'a List<Stmt>) -> Result<Vec<Place<'a>>, Memory>
    requires { sizes_of body.now < 2 ^ 32 }
    ensures { IfOk result (λ places. ArePlaces body.now places.items) }
{
    let count = sizes(body);
    let mut places = Vec::new(alloc);
    add_all(body, &mut places, 0, count)?;
    Ok(places)
}
