// The search up to its next conflict.
ghost use Rattle.std.specs.Prelude.{◌≡◌, ◌<◌, ◌≤◌, length, IfOk, OnOk};
ghost use Rattle.civl_propagation.specs.Engine.{IsEngine, EndsBy};
ghost use Rattle.civl_cdcl.specs.inner.Propagation.{DescentSays};
ghost use Rattle.civl_cdcl.specs.inner.Notes.{IsClear};
ghost use Rattle.civl_cdcl.specs.Turn.{IsBack, TurnSays};

use crate::Memory;
use crate::levels::last_start;
use crate::notes::Notes;
use crate::order::Order;
use crate::restarts::Restarts;
use crate::teaching::learn;
use civl_cnf::Clause;
use civl_propagation::{Ended, Engine};
use std::alloc::Global;

/// What the search finds by its next conflict: all variables have a value, the clauses are refuted, no clause may be learned any more, or this clause was learned.
#[derive(Drop)]
pub enum Turn {
    Marked,
    Refuted,
    Full,
    Learns(Clause),
}

/// Decides and propagates by turns, from where propagation ended so, in this order.
fn descend(engine: &mut Engine, order: &mut Order, begun: Ended) -> Result<Ended, Memory>
    requires { EndsBy engine.old begun }
    ensures clauses { OnOk result (engine.new.clauses ≡ engine.old.clauses) }
    ensures size { OnOk result (length engine.new.trail.marks ≡ length engine.old.trail.marks) }
    ensures ended { IfOk result (DescentSays engine.new) }
{
    let mut ended = begun;
    loop {
        match ended {
            Ended::Conflict(falsified) => return Ok(Ended::Conflict(falsified)),
            Ended::Quiet => match order.choose(engine.trail().marks()) {
                None => return Ok(Ended::Quiet),
                Some(lit) => ended = engine.decide(lit)?,
            },
        }
    }
}

/// How many levels stay: so many, or none where the search begins anew.
fn kept_levels(order: &Order, restarts: &mut Restarts, levels: usize) -> usize
    ensures { result ≤ levels }
{
    if order.is_fixed() {
        return levels;
    }
    if restarts.is_due() {
        return 0;
    }
    levels
}

/// Takes levels back until there are so many, or none where the search begins anew.
fn go_back(engine: &mut Engine, notes: &mut Notes, levels: usize) -> Result<(), Memory>
    requires engine { IsEngine engine.old }
    requires levels { levels < length engine.old.trail.starts }
    ensures back { OnOk result (IsBack engine.old engine.new levels) }
    ensures seen { OnOk result (notes.new.seen ≡ notes.old.seen) }
{
    notes.order.note(notes.found.as_slice())?;
    let kept = kept_levels(&notes.order, &mut notes.restarts, levels);
    notes.order.take_back(engine.trail(), kept)?;
    engine.cut(kept);
    Ok(())
}

/// Goes on to the next conflict, from where propagation ended so. Above the first level it teaches a clause, and where one may be learned, levels are taken back, so that it can be added.
pub fn take_turn(
    alloc: Global,
    engine: &mut Engine,
    notes: &mut Notes,
    begun: Ended,
    may_learn: bool,
) -> Result<Turn, Memory>
    requires begun { EndsBy engine.old begun }
    requires clear { IsClear notes.old.seen.items (length engine.old.trail.marks) }
    ensures says { IfOk result (TurnSays may_learn engine.old engine.new) }
    ensures clear { OnOk result (IsClear notes.new.seen.items (length engine.old.trail.marks)) }
{
    let ended = descend(engine, &mut notes.order, begun)?;
    match ended {
        Ended::Quiet => Ok(Turn::Marked),
        Ended::Conflict(conflict) => match last_start(engine.trail().starts()) {
            None => {
                notes.hints.refute(engine.trail(), conflict)?;
                Ok(Turn::Refuted)
            }
            Some(start) => {
                let learned = learn(
                    alloc,
                    engine.trail(),
                    engine.clauses(),
                    conflict,
                    start,
                    &mut notes.seen,
                    &mut notes.found,
                )?;
                if may_learn {
                    notes.hints.learn(
                        engine.trail(),
                        notes.found.as_slice(),
                        learned.clause.lits(),
                        conflict,
                    )?;
                    go_back(engine, notes, learned.levels)?;
                    return Ok(Turn::Learns(learned.clause));
                }
                Ok(Turn::Full)
            }
        },
    }
}
