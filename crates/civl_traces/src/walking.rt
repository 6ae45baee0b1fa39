// Going over the statements of a path.
ghost use Rattle.std.specs.Prelude.{◌≡◌, ◌+◌, ◌<◌, ◌^◌, false, IfOk};
ghost use Rattle.civl_tree.specs.declared.stmt.Stmt.{out-Stmt};
ghost use Rattle.civl_tree.specs.Numbering.{size_of, sizes_of, numbered};
ghost use Rattle.civl_meaning.specs.Remaining.{rest_of};
ghost use Rattle.civl_conditions.specs.paths.Paths.{pass};
ghost use Rattle.civl_traces.specs.Traces.{decided, moved, tell, tell_all, tell_loop, tell_rest, tell_kind, trace_from};
ghost use Rattle.civl_traces.specs.Told.{course, progress, told};
ghost use Rattle.civl_traces.specs.inner.Walking.{course_of, outcome, goes_on, is_if, with_passage, finished, AreWithin, HeadFits, Went};

use crate::changing::{changed, copied};
use crate::passing::{Way, assert, assign, call, commit, introduce, tested};
use crate::walked::{Chosen, Ending, Moment, Passage, Walked};
use civl_conditions::paths::is_entry;
use civl_layers::Cut;
use civl_meaning::Plain;
use civl_meaning::remaining::{Numbered, rest_at};
use civl_meaning::sizes::{size, sizes};
use civl_tree::{Expr, List, Memory, Proc, Stmt};
use std::alloc::Global;

/// How far a walk has come: what it passed, and the state; and where it ended, the number of the statement there.
#[derive(Drop)]
struct Walker {
    passed: List<Passage>,
    moment: Moment,
    at: usize,
}

/// Whether the path goes on.
fn goes_on(ending: Ending) -> bool
    ensures { result ≡ goes_on ending }
{
    match ending {
        Ending::Past => true,
        Ending::Comes | Ending::Fails | Ending::Stops => false,
    }
}

/// Tells a statement that has a condition.
#[tactic(auto, using(crate::proofs::Changes::unchanged))]
fn decide(alloc: Global, walker: &mut Walker, number: usize, truth: bool) -> Result<(), Memory>
    ensures { IfOk result (λ done. walker.new ≡ with_passage (decided number truth (progress walker.old.moment)) walker.old) }
{
    walker.passed.push(Passage {
        statement: number,
        took: Some(truth),
        changed: List::new(alloc),
        done: walker.moment.done,
        again: walker.moment.again,
    })
}

/// Tells a statement that has no condition and was passed from this state.
fn tell(alloc: Global, walker: &mut Walker, number: usize, before: &Moment) -> Result<(), Memory>
    ensures { IfOk result (λ done. walker.new ≡ with_passage (moved number (progress before.now) (progress walker.old.moment)) walker.old) }
{
    let changed = changed(alloc, before, &walker.moment)?;
    walker.passed.push(Passage {
        statement: number,
        took: None,
        changed,
        done: walker.moment.done,
        again: walker.moment.again,
    })
}

/// What going over a statement comes to, but for an `if`.
#[tactic(auto, using(civl_conditions::proofs::paths::Passing::passing))]
fn pass(
    alloc: Global,
    way: &Way<'_>,
    moment: &mut Moment,
    stmt: &Stmt,
    number: usize,
) -> Result<Ending, Memory>
    requires { is_if (out-Stmt stmt.now) ≡ false }
    ensures { IfOk result (λ ending. outcome ending number moment.new ≡ pass (course_of way.now) stmt.now number (progress moment.old)) }
{
    match stmt {
        Stmt::Assign(name, expr) => {
            assign(alloc, way, moment, number, name, expr);
            Ok(Ending::Past)
        }
        Stmt::Assert(expr) => Ok(assert(way, moment, number, expr)),
        Stmt::Call(name, args, results) => call(alloc, way, moment, number, name, args, results),
        Stmt::Commit => {
            commit(moment);
            Ok(Ending::Past)
        }
        Stmt::Intro(name, expr) => {
            introduce(alloc, way, moment, name, expr);
            Ok(Ending::Past)
        }
        Stmt::YieldLoop(_, _, _) | Stmt::RankLoop(_, _, _, _) | Stmt::Yield(_) => Ok(Ending::Comes),
        Stmt::While(_, _) | Stmt::Spawn(_, _) | Stmt::If(_, _, _) => Ok(Ending::Stops),
    }
}

/// Goes over a statement that isn't an `if`.
fn walk_one(
    alloc: Global,
    way: &Way<'_>,
    walker: &mut Walker,
    stmt: &Stmt,
    number: usize,
) -> Result<Ending, Memory>
    requires { is_if (out-Stmt stmt.now) ≡ false }
    ensures { IfOk result (λ ending. Went walker.old ending walker.new (tell (course_of way.now) stmt.now stmt.now number)) }
{
    let before = copied(alloc, &walker.moment)?;
    let ending = pass(alloc, way, &mut walker.moment, stmt, number)?;
    if !goes_on(ending) {
        walker.at = number;
        return Ok(ending);
    }
    tell(alloc, walker, number, &before)?;
    Ok(ending)
}

/// Goes over these statements, the first of which has this number.
#[cycle(walk)]
fn walk_stmts(
    alloc: Global,
    way: &Way<'_>,
    walker: &mut Walker,
    stmts: &List<Stmt>,
    number: usize,
) -> Result<Ending, Memory>
    requires { number + sizes_of stmts.now < 2 ^ 64 }
    ensures { IfOk result (λ ending. Went walker.old ending walker.new (tell_all (course_of way.now) (numbered number stmts.now))) }
{
    let mut here = number;
    for stmt in stmts.as_slice() {
        let ending = walk_stmt(alloc, way, walker, stmt, here)?;
        if !goes_on(ending) {
            return Ok(ending);
        }
        here += size(stmt);
    }
    Ok(Ending::Past)
}

/// Goes over a statement that has this number.
#[cycle(walk)]
fn walk_stmt(
    alloc: Global,
    way: &Way<'_>,
    walker: &mut Walker,
    stmt: &Stmt,
    number: usize,
) -> Result<Ending, Memory>
    requires { number + size_of stmt.now < 2 ^ 64 }
    ensures { IfOk result (λ ending. Went walker.old ending walker.new (tell (course_of way.now) stmt.now stmt.now number)) }
{
    match stmt {
        Stmt::If(test, first, second) => {
            let truth = tested(way, &walker.moment, test);
            decide(alloc, walker, number, truth)?;
            if truth {
                walk_stmts(alloc, way, walker, first, number + 1)
            } else {
                walk_stmts(alloc, way, walker, second, number + 1 + sizes(first))
            }
        }
        _ => walk_one(alloc, way, walker, stmt, number),
    }
}

/// Goes over statements with their numbers.
fn walk_all(
    alloc: Global,
    way: &Way<'_>,
    walker: &mut Walker,
    rest: &[Numbered<'_>],
) -> Result<Ending, Memory>
    requires { AreWithin (rest_of rest.now) }
    ensures { IfOk result (λ ending. Went walker.old ending walker.new (tell_all (course_of way.now) (rest_of rest.now))) }
{
    for one in rest {
        let ending = walk_stmt(alloc, way, walker, one.stmt, one.number)?;
        if !goes_on(ending) {
            return Ok(ending);
        }
    }
    Ok(Ending::Past)
}

/// Goes on from the head of a loop, which is the first of these.
fn walk_loop(
    alloc: Global,
    way: &Way<'_>,
    walker: &mut Walker,
    test: &Expr,
    body: &List<Stmt>,
    rest: &[Numbered<'_>],
) -> Result<Ending, Memory>
    requires head { HeadFits (rest_of rest.now) (sizes_of body.now) }
    requires within { AreWithin (rest_of rest.now) }
    ensures { IfOk result (λ ending. Went walker.old ending walker.new (tell_loop (course_of way.now) test.now body.now (rest_of rest.now))) }
{
    let Some((head, behind)) = rest.split_first() else {
        return Ok(Ending::Past);
    };
    let truth = tested(way, &walker.moment, test);
    decide(alloc, walker, head.number, truth)?;
    if !truth {
        return walk_all(alloc, way, walker, behind);
    }
    let ending = walk_stmts(alloc, way, walker, body, head.number + 1)?;
    if !goes_on(ending) {
        return Ok(ending);
    }
    walk_all(alloc, way, walker, rest)
}

/// Goes on from a statement that is a cut, which is the first of these.
fn walk_rest(
    alloc: Global,
    way: &Way<'_>,
    walker: &mut Walker,
    rest: &[Numbered<'_>],
) -> Result<Ending, Memory>
    requires { AreWithin (rest_of rest.now) }
    ensures { IfOk result (λ ending. Went walker.old ending walker.new (tell_rest (course_of way.now) (rest_of rest.now))) }
{
    let Some((first, behind)) = rest.split_first() else {
        return Ok(Ending::Past);
    };
    match first.stmt {
        Stmt::YieldLoop(test, _, body) => walk_loop(alloc, way, walker, test, body, rest),
        Stmt::RankLoop(test, _, _, body) => walk_loop(alloc, way, walker, test, body, rest),
        _ => walk_all(alloc, way, walker, behind),
    }
}

/// Goes on from a cut.
fn walk_from(alloc: Global, way: &Way<'_>, walker: &mut Walker, cut: Cut) -> Result<Ending, Memory>
    requires { sizes_of way.now.proc.now.body < 2 ^ 64 }
    ensures { IfOk result (λ ending. Went walker.old ending walker.new (tell_kind (course_of way.now) cut.statement cut.kind)) }
{
    if is_entry(cut.kind) {
        return walk_stmts(alloc, way, walker, &way.proc.body, 0);
    }
    let rest = rest_at(alloc, way.proc, cut.statement as usize)?;
    walk_rest(alloc, way, walker, rest.as_slice())
}

/// The path that was walked, where it ended so. Past all statements it ends at the exit, which has this number.
fn finished(walker: Walker, ending: Ending, exit: usize) -> Walked
    ensures { result ≡ finished ending exit walker }
{
    let Walker { passed, moment, at } = walker;
    let at = if goes_on(ending) { exit } else { at };
    Walked {
        passed,
        ending,
        at,
        end: moment,
    }
}

/// The path from a cut of a procedure in a plain program, told statement by statement from this state.
///
/// # Errors
///
/// For want of memory.
pub fn walk(
    alloc: Global,
    plain: &Plain,
    proc: &Proc,
    cut: Cut,
    chosen: &[Chosen],
    begin: Moment,
) -> Result<Walked, Memory>
    requires { sizes_of proc.now.body < 2 ^ 64 }
    ensures { IfOk result (λ walked. walked ≡ told (trace_from (course plain.now proc.now chosen.now) cut (progress begin))) }
{
    let way = Way {
        plain,
        proc,
        chosen,
    };
    let mut walker = Walker {
        passed: List::new(alloc),
        moment: begin,
        at: 0,
    };
    let ending = walk_from(alloc, &way, &mut walker, cut)?;
    Ok(finished(walker, ending, sizes(&proc.body)))
}
