// What a step does.
ghost use Rattle.std.specs.Prelude.{◌≡◌, ◌+◌, ◌^◌, ◌<◌, Some, [], slice_set, if◌then◌else◌, IfOk};
ghost use Rattle.civl_tree.specs.declared.stmt.Stmt.{out-Stmt};
ghost use Rattle.civl_meaning.specs.declared.config.State.TheVariants.{Before};
ghost use Rattle.civl_firing.specs.Truth.{place_of};
ghost use Rattle.civl_firing.specs.Eval.{value_of, values_of};
ghost use Rattle.civl_firing.specs.Scope.{frame_values};
ghost use Rattle.civl_tree.specs.rules.Names.{names_in_proc};
ghost use Rattle.civl_firing.specs.Names.{names_of};
ghost use Rattle.civl_meaning.specs.Places.{start_of};
ghost use Rattle.civl_tree.specs.Numbering.{sizes_of};
ghost use Rattle.civl_meaning.specs.Found.{Fits};
ghost use Rattle.civl_meaning.specs.inner.Callees.{meaning};
ghost use Rattle.civl_meaning.specs.Meaning.{called, proc_number};
ghost use Rattle.civl_meaning.specs.Change.{with_results, new_frame, acted, action_change, is_true_in, call_doing, statement_doing, done_by};
ghost use Rattle.civl_meaning.specs.Change as does;

use crate::config::{Activation, Change, Plain, Running, State, Stepped};
use crate::found::{Found, begin};
use crate::meant::{Callee, of_name};
use civl_bits::Value;
use civl_firing::expressions::{holds, value, values};
use civl_firing::firing::{choices_fit, gate, transition, write};
use civl_firing::names::{Names, place, proc};
use civl_firing::setting::in_frame;
use civl_firing::sorts::{push_locals, push_params};
use civl_firing::{Fired, Store};
use civl_tree::{Action, Expr, List, Memory, Name, Proc, Stmt};
use std::alloc::Global as Alloc;

/// A frame of a plain program, as its statements see it.
#[derive(Clone, Copy)]
pub struct Standing<'a> {
    pub plain: &'a Plain,
    pub proc: &'a Proc,
    pub locals: &'a [Value],
}

/// The names of a procedure's frame, as targets.
#[tactic(auto, using(civl_firing::proofs::Joining::appending))]
pub fn frame_targets<'a>(proc: &'a Proc) -> Names<'a>
    ensures { names_of result ≡ names_in_proc proc.now }
{
    Names {
        globals: &[],
        params: proc.params.as_slice(),
        choices: &[],
        outs: proc.outs.as_slice(),
        locals: proc.locals.as_slice(),
        behind: &[],
    }
}

/// Puts the outputs of a call under the names of its results.
pub fn write_results(names: &Names<'_>, locals: &mut Vec<Value>, results: &[Name], outs: &[Value])
    ensures { locals.new.items ≡ with_results (names_of names.now) locals.old.items results.now outs.now }
{
    let mut at = 0;
    for result in results {
        if at == outs.len() {
            return;
        }
        write(locals, place(names, result), outs[at]);
        at += 1;
    }
}

/// The frame of a call.
fn frame_of_call(
    alloc: Alloc,
    number: usize,
    proc: &Proc,
    args: &[Value],
) -> Result<Activation, Memory>
    ensures { IfOk result (λ f. f ≡ new_frame number proc.now args.now) }
{
    let mut locals = Vec::from_slice(alloc, args)?;
    push_params(&mut locals, proc.outs.as_slice())?;
    push_locals(&mut locals, proc.locals.as_slice())?;
    Ok(Activation {
        procedure: number,
        place: 0,
        locals: List::from_vec(locals),
    })
}

/// Where a frame goes on: with these locals, at this place, the outputs of the action that it called under these names.
#[derive(Clone, Copy)]
struct After<'a> {
    names: Names<'a>,
    locals: &'a [Value],
    results: &'a [Name],
    next: usize,
}

/// What an action did.
fn after_action(alloc: Alloc, after: &After<'_>, fired: Fired) -> Result<Change, Memory>
    ensures { IfOk result (λ c. c ≡ acted (names_of after.now.names) after.now.locals.now after.now.results.now after.now.next fired) }
{
    match fired {
        Fired::GateFalse => Ok(Change::Stays(Stepped::Failing)),
        Fired::Blocked => Ok(Change::Stays(Stepped::Blocked)),
        Fired::Moved(store, outs) => {
            let mut locals = Vec::from_slice(alloc, after.locals)?;
            write_results(&after.names, &mut locals, after.results, outs.as_slice());
            Ok(Change::Acts(store, List::from_vec(locals), after.next))
        }
    }
}

/// A call of an action.
#[tactic(auto, unfolding(civl_firing::specs::Fired::fired))]
fn call_of_action(
    alloc: Alloc,
    plain: &Plain,
    store: &Store,
    chosen: &[Value],
    after: &After<'_>,
    action: &Action,
    args: &[Value],
) -> Result<Change, Memory>
    ensures { IfOk result (λ c. c ≡ action_change plain.now store.now chosen.now (names_of after.now.names) after.now.locals.now after.now.results.now after.now.next action.now args.now) }
{
    let globals = plain.program.globals.as_slice();
    if !gate(globals, store, action, args) {
        return Ok(Change::Stays(Stepped::Failing));
    }
    if !choices_fit(action, chosen) {
        return Ok(Change::Stays(Stepped::BadChoices));
    }
    let fired = transition(alloc, globals, store, action, args, chosen)?;
    after_action(alloc, after, fired)
}

/// A call that stands at the place `at`.
fn call(
    alloc: Alloc,
    plain: &Plain,
    store: &Store,
    chosen: &[Value],
    after: &After<'_>,
    at: usize,
    callee: Callee<'_>,
    args: &[Value],
) -> Result<Change, Memory>
    ensures { IfOk result (λ c. c ≡ done_by plain.now store.now chosen.now (call_doing (names_of after.now.names) after.now.locals.now after.now.results.now at after.now.next (meaning callee.entry) args.now)) }
{
    match callee {
        Callee::Missing => Ok(Change::Stays(Stepped::Blocked)),
        Callee::Runs(number, proc) => {
            let frame = frame_of_call(alloc, number, proc, args)?;
            Ok(Change::Enters(frame, at))
        }
        Callee::Does(action) => { call_of_action(alloc, plain, store, chosen, after, action, args) }
    }
}

/// The call with which a thread begins.
pub fn first_call(
    alloc: Alloc,
    plain: &Plain,
    store: &Store,
    chosen: &[Value],
    callee: Callee<'_>,
    args: &[Value],
) -> Result<Change, Memory>
    ensures { IfOk result (λ c. c ≡ done_by plain.now store.now chosen.now (call_doing [] [] [] 0 0 (meaning callee.entry) args.now)) }
{
    let after = After {
        names: Names {
            globals: &[],
            params: &[],
            choices: &[],
            outs: &[],
            locals: &[],
            behind: &[],
        },
        locals: &[],
        results: &[],
        next: 0,
    };
    call(alloc, plain, store, chosen, &after, 0, callee, args)
}

/// The frame goes on at a place.
fn goes(alloc: Alloc, locals: &[Value], next: usize) -> Result<Change, Memory>
    ensures { IfOk result (λ c. c ≡ Change.Goes locals.now next) }
{
    let locals = Vec::from_slice(alloc, locals)?;
    Ok(Change::Goes(List::from_vec(locals), next))
}

/// An assignment to a local.
fn assigned(
    alloc: Alloc,
    standing: &Standing<'_>,
    next: usize,
    name: &Name,
    expr: &Expr,
) -> Result<Change, Memory>
    ensures { IfOk result (λ c. c ≡ Change.Goes (slice_set standing.now.locals.now (place_of (names_in_proc standing.now.proc.now) name.now) (value_of (frame_values standing.now.plain.now.program.globals standing.now.proc.now standing.now.locals.now) expr.now)) next) }
{
    let mut locals = Vec::from_slice(alloc, standing.locals)?;
    write(
        &mut locals,
        place(&frame_targets(standing.proc), name),
        value_in(standing, expr),
    );
    Ok(Change::Goes(List::from_vec(locals), next))
}

/// The value of an expression in a frame.
fn value_in(standing: &Standing<'_>, expr: &Expr) -> Value
    ensures { result ≡ value_of (frame_values standing.now.plain.now.program.globals standing.now.proc.now standing.now.locals.now) expr.now }
{
    let globals = standing.plain.program.globals.as_slice();
    value(&in_frame(globals, standing.proc, standing.locals), expr)
}

/// Whether an expression is true in a frame.
pub fn holds_in(standing: &Standing<'_>, expr: &Expr) -> bool
    ensures { result ≡ is_true_in standing.now.plain.now standing.now.proc.now standing.now.locals.now expr.now }
{
    let globals = standing.plain.program.globals.as_slice();
    holds(&in_frame(globals, standing.proc, standing.locals), expr)
}

/// The values of some expressions in a frame.
fn values_in(
    alloc: Alloc,
    standing: &Standing<'_>,
    exprs: &List<Expr>,
) -> Result<List<Value>, Memory>
    ensures { IfOk result (λ vs. vs ≡ values_of (frame_values standing.now.plain.now.program.globals standing.now.proc.now standing.now.locals.now) exprs.now) }
{
    let globals = standing.plain.program.globals.as_slice();
    let setting = in_frame(globals, standing.proc, standing.locals);
    values(alloc, &setting, exprs.as_slice())
}

/// A spawn.
fn spawned(
    alloc: Alloc,
    standing: &Standing<'_>,
    next: usize,
    name: &Name,
    args: &List<Expr>,
) -> Result<Change, Memory>
    ensures { IfOk result (λ c. c ≡ Change.Spawns (record { callee = proc_number standing.now.plain.now.program name.now; args = values_of (frame_values standing.now.plain.now.program.globals standing.now.proc.now standing.now.locals.now) args.now; state = Before }) next) }
{
    let args = values_in(alloc, standing, args)?;
    let callee = proc(standing.plain.program.procs.as_slice(), name);
    Ok(Change::Spawns(
        Running {
            callee,
            args,
            state: State::Before,
        },
        next,
    ))
}

/// Where an `if` goes.
fn branch(
    standing: &Standing<'_>,
    at: usize,
    next: usize,
    test: &Expr,
    a: &List<Stmt>,
    b: &List<Stmt>,
    second: usize,
) -> usize
    requires at { at + 1 < 2 ^ 64 }
    requires second { second ≡ at + 1 + sizes_of a.now }
    ensures { result ≡ (if is_true_in standing.now.plain.now standing.now.proc.now standing.now.locals.now test.now then start_of a.now (at + 1) next else start_of b.now (at + 1 + sizes_of a.now) next) }
{
    if holds_in(standing, test) {
        begin(a.as_slice(), at + 1, next)
    } else {
        begin(b.as_slice(), second, next)
    }
}

/// Where a loop goes.
fn turn(standing: &Standing<'_>, at: usize, next: usize, test: &Expr, body: &List<Stmt>) -> usize
    requires { at + 1 < 2 ^ 64 }
    ensures { result ≡ (if is_true_in standing.now.plain.now standing.now.proc.now standing.now.locals.now test.now then start_of body.now (at + 1) at else next) }
{
    if holds_in(standing, test) {
        begin(body.as_slice(), at + 1, at)
    } else {
        next
    }
}

/// An assert.
fn asserted(
    alloc: Alloc,
    standing: &Standing<'_>,
    store: &Store,
    chosen: &[Value],
    next: usize,
    expr: &Expr,
) -> Result<Change, Memory>
    ensures { IfOk result (λ c. c ≡ done_by standing.now.plain.now store.now chosen.now (if is_true_in standing.now.plain.now standing.now.proc.now standing.now.locals.now expr.now then does.Goes standing.now.locals.now next else does.Fails)) }
{
    if !holds_in(standing, expr) {
        return Ok(Change::Stays(Stepped::Failing));
    }
    goes(alloc, standing.locals, next)
}

/// A call in a procedure.
fn calling(
    alloc: Alloc,
    standing: &Standing<'_>,
    store: &Store,
    chosen: &[Value],
    at: usize,
    next: usize,
    name: &Name,
    args: &List<Expr>,
    results: &List<Name>,
) -> Result<Change, Memory>
    ensures { IfOk result (λ c. c ≡ done_by standing.now.plain.now store.now chosen.now (call_doing (names_in_proc standing.now.proc.now) standing.now.locals.now results.now at next (called standing.now.plain.now name.now) (values_of (frame_values standing.now.plain.now.program.globals standing.now.proc.now standing.now.locals.now) args.now))) }
{
    let args = values_in(alloc, standing, args)?;
    let callee = of_name(standing.plain, name);
    let after = After {
        names: frame_targets(standing.proc),
        locals: standing.locals,
        results: results.as_slice(),
        next,
    };
    call(
        alloc,
        standing.plain,
        store,
        chosen,
        &after,
        at,
        callee,
        args.as_slice(),
    )
}

/// A statement that was found.
pub fn statement(
    alloc: Alloc,
    standing: &Standing<'_>,
    store: &Store,
    chosen: &[Value],
    found: &Found<'_>,
) -> Result<Change, Memory>
    requires { Fits (Some found.now) }
    ensures { IfOk result (λ c. c ≡ done_by standing.now.plain.now store.now chosen.now (statement_doing standing.now.plain.now standing.now.proc.now standing.now.locals.now found.now.number found.now.next (out-Stmt found.now.stmt.now))) }
{
    let at = found.number;
    let next = found.next;
    match found.stmt {
        Stmt::Assign(name, expr) => assigned(alloc, standing, next, name, expr),
        Stmt::Assert(expr) => asserted(alloc, standing, store, chosen, next, expr),
        Stmt::If(test, a, b) => {
            let place = branch(standing, at, next, test, a, b, found.second);
            goes(alloc, standing.locals, place)
        }
        Stmt::While(test, body) => {
            let place = turn(standing, at, next, test, body);
            goes(alloc, standing.locals, place)
        }
        Stmt::YieldLoop(test, _, body) => {
            let place = turn(standing, at, next, test, body);
            goes(alloc, standing.locals, place)
        }
        Stmt::RankLoop(test, _, _, body) => {
            let place = turn(standing, at, next, test, body);
            goes(alloc, standing.locals, place)
        }
        Stmt::Call(name, args, results) => {
            calling(
                alloc, standing, store, chosen, at, next, name, args, results,
            )
        }
        Stmt::Spawn(name, args) => spawned(alloc, standing, next, name, args),
        Stmt::Yield(_) | Stmt::Commit | Stmt::Intro(_, _) => Ok(Change::Stays(Stepped::Blocked)),
    }
}
