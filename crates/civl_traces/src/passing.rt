// Passing one statement.
ghost use Rattle.std.specs.Prelude.{◌≡◌, ◌+◌, IfOk, if◌then◌else◌};
ghost use Rattle.civl_bits.specs.declared.value.Value.{Value as Given};
ghost use Rattle.civl_tree.specs.declared.stmt.Stmt.TheOpen as stmt;
ghost use Rattle.civl_tree.specs.rules.Names.{names_in_proc};
ghost use Rattle.civl_firing.specs.Eval.{value_of, values_of};
ghost use Rattle.civl_firing.specs.Names.{names_of};
ghost use Rattle.civl_firing.specs.Scope.{frame_values};
ghost use Rattle.civl_firing.specs.Settings.{scope_in};
ghost use Rattle.civl_meaning.specs.Change.{with_results, action_change, acted};
ghost use Rattle.civl_conditions.specs.paths.NoteValues.{plain_note_values};
ghost use Rattle.civl_conditions.specs.paths.Paths.{came, stepped, tested, committed, introduced};
ghost use Rattle.civl_traces.specs.Told.{chosen_at, progress};
ghost use Rattle.civl_traces.specs.inner.Walking.{course_of, outcome};

use crate::meant::action_called;
use crate::walked::{Chosen, Ending, Moment};
use civl_bits::Value;
use civl_firing::expressions::{holds, value, values};
use civl_firing::firing::{choices_fit, gate, global_targets, transition, write};
use civl_firing::names::{Names, place};
use civl_firing::setting::{Setting, in_frame};
use civl_firing::{Fired, Store};
use civl_meaning::Plain;
use civl_tree::{Action, Expr, Global, List, Memory, Name, Proc};
use std::alloc::Global as Alloc;
use std::mem;

/// What stays along a path: the plain program, the procedure, and the choices of each call.
#[derive(Clone, Copy)]
pub struct Way<'a> {
    pub plain: &'a Plain,
    pub proc: &'a Proc,
    pub chosen: &'a [Chosen],
}

/// The choices of the call with this number.
fn chosen_at(chosen: &[Chosen], number: usize) -> &[Value]
    ensures { result.now ≡ chosen_at chosen.now number }
{
    for call in chosen {
        if call.statement == number {
            return call.choices.as_slice();
        }
    }
    &[]
}

/// Whether a condition of the body holds.
pub fn tested(way: &Way<'_>, moment: &Moment, test: &Expr) -> bool
    ensures { result ≡ tested (course_of way.now) test.now (progress moment.now) }
{
    let globals = way.plain.program.globals.as_slice();
    holds(&in_frame(globals, way.proc, moment.locals.as_slice()), test)
}

/// The names of a procedure's frame, as targets.
#[tactic(auto, using(civl_firing::proofs::Joining::appending))]
fn frame_targets<'a>(proc: &'a Proc) -> Names<'a>
    ensures { names_of result ≡ names_in_proc proc.now }
{
    Names {
        globals: &[],
        params: proc.params.as_slice(),
        choices: &[],
        outs: proc.outs.as_slice(),
        locals: proc.locals.as_slice(),
        behind: &[],
    }
}

/// An assignment to a local.
pub fn assign(
    alloc: Alloc,
    way: &Way<'_>,
    moment: &mut Moment,
    number: usize,
    name: &Name,
    expr: &Expr,
)
    ensures { outcome Ending.Past number moment.new ≡ stepped (course_of way.now) (stmt.Assign name.now expr.now) number (progress moment.old) }
{
    let globals = way.plain.program.globals.as_slice();
    let value = value(&in_frame(globals, way.proc, moment.locals.as_slice()), expr);
    let mut locals = mem::replace(&mut moment.locals, List::new(alloc)).into_vec();
    write(&mut locals, place(&frame_targets(way.proc), name), value);
    moment.locals = List::from_vec(locals);
}

/// An assert.
pub fn assert(way: &Way<'_>, moment: &Moment, number: usize, expr: &Expr) -> Ending
    ensures { outcome result number moment.now ≡ stepped (course_of way.now) (stmt.Assert expr.now) number (progress moment.now) }
{
    if tested(way, moment, expr) {
        Ending::Past
    } else {
        Ending::Fails
    }
}

/// A commit.
pub fn commit(moment: &mut Moment)
    ensures { progress moment.new ≡ committed (progress moment.old) }
{
    moment.again = moment.again || moment.done;
    moment.done = true;
}

/// What the names in the notes of a procedure's frame stand for.
#[tactic(auto, using(civl_firing::proofs::Joining::appending))]
fn in_note<'a>(
    globals: &'a [Global],
    proc: &'a Proc,
    store: &'a Store,
    locals: &'a [Value],
) -> Setting<'a>
    ensures { scope_in result ≡ plain_note_values globals.now proc.now store.now locals.now }
{
    Setting {
        names: Names {
            globals,
            params: proc.params.as_slice(),
            choices: &[],
            outs: proc.outs.as_slice(),
            locals: proc.locals.as_slice(),
            behind: &[],
        },
        store: store.values.as_slice(),
        inputs: locals,
        chosen: &[],
        zeros: &[],
    }
}

/// An intro.
pub fn introduce(alloc: Alloc, way: &Way<'_>, moment: &mut Moment, name: &Name, expr: &Expr)
    ensures { progress moment.new ≡ introduced (course_of way.now) name.now expr.now (progress moment.old) }
{
    let globals = way.plain.program.globals.as_slice();
    let value = value(
        &in_note(globals, way.proc, &moment.store, moment.locals.as_slice()),
        expr,
    );
    let mut values = mem::replace(&mut moment.store.values, List::new(alloc)).into_vec();
    write(&mut values, place(&global_targets(globals), name), value);
    moment.store.values = List::from_vec(values);
}

/// Puts the outputs of a call under the names of its results.
fn write_results(names: &Names<'_>, locals: &mut Vec<Value>, results: &[Name], outs: &[Value])
    ensures { locals.new.items ≡ with_results (names_of names.now) locals.old.items results.now outs.now }
{
    let mut at = 0;
    for result in results {
        if at == outs.len() {
            return;
        }
        write(locals, place(names, result), outs[at]);
        at += 1;
    }
}

/// What the action of a call did.
fn follow(
    alloc: Alloc,
    proc: &Proc,
    moment: &mut Moment,
    number: usize,
    results: &[Name],
    fired: Fired,
) -> Ending
    ensures { outcome result number moment.new ≡ came (progress moment.old) (acted (names_in_proc proc.now) moment.old.locals results.now (number + 1) fired) }
{
    match fired {
        Fired::GateFalse => Ending::Fails,
        Fired::Blocked => Ending::Stops,
        Fired::Moved(store, outs) => {
            let mut locals = mem::replace(&mut moment.locals, List::new(alloc)).into_vec();
            write_results(&frame_targets(proc), &mut locals, results, outs.as_slice());
            moment.locals = List::from_vec(locals);
            moment.store = store;
            Ending::Past
        }
    }
}

/// A call of an action with these arguments.
#[tactic(auto, unfolding(civl_firing::specs::Fired::fired))]
fn act(
    alloc: Alloc,
    way: &Way<'_>,
    moment: &mut Moment,
    number: usize,
    action: &Action,
    args: &List<Value>,
    results: &List<Name>,
) -> Result<Ending, Memory>
    ensures { IfOk result (λ ending. outcome ending number moment.new ≡ came (progress moment.old) (action_change way.now.plain.now moment.old.store (chosen_at way.now.chosen.now number) (names_in_proc way.now.proc.now) moment.old.locals results.now (number + 1) action.now args.now)) }
{
    let globals = way.plain.program.globals.as_slice();
    let chosen = chosen_at(way.chosen, number);
    let args = args.as_slice();
    if !gate(globals, &moment.store, action, args) {
        return Ok(Ending::Fails);
    }
    if !choices_fit(action, chosen) {
        return Ok(Ending::Stops);
    }
    let fired = transition(alloc, globals, &moment.store, action, args, chosen)?;
    let results = results.as_slice();
    Ok(follow(alloc, way.proc, moment, number, results, fired))
}

/// The values of the arguments of a call.
fn arguments(
    alloc: Alloc,
    way: &Way<'_>,
    moment: &Moment,
    args: &List<Expr>,
) -> Result<List<Value>, Memory>
    ensures { IfOk result (λ vs. vs ≡ values_of (frame_values way.now.plain.now.program.globals way.now.proc.now moment.now.locals) args.now) }
{
    let globals = way.plain.program.globals.as_slice();
    let setting = in_frame(globals, way.proc, moment.locals.as_slice());
    values(alloc, &setting, args.as_slice())
}

/// A call.
pub fn call(
    alloc: Alloc,
    way: &Way<'_>,
    moment: &mut Moment,
    number: usize,
    name: &Name,
    args: &List<Expr>,
    results: &List<Name>,
) -> Result<Ending, Memory>
    ensures { IfOk result (λ ending. outcome ending number moment.new ≡ stepped (course_of way.now) (stmt.Call name.now args.now results.now) number (progress moment.old)) }
{
    let Some(action) = action_called(way.plain, name) else {
        return Ok(Ending::Stops);
    };
    let args = arguments(alloc, way, moment, args)?;
    act(alloc, way, moment, number, action, &args, results)
}
