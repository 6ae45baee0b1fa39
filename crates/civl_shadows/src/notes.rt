//! What commits and intros do, which a plain program passes over.
ghost use Rattle.std.specs.Prelude.{◌≡◌, Bool, false, drop, Option, None, Some, if◌then◌else◌, IfOk};
ghost use Rattle.civl_tree.specs.declared.stmt.Stmt.{out-Stmt};
ghost use Rattle.civl_firing.specs.Settings.{scope_in};
ghost use Rattle.civl_firing.specs.Eval.{value_of, values_of};
ghost use Rattle.civl_meaning.specs.Rest.{Rest};
ghost use Rattle.civl_conditions.specs.paths.NoteValues.{plain_note_values};
ghost use Rattle.civl_conditions.specs.paths.Paths.{committed, introduced, Progress as Given};
ghost use Rattle.civl_conditions.specs.paths.Runs.{layer_led, led};
ghost use Rattle.civl_reduction.specs.blocks.Blocks.{layer_at_yield, at_yield};
ghost use Rattle.civl_reduction.specs.blocks.Cuts.{settled_layer, settled};
ghost use Rattle.civl_reduction.specs.blocks.Shadow.{glided_layer, glided};
ghost use Rattle.civl_meaning.specs.Remaining.{rest_of};
ghost use Rattle.civl_shadows.specs.Notes.{noted, progress_of, layer_glides};

use civl_bits::Value;
use civl_firing::expressions::{self, value};
use civl_firing::firing::{global_targets, write};
use civl_firing::names::{Names, place};
use civl_firing::setting::Setting;
use civl_meaning::remaining::Numbered;
use civl_tree::{Expr, Global, List, Memory, Name, Proc, Program, Stmt};
use std::alloc::Global as Alloc;

/// A frame in the program of a layer, as its notes see it.
#[derive(Clone, Copy)]
pub struct Noting<'a> {
    pub program: &'a Program,
    pub layer: u32,
    pub proc: &'a Proc,
    pub locals: &'a [Value],
}

/// A body on its way, but for its locals: the values of the store, whether a commit was passed, and whether one was passed
/// where one had been before.
#[derive(Drop)]
pub struct Progress {
    pub values: Vec<Value>,
    pub done: bool,
    pub again: bool,
}

/// What the names in the notes of a procedure's frame stand for: the globals have these values.
#[tactic(auto, using(civl_firing::proofs::Joining::appending))]
fn in_note<'a>(
    globals: &'a [Global],
    proc: &'a Proc,
    locals: &'a [Value],
    values: &'a [Value],
) -> Setting<'a>
    ensures { scope_in result ≡ plain_note_values globals.now proc.now (record { values = values.now }) locals.now }
{
    Setting {
        names: Names {
            globals,
            params: proc.params.as_slice(),
            choices: &[],
            outs: proc.outs.as_slice(),
            locals: proc.locals.as_slice(),
            behind: &[],
        },
        store: values,
        inputs: locals,
        chosen: &[],
        zeros: &[],
    }
}

/// The value of an expression in a note, where the globals have these values.
pub fn note_value(
    program: &Program,
    proc: &Proc,
    locals: &[Value],
    values: &[Value],
    expr: &Expr,
) -> Value
    ensures { result ≡ value_of (plain_note_values program.now.globals proc.now (record { values = values.now }) locals.now) expr.now }
{
    let setting = in_note(program.globals.as_slice(), proc, locals, values);
    value(&setting, expr)
}

/// The values of some expressions in a note, where the globals have these values.
///
/// # Errors
///
/// For want of memory.
pub fn note_values(
    alloc: Alloc,
    program: &Program,
    proc: &Proc,
    locals: &[Value],
    values: &[Value],
    exprs: &[Expr],
) -> Result<List<Value>, Memory>
    ensures { IfOk result (λ vs. vs ≡ values_of (plain_note_values program.now.globals proc.now (record { values = values.now }) locals.now) exprs.now) }
{
    let setting = in_note(program.globals.as_slice(), proc, locals, values);
    expressions::values(alloc, &setting, exprs)
}

/// A commit.
fn commit(noting: &Noting<'_>, progress: &mut Progress)
    ensures { progress_of noting.now progress.new ≡ committed (progress_of noting.now progress.old) }
{
    progress.again = progress.again || progress.done;
    progress.done = true;
}

/// An intro.
fn introduce(noting: &Noting<'_>, progress: &mut Progress, target: &Name, expr: &Expr)
    ensures { progress_of noting.now progress.new ≡ introduced (noted noting.now) target.now expr.now (progress_of noting.now progress.old) }
{
    let values = progress.values.as_slice();
    let value = note_value(noting.program, noting.proc, noting.locals, values, expr);
    let at = place(&global_targets(noting.program.globals.as_slice()), target);
    write(&mut progress.values, at, value);
}

/// Whether a statement is a commit or an intro, which then takes effect.
fn leads(noting: &Noting<'_>, stmt: &Stmt, progress: &mut Progress) -> bool
    ensures leads { layer_led (noted noting.now) (out-Stmt stmt.now) (progress_of noting.now progress.old) ≡ (if◌then◌else◌ {A = Option Given} result (Some (progress_of noting.now progress.new)) None) }
    ensures stays { result ≡ false → progress_of noting.now progress.new ≡ progress_of noting.now progress.old }
{
    match stmt {
        Stmt::Commit => {
            commit(noting, progress);
            true
        }
        Stmt::Intro(target, expr) => {
            introduce(noting, progress, target, expr);
            true
        }
        _ => false,
    }
}

/// The commits and intros at the head of what is still to run take effect.
pub fn lead(noting: &Noting<'_>, rest: &[Numbered<'_>], progress: &mut Progress)
    ensures { progress_of noting.now progress.new ≡ led (noted noting.now) (rest_of rest.now) (progress_of noting.now progress.old) }
{
    for at in 0..rest.len() {
        if !leads(noting, rest[at].stmt, progress) {
            return;
        }
    }
}

/// Whether a statement is a yield, or a commit or an intro, which then takes effect.
pub fn glides(noting: &Noting<'_>, stmt: &Stmt, progress: &mut Progress) -> bool
    ensures next { layer_glides (noted noting.now) (out-Stmt stmt.now) (progress_of noting.now progress.old) ≡ (if◌then◌else◌ {A = Option Given} result (Some (progress_of noting.now progress.new)) None) }
    ensures glides { (later : Given → Given) → glided_layer (noted noting.now) (out-Stmt stmt.now) (progress_of noting.now progress.old) later ≡ (if◌then◌else◌ {A = Given} result (later (progress_of noting.now progress.new)) (progress_of noting.now progress.new)) }
{
    match stmt {
        Stmt::Yield(_) => true,
        _ => leads(noting, stmt, progress),
    }
}

/// The commits and intros before the next statement of a plain program take effect, past yields, from a place of what is
/// still to run on.
pub fn glide(noting: &Noting<'_>, rest: &[Numbered<'_>], from: usize, progress: &mut Progress)
    ensures { progress_of noting.now progress.new ≡ glided (noted noting.now) (rest_of (drop from rest.now)) (progress_of noting.now progress.old) }
{
    for at in from..rest.len() {
        if !glides(noting, rest[at].stmt, progress) {
            return;
        }
    }
}

/// Whether a statement is a commit or an intro.
fn is_note(stmt: &Stmt) -> bool
    ensures settles { (whole later : Rest) → settled_layer (out-Stmt stmt.now) whole later ≡ (if◌then◌else◌ {A = Rest} result later whole) }
    ensures yields { (later : Bool) → layer_at_yield (out-Stmt stmt.now) later ≡ (if result then later else layer_at_yield (out-Stmt stmt.now) false) }
{
    match stmt {
        Stmt::Commit => true,
        Stmt::Intro(_, _) => true,
        Stmt::Assign(_, _) => false,
        Stmt::Assert(_) => false,
        Stmt::If(_, _, _) => false,
        Stmt::While(_, _) => false,
        Stmt::YieldLoop(_, _, _) => false,
        Stmt::RankLoop(_, _, _, _) => false,
        Stmt::Call(_, _, _) => false,
        Stmt::Yield(_) => false,
        Stmt::Spawn(_, _) => false,
    }
}

/// Whether a statement is a yield or a yield loop.
pub fn is_yield(stmt: &Stmt) -> bool
    ensures { result ≡ layer_at_yield (out-Stmt stmt.now) false }
{
    match stmt {
        Stmt::Yield(_) => true,
        Stmt::YieldLoop(_, _, _) => true,
        _ => false,
    }
}

/// How many commits and intros stand at the head of what is still to run.
pub fn settled(rest: &[Numbered<'_>]) -> usize
    ensures { settled (rest_of rest.now) ≡ rest_of (drop result rest.now) }
{
    for at in 0..rest.len() {
        if !is_note(rest[at].stmt) {
            return at;
        }
    }
    rest.len()
}

/// Whether a yield or a yield loop comes past the commits and intros at the head of what is still to run.
pub fn at_yield(rest: &[Numbered<'_>]) -> bool
    ensures { result ≡ at_yield (rest_of rest.now) }
{
    for at in 0..rest.len() {
        if !is_note(rest[at].stmt) {
            return is_yield(rest[at].stmt);
        }
    }
    false
}
