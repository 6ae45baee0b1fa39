// The terms of notes: of invariants, ranks, and the values behind `with` and in intros.
ghost use Rattle.std.specs.Prelude.{◌≡◌, ◌+◌, ◌≤◌, ◌++◌, length, take, drop, IfOk, OnOk};
ghost use Rattle.civl_tree.specs.rules.Rules.{Keeps};
ghost use Rattle.civl_tree.specs.rules.Typing.{typing_rules};
ghost use Rattle.civl_tree.specs.rules.Sorts.{sort_of};
ghost use Rattle.civl_tree.specs.rules.Names.{global_names};
ghost use Rattle.civl_tree.specs.rules.Scopes.{global_scope, note_scope};
ghost use Rattle.civl_terms.specs.Graphs.{sort_at};
ghost use Rattle.civl_terms.specs.Building.{Grows};
ghost use Rattle.civl_terms.specs.Weights.{graph_weight};
ghost use Rattle.civl_actions.specs.Scopes.{IsTyped};
ghost use Rattle.civl_firing.specs.Names.{names_of};
ghost use Rattle.civl_conditions.specs.paths.NoteValues.{note_names};
ghost use Rattle.civl_conditions.specs.Weights.{global_weight, note_weight};
ghost use Rattle.civl_states.specs.Stores.{AreGlobals};
ghost use Rattle.civl_states.specs.Notes.{CanSee, IsNote, IsGlobalNote, IsProcIn};

use civl_actions::{Scope, term};
use civl_bits::Value;
use civl_firing::names::Names;
use civl_terms::{Id, Memory, Terms};
use civl_tree::{Expr, Proc, Program};
use std::alloc::Global as Alloc;

/// The terms that a note of a procedure sees: the globals, the parameters, outputs and locals, and `done`; and what the globals,
/// the outputs and `done` were, which are called old.
#[derive(Clone, Copy)]
pub struct View<'a> {
    pub globals: &'a [Id],
    pub locals: &'a [Id],
    pub done: Id,
    pub old_globals: &'a [Id],
    pub old_outs: &'a [Id],
    pub old_done: Id,
}

/// The names in a note: the globals, and the parameters, outputs and locals of its procedure.
#[tactic(auto, using(civl_firing::proofs::Joining::appending))]
fn note_names<'a>(program: &'a Program, proc: &'a Proc) -> Names<'a>
    ensures { names_of result ≡ note_names program.now.globals proc.now }
{
    Names {
        globals: program.globals.as_slice(),
        params: proc.params.as_slice(),
        choices: &[],
        outs: proc.outs.as_slice(),
        locals: proc.locals.as_slice(),
        behind: &[],
    }
}

/// The names in an expression of the globals alone.
#[tactic(auto, using(civl_firing::proofs::Joining::appending))]
fn global_names<'a>(program: &'a Program) -> Names<'a>
    ensures { names_of result ≡ global_names program.now.globals }
{
    Names {
        globals: program.globals.as_slice(),
        params: &[],
        choices: &[],
        outs: &[],
        locals: &[],
        behind: &[],
    }
}

/// The terms of the present values, one for each name.
fn present_terms(alloc: Alloc, view: &View<'_>) -> Result<Vec<Id>, Memory>
    ensures { IfOk result (λ ids. ids.items ≡ view.now.globals.now ++ view.now.locals.now) }
{
    let mut ids = Vec::from_slice(alloc, view.globals)?;
    ids.extend_from_slice(view.locals)?;
    Ok(ids)
}

/// The terms of the old values, one for each name: parameters and locals, which have no old values, have the present ones.
#[tactic(auto, using(std::proofs::lemmas::List::append_assoc))]
fn old_terms(alloc: Alloc, proc: &Proc, view: &View<'_>) -> Result<Vec<Id>, Memory>
    requires { length proc.now.params + length proc.now.outs ≤ length view.now.locals.now }
    ensures { IfOk result (λ ids. ids.items ≡ view.now.old_globals.now ++ (take (length proc.now.params) view.now.locals.now ++ (view.now.old_outs.now ++ drop (length proc.now.params + length proc.now.outs) view.now.locals.now))) }
{
    let params = proc.params.len();
    let inner = params + proc.outs.len();
    let mut ids = Vec::from_slice(alloc, view.old_globals)?;
    ids.extend_from_slice(&view.locals[..params])?;
    ids.extend_from_slice(view.old_outs)?;
    ids.extend_from_slice(&view.locals[inner..])?;
    Ok(ids)
}

/// The term of a note of this procedure, where the names stand for these terms. The graph's weight rises by at most the note's.
///
/// The note has a sort there.
///
/// # Errors
///
/// For want of memory; the nodes before stay.
#[tactic(auto, using(civl_terms::proofs::Growing::growth))]
pub fn note(
    alloc: Alloc,
    terms: &mut Terms,
    program: &Program,
    proc: &Proc,
    expr: &Expr,
    view: &View<'_>,
) -> Result<Id, Memory>
    requires rules { Keeps typing_rules program.now }
    requires proc { IsProcIn program.now proc.now }
    requires typed { IsTyped (note_scope program.now proc.now) expr.now }
    requires view { CanSee terms.old program.now proc.now view.now }
    ensures note { IfOk result (λ id. IsNote terms.old terms.new program.now proc.now view.now expr.now id) }
    ensures sorted { IfOk result (λ id. sort_at terms.new id ≡ sort_of (note_scope program.now proc.now) expr.now) }
    ensures weighs { OnOk result (graph_weight terms.new ≤ graph_weight terms.old + note_weight program.now proc.now expr.now) }
    ensures grows { Grows terms.old terms.new }
{
    let values = present_terms(alloc, view)?;
    let old = old_terms(alloc, proc, view)?;
    let scope = Scope {
        names: note_names(program, proc),
        values: values.as_slice(),
        old: old.as_slice(),
        done: view.done,
        old_done: view.old_done,
    };
    let id = term(expr, &scope, terms)?;
    let _count = terms.len();
    Ok(id)
}

/// The term of an expression of the globals alone, as an invariant of a step is, at these terms for them. The graph's weight
/// rises by at most the expression's.
///
/// The expression has a sort there.
///
/// # Errors
///
/// For want of memory; the nodes before stay.
#[tactic(auto, using(civl_terms::proofs::Growing::growth))]
pub fn global_note(
    terms: &mut Terms,
    program: &Program,
    expr: &Expr,
    globals: &[Id],
) -> Result<Id, Memory>
    requires typed { IsTyped (global_scope program.now) expr.now }
    requires globals { AreGlobals terms.old program.now globals.now }
    ensures note { IfOk result (λ id. IsGlobalNote terms.old terms.new program.now globals.now expr.now id) }
    ensures sorted { IfOk result (λ id. sort_at terms.new id ≡ sort_of (global_scope program.now) expr.now) }
    ensures weighs { OnOk result (graph_weight terms.new ≤ graph_weight terms.old + global_weight program.now expr.now) }
    ensures grows { Grows terms.old terms.new }
{
    let no = terms.constant(Value::Bool(false))?;
    let scope = Scope {
        names: global_names(program),
        values: globals,
        old: globals,
        done: no,
        old_done: no,
    };
    let id = term(expr, &scope, terms)?;
    let _count = terms.len();
    Ok(id)
}
