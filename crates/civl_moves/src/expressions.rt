// The terms of the expressions of a body.
ghost use Rattle.std.specs.Prelude.{◌≡◌, ◌≤◌, ◌+◌, ◌++◌, false, map, All, IsTrue, IfOk, OnOk};
ghost use Rattle.civl_tree.specs.rules.Names.{global_names, names_in_proc};
ghost use Rattle.civl_tree.specs.rules.Rules.{Keeps};
ghost use Rattle.civl_tree.specs.rules.Scopes.{body_scope, note_scope};
ghost use Rattle.civl_tree.specs.rules.Typing.{typing_rules};
ghost use Rattle.civl_firing.specs.values.Values.{is_sort};
ghost use Rattle.civl_meaning.specs.Config.{frame_sorts};
ghost use Rattle.civl_terms.specs.Building.{Grows};
ghost use Rattle.civl_terms.specs.Weights.{graph_weight};
ghost use Rattle.civl_actions.specs.Scopes.{AreOf, IsTyped, names_in};
ghost use Rattle.civl_conditions.specs.paths.NoteValues.{note_names};
ghost use Rattle.civl_conditions.specs.Weights.{body_weight, note_weight};
ghost use Rattle.civl_states.specs.formula_parts.Said.{IsTest};
ghost use Rattle.civl_states.specs.Notes.{IsProcIn};
ghost use Rattle.civl_moves.specs.Expressions.{AreZeros, IsBodyTerm, IsNoteTerm, has_old};

use civl_actions::{Scope, term};
use civl_bits::Value;
use civl_firing::names::Names;
use civl_firing::values::zero;
use civl_terms::{Id, Memory, Terms};
use civl_tree::{Expr, Global, Proc, Program};
use std::alloc::Global as Alloc;

/// The terms for all the names in an expression, and that of `done`, which is false there.
#[derive(Drop)]
struct Named {
    values: Vec<Id>,
    no: Id,
}

/// Whether `old(..)` of a name stands in an expression.
fn has_old(expr: &Expr) -> bool
    ensures { result ≡ has_old expr.now }
{
    match expr {
        Expr::Old(_) => true,
        Expr::Name(_) | Expr::Literal(_, _) => false,
        Expr::True | Expr::False | Expr::Done | Expr::OldDone => false,
        Expr::One(_, a) => has_old(a),
        Expr::Two(_, a, b) => has_old(a) || has_old(b),
        Expr::Pick(test, a, b) => has_old(test) || has_old(a) || has_old(b),
        Expr::Get(row, at) => has_old(row) || has_old(at),
        Expr::Set(row, at, cell) => has_old(row) || has_old(at) || has_old(cell),
        Expr::Fill(_, cell) => has_old(cell),
        Expr::Slice(a, _, _) => has_old(a),
        Expr::Widen(a, _) => has_old(a),
        Expr::Join(a, b) => has_old(a) || has_old(b),
    }
}

/// The terms of the zeros of these globals.
fn zeros(alloc: Alloc, terms: &mut Terms, globals: &[Global]) -> Result<Vec<Id>, Memory>
    requires { All (λ g. IsTrue (is_sort g.sort)) globals.now }
    ensures zeros { IfOk result (λ ids. AreZeros terms.old terms.new globals.now ids.items) }
    ensures grows { Grows terms.old terms.new }
{
    let mut ids = Vec::new(alloc);
    for global in globals {
        let id = terms.constant(zero(global.sort))?;
        ids.push(id)?;
    }
    Ok(ids)
}

/// These terms behind one another, and that of false.
fn joined_terms(
    alloc: Alloc,
    terms: &mut Terms,
    first: &[Id],
    second: &[Id],
) -> Result<Named, Memory>
    ensures values { IfOk result (λ n. n.values.items ≡ first.now ++ second.now) }
    ensures no { IfOk result (λ n. IsTest terms.new n.no (λ env. false)) }
    ensures weighs { OnOk result (graph_weight terms.new ≤ graph_weight terms.old) }
    ensures grows { Grows terms.old terms.new }
{
    let no = terms.constant(Value::Bool(false))?;
    let mut values = Vec::from_slice(alloc, first)?;
    values.extend_from_slice(second)?;
    Ok(Named { values, no })
}

/// The scope of a body's expressions in which no `old(..)` of a name stands, so that they name no global.
#[tactic(auto, using(civl_firing::proofs::Joining::appending))]
fn local_scope<'a>(proc: &'a Proc, locals: &'a [Id], no: Id) -> Scope<'a>
    ensures names { names_in result ≡ names_in_proc proc.now }
    ensures values { result.values.now ≡ locals.now }
    ensures old { result.old.now ≡ locals.now }
    ensures done { result.done ≡ no }
    ensures old_done { result.old_done ≡ no }
{
    Scope {
        names: Names {
            globals: &[],
            params: proc.params.as_slice(),
            choices: &[],
            outs: proc.outs.as_slice(),
            locals: proc.locals.as_slice(),
            behind: &[],
        },
        values: locals,
        old: locals,
        done: no,
        old_done: no,
    }
}

/// The scope of a body's expressions.
#[tactic(auto, using(civl_firing::proofs::Joining::appending))]
fn frame_scope<'a>(program: &'a Program, proc: &'a Proc, named: &'a Named) -> Scope<'a>
    ensures names { names_in result ≡ names_in_proc proc.now ++ global_names program.now.globals }
    ensures values { result.values.now ≡ named.now.values.items }
    ensures old { result.old.now ≡ named.now.values.items }
    ensures done { result.done ≡ named.now.no }
    ensures old_done { result.old_done ≡ named.now.no }
{
    Scope {
        names: Names {
            globals: &[],
            params: proc.params.as_slice(),
            choices: &[],
            outs: proc.outs.as_slice(),
            locals: proc.locals.as_slice(),
            behind: program.globals.as_slice(),
        },
        values: named.values.as_slice(),
        old: named.values.as_slice(),
        done: named.no,
        old_done: named.no,
    }
}

/// The scope of the values of intros.
#[tactic(auto, using(civl_firing::proofs::Joining::appending))]
fn present_scope<'a>(program: &'a Program, proc: &'a Proc, named: &'a Named) -> Scope<'a>
    ensures names { names_in result ≡ note_names program.now.globals proc.now }
    ensures values { result.values.now ≡ named.now.values.items }
    ensures old { result.old.now ≡ named.now.values.items }
    ensures done { result.done ≡ named.now.no }
    ensures old_done { result.old_done ≡ named.now.no }
{
    Scope {
        names: Names {
            globals: program.globals.as_slice(),
            params: proc.params.as_slice(),
            choices: &[],
            outs: proc.outs.as_slice(),
            locals: proc.locals.as_slice(),
            behind: &[],
        },
        values: named.values.as_slice(),
        old: named.values.as_slice(),
        done: named.no,
        old_done: named.no,
    }
}

/// The term of an expression of a procedure's body in which `old(..)` may name globals, which are zeros.
#[tactic(auto, using(civl_terms::proofs::Growing::growth))]
fn old_term(
    alloc: Alloc,
    terms: &mut Terms,
    program: &Program,
    proc: &Proc,
    locals: &[Id],
    expr: &Expr,
) -> Result<Id, Memory>
    requires rules { Keeps typing_rules program.now }
    requires proc { IsProcIn program.now proc.now }
    requires typed { IsTyped (body_scope program.now proc.now) expr.now }
    requires locals { AreOf terms.old locals.now (frame_sorts proc.now) }
    ensures term { IfOk result (λ id. IsBodyTerm terms.old terms.new program.now proc.now locals.now expr.now id) }
    ensures weighs { OnOk result (graph_weight terms.new ≤ graph_weight terms.old + body_weight program.now proc.now expr.now) }
    ensures grows { Grows terms.old terms.new }
{
    let zeros = zeros(alloc, terms, program.globals.as_slice())?;
    let named = joined_terms(alloc, terms, locals, zeros.as_slice())?;
    let scope = frame_scope(program, proc, &named);
    let id = term(expr, &scope, terms)?;
    let _count = terms.len();
    Ok(id)
}

/// The term of an expression of a procedure's body, at these terms for its parameters, outputs and locals. The graph's weight
/// rises by at most the expression's.
///
/// The expression has a sort there.
///
/// # Errors
///
/// For want of memory; the nodes before stay.
#[tactic(auto, using(civl_terms::proofs::Growing::growth))]
pub fn body_term(
    alloc: Alloc,
    terms: &mut Terms,
    program: &Program,
    proc: &Proc,
    locals: &[Id],
    expr: &Expr,
) -> Result<Id, Memory>
    requires rules { Keeps typing_rules program.now }
    requires proc { IsProcIn program.now proc.now }
    requires typed { IsTyped (body_scope program.now proc.now) expr.now }
    requires locals { AreOf terms.old locals.now (frame_sorts proc.now) }
    ensures term { IfOk result (λ id. IsBodyTerm terms.old terms.new program.now proc.now locals.now expr.now id) }
    ensures weighs { OnOk result (graph_weight terms.new ≤ graph_weight terms.old + body_weight program.now proc.now expr.now) }
    ensures grows { Grows terms.old terms.new }
{
    if has_old(expr) {
        let id = old_term(alloc, terms, program, proc, locals, expr)?;
        return Ok(id);
    }
    let no = terms.constant(Value::Bool(false))?;
    let scope = local_scope(proc, locals, no);
    let id = term(expr, &scope, terms)?;
    let _count = terms.len();
    Ok(id)
}

/// The term of an intro's value, at these terms for the globals and for the parameters, outputs and locals. The graph's weight
/// rises by at most the expression's.
///
/// The expression has a sort there.
///
/// # Errors
///
/// For want of memory; the nodes before stay.
#[tactic(auto, using(civl_terms::proofs::Growing::growth))]
pub fn note_term(
    alloc: Alloc,
    terms: &mut Terms,
    program: &Program,
    proc: &Proc,
    globals: &[Id],
    locals: &[Id],
    expr: &Expr,
) -> Result<Id, Memory>
    requires rules { Keeps typing_rules program.now }
    requires proc { IsProcIn program.now proc.now }
    requires typed { IsTyped (note_scope program.now proc.now) expr.now }
    requires globals { AreOf terms.old globals.now (map (λ g. g.sort) program.now.globals) }
    requires locals { AreOf terms.old locals.now (frame_sorts proc.now) }
    ensures term { IfOk result (λ id. IsNoteTerm terms.old terms.new program.now proc.now globals.now locals.now expr.now id) }
    ensures weighs { OnOk result (graph_weight terms.new ≤ graph_weight terms.old + note_weight program.now proc.now expr.now) }
    ensures grows { Grows terms.old terms.new }
{
    let named = joined_terms(alloc, terms, globals, locals)?;
    let scope = present_scope(program, proc, &named);
    let id = term(expr, &scope, terms)?;
    let _count = terms.len();
    Ok(id)
}
