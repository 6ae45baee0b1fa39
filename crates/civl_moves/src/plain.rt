// Assigns, asserts, commits and intros at terms.
ghost use Rattle.std.specs.Prelude.{◌≡◌, ◌≤◌, ◌+◌, ◌&&◌, not, ◌||◌, Bool, Some, [], ◌∷◌, slice_set, IfOk, OnOk};
ghost use Rattle.civl_tree.specs.declared.expr.Sort.TheVariants.{Bool as Truth};
ghost use Rattle.civl_tree.specs.rules.Names.{global_names, names_in_proc};
ghost use Rattle.civl_tree.specs.rules.Rules.{Keeps};
ghost use Rattle.civl_tree.specs.rules.Scopes.{body_scope, note_scope, bind_globals, sort_in};
ghost use Rattle.civl_tree.specs.declared.program.Proc.{Proc as Procedure};
ghost use Rattle.civl_tree.specs.declared.program.Program.{Program as Whole};
ghost use Rattle.civl_tree.specs.rules.Typing.{typing_rules};
ghost use Rattle.civl_tree.specs.rules.Uses.{place_sort};
ghost use Rattle.civl_firing.specs.Eval.{value_of};
ghost use Rattle.civl_firing.specs.Scope.{frame_values};
ghost use Rattle.civl_firing.specs.Truth.{place_of};
ghost use Rattle.civl_conditions.specs.paths.NoteValues.{plain_note_values};
ghost use Rattle.civl_conditions.specs.paths.Paths.{set_global};
ghost use Rattle.civl_terms.specs.Building.{Grows};
ghost use Rattle.civl_terms.specs.Graphs.{sort_at};
ghost use Rattle.civl_terms.specs.Weights.{graph_weight};
ghost use Rattle.civl_actions.specs.Actions.{LeavesOthers};
ghost use Rattle.civl_states.specs.Notes.{IsProcIn};
ghost use Rattle.civl_moves.specs.sweeps.Sweeps.{gated, set_locals, with_commit};
ghost use Rattle.civl_conditions.specs.Weights.{body_weight, note_weight};
ghost use Rattle.civl_states.specs.formula_parts.Said.{Env, IsTest};
ghost use Rattle.civl_moves.specs.States.{CanSweep, Moves, Suits, holds_at};

use crate::expressions::{body_term, note_term};
use crate::sweep::Sweep;
use civl_bits::Value;
use civl_firing::names::{Names, place};
use civl_states::formula_parts::{both, negated};
use civl_terms::{Id, Memory, Terms};
use civl_tree::{Expr, List, Name, Proc, Program, Two};
use std::alloc::Global as Alloc;
use std::mem;

/// Whether the second test is true where the first one is. The graph's weight rises by 1 at most.
///
/// # Errors
///
/// For want of memory; the nodes before stay.
#[tactic(auto, using(crate::proofs::States::states))]
pub fn implied(terms: &mut Terms, a: Id, b: Id) -> Result<Id, Memory>
    requires a { sort_at terms.old a ≡ Some Truth }
    requires b { sort_at terms.old b ≡ Some Truth }
    ensures test { IfOk result (λ id. (f g : Env → Bool) → IsTest terms.old a f → IsTest terms.old b g → IsTest terms.new id (λ env. not (f env) || g env)) }
    ensures sorted { IfOk result (λ id. sort_at terms.new id ≡ Some Truth) }
    ensures grows { Grows terms.old terms.new }
    ensures weighs { OnOk result (graph_weight terms.new ≤ graph_weight terms.old + 1) }
{
    let id = terms.two(Two::Implies, a, b)?;
    Ok(id)
}

/// Puts a term in the place of another, if there is one.
pub fn put(alloc: Alloc, list: &mut List<Id>, at: usize, id: Id)
    ensures { list.new ≡ slice_set list.old at id }
{
    let mut ids = mem::replace(list, List::new(alloc)).into_vec();
    if at < ids.len() {
        ids[at] = id;
    }
    *list = List::from_vec(ids);
}

/// The place of a parameter, an output or a local of a procedure.
#[tactic(auto, using(civl_firing::proofs::Joining::appending))]
pub fn frame_place(proc: &Proc, name: &Name) -> usize
    ensures { result ≡ place_of (names_in_proc proc.now) name.now }
{
    let names = Names {
        globals: &[],
        params: proc.params.as_slice(),
        choices: &[],
        outs: proc.outs.as_slice(),
        locals: proc.locals.as_slice(),
        behind: &[],
    };
    place(&names, name)
}

/// The place of a global.
#[tactic(auto, using(civl_firing::proofs::Joining::appending))]
fn global_place(program: &Program, name: &Name) -> usize
    ensures { result ≡ place_of (global_names program.now.globals) name.now }
{
    let names = Names {
        globals: program.globals.as_slice(),
        params: &[],
        choices: &[],
        outs: &[],
        locals: &[],
        behind: &[],
    };
    place(&names, name)
}

/// An assign. The graph's weight rises by at most the expression's. Other names keep their terms.
///
/// # Errors
///
/// For want of memory; the nodes before stay.
pub fn pass_assign(
    alloc: Alloc,
    terms: &mut Terms,
    program: &Program,
    proc: &Proc,
    sweep: &mut Sweep,
    target: &Name,
    expr: &Expr,
) -> Result<(), Memory>
    requires rules { Keeps typing_rules program.now }
    requires proc { IsProcIn program.now proc.now }
    requires suits { Suits (body_scope program.now proc.now) expr.now (place_sort proc.now target.now) }
    requires can { CanSweep terms.old program.now proc.now sweep.old }
    ensures moves { OnOk result (Moves terms.old terms.new program.now proc.now sweep.old sweep.new (λ env d. set_locals (slice_set d.locals (place_of (names_in_proc proc.now) target.now) (value_of (frame_values program.now.globals proc.now d.locals) expr.now)) d)) }
    ensures others { OnOk result (LeavesOthers (names_in_proc proc.now) (target.now ∷ []) sweep.old.locals sweep.new.locals) }
    ensures rest { OnOk result (sweep.new ≡ record sweep.old { locals = sweep.new.locals }) }
    ensures weighs { OnOk result (graph_weight terms.new ≤ graph_weight terms.old + body_weight program.now proc.now expr.now) }
    ensures grows { Grows terms.old terms.new }
{
    let id = body_term(alloc, terms, program, proc, sweep.locals.as_slice(), expr)?;
    put(alloc, &mut sweep.locals, frame_place(proc, target), id);
    Ok(())
}

/// An intro. The graph's weight rises by at most that of its value. Other globals keep their terms.
///
/// # Errors
///
/// For want of memory; the nodes before stay.
pub fn pass_intro(
    alloc: Alloc,
    terms: &mut Terms,
    program: &Program,
    proc: &Proc,
    sweep: &mut Sweep,
    target: &Name,
    expr: &Expr,
) -> Result<(), Memory>
    requires rules { Keeps typing_rules program.now }
    requires proc { IsProcIn program.now proc.now }
    requires suits { Suits (note_scope program.now proc.now) expr.now (sort_in (bind_globals program.now.globals) target.now) }
    requires can { CanSweep terms.old program.now proc.now sweep.old }
    ensures moves { OnOk result (Moves terms.old terms.new program.now proc.now sweep.old sweep.new (λ env d. record d { store = set_global program.now.globals d.store target.now (value_of (plain_note_values program.now.globals proc.now d.store d.locals) expr.now) })) }
    ensures others { OnOk result (LeavesOthers (global_names program.now.globals) (target.now ∷ []) sweep.old.globals sweep.new.globals) }
    ensures rest { OnOk result (sweep.new ≡ record sweep.old { globals = sweep.new.globals }) }
    ensures weighs { OnOk result (graph_weight terms.new ≤ graph_weight terms.old + note_weight program.now proc.now expr.now) }
    ensures grows { Grows terms.old terms.new }
{
    let id = note_term(
        alloc,
        terms,
        program,
        proc,
        sweep.globals.as_slice(),
        sweep.locals.as_slice(),
        expr,
    )?;
    put(alloc, &mut sweep.globals, global_place(program, target), id);
    Ok(())
}

/// Whether the path is here, and whether it is safe, behind a test that has to hold where it is.
#[derive(Clone, Copy)]
pub struct Gated {
    pub live: Id,
    pub safe: Id,
}

/// The path goes on where the test is true, and isn't safe where it is false.
#[tactic(auto, using(crate::proofs::States::states))]
pub fn gate(terms: &mut Terms, live: Id, safe: Id, test: Id) -> Result<Gated, Memory>
    requires live { sort_at terms.old live ≡ Some Truth }
    requires safe { sort_at terms.old safe ≡ Some Truth }
    requires test { sort_at terms.old test ≡ Some Truth }
    ensures live { IfOk result (λ g. (l t : Env → Bool) → IsTest terms.old live l → IsTest terms.old test t → IsTest terms.new g.live (λ env. l env && t env)) }
    ensures safe { IfOk result (λ g. (l s t : Env → Bool) → IsTest terms.old live l → IsTest terms.old safe s → IsTest terms.old test t → IsTest terms.new g.safe (λ env. s env && (not (l env) || t env))) }
    ensures sorted { IfOk result (λ g. sort_at terms.new g.live ≡ Some Truth) }
    ensures grows { Grows terms.old terms.new }
    ensures weighs { OnOk result (graph_weight terms.new ≤ graph_weight terms.old + 3) }
{
    let reached = implied(terms, live, test)?;
    let safe = both(terms, safe, reached)?;
    let live = both(terms, live, test)?;
    Ok(Gated { live, safe })
}

/// An assert. The graph's weight rises by at most that of the fact and 3.
///
/// # Errors
///
/// For want of memory; the nodes before stay.
pub fn pass_assert(
    alloc: Alloc,
    terms: &mut Terms,
    program: &Program,
    proc: &Proc,
    sweep: &mut Sweep,
    fact: &Expr,
) -> Result<(), Memory>
    requires rules { Keeps typing_rules program.now }
    requires proc { IsProcIn program.now proc.now }
    requires suits { Suits (body_scope program.now proc.now) fact.now (Some Truth) }
    requires can { CanSweep terms.old program.now proc.now sweep.old }
    ensures moves { OnOk result (Moves terms.old terms.new program.now proc.now sweep.old sweep.new (λ env d. gated (holds_at program.now proc.now fact.now d) d)) }
    ensures rest { OnOk result (sweep.new ≡ record sweep.old { live = sweep.new.live; safe = sweep.new.safe }) }
    ensures weighs { OnOk result (graph_weight terms.new ≤ graph_weight terms.old + body_weight program.now proc.now fact.now + 3) }
    ensures grows { Grows terms.old terms.new }
{
    let test = body_term(alloc, terms, program, proc, sweep.locals.as_slice(), fact)?;
    let gated = gate(terms, sweep.live, sweep.safe, test)?;
    sweep.live = gated.live;
    sweep.safe = gated.safe;
    Ok(())
}

/// Whether the first test is true, and the third isn't where the second is.
#[tactic(auto, using(crate::proofs::States::states))]
fn still_once(terms: &mut Terms, once: Id, live: Id, done: Id) -> Result<Id, Memory>
    requires once { sort_at terms.old once ≡ Some Truth }
    requires live { sort_at terms.old live ≡ Some Truth }
    requires done { sort_at terms.old done ≡ Some Truth }
    ensures test { IfOk result (λ id. (o l d : Env → Bool) → IsTest terms.old once o → IsTest terms.old live l → IsTest terms.old done d → IsTest terms.new id (λ env. o env && (not (l env) || not (d env)))) }
    ensures grows { Grows terms.old terms.new }
    ensures weighs { OnOk result (graph_weight terms.new ≤ graph_weight terms.old + 3) }
{
    let open = negated(terms, done)?;
    let kept = implied(terms, live, open)?;
    let id = both(terms, once, kept)?;
    Ok(id)
}

/// A commit. The graph's weight rises by at most 3.
///
/// # Errors
///
/// For want of memory; the nodes before stay.
pub fn pass_commit(terms: &mut Terms, sweep: &mut Sweep) -> Result<(), Memory>
    requires once { sort_at terms.old sweep.old.once ≡ Some Truth }
    requires live { sort_at terms.old sweep.old.live ≡ Some Truth }
    requires done { sort_at terms.old sweep.old.done ≡ Some Truth }
    ensures moves { OnOk result ((program : Whole) (proc : Procedure) → CanSweep terms.old program proc sweep.old → Moves terms.old terms.new program proc sweep.old sweep.new (λ env. with_commit)) }
    ensures rest { OnOk result (sweep.new ≡ record sweep.old { done = sweep.new.done; once = sweep.new.once }) }
    ensures weighs { OnOk result (graph_weight terms.new ≤ graph_weight terms.old + 3) }
    ensures grows { Grows terms.old terms.new }
{
    let once = still_once(terms, sweep.once, sweep.live, sweep.done)?;
    let yes = terms.constant(Value::Bool(true))?;
    sweep.once = once;
    sweep.done = yes;
    Ok(())
}
