// The two branches of an `if` at terms.
ghost use Rattle.std.specs.Prelude.{◌≡◌, ◌≤◌, ◌+◌, ◌&&◌, ◌||◌, not, Bool, Some, List as ListOf, IsSome, nat_eq, if◌then◌else◌, IfOk, OnOk};
ghost use Rattle.civl_bits.specs.declared.value.Value.{Value as Meant};
ghost use Rattle.civl_tree.specs.declared.expr.Sort.{Sort};
ghost use Rattle.civl_tree.specs.declared.expr.Sort.TheVariants.{Bool as Truth};
ghost use Rattle.civl_tree.specs.declared.program.Proc.{Proc as Procedure};
ghost use Rattle.civl_tree.specs.declared.program.Program.{Program as Whole};
ghost use Rattle.civl_tree.specs.rules.Rules.{Keeps};
ghost use Rattle.civl_tree.specs.rules.Scopes.{body_scope};
ghost use Rattle.civl_tree.specs.rules.Typing.{typing_rules};
ghost use Rattle.civl_firing.specs.values.Weights.{bits_in};
ghost use Rattle.civl_terms.specs.Building.{Grows};
ghost use Rattle.civl_terms.specs.Graphs.{sort_at};
ghost use Rattle.civl_terms.specs.Weights.{graph_weight};
ghost use Rattle.civl_actions.specs.Scopes.{AreOf};
ghost use Rattle.civl_states.specs.Notes.{IsProcIn};
ghost use Rattle.civl_moves.specs.sweeps.Sweeps.{joined};
ghost use Rattle.civl_conditions.specs.Weights.{body_weight};
ghost use Rattle.civl_states.specs.formula_parts.Lists.{AreAlike};
ghost use Rattle.civl_states.specs.formula_parts.Said.{Env, IsTest, IsSaid};
ghost use Rattle.civl_moves.specs.Branches.{ArePicked, CanEnd, KeepsSame, ended_at, front_of, with_front, differing};
ghost use Rattle.civl_moves.specs.States.{CanSweep, IsBool, Moves, Suits, bool_at, holds_at, swept_at};

use crate::expressions::body_term;
use crate::stops::copied;
use crate::sweep::Sweep;
use civl_states::formula_parts::{both, either, negated};
use civl_terms::{Id, Memory, Terms};
use civl_tree::{Expr, List, Proc, Program};
use std::alloc::Global as Alloc;
use std::mem;

/// Where a sweep stands: whether some path goes on from there, whether the path is there, and the state.
#[derive(Drop)]
pub struct Front {
    pub onward: bool,
    pub live: Id,
    pub globals: List<Id>,
    pub locals: List<Id>,
    pub done: Id,
}

/// Where the sweep stands, with this term for whether the path is there.
///
/// # Errors
///
/// For want of memory.
pub fn front_with(alloc: Alloc, sweep: &Sweep, live: Id) -> Result<Front, Memory>
    ensures { IfOk result (λ f. f ≡ record { onward = sweep.now.onward; live = live; globals = sweep.now.globals; locals = sweep.now.locals; done = sweep.now.done }) }
{
    let globals = copied(alloc, &sweep.globals)?;
    let locals = copied(alloc, &sweep.locals)?;
    Ok(Front {
        onward: sweep.onward,
        live,
        globals,
        locals,
        done: sweep.done,
    })
}

/// The sweep stands there from now on. The answer is where it stood.
pub fn swap(sweep: &mut Sweep, front: Front) -> Front
    ensures was { result ≡ front_of sweep.old }
    ensures is { sweep.new ≡ with_front front sweep.old }
{
    let Front {
        onward,
        live,
        globals,
        locals,
        done,
    } = front;
    Front {
        onward: mem::replace(&mut sweep.onward, onward),
        live: mem::replace(&mut sweep.live, live),
        globals: mem::replace(&mut sweep.globals, globals),
        locals: mem::replace(&mut sweep.locals, locals),
        done: mem::replace(&mut sweep.done, done),
    }
}

/// The condition of an `if`, and whether the path is in its first branch and in its second.
#[derive(Clone, Copy)]
pub struct Fork {
    pub test: Id,
    pub first: Id,
    pub second: Id,
}

/// Whether the first test is true and the second isn't. The graph's weight rises by 2 at most.
///
/// # Errors
///
/// For want of memory; the nodes before stay.
#[tactic(auto, using(crate::proofs::States::states))]
pub fn without(terms: &mut Terms, a: Id, b: Id) -> Result<Id, Memory>
    requires a { sort_at terms.old a ≡ Some Truth }
    requires b { sort_at terms.old b ≡ Some Truth }
    ensures test { IfOk result (λ id. (f g : Env → Bool) → IsTest terms.old a f → IsTest terms.old b g → IsTest terms.new id (λ env. f env && not (g env))) }
    ensures sorted { IfOk result (λ id. sort_at terms.new id ≡ Some Truth) }
    ensures grows { Grows terms.old terms.new }
    ensures weighs { OnOk result (graph_weight terms.new ≤ graph_weight terms.old + 2) }
{
    let opposite = negated(terms, b)?;
    let id = both(terms, a, opposite)?;
    Ok(id)
}

/// The condition of an `if` or of a loop, and where the path is then. The graph's weight rises by at most the condition's and 3.
///
/// # Errors
///
/// For want of memory; the nodes before stay.
pub fn part(
    alloc: Alloc,
    terms: &mut Terms,
    program: &Program,
    proc: &Proc,
    sweep: &Sweep,
    condition: &Expr,
) -> Result<Fork, Memory>
    requires rules { Keeps typing_rules program.now }
    requires proc { IsProcIn program.now proc.now }
    requires suits { Suits (body_scope program.now proc.now) condition.now (Some Truth) }
    requires can { CanSweep terms.old program.now proc.now sweep.now }
    ensures test { IfOk result (λ f. IsTest terms.new f.test (λ env. holds_at program.now proc.now condition.now (swept_at env terms.old sweep.now))) }
    ensures first { IfOk result (λ f. IsTest terms.new f.first (λ env. bool_at env terms.old sweep.now.live && holds_at program.now proc.now condition.now (swept_at env terms.old sweep.now))) }
    ensures second { IfOk result (λ f. IsTest terms.new f.second (λ env. bool_at env terms.old sweep.now.live && not (holds_at program.now proc.now condition.now (swept_at env terms.old sweep.now)))) }
    ensures weighs { OnOk result (graph_weight terms.new ≤ graph_weight terms.old + body_weight program.now proc.now condition.now + 3) }
    ensures grows { Grows terms.old terms.new }
{
    let test = body_term(
        alloc,
        terms,
        program,
        proc,
        sweep.locals.as_slice(),
        condition,
    )?;
    let first = both(terms, sweep.live, test)?;
    let second = without(terms, sweep.live, test)?;
    Ok(Fork {
        test,
        first,
        second,
    })
}

/// The one term where the test is true, and else the other. One term for both costs nothing.
fn picked(terms: &mut Terms, test: Id, a: Id, b: Id) -> Result<Id, Memory>
    requires test { sort_at terms.old test ≡ Some Truth }
    requires sort { IsSome (sort_at terms.old a) }
    requires alike { sort_at terms.old b ≡ sort_at terms.old a }
    ensures said { IfOk result (λ id. (s : Sort) (t : Env → Bool) (f g : Env → Meant) → IsTest terms.old test t → IsSaid terms.old a s f → IsSaid terms.old b s g → IsSaid terms.new id s (λ env. if t env then f env else g env)) }
    ensures same { IfOk result (λ id. a ≡ b → id ≡ a) }
    ensures grows { Grows terms.old terms.new }
    ensures weighs { OnOk result (graph_weight terms.new ≤ graph_weight terms.old + (if nat_eq a b then 0 else bits_in (sort_at terms.old a))) }
{
    if a == b {
        let _count = terms.len();
        return Ok(a);
    }
    let id = terms.pick(test, a, b)?;
    Ok(id)
}

/// The ones where the test is true, and else the others, one by one.
fn picked_all(
    alloc: Alloc,
    terms: &mut Terms,
    test: Id,
    xs: &[Id],
    ys: &[Id],
) -> Result<List<Id>, Memory>
    requires test { IsBool terms.old test }
    requires alike { AreAlike terms.old xs.now ys.now }
    ensures picked { IfOk result (λ ids. (ss : ListOf Sort) → AreOf terms.old xs.now ss → AreOf terms.old ys.now ss → ArePicked terms.old terms.new test ss xs.now ys.now ids) }
    ensures same { IfOk result (λ ids. KeepsSame xs.now ys.now ids) }
    ensures grows { Grows terms.old terms.new }
    ensures weighs { OnOk result (graph_weight terms.new ≤ graph_weight terms.old + differing terms.old xs.now ys.now) }
{
    let mut ids = Vec::new(alloc);
    for (at, x) in xs.iter().enumerate() {
        let id = picked(terms, test, *x, ys[at])?;
        ids.push(id)?;
    }
    Ok(List::from_vec(ids))
}

/// The globals, and the parameters, outputs and locals.
#[derive(Drop)]
struct State {
    globals: List<Id>,
    locals: List<Id>,
}

/// The state at the end of the first branch where the test is true, and else that at the end of the second.
fn picked_state(
    alloc: Alloc,
    terms: &mut Terms,
    test: Id,
    ended: &Front,
    sweep: &Sweep,
) -> Result<State, Memory>
    requires test { IsBool terms.old test }
    requires globals { AreAlike terms.old ended.now.globals sweep.now.globals }
    requires locals { AreAlike terms.old ended.now.locals sweep.now.locals }
    ensures globals { IfOk result (λ s. (ss : ListOf Sort) → AreOf terms.old ended.now.globals ss → AreOf terms.old sweep.now.globals ss → ArePicked terms.old terms.new test ss ended.now.globals sweep.now.globals s.globals) }
    ensures locals { IfOk result (λ s. (ss : ListOf Sort) → AreOf terms.old ended.now.locals ss → AreOf terms.old sweep.now.locals ss → ArePicked terms.old terms.new test ss ended.now.locals sweep.now.locals s.locals) }
    ensures same_globals { IfOk result (λ s. KeepsSame ended.now.globals sweep.now.globals s.globals) }
    ensures same_locals { IfOk result (λ s. KeepsSame ended.now.locals sweep.now.locals s.locals) }
    ensures grows { Grows terms.old terms.new }
    ensures weighs { OnOk result (graph_weight terms.new ≤ graph_weight terms.old + differing terms.old ended.now.globals sweep.now.globals + differing terms.old ended.now.locals sweep.now.locals) }
{
    let globals = picked_all(
        alloc,
        terms,
        test,
        ended.globals.as_slice(),
        sweep.globals.as_slice(),
    )?;
    let locals = picked_all(
        alloc,
        terms,
        test,
        ended.locals.as_slice(),
        sweep.locals.as_slice(),
    )?;
    Ok(State { globals, locals })
}

/// Whether one of two tests is true.
fn one_of(first: bool, second: bool) -> bool
    ensures { result ≡ first || second }
{
    first || second
}

/// Behind both branches of an `if`, from the end of the first one and that of the second, where the sweep stands. The graph's
/// weight rises by at most 2 and the bits of the terms of the two states that aren't the same. A term that is the same stays.
///
/// # Errors
///
/// For want of memory; the nodes before stay.
pub fn join(
    alloc: Alloc,
    terms: &mut Terms,
    sweep: &mut Sweep,
    ended: &Front,
    test: Id,
) -> Result<(), Memory>
    requires test { IsBool terms.old test }
    requires globals { AreAlike terms.old ended.now.globals sweep.old.globals }
    requires locals { AreAlike terms.old ended.now.locals sweep.old.locals }
    requires ended_live { sort_at terms.old ended.now.live ≡ Some Truth }
    requires live { sort_at terms.old sweep.old.live ≡ Some Truth }
    requires ended_done { sort_at terms.old ended.now.done ≡ Some Truth }
    requires done { sort_at terms.old sweep.old.done ≡ Some Truth }
    ensures moves { OnOk result ((program : Whole) (proc : Procedure) → CanSweep terms.old program proc sweep.old → CanEnd terms.old program proc ended.now → Moves terms.old terms.new program proc sweep.old sweep.new (λ env d. joined (bool_at env terms.old test) (ended_at env terms.old ended.now d) d)) }
    ensures same_globals { OnOk result (KeepsSame ended.now.globals sweep.old.globals sweep.new.globals) }
    ensures same_locals { OnOk result (KeepsSame ended.now.locals sweep.old.locals sweep.new.locals) }
    ensures rest { OnOk result (sweep.new ≡ record sweep.old { onward = ended.now.onward || sweep.old.onward; live = sweep.new.live; globals = sweep.new.globals; locals = sweep.new.locals; done = sweep.new.done }) }
    ensures weighs { OnOk result (graph_weight terms.new ≤ graph_weight terms.old + differing terms.old ended.now.globals sweep.old.globals + differing terms.old ended.now.locals sweep.old.locals + 2) }
    ensures grows { Grows terms.old terms.new }
{
    let state = picked_state(alloc, terms, test, ended, sweep)?;
    let done = picked(terms, test, ended.done, sweep.done)?;
    let live = either(terms, ended.live, sweep.live)?;
    sweep.onward = one_of(ended.onward, sweep.onward);
    sweep.live = live;
    sweep.globals = state.globals;
    sweep.locals = state.locals;
    sweep.done = done;
    Ok(())
}
