// The terms of the globals, of a frame and of `done` at the beginning of a path.
ghost use Rattle.std.specs.Prelude.{◌≡◌, ◌+◌, ◌≤◌, ◌<◌, ◌^◌, ◌∷◌, [], not, length, map, All, IsTrue, IfOk, OnOk, if◌then◌else◌};
ghost use Rattle.civl_tree.specs.declared.expr.Sort.TheVariants.{Bool as Truth};
ghost use Rattle.civl_tree.specs.rules.Rules.{Keeps};
ghost use Rattle.civl_tree.specs.rules.Typing.{typing_rules};
ghost use Rattle.civl_tree.specs.rules.Uses.{param_sorts};
ghost use Rattle.civl_firing.specs.values.Values.{is_sort, is_true, zero_of};
ghost use Rattle.civl_meaning.specs.Config.{frame_sorts};
ghost use Rattle.civl_terms.specs.Building.{Grows, Lengthens};
ghost use Rattle.civl_terms.specs.Weights.{graph_weight};
ghost use Rattle.civl_conditions.specs.paths.Ends.{is_entry, is_rank_loop};
ghost use Rattle.civl_states.specs.formula_parts.Said.{IsTest};
ghost use Rattle.civl_states.specs.formula_parts.Lists.{AreSaid};
ghost use Rattle.civl_states.specs.formula_parts.Given.{bits_of_sorts, AreVariablesOf};
ghost use Rattle.civl_states.specs.Stores.{AreStore};
ghost use Rattle.civl_states.specs.declared.stores.Existing.TheVariants.{Near};
ghost use Rattle.civl_states.specs.Existing.{existing_sorts};
ghost use Rattle.civl_states.specs.Groups.{StandFrom};
ghost use Rattle.civl_states.specs.Laying.{sorts_where, inner_sorts, near_store, inner_values, begun_locals, begun_outs, begun_done, begun_old_done, frame_bits, FrameBegins};

use crate::beginning_places::Places;
use crate::formula_parts::variables;
use crate::stores::{Existing, store};
use civl_bits::Value as Constant;
use civl_conditions::paths::{is_entry, is_rank_loop};
use civl_firing::values::zero;
use civl_layers::CutKind;
use civl_terms::{Id, Memory, Terms};
use civl_tree::{List as Ids, Proc, Program, Sort};
use std::alloc::Global as Alloc;

// ---- stores

/// The old globals: variables of their own at a rank loop, and else the present ones.
pub(crate) fn begin_old_store(
    alloc: Alloc,
    terms: &mut Terms,
    program: &Program,
    sorts: &[Sort],
    step: u32,
    kind: CutKind,
    globals: &Ids<Id>,
    first: u32,
) -> Result<Ids<Id>, Memory>
    requires rules { Keeps typing_rules program.now }
    requires stand { StandFrom sorts.now first (sorts_where (is_rank_loop kind) (existing_sorts (Near step) program.now)) }
    requires small { length sorts.now < 2 ^ 32 }
    requires limits { All (λ s. IsTrue (is_sort s)) sorts.now }
    requires variables { AreVariablesOf terms.old sorts.now }
    requires globals { AreStore terms.old program.now globals.now (λ env. near_store program.now step env 0) }
    ensures store { IfOk result (λ ids. AreStore terms.new program.now ids (λ env. near_store program.now step env (if is_rank_loop kind then first else 0))) }
    ensures variables { AreVariablesOf terms.new sorts.now }
    ensures lengthens { Lengthens terms.old terms.new }
    ensures weighs { OnOk result (graph_weight terms.new ≤ graph_weight terms.old + bits_of_sorts (sorts_where (is_rank_loop kind) (existing_sorts (Near step) program.now))) }
{
    if is_rank_loop(kind) {
        let ids = store(alloc, terms, program, sorts, Existing::Near(step), first)?;
        return Ok(ids);
    }
    let ids = Vec::from_slice(alloc, globals.as_slice())?;
    Ok(Ids::from_vec(ids))
}

// ---- frames

/// The sorts of a procedure's outputs and locals.
///
/// # Errors
///
/// For want of memory.
pub fn inner_sorts(alloc: Alloc, proc: &Proc) -> Result<Vec<Sort>, Memory>
    ensures { IfOk result (λ sorts. sorts.items ≡ inner_sorts proc.now) }
{
    let mut sorts = Vec::new(alloc);
    for out in proc.outs.as_slice() {
        sorts.push(out.sort)?;
    }
    for local in proc.locals.as_slice() {
        sorts.push(local.sort)?;
    }
    Ok(sorts)
}

/// The terms of the zeros of these sorts. They weigh nothing.
///
/// # Errors
///
/// For want of memory; the nodes before stay.
pub fn zeros(alloc: Alloc, terms: &mut Terms, sorts: &[Sort]) -> Result<Ids<Id>, Memory>
    requires { All (λ s. IsTrue (is_sort s)) sorts.now }
    ensures said { IfOk result (λ ids. AreSaid terms.new ids sorts.now (λ env. map zero_of sorts.now)) }
    ensures grows { Grows terms.old terms.new }
    ensures weighs { OnOk result (graph_weight terms.new ≤ graph_weight terms.old) }
{
    let mut ids = Vec::new(alloc);
    for sort in sorts {
        let id = terms.constant(zero(*sort))?;
        ids.push(id)?;
    }
    Ok(Ids::from_vec(ids))
}

/// The outputs and locals: zeros at the entry, and else variables.
fn begin_inner(
    alloc: Alloc,
    terms: &mut Terms,
    sorts: &[Sort],
    proc: &Proc,
    kind: CutKind,
    first: u32,
) -> Result<Ids<Id>, Memory>
    requires inner { All (λ s. IsTrue (is_sort s)) (inner_sorts proc.now) }
    requires stand { StandFrom sorts.now first (sorts_where (not (is_entry kind)) (inner_sorts proc.now)) }
    requires small { length sorts.now < 2 ^ 32 }
    requires limits { All (λ s. IsTrue (is_sort s)) sorts.now }
    requires variables { AreVariablesOf terms.old sorts.now }
    ensures said { IfOk result (λ ids. AreSaid terms.new ids (inner_sorts proc.now) (λ env. inner_values proc.now kind env first)) }
    ensures variables { AreVariablesOf terms.new sorts.now }
    ensures lengthens { Lengthens terms.old terms.new }
    ensures weighs { OnOk result (graph_weight terms.new ≤ graph_weight terms.old + bits_of_sorts (sorts_where (not (is_entry kind)) (inner_sorts proc.now))) }
{
    let inner = inner_sorts(alloc, proc)?;
    let inner = inner.as_slice();
    if is_entry(kind) {
        let ids = zeros(alloc, terms, inner)?;
        return Ok(ids);
    }
    let ids = variables(alloc, terms, sorts, first, inner.len() as u32)?;
    Ok(ids)
}

/// The parameters, outputs and locals.
fn begin_locals(
    alloc: Alloc,
    terms: &mut Terms,
    sorts: &[Sort],
    proc: &Proc,
    kind: CutKind,
    places: Places,
) -> Result<Ids<Id>, Memory>
    requires inner { All (λ s. IsTrue (is_sort s)) (inner_sorts proc.now) }
    requires params { StandFrom sorts.now places.params (param_sorts proc.now.params) }
    requires rest { StandFrom sorts.now places.rest (sorts_where (not (is_entry kind)) (inner_sorts proc.now)) }
    requires small { length sorts.now < 2 ^ 32 }
    requires limits { All (λ s. IsTrue (is_sort s)) sorts.now }
    requires variables { AreVariablesOf terms.old sorts.now }
    ensures said { IfOk result (λ ids. AreSaid terms.new ids (frame_sorts proc.now) (λ env. begun_locals proc.now kind env places)) }
    ensures variables { AreVariablesOf terms.new sorts.now }
    ensures lengthens { Lengthens terms.old terms.new }
    ensures weighs { OnOk result (graph_weight terms.new ≤ graph_weight terms.old + bits_of_sorts (param_sorts proc.now.params) + bits_of_sorts (sorts_where (not (is_entry kind)) (inner_sorts proc.now))) }
{
    let count = proc.params.len() as u32;
    let params = variables(alloc, terms, sorts, places.params, count)?;
    let inner = begin_inner(alloc, terms, sorts, proc, kind, places.rest)?;
    let mut ids = params.into_vec();
    ids.extend_from_slice(inner.as_slice())?;
    Ok(Ids::from_vec(ids))
}

/// The old outputs: variables of their own at a rank loop, and else the present ones, which are some of these terms for the
/// parameters, outputs and locals.
fn begin_old_outs(
    alloc: Alloc,
    terms: &mut Terms,
    sorts: &[Sort],
    proc: &Proc,
    kind: CutKind,
    locals: &Ids<Id>,
    places: Places,
) -> Result<Ids<Id>, Memory>
    requires stand { StandFrom sorts.now places.old_outs (sorts_where (is_rank_loop kind) (param_sorts proc.now.outs)) }
    requires small { length sorts.now < 2 ^ 32 }
    requires limits { All (λ s. IsTrue (is_sort s)) sorts.now }
    requires variables { AreVariablesOf terms.old sorts.now }
    requires locals { AreSaid terms.old locals.now (frame_sorts proc.now) (λ env. begun_locals proc.now kind env places) }
    ensures said { IfOk result (λ ids. AreSaid terms.new ids (param_sorts proc.now.outs) (λ env. begun_outs proc.now kind env places)) }
    ensures variables { AreVariablesOf terms.new sorts.now }
    ensures lengthens { Lengthens terms.old terms.new }
    ensures weighs { OnOk result (graph_weight terms.new ≤ graph_weight terms.old + bits_of_sorts (sorts_where (is_rank_loop kind) (param_sorts proc.now.outs))) }
{
    let count = proc.outs.len();
    if is_rank_loop(kind) {
        let ids = variables(alloc, terms, sorts, places.old_outs, count as u32)?;
        return Ok(ids);
    }
    let from = proc.params.len();
    let behind = &locals.as_slice()[from..];
    let ids = Vec::from_slice(alloc, &behind[..count])?;
    Ok(Ids::from_vec(ids))
}

// ---- done

/// The bool that is the variable with this number. The graph's weight rises by 1 at most.
///
/// # Errors
///
/// For want of memory; the nodes before stay.
pub fn flag(terms: &mut Terms, sorts: &[Sort], number: u32) -> Result<Id, Memory>
    requires stand { StandFrom sorts.now number (Truth ∷ []) }
    requires variables { AreVariablesOf terms.old sorts.now }
    ensures test { IfOk result (λ id. IsTest terms.new id (λ env. is_true (env number))) }
    ensures variables { AreVariablesOf terms.new sorts.now }
    ensures lengthens { Lengthens terms.old terms.new }
    ensures weighs { OnOk result (graph_weight terms.new ≤ graph_weight terms.old + 1) }
{
    let id = terms.variable(number, Sort::Bool)?;
    Ok(id)
}

/// `done`: false at the entry, and else a variable.
fn begin_done(
    terms: &mut Terms,
    sorts: &[Sort],
    kind: CutKind,
    places: Places,
) -> Result<Id, Memory>
    requires stand { StandFrom sorts.now places.done (sorts_where (not (is_entry kind)) (Truth ∷ [])) }
    requires variables { AreVariablesOf terms.old sorts.now }
    ensures test { IfOk result (λ id. IsTest terms.new id (λ env. begun_done kind env places)) }
    ensures variables { AreVariablesOf terms.new sorts.now }
    ensures lengthens { Lengthens terms.old terms.new }
    ensures weighs { OnOk result (graph_weight terms.new ≤ graph_weight terms.old + bits_of_sorts (sorts_where (not (is_entry kind)) (Truth ∷ []))) }
{
    if is_entry(kind) {
        let id = terms.constant(Constant::Bool(false))?;
        return Ok(id);
    }
    flag(terms, sorts, places.done)
}

/// The old `done`: a variable of its own at a rank loop, and else the present one.
fn begin_old_done(
    terms: &mut Terms,
    sorts: &[Sort],
    kind: CutKind,
    done: Id,
    places: Places,
) -> Result<Id, Memory>
    requires stand { StandFrom sorts.now places.old_done (sorts_where (is_rank_loop kind) (Truth ∷ [])) }
    requires variables { AreVariablesOf terms.old sorts.now }
    requires done { IsTest terms.old done (λ env. begun_done kind env places) }
    ensures test { IfOk result (λ id. IsTest terms.new id (λ env. begun_old_done kind env places)) }
    ensures variables { AreVariablesOf terms.new sorts.now }
    ensures lengthens { Lengthens terms.old terms.new }
    ensures weighs { OnOk result (graph_weight terms.new ≤ graph_weight terms.old + bits_of_sorts (sorts_where (is_rank_loop kind) (Truth ∷ []))) }
{
    if is_rank_loop(kind) {
        let id = flag(terms, sorts, places.old_done)?;
        return Ok(id);
    }
    Ok(done)
}

// ---- frames with what they were

/// The parameters, outputs and locals, and `done`, at the beginning of a path; and what the outputs and `done` were at the
/// beginning of the block.
#[derive(Drop)]
pub(crate) struct Frame {
    pub locals: Ids<Id>,
    pub old_outs: Ids<Id>,
    pub done: Id,
    pub old_done: Id,
}

/// The frame at the beginning of the paths from a cut.
pub(crate) fn begin_frame(
    alloc: Alloc,
    terms: &mut Terms,
    sorts: &[Sort],
    proc: &Proc,
    kind: CutKind,
    places: Places,
) -> Result<Frame, Memory>
    requires inner { All (λ s. IsTrue (is_sort s)) (inner_sorts proc.now) }
    requires params { StandFrom sorts.now places.params (param_sorts proc.now.params) }
    requires rest { StandFrom sorts.now places.rest (sorts_where (not (is_entry kind)) (inner_sorts proc.now)) }
    requires old_outs { StandFrom sorts.now places.old_outs (sorts_where (is_rank_loop kind) (param_sorts proc.now.outs)) }
    requires done { StandFrom sorts.now places.done (sorts_where (not (is_entry kind)) (Truth ∷ [])) }
    requires old_done { StandFrom sorts.now places.old_done (sorts_where (is_rank_loop kind) (Truth ∷ [])) }
    requires small { length sorts.now < 2 ^ 32 }
    requires limits { All (λ s. IsTrue (is_sort s)) sorts.now }
    requires variables { AreVariablesOf terms.old sorts.now }
    ensures begins { IfOk result (λ f. FrameBegins terms.new proc.now kind places f) }
    ensures variables { AreVariablesOf terms.new sorts.now }
    ensures lengthens { Lengthens terms.old terms.new }
    ensures weighs { OnOk result (graph_weight terms.new ≤ graph_weight terms.old + frame_bits proc.now kind) }
{
    let locals = begin_locals(alloc, terms, sorts, proc, kind, places)?;
    let old_outs = begin_old_outs(alloc, terms, sorts, proc, kind, &locals, places)?;
    let done = begin_done(terms, sorts, kind, places)?;
    let old_done = begin_old_done(terms, sorts, kind, done, places)?;
    Ok(Frame {
        locals,
        old_outs,
        done,
        old_done,
    })
}
