// The terms at the beginning of a path.
ghost use Rattle.std.specs.Prelude.{◌≡◌, ◌+◌, ◌≤◌, ◌<◌, ◌^◌, ℕ, length, map, slice_get, All, IsTrue, IfOk, OnOk, Some};
ghost use Rattle.civl_tree.specs.rules.Rules.{Keeps};
ghost use Rattle.civl_tree.specs.rules.Typing.{typing_rules};
ghost use Rattle.civl_firing.specs.values.Values.{is_sort};
ghost use Rattle.civl_layers.specs.Cuts.{proc_cuts};
ghost use Rattle.civl_bodies.specs.Bodies.{IsBody};
ghost use Rattle.civl_terms.specs.Building.{Lengthens};
ghost use Rattle.civl_terms.specs.Weights.{graph_weight};
ghost use Rattle.civl_conditions.specs.Values.{layout, begun};
ghost use Rattle.civl_conditions.specs.Variables.{path_variables};
ghost use Rattle.civl_conditions.specs.Weights.{bits_of_variables};
ghost use Rattle.civl_states.specs.formula_parts.Given.{given, AreVariablesOf};
ghost use Rattle.civl_states.specs.Groups.{StandFrom};
ghost use Rattle.civl_states.specs.Notes.{IsProcIn};
ghost use Rattle.civl_states.specs.Beginnings.{AreBegun, CanBegin};

use crate::beginning_choices::begin_choices;
use crate::beginning_frames::{begin_frame, begin_old_store};
use crate::beginning_places::places_of;
use crate::choices::Choices;
use crate::stores::{Existing, store};
use civl_bodies::Body;
use civl_layers::Cut;
use civl_terms::{Id, Memory, Terms};
use civl_tree::{List, Proc, Program, Sort};
use std::alloc::Global as Alloc;

/// The terms at the beginning of a path: the globals, the parameters, outputs and locals, and `done`; what these were at the
/// beginning of the block, which is called old; and the choices of the calls that some path passes.
#[derive(Drop)]
pub struct Beginning {
    pub globals: List<Id>,
    pub locals: List<Id>,
    pub done: Id,
    pub old_globals: List<Id>,
    pub old_outs: List<Id>,
    pub old_done: Id,
    pub chosen: Choices,
}

/// The terms at the beginning of the paths from a cut, as variables: in the order of their numbers the globals of the step; the
/// old ones, at a rank loop; the parameters; the outputs and locals, but for the entry, where they are zeros; the old outputs, at a
/// rank loop; `done`, but for the entry, where it is false; the old `done`, at a rank loop; and the choices of each call that some
/// path passes. What is old is the present but at a rank loop. The sorts are those of all the formula's variables, the first of
/// which are these. The cut has this number among the procedure's, and `body` is what belongs to the procedure.
///
/// The graph's weight rises by at most the bits of these variables.
///
/// # Errors
///
/// For want of memory; the nodes before stay.
pub fn begin(
    alloc: Alloc,
    terms: &mut Terms,
    program: &Program,
    sorts: &[Sort],
    step: u32,
    proc: &Proc,
    number: u32,
    cut: Cut,
    body: &Body<'_>,
) -> Result<Beginning, Memory>
    requires rules { Keeps typing_rules program.now }
    requires proc { IsProcIn program.now proc.now }
    requires there { slice_get (proc_cuts proc.now) number ≡ Some cut }
    requires body { IsBody proc.now body.now }
    requires stand { StandFrom sorts.now 0 (map (λ v. v.sort) (path_variables program.now step proc.now cut)) }
    requires small { length sorts.now < 2 ^ 32 }
    requires limits { All (λ s. IsTrue (is_sort s)) sorts.now }
    requires variables { AreVariablesOf terms.old sorts.now }
    ensures begun { IfOk result (λ t. (n : ℕ) → (layout program.now step proc.now cut).behind ≤ n → AreBegun terms.new program.now step proc.now cut t (λ env. begun program.now step proc.now cut (given env 0 n))) }
    ensures can { IfOk result (λ t. CanBegin terms.new program.now step proc.now cut t) }
    ensures variables { AreVariablesOf terms.new sorts.now }
    ensures lengthens { Lengthens terms.old terms.new }
    ensures weighs { OnOk result (graph_weight terms.new ≤ graph_weight terms.old + bits_of_variables (path_variables program.now step proc.now cut)) }
{
    let places = places_of(program, step, proc, cut);
    let globals = store(alloc, terms, program, sorts, Existing::Near(step), 0)?;
    let old_globals = begin_old_store(
        alloc, terms, program, sorts, step, cut.kind, &globals, places.old,
    )?;
    let frame = begin_frame(alloc, terms, sorts, proc, cut.kind, places)?;
    let chosen = begin_choices(
        alloc,
        terms,
        sorts,
        program,
        step,
        proc,
        number,
        cut,
        body,
        places.calls,
    )?;
    Ok(Beginning {
        globals,
        locals: frame.locals,
        done: frame.done,
        old_globals,
        old_outs: frame.old_outs,
        old_done: frame.old_done,
        chosen,
    })
}
