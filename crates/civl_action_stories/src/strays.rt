// K11: an action that loses a target.
ghost use Rattle.std.specs.Prelude.{◌≡◌, ◌+◌, ◌++◌, ◌<◌, ◌^◌, [], Some, drop, option_copied, slice_get, IfOk, OnOk, length};
ghost use Rattle.std.specs.Option.{option_map_or};
ghost use Rattle.civl_tree.specs.SpellingProgram.{spell_program};
ghost use Rattle.civl_layers.specs.Cuts.{proc_cuts};
ghost use Rattle.civl_conditions.specs.Steps.{of_cut};
ghost use Rattle.civl_conditions.specs.Targets.{other_of};
ghost use Rattle.civl_conditions.specs.Values.{count_of, flag_at, instance_count};
ghost use Rattle.civl_conditions.specs.paths.NoteValues.{steady_note_values};
ghost use Rattle.civl_conditions.specs.paths.Seen.{exists_near};
ghost use Rattle.civl_lines.specs.Pieces.{of_other};
ghost use Rattle.civl_action_stories.specs.Actors.{named_parts_of};
ghost use Rattle.civl_action_stories.specs.Strays.{act_story, cut_line, statement_token, stray_story, target_story, yield_at, yield_story};
ghost use Rattle.civl_action_stories.specs.inner.Acting.{meant, frame};

use crate::acting::Acting;
use crate::lines::{makes, push_named_parts_of};
use crate::starts::{invariant_place, push_invariant};
use civl_assumed::frames::{behind_frame, frame_values};
use civl_assumed::steady;
use civl_assumed::stores::{Among, behind_globals};
use civl_bits::Value;
use civl_clashes::Effect;
use civl_conditions::{Condition, Target};
use civl_firing::Store;
use civl_firing::values::is_true;
use civl_layers::{Cut, Layered, cuts, program};
use civl_lines::{Kind, Line, Shown, of_other};
use civl_meaning::slices::behind;
use civl_places::{Formula, InStatement};
use civl_tree::{Action, List, Memory, Proc, Program};
use std::alloc::Global;

/// The values of another thread's frame: those of its parameters, outputs and locals, and of `done`.
#[derive(Clone, Copy)]
pub(crate) struct Frame<'a> {
    pub locals: &'a [Value],
    pub done: bool,
}

/// Whether the first of these values is true.
fn is_first_true(values: &[Value]) -> bool
    ensures { result ≡ flag_at values.now 0 }
{
    match values.get(0) {
        Some(value) => is_true(*value),
        None => false,
    }
}

/// The frame with which these values begin.
fn other_of<'a>(proc: &Proc, values: &'a [Value]) -> Frame<'a>
    ensures { frame result ≡ other_of proc.now values.now 0 }
{
    Frame {
        locals: frame_values(proc, values),
        done: is_first_true(behind_frame(proc, values)),
    }
}

/// The token of a statement of a procedure, or 0.
fn statement_token(program: &Program, number: u32, statement: u32) -> usize
    requires { length (spell_program program.now) < 2 ^ 64 }
    ensures { result ≡ statement_token program.now number statement }
{
    match civl_places::statement_token(program, number as usize, statement as usize) {
        Some(token) => token,
        None => 0,
    }
}

/// The line at a cut whose invariant is lost.
fn cut_line(alloc: Global, token: usize) -> Result<Line, Memory>
    ensures { IfOk result (λ line. line ≡ cut_line token) }
{
    let text = Vec::from_slice(alloc, b"what it says is lost")?;
    Ok(Line {
        token,
        shown: Shown::Head,
        kind: Kind::Error,
        text: List::from_vec(text),
    })
}

/// Why what a cut says of another thread's frame is false in a store, behind the other lines.
fn push_why(
    alloc: Global,
    lines: &mut Vec<Line>,
    program: &Program,
    number: u32,
    store: &Store,
    proc: &Proc,
    cut: Cut,
    other: &Frame<'_>,
) -> Result<(), Memory>
    requires { length (spell_program program.now) < 2 ^ 64 }
    ensures { OnOk result (lines.new.items ≡ lines.old.items
        ++ named_parts_of program.now (of_other program.now.globals) (Formula.Statement number cut.statement InStatement.Invariant)
        (steady_note_values program.now.globals proc.now store.now other.now.locals.now other.now.done)) }
{
    let note = steady(
        program.globals.as_slice(),
        proc,
        store.values.as_slice(),
        other.locals,
        other.done,
    );
    push_named_parts_of(
        alloc,
        lines,
        program,
        &of_other(program.globals.as_slice()),
        &Formula::Statement(
            number as usize,
            cut.statement as usize,
            InStatement::Invariant,
        ),
        &note,
    )
}

/// That what a cut says of another thread's frame is lost, and why, behind the other lines.
fn push_yield(
    alloc: Global,
    lines: &mut Vec<Line>,
    program: &Program,
    number: u32,
    store: &Store,
    proc: &Proc,
    cut: Cut,
    other: &Frame<'_>,
) -> Result<(), Memory>
    requires { length (spell_program program.now) < 2 ^ 64 }
    ensures { OnOk result (lines.new.items ≡ lines.old.items
        ++ yield_story program.now number store.now proc.now cut (frame other.now)) }
{
    lines.push(cut_line(alloc, statement_token(program, number, cut.statement))?)?;
    push_why(alloc, lines, program, number, store, proc, cut, other)
}

/// The same of the frame with which these values begin.
fn push_yield_at(
    alloc: Global,
    lines: &mut Vec<Line>,
    src: &Layered,
    number: u32,
    store: &Store,
    values: &[Value],
    proc: &Proc,
    cut: Cut,
) -> Result<(), Memory>
    requires { length (spell_program src.now) < 2 ^ 64 }
    ensures { OnOk result (lines.new.items ≡ lines.old.items ++ yield_at src.now number store.now values.now 0 proc.now cut) }
{
    let other = other_of(proc, values);
    push_yield(alloc, lines, program(src), number, store, proc, cut, &other)
}

/// The cut of a procedure that has this number, if there is one.
fn cut_at(
    alloc: Global,
    src: &Layered,
    number: u32,
    proc: &Proc,
    cut: u32,
) -> Result<Option<Cut>, Memory>
    requires found { slice_get src.now.procs number ≡ Some proc.now }
    ensures { IfOk result (λ there. there ≡ slice_get (proc_cuts proc.now) cut) }
{
    let cuts = cuts(alloc, src, number)?;
    match cuts.as_slice().get(cut as usize) {
        Some(found) => Ok(Some(*found)),
        None => Ok(None),
    }
}

/// The same of the cut of a procedure that has this number.
fn push_cut(
    alloc: Global,
    lines: &mut Vec<Line>,
    src: &Layered,
    number: u32,
    cut: u32,
    store: &Store,
    values: &[Value],
    proc: &Proc,
) -> Result<(), Memory>
    requires short { length (spell_program src.now) < 2 ^ 64 }
    requires found { slice_get src.now.procs number ≡ Some proc.now }
    ensures { OnOk result (lines.new.items ≡ lines.old.items
        ++ option_map_or (yield_at src.now number store.now values.now 0 proc.now) (slice_get (proc_cuts proc.now) cut) []) }
{
    match cut_at(alloc, src, number, proc, cut)? {
        Some(found) => push_yield_at(alloc, lines, src, number, store, values, proc, found),
        None => Ok(()),
    }
}

/// The procedure with this number, if there is one.
fn proc_at(src: &Layered, number: u32) -> Option<&Proc>
    ensures { option_copied result ≡ slice_get src.now.procs number }
{
    program(src).procs.as_slice().get(number as usize)
}

/// The same of the procedure and its cut that have these numbers.
fn push_cut_of(
    alloc: Global,
    lines: &mut Vec<Line>,
    src: &Layered,
    number: u32,
    cut: u32,
    store: &Store,
    values: &[Value],
) -> Result<(), Memory>
    requires { length (spell_program src.now) < 2 ^ 64 }
    ensures { OnOk result (lines.new.items ≡ lines.old.items
        ++ of_cut src.now number cut [] (yield_at src.now number store.now values.now 0)) }
{
    match proc_at(src, number) {
        Some(proc) => push_cut(alloc, lines, src, number, cut, store, values, proc),
        None => Ok(()),
    }
}

/// A target that is lost in a store, behind the other lines. A yield's frame has the values with which these begin.
fn push_target(
    alloc: Global,
    lines: &mut Vec<Line>,
    src: &Layered,
    step: u32,
    store: &Store,
    values: &[Value],
    target: Target,
) -> Result<(), Memory>
    requires { length (spell_program src.now) < 2 ^ 64 }
    ensures { OnOk result (lines.new.items ≡ lines.old.items ++ target_story src.now step store.now values.now 0 target) }
{
    match target {
        Target::Invariant(number) => push_invariant(
            alloc,
            lines,
            program(src),
            invariant_place(program(src).invariants.as_slice(), step, number),
            b"is lost",
            store,
        ),
        Target::Yield(number, cut) => push_cut_of(alloc, lines, src, number, cut, store, values),
    }
}

/// The values behind those of the globals and of an action.
fn behind_action<'a>(src: &Layered, step: u32, action: &Action, values: &'a [Value]) -> &'a [Value]
    ensures { result.now ≡ drop (count_of (exists_near step) src.now + instance_count action.now) values.now }
{
    let rest = behind_globals(Among::Step(step), program(src), values);
    behind(behind(rest, action.params.len()), action.choices.len())
}

/// A target that is lost in a store, behind the other lines. A yield's frame has its values behind those of the globals and of an
/// action.
#[tactic(auto, using(crate::proofs::Frames::target_as))]
fn push_target_behind(
    alloc: Global,
    lines: &mut Vec<Line>,
    src: &Layered,
    step: u32,
    store: &Store,
    values: &[Value],
    action: &Action,
    target: Target,
) -> Result<(), Memory>
    requires { length (spell_program src.now) < 2 ^ 64 }
    ensures { OnOk result (lines.new.items ≡ lines.old.items ++ target_story src.now step store.now values.now
        (count_of (exists_near step) src.now + instance_count action.now) target) }
{
    let rest = behind_action(src, step, action, values);
    push_target(alloc, lines, src, step, store, rest, target)
}

/// The story of K11, behind the other lines.
fn push_act(
    alloc: Global,
    lines: &mut Vec<Line>,
    src: &Layered,
    step: u32,
    target: Target,
    values: &[Value],
    store: &Store,
    effect: &Effect,
    x: &Acting<'_>,
) -> Result<(), Memory>
    requires { length (spell_program src.now) < 2 ^ 64 }
    ensures { OnOk result (lines.new.items ≡ lines.old.items
        ++ act_story src.now step target values.now store.now effect.now (meant x.now)) }
{
    lines.push(makes(alloc, b"", program(src), x, store, effect)?)?;
    push_target_behind(
        alloc,
        lines,
        src,
        step,
        &effect.store,
        values,
        x.action,
        target,
    )
}

/// The same by the condition.
pub(crate) fn push_stray(
    alloc: Global,
    lines: &mut Vec<Line>,
    src: &Layered,
    condition: &Condition,
    values: &[Value],
    store: &Store,
    effect: &Effect,
    x: &Acting<'_>,
) -> Result<(), Memory>
    requires { length (spell_program src.now) < 2 ^ 64 }
    ensures { OnOk result (lines.new.items ≡ lines.old.items
        ++ stray_story src.now condition.now values.now store.now effect.now (meant x.now)) }
{
    match condition {
        Condition::Act(step, _, target) => {
            push_act(alloc, lines, src, *step, *target, values, store, effect, x)
        }
        Condition::Start(_, _) => Ok(()),
        Condition::Keep(_, _) => Ok(()),
        Condition::Pair(_, _, _, _) => Ok(()),
        Condition::Fire(_, _) => Ok(()),
        Condition::Path(_, _, _, _) => Ok(()),
        Condition::Block(_, _, _, _) => Ok(()),
    }
}
