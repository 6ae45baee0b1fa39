// What the names in a note of a procedure stand for.
ghost use Rattle.std.specs.Prelude.{◌≡◌, ◌++◌, ◌+◌, take, drop, length, slice_index_or};
ghost use Rattle.civl_firing.specs.values.Operators.{nothing};
ghost use Rattle.civl_firing.specs.Names.{names_of};
ghost use Rattle.civl_conditions.specs.paths.NoteValues.{note_names, with_outs, plain_note_values, steady_note_values};
ghost use Rattle.civl_assumed.specs.Noted.{scope_noted};

use civl_bits::Value;
use civl_firing::names::{Names, place};
use civl_firing::setting::Bindings;
use civl_firing::values::nothing;
use civl_meaning::outputs;
use civl_meaning::slices::{behind, first};
use civl_tree::{Global, Name, Proc};

/// A note of a procedure: what stands in the invariants of its yields and loops, in ranks, in the values of intros and behind `with`.
/// Its names stand for the values of the globals and of the procedure's parameters, outputs and locals, and those in `old(..)` for
/// the values of the globals and of the outputs at the beginning of the block. (Auxiliary variables: Owicki and Gries, 1976.)
#[derive(Clone, Copy)]
pub struct Noted<'a> {
    pub globals: &'a [Global],
    pub proc: &'a Proc,
    pub store: &'a [Value],
    pub locals: &'a [Value],
    pub done: bool,
    pub old: &'a [Value],
    pub old_outs: &'a [Value],
    pub old_done: bool,
}

/// The value at a place, or that where nothing is.
pub(crate) fn value_at(values: &[Value], at: usize) -> Value
    ensures { result ≡ slice_index_or values.now at nothing }
{
    if at < values.len() {
        values[at]
    } else {
        nothing()
    }
}

/// The value at a place of two lists, one behind the other.
#[tactic(auto, using(civl_firing::proofs::Joining::indexing, std::proofs::lemmas::Grind::common_steps))]
fn value_in(before: &[Value], after: &[Value], at: usize) -> Value
    ensures { result ≡ slice_index_or (before.now ++ after.now) at nothing }
{
    if at < before.len() {
        return before[at];
    }
    value_at(after, at - before.len())
}

/// The value at a place of three lists, one behind the other.
#[tactic(auto, using(civl_firing::proofs::Joining::indexing, std::proofs::lemmas::Grind::common_steps))]
fn value_in_three(before: &[Value], middle: &[Value], after: &[Value], at: usize) -> Value
    ensures { result ≡ slice_index_or (before.now ++ (middle.now ++ after.now)) at nothing }
{
    if at < before.len() {
        return before[at];
    }
    value_in(middle, after, at - before.len())
}

/// The value at a place of a frame, with these in the place of its outputs.
fn value_with(proc: &Proc, locals: &[Value], outs: &[Value], at: usize) -> Value
    ensures { result ≡ slice_index_or (with_outs proc.now locals.now outs.now) at nothing }
{
    let params = first(locals, proc.params.len());
    let rest = behind(behind(locals, proc.params.len()), proc.outs.len());
    value_in_three(params, outs, rest, at)
}

/// The value at a place of what `old(..)` may name.
#[tactic(auto, using(civl_firing::proofs::Joining::indexing, std::proofs::lemmas::Grind::common_steps))]
fn old_at(note: &Noted<'_>, at: usize) -> Value
    ensures { result ≡ slice_index_or (note.now.old.now ++ with_outs note.now.proc.now note.now.locals.now note.now.old_outs.now) at nothing }
{
    if at < note.old.len() {
        return note.old[at];
    }
    value_with(note.proc, note.locals, note.old_outs, at - note.old.len())
}

/// The names in a note.
#[tactic(auto, using(civl_firing::proofs::Joining::appending))]
fn note_names<'a>(globals: &'a [Global], proc: &'a Proc) -> Names<'a>
    ensures { names_of result ≡ note_names globals.now proc.now }
{
    Names {
        globals,
        params: proc.params.as_slice(),
        choices: &[],
        outs: proc.outs.as_slice(),
        locals: proc.locals.as_slice(),
        behind: &[],
    }
}

impl Bindings for Noted<'_> {
    ghost scope = { scope_noted };

    fn value(&self, name: &Name) -> Value {
        let at = place(&note_names(self.globals, self.proc), name);
        value_in(self.store, self.locals, at)
    }

    fn old_value(&self, name: &Name) -> Value {
        let at = place(&note_names(self.globals, self.proc), name);
        old_at(self, at)
    }

    fn is_done(&self) -> bool {
        self.done
    }

    fn was_done(&self) -> bool {
        self.old_done
    }
}

/// A note where old means the present: at the beginning of a block, and behind its end.
pub fn steady<'a>(
    globals: &'a [Global],
    proc: &'a Proc,
    store: &'a [Value],
    locals: &'a [Value],
    done: bool,
) -> Noted<'a>
    ensures { scope_noted result ≡ steady_note_values globals.now proc.now (record { values = store.now }) locals.now done }
{
    Noted {
        globals,
        proc,
        store,
        locals,
        done,
        old: store,
        old_outs: outputs(proc, locals),
        old_done: done,
    }
}

/// A note that says nothing of `done` and of old values: a rank, the value of an intro, or one behind `with`.
pub fn plain<'a>(
    globals: &'a [Global],
    proc: &'a Proc,
    store: &'a [Value],
    locals: &'a [Value],
) -> Noted<'a>
    ensures { scope_noted result ≡ plain_note_values globals.now proc.now (record { values = store.now }) locals.now }
{
    steady(globals, proc, store, locals, false)
}
