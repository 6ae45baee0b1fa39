// The two rules on outlines.
ghost use Rattle.std.specs.Prelude.{◌≡◌, ◌+◌, ◌<◌, ◌^◌, ◌&&◌, [], false, not, length, map, if◌then◌else◌, IfOk, OnOk};
ghost use Rattle.std.specs.Option.{option_map_or};
ghost use Rattle.civl_tree.specs.declared.stmt.Stmt.{out-Stmt};
ghost use Rattle.civl_tree.specs.Numbering.{proc_item, thread_item, sizes_of};
ghost use Rattle.civl_tree.specs.Numbered.{IsNumbered};
ghost use Rattle.civl_tree.specs.rules.Rules.{statements_where, each_place, first_of};
ghost use Rattle.civl_goals.specs.Listed.{is_root};
ghost use Rattle.civl_goals.specs.Rules.{root_at, stands_in, misplaced, unfit_holds, unfit, names_layered, names_root, form_descends, descending_in, descending_thread, descending};
ghost use Rattle.civl_goals.specs.Spots.{spot_of, spots_in, has_spot, with_spot};
ghost use Rattle.civl_goals.specs.Told.{told};

use crate::roots::is_root;
use crate::sayings::{Place, says};
use crate::spots::{Spots, spot_of};
use civl_layers::{Layered, program};
use civl_names::walks::{Test, first_in_body, statements};
use civl_outlines::{Note, Outline};
use civl_tree::{Expr, Memory, Name, Proc, Program, Stmt, Thread};
use civl_types::names::{action_named, proc_named};
use std::alloc::Global;

// ---- items

/// The number of the procedure at this place, as an item.
pub(crate) fn proc_item(program: &Program, place: usize) -> u32
    requires numbered { IsNumbered program.now }
    requires place { place < length program.now.procs }
    ensures { result ≡ proc_item program.now place }
{
    let before = program.globals.len() + 1 + program.invariants.len() + program.actions.len();
    (before + place) as u32
}

/// The number of the declared thread at this place, as an item.
fn thread_item(program: &Program, place: usize) -> u32
    requires numbered { IsNumbered program.now }
    requires place { place < length program.now.threads }
    ensures { result ≡ thread_item program.now place }
{
    let before = program.globals.len() + 1 + program.invariants.len() + program.actions.len();
    (before + program.procs.len() + place) as u32
}

// ---- calls of roots, and threads of others

/// Whether the name is that of a procedure that refines an action.
fn names_layered(program: &Program, name: &Name) -> bool
    ensures { result ≡ names_layered program.now name.now }
{
    match proc_named(program, name) {
        Some(proc) => !is_root(proc),
        None => false,
    }
}

/// Whether a call of the name is a call of a root.
fn names_root(program: &Program, name: &Name) -> bool
    ensures { result ≡ names_root program.now name.now }
{
    match action_named(program, name) {
        Some(_) => false,
        None => match proc_named(program, name) {
            Some(proc) => is_root(proc),
            None => false,
        },
    }
}

/// What is asked of the statements of roots: whether they call a root, or spawn a procedure that refines an action.
#[derive(Clone, Copy)]
struct Descends<'a> {
    program: &'a Program,
}

impl<'a> Test for Descends<'a> {
    ghost breaks = { λ asked stmt. form_descends asked.program.now (out-Stmt stmt) };

    fn breaks(&self, stmt: &Stmt) -> bool {
        match stmt {
            Stmt::Call(callee, _, _) => names_root(self.program, callee),
            Stmt::Spawn(callee, _) => names_layered(self.program, callee),
            Stmt::Assign(_, _) => false,
            Stmt::Assert(_) => false,
            Stmt::If(_, _, _) => false,
            Stmt::While(_, _) => false,
            Stmt::YieldLoop(_, _, _) => false,
            Stmt::RankLoop(_, _, _, _) => false,
            Stmt::Yield(_) => false,
            Stmt::Commit => false,
            Stmt::Intro(_, _) => false,
        }
    }
}

/// The first such statement of a procedure, where it is a root.
#[tactic(auto, using(civl_names::proofs::walks::Placing::body_counts))]
fn first_statement(program: &Program, proc: &Proc) -> Option<u32>
    requires { sizes_of proc.now.body < 2 ^ 32 }
    ensures { result ≡ first_of (if is_root proc.now then statements_where (λ stmt. form_descends program.now (out-Stmt stmt)) proc.now else []) }
{
    if is_root(proc) {
        first_in_body(&Descends { program }, &proc.body)
    } else {
        None
    }
}

/// The same with its item.
#[tactic(auto, using(crate::proofs::Placed::first_told))]
fn first_in_root(program: &Program, place: usize, proc: &Proc) -> Option<(u32, u32)>
    requires numbered { IsNumbered program.now }
    requires place { place < length program.now.procs }
    requires statements { sizes_of proc.now.body < 2 ^ 32 }
    ensures { result ≡ first_of (map told (descending_in program.now place proc.now)) }
{
    match first_statement(program, proc) {
        Some(statement) => Some((proc_item(program, place), statement)),
        None => None,
    }
}

/// The first of all roots.
fn first_in_roots(program: &Program) -> Option<(u32, u32)>
    requires { IsNumbered program.now }
    ensures { result ≡ first_of (map told (each_place (descending_in program.now) 0 program.now.procs)) }
{
    let procs = program.procs.as_slice();
    for (place, proc) in procs.iter().enumerate() {
        if let Some(first) = first_in_root(program, place, proc) {
            return Some(first);
        }
    }
    None
}

/// The place of a declared thread, where it calls a procedure that refines an action.
fn first_of_thread(program: &Program, place: usize, thread: &Thread) -> Option<(u32, u32)>
    requires numbered { IsNumbered program.now }
    requires place { place < length program.now.threads }
    ensures { result ≡ first_of (map told (descending_thread program.now place thread.now)) }
{
    if names_layered(program, &thread.callee) {
        Some((thread_item(program, place), 0))
    } else {
        None
    }
}

/// The first such thread.
fn first_of_threads(program: &Program) -> Option<(u32, u32)>
    requires { IsNumbered program.now }
    ensures { result ≡ first_of (map told (each_place (descending_thread program.now) 0 program.now.threads)) }
{
    let threads = program.threads.as_slice();
    for (place, thread) in threads.iter().enumerate() {
        if let Some(first) = first_of_thread(program, place, thread) {
            return Some(first);
        }
    }
    None
}

/// The first item and statement at which a root calls a root, or a declared thread or a spawn calls a procedure that refines
/// an action; of a thread the statement is 0. Without such a place the topmost program runs roots alone, and these call
/// actions.
pub fn first_descending(src: &Layered) -> Option<(u32, u32)>
    ensures { result ≡ first_of (map told (descending src.now)) }
{
    let program = program(src);
    match first_in_roots(program) {
        Some(place) => Some(place),
        None => first_of_threads(program),
    }
}

// ---- holds and notes

/// The first hold that doesn't fit.
fn first_hold(program: &Program, holds: &[Expr]) -> Option<u32>
    requires { length holds.now < 2 ^ 32 }
    ensures { result ≡ first_of (unfit_holds program.now holds.now) }
{
    let place = Place::Hold(program);
    for (number, hold) in holds.iter().enumerate() {
        if !says(&place, hold) {
            return Some(number as u32);
        }
    }
    None
}

/// How many statements each procedure has.
fn statement_counts(alloc: Global, program: &Program) -> Result<Vec<usize>, Memory>
    ensures { IfOk result (λ counts. counts.items ≡ map (λ proc. sizes_of proc.body) program.now.procs) }
{
    let mut counts = Vec::new(alloc);
    for proc in program.procs.as_slice() {
        let flat = statements(alloc, &proc.body)?;
        counts.push(flat.len())?;
    }
    Ok(counts)
}

/// Whether the note stands before a statement of this procedure, which has so many, and says something of that place.
fn stands_in(program: &Program, proc: &Proc, count: usize, note: &Note) -> bool
    requires { count ≡ sizes_of proc.now.body }
    ensures { result ≡ stands_in program.now note.now proc.now }
{
    (note.statement as usize) < count && says(&Place::Note(program, proc), &note.expr)
}

/// The same of the root that is the note's item, where there is one. The procedures have so many statements.
fn stands(program: &Program, counts: &[usize], note: &Note) -> bool
    requires numbered { IsNumbered program.now }
    requires counts { counts.now ≡ map (λ proc. sizes_of proc.body) program.now.procs }
    ensures { result ≡ option_map_or (stands_in program.now note.now) (root_at program.now note.now.item) false }
{
    let procs = program.procs.as_slice();
    for (place, proc) in procs.iter().enumerate() {
        if proc_item(program, place) == note.item && is_root(proc) {
            return stands_in(program, proc, counts[place], note);
        }
    }
    false
}

/// Whether the note fits behind those whose places are in the set. Its place comes to the set.
fn fits(program: &Program, counts: &[usize], spots: &mut Spots, note: &Note) -> Result<bool, Memory>
    requires numbered { IsNumbered program.now }
    requires counts { counts.now ≡ map (λ proc. sizes_of proc.body) program.now.procs }
    ensures fits { IfOk result (λ fits. fits ≡ (option_map_or (stands_in program.now note.now) (root_at program.now note.now.item) false && not (has_spot (spots_in spots.old) (spot_of note.now)))) }
    ensures spots { OnOk result (spots_in spots.new ≡ with_spot (spots_in spots.old) (spot_of note.now)) }
{
    let twice = spots.add(spot_of(note))?;
    Ok(stands(program, counts, note) && !twice)
}

/// The first note that doesn't fit, where so many holds stand before the notes.
fn first_note(
    alloc: Global,
    program: &Program,
    before: usize,
    notes: &[Note],
) -> Result<Option<u32>, Memory>
    requires numbered { IsNumbered program.now }
    requires few { before + length notes.now < 2 ^ 32 }
    ensures { IfOk result (λ found. found ≡ first_of (misplaced program.now [] before notes.now)) }
{
    let counts = statement_counts(alloc, program)?;
    let mut spots = Spots::new(alloc);
    for (place, note) in notes.iter().enumerate() {
        if !fits(program, &counts, &mut spots, note)? {
            return Ok(Some((before + place) as u32));
        }
    }
    Ok(None)
}

/// The first hold of an outline that doesn't fit.
fn first_hold_of(program: &Program, outline: &Outline) -> Option<u32>
    requires { length outline.now.holds < 2 ^ 32 }
    ensures { result ≡ first_of (unfit_holds program.now outline.now.holds) }
{
    first_hold(program, outline.holds.as_slice())
}

/// Its first note that doesn't fit, numbered behind the holds.
fn first_note_of(alloc: Global, program: &Program, outline: &Outline) -> Result<Option<u32>, Memory>
    requires numbered { IsNumbered program.now }
    requires few { length outline.now.holds + length outline.now.notes < 2 ^ 32 }
    ensures { IfOk result (λ found. found ≡ first_of (misplaced program.now [] (length outline.now.holds) outline.now.notes)) }
{
    let before = outline.holds.len();
    first_note(alloc, program, before, outline.notes.as_slice())
}

/// The number of the first hold or note that doesn't fit, where these are numbered together from 0. A hold is a bool over the
/// globals of the topmost program, a note one over these and the names of its procedure; words and rows are in range, and
/// neither `done` nor `old(..)` stands in it. A note stands before a statement of a root, and no earlier one stands there.
/// There are fewer than 2^32 holds and notes together.
///
/// # Errors
///
/// For want of memory.
pub fn first_unfit(alloc: Global, src: &Layered, outline: &Outline) -> Result<Option<u32>, Memory>
    requires { length outline.now.holds + length outline.now.notes < 2 ^ 32 }
    ensures { IfOk result (λ found. found ≡ first_of (unfit src.now outline.now)) }
{
    let program = program(src);
    match first_hold_of(program, outline) {
        Some(number) => Ok(Some(number)),
        None => {
            let found = first_note_of(alloc, program, outline)?;
            Ok(found)
        }
    }
}
