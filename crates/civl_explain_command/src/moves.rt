// The moves of a run, line by line.
ghost use Rattle.std.specs.Prelude.{◌≡◌, ◌<◌, ◌^◌, ◌++◌, [], OnOk, IfOk, length, map, codes, decimal};
ghost use Rattle.civl_tree.specs.Numbering.{item_count};
ghost use Rattle.civl_tree.specs.SpellingProgram.{spell_program};
ghost use Rattle.civl_tree.specs.rules.Names.{global_names};
ghost use Rattle.civl_firing.specs.Names.{names_of};
ghost use Rattle.civl_path_stories.specs.Paths.{name_at};
ghost use Rattle.civl_lines.specs.Pieces.{change_text};
ghost use Rattle.civl_refusals.specs.Refusals.{item_at};
ghost use Rattle.civl_explain_command.specs.Runs.{changed_proc, changes_text, first_text, frame_names, kind_text, move_line, move_text, names_changed, proc_name, proc_token, stand_line, stand_shown, stand_token, step_text};

use civl_firing::names::Names;
use civl_history::{Changed, MadeMove, Stand, StepKind};
use civl_lines::{Kind, Line, Shown};
use civl_path_stories::naming::name_at;
use civl_places::{item_token, statement_token};
use civl_tree::{List, Memory, Proc, Program};
use civl_verdicts::models::put_value_text;
use civl_verdicts::reports::{put, put_number};
use std::alloc::Global;

/// The token of an item.
fn item_at(program: &Program, item: usize) -> usize
    requires { length (spell_program program.now) < 2 ^ 64 }
    ensures { result ≡ item_at program.now item }
{
    match item_token(program, item) {
        Some(token) => token,
        None => 0,
    }
}

/// The token of a procedure.
fn proc_token(program: &Program, number: usize) -> usize
    requires short { length (spell_program program.now) < 2 ^ 64 }
    requires items { item_count program.now < 2 ^ 32 }
    ensures { result ≡ proc_token program.now number }
{
    if number >= program.procs.len() {
        return 0;
    }
    let before = program.globals.len() + 1 + program.invariants.len() + program.actions.len();
    item_at(program, before + number)
}

/// The token at which a thread stands.
fn stand_token(program: &Program, stand: Stand) -> usize
    requires short { length (spell_program program.now) < 2 ^ 64 }
    requires items { item_count program.now < 2 ^ 32 }
    ensures { result ≡ stand_token program.now stand }
{
    match stand {
        Stand::Begins(number) => proc_token(program, number),
        Stand::Before(number, statement) => statement_token(program, number, statement).unwrap_or(
            0,
        ),
        Stand::Leaves(number) => proc_token(program, number),
        Stand::Ended(number) => proc_token(program, number),
    }
}

/// What is shown there.
fn stand_shown(stand: Stand) -> Shown
    ensures { result ≡ stand_shown stand }
{
    match stand {
        Stand::Begins(_) => Shown::Tokens(2),
        Stand::Before(_, _) => Shown::Head,
        Stand::Leaves(_) => Shown::Tokens(2),
        Stand::Ended(_) => Shown::Tokens(2),
    }
}

/// A line at the place where a thread stands.
pub(crate) fn stand_line(program: &Program, kind: Kind, stand: Stand, text: List<u8>) -> Line
    requires short { length (spell_program program.now) < 2 ^ 64 }
    requires items { item_count program.now < 2 ^ 32 }
    ensures { result ≡ stand_line program.now kind stand text }
{
    Line {
        token: stand_token(program, stand),
        shown: stand_shown(stand),
        kind,
        text,
    }
}

/// The name of a procedure, behind a text.
fn put_proc(out: &mut Vec<u8>, text: &[u8], program: &Program, number: usize) -> Result<(), Memory>
    ensures { OnOk result (out.new.items ≡ out.old.items ++ (text.now ++ proc_name program.now number)) }
{
    put(out, text)?;
    match program.procs.as_slice().get(number) {
        Some(proc) => put(out, proc.name.as_slice()),
        None => Ok(()),
    }
}

/// A number, behind a text.
fn put_count(out: &mut Vec<u8>, text: &[u8], number: usize) -> Result<(), Memory>
    ensures { OnOk result (out.new.items ≡ out.old.items ++ (text.now ++ decimal number)) }
{
    put(out, text)?;
    put_number(out, number)
}

/// What a step does.
fn put_kind(out: &mut Vec<u8>, program: &Program, kind: StepKind) -> Result<(), Memory>
    ensures { OnOk result (out.new.items ≡ out.old.items ++ kind_text program.now kind) }
{
    match kind {
        StepKind::Goes => Ok(()),
        StepKind::Acts => Ok(()),
        StepKind::Enters(number) => put_proc(out, b", enters ", program, number),
        StepKind::Returns(number) => put_proc(out, b", returns to ", program, number),
        StepKind::Ends => put(out, b", ends"),
        StepKind::Spawns(thread) => put_count(out, b", spawns thread ", thread as usize),
    }
}

/// What a thread's first step does.
fn put_first(out: &mut Vec<u8>, program: &Program, kind: StepKind) -> Result<(), Memory>
    ensures { OnOk result (out.new.items ≡ out.old.items ++ first_text program.now kind) }
{
    match kind {
        StepKind::Acts => put(out, b", ends"),
        _ => put_kind(out, program, kind),
    }
}

/// What the step of a thread does that stood here.
fn put_step(
    out: &mut Vec<u8>,
    program: &Program,
    stood: Stand,
    kind: StepKind,
) -> Result<(), Memory>
    ensures { OnOk result (out.new.items ≡ out.old.items ++ step_text program.now stood kind) }
{
    match stood {
        Stand::Begins(_) => put_first(out, program, kind),
        _ => put_kind(out, program, kind),
    }
}

/// The names of the globals.
#[tactic(auto, using(civl_firing::proofs::Joining::appending))]
fn globals_of(program: &Program) -> Names<'_>
    ensures { names_of result ≡ global_names program.now.globals }
{
    Names {
        globals: program.globals.as_slice(),
        params: &[],
        choices: &[],
        outs: &[],
        locals: &[],
        behind: &[],
    }
}

/// The names of a procedure's frame.
#[tactic(auto, using(civl_firing::proofs::Joining::appending))]
fn frame_of(proc: &Proc) -> Names<'_>
    ensures { names_of result ≡ frame_names proc.now }
{
    Names {
        globals: &[],
        params: proc.params.as_slice(),
        choices: &[],
        outs: proc.outs.as_slice(),
        locals: proc.locals.as_slice(),
        behind: &[],
    }
}

/// No names.
fn no_names<'a>() -> Names<'a>
    ensures { names_of result ≡ [] }
{
    Names {
        globals: &[],
        params: &[],
        choices: &[],
        outs: &[],
        locals: &[],
        behind: &[],
    }
}

/// Puts `, name: before -> after` behind what is there.
fn put_change(out: &mut Vec<u8>, names: &Names<'_>, change: &Changed) -> Result<(), Memory>
    ensures { OnOk result (out.new.items ≡ out.old.items ++ (codes ", "
        ++ change_text (name_at (names_of names.now) change.now.place) change.now.before change.now.after)) }
{
    put(out, b", ")?;
    put(out, name_at(names, change.place))?;
    put(out, b": ")?;
    put_value_text(out, &change.before)?;
    put(out, b" -> ")?;
    put_value_text(out, &change.after)
}

/// The same of each of these.
fn put_changes(out: &mut Vec<u8>, names: &Names<'_>, changes: &[Changed]) -> Result<(), Memory>
    ensures { OnOk result (out.new.items ≡ out.old.items ++ changes_text (names_of names.now) changes.now) }
{
    for change in changes {
        put_change(out, names, change)?;
    }
    Ok(())
}

/// The procedure whose locals a move changes.
fn changed_proc(stand: Stand, kind: StepKind) -> usize
    ensures { result ≡ changed_proc stand kind }
{
    if let StepKind::Returns(number) = kind {
        return number;
    }
    match stand {
        Stand::Before(number, _) => number,
        _ => 0,
    }
}

/// The names of the locals that a move changes.
fn names_changed<'a>(program: &'a Program, made: &MadeMove) -> Names<'a>
    ensures { names_of result ≡ names_changed program.now made.now }
{
    match program
        .procs
        .as_slice()
        .get(changed_proc(made.stood, made.kind))
    {
        Some(proc) => frame_of(proc),
        None => no_names(),
    }
}

/// What a move is and changes.
fn put_move(out: &mut Vec<u8>, program: &Program, made: &MadeMove) -> Result<(), Memory>
    ensures { OnOk result (out.new.items ≡ out.old.items ++ move_text program.now made.now) }
{
    put(out, b"thread ")?;
    put_number(out, made.thread as usize)?;
    put_step(out, program, made.stood, made.kind)?;
    put_changes(out, &globals_of(program), made.globals.as_slice())?;
    put_changes(out, &names_changed(program, made), made.locals.as_slice())
}

/// The text of a move.
fn move_text(alloc: Global, program: &Program, made: &MadeMove) -> Result<List<u8>, Memory>
    ensures { IfOk result (λ text. text ≡ move_text program.now made.now) }
{
    let mut text = Vec::new(alloc);
    put_move(&mut text, program, made)?;
    Ok(List::from_vec(text))
}

/// The line of a move.
fn move_line(alloc: Global, program: &Program, made: &MadeMove) -> Result<Line, Memory>
    requires short { length (spell_program program.now) < 2 ^ 64 }
    requires items { item_count program.now < 2 ^ 32 }
    ensures { IfOk result (λ line. line ≡ move_line program.now made.now) }
{
    let text = move_text(alloc, program, made)?;
    Ok(stand_line(program, Kind::Info, made.stood, text))
}

/// Adds a line for each move.
pub(crate) fn push_moves(
    alloc: Global,
    lines: &mut Vec<Line>,
    program: &Program,
    moves: &[MadeMove],
) -> Result<(), Memory>
    requires short { length (spell_program program.now) < 2 ^ 64 }
    requires items { item_count program.now < 2 ^ 32 }
    ensures { OnOk result (lines.new.items ≡ lines.old.items ++ map (move_line program.now) moves.now) }
{
    for made in moves {
        let line = move_line(alloc, program, made)?;
        lines.push(line)?;
    }
    Ok(())
}
