// The tokens at which the holds and notes of an outline begin.
ghost use Rattle.std.specs.Prelude.{◌≡◌, ◌<◌, ◌≤◌, ◌^◌, length, map};
ghost use Rattle.std.specs.Option.{option_map};
ghost use Rattle.civl_tree.specs.Spelling.{joined};
ghost use Rattle.civl_outlines.specs.SpellingOutline.{spell_hold, spell_note, spell_outline};
ghost use Rattle.civl_reasons.specs.inner.Told.{subformula};
ghost use Rattle.civl_goal_stories.specs.Places.{hold_at, hold_start, note_at, note_start};

use civl_outlines::{Note, Outline};
use civl_places::program_count;
use civl_reasons::{Part, expr_count};
use civl_tree::Expr;

// ---- counts

/// How many tokens a hold has.
#[tactic(auto, using(civl_places::proofs::Counts::counts))]
pub(crate) fn hold_count(hold: &Expr) -> usize
    requires { length (spell_hold hold.now) < 2 ^ 64 }
    ensures { result ≡ length (spell_hold hold.now) }
{
    expr_count(hold) + 2
}

/// How many these holds have.
fn holds_count(holds: &[Expr]) -> usize
    requires { length (joined (map spell_hold holds.now)) < 2 ^ 64 }
    ensures { result ≡ length (joined (map spell_hold holds.now)) }
{
    let mut sum = 0;
    for hold in holds {
        sum += hold_count(hold);
    }
    sum
}

/// How many tokens a note has.
#[tactic(auto, using(civl_places::proofs::Counts::counts))]
fn note_count(note: &Note) -> usize
    requires { length (spell_note note.now) < 2 ^ 64 }
    ensures { result ≡ length (spell_note note.now) }
{
    expr_count(&note.expr) + 4
}

/// How many these notes have.
fn notes_count(notes: &[Note]) -> usize
    requires { length (joined (map spell_note notes.now)) < 2 ^ 64 }
    ensures { result ≡ length (joined (map spell_note notes.now)) }
{
    let mut sum = 0;
    for note in notes {
        sum += note_count(note);
    }
    sum
}

// ---- holds

/// The token at which the first hold begins, or what stands in its place.
#[tactic(auto, using(civl_places::proofs::Counts::counts))]
pub(crate) fn holds_start(outline: &Outline) -> usize
    requires { length (spell_outline outline.now) < 2 ^ 64 }
    ensures { result ≡ hold_start outline.now 0 }
{
    program_count(&outline.program) + 1
}

/// The token at which a hold begins that there is.
fn hold_start(outline: &Outline, number: usize) -> usize
    requires short { length (spell_outline outline.now) < 2 ^ 64 }
    requires there { number < length outline.now.holds }
    ensures { result ≡ hold_start outline.now number }
{
    holds_start(outline) + holds_count(&outline.holds.as_slice()[..number])
}

/// What the hold with this number says, with the token, counted from 0, at which it begins in the spelling of the outline; `None` exactly
/// where there is no such hold.
pub fn hold_at(outline: &Outline, number: usize) -> Option<Part<'_>>
    requires { length (spell_outline outline.now) < 2 ^ 64 }
    ensures { option_map subformula result ≡ hold_at outline.now number }
{
    match outline.holds.as_slice().get(number) {
        Some(hold) => Some(Part {
            token: hold_start(outline, number) + 1,
            expr: hold,
        }),
        None => None,
    }
}

// ---- notes

/// The token at which the first note begins, or the end of the outline.
#[tactic(auto, using(civl_places::proofs::Counts::counts))]
fn notes_start(outline: &Outline) -> usize
    requires { length (spell_outline outline.now) < 2 ^ 64 }
    ensures { result ≡ note_start outline.now 0 }
{
    holds_start(outline) + holds_count(outline.holds.as_slice())
}

/// The token at which a note begins that there is.
pub(crate) fn note_start(outline: &Outline, number: usize) -> usize
    requires short { length (spell_outline outline.now) < 2 ^ 64 }
    requires there { number < length outline.now.notes }
    ensures { result ≡ note_start outline.now number }
{
    notes_start(outline) + notes_count(&outline.notes.as_slice()[..number])
}

/// What the note with this number says, with the token, counted from 0, at which it begins in the spelling of the outline; `None` exactly
/// where there is no such note.
pub fn note_at(outline: &Outline, number: usize) -> Option<Part<'_>>
    requires { length (spell_outline outline.now) < 2 ^ 64 }
    ensures { option_map subformula result ≡ note_at outline.now number }
{
    match outline.notes.as_slice().get(number) {
        Some(note) => Some(Part {
            token: note_start(outline, number) + 3,
            expr: &note.expr,
        }),
        None => None,
    }
}
