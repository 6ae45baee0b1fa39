// Outlines, read from tokens.
ghost use Rattle.std.specs.Prelude.{[]};
ghost use Rattle.civl_lex.specs.Spelled.{spelled};
ghost use Rattle.civl_phrases.specs.Reader.{Gives, begins};
ghost use Rattle.civl_outlines.specs.inner.readers.Outlines.{hold_word, hold_at, note_word, note_at, saying_at, outline_text_at};
ghost use Rattle.civl_outlines.specs.Reading.{OutlineParses, OutlineIsOnly};

use crate::outline::{Note, Outline};
use civl_expressions::ended_expr;
use civl_lex::Token;
use civl_parser::{ParseFault, program};
use civl_phrases::{Halt, Headed, Phrase, Stop, end, many, number, word, word_next};
use civl_tree::{Expr, List};
use std::alloc::Global;

// ---- holds

#[tactic(auto, unfolding(crate::specs::inner::readers::Outlines::hold_at, civl_phrases::specs::Reader::after))]
fn hold<'t, 'a>(
    alloc: Global,
    new: bool,
    most: usize,
    tokens: &'t [Token<'a>],
) -> Result<(Expr, &'t [Token<'a>]), Halt>
    ensures { Gives (λ x. (x.0, spelled x.1.now)) result (hold_at new most (spelled tokens.now)) }
{
    let rest = word(tokens, b"inv")?;
    ended_expr(alloc, new, most, rest)
}

/// Holds, where `most` more brackets may be open. `new` says that the version is 2.
#[derive(Drop)]
struct HoldPhrase {
    new: bool,
    most: usize,
}

impl Phrase for HoldPhrase {
    type Item = Expr;

    ghost reader = { λ phrase. hold_at phrase.new phrase.most };

    fn read<'t, 'a>(
        &self,
        alloc: Global,
        tokens: &'t [Token<'a>],
    ) -> Result<(Expr, &'t [Token<'a>]), Halt> {
        hold(alloc, self.new, self.most, tokens)
    }
}

impl Headed for HoldPhrase {
    ghost heads = { λ _. begins hold_word };

    fn is_next(&self, tokens: &[Token<'_>]) -> bool {
        word_next(tokens, b"inv")
    }
}

// ---- notes

#[tactic(auto, unfolding(crate::specs::inner::readers::Outlines::note_at, civl_phrases::specs::Reader::mapped, civl_phrases::specs::Reader::both, civl_phrases::specs::Reader::after))]
fn note<'t, 'a>(
    alloc: Global,
    new: bool,
    most: usize,
    tokens: &'t [Token<'a>],
) -> Result<(Note, &'t [Token<'a>]), Halt>
    ensures { Gives (λ x. (x.0, spelled x.1.now)) result (note_at new most (spelled tokens.now)) }
{
    let rest = word(tokens, b"assert")?;
    let (item, rest) = number(rest)?;
    let (statement, rest) = number(rest)?;
    let (expr, rest) = ended_expr(alloc, new, most, rest)?;
    let note = Note {
        item,
        statement,
        expr,
    };
    Ok((note, rest))
}

/// Notes, where `most` more brackets may be open. `new` says that the version is 2.
#[derive(Drop)]
struct NotePhrase {
    new: bool,
    most: usize,
}

impl Phrase for NotePhrase {
    type Item = Note;

    ghost reader = { λ phrase. note_at phrase.new phrase.most };

    fn read<'t, 'a>(
        &self,
        alloc: Global,
        tokens: &'t [Token<'a>],
    ) -> Result<(Note, &'t [Token<'a>]), Halt> {
        note(alloc, self.new, self.most, tokens)
    }
}

impl Headed for NotePhrase {
    ghost heads = { λ _. begins note_word };

    fn is_next(&self, tokens: &[Token<'_>]) -> bool {
        word_next(tokens, b"assert")
    }
}

// ---- outlines

/// What stands behind the program.
#[derive(Drop)]
pub struct Saying {
    pub holds: List<Expr>,
    pub notes: List<Note>,
}

#[tactic(auto, unfolding(crate::specs::inner::readers::Outlines::saying_at, civl_phrases::specs::Reader::mapped, civl_phrases::specs::Reader::both, civl_phrases::specs::Reader::after))]
fn read_saying(alloc: Global, new: bool, most: usize, tokens: &[Token<'_>]) -> Result<Saying, Halt>
    ensures { Gives (λ x. (x, [])) result (saying_at new most (spelled tokens.now)) }
{
    let rest = word(tokens, b"schedule")?;
    let (holds, rest) = many(alloc, &HoldPhrase { new, most }, rest)?;
    let (notes, rest) = many(alloc, &NotePhrase { new, most }, rest)?;
    end(rest)?;
    Ok(Saying { holds, notes })
}

/// An outline, and nothing else, where `most` brackets may be open.
///
/// # Errors
///
/// - `NotHere` at the first token with which no outline goes on.
/// - `Deep` at a bracket that may stand there and may not be opened.
#[tactic(auto, unfolding(crate::specs::inner::readers::Outlines::outline_text_at, civl_phrases::specs::Reader::mapped, civl_phrases::specs::Reader::both))]
fn outline_text(alloc: Global, most: usize, tokens: &[Token<'_>]) -> Result<Outline, Halt>
    ensures { Gives (λ x. (x, [])) result (outline_text_at most (spelled tokens.now)) }
{
    let (program, rest) = program(alloc, most, tokens)?;
    let saying = read_saying(alloc, program.version == 2, most, rest)?;
    let Saying { holds, notes } = saying;
    Ok(Outline {
        program,
        holds,
        notes,
    })
}

/// The outline whose spelling the tokens are: a program of any version, the word `schedule`, holds and notes. A hold is
/// `inv` and an expression, a note is `assert`, the number of an item, the number of a statement and an expression; a
/// semicolon ends each.
///
/// # Errors
///
/// - `NotHere(place)` exactly where the tokens before the place begin an outline's spelling, and none begins with them
///   and the token at the place; where the place is the number of the tokens, none is they alone.
/// - `Deep(place)` exactly where the tokens up to the one at the place begin a spelling, and this one opens the 65th
///   bracket that isn't closed.
/// - `Memory` for want of memory.
pub fn parse_outline(alloc: Global, tokens: &[Token<'_>]) -> Result<Outline, ParseFault>
    ensures right { OutlineParses (spelled tokens.now) result }
    ensures only { OutlineIsOnly (spelled tokens.now) result }
{
    match outline_text(alloc, 64, tokens) {
        Ok(outline) => Ok(outline),
        Err(Halt::Stop(Stop::NotHere(left))) => Err(ParseFault::NotHere(tokens.len() - left)),
        Err(Halt::Stop(Stop::Deep(left))) => Err(ParseFault::Deep(tokens.len() - left)),
        Err(Halt::Memory) => Err(ParseFault::Memory),
    }
}
