// Scripts.
ghost use Rattle.std.specs.Prelude.{[]};
ghost use Rattle.civl_lex.specs.Spelled.{spelled};
ghost use Rattle.civl_phrases.specs.Reader.{Gives};
ghost use Rattle.civl_parser.specs.inner.readers.Scripts.{schedule_at, script_text_at};
ghost use Rattle.civl_parser.specs.Parsing.{ScriptParses, ScriptIsOnly};

use crate::fault::ParseFault;
use crate::programs::program;
use civl_declarations::{EntryPhrase, StepPhrase};
use civl_lex::Token;
use civl_phrases::{Halt, Stop, end, many, word};
use civl_tree::{Entry, List, Script, Told};
use std::alloc::Global;

/// A store and the moves from it.
#[derive(Drop)]
pub struct Schedule {
    pub store: List<Entry>,
    pub moves: List<Told>,
}

#[tactic(auto, unfolding(crate::specs::inner::readers::Scripts::schedule_at, civl_phrases::specs::Reader::mapped, civl_phrases::specs::Reader::both, civl_phrases::specs::Reader::after))]
fn read_schedule(alloc: Global, most: usize, tokens: &[Token<'_>]) -> Result<Schedule, Halt>
    ensures { Gives (λ x. (x, [])) result (schedule_at most (spelled tokens.now)) }
{
    let rest = word(tokens, b"schedule")?;
    let (store, rest) = many(alloc, &EntryPhrase { most }, rest)?;
    let (moves, rest) = many(alloc, &StepPhrase { most }, rest)?;
    end(rest)?;
    Ok(Schedule { store, moves })
}

/// A script, and nothing else, where `most` brackets may be open.
///
/// # Errors
///
/// - `NotHere` at the first token with which no script goes on.
/// - `Deep` at a bracket that may stand there and may not be opened.
#[tactic(auto, unfolding(crate::specs::inner::readers::Scripts::script_text_at, civl_phrases::specs::Reader::mapped, civl_phrases::specs::Reader::both))]
pub fn script_text(alloc: Global, most: usize, tokens: &[Token<'_>]) -> Result<Script, Halt>
    ensures { Gives (λ x. (x, [])) result (script_text_at most (spelled tokens.now)) }
{
    let (program, rest) = program(alloc, most, tokens)?;
    let schedule = read_schedule(alloc, most, rest)?;
    let Schedule { store, moves } = schedule;
    Ok(Script {
        program,
        store,
        moves,
    })
}

/// The script whose spelling the tokens are: a program of any version, a store and a schedule.
///
/// # Errors
///
/// - `NotHere(place)` exactly where the tokens before the place begin a script's spelling, and none begins with them
///   and the token at the place; where the place is the number of the tokens, none is they alone.
/// - `Deep(place)` exactly where the tokens up to the one at the place begin a spelling, and this one opens the 65th
///   bracket that isn't closed.
/// - `Memory` for want of memory.
pub fn parse_script(alloc: Global, tokens: &[Token<'_>]) -> Result<Script, ParseFault>
    ensures right { ScriptParses (spelled tokens.now) result }
    ensures only { ScriptIsOnly (spelled tokens.now) result }
{
    match script_text(alloc, 64, tokens) {
        Ok(script) => Ok(script),
        Err(Halt::Stop(Stop::NotHere(left))) => Err(ParseFault::NotHere(tokens.len() - left)),
        Err(Halt::Stop(Stop::Deep(left))) => Err(ParseFault::Deep(tokens.len() - left)),
        Err(Halt::Memory) => Err(ParseFault::Memory),
    }
}
