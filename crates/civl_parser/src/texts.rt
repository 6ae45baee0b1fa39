// The parser of whole texts.
ghost use Rattle.civl_lex.specs.Spelled.{spelled};
ghost use Rattle.civl_parser.specs.Parsing.{Parses, IsOnly};

use crate::fault::ParseFault;
use crate::programs::program_text;
use civl_lex::Token;
use civl_phrases::{Halt, Stop};
use civl_tree::Program;
use std::alloc::Global;

/// The program, of any version, whose spelling the tokens are.
///
/// # Errors
///
/// - `NotHere(place)` exactly where the tokens before the place begin a program's spelling, and none begins with them
///   and the token at the place; where the place is the number of the tokens, none is they alone. In a version but 2
///   `spawn` and the operators `udiv`, `urem`, `slt`, `sle` and `sar` begin none.
/// - `Deep(place)` exactly where the tokens up to the one at the place begin a spelling, and this one opens the 65th
///   bracket that isn't closed.
/// - `Memory` for want of memory.
pub fn parse(alloc: Global, tokens: &[Token<'_>]) -> Result<Program, ParseFault>
    ensures right { Parses (spelled tokens.now) result }
    ensures only { IsOnly (spelled tokens.now) result }
{
    match program_text(alloc, 64, tokens) {
        Ok(program) => Ok(program),
        Err(Halt::Stop(Stop::NotHere(left))) => Err(ParseFault::NotHere(tokens.len() - left)),
        Err(Halt::Stop(Stop::Deep(left))) => Err(ParseFault::Deep(tokens.len() - left)),
        Err(Halt::Memory) => Err(ParseFault::Memory),
    }
}
