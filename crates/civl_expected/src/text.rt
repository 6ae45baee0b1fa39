// The texts that have a grammar, and how each is read.
ghost use Rattle.std.specs.Prelude.{List as ListOf};
ghost use Rattle.civl_tree.specs.Token.{Token as Spelling};
ghost use Rattle.civl_tree.specs.SpellingProgram.{spell_program};
ghost use Rattle.civl_tree.specs.SpellingScript.{spell_script};
ghost use Rattle.civl_tree.specs.SpellingDomain.{HasSpelling, ScriptHasSpelling};
ghost use Rattle.civl_lex.specs.Spelled.{spelled};
ghost use Rattle.civl_parser.specs.Parsing.{IsParsedAs};
ghost use Rattle.civl_outlines.specs.SpellingOutline.{spell_outline, OutlineHasSpelling};

use civl_lex::Token;
use civl_outlines::{Outline, parse_outline};
use civl_parser::{ParseFault, parse, parse_script};
use civl_tree::{Program, Script};
use std::alloc::Global;

/// A value that tokens spell.
pub(crate) trait Text: Drop {
    /// The spelling of a value.
    ghost spell: { Self → ListOf Spelling };

    /// The values that have a spelling.
    ghost fits: { Self → Type 0 };

    /// The value that the tokens spell.
    ///
    /// # Errors
    ///
    /// The first token that can't stand where it does, the one that opens the 65th bracket, or want of memory.
    fn read(alloc: Global, tokens: &[Token<'_>]) -> Result<Self, ParseFault>
        ensures { IsParsedAs spell fits (spelled tokens.now) result };
}

impl Text for Program {
    ghost spell = { spell_program };

    ghost fits = { HasSpelling };

    fn read(alloc: Global, tokens: &[Token<'_>]) -> Result<Program, ParseFault> {
        parse(alloc, tokens)
    }
}

impl Text for Script {
    ghost spell = { spell_script };

    ghost fits = { ScriptHasSpelling };

    fn read(alloc: Global, tokens: &[Token<'_>]) -> Result<Script, ParseFault> {
        parse_script(alloc, tokens)
    }
}

impl Text for Outline {
    ghost spell = { spell_outline };

    ghost fits = { OutlineHasSpelling };

    fn read(alloc: Global, tokens: &[Token<'_>]) -> Result<Outline, ParseFault> {
        parse_outline(alloc, tokens)
    }
}
