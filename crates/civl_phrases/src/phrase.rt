// Phrases that lists are made of.
ghost use Rattle.std.specs.Prelude.{◌≡◌, Bool, Option};
ghost use Rattle.civl_tree.specs.Token.{Token as Spelling};
ghost use Rattle.civl_lex.specs.Spelled.{spelled};
ghost use Rattle.civl_phrases.specs.Reader.{Reader, Gives, lookahead};

use crate::halt::Halt;
use civl_lex::Token;
use std::alloc::Global;

/// A kind of phrase, with what its reader needs to know, as how many more brackets may be open. Lists of such phrases
/// are read by `many` and `commas`.
pub trait Phrase {
    /// The value of a phrase.
    type Item: Drop;

    /// The reader of the phrase.
    ghost reader: { Self → Reader Self.Item };

    /// The phrase at the front of the tokens, and the tokens behind it.
    ///
    /// # Errors
    ///
    /// Where the reader stops, and for want of memory.
    fn read<'t, 'a>(
        &self,
        alloc: Global,
        tokens: &'t [Token<'a>],
    ) -> Result<(Self::Item, &'t [Token<'a>]), Halt>
        ensures { Gives (λ x. (x.0, spelled x.1.now)) result (reader self.now (spelled tokens.now)) };
}

/// A kind of phrase that the next token tells. It has a token at least: one that has none is repeated until there were
/// more than tokens, and is then `NotHere`.
pub trait Headed: Phrase {
    /// Whether such a phrase may begin with this token.
    ghost heads: { Self → Option Spelling → Bool };

    /// Whether such a phrase is next.
    fn is_next(&self, tokens: &[Token<'_>]) -> bool
        ensures { result ≡ heads self.now (lookahead (spelled tokens.now)) };
}
