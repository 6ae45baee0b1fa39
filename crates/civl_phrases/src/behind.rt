// A phrase behind a comma.
ghost use Rattle.civl_tree.specs.Spelling.{comma};
ghost use Rattle.civl_phrases.specs.Reader.{after, begins};

use crate::halt::Halt;
use crate::phrase::{Headed, Phrase};
use crate::take::{sign, sign_next};
use civl_lex::Token;
use std::alloc::Global;

/// A comma, and then the phrase.
#[derive(Drop)]
pub struct BehindComma<'p, P> {
    pub phrase: &'p P,
}

impl<P: Phrase> Phrase for BehindComma<'_, P> {
    type Item = P::Item;

    ghost reader = { λ behind. after comma (P.reader behind.phrase.now) };

    #[tactic(auto, unfolding(crate::specs::Reader::after))]
    fn read<'t, 'a>(
        &self,
        alloc: Global,
        tokens: &'t [Token<'a>],
    ) -> Result<(P::Item, &'t [Token<'a>]), Halt> {
        let rest = sign(tokens, b",")?;
        self.phrase.read(alloc, rest)
    }
}

impl<P: Phrase> Headed for BehindComma<'_, P> {
    ghost heads = { λ _. begins comma };

    fn is_next(&self, tokens: &[Token<'_>]) -> bool {
        sign_next(tokens, b",")
    }
}
