// The tokens that a loop goes on with.

use civl_lex::Token;

/// The tokens that are left. A loop over phrases holds them in this struct, and takes the next from a call.
#[derive(Drop)]
pub struct Left<'t, 'a> {
    pub tokens: &'t [Token<'a>],
}
