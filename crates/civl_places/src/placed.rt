// The places of tokens and statements in a text.
ghost use Rattle.std.specs.Prelude.{◌≡◌, ◌<◌, ◌≤◌, None, MatchOption, IfSome, IfNone, IsSomeAnd, length};
ghost use Rattle.civl_tree.specs.Numbering.{item_count};
ghost use Rattle.civl_lex.specs.Spelled.{spelled, HaveStarts};
ghost use Rattle.civl_places.specs.Placed.{BeginWith, BeginsAt};
ghost use Rattle.civl_places.specs.Starts.{item_start, statement_start};
ghost use Rattle.civl_places.specs.Formulas.{formula_start};

use crate::formula::{Formula, formula_token};
use crate::item::item_token;
use crate::position::{Position, position_at};
use crate::start::statement_token;
use civl_lex::Token;
use civl_tree::Program;

/// The line and the column at which the token with this number, from 0, begins in the text that has these tokens.
pub fn token_position(bytes: &[u8], tokens: &[Token], number: usize) -> Position
    requires starts { HaveStarts bytes.now tokens.now }
    requires there { number < length tokens.now }
    ensures { BeginsAt bytes.now number result }
{
    position_at(bytes, tokens[number].start)
}

/// The line and the column at which the item with this number begins in a text that has these tokens, of which the
/// first spell this program; `None` exactly where there is no such item.
pub fn item_position(
    bytes: &[u8],
    tokens: &[Token],
    program: &Program,
    item: usize,
) -> Option<Position>
    requires starts { HaveStarts bytes.now tokens.now }
    requires spelling { BeginWith program.now (spelled tokens.now) }
    ensures found { IfSome result (λ position.
        (item < item_count program.now)
        × BeginsAt bytes.now (item_start program.now item) position) }
    ensures none { IfNone result (item_count program.now ≤ item) }
{
    match item_token(program, item) {
        Some(start) => Some(token_position(bytes, tokens, start)),
        None => None,
    }
}

/// The line and the column at which a statement of a procedure begins, or its exit, as `statement_token` names them,
/// in a text that has these tokens, of which the first spell this program; `None` exactly where there is no such
/// statement.
pub fn statement_position(
    bytes: &[u8],
    tokens: &[Token],
    program: &Program,
    proc: usize,
    statement: usize,
) -> Option<Position>
    requires starts { HaveStarts bytes.now tokens.now }
    requires spelling { BeginWith program.now (spelled tokens.now) }
    ensures { MatchOption (statement_start program.now proc statement) (result ≡ None)
        (λ start. IsSomeAnd result (BeginsAt bytes.now start)) }
{
    match statement_token(program, proc, statement) {
        Some(start) => Some(token_position(bytes, tokens, start)),
        None => None,
    }
}

/// The line and the column at which an expression of a program begins, as `formula_token` names it, in a text that has
/// these tokens, of which the first spell this program; `None` exactly where there is no such expression.
pub fn formula_position(
    bytes: &[u8],
    tokens: &[Token],
    program: &Program,
    formula: &Formula,
) -> Option<Position>
    requires starts { HaveStarts bytes.now tokens.now }
    requires spelling { BeginWith program.now (spelled tokens.now) }
    ensures { MatchOption (formula_start program.now formula.now) (result ≡ None)
        (λ start. IsSomeAnd result (BeginsAt bytes.now start)) }
{
    match formula_token(program, formula) {
        Some(start) => Some(token_position(bytes, tokens, start)),
        None => None,
    }
}
