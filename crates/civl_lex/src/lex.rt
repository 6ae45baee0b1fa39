// The tokens of a text.
ghost use Rattle.std.specs.Prelude.{◌≡◌, ℕ, ◌+◌, ◌<◌, ◌≤◌, ◌⊎◌, length, drop, List, IfOk, IfSome, MatchResult, IsErrOf, All};
ghost use Rattle.std.specs.Option.{option_map};
ghost use Rattle.civl_tree.specs.Token.{Token as Spelling};
ghost use Rattle.civl_lex.specs.inner.Front.{front_token, IsCut};
ghost use Rattle.civl_lex.specs.Spelled.{spelled_token, spelled, IsCutFrom, HaveStarts};
ghost use Rattle.civl_lex.specs.Text.{HasTokens, NoTokenAt};

use crate::fault::LexFault;
use crate::gap::gap_end;
use crate::number::number;
use crate::run::begins_name;
use crate::sign::sign;
use crate::token::Token;
use crate::word::word;
use std::alloc::Global;

/// The longest token that begins at this place.
fn token_at<'a>(bytes: &'a [u8], start: usize) -> Option<Token<'a>>
    requires { start < length bytes.now }
    ensures token { option_map spelled_token result ≡ front_token (drop start bytes.now) }
    ensures cut { IfSome result (IsCut (drop start bytes.now) start) }
    ensures within { IfSome result (λ token. start + length token.text.now ≤ length bytes.now) }
{
    let rest = &bytes[start..];
    let first = rest[0];
    if begins_name(first) {
        Some(word(rest, start))
    } else if first.is_ascii_digit() {
        number(rest, start)
    } else {
        sign(rest, start)
    }
}

/// The tokens of a source text, in order. At each place outside blanks and comments the longest token that begins
/// there is taken ("maximal munch", as in ISO C, 6.4).
///
/// The text may be any bytes, of any number. A number is a whole run of digits without a leading zero, of a value
/// below 2^32. The time grows with the length of the text.
///
/// # Errors
///
/// - `NoToken(p)` exactly where p, a place within the text, is the first place outside blanks and comments at which no
///   token begins.
/// - `Memory` only where memory is wanting.
pub fn tokens<'a>(alloc: Global, bytes: &'a [u8]) -> Result<Vec<Token<'a>>, LexFault>
    // What is answered is so.
    ensures tokens { IfOk result (λ found. HasTokens bytes.now (spelled found.items)) }
    ensures no_token { (p : ℕ) → IsErrOf result (LexFault.NoToken p) → NoTokenAt bytes.now p }
    // What is so is answered, unless memory runs out.
    ensures only_tokens { (tokens : List Spelling) → HasTokens bytes.now tokens →
        MatchResult result (λ found. spelled found.items ≡ tokens) (λ fault. fault ≡ LexFault.Memory) }
    ensures only_no_token { (p : ℕ) → NoTokenAt bytes.now p →
        IsErrOf result (LexFault.NoToken p) ⊎ IsErrOf result LexFault.Memory }

    // Where the tokens lie.
    ensures starts { IfOk result (λ found. HaveStarts bytes.now found.items) }
    ensures texts { IfOk result (λ found. All (IsCutFrom bytes.now) found.items) }
{
    let mut found = Vec::new(alloc);
    let mut at = gap_end(bytes, 0);
    'text: while at < bytes.len() {
        let Some(token) = token_at(bytes, at) else {
            return Err(LexFault::NoToken(at));
        };
        found.push(token)?;
        at = gap_end(bytes, at + token.text.len());
    }
    Ok(found)
}
