// The tokens that are tried at a place.
ghost use Rattle.std.specs.Prelude.{◌≡◌, map};
ghost use Rattle.civl_lex.specs.Spelled.{spelled_token};
ghost use Rattle.civl_expected.specs.Expected.{token_of, tried_tokens};

use civl_lex::{Kind, Token};

/// What may stand at a place: a sign, a reserved word, a name or a number.
#[derive(Clone, Copy, Debug)]
pub enum Candidate {
    /// This sign.
    Sign(&'static [u8]),
    /// This reserved word.
    Word(&'static [u8]),
    /// The name `x`, for any name.
    Name,
    /// The number 1, for any number.
    Number,
}

/// The signs, the reserved words, a name and a number.
const CANDIDATES: [Candidate; 91] = [
    Candidate::Sign(b"("),
    Candidate::Sign(b")"),
    Candidate::Sign(b"{"),
    Candidate::Sign(b"}"),
    Candidate::Sign(b"["),
    Candidate::Sign(b"]"),
    Candidate::Sign(b","),
    Candidate::Sign(b";"),
    Candidate::Sign(b":"),
    Candidate::Sign(b"?"),
    Candidate::Sign(b"!"),
    Candidate::Sign(b"~"),
    Candidate::Sign(b":="),
    Candidate::Sign(b"->"),
    Candidate::Sign(b"+"),
    Candidate::Sign(b"-"),
    Candidate::Sign(b"*"),
    Candidate::Sign(b"&"),
    Candidate::Sign(b"|"),
    Candidate::Sign(b"^"),
    Candidate::Sign(b"<<"),
    Candidate::Sign(b">>"),
    Candidate::Sign(b"<"),
    Candidate::Sign(b"<="),
    Candidate::Sign(b"=="),
    Candidate::Sign(b"!="),
    Candidate::Sign(b"&&"),
    Candidate::Sign(b"||"),
    Candidate::Sign(b"=>"),
    Candidate::Sign(b"="),
    Candidate::Word(b"civl"),
    Candidate::Word(b"layers"),
    Candidate::Word(b"permissions"),
    Candidate::Word(b"global"),
    Candidate::Word(b"linear"),
    Candidate::Word(b"init"),
    Candidate::Word(b"invariant"),
    Candidate::Word(b"action"),
    Candidate::Word(b"choose"),
    Candidate::Word(b"to"),
    Candidate::Word(b"atomic"),
    Candidate::Word(b"right"),
    Candidate::Word(b"left"),
    Candidate::Word(b"both"),
    Candidate::Word(b"gate"),
    Candidate::Word(b"guard"),
    Candidate::Word(b"proc"),
    Candidate::Word(b"refines"),
    Candidate::Word(b"with"),
    Candidate::Word(b"layer"),
    Candidate::Word(b"root"),
    Candidate::Word(b"var"),
    Candidate::Word(b"call"),
    Candidate::Word(b"yield"),
    Candidate::Word(b"commit"),
    Candidate::Word(b"intro"),
    Candidate::Word(b"if"),
    Candidate::Word(b"else"),
    Candidate::Word(b"while"),
    Candidate::Word(b"rank"),
    Candidate::Word(b"by"),
    Candidate::Word(b"inv"),
    Candidate::Word(b"assert"),
    Candidate::Word(b"true"),
    Candidate::Word(b"false"),
    Candidate::Word(b"done"),
    Candidate::Word(b"old"),
    Candidate::Word(b"get"),
    Candidate::Word(b"set"),
    Candidate::Word(b"fill"),
    Candidate::Word(b"slice"),
    Candidate::Word(b"widen"),
    Candidate::Word(b"join"),
    Candidate::Word(b"bool"),
    Candidate::Word(b"word"),
    Candidate::Word(b"row"),
    Candidate::Word(b"val"),
    Candidate::Word(b"lend"),
    Candidate::Word(b"take"),
    Candidate::Word(b"give"),
    Candidate::Word(b"thread"),
    Candidate::Word(b"schedule"),
    Candidate::Word(b"move"),
    Candidate::Word(b"spawn"),
    Candidate::Word(b"udiv"),
    Candidate::Word(b"urem"),
    Candidate::Word(b"slt"),
    Candidate::Word(b"sle"),
    Candidate::Word(b"sar"),
    Candidate::Name,
    Candidate::Number,
];

/// All candidates: the signs, the reserved words, a name and a number, in this order.
pub fn all_candidates() -> &'static [Candidate]
    ensures { map token_of result.now ≡ tried_tokens }
{
    &CANDIDATES
}

impl Candidate {
    /// The candidate's token, as the first of a source.
    pub(crate) fn token(self) -> Token<'static>
        ensures { spelled_token result ≡ token_of self }
    {
        let (kind, text) = match self {
            Candidate::Sign(text) => (Kind::Sign, text),
            Candidate::Word(text) => (Kind::Word, text),
            Candidate::Name => (Kind::Name, b"x".as_slice()),
            Candidate::Number => (Kind::Number(1), b"1".as_slice()),
        };
        Token {
            kind,
            text,
            start: 0,
        }
    }
}
