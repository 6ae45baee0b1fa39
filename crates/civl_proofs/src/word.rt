// Words of clauses, byte by byte.
ghost use Rattle.std.specs.Prelude.{◌≡◌, ◌<◌, ◌≤◌, IfSome};
ghost use Rattle.civl_proofs.specs.Text.{is_blank};
ghost use Rattle.civl_proofs.specs.inner.Reading.{with_digit, begun, typed, ending_of, IsSoundWord};

use civl_cnf::Lit;

/// A word of a clause, as far as it was read: a literal's number with its sign, or the `0` that ends a clause.
#[derive(Clone, Copy)]
pub(crate) enum Word {
    /// Nothing of it.
    Empty,
    /// Its `-`.
    Minus,
    /// A `0`.
    Zero,
    /// Its sign, true where there is no `-`, and digits of this value, which is above 0.
    Number(bool, u32),
}

/// What a word comes to where it ends.
#[derive(Clone, Copy)]
pub(crate) enum Ending {
    /// There is no word.
    Nothing,
    /// A literal.
    WholeLiteral(Lit),
    /// A clause ends.
    WholeClause,
    /// It is no word.
    Torn,
}

/// Whether the byte is a tab, a line feed, a carriage return or a space.
pub(crate) fn is_blank(byte: u8) -> bool
    ensures { result ≡ is_blank byte }
{
    matches!(byte, b'\t' | b'\n' | b'\r' | b' ')
}

/// The value with one digit more, if the byte is a digit and this is within the limit, which is at most 100,000,000.
pub(crate) fn with_digit(value: u32, byte: u8, limit: u32) -> Option<u32>
    requires limit { limit ≤ 100000000 }
    requires value { value ≤ limit }
    ensures { result ≡ with_digit limit value byte }
{
    if !byte.is_ascii_digit() {
        return None;
    }
    let more = value * 10 + u32::from(byte - b'0');
    if more <= limit { Some(more) } else { None }
}

/// A literal's number with its first digit.
fn begun(positive: bool, byte: u8, variables: u32) -> Option<Word>
    requires { variables ≤ 100000000 }
    ensures { result ≡ begun variables positive byte }
{
    if byte == b'0' {
        return None;
    }
    match with_digit(0, byte, variables) {
        None => None,
        Some(value) => Some(Word::Number(positive, value)),
    }
}

/// A word's first byte.
fn first_byte(byte: u8, variables: u32) -> Option<Word>
    requires { variables ≤ 100000000 }
    ensures { result ≡ typed variables Word.Empty byte }
{
    if byte == b'-' {
        return if variables > 0 {
            Some(Word::Minus)
        } else {
            None
        };
    }
    if byte == b'0' {
        return Some(Word::Zero);
    }
    begun(true, byte, variables)
}

/// The word with one byte more, if some word of a clause over so many variables begins so.
pub(crate) fn typed(word: Word, byte: u8, variables: u32) -> Option<Word>
    requires variables { variables ≤ 100000000 }
    requires word { IsSoundWord variables word }
    ensures is { result ≡ typed variables word byte }
    ensures sound { IfSome result (IsSoundWord variables) }
{
    match word {
        Word::Empty => first_byte(byte, variables),
        Word::Minus => begun(false, byte, variables),
        Word::Zero => None,
        Word::Number(positive, value) => match with_digit(value, byte, variables) {
            None => None,
            Some(more) => Some(Word::Number(positive, more)),
        },
    }
}

/// What the word comes to where it ends here.
pub(crate) fn ending_of(word: Word, variables: u32) -> Ending
    requires variables { variables ≤ 100000000 }
    requires word { IsSoundWord variables word }
    ensures { result ≡ ending_of word }
{
    match word {
        Word::Empty => Ending::Nothing,
        Word::Minus => Ending::Torn,
        Word::Zero => Ending::WholeClause,
        Word::Number(positive, value) => Ending::WholeLiteral(Lit::new(value - 1, positive)),
    }
}
