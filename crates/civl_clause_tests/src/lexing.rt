// What no clause says: that the definitions are those of the language, by worked examples.
use civl_lex::{Kind, LexFault, Token, tokens};
use std::alloc::Global;
use std::test::Fail;

/// Whether the text has one token, of this kind and all of the text.
fn is_one(found: &[Token<'_>], kind: Kind, text: &[u8]) -> bool {
    match found {
        [token] => token.kind == kind && token.text == text && token.start == 0,
        _ => false,
    }
}

/// Whether the text has these tokens at these places.
fn are(found: &[Token<'_>], expected: &[(Kind, &[u8], usize)]) -> bool {
    if found.len() != expected.len() {
        return false;
    }
    for (token, (kind, text, start)) in found.iter().zip(expected) {
        if token.kind != *kind || token.text != *text || token.start != *start {
            return false;
        }
    }
    true
}

/// How many tokens of a text are of this kind, and the one token of their own texts, up to the first that isn't.
fn alone(alloc: Global, text: &[u8], kind: Kind) -> Result<usize, Fail> {
    let found = tokens(alloc, text)?;
    let mut count: usize = 0;
    for token in found.as_slice() {
        if token.kind != kind || !is_one(tokens(alloc, token.text)?.as_slice(), kind, token.text) {
            return Ok(count);
        }
        count = count.saturating_add(1);
    }
    Ok(count)
}

#[test]
fn signs_and_reserved_words(rt: HostRuntime) -> Result<(), Fail> {
    let signs = b"( ) { } [ ] , ; : ? ! ~ := -> + - * & | ^ << >> < <= == != && || => =";
    assert_eq!(rt; alone(rt.alloc(), signs, Kind::Sign)?, 30);
    let words =
        b"civl layers permissions global linear init invariant action choose to atomic right left both gate \
        guard proc refines with layer root var call yield commit intro if else while rank by inv assert true false \
        done old get set fill slice widen join bool word row val lend take give thread schedule move spawn udiv urem \
        slt sle sar";
    assert_eq!(rt; alone(rt.alloc(), words, Kind::Word)?, 59);
    Ok(())
}

/// A text, and its tokens with their places.
type Case = (&'static [u8], &'static [(Kind, &'static [u8], usize)]);

/// The place of the first text that has other tokens.
fn first_other(alloc: Global, cases: &[Case]) -> Result<Option<usize>, Fail> {
    for at in 0..cases.len() {
        if !are(tokens(alloc, cases[at].0)?.as_slice(), cases[at].1) {
            return Ok(Some(at));
        }
    }
    Ok(None)
}

/// The place of the first text that hasn't its first fault at its place.
fn first_unfaulted(alloc: Global, cases: &[(&[u8], usize)]) -> Option<usize> {
    for at in 0..cases.len() {
        if tokens(alloc, cases[at].0).err() != Some(LexFault::NoToken(cases[at].1)) {
            return Some(at);
        }
    }
    None
}

const TEXTS: [Case; 22] = [
    (b"", &[]),
    (b" \t\r\n", &[]),
    (b"// no token $ \xff", &[]),
    (b"//\n//", &[]),
    (b"a//", &[(Kind::Name, b"a", 0)]),
    (
        b"civl 1;",
        &[
            (Kind::Word, b"civl", 0),
            (Kind::Number(1), b"1", 5),
            (Kind::Sign, b";", 6),
        ],
    ),
    (b"1a", &[(Kind::Number(1), b"1", 0), (Kind::Name, b"a", 1)]),
    (b"0a", &[(Kind::Number(0), b"0", 0), (Kind::Name, b"a", 1)]),
    (
        b"a1 _0 Civl civl2 ci vl",
        &[
            (Kind::Name, b"a1", 0),
            (Kind::Name, b"_0", 3),
            (Kind::Name, b"Civl", 6),
            (Kind::Name, b"civl2", 11),
            (Kind::Name, b"ci", 17),
            (Kind::Name, b"vl", 20),
        ],
    ),
    (
        b"if iff _if if_ If",
        &[
            (Kind::Word, b"if", 0),
            (Kind::Name, b"iff", 3),
            (Kind::Name, b"_if", 7),
            (Kind::Name, b"if_", 11),
            (Kind::Name, b"If", 15),
        ],
    ),
    (
        b"0 10 4294967295",
        &[
            (Kind::Number(0), b"0", 0),
            (Kind::Number(10), b"10", 2),
            (Kind::Number(4294967295), b"4294967295", 5),
        ],
    ),
    (b"<<<", &[(Kind::Sign, b"<<", 0), (Kind::Sign, b"<", 2)]),
    (b"<<=", &[(Kind::Sign, b"<<", 0), (Kind::Sign, b"=", 2)]),
    (b"<=>>", &[(Kind::Sign, b"<=", 0), (Kind::Sign, b">>", 2)]),
    (b"===>", &[(Kind::Sign, b"==", 0), (Kind::Sign, b"=>", 2)]),
    (b":==", &[(Kind::Sign, b":=", 0), (Kind::Sign, b"=", 2)]),
    (b"-->", &[(Kind::Sign, b"-", 0), (Kind::Sign, b"->", 1)]),
    (b"a//b\nc", &[(Kind::Name, b"a", 0), (Kind::Name, b"c", 5)]),
    (
        b"a // b // c\r\n// d\n  e//",
        &[(Kind::Name, b"a", 0), (Kind::Name, b"e", 20)],
    ),
    (b"///* a\n*", &[(Kind::Sign, b"*", 7)]),
    (
        b"x\r//\ry\nz",
        &[(Kind::Name, b"x", 0), (Kind::Name, b"z", 7)],
    ),
    (b"a\n\n", &[(Kind::Name, b"a", 0)]),
];

#[test]
fn texts_have_their_tokens(rt: HostRuntime) -> Result<(), Fail> {
    let wrong = first_other(rt.alloc(), &TEXTS)?;
    assert_eq!(rt; wrong, None);
    Ok(())
}

const FAULTS: [(&[u8], usize); 18] = [
    (b"civl 1 $", 7),
    (b"$", 0),
    (b"/", 0),
    (b"a /b", 2),
    (b"a / /b", 2),
    (b"//\n/", 3),
    (b"// $\n $", 6),
    (b"00", 0),
    (b"01", 0),
    (b"1 007", 2),
    (b"4294967296", 0),
    (b"4294967300", 0),
    (b"5000000000", 0),
    (b"x 18446744073709551617", 2),
    (b"99999999999999999999999999999999999999", 0),
    (b"a > b", 2),
    (b"<=>", 2),
    (b"caf\xc3\xa9", 3),
];

#[test]
fn faults_have_their_places(rt: HostRuntime) -> Result<(), Fail> {
    assert_eq!(rt; first_unfaulted(rt.alloc(), &FAULTS), None);
    Ok(())
}

/// Whether these bytes, alone, are a sign by the language's list.
fn is_sign_byte(byte: u8) -> bool {
    "(){}[],;:?!~+-*&|^<=".as_bytes().contains(&byte)
}

/// Whether a text of this byte alone has the token that it should have, none where it is a blank, and else a fault.
fn is_right(alloc: Global, byte: u8) -> bool {
    let source = [byte];
    let is_blank = byte == 9 || byte == 10 || byte == 13 || byte == 32;
    match tokens(alloc, &source) {
        Ok(found) => match byte {
            b'\t' | b'\n' | b'\r' | b' ' => found.is_empty(),
            b'a'..=b'z' | b'A'..=b'Z' | b'_' => is_one(found.as_slice(), Kind::Name, &source),
            b'0'..=b'9' => is_one(
                found.as_slice(),
                Kind::Number(u32::from(byte - b'0')),
                &source,
            ),
            _ => is_sign_byte(byte) && is_one(found.as_slice(), Kind::Sign, &source),
        },
        Err(fault) => {
            let is_none = !byte.is_ascii_alphanumeric() && !is_sign_byte(byte) && byte != b'_';
            is_none && !is_blank && fault == LexFault::NoToken(0)
        }
    }
}

/// The first byte that isn't so.
fn first_wrong(alloc: Global) -> Option<u8> {
    for byte in 0..=255_u8 {
        if !is_right(alloc, byte) {
            return Some(byte);
        }
    }
    None
}

#[test]
fn each_byte_alone(rt: HostRuntime) -> Result<(), Fail> {
    assert_eq!(rt; first_wrong(rt.alloc()), None);
    Ok(())
}
