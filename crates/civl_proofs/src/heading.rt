// The header of a certificate, and the comments before it.
ghost use Rattle.std.specs.Prelude.{◌≡◌, ℕ, ◌<◌, ◌≤◌, codes, cond, Some, None, IfOk, IsErrOf};
ghost use Rattle.civl_proofs.specs.Text.{most_variables, most_clauses};
ghost use Rattle.civl_proofs.specs.inner.Reading.{meets, parts_words, counted, IsWithin, State, Title, Variables, Count, Setting, no_draft, step, end, IsReadTo, IsStuck};
ghost use Rattle.civl_proofs.specs.declared.reading.Spot.TheVariants.{First};

use crate::CertificateFault;
use crate::word::{is_blank, with_digit};

/// The most variables that a certificate may have.
const MOST_VARIABLES: u32 = 10_000_000;

/// The most clauses that the clause set of a certificate may have.
const MOST_CLAUSES: u32 = 100_000_000;

/// A number of the header.
#[derive(Clone, Copy)]
pub(crate) struct Figure {
    pub value: u32,
    /// The place behind the byte that ends it.
    pub end: usize,
}

/// What the header of a certificate says.
#[derive(Clone, Copy)]
pub(crate) struct Heading {
    /// How many variables there are.
    pub variables: u32,
    /// How many clauses the clause set has.
    pub clauses: u32,
    /// The place behind the header's line.
    pub end: usize,
}

/// Whether the byte may stand between the words of a line.
fn parts_words(byte: u8) -> bool
    ensures { result ≡ parts_words byte }
{
    is_blank(byte) && byte != b'\n'
}

/// Whether the byte is the expected one, where a blank stands for any that may part words.
fn meets(expected: u8, byte: u8) -> bool
    ensures { result ≡ meets expected byte }
{
    if expected == b' ' {
        parts_words(byte)
    } else {
        byte == expected
    }
}

/// The place behind the header's first byte, which stands behind the comments.
fn comments_end(bytes: &[u8]) -> Result<usize, CertificateFault>
    ensures found { IfOk result (λ at. IsReadTo bytes.now at (Title (codes " cnf "))) }
    ensures fault { (b : ℕ) → IsErrOf result (CertificateFault.At b) → IsStuck bytes.now b }
{
    let mut within = false;
    for at in 0..bytes.len() {
        let byte = bytes[at];
        if within {
            within = byte != b'\n';
        } else if byte == b'c' {
            within = true;
        } else if byte == b'p' {
            return Ok(at + 1);
        } else {
            return Err(CertificateFault::At(at));
        }
    }
    Err(CertificateFault::At(bytes.len()))
}

/// The place behind an expected byte, which is next.
pub(crate) fn pass(bytes: &[u8], at: usize, expected: u8) -> Result<usize, CertificateFault>
    ensures found { (s t : State) → ((byte : ℕ) → step s byte ≡ cond (meets expected byte) (Some t) None) → end s ≡ None → IsReadTo bytes.now at s → IfOk result (λ place. IsReadTo bytes.now place t) }
    ensures fault { (s t : State) → ((byte : ℕ) → step s byte ≡ cond (meets expected byte) (Some t) None) → end s ≡ None → IsReadTo bytes.now at s → (b : ℕ) → IsErrOf result (CertificateFault.At b) → IsStuck bytes.now b }
{
    if at >= bytes.len() {
        return Err(CertificateFault::At(at));
    }
    if !meets(expected, bytes[at]) {
        return Err(CertificateFault::At(at));
    }
    Ok(at + 1)
}

/// The place behind the header's words before its numbers, behind its first byte.
fn title_end(bytes: &[u8], from: usize) -> Result<usize, CertificateFault>
    requires { IsReadTo bytes.now from (Title (codes " cnf ")) }
    ensures found { IfOk result (λ at. IsReadTo bytes.now at (Variables None)) }
    ensures fault { (b : ℕ) → IsErrOf result (CertificateFault.At b) → IsStuck bytes.now b }
{
    let first = pass(bytes, from, b' ')?;
    let second = pass(bytes, first, b'c')?;
    let third = pass(bytes, second, b'n')?;
    let fourth = pass(bytes, third, b'f')?;
    let last = pass(bytes, fourth, b' ')?;
    Ok(last)
}

/// A number of the header with one byte more, if some number within the limit begins so.
fn counted(value: Option<u32>, byte: u8, limit: u32) -> Option<u32>
    requires limit { limit ≤ 100000000 }
    requires value { IsWithin limit value }
    ensures is { result ≡ counted limit value byte }
    ensures within { IsWithin limit result }
{
    match value {
        None => with_digit(0, byte, limit),
        Some(value) => {
            if value == 0 {
                None
            } else {
                with_digit(value, byte, limit)
            }
        }
    }
}

/// The number of variables, and the place behind the blank that ends it.
fn read_variables(bytes: &[u8], from: usize) -> Result<Figure, CertificateFault>
    requires { IsReadTo bytes.now from (Variables None) }
    ensures found { IfOk result (λ n. IsReadTo bytes.now n.end (Count n.value None)) }
    ensures few { IfOk result (λ n. n.value ≤ most_variables) }
    ensures fault { (b : ℕ) → IsErrOf result (CertificateFault.At b) → IsStuck bytes.now b }
{
    let mut value: Option<u32> = None;
    for at in from..bytes.len() {
        let byte = bytes[at];
        if let Some(value) = value {
            if parts_words(byte) {
                return Ok(Figure { value, end: at + 1 });
            }
        }
        match counted(value, byte, MOST_VARIABLES) {
            None => return Err(CertificateFault::At(at)),
            Some(more) => value = Some(more),
        }
    }
    Err(CertificateFault::At(bytes.len()))
}

/// The number of clauses, and the place behind the line feed that ends it.
fn read_count(bytes: &[u8], from: usize, variables: u32) -> Result<Figure, CertificateFault>
    requires { IsReadTo bytes.now from (Count variables None) }
    ensures found { IfOk result (λ n. IsReadTo bytes.now n.end (Setting variables n.value First no_draft)) }
    ensures few { IfOk result (λ n. n.value ≤ most_clauses) }
    ensures fault { (b : ℕ) → IsErrOf result (CertificateFault.At b) → IsStuck bytes.now b }
{
    let mut value: Option<u32> = None;
    for at in from..bytes.len() {
        let byte = bytes[at];
        if let Some(value) = value {
            if byte == b'\n' {
                return Ok(Figure { value, end: at + 1 });
            }
        }
        match counted(value, byte, MOST_CLAUSES) {
            None => return Err(CertificateFault::At(at)),
            Some(more) => value = Some(more),
        }
    }
    Err(CertificateFault::At(bytes.len()))
}

/// Reads the comments before the header, and the header.
pub(crate) fn read_heading(bytes: &[u8]) -> Result<Heading, CertificateFault>
    ensures found { IfOk result (λ h. IsReadTo bytes.now h.end (Setting h.variables h.clauses First no_draft)) }
    ensures few_variables { IfOk result (λ h. h.variables ≤ most_variables) }
    ensures few_clauses { IfOk result (λ h. h.clauses ≤ most_clauses) }
    ensures fault { (b : ℕ) → IsErrOf result (CertificateFault.At b) → IsStuck bytes.now b }
{
    let start = comments_end(bytes)?;
    let title = title_end(bytes, start)?;
    let variables = read_variables(bytes, title)?;
    let clauses = read_count(bytes, variables.end, variables.value)?;
    Ok(Heading {
        variables: variables.value,
        clauses: clauses.value,
        end: clauses.end,
    })
}
