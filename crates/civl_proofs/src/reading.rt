// Certificates that are read.
ghost use Rattle.std.specs.Prelude.{◌≡◌, ◌⊎◌, ℕ, ◌<◌, ◌≤◌, List, [], length, codes, Some, None, IfOk, OnOk, IsErrOf, MatchResult};
ghost use Rattle.civl_cnf.specs.Literal.{Literal};
ghost use Rattle.civl_cnf.specs.ClauseSet.{ClauseSet, IsBelow};
ghost use Rattle.civl_proofs.specs.Text.{IsCertificate, IsFirstFault, most_variables};
ghost use Rattle.civl_proofs.specs.inner.Reading.{no_draft, ended, extended, in_set, in_line, next_state, step, whole_of, IsSoundWord, Setting, Keyword, Logging, IsReadTo, IsReadAs, IsStuck};

use crate::CertificateFault;
use crate::heading::{pass, read_heading};
use crate::word::{Ending, Word, ending_of, is_blank, typed};
use civl_cnf::{Clause, Cnf, Lit, Log};
use std::alloc::Global;

/// The literals of a clause that is read, and what was read of its next word.
#[derive(Drop)]
struct OpenClause {
    lits: Vec<Lit>,
    word: Word,
}

/// Where a line of the clause set was read up to.
#[derive(Clone, Copy)]
enum Spot {
    /// Its first byte is next.
    First,
    /// Some bytes of it were read, and it is no comment.
    Inside,
    /// It is a comment.
    Comment,
}

/// What a byte of the clause set leads to.
#[derive(Clone, Copy)]
enum Next {
    /// The clause set goes on.
    On(Spot),
    /// The line `log` begins.
    Ends,
}

/// Ends the open clause's word; where this ends a clause of the clause set, adds it.
fn end_in_set(
    alloc: Global,
    cnf: &mut Cnf,
    draft: &mut OpenClause,
    at: usize,
) -> Result<(), CertificateFault>
    requires variables { cnf.old.variables ≤ most_variables }
    requires lits { IsBelow cnf.old.variables draft.old.lits.items }
    requires word { IsSoundWord cnf.old.variables draft.old.word }
    ensures variables { OnOk result (cnf.new.variables ≡ cnf.old.variables) }
    ensures lits { OnOk result (IsBelow cnf.old.variables draft.new.lits.items) }
    ensures word { OnOk result (draft.new.word ≡ Word.Empty) }
    ensures is { OnOk result (ended (record { clauses = cnf.old.clauses; lits = draft.old.lits.items; word = draft.old.word }) ≡ Some (record { clauses = cnf.new.clauses; lits = draft.new.lits.items; word = draft.new.word })) }
    ensures fault { (b : ℕ) → IsErrOf result (CertificateFault.At b) → (b ≡ at) × (ended (record { clauses = cnf.old.clauses; lits = draft.old.lits.items; word = draft.old.word }) ≡ None) }
{
    match ending_of(draft.word, cnf.variables()) {
        Ending::Nothing => Ok(()),
        Ending::WholeLiteral(lit) => {
            draft.lits.push(lit)?;
            draft.word = Word::Empty;
            Ok(())
        }
        Ending::WholeClause => {
            let clause = Clause::from_slice(alloc, draft.lits.as_slice())?;
            cnf.push(clause)?;
            draft.lits.clear();
            draft.word = Word::Empty;
            Ok(())
        }
        Ending::Torn => Err(CertificateFault::At(at)),
    }
}

/// Ends the open clause's word; where this ends a clause of the log, adds it.
fn end_in_log(
    alloc: Global,
    log: &mut Log,
    draft: &mut OpenClause,
    variables: u32,
    at: usize,
) -> Result<(), CertificateFault>
    requires variables { variables ≤ most_variables }
    requires word { IsSoundWord variables draft.old.word }
    ensures word { OnOk result (draft.new.word ≡ Word.Empty) }
    ensures is { OnOk result (ended (record { clauses = log.old; lits = draft.old.lits.items; word = draft.old.word }) ≡ Some (record { clauses = log.new; lits = draft.new.lits.items; word = draft.new.word })) }
    ensures fault { (b : ℕ) → IsErrOf result (CertificateFault.At b) → (b ≡ at) × (ended (record { clauses = log.old; lits = draft.old.lits.items; word = draft.old.word }) ≡ None) }
{
    match ending_of(draft.word, variables) {
        Ending::Nothing => Ok(()),
        Ending::WholeLiteral(lit) => {
            draft.lits.push(lit)?;
            draft.word = Word::Empty;
            Ok(())
        }
        Ending::WholeClause => {
            let clause = Clause::from_slice(alloc, draft.lits.as_slice())?;
            log.push(clause)?;
            draft.lits.clear();
            draft.word = Word::Empty;
            Ok(())
        }
        Ending::Torn => Err(CertificateFault::At(at)),
    }
}

/// Adds a byte to the open clause's word.
fn extend(
    draft: &mut OpenClause,
    byte: u8,
    variables: u32,
    at: usize,
) -> Result<(), CertificateFault>
    requires variables { variables ≤ most_variables }
    requires word { IsSoundWord variables draft.old.word }
    ensures lits { draft.new.lits.items ≡ draft.old.lits.items }
    ensures word { OnOk result (IsSoundWord variables draft.new.word) }
    ensures is { OnOk result ((clauses : List (List Literal)) → extended variables (record { clauses = clauses; lits = draft.old.lits.items; word = draft.old.word }) byte ≡ Some (record { clauses = clauses; lits = draft.new.lits.items; word = draft.new.word })) }
    ensures fault { (b : ℕ) → IsErrOf result (CertificateFault.At b) → (b ≡ at) × ((clauses : List (List Literal)) → extended variables (record { clauses = clauses; lits = draft.old.lits.items; word = draft.old.word }) byte ≡ None) }
{
    match typed(draft.word, byte, variables) {
        None => Err(CertificateFault::At(at)),
        Some(word) => {
            draft.word = word;
            Ok(())
        }
    }
}

/// Reads a byte of a line of the clause set that is no comment: where the line was read up to then.
fn read_in_line(
    alloc: Global,
    cnf: &mut Cnf,
    draft: &mut OpenClause,
    count: u32,
    byte: u8,
    at: usize,
) -> Result<Spot, CertificateFault>
    requires variables { cnf.old.variables ≤ most_variables }
    requires lits { IsBelow cnf.old.variables draft.old.lits.items }
    requires word { IsSoundWord cnf.old.variables draft.old.word }
    ensures variables { OnOk result (cnf.new.variables ≡ cnf.old.variables) }
    ensures lits { OnOk result (IsBelow cnf.old.variables draft.new.lits.items) }
    ensures word { OnOk result (IsSoundWord cnf.old.variables draft.new.word) }
    ensures is { IfOk result (λ spot. in_line cnf.old.variables count (record { clauses = cnf.old.clauses; lits = draft.old.lits.items; word = draft.old.word }) byte ≡ Some (Setting cnf.old.variables count spot (record { clauses = cnf.new.clauses; lits = draft.new.lits.items; word = draft.new.word }))) }
    ensures fault { (b : ℕ) → IsErrOf result (CertificateFault.At b) → (b ≡ at) × (in_line cnf.old.variables count (record { clauses = cnf.old.clauses; lits = draft.old.lits.items; word = draft.old.word }) byte ≡ None) }
{
    if is_blank(byte) {
        end_in_set(alloc, cnf, draft, at)?;
        if byte == b'\n' {
            Ok(Spot::First)
        } else {
            Ok(Spot::Inside)
        }
    } else if cnf.len() < count as usize {
        extend(draft, byte, cnf.variables(), at)?;
        Ok(Spot::Inside)
    } else {
        Err(CertificateFault::At(at))
    }
}

/// Reads a byte of the clause set.
fn read_in_set(
    alloc: Global,
    cnf: &mut Cnf,
    draft: &mut OpenClause,
    count: u32,
    spot: Spot,
    byte: u8,
    at: usize,
) -> Result<Next, CertificateFault>
    requires variables { cnf.old.variables ≤ most_variables }
    requires lits { IsBelow cnf.old.variables draft.old.lits.items }
    requires word { IsSoundWord cnf.old.variables draft.old.word }
    ensures variables { OnOk result (cnf.new.variables ≡ cnf.old.variables) }
    ensures lits { OnOk result (IsBelow cnf.old.variables draft.new.lits.items) }
    ensures word { OnOk result (IsSoundWord cnf.old.variables draft.new.word) }
    ensures is { IfOk result (λ next. in_set cnf.old.variables count spot (record { clauses = cnf.old.clauses; lits = draft.old.lits.items; word = draft.old.word }) byte ≡ Some (next_state cnf.old.variables count (record { clauses = cnf.new.clauses; lits = draft.new.lits.items; word = draft.new.word }) next)) }
    ensures fault { (b : ℕ) → IsErrOf result (CertificateFault.At b) → (b ≡ at) × (in_set cnf.old.variables count spot (record { clauses = cnf.old.clauses; lits = draft.old.lits.items; word = draft.old.word }) byte ≡ None) }
{
    match spot {
        Spot::Comment => {
            if byte == b'\n' {
                Ok(Next::On(Spot::First))
            } else {
                Ok(Next::On(Spot::Comment))
            }
        }
        Spot::Inside => {
            let spot = read_in_line(alloc, cnf, draft, count, byte, at)?;
            Ok(Next::On(spot))
        }
        Spot::First => {
            if byte == b'c' {
                return Ok(Next::On(Spot::Comment));
            }
            if byte == b'l' && cnf.len() == count as usize {
                return Ok(Next::Ends);
            }
            let spot = read_in_line(alloc, cnf, draft, count, byte, at)?;
            Ok(Next::On(spot))
        }
    }
}

/// Reads the clauses of the clause set, so many, into an empty one, and the first byte of `log`: the place behind it.
fn read_set(
    alloc: Global,
    bytes: &[u8],
    from: usize,
    count: u32,
    cnf: &mut Cnf,
) -> Result<usize, CertificateFault>
    requires variables { cnf.old.variables ≤ most_variables }
    requires empty { cnf.old.clauses ≡ [] }
    requires from { IsReadTo bytes.now from (Setting cnf.old.variables count Spot.First no_draft) }
    ensures variables { OnOk result (cnf.new.variables ≡ cnf.old.variables) }
    ensures found { IfOk result (λ at. IsReadTo bytes.now at (Keyword cnf.old.variables cnf.new.clauses (codes "og"))) }
    ensures fault { (b : ℕ) → IsErrOf result (CertificateFault.At b) → IsStuck bytes.now b }
{
    let mut draft = OpenClause {
        lits: Vec::new(alloc),
        word: Word::Empty,
    };
    let mut spot = Spot::First;
    'bytes: for at in from..bytes.len() {
        match read_in_set(alloc, cnf, &mut draft, count, spot, bytes[at], at)? {
            Next::Ends => return Ok(at + 1),
            Next::On(next) => spot = next,
        }
    }
    Err(CertificateFault::At(bytes.len()))
}

/// The place behind `log`, behind its first byte.
fn keyword_end(bytes: &[u8], from: usize, cnf: &Cnf) -> Result<usize, CertificateFault>
    requires { IsReadTo bytes.now from (Keyword cnf.now.variables cnf.now.clauses (codes "og")) }
    ensures found { IfOk result (λ at. IsReadTo bytes.now at (Keyword cnf.now.variables cnf.now.clauses [])) }
    ensures fault { (b : ℕ) → IsErrOf result (CertificateFault.At b) → IsStuck bytes.now b }
{
    let middle = pass(bytes, from, b'o')?;
    let last = pass(bytes, middle, b'g')?;
    Ok(last)
}

/// Reads a byte of the log.
fn read_in_log(
    alloc: Global,
    log: &mut Log,
    draft: &mut OpenClause,
    variables: u32,
    byte: u8,
    at: usize,
) -> Result<(), CertificateFault>
    requires variables { variables ≤ most_variables }
    requires word { IsSoundWord variables draft.old.word }
    ensures word { OnOk result (IsSoundWord variables draft.new.word) }
    ensures is { OnOk result ((clauses : List (List Literal)) → step (Logging variables clauses (record { clauses = log.old; lits = draft.old.lits.items; word = draft.old.word })) byte ≡ Some (Logging variables clauses (record { clauses = log.new; lits = draft.new.lits.items; word = draft.new.word }))) }
    ensures fault { (b : ℕ) → IsErrOf result (CertificateFault.At b) → (b ≡ at) × ((clauses : List (List Literal)) → step (Logging variables clauses (record { clauses = log.old; lits = draft.old.lits.items; word = draft.old.word })) byte ≡ None) }
{
    if is_blank(byte) {
        end_in_log(alloc, log, draft, variables, at)
    } else {
        extend(draft, byte, variables, at)
    }
}

/// Reads what stands behind `log`: the log.
fn read_log(alloc: Global, bytes: &[u8], from: usize, cnf: &Cnf) -> Result<Log, CertificateFault>
    requires variables { cnf.now.variables ≤ most_variables }
    requires from { IsReadTo bytes.now from (Keyword cnf.now.variables cnf.now.clauses []) }
    ensures found { IfOk result (λ log. IsReadAs bytes.now (whole_of cnf.now.variables cnf.now.clauses log)) }
    ensures fault { (b : ℕ) → IsErrOf result (CertificateFault.At b) → IsStuck bytes.now b }
{
    let mut log = Log::new(alloc);
    if from >= bytes.len() {
        return Ok(log);
    }
    if bytes[from] != b'\n' {
        return Err(CertificateFault::At(from));
    }
    let mut draft = OpenClause {
        lits: Vec::new(alloc),
        word: Word::Empty,
    };
    'bytes: for at in from + 1..bytes.len() {
        read_in_log(alloc, &mut log, &mut draft, cnf.variables(), bytes[at], at)?;
    }
    end_in_log(alloc, &mut log, &mut draft, cnf.variables(), bytes.len())?;
    if draft.lits.len() > 0 {
        return Err(CertificateFault::At(bytes.len()));
    }
    Ok(log)
}

/// The clause set and the log that a certificate holds.
///
/// The text may be any bytes, of any number, and is read once. Its lines are comments, which begin with `c`; then `p cnf V C`; then lines of which those that are no comments hold C clauses; then `log`; and then lines with clauses of the log. V is at most 10,000,000, C at most 100,000,000.
///
/// # Errors
///
/// - `At(b)` exactly where the bytes before b begin a certificate, and with the byte at b they don't, or b is the length and they aren't one.
/// - `Memory` only where memory is wanting.
pub fn read_certificate(alloc: Global, bytes: &[u8]) -> Result<(Cnf, Log), CertificateFault>
    // What is answered is so.
    ensures certificate { IfOk result (λ found. IsCertificate bytes.now found.0 found.1) }
    ensures fault { (b : ℕ) → IsErrOf result (CertificateFault.At b) → IsFirstFault bytes.now b }
    // What is so is answered, unless memory runs out.
    ensures only_certificate { (set : ClauseSet) (log : List (List Literal)) → IsCertificate bytes.now set log → MatchResult result (λ found. (found.0 ≡ set) × (found.1 ≡ log)) (λ fault. fault ≡ CertificateFault.Memory) }
    ensures only_fault { (b : ℕ) → IsFirstFault bytes.now b → IsErrOf result (CertificateFault.At b) ⊎ IsErrOf result CertificateFault.Memory }
{
    let heading = read_heading(bytes)?;
    let mut cnf = Cnf::new(alloc, heading.variables);
    let keyword = read_set(alloc, bytes, heading.end, heading.clauses, &mut cnf)?;
    let end = keyword_end(bytes, keyword, &cnf)?;
    let log = read_log(alloc, bytes, end, &cnf)?;
    Ok((cnf, log))
}
