// Programs.
ghost use Rattle.std.specs.Prelude.{◌≡◌, [], ◌==◌};
ghost use Rattle.civl_tree.specs.Token.{Reserved};
ghost use Rattle.civl_lex.specs.Spelled.{spelled};
ghost use Rattle.civl_phrases.specs.Reader.{Gives};
ghost use Rattle.civl_parser.specs.readers.Programs.{number_line_at, sizes_at, header_at, bodies_at, claims_at, make_program, program_at, program_text_at};

use civl_declarations::{ActionPhrase, GlobalPhrase, InvariantPhrase, ThreadPhrase, init};
use civl_lex::Token;
use civl_phrases::{Halt, end, many, number, sign, word};
use civl_statements::ProcPhrase;
use civl_tree::{Action, Expr, Global as GlobalItem, Invariant, List, Proc, Program, Thread};
use std::alloc::Global;

/// The three numbers at the head of a program.
#[derive(Clone, Copy)]
pub struct Header {
    pub version: u32,
    pub layers: u32,
    pub permissions: u32,
}

/// The declarations that have bodies, and the threads.
#[derive(Drop)]
pub struct Bodies {
    pub actions: List<Action>,
    pub procs: List<Proc>,
    pub threads: List<Thread>,
}

/// What stands behind the globals of a program.
#[derive(Drop)]
pub struct Claims {
    pub init: Expr,
    pub invariants: List<Invariant>,
    pub bodies: Bodies,
}

/// The word, a number and a semicolon.
#[tactic(auto, unfolding(crate::specs::readers::Programs::number_line_at, civl_phrases::specs::Reader::after, civl_phrases::specs::Reader::then_token, civl_phrases::specs::Reader::mapped, civl_phrases::specs::Reader::both, civl_phrases::specs::Reader::done))]
fn number_line<'t, 'a>(text: &[u8], tokens: &'t [Token<'a>]) -> Result<(u32, &'t [Token<'a>]), Halt>
    ensures { Gives (λ x. (x.0, spelled x.1.now)) result (number_line_at (Reserved text.now) (spelled tokens.now)) }
{
    let rest = word(tokens, text)?;
    let (value, rest) = number(rest)?;
    let rest = sign(rest, b";")?;
    Ok((value, rest))
}

/// The number of layers and the width of a permission.
#[tactic(auto, unfolding(crate::specs::readers::Programs::sizes_at, civl_phrases::specs::Reader::both))]
fn sizes<'t, 'a>(tokens: &'t [Token<'a>]) -> Result<((u32, u32), &'t [Token<'a>]), Halt>
    ensures { Gives (λ x. (x.0, spelled x.1.now)) result (sizes_at (spelled tokens.now)) }
{
    let (layers, rest) = number_line(b"layers", tokens)?;
    let (permissions, rest) = number_line(b"permissions", rest)?;
    Ok(((layers, permissions), rest))
}

#[tactic(auto, unfolding(crate::specs::readers::Programs::header_at, civl_phrases::specs::Reader::mapped, civl_phrases::specs::Reader::both))]
fn read_header<'t, 'a>(tokens: &'t [Token<'a>]) -> Result<(Header, &'t [Token<'a>]), Halt>
    ensures { Gives (λ x. (x.0, spelled x.1.now)) result (header_at (spelled tokens.now)) }
{
    let (version, rest) = number_line(b"civl", tokens)?;
    let ((layers, permissions), rest) = sizes(rest)?;
    let header = Header {
        version,
        layers,
        permissions,
    };
    Ok((header, rest))
}

#[tactic(auto, unfolding(crate::specs::readers::Programs::bodies_at, civl_phrases::specs::Reader::mapped, civl_phrases::specs::Reader::both))]
fn read_bodies<'t, 'a>(
    alloc: Global,
    new: bool,
    most: usize,
    tokens: &'t [Token<'a>],
) -> Result<(Bodies, &'t [Token<'a>]), Halt>
    ensures { Gives (λ x. (x.0, spelled x.1.now)) result (bodies_at new most (spelled tokens.now)) }
{
    let (actions, rest) = many(alloc, &ActionPhrase { new, most }, tokens)?;
    let (procs, rest) = many(alloc, &ProcPhrase { new, most }, rest)?;
    let (threads, rest) = many(alloc, &ThreadPhrase { new, most }, rest)?;
    let bodies = Bodies {
        actions,
        procs,
        threads,
    };
    Ok((bodies, rest))
}

#[tactic(auto, unfolding(crate::specs::readers::Programs::claims_at, civl_phrases::specs::Reader::mapped, civl_phrases::specs::Reader::both))]
fn read_claims<'t, 'a>(
    alloc: Global,
    new: bool,
    most: usize,
    tokens: &'t [Token<'a>],
) -> Result<(Claims, &'t [Token<'a>]), Halt>
    ensures { Gives (λ x. (x.0, spelled x.1.now)) result (claims_at new most (spelled tokens.now)) }
{
    let (init, rest) = init(alloc, new, most, tokens)?;
    let (invariants, rest) = many(alloc, &InvariantPhrase { new, most }, rest)?;
    let (bodies, rest) = read_bodies(alloc, new, most, rest)?;
    let claims = Claims {
        init,
        invariants,
        bodies,
    };
    Ok((claims, rest))
}

fn program_of(header: Header, globals: List<GlobalItem>, claims: Claims) -> Program
    ensures { result ≡ make_program (header, (globals, claims)) }
{
    let Claims {
        init,
        invariants,
        bodies,
    } = claims;
    let Bodies {
        actions,
        procs,
        threads,
    } = bodies;
    Program {
        version: header.version,
        layers: header.layers,
        permissions: header.permissions,
        globals,
        init,
        invariants,
        actions,
        procs,
        threads,
    }
}

/// A program, where `most` brackets may be open, and the tokens behind it, which begin with no thread.
///
/// # Errors
///
/// - `NotHere` at the first token with which no program goes on.
/// - `Deep` at a bracket that may stand there and may not be opened.
#[tactic(auto, unfolding(crate::specs::readers::Programs::program_at, civl_phrases::specs::Reader::mapped, civl_phrases::specs::Reader::both))]
pub fn program<'t, 'a>(
    alloc: Global,
    most: usize,
    tokens: &'t [Token<'a>],
) -> Result<(Program, &'t [Token<'a>]), Halt>
    ensures { Gives (λ x. (x.0, spelled x.1.now)) result (program_at most (spelled tokens.now)) }
{
    let (header, rest) = read_header(tokens)?;
    let (globals, rest) = many(alloc, &GlobalPhrase { most }, rest)?;
    let (claims, rest) = read_claims(alloc, header.version == 2, most, rest)?;
    Ok((program_of(header, globals, claims), rest))
}

/// A program, and nothing else.
///
/// # Errors
///
/// As those of `program`, and `NotHere` at a token behind it.
#[tactic(auto, unfolding(crate::specs::readers::Programs::program_text_at, civl_phrases::specs::Reader::mapped, civl_phrases::specs::Reader::both))]
pub fn program_text(alloc: Global, most: usize, tokens: &[Token<'_>]) -> Result<Program, Halt>
    ensures { Gives (λ x. (x, [])) result (program_text_at most (spelled tokens.now)) }
{
    let (program, rest) = program(alloc, most, tokens)?;
    end(rest)?;
    Ok(program)
}
