// Programs.
ghost use Rattle.std.specs.Prelude.{◌≡◌, ◌++◌, OnOk, IfOk};
ghost use Rattle.civl_tree.specs.Raised.{raised, raised_version};
ghost use Rattle.civl_tree.specs.SpellingProgram.{spell_program};
ghost use Rattle.civl_tree.specs.SpellingText.{canonical_text};
ghost use Rattle.civl_printing.specs.Written.{written};
ghost use Rattle.civl_printer.specs.inner.Parts.{header_number, header_of, declarations_of};

use civl_printing::declarations::put_init;
use civl_printing::phrases::put_each;
use civl_printing::tokens::{put_number, put_sign, put_word};
use civl_tree::{Memory, Program};
use std::alloc::Global;

/// The version in which a program of this version is printed.
fn printed_version(version: u32) -> u32
    ensures { result ≡ raised_version version }
{
    if version == 1 { 2 } else { version }
}

/// A word of the header, and then `number ;`
#[tactic(auto, using(civl_printing::proofs::Writing::joins), unfolding(crate::specs::inner::Parts::header_number))]
fn put_header_number(out: &mut Vec<u8>, word: &[u8], number: u32) -> Result<(), Memory>
    ensures { OnOk result (out.new.items ≡ out.old.items ++ written (header_number word.now number)) }
{
    put_word(out, word)?;
    put_number(out, number)?;
    put_sign(out, b";")
}

/// `civl number ; layers number ; permissions number ;`
#[tactic(auto, using(civl_printing::proofs::Writing::joins), unfolding(crate::specs::inner::Parts::header_of))]
fn put_header(out: &mut Vec<u8>, program: &Program) -> Result<(), Memory>
    ensures { OnOk result (out.new.items ≡ out.old.items ++ written (header_of program.now)) }
{
    put_header_number(out, b"civl", printed_version(program.version))?;
    put_header_number(out, b"layers", program.layers)?;
    put_header_number(out, b"permissions", program.permissions)
}

/// `global* init invariant* action* proc* thread*`
#[tactic(auto, using(civl_printing::proofs::Writing::joins), unfolding(crate::specs::inner::Parts::declarations_of))]
fn put_declarations(out: &mut Vec<u8>, program: &Program) -> Result<(), Memory>
    ensures { OnOk result (out.new.items ≡ out.old.items ++ written (declarations_of program.now)) }
{
    put_each(out, &program.globals)?;
    put_init(out, &program.init)?;
    put_each(out, &program.invariants)?;
    put_each(out, &program.actions)?;
    put_each(out, &program.procs)?;
    put_each(out, &program.threads)
}

fn put_program(out: &mut Vec<u8>, program: &Program) -> Result<(), Memory>
    ensures { OnOk result (out.new.items ≡ out.old.items ++ written (spell_program (raised program.now))) }
{
    put_header(out, program)?;
    put_declarations(out, program)?;
    Ok(())
}

/// The canonical text of a program: the tokens of its spelling in order, with a line feed behind `;`, `{` and `}` and
/// a blank behind every other token. A program of version 1 is printed as one of version 2, with nothing else
/// changed; a program of any other version keeps it.
///
/// Any tree may be printed. Of a tree that has a spelling the text is read back as the same program
/// (`laws::reads_back`). The time grows with the length of the text, and calls are as deep as the tree.
///
/// # Errors
///
/// `Memory` only where memory is wanting.
#[tactic(auto, unfolding(civl_printing::specs::Written::written))]
pub fn print(alloc: Global, program: &Program) -> Result<Vec<u8>, Memory>
    ensures { IfOk result (λ text. text.items ≡ canonical_text (spell_program (raised program.now))) }
{
    let mut text = Vec::new(alloc);
    put_program(&mut text, program)?;
    Ok(text)
}
