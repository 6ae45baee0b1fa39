// The program, the script or the outline that a text spells.
ghost use Rattle.civl_frontend.specs.Reader.{TellsProgram, TellsScript, TellsOutline};

use civl_lex::{LexFault, tokens};
use civl_outlines::{Outline, parse_outline};
use civl_parser::{ParseFault, parse, parse_script};
use civl_tree::{Program, Script};
use std::alloc::Global;

/// Why a text is no program, no script or no outline: the first fault in it.
#[derive(Clone, Copy, Debug, Drop)]
pub enum Fault {
    /// No token begins at this byte.
    NoToken(usize),
    /// This token can't stand where it does.
    NotHere(usize),
    /// This token opens one bracket too many.
    Deep(usize),
}

/// What reading a text gives.
#[derive(Drop)]
pub enum Text<T> {
    /// What the text spells, and nothing else.
    Spelled(T),
    /// The text spells nothing, or has too many brackets open at some place.
    Unread(Fault),
    /// Memory is wanting.
    Memory,
}

/// The program that these bytes spell, or the first fault in them.
pub fn read_program(alloc: Global, bytes: &[u8]) -> Text<Program>
    ensures { TellsProgram bytes.now result }
{
    match tokens(alloc, bytes) {
        Ok(tokens) => match parse(alloc, tokens.as_slice()) {
            Ok(program) => Text::Spelled(program),
            Err(ParseFault::NotHere(place)) => Text::Unread(Fault::NotHere(place)),
            Err(ParseFault::Deep(place)) => Text::Unread(Fault::Deep(place)),
            Err(ParseFault::Memory) => Text::Memory,
        },
        Err(LexFault::NoToken(place)) => Text::Unread(Fault::NoToken(place)),
        Err(LexFault::Memory) => Text::Memory,
    }
}

/// The script that these bytes spell, or the first fault in them.
pub fn read_script(alloc: Global, bytes: &[u8]) -> Text<Script>
    ensures { TellsScript bytes.now result }
{
    match tokens(alloc, bytes) {
        Ok(tokens) => match parse_script(alloc, tokens.as_slice()) {
            Ok(script) => Text::Spelled(script),
            Err(ParseFault::NotHere(place)) => Text::Unread(Fault::NotHere(place)),
            Err(ParseFault::Deep(place)) => Text::Unread(Fault::Deep(place)),
            Err(ParseFault::Memory) => Text::Memory,
        },
        Err(LexFault::NoToken(place)) => Text::Unread(Fault::NoToken(place)),
        Err(LexFault::Memory) => Text::Memory,
    }
}

/// The outline that these bytes spell, or the first fault in them.
pub fn read_outline(alloc: Global, bytes: &[u8]) -> Text<Outline>
    ensures { TellsOutline bytes.now result }
{
    match tokens(alloc, bytes) {
        Ok(tokens) => match parse_outline(alloc, tokens.as_slice()) {
            Ok(outline) => Text::Spelled(outline),
            Err(ParseFault::NotHere(place)) => Text::Unread(Fault::NotHere(place)),
            Err(ParseFault::Deep(place)) => Text::Unread(Fault::Deep(place)),
            Err(ParseFault::Memory) => Text::Memory,
        },
        Err(LexFault::NoToken(place)) => Text::Unread(Fault::NoToken(place)),
        Err(LexFault::Memory) => Text::Memory,
    }
}
