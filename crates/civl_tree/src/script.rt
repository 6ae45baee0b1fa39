// Scripts: a program, a store of it and a schedule.

use crate::list::List;
use crate::name::Name;
use crate::program::Program;

/// A literal of a value: a bool, or a word as `Number(value, width)`.
#[derive(Clone, Copy, Debug, PartialEq, Eq)]
pub enum Literal {
    Flag(bool),
    Number(u32, u32),
}

/// A value, with the name of the global that it is for: one literal, or, as `row` says, the cells of a row. A tree may
/// have any cells here; what the text can say is one literal, or a row of any literals.
#[derive(Drop)]
pub struct Entry {
    pub name: Name,
    pub cells: List<Literal>,
    pub row: bool,
}

/// A move of a schedule: the number of a thread, and values for the choices of the action that it calls. The values
/// have empty names.
#[derive(Drop)]
pub struct Told {
    pub thread: u32,
    pub choices: List<Entry>,
}

/// A script.
#[derive(Drop)]
pub struct Script {
    pub program: Program,
    pub store: List<Entry>,
    pub moves: List<Told>,
}
