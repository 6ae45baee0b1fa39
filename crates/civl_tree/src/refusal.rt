// Refusals by the static rules.

/// A broken rule: the number of its code, the item, and the statement in it.
///
/// Items are the declarations of a program in text order, from 0: the globals, `init`, the invariants, the actions, the
/// procedures and the threads; a fault in the three numbers of the header belongs to item 0. Statements are those of a
/// procedure in text order, from 0, an `if` or a loop before its parts; a fault outside all statements has statement 0, and
/// one at a body's end the number of its statements.
#[derive(Clone, Copy, Debug, PartialEq, Eq)]
pub struct Refusal {
    pub code: u32,
    pub item: u32,
    pub statement: u32,
}

/// Why a program isn't taken: the first rule that it breaks, or want of memory.
#[derive(Clone, Copy, Debug, PartialEq, Eq)]
pub enum Refused {
    At(Refusal),
    Memory,
}
