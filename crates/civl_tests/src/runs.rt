// Programs that are run by the calls of the crates, where no command tells what these answer.

use civl_bits::Value;
use civl_lex::tokens;
use civl_meaning::{Config, Move, Plain, Store, start};
use civl_parser::parse;
use civl_tree::List;
use std::alloc::Global;

/// The program of a text in which each of so many procedures means its body, or else the action that it refines.
pub(crate) fn plain(alloc: Global, text: &str, is_body: bool, procedures: usize) -> Option<Plain> {
    let tokens = tokens(alloc, text.as_bytes()).ok()?;
    let bodies = Vec::from_elem(alloc, is_body, procedures).ok()?;
    let program = parse(alloc, tokens.as_slice()).ok()?;
    let bodies = List::from_vec(bodies);
    Some(Plain { program, bodies })
}

/// The start of a program with one global.
pub(crate) fn begun(alloc: Global, plain: &Plain, value: Value) -> Option<Config> {
    let values = [value].to_vec(alloc).ok()?;
    let store = Store {
        values: List::from_vec(values),
    };
    start(alloc, plain, &store).ok()
}

/// A move of each of these threads, with no choices.
pub(crate) fn moves_of(alloc: Global, threads: &[u32]) -> Option<List<Move>> {
    let mut moves = Vec::new(alloc);
    for thread in threads {
        let one = Move {
            thread: *thread,
            choices: List::new(alloc),
        };
        moves.push(one).ok()?;
    }
    Some(List::from_vec(moves))
}
