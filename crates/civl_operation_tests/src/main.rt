//! The operations of the language at all values of their operands: beside the value of each what the clauses of its circuit give.
//!
//! A line has an operation and, where it takes words, their width; p, q and o are bools, a and b words, r and s rows of two words, and i is
//! an index of one bit. Behind it stand the results at all values of the operands, in their order: the first operand changes the fastest. A
//! result is a number: 0 or 1 of a bool, that of a word, and of a row that of the bits of its cells, cell 0 the lowest; it is written in
//! octal digits, one for each three bits. Where there are more than 200 digits, the line has the number of the results and their sum, each
//! times its place from 1. It ends with `same` where the clauses give the same results, and else with the values of the operands where they
//! first don't.
#![tactic(auto)]

mod clauses;
mod lines;
mod operations;
mod values;

use lines::line;
use operations::{OF_BOOLS, OF_WORDS, Row};
use std::io;

/// Writes the line on an operation over bools.
fn put_bools(rt: &HostRuntime, row: &Row) -> io::Result<()> {
    let (name, ..) = row;
    let line = line(rt.alloc(), name, row, 1)?;
    print!(rt; "{line}")
}

/// Writes the line on an operation over words of a width, where it is tried over these.
fn put_words(rt: &HostRuntime, row: &Row, width: u32) -> io::Result<()> {
    let (name, _, _, widths) = row;
    if !widths.contains(&width) {
        return Ok(());
    }
    let head = format!(in rt.alloc(); "{name} at {width}")?;
    let line = line(rt.alloc(), head.as_str(), row, width)?;
    print!(rt; "{line}")
}

fn main(rt: HostRuntime) -> io::Result<()> {
    for row in OF_BOOLS.as_slice() {
        put_bools(&rt, row)?;
    }
    for width in [1, 3] {
        for row in OF_WORDS.as_slice() {
            put_words(&rt, row, width)?;
        }
    }
    Ok(())
}
