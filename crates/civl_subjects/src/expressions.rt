// Expressions, written.
ghost use Rattle.std.specs.Prelude.{◌≡◌, ◌++◌, OnOk, codes, decimal};
ghost use Rattle.civl_tree.specs.Token.{text_of};
ghost use Rattle.civl_tree.specs.Spelling.{one_token, op_token};
ghost use Rattle.civl_subjects.specs.Texts.{expr_text};

use crate::writing::{put, put_number};
use civl_tree::{Expr, Memory, Name, One, Two};

/// The sign of an operation with one operand.
fn one_sign(op: One) -> &'static [u8]
    ensures { result.now ≡ text_of (one_token op) }
{
    match op {
        One::Not => b"!",
        One::Flip => b"~",
        One::Minus => b"-",
    }
}

/// The sign or the word of an operation with two operands.
fn two_sign(op: Two) -> &'static [u8]
    ensures { result.now ≡ text_of (op_token op) }
{
    match op {
        Two::Add => b"+",
        Two::Sub => b"-",
        Two::Mul => b"*",
        Two::BitAnd => b"&",
        Two::BitOr => b"|",
        Two::BitXor => b"^",
        Two::Shl => b"<<",
        Two::Shr => b">>",
        Two::Lt => b"<",
        Two::Le => b"<=",
        Two::Eq => b"==",
        Two::Ne => b"!=",
        Two::And => b"&&",
        Two::Or => b"||",
        Two::Implies => b"=>",
        Two::Udiv => b"udiv",
        Two::Urem => b"urem",
        Two::Slt => b"slt",
        Two::Sle => b"sle",
        Two::Sar => b"sar",
    }
}

/// A literal.
fn put_literal(out: &mut Vec<u8>, value: u32, width: u32) -> Result<(), Memory>
    ensures { OnOk result (out.new.items ≡ out.old.items ++ (decimal value ++ (codes ":" ++ decimal width))) }
{
    put_number(out, value as usize)?;
    put(out, b":")?;
    put_number(out, width as usize)
}

/// The value of a name at the beginning of a block.
fn put_old(out: &mut Vec<u8>, name: &Name) -> Result<(), Memory>
    ensures { OnOk result (out.new.items ≡ out.old.items ++ (codes "old(" ++ (name.now.bytes ++ codes ")"))) }
{
    put(out, b"old(")?;
    put(out, name.as_slice())?;
    put(out, b")")
}

/// The last number of an expression.
fn put_last(out: &mut Vec<u8>, number: u32) -> Result<(), Memory>
    ensures { OnOk result (out.new.items ≡ out.old.items ++ (codes ", " ++ (decimal number ++ codes ")"))) }
{
    put(out, b", ")?;
    put_number(out, number as usize)?;
    put(out, b")")
}

/// An expression.
#[cycle(expr)]
pub(crate) fn put_expr(out: &mut Vec<u8>, expr: &Expr) -> Result<(), Memory>
    ensures { OnOk result (out.new.items ≡ out.old.items ++ expr_text expr.now) }
{
    match expr {
        Expr::Name(name) => put(out, name.as_slice()),
        Expr::Literal(value, width) => put_literal(out, *value, *width),
        Expr::True => put(out, b"true"),
        Expr::False => put(out, b"false"),
        Expr::Done => put(out, b"done"),
        Expr::Old(name) => put_old(out, name),
        Expr::OldDone => put(out, b"old(done)"),
        Expr::One(op, part) => {
            put(out, b"(")?;
            put(out, one_sign(*op))?;
            put_part(out, part.get(), b")")
        }
        Expr::Two(op, first, second) => {
            put(out, b"(")?;
            put_part(out, first.get(), b" ")?;
            put(out, two_sign(*op))?;
            put(out, b" ")?;
            put_part(out, second.get(), b")")
        }
        Expr::Pick(test, first, second) => {
            put(out, b"(")?;
            put_part(out, test.get(), b" ? ")?;
            put_part(out, first.get(), b" : ")?;
            put_part(out, second.get(), b")")
        }
        Expr::Get(row, at) => {
            put(out, b"get(")?;
            put_part(out, row.get(), b", ")?;
            put_part(out, at.get(), b")")
        }
        Expr::Set(row, at, cell) => {
            put(out, b"set(")?;
            put_part(out, row.get(), b", ")?;
            put_part(out, at.get(), b", ")?;
            put_part(out, cell.get(), b")")
        }
        Expr::Fill(index, cell) => put_fill(out, *index, cell.get()),
        Expr::Slice(word, high, low) => put_slice(out, word.get(), *high, *low),
        Expr::Widen(word, wider) => {
            put(out, b"widen(")?;
            put_expr(out, word.get())?;
            put_last(out, *wider)
        }
        Expr::Join(first, second) => {
            put(out, b"join(")?;
            put_part(out, first.get(), b", ")?;
            put_part(out, second.get(), b")")
        }
    }
}

/// A part of an expression, and the sign behind it.
#[cycle(expr)]
fn put_part(out: &mut Vec<u8>, expr: &Expr, sign: &[u8]) -> Result<(), Memory>
    ensures { OnOk result (out.new.items ≡ out.old.items ++ (expr_text expr.now ++ sign.now)) }
{
    put_expr(out, expr)?;
    put(out, sign)
}

/// A row of one cell.
#[cycle(expr)]
fn put_fill(out: &mut Vec<u8>, index: u32, cell: &Expr) -> Result<(), Memory>
    ensures { OnOk result (out.new.items
        ≡ out.old.items ++ (codes "fill(" ++ (decimal index ++ (codes ", " ++ (expr_text cell.now ++ codes ")"))))) }
{
    put(out, b"fill(")?;
    put_number(out, index as usize)?;
    put(out, b", ")?;
    put_part(out, cell, b")")
}

/// A slice.
#[cycle(expr)]
fn put_slice(out: &mut Vec<u8>, word: &Expr, high: u32, low: u32) -> Result<(), Memory>
    ensures { OnOk result (out.new.items ≡ out.old.items
        ++ (codes "slice(" ++ (expr_text word.now ++ (codes ", " ++ (decimal high ++ (codes ", " ++ (decimal low ++ codes ")"))))))) }
{
    put(out, b"slice(")?;
    put_part(out, word, b", ")?;
    put_number(out, high as usize)?;
    put_last(out, low)
}
