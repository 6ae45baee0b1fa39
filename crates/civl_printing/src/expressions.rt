// Sorts and expressions.
ghost use Rattle.std.specs.Prelude.{◌≡◌, [], ◌∷◌, ◌++◌, codes, OnOk};
ghost use Rattle.civl_tree.specs.Token.{Reserved, Sign, Number};
ghost use Rattle.civl_tree.specs.Spelling.{open_paren, close_paren, comma, colon, name_token, one_token, op_token, spell_sort, spell_expr};
ghost use Rattle.civl_printing.specs.Written.{written, written_token};

use crate::tokens::{put_name, put_number, put_sign, put_word};
use civl_tree::{Expr, Memory, Name, One, Sort, Two};

/// `bool | word ( number ) | row ( number , number )`
#[tactic(auto, using(crate::proofs::Writing::joins))]
pub(crate) fn put_sort(out: &mut Vec<u8>, sort: Sort) -> Result<(), Memory>
    ensures { OnOk result (out.new.items ≡ out.old.items ++ written (spell_sort sort)) }
{
    match sort {
        Sort::Bool => put_word(out, b"bool"),
        Sort::Word(width) => {
            put_call(out, b"word")?;
            put_number(out, width)?;
            put_sign(out, b")")
        }
        Sort::Row(index, width) => {
            put_call(out, b"row")?;
            put_number(out, index)?;
            put_sign(out, b",")?;
            put_number(out, width)?;
            put_sign(out, b")")
        }
    }
}

/// `! | ~ | -`
fn put_one(out: &mut Vec<u8>, op: One) -> Result<(), Memory>
    ensures { OnOk result (out.new.items ≡ out.old.items ++ written_token (one_token op)) }
{
    match op {
        One::Not => put_sign(out, b"!"),
        One::Flip => put_sign(out, b"~"),
        One::Minus => put_sign(out, b"-"),
    }
}

/// `+ - * & | ^ << >> < <= == != && || => | udiv urem slt sle sar`
fn put_op(out: &mut Vec<u8>, op: Two) -> Result<(), Memory>
    ensures { OnOk result (out.new.items ≡ out.old.items ++ written_token (op_token op)) }
{
    match op {
        Two::Add => put_sign(out, b"+"),
        Two::Sub => put_sign(out, b"-"),
        Two::Mul => put_sign(out, b"*"),
        Two::BitAnd => put_sign(out, b"&"),
        Two::BitOr => put_sign(out, b"|"),
        Two::BitXor => put_sign(out, b"^"),
        Two::Shl => put_sign(out, b"<<"),
        Two::Shr => put_sign(out, b">>"),
        Two::Lt => put_sign(out, b"<"),
        Two::Le => put_sign(out, b"<="),
        Two::Eq => put_sign(out, b"=="),
        Two::Ne => put_sign(out, b"!="),
        Two::And => put_sign(out, b"&&"),
        Two::Or => put_sign(out, b"||"),
        Two::Implies => put_sign(out, b"=>"),
        Two::Udiv => put_word(out, b"udiv"),
        Two::Urem => put_word(out, b"urem"),
        Two::Slt => put_word(out, b"slt"),
        Two::Sle => put_word(out, b"sle"),
        Two::Sar => put_word(out, b"sar"),
    }
}

/// A word, and the parenthesis that opens behind it.
#[tactic(auto, using(crate::proofs::Writing::joins))]
fn put_call(out: &mut Vec<u8>, word: &[u8]) -> Result<(), Memory>
    ensures { OnOk result
        (out.new.items
        ≡ out.old.items ++ (written_token (Reserved word.now) ++ written_token open_paren)) }
{
    put_word(out, word)?;
    put_sign(out, b"(")
}

/// `value : width`
#[tactic(auto, using(crate::proofs::Writing::joins))]
fn put_literal(out: &mut Vec<u8>, value: u32, width: u32) -> Result<(), Memory>
    ensures { OnOk result (out.new.items ≡ out.old.items ++ written (Number value ∷ colon ∷ Number width ∷ [])) }
{
    put_number(out, value)?;
    put_sign(out, b":")?;
    put_number(out, width)
}

/// `old ( name )`
#[tactic(auto, using(crate::proofs::Writing::joins))]
fn put_old(out: &mut Vec<u8>, name: &Name) -> Result<(), Memory>
    ensures { OnOk result
        (out.new.items
        ≡ out.old.items ++ written (Reserved (codes "old") ∷ open_paren ∷ name_token name.now ∷ close_paren ∷ [])) }
{
    put_call(out, b"old")?;
    put_name(out, name)?;
    put_sign(out, b")")
}

/// `old ( done )`
#[tactic(auto, using(crate::proofs::Writing::joins))]
fn put_old_done(out: &mut Vec<u8>) -> Result<(), Memory>
    ensures { OnOk result
        (out.new.items
        ≡ out.old.items ++ written (Reserved (codes "old") ∷ open_paren ∷ Reserved (codes "done") ∷ close_paren ∷ [])) }
{
    put_call(out, b"old")?;
    put_word(out, b"done")?;
    put_sign(out, b")")
}

/// `, number )`
#[tactic(auto, using(crate::proofs::Writing::joins))]
fn put_last_number(out: &mut Vec<u8>, number: u32) -> Result<(), Memory>
    ensures { OnOk result
        (out.new.items
        ≡ out.old.items ++ (written_token comma ++ (written_token (Number number) ++ written_token close_paren))) }
{
    put_sign(out, b",")?;
    put_number(out, number)?;
    put_sign(out, b")")
}

/// An expression.
#[cycle(expr)]
#[tactic(auto, using(crate::proofs::Writing::writing))]
pub(crate) fn put_expr(out: &mut Vec<u8>, expr: &Expr) -> Result<(), Memory>
    ensures { OnOk result (out.new.items ≡ out.old.items ++ written (spell_expr expr.now)) }
{
    match expr {
        Expr::Name(name) => put_name(out, name),
        Expr::Literal(value, width) => put_literal(out, *value, *width),
        Expr::True => put_word(out, b"true"),
        Expr::False => put_word(out, b"false"),
        Expr::Done => put_word(out, b"done"),
        Expr::Old(name) => put_old(out, name),
        Expr::OldDone => put_old_done(out),
        Expr::One(op, a) => put_unary(out, *op, a.get()),
        Expr::Two(op, a, b) => {
            put_sign(out, b"(")?;
            put_expr(out, a.get())?;
            put_op(out, *op)?;
            put_part(out, b.get(), b")")
        }
        Expr::Pick(test, a, b) => {
            put_sign(out, b"(")?;
            put_part(out, test.get(), b"?")?;
            put_part(out, a.get(), b":")?;
            put_part(out, b.get(), b")")
        }
        Expr::Get(row, at) => {
            put_call(out, b"get")?;
            put_part(out, row.get(), b",")?;
            put_part(out, at.get(), b")")
        }
        Expr::Set(row, at, cell) => {
            put_call(out, b"set")?;
            put_part(out, row.get(), b",")?;
            put_part(out, at.get(), b",")?;
            put_part(out, cell.get(), b")")
        }
        Expr::Fill(index, cell) => put_fill(out, *index, cell.get()),
        Expr::Slice(a, high, low) => put_slice(out, a.get(), *high, *low),
        Expr::Widen(a, width) => put_widen(out, a.get(), *width),
        Expr::Join(a, b) => {
            put_call(out, b"join")?;
            put_part(out, a.get(), b",")?;
            put_part(out, b.get(), b")")
        }
    }
}

/// A part of an expression, and the sign behind it.
#[cycle(expr)]
#[tactic(auto, using(crate::proofs::Writing::writing))]
fn put_part(out: &mut Vec<u8>, expr: &Expr, sign: &[u8]) -> Result<(), Memory>
    ensures { OnOk result
        (out.new.items
        ≡ out.old.items ++ (written (spell_expr expr.now) ++ written_token (Sign sign.now))) }
{
    put_expr(out, expr)?;
    put_sign(out, sign)
}

/// `( operator expr )`
#[cycle(expr)]
#[tactic(auto, using(crate::proofs::Writing::writing))]
fn put_unary(out: &mut Vec<u8>, op: One, a: &Expr) -> Result<(), Memory>
    ensures { OnOk result
        (out.new.items
        ≡ out.old.items ++ written (open_paren ∷ one_token op ∷ spell_expr a.now ++ close_paren ∷ [])) }
{
    put_sign(out, b"(")?;
    put_one(out, op)?;
    put_part(out, a, b")")
}

/// `fill ( number , expr )`
#[cycle(expr)]
#[tactic(auto, using(crate::proofs::Writing::writing))]
fn put_fill(out: &mut Vec<u8>, index: u32, cell: &Expr) -> Result<(), Memory>
    ensures { OnOk result
        (out.new.items
        ≡ out.old.items ++ written
        (Reserved (codes "fill") ∷ open_paren ∷ Number index ∷ comma ∷ spell_expr cell.now ++ close_paren ∷ [])) }
{
    put_call(out, b"fill")?;
    put_number(out, index)?;
    put_sign(out, b",")?;
    put_part(out, cell, b")")
}

/// `slice ( expr , number , number )`
#[cycle(expr)]
#[tactic(auto, using(crate::proofs::Writing::writing))]
fn put_slice(out: &mut Vec<u8>, a: &Expr, high: u32, low: u32) -> Result<(), Memory>
    ensures { OnOk result
        (out.new.items
        ≡ out.old.items ++ written
        (Reserved (codes "slice") ∷ open_paren ∷ spell_expr a.now ++ comma ∷ Number high ∷ comma ∷ Number low ∷ close_paren ∷ [])) }
{
    put_call(out, b"slice")?;
    put_part(out, a, b",")?;
    put_number(out, high)?;
    put_last_number(out, low)
}

/// `widen ( expr , number )`
#[cycle(expr)]
#[tactic(auto, using(crate::proofs::Writing::writing))]
fn put_widen(out: &mut Vec<u8>, a: &Expr, width: u32) -> Result<(), Memory>
    ensures { OnOk result
        (out.new.items
        ≡ out.old.items ++ written
        (Reserved (codes "widen") ∷ open_paren ∷ spell_expr a.now ++ comma ∷ Number width ∷ close_paren ∷ [])) }
{
    put_call(out, b"widen")?;
    put_expr(out, a)?;
    put_last_number(out, width)
}
