// Statements.
ghost use Rattle.std.specs.Prelude.{◌≡◌, ◌∷◌, [], ◌++◌, codes, map, OnOk};
ghost use Rattle.civl_tree.specs.Token.{Reserved};
ghost use Rattle.civl_tree.specs.Spelling.{open_brace, close_brace, semicolon, becomes, arrow, name_token, joined, enclosed, spell_expr};
ghost use Rattle.civl_tree.specs.SpellingStmt.{spell_name, spell_stmt};
ghost use Rattle.civl_printing.specs.Written.{written, written_token};

use crate::expressions::put_expr;
use crate::phrases::{Phrase, put_list};
use crate::tokens::{put_name, put_sign, put_word};
use civl_tree::{Expr, List, Memory, Name, Stmt};

impl Phrase for Expr {
    ghost spell = { spell_expr };

    fn put(&self, out: &mut Vec<u8>) -> Result<(), Memory> {
        put_expr(out, self)
    }
}

impl Phrase for Name {
    ghost spell = { spell_name };

    #[tactic(auto, using(crate::proofs::Writing::joins))]
    fn put(&self, out: &mut Vec<u8>) -> Result<(), Memory> {
        put_name(out, self)
    }
}

/// `name := expr ;`
#[tactic(auto, using(crate::proofs::Writing::joins))]
pub(crate) fn put_assignment(out: &mut Vec<u8>, target: &Name, value: &Expr) -> Result<(), Memory>
    ensures { OnOk result (out.new.items ≡ out.old.items ++ written (name_token target.now ∷ becomes ∷ spell_expr value.now ++ semicolon ∷ [])) }
{
    put_name(out, target)?;
    put_sign(out, b":=")?;
    put_expr(out, value)?;
    put_sign(out, b";")
}

/// A word, and then `expr ;`
#[tactic(auto, using(crate::proofs::Writing::joins))]
pub(crate) fn put_fact(out: &mut Vec<u8>, word: &[u8], fact: &Expr) -> Result<(), Memory>
    ensures { OnOk result (out.new.items ≡ out.old.items ++ written (Reserved word.now ∷ spell_expr fact.now ++ semicolon ∷ [])) }
{
    put_word(out, word)?;
    put_expr(out, fact)?;
    put_sign(out, b";")
}

/// `name ( list(expr) )`
#[tactic(auto, using(crate::proofs::Writing::joins))]
pub(crate) fn put_callee(out: &mut Vec<u8>, callee: &Name, args: &List<Expr>) -> Result<(), Memory>
    ensures { OnOk result (out.new.items ≡ out.old.items ++ written (name_token callee.now ∷ enclosed spell_expr args.now)) }
{
    put_name(out, callee)?;
    put_list(out, args)
}

/// `call name ( list(expr) ) -> ( list(name) ) ;`
#[tactic(auto, using(crate::proofs::Writing::joins))]
fn put_call(
    out: &mut Vec<u8>,
    callee: &Name,
    args: &List<Expr>,
    results: &List<Name>,
) -> Result<(), Memory>
    ensures { OnOk result
        (out.new.items
        ≡ out.old.items ++ written
        (Reserved (codes "call") ∷ name_token callee.now ∷ enclosed spell_expr args.now ++ (arrow ∷ enclosed spell_name results.now ++ semicolon ∷ []))) }
{
    put_word(out, b"call")?;
    put_callee(out, callee, args)?;
    put_sign(out, b"->")?;
    put_list(out, results)?;
    put_sign(out, b";")
}

/// A word, and then `name ( list(expr) ) ;`
#[tactic(auto, using(crate::proofs::Writing::joins))]
pub(crate) fn put_start(
    out: &mut Vec<u8>,
    word: &[u8],
    callee: &Name,
    args: &List<Expr>,
) -> Result<(), Memory>
    ensures { OnOk result
        (out.new.items
        ≡ out.old.items ++ written (Reserved word.now ∷ name_token callee.now ∷ enclosed spell_expr args.now ++ semicolon ∷ [])) }
{
    put_word(out, word)?;
    put_callee(out, callee, args)?;
    put_sign(out, b";")
}

/// `yield expr inv expr`
#[tactic(auto, using(crate::proofs::Writing::joins))]
fn put_yield(out: &mut Vec<u8>, test: &Expr, inv: &Expr) -> Result<(), Memory>
    ensures { OnOk result
        (out.new.items
        ≡ out.old.items ++ written (Reserved (codes "yield") ∷ spell_expr test.now ++ (Reserved (codes "inv") ∷ spell_expr inv.now))) }
{
    put_word(out, b"yield")?;
    put_expr(out, test)?;
    put_word(out, b"inv")?;
    put_expr(out, inv)
}

/// `rank expr by expr inv expr`
#[tactic(auto, using(crate::proofs::Writing::joins))]
fn put_rank(out: &mut Vec<u8>, test: &Expr, rank: &Expr, inv: &Expr) -> Result<(), Memory>
    ensures { OnOk result
        (out.new.items
        ≡ out.old.items ++ written
        (Reserved (codes "rank") ∷ spell_expr test.now ++ (Reserved (codes "by") ∷ spell_expr rank.now ++ (Reserved (codes "inv") ∷ spell_expr inv.now)))) }
{
    put_word(out, b"rank")?;
    put_expr(out, test)?;
    put_word(out, b"by")?;
    put_expr(out, rank)?;
    put_word(out, b"inv")?;
    put_expr(out, inv)
}

/// A statement.
#[cycle(stmt)]
#[tactic(auto, using(crate::proofs::Writing::writing))]
fn put_stmt(out: &mut Vec<u8>, stmt: &Stmt) -> Result<(), Memory>
    ensures { OnOk result (out.new.items ≡ out.old.items ++ written (spell_stmt stmt.now)) }
{
    match stmt {
        Stmt::Assign(target, value) => put_assignment(out, target, value),
        Stmt::Assert(fact) => put_fact(out, b"assert", fact),
        Stmt::If(test, first, second) => {
            put_word(out, b"if")?;
            put_expr(out, test)?;
            put_block(out, first)?;
            put_word(out, b"else")?;
            put_block(out, second)
        }
        Stmt::While(test, body) => {
            put_word(out, b"while")?;
            put_expr(out, test)?;
            put_block(out, body)
        }
        Stmt::YieldLoop(test, inv, body) => {
            put_word(out, b"while")?;
            put_yield(out, test, inv)?;
            put_block(out, body)
        }
        Stmt::RankLoop(test, rank, inv, body) => {
            put_word(out, b"while")?;
            put_rank(out, test, rank, inv)?;
            put_block(out, body)
        }
        Stmt::Call(callee, args, results) => put_call(out, callee, args, results),
        Stmt::Yield(inv) => put_fact(out, b"yield", inv),
        Stmt::Commit => {
            put_word(out, b"commit")?;
            put_sign(out, b";")
        }
        Stmt::Intro(target, value) => {
            put_word(out, b"intro")?;
            put_assignment(out, target, value)
        }
        Stmt::Spawn(callee, args) => put_start(out, b"spawn", callee, args),
    }
}

/// `{ stmt* }`
#[cycle(stmt)]
#[tactic(auto, using(crate::proofs::Writing::writing))]
fn put_block(out: &mut Vec<u8>, stmts: &List<Stmt>) -> Result<(), Memory>
    ensures { OnOk result
        (out.new.items
        ≡ out.old.items ++ (written_token open_brace ++ (written (joined (map spell_stmt stmts.now)) ++ written_token close_brace))) }
{
    put_sign(out, b"{")?;
    put_stmts(out, stmts)?;
    put_sign(out, b"}")
}

/// `stmt*`: a list in a recursion has a loop of its own.
#[cycle(stmt)]
#[tactic(auto, using(crate::proofs::Writing::writing))]
pub(crate) fn put_stmts(out: &mut Vec<u8>, stmts: &List<Stmt>) -> Result<(), Memory>
    ensures { OnOk result (out.new.items ≡ out.old.items ++ written (joined (map spell_stmt stmts.now))) }
{
    for stmt in stmts.as_slice() {
        put_stmt(out, stmt)?;
    }
    Ok(())
}
