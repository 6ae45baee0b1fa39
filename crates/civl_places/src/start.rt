// The token at which a statement begins.
ghost use Rattle.std.specs.Prelude.{◌≡◌, ◌+◌, ◌<◌, ◌^◌, IfSome, length, slice_get};
ghost use Rattle.civl_tree.specs.SpellingProgram.{spell_proc, spell_program};
ghost use Rattle.civl_places.specs.Starts.{proc_starts, statement_start};

use crate::declaration::head_count;
use crate::item::{procs_start, walk_each};
use crate::statement::stmts_count;
use crate::walk::{Walk, walk_stmts};
use civl_tree::{Proc, Program};

/// A statement or the exit of a procedure that begins at this token.
#[tactic(auto, using(crate::proofs::Counts::counts))]
fn start_in(proc: &Proc, start: usize, statement: usize) -> Option<usize>
    requires { start + length (spell_proc proc.now) < 2 ^ 64 }
    ensures { result ≡ slice_get (proc_starts start proc.now) statement }
{
    let first = start + head_count(proc);
    match walk_stmts(&proc.body, statement, first) {
        Walk::Found(token) => Some(token),
        Walk::Left(left) => {
            if left == 0 {
                Some(first + stmts_count(&proc.body))
            } else {
                None
            }
        }
    }
}

/// The token, counted from 0, at which a statement begins, in the spelling of the program; `None` exactly where there
/// is no such statement. The procedure is named by its place among the procedures, from 0, the statement by its
/// number. The number behind that of the last statement names the exit, which is the brace that closes the procedure.
pub fn statement_token(program: &Program, proc: usize, statement: usize) -> Option<usize>
    requires { length (spell_program program.now) < 2 ^ 64 }
    ensures start { result ≡ statement_start program.now proc statement }
    ensures within { IfSome result (λ token. token < length (spell_program program.now)) }
{
    match walk_each(program.procs.as_slice(), proc, procs_start(program)) {
        Walk::Found(start) => start_in(program.procs.get(proc), start, statement),
        Walk::Left(_) => None,
    }
}
