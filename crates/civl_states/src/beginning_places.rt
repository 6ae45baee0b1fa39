// At which numbers the variables of a path's beginning stand.
ghost use Rattle.std.specs.Prelude.{◌≡◌, ◌≤◌, ◌+◌, length};
ghost use Rattle.civl_conditions.specs.Values.{layout, where_so, count_of};
ghost use Rattle.civl_conditions.specs.paths.Seen.{exists_near};
ghost use Rattle.civl_conditions.specs.paths.Ends.{is_entry, is_rank_loop};
ghost use Rattle.civl_states.specs.Laying.{AreLaid};

use crate::stores::{Existing, existing_count};
use civl_conditions::paths::{is_entry, is_rank_loop};
use civl_layers::Cut;
use civl_tree::{Proc, Program};

/// The numbers from which on the variables of each group stand: the old globals, the parameters, the outputs and locals, the old
/// outputs, `done`, the old `done`, and the choices of calls. The globals stand from 0 on.
#[derive(Clone, Copy)]
pub(crate) struct Places {
    pub old: u32,
    pub params: u32,
    pub rest: u32,
    pub old_outs: u32,
    pub done: u32,
    pub old_done: u32,
    pub calls: u32,
}

/// So many, where the test is true.
fn where_so(test: bool, count: u32) -> u32
    ensures is { result ≡ where_so test count }
    ensures most { result ≤ count }
{
    if test { count } else { 0 }
}

/// How many globals the two layers of a step have.
fn near_count(program: &Program, step: u32) -> u32
    requires { length program.now.globals ≤ 64 }
    ensures count { result ≡ count_of (exists_near step) program.now }
    ensures most { result ≤ 64 }
{
    existing_count(program, Existing::Near(step)) as u32
}

/// The numbers at which the variables of the paths from a cut stand.
pub(crate) fn places_of(program: &Program, step: u32, proc: &Proc, cut: Cut) -> Places
    requires globals { length program.now.globals ≤ 64 }
    requires few { length proc.now.params + length proc.now.outs + length proc.now.locals ≤ 32 }
    ensures { AreLaid result (layout program.now step proc.now cut) }
{
    let near = near_count(program, step);
    let outs = proc.outs.len() as u32;
    let inner = outs + proc.locals.len() as u32;
    let inside = !is_entry(cut.kind);
    let again = is_rank_loop(cut.kind);
    let params = near + where_so(again, near);
    let rest = params + proc.params.len() as u32;
    let old_outs = rest + where_so(inside, inner);
    let done = old_outs + where_so(again, outs);
    let old_done = done + where_so(inside, 1);
    Places {
        old: near,
        params,
        rest,
        old_outs,
        done,
        old_done,
        calls: old_done + where_so(again, 1),
    }
}
