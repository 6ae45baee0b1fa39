// Whether something is done where a path begins.
ghost use Rattle.std.specs.Prelude.{◌≡◌, drop, length};
ghost use Rattle.civl_conditions.specs.Targets.{frame_size};
ghost use Rattle.civl_conditions.specs.Values.{begun, count_of, flag_at};
ghost use Rattle.civl_conditions.specs.paths.Seen.{exists_near};

use civl_assumed::frames::behind_frame;
use civl_assumed::stores::{Among, behind_globals};
use civl_bits::Value;
use civl_firing::values::is_true;
use civl_layers::{Cut, CutKind};
use civl_meaning::slices::behind;
use civl_tree::{Proc, Program};

/// The first value is the bool true.
fn flag(values: &[Value]) -> bool
    ensures { result ≡ flag_at values.now 0 }
{
    if values.is_empty() {
        return false;
    }
    is_true(values[0])
}

/// `done` at a yield or a yield loop: behind the values of the globals and of the frame.
fn done_at_yield(program: &Program, step: u32, proc: &Proc, values: &[Value]) -> bool
    ensures { result ≡ flag_at (drop (frame_size proc.now) (drop (count_of (exists_near step) program.now) values.now)) 0 }
{
    let rest = behind_globals(Among::Step(step), program, values);
    flag(behind_frame(proc, rest))
}

/// Old `done` at a rank loop: behind the values of the globals, the old globals, the frame, the old outputs and `done`.
fn old_done_at_rank(program: &Program, step: u32, proc: &Proc, values: &[Value]) -> bool
    ensures { result ≡ flag_at (drop 1 (drop (length proc.now.outs) (drop (frame_size proc.now)
        (drop (count_of (exists_near step) program.now) (drop (count_of (exists_near step) program.now) values.now))))) 0 }
{
    let among = Among::Step(step);
    let rest = behind_globals(among, program, behind_globals(among, program, values));
    let flags = behind(behind_frame(proc, rest), proc.outs.len());
    flag(behind(flags, 1))
}

/// Old `done` where a path begins, as the values of its condition give it.
pub(crate) fn old_done(
    program: &Program,
    step: u32,
    proc: &Proc,
    cut: Cut,
    values: &[Value],
) -> bool
    ensures { result ≡ (begun program.now step proc.now cut values.now).old_done }
{
    match cut.kind {
        CutKind::Entry => false,
        CutKind::Yield => done_at_yield(program, step, proc, values),
        CutKind::YieldLoop => done_at_yield(program, step, proc, values),
        CutKind::RankLoop => old_done_at_rank(program, step, proc, values),
    }
}
