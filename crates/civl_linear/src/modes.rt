// Modes of parameters and outputs.
ghost use Rattle.std.specs.Prelude.{◌≡◌};
ghost use Rattle.civl_linear.specs.Modes.{is_passed, is_taken, is_lent, is_given};
ghost use Rattle.civl_linear.specs.inner.Wants.{wants};

use civl_tree::Mode;

/// Which parameters are looked at: those for which a linear value is handed in, or those whose value isn't handed back.
#[derive(Clone, Copy)]
pub(crate) enum Want {
    Passed,
    Taken,
}

/// Whether a linear value is handed in.
pub(crate) fn is_passed(mode: Mode) -> bool
    ensures { result ≡ is_passed mode }
{
    match mode {
        Mode::Lend | Mode::Take => true,
        Mode::Val | Mode::Give => false,
    }
}

/// Whether a linear value is handed in, and not handed back.
pub(crate) fn is_taken(mode: Mode) -> bool
    ensures { result ≡ is_taken mode }
{
    match mode {
        Mode::Take => true,
        Mode::Val | Mode::Lend | Mode::Give => false,
    }
}

/// Whether a linear value is handed in, and handed back.
pub fn is_lent(mode: Mode) -> bool
    ensures { result ≡ is_lent mode }
{
    match mode {
        Mode::Lend => true,
        Mode::Val | Mode::Take | Mode::Give => false,
    }
}

/// Whether a linear value is handed out.
pub fn is_given(mode: Mode) -> bool
    ensures { result ≡ is_given mode }
{
    match mode {
        Mode::Give => true,
        Mode::Val | Mode::Lend | Mode::Take => false,
    }
}

/// Whether a parameter of this mode is looked at.
pub(crate) fn wants(want: Want, mode: Mode) -> bool
    ensures { result ≡ wants want mode }
{
    match want {
        Want::Passed => is_passed(mode),
        Want::Taken => is_taken(mode),
    }
}
