// How names are told.
ghost use Rattle.std.specs.Prelude.{◌≡◌, ◌++◌, OnOk};
ghost use Rattle.civl_tree.specs.rules.Names.{global_names, has_name};
ghost use Rattle.civl_lines.specs.Pieces.{as_written, name_text, of_other};
ghost use Rattle.civl_lines.specs.inner.Named.{told};

use civl_tree::{Global, Memory, Name};
use civl_verdicts::reports::put;

/// How names are told: those of these globals as they are, and all others with a front.
#[derive(Clone, Copy)]
pub struct Naming<'a> {
    pub globals: &'a [Global],
    pub front: &'a [u8],
}

/// Each name as it stands in the text.
pub fn as_written() -> Naming<'static>
    ensures { told result ≡ as_written }
{
    Naming {
        globals: &[],
        front: &[],
    }
}

/// The names of another thread as a report has them: those of the globals as they are, and all others with `other.`.
pub fn of_other(globals: &[Global]) -> Naming<'_>
    ensures { told result ≡ of_other globals.now }
{
    Naming {
        globals,
        front: b"other.",
    }
}

/// Whether a global has this name.
fn is_global(globals: &[Global], name: &Name) -> bool
    ensures { result ≡ has_name (global_names globals.now) name.now }
{
    for global in globals {
        if name.as_slice() == global.name.as_slice() {
            return true;
        }
    }
    false
}

/// Puts a name as it is told behind what is there.
pub(crate) fn put_name(out: &mut Vec<u8>, naming: &Naming<'_>, name: &Name) -> Result<(), Memory>
    ensures { OnOk result (out.new.items ≡ out.old.items ++ name_text (told naming.now) name.now) }
{
    if is_global(naming.globals, name) {
        return put(out, name.as_slice());
    }
    put(out, naming.front)?;
    put(out, name.as_slice())
}
