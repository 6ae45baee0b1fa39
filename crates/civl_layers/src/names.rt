// What a name stands for.
ghost use Rattle.std.specs.Prelude.{◌≡◌, option_copied};
ghost use Rattle.civl_tree.specs.rules.Names.{has_name, proc_names};
ghost use Rattle.civl_layers.specs.Names.{global_named};

use civl_tree::{Global, Name, Proc, Program};
use civl_types::names::same_name;

/// The global of this name.
pub(crate) fn global_named<'a>(program: &'a Program, name: &Name) -> Option<&'a Global>
    ensures { option_copied result ≡ global_named program.now name.now }
{
    program
        .globals
        .as_slice()
        .iter()
        .find(|global| same_name(name, &global.name))
}

/// Whether one of these procedures has this name.
pub(crate) fn is_among(procs: &[Proc], name: &Name) -> bool
    ensures { result ≡ has_name (proc_names procs.now) name.now }
{
    for proc in procs {
        if same_name(name, &proc.name) {
            return true;
        }
    }
    false
}
