// How stories are told.

use civl_lines::Form;

/// How stories are told: the form of their lines, and whether what was assumed stands in front of them.
#[derive(Clone, Copy)]
pub struct Manner {
    pub form: Form,
    pub assumed: bool,
}
