// What a rule asks of statements.
ghost use Rattle.std.specs.Prelude.{Bool, ◌≡◌, ◌<◌, ◌^◌, map, length};
ghost use Rattle.civl_tree.specs.declared.stmt.Stmt.{Stmt};
ghost use Rattle.civl_tree.specs.rules.Rules.{first_of};
ghost use Rattle.civl_names.specs.walks.Walks.{numbers_with};

use civl_tree::Stmt;

/// What a rule asks of a statement by itself.
pub trait Test {
    ghost breaks: { Self → Stmt → Bool };

    /// Whether the statement breaks the rule.
    fn breaks(&self, stmt: &Stmt) -> bool
        ensures { result ≡ breaks self.now stmt.now };
}

/// What a rule asks of a statement and of a note, which says what is known of it.
pub trait NoteTest<N> {
    ghost breaks_with: { Self → Stmt → N → Bool };

    /// Whether the statement with this note breaks the rule.
    fn breaks_with(&self, stmt: &Stmt, note: &N) -> bool
        ensures { result ≡ breaks_with self.now stmt.now note.now };
}

/// The number of the first of these statements that breaks a rule with its note. A statement without a note breaks none.
/// There are fewer than 2^32 statements.
pub fn first_with<N, R: NoteTest<N>>(rule: &R, flat: &[&Stmt], notes: &[N]) -> Option<u32>
    requires { length flat.now < 2 ^ 32 }
    ensures { result ≡ first_of (numbers_with (R.breaks_with rule.now) 0 (map (λ stmt. stmt.now) flat.now) notes.now) }
{
    for (number, stmt) in flat.iter().enumerate() {
        match notes.get(number) {
            Some(note) => {
                if rule.breaks_with(stmt, note) {
                    return Some(number as u32);
                }
            }
            None => return None,
        }
    }
    None
}
