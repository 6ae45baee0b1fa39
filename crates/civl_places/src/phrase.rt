// How many tokens a phrase has, and lists of phrases.
ghost use Rattle.std.specs.Prelude.{◌≡◌, ◌<◌, ◌^◌, length, map, List as ListOf};
ghost use Rattle.civl_tree.specs.Token.{Token};
ghost use Rattle.civl_tree.specs.Spelling.{joined, enclosed};

use civl_tree::List;

/// A value that a phrase of the grammar spells.
pub(crate) trait Phrase {
    /// Its tokens.
    ghost spell: { Self → ListOf Token };

    /// How many they are.
    fn count(&self) -> usize
        requires { length (spell self.now) < 2 ^ 64 }
        ensures { result ≡ length (spell self.now) };
}

/// `X*`
pub(crate) fn count_each<P: Phrase>(phrases: &[P]) -> usize
    requires { length (joined (map P.spell phrases.now)) < 2 ^ 64 }
    ensures { result ≡ length (joined (map P.spell phrases.now)) }
{
    let mut sum = 0;
    for phrase in phrases {
        sum += phrase.count();
    }
    sum
}

/// `( list(X) )`
pub(crate) fn count_list<P: Phrase>(phrases: &List<P>) -> usize
    requires { length (enclosed P.spell phrases.now) < 2 ^ 64 }
    ensures { result ≡ length (enclosed P.spell phrases.now) }
{
    let items = phrases.as_slice();
    count_each(items) + items.len().saturating_sub(1) + 2
}
