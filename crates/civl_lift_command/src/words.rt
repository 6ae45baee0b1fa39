// The words of the command.
ghost use Rattle.std.specs.Prelude.{◌≡◌, ◌<◌, ◌↔◌, ℕ, List, [], ◌∷◌, codes, length, map, slice_get, string_bytes, IsTrue, Some};
ghost use Rattle.civl_lift_command.specs.Words.{IsAsked, IsBudgetIn};

use civl_words::USUAL_BUDGET;
use itoa::Buffer;

/// The most clauses that a search may be allowed to learn.
const MOST_BUDGET: u32 = 10_000_000;

/// Whether the word at this place is this one.
fn is_word(words: &Vec<String>, at: usize, word: &str) -> bool
    requires { at < length words.now.items }
    ensures { IsTrue result ↔ (slice_get (map string_bytes words.now.items) at ≡ Some word.now) }
{
    words[at].as_str() == word
}

/// The number that a word writes in decimal without leading zeros, if it is a budget.
fn budget_in(word: &str) -> Option<u32>
    ensures { IsBudgetIn word.now result }
{
    let Ok(number) = word.parse::<u32>() else {
        return None;
    };
    if number > MOST_BUDGET {
        return None;
    }
    let mut buffer = Buffer::new();
    if buffer.format(number) == word {
        Some(number)
    } else {
        None
    }
}

/// Whether the words ask for lifting with the usual budget.
fn ask_usually(words: &Vec<String>) -> bool
    ensures { IsTrue result ↔ (map string_bytes words.now.items ≡ codes "lift" ∷ []) }
{
    words.len() == 1 && is_word(words, 0, "lift")
}

/// Whether there is a word behind `lift` and `--budget`, and none behind that.
fn ask_with_budget(words: &Vec<String>) -> bool
    ensures { IsTrue result ↔ ((number : List ℕ) × (map string_bytes words.now.items ≡ codes "lift" ∷ codes "--budget" ∷ number ∷ [])) }
{
    words.len() == 3 && is_word(words, 0, "lift") && is_word(words, 1, "--budget")
}

/// The budget that the words give, where they ask for lifting: the usual one if they don't say it.
pub(crate) fn budget_of(words: &Vec<String>) -> Option<u32>
    ensures { IsAsked (map string_bytes words.now.items) result }
{
    if ask_usually(words) {
        return Some(USUAL_BUDGET);
    }
    if !ask_with_budget(words) {
        return None;
    }
    budget_in(words[2].as_str())
}
