//! Laws of the definitions. Each function computes nothing; its clauses are theorems.
ghost use Rattle.std.specs.Prelude.{◌≡◌, ℕ, true};
ghost use Rattle.civl_bits.specs.declared.value.Value.{Value};
ghost use Rattle.civl_bits.specs.declared.value.Value.TheVariants as value;
ghost use Rattle.civl_terms.specs.Graphs.{NodesHaveTheirSorts, value_at};
ghost use Rattle.civl_terms.specs.Weights.{TermsWeighLess, graph_weight, term_weight};
ghost use Rattle.civl_terms.specs.examples.Graphs.{example};

/// Where the variables have values of their sorts, each node has a value of its sort.
pub fn nodes_have_their_sorts()
    ensures { NodesHaveTheirSorts }
{}

/// A term weighs at most what its graph weighs.
pub fn terms_weigh_less()
    ensures { TermsWeighLess }
{}

/// The worked graph of specs/, `Example`: x weighs 8; the square of x + y weighs the two words' 16, the sum's 16, which
/// is counted once, and the product's 128; that x + y is below 3 weighs 16 + 16 + 16, and the constant nothing.
pub fn worked_weights()
    ensures variable { term_weight example 0 ≡ 8 }
    ensures square { term_weight example 3 ≡ 160 }
    ensures below { term_weight example 5 ≡ 48 }
    ensures all { graph_weight example ≡ 176 }
{}

/// The worked graph at 250 and 8: the sum is 2, the square 4, and the sum is below 3.
pub fn worked_values()
    ensures square { (env : ℕ → Value) → env 0 ≡ value.Word (8, 250) → env 1 ≡ value.Word (8, 8) → value_at env example 3 ≡ value.Word (8, 4) }
    ensures below { (env : ℕ → Value) → env 0 ≡ value.Word (8, 250) → env 1 ≡ value.Word (8, 8) → value_at env example 5 ≡ value.Bool true }
{}
