// What hints promise, as laws of the definitions.
ghost use Rattle.std.specs.Prelude.{◌≡◌, ℕ, Bool, true, List};
ghost use Rattle.std.specs.List.{list_all};
ghost use Rattle.mon_value.specs.Same.{IsMatch, is_match};
ghost use Rattle.mon_hints.specs.Hints.{are_among, pattern_excerpts, text_excerpts};
ghost use Rattle.mon_hints.specs.Formulas.{FormulaTree, holds, AreAmong};

/// A formula that holds of some buckets holds of more buckets too.
pub fn formulas_stay_true()
    ensures stays { (tree : FormulaTree) (buckets more : List ℕ)
        → AreAmong buckets more → holds tree buckets ≡ true → holds tree more ≡ true }
{}

/// The excerpts of a pattern are among those of every text that it matches, so whatever passes for all of these
/// passes for all of the pattern's.
pub fn patterns_are_in_texts()
    ensures among { (pieces : List (List ℕ)) (text : List ℕ) → IsMatch pieces text
        → are_among (pattern_excerpts pieces) (text_excerpts text) ≡ true }
    ensures passing { (pieces : List (List ℕ)) (text : List ℕ) (test : List ℕ → Bool) → IsMatch pieces text
        → list_all test (text_excerpts text) ≡ true → list_all test (pattern_excerpts pieces) ≡ true }
    ensures computed { (pieces : List (List ℕ)) (text : List ℕ) (test : List ℕ → Bool) → is_match pieces text ≡ true
        → list_all test (text_excerpts text) ≡ true → list_all test (pattern_excerpts pieces) ≡ true }
{}
