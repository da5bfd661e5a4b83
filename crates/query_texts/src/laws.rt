// Texts go by the trees that spell them.
ghost use Rattle.std.specs.Prelude.{ℕ, List};
ghost use Rattle.query_texts.specs.TextTypes.{GoesByTree, HasNoTree, IsAlwaysRefused};

/// A text comes to what the tree that spells it does; one that no tree spells is refused for its fault.
pub fn texts_go_by_their_trees()
    ensures spelled { (text : List ℕ) → GoesByTree text }
    ensures unspelled { (text : List ℕ) → HasNoTree text → IsAlwaysRefused text }
{}
