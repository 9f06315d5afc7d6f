//! The laws of the grammar. The body of each is empty.

ghost use Rattle.std.specs.Prelude.{◌≡◌, ℕ, List};
ghost use Rattle.hll_lexer.specs.declared.token.Token.{Token};
ghost use Rattle.hll_tree.specs.declared.tree.HllModel.{HllModel};
ghost use Rattle.hll_tree.specs.Prefixes.{IsUnexpected, IsDeep};
ghost use Rattle.hll_tree.specs.Spells.{Spells, SpellsWithin};
ghost use Rattle.hll_grammar.specs.Unread.{AreOrdered};

/// Tokens spell at most one model, however many levels they open: which tree a text has is never a matter of
/// choice.
pub fn one_model()
    ensures { (text : List ℕ) (tokens : List Token) (m n : HllModel) →
        Spells text tokens m → Spells text tokens n → m ≡ n }
{}

/// Tokens that stand in order have one fault at most: no two places at which a text can't go on, no two at which
/// it opens a level too many, and never both.
pub fn one_fault()
    ensures unexpected { (text : List ℕ) (tokens : List Token) (at other : ℕ) →
        IsUnexpected text tokens at → IsUnexpected text tokens other → at ≡ other }
    ensures deep { (text : List ℕ) (tokens : List Token) (at other : ℕ) → AreOrdered text tokens →
        IsDeep text tokens at → IsDeep text tokens other → at ≡ other }
    ensures never_both { (text : List ℕ) (tokens : List Token) (at other : ℕ) → AreOrdered text tokens →
        IsUnexpected text tokens at → IsDeep text tokens other → ⊥ }
{}

/// Where a text can't go on no model is spelled, and where a level too many is opened none within the levels.
pub fn fault_spells_nothing()
    ensures unexpected { (text : List ℕ) (tokens : List Token) (at : ℕ) (m : HllModel) →
        IsUnexpected text tokens at → Spells text tokens m → ⊥ }
    ensures deep { (text : List ℕ) (tokens : List Token) (at : ℕ) (m : HllModel) →
        IsDeep text tokens at → SpellsWithin 200 text tokens m → ⊥ }
{}
