ghost use Rattle.std.specs.Prelude.{◌≡◌, ◌⊎◌, ℕ, List, length};
ghost use Rattle.hll_lexer.specs.Tokens.{Splits, HasFault, AreInOrder, AreTokens};
ghost use Rattle.hll_lexer.specs.declared.token.Token.{Token};
ghost use Rattle.hll_lexer.specs.declared.fault.LexFault.{LexFault};

/// A text is split in one way at most. This is a law, as the others here are: its body is empty.
pub fn one_split()
    ensures { (text : List ℕ) (one other : List Token) → Splits text one → Splits text other → one ≡ other }
{}

/// A text has one first fault at most.
pub fn one_first_fault()
    ensures { (text : List ℕ) (one other : LexFault) → HasFault text one → HasFault text other → one ≡ other }
{}

/// A text is split into tokens or has a first fault, and never both.
pub fn split_or_fault()
    ensures either { (text : List ℕ) → ((ts : List Token) × Splits text ts) ⊎ ((why : LexFault) × HasFault text why) }
    ensures never_both { (text : List ℕ) (ts : List Token) (why : LexFault) → Splits text ts → HasFault text why → ⊥ }
{}

/// The tokens of a text stand in it one behind the other, and the bytes of each are a token of its kind.
pub fn tokens_stand_in_order()
    ensures order { (text : List ℕ) (ts : List Token) → Splits text ts → AreInOrder 0 (length text) ts }
    ensures bytes { (text : List ℕ) (ts : List Token) → Splits text ts → AreTokens text ts }
{}
