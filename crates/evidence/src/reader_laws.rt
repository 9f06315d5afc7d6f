//! Laws of the first wrong line. Each law is a function with an empty body.

ghost use Rattle.std.specs.Prelude.{◌≡◌, ◌⊎◌, ◌-◌, ℕ, List};
ghost use Rattle.evidence.specs.declared.evidence.Evidence.{Evidence};
ghost use Rattle.evidence.specs.Counts.{IsTextOf};
ghost use Rattle.evidence.specs.Reading.{BeginsText, IsFirstInModel, IsFormAt};

/// A text with a wrong line is the text of no value.
pub fn form_spells_nothing()
    ensures { (bytes : List ℕ) (line : ℕ) (e : Evidence) → IsFormAt bytes line → IsTextOf bytes e → ⊥ }
{}

/// A text has at most one first wrong line.
pub fn one_form()
    ensures { (bytes : List ℕ) (line other : ℕ) → IsFormAt bytes line → IsFormAt bytes other → line ≡ other }
{}

/// Each text is that of a value, or has a first wrong line.
pub fn value_or_form()
    ensures { (bytes : List ℕ) → ((e : Evidence) × IsTextOf bytes e) ⊎ ((line : ℕ) × IsFormAt bytes line) }
{}

/// Outside a model the lines before the first wrong one are the first lines of some value's text, and with it of none.
pub fn lines_before_form_go_on()
    ensures before { (bytes : List ℕ) (line : ℕ) → IsFormAt bytes line → ((other : ℕ) → IsFirstInModel bytes other → ⊥) → BeginsText (line - 1) bytes }
    ensures after { (bytes : List ℕ) (line : ℕ) → IsFormAt bytes line → ((other : ℕ) → IsFirstInModel bytes other → ⊥) → BeginsText line bytes → ⊥ }
{}
