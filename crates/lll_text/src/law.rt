//! The laws of the text. Each function's body is empty: its clause is the law.

ghost use Rattle.std.specs.Prelude.{◌≡◌, ◌≤◌, ◌⊎◌, ◌++◌, ℕ, List, Ok, Err};
ghost use Rattle.lll_core.specs.declared.lll.Lll.{Lll};
ghost use Rattle.lll_text.specs.declared.fault.LllFault.TheVariants as fault;
ghost use Rattle.lll_text.specs.declared.fault.LllKind.{LllKind};
ghost use Rattle.lll_text.specs.declared.draft.Draft.{Draft};
ghost use Rattle.lll_text.specs.declared.draft.Stage.TheVariants as stage;
ghost use Rattle.lll_text.specs.Spelling.{spelling};
ghost use Rattle.lll_text.specs.Lines.{IsFaultOf, FirstLines, NextsMayCome, after_lines, line_feeds};

/// No two values have one spelling.
pub fn one_spelling()
    ensures { (l m : Lll) → spelling l ≡ spelling m → l ≡ m }
{}

/// A text has at most one fault.
pub fn one_fault()
    ensures { (text : List ℕ) (line other : ℕ) (kind other_kind : LllKind) →
        IsFaultOf text line kind → IsFaultOf text other other_kind → (line ≡ other) × (kind ≡ other_kind) }
{}

/// A text with a fault spells no value.
pub fn fault_spells_nothing()
    ensures { (text : List ℕ) (line : ℕ) (kind : LllKind) (lll : Lll) →
        IsFaultOf text line kind → text ≡ spelling lll → ⊥ }
{}

/// Each text spells a value or has a fault.
pub fn value_or_fault()
    ensures { (text : List ℕ) →
        ((lll : Lll) × (text ≡ spelling lll)) ⊎ ((line : ℕ) × ((kind : LllKind) × IsFaultOf text line kind)) }
{}

/// What so many lines say is said by the first so many lines of the text, until the last line is read.
pub fn lines_are_counted()
    ensures { (lines : ℕ) (text rest : List ℕ) (draft : Draft) →
        after_lines lines text ≡ Ok (draft, rest) → (draft.stage ≡ stage.End → ⊥) → FirstLines lines text rest }
{}

/// Which of the first lines of a text is wrong, and how, does not hang on what follows them.
pub fn fault_hangs_on_its_lines()
    ensures { (front rest other : List ℕ) (lines line : ℕ) (kind : LllKind) →
        lines ≤ line_feeds front → after_lines lines (front ++ rest) ≡ Err (fault.Fault line kind) → after_lines lines (front ++ other) ≡ Err (fault.Fault line kind) }
{}

/// Lines that are read are the first lines of some value's spelling. Whether a latch's next names a
/// signal is judged only where the signals end, so until then it has to be one that may still come.
pub fn lines_go_on()
    ensures { (lines : ℕ) (text rest : List ℕ) (draft : Draft) →
        after_lines lines text ≡ Ok (draft, rest) → (draft.stage ≡ stage.Signals → NextsMayCome draft.signals) →
        (front : List ℕ) × ((more : List ℕ) × ((lll : Lll) × ((text ≡ front ++ rest) × (spelling lll ≡ front ++ more)))) }
{}
