//! The laws of the text. Each function's body is empty: its clause is the law.

ghost use Rattle.std.specs.Prelude.{◌≡◌, ℕ, ℤ, List};
ghost use Rattle.hll_tree.specs.declared.tree.HllModel.{HllModel};
ghost use Rattle.hll_meaning.specs.StaticRules.{Well};
ghost use Rattle.trace_text.specs.declared.fault.TraceKind.{TraceKind};
ghost use Rattle.hll_meaning.specs.Texts.{HasText};
ghost use Rattle.trace_text.specs.Faults.{IsFaultAt, IsReadable};
ghost use Rattle.trace_text.specs.Traces.{Spells};

/// Each value of a cell of a text can be read again where it is written.
pub fn spelled_texts_are_readable()
    ensures { (m : HllModel) → HasText m → Well m → IsReadable m }
{}

/// A text spells at most one trace.
pub fn one_trace()
    ensures { (m : HllModel) (text : List ℕ) (rows others : List (List ℤ)) →
        HasText m → Well m → Spells m text rows → Spells m text others → rows ≡ others }
{}

/// A text that spells a trace has no fault.
pub fn fault_spells_nothing()
    ensures { (m : HllModel) (text : List ℕ) (rows : List (List ℤ)) (line : ℕ) (kind : TraceKind) →
        HasText m → Well m → IsFaultAt m text line kind → Spells m text rows → ⊥ }
{}

/// A text has at most one fault.
pub fn one_fault()
    ensures { (m : HllModel) (text : List ℕ) (line other : ℕ) (kind other_kind : TraceKind) →
        HasText m → Well m → IsFaultAt m text line kind → IsFaultAt m text other other_kind → (line ≡ other) × (kind ≡ other_kind) }
{}
