//! Laws of the definitions: each is the contract of a function without a body.

ghost use Rattle.std.specs.Prelude.{◌≡◌, ℕ, ◌∷◌, ◌++◌, [], Bool, true, false, List, length, map, take, Some, slice_get, slice_set};
ghost use Rattle.lll_core.specs.declared.lll.Lll.{Lll};
ghost use Rattle.lll_core.specs.Tables.{Instant, Table, GatesHold, IsRun, IsWindow, IsRow, ExactlyOne, AreInputs, input_values, latch_count, latch_values};
ghost use Rattle.lll_core.specs.declared.draft.Draft.{Draft};
ghost use Rattle.lll_core.specs.Drafts.{signals_in, with_next, KeepsDrafts};

/// For each list of inputs there is exactly one run.
pub fn one_run()
    ensures { (l : Lll) (inputs : List (List Bool)) → AreInputs l.signals inputs →
        ExactlyOne (λ g. IsRun l.signals g × (map (input_values l.signals) g ≡ inputs)) }
{}

/// For each list of inputs that isn't empty, and each choice of the latches at its first instant, there is
/// exactly one window.
pub fn one_window()
    ensures { (l : Lll) (first : List Bool) (inputs : List (List Bool)) (latches : List Bool) →
        AreInputs l.signals (first ∷ inputs) → length latches ≡ latch_count l.signals →
        ExactlyOne (λ g. IsWindow l.signals g × (map (input_values l.signals) g ≡ first ∷ inputs)
        × (map (latch_values l.signals) (take 1 g) ≡ latches ∷ [])) }
{}

/// Rows that were written one after the other make a run, and from the second on a window.
pub fn rows_make_tables()
    ensures starts { (l : Lll) (inputs : List Bool) (before now : Instant) →
        IsRow l.signals true inputs before now → IsRun l.signals (now ∷ []) }
    ensures run { (l : Lll) (g : Table) (inputs : List Bool) (before now : Instant) →
        IsRun l.signals (g ++ before ∷ []) → IsRow l.signals false inputs before now →
        IsRun l.signals (g ++ before ∷ now ∷ []) }
    ensures window { (l : Lll) (g : Table) (inputs : List Bool) (before now : Instant) →
        IsWindow l.signals (g ++ before ∷ []) → IsRow l.signals false inputs before now →
        IsWindow l.signals (g ++ before ∷ now ∷ []) }
{}

/// What a builder held keeps its meaning: where the equations of later drafts hold, so do those of earlier
/// ones.
pub fn earlier_gates_hold()
    ensures holds { (old new : List Draft) (now : Instant) →
        KeepsDrafts old new → GatesHold (signals_in new) now → GatesHold (signals_in old) now }
    ensures same { (drafts : List Draft) → KeepsDrafts drafts drafts }
    ensures added { (old more : List Draft) → KeepsDrafts old (old ++ more) }
    ensures next { (old : List Draft) (n next : ℕ) (d : Draft) →
        slice_get old n ≡ Some d → KeepsDrafts old (slice_set old n (with_next next d)) }
    ensures chain { (old later new : List Draft) →
        KeepsDrafts old later → KeepsDrafts later new → KeepsDrafts old new }
{}
