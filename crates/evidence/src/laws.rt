//! Laws of the text, and what accepted evidence means. Each law is a function with an empty body.

ghost use Rattle.std.specs.Prelude.{◌≡◌, ℕ, Bool, List, Some, slice_get};
ghost use Rattle.miter.specs.declared.parts.MiterLll.{MiterLll};
ghost use Rattle.miter.specs.Miters.{IsMiter};
ghost use Rattle.rup_checker.specs.declared.log.Log.{Log};
ghost use Rattle.kinduction.specs.declared.found.Found.TheVariants as found;
ghost use Rattle.kinduction.specs.declared.found.Spot.TheVariants as spot;
ghost use Rattle.kinduction.specs.Runs.{AreShortest};
ghost use Rattle.evidence.specs.declared.evidence.Evidence.{Evidence};
ghost use Rattle.evidence.specs.Counts.{HasText, IsTextOf};
ghost use Rattle.evidence.specs.Accepted.{Accepted};
ghost use Rattle.evidence.specs.declared.fault.Cause.{Cause};
ghost use Rattle.evidence.specs.Refusals.{Fails, FailsFirst};
ghost use Rattle.evidence.specs.Meaning.{HoldsInBoth, HoldsInMiter, BreaksAfter, IsMeant};

/// A text has one value.
pub fn one_value()
    ensures { (bytes : List ℕ) (d e : Evidence) → IsTextOf bytes d → IsTextOf bytes e → d ≡ e }
{}

/// An accepted value fails nowhere.
pub fn accepted_fails_nowhere()
    ensures { (e : Evidence) (line : ℕ) (why : Cause) → Accepted e → Fails e line why → ⊥ }
{}

/// Of all causes of a value one comes first.
pub fn one_first_failure()
    ensures { (e : Evidence) (line other : ℕ) (why reason : Cause) →
        FailsFirst e line why → FailsFirst e other reason → (line ≡ other) × (why ≡ reason) }
{}

/// An obligation that is proved is true in both models, in every run of one beside one of the other, and so in every
/// run of their miter, as long as assume and the constraints of b are.
pub fn proofs_hold_in_both()
    ensures both { (e : Evidence) (p k : ℕ) (bases : List Log) (step : Log) → HasText e → Accepted e →
        slice_get e.entries p ≡ Some (found.Proved k bases step) → HoldsInBoth e.a e.b p }
    ensures miter { (e : Evidence) (p k : ℕ) (bases : List Log) (step : Log) (m : MiterLll) → HasText e → Accepted e →
        slice_get e.entries p ≡ Some (found.Proved k bases step) → IsMiter e.a e.b m → HoldsInMiter e.a e.b m p }
{}

/// The bits of an obligation that is falsified are the inputs of a shortest run of a that breaks it.
pub fn breaks_are_shortest()
    ensures { (e : Evidence) (p : ℕ) (bits : List (List Bool)) (bases : List Log) → HasText e → Accepted e →
        slice_get e.entries p ≡ Some (found.Falsified bits bases) → AreShortest e.a p bits }
{}

/// An obligation that is undecided is broken by no run that is shorter than those that were still to be excluded.
pub fn undecided_ones_break_late()
    ensures depth { (e : Evidence) (p : ℕ) (step_model : List Bool) (bases : List Log) → HasText e → Accepted e →
        slice_get e.entries p ≡ Some (found.Depth step_model bases) → BreaksAfter e.a p e.depth }
    ensures base { (e : Evidence) (p j : ℕ) (log : Log) (bases : List Log) → HasText e → Accepted e →
        slice_get e.entries p ≡ Some (found.Conflicts (spot.Base j) log bases) → BreaksAfter e.a p j }
    ensures step { (e : Evidence) (p k : ℕ) (log : Log) (bases : List Log) → HasText e → Accepted e →
        slice_get e.entries p ≡ Some (found.Conflicts (spot.Step k) log bases) → BreaksAfter e.a p k }
{}

/// What accepted evidence shows of each obligation is so.
pub fn accepted_is_meant()
    ensures { (e : Evidence) → HasText e → Accepted e → IsMeant e }
{}
