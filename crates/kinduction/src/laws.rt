//! What the answers mean for runs. Each law is a function with an empty body.

ghost use Rattle.std.specs.Prelude.{ℕ, ◌<◌, Bool, List, length};
ghost use Rattle.lll_core.specs.declared.lll.Lll.{Lll};
ghost use Rattle.miter.specs.declared.parts.MiterLll.{MiterLll};
ghost use Rattle.rup_checker.specs.declared.log.Log.{Log};
ghost use Rattle.kinduction.specs.Parts.{ShowParts, IsShown};
ghost use Rattle.kinduction.specs.Rounds.{IsProof, IsProved, IsBreak, IsFalsified};
ghost use Rattle.kinduction.specs.Runs.{Holds, AreShortest, PartsStay};
ghost use Rattle.kinduction.specs.Sizes.{IsSmall, RoundsFit, HasFewParts, PartsFit};

/// An obligation that is proved holds in every run.
pub fn proofs_hold()
    ensures logs { (l : Lll) (p k : ℕ) (bases : List Log) (step : Log) →
        p < length l.obligations → IsProof l p k bases step → Holds l p }
    ensures answers { (l : Lll) (p depth budget k : ℕ) (bases : List Log) (step : Log) →
        p < length l.obligations → IsProved l p depth budget k bases step → Holds l p }
{}

/// The bits of an obligation that is falsified are the inputs of a shortest run that breaks it.
pub fn breaks_are_shortest()
    ensures logs { (l : Lll) (p : ℕ) (bits : List (List Bool)) (bases : List Log) →
        p < length l.obligations → IsBreak l p bits bases → AreShortest l p bits }
    ensures answers { (l : Lll) (p depth budget : ℕ) (bits : List (List Bool)) (bases : List Log) →
        p < length l.obligations → IsFalsified l p depth budget bits bases → AreShortest l p bits }
{}

/// Parts that are shown are true as long as assume is.
pub fn shown_parts_stay()
    ensures logs { (m : MiterLll) (logs : List Log) → ShowParts m logs → PartsStay m }
    ensures answers { (m : MiterLll) (budget : ℕ) (logs : List Log) → IsShown m budget logs → PartsStay m }
{}

/// The formulas of models that are small enough can be searched.
pub fn small_models_fit()
    ensures rounds { (l : Lll) (p depth : ℕ) → IsSmall l depth → RoundsFit l p depth }
    ensures parts { (m : MiterLll) → HasFewParts m → PartsFit m }
{}
