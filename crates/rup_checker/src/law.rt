//! What the definitions mean. Each law is a function with an empty body.

ghost use Rattle.std.specs.Prelude.{◌≡◌, ◌↔◌, ◌⊎◌, ℕ, ℤ, List, true, length, All, Any};
ghost use Rattle.rup_checker.specs.declared.fault.StepFault.{StepFault};
ghost use Rattle.rup_checker.specs.declared.log.Step.{Step};
ghost use Rattle.rup_checker.specs.Formulas.{Cnf, IsLiteral, Assignment, truth, Satisfies, IsUnsatisfiable};
ghost use Rattle.rup_checker.specs.Steps.{IsAccepted, IsRefused};
ghost use Rattle.rup_checker.specs.Logs.{known, AreAccepted, Accepts, IsBusy, IsBusyFrom};

/// Every assignment that satisfies the clauses satisfies each accepted step.
pub fn accepted_step_follows()
    ensures { (variables : ℕ) (clauses : List (List ℤ)) (clause : List ℤ) (hints : List ℕ) →
        All (All (IsLiteral variables)) clauses → IsAccepted variables clauses clause hints →
        (v : Assignment) → Satisfies v clauses → Any (λ l. truth v l ≡ true) clause }
{}

/// No assignment satisfies a formula that has an accepted log.
pub fn accepted_log_refutes()
    ensures { (f : Cnf) (steps : List Step) → All (All (IsLiteral f.variables)) f.clauses →
        Accepts f steps → IsUnsatisfiable f }
{}

/// A step that is accepted is refused for no reason.
pub fn accepted_is_not_refused()
    ensures { (variables : ℕ) (clauses : List (List ℤ)) (clause : List ℤ) (hints : List ℕ) (why : StepFault) →
        IsAccepted variables clauses clause hints → ¬ (IsRefused variables clauses clause hints why) }
{}

/// A step is refused for one reason alone.
pub fn one_refusal()
    ensures { (variables : ℕ) (clauses : List (List ℤ)) (clause : List ℤ) (hints : List ℕ) (one other : StepFault) →
        IsRefused variables clauses clause hints one → IsRefused variables clauses clause hints other → one ≡ other }
{}

/// A log whose steps are accepted is busy exactly where their clauses are, among all that are known then.
pub fn busy_by_clauses()
    ensures { (f : Cnf) (steps : List Step) → AreAccepted f steps → IsBusyFrom (known f steps) (length f.clauses) ↔ IsBusy f steps }
{}
