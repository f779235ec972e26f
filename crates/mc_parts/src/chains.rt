//! Chains.

ghost use Rattle.std.specs.Prelude.{◌≡◌, ◌≤◌, ◌∷◌, ◌++◌, ℕ, List, Option, Some, length};
ghost use Rattle.mc_model.specs.message.Submission.{Submission};
ghost use Rattle.mc_model.specs.message.Decree.{Decree, Final, Told};
ghost use Rattle.mc_model.specs.message.Chain.{IsPermitted, MayExtend, final_in, final_by, untold};
ghost use Rattle.mc_parts.specs.Telling.{IsToldBehind, TellsAFate};

/// Nothing follows a fate but its Told. So two chains of a message of which one begins with the other, and which both end in a fate, told or
/// not, are the same but for the Told.
pub fn a_fate_is_the_end()
    ensures end { (taken : Option Submission) (decrees : List Decree) (next : Decree) (final : Final) →
        final_in decrees ≡ Some final → MayExtend taken decrees next → next.kind ≡ Told }
    ensures last { (id : ℕ) (chain more : List Decree) (final : Final) →
        IsPermitted id (more ++ chain) → final_in chain ≡ Some final → IsToldBehind more }
    ensures same { (id : ℕ) (shorter more : List Decree) (final : Final) →
        IsPermitted id (more ++ shorter) → final_in shorter ≡ Some final →
        untold (more ++ shorter) ≡ untold shorter }
{}

/// Nothing follows a Told.
pub fn a_told_is_the_end()
    ensures { (taken : Option Submission) (told : Decree) (older : List Decree) (next : Decree) →
        told.kind ≡ Told → MayExtend taken (told ∷ older) next → ⊥ }
{}

/// A Told stands on a fate of which a receipt was asked, and is of the node that the id names.
pub fn a_told_stands_on_a_fate()
    ensures { (id : ℕ) (told : Decree) (older : List Decree) →
        IsPermitted id (told ∷ older) → told.kind ≡ Told → TellsAFate id told older }
{}

/// The newest decree decides the state of a message; but a Told leaves it as it was.
pub fn newest_decree_says_the_state()
    ensures newest { (newest : Decree) (older : List Decree) → final_in (newest ∷ older) ≡ final_by newest.kind (final_in older) }
    ensures untold { (decrees : List Decree) → final_in (untold decrees) ≡ final_in decrees }
{}

/// A chain has at most 19 decrees: one that takes the message, eight attempts and the failures of them, a fate, and that its receipt is told.
pub fn chains_are_short()
    ensures { (id : ℕ) (decrees : List Decree) → IsPermitted id decrees → length decrees ≤ 19 }
{}
