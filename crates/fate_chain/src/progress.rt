//! Whether decrees that are read one after another are a permitted chain.

ghost use Rattle.std.specs.Prelude.{◌≡◌, ◌∷◌, [], ℕ, List, reverse, MatchOption};
ghost use Rattle.mc_model.specs.message.Decree.{Decree as DecreeValue};
ghost use Rattle.mc_model.specs.message.Neighbours.{MayBegin};
ghost use Rattle.mc_model.specs.message.Chain.{IsPermitted};
ghost use Rattle.fate_chain.specs.Kinds.{author_of};
ghost use Rattle.fate_chain.specs.Marks.{bare_kind, IsMarkOf, IsProgressOf, IsStandingOf};
ghost use Rattle.fate_chain.specs.declared.marks.Act.TheVariants as acts;

use crate::decree::Decree;
use crate::marks::{Act, Mark, Standing};
use crate::terms::Terms;
use mc_types::MsgId;

/// How far decrees have come towards a permitted chain.
#[derive(Clone, Copy)]
pub enum Progress {
    /// There is none yet.
    Begins,
    /// They are a permitted chain.
    Stands(Standing),
    /// They are none, and no further decree makes them one.
    Fails,
}

impl Progress {
    /// Of decrees on the message of this id, the oldest first.
    pub fn of(id: MsgId, decrees: &[Decree]) -> Progress
        ensures { IsProgressOf id (reverse decrees.now) result }
    {
        let mut progress = Progress::Begins;
        for decree in decrees {
            progress = progress.after(id, decree.mark());
        }
        progress
    }

    /// With one more decree, of this mark, on the message of this id.
    pub fn after(self, id: MsgId, next: Mark) -> Progress
        ensures { (decrees : List DecreeValue) (decree : DecreeValue) →
            IsProgressOf id decrees self → IsMarkOf decree next →
            IsProgressOf id (decree ∷ decrees) result }
    {
        match self {
            Progress::Begins => begun(id, next),
            Progress::Stands(standing) => extended(standing, next),
            Progress::Fails => Progress::Fails,
        }
    }
}

/// With the first decree.
fn begun(id: MsgId, first: Mark) -> Progress
    ensures { (decree : DecreeValue) → IsMarkOf decree first → IsProgressOf id (decree ∷ []) result }
{
    match first_terms(id, &first) {
        Some(terms) => Progress::Stands(Standing {
            terms,
            home: id.node(),
            attempts: 0,
            newest: first,
        }),
        None => Progress::Fails,
    }
}

/// The terms of what is taken by a decree of this mark; none if it may not begin the chain of the id.
fn first_terms(id: MsgId, first: &Mark) -> Option<Terms>
    ensures { MatchOption result
        (MayBegin id (author_of first.now.author) first.now.moment (bare_kind first.now.act) → ⊥)
        (λ terms. MayBegin id (author_of first.now.author) first.now.moment (bare_kind first.now.act)
        × (first.now.act ≡ acts.Taken terms)) }
{
    let Act::Taken(terms) = &first.act else {
        return None;
    };
    if first.author.node != id.node() || first.author.incarnation != id.incarnation() {
        return None;
    }
    terms.may_begin(first.moment).then_some(*terms)
}

/// With one more decree after a permitted chain.
fn extended(standing: Standing, next: Mark) -> Progress
    ensures { (id : ℕ) (decrees : List DecreeValue) (decree : DecreeValue) →
        IsPermitted id decrees → IsStandingOf decrees standing →
        IsMarkOf decree next → IsProgressOf id (decree ∷ decrees) result }
{
    if standing.permits(&next) {
        Progress::Stands(standing.after(next))
    } else {
        Progress::Fails
    }
}
