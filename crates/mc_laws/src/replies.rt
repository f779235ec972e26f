//! What a request is answered that comes after others were.

ghost use Rattle.std.specs.Prelude.{◌≡◌, ◌∷◌, ◌++◌, ℕ, List, Option, Some};
ghost use Rattle.mc_model.specs.message.Decree.{Decree, Final};
ghost use Rattle.mc_model.specs.message.Chain.{final_in};
ghost use Rattle.mc_model.specs.synod.Lists.{In};
ghost use Rattle.mc_model.specs.synod.Majority.{Majority};
ghost use Rattle.mc_model.specs.synod.OneSlot.{Vote};
ghost use Rattle.mc_model.specs.synod.Packet.{Slot, Tell, TopVote};
ghost use Rattle.mc_model.specs.node.Actor.{Request, id_in};
ghost use Rattle.mc_model.specs.node.Settling.{HasTold, IsSettled, Covers, MeetsVote};
ghost use Rattle.mc_model.specs.node.Replies.{Accepted, Shown, Unknown};
ghost use Rattle.mc_model.specs.node.Act.{Act, Begins, Replies};
ghost use Rattle.mc_model.specs.cluster.World.{Deed, Run, cast, IsChosenIn, IsRun, past_of, reached, start};
ghost use Rattle.mc_model.specs.cluster.Steps.{StepRun, world_after};
ghost use Rattle.mc_model.specs.cluster.Fate.{States};

/// A query_sm that comes after a statement of a final state of its message, and is answered ESME_ROK, is told that state; and a
/// request that comes after ESME_ROK to the submit_sm of its message is never answered that there is no such message. The deeds
/// stand with the newest first: the reply, some others, the request with its ticket, and what was before it.
pub fn answers_are_fresh()
    ensures told { (run : Run) (newer : List Deed) (replying : Deed) (middle : List Deed) (beginning : Deed) (older : List Deed)
        (ticket : ℕ) (request : Request) (id : ℕ) (chain : List Decree) (stating : Deed) (final : Final) →
        past_of run ≡ newer ++ replying ∷ (middle ++ beginning ∷ older) →
        beginning.act ≡ Begins ticket request →
        replying ≡ record beginning { act = Replies ticket id (Shown chain) } →
        In stating older → States stating (id_in request) final → final_in chain ≡ Some final }
    ensures known { (run : Run) (newer : List Deed) (replying : Deed) (middle : List Deed) (beginning : Deed) (older : List Deed)
        (ticket : ℕ) (request : Request) (id : ℕ) (accepting : Deed) (taken : ℕ) →
        past_of run ≡ newer ++ replying ∷ (middle ++ beginning ∷ older) →
        beginning.act ≡ Begins ticket request →
        replying ≡ record beginning { act = Replies ticket id Unknown } →
        In accepting older → accepting.act ≡ Replies taken (id_in request) Accepted → ⊥ }
{}

/// The same over every list of steps.
pub fn answers_are_fresh_over_steps()
    ensures told { (run : StepRun) (newer : List Deed) (replying : Deed) (middle : List Deed) (beginning : Deed)
        (older : List Deed) (ticket : ℕ) (request : Request) (id : ℕ) (chain : List Decree) (stating : Deed) (final : Final) →
        (world_after run).past ≡ newer ++ replying ∷ (middle ++ beginning ∷ older) →
        beginning.act ≡ Begins ticket request →
        replying ≡ record beginning { act = Replies ticket id (Shown chain) } →
        In stating older → States stating (id_in request) final → final_in chain ≡ Some final }
    ensures known { (run : StepRun) (newer : List Deed) (replying : Deed) (middle : List Deed) (beginning : Deed)
        (older : List Deed) (ticket : ℕ) (request : Request) (id : ℕ) (accepting : Deed) (taken : ℕ) →
        (world_after run).past ≡ newer ++ replying ∷ (middle ++ beginning ∷ older) →
        beginning.act ≡ Begins ticket request →
        replying ≡ record beginning { act = Replies ticket id Unknown } →
        In accepting older → accepting.act ≡ Replies taken (id_in request) Accepted → ⊥ }
{}

/// Once a majority has told what it has, a request covers every choice that was made before it came.
pub fn a_settling_majority_has_seen_every_choice()
    ensures { (nodes : ℕ) (serials : ℕ → ℕ) (later : List (ℕ × Act)) (node ticket : ℕ) (request : Request) (earlier : List (ℕ
        × Act)) (slot : Slot) (vote : Vote) (known : Option (List Decree)) →
        IsRun (start nodes serials) (later ++ (node, Begins ticket request) ∷ earlier) →
        ((reached (start nodes serials) (later ++ (node, Begins ticket request) ∷ earlier)).actors node).incarnation ≡ ((reached
        (start nodes serials) earlier).actors node).incarnation →
        IsChosenIn (reached (start nodes serials) earlier) slot vote → slot.id ≡ id_in request →
        IsSettled nodes ((reached (start nodes serials) (later ++ (node, Begins ticket request) ∷ earlier)).actors node).received
        (record {
          node = node;
          incarnation = ((reached
              (start nodes serials) earlier).actors node).incarnation;
          ticket = ticket;
        }) known →
        Covers known slot.place }
{}

/// No Tell to the questions of a request was made before it came.
pub fn tells_follow_their_question()
    ensures { (nodes : ℕ) (serials : ℕ → ℕ) (node ticket : ℕ) (request : Request) (earlier : List (ℕ × Act)) →
        IsRun (start nodes serials) ((node, Begins ticket request) ∷ earlier) → (teller : ℕ) (told : Option TopVote) →
        In (Tell teller (record {
          node = node;
          incarnation = ((reached
              (start nodes serials) earlier).actors node).incarnation;
          ticket = ticket;
        }) told) (reached
        (start nodes serials) earlier).packets → ⊥ }
{}

/// A majority that tells of a request meets every choice that was made before it came: one of its nodes had voted for what was
/// chosen, and tells of that place or of a higher one.
pub fn tellers_meet_a_choice()
    ensures { (nodes : ℕ) (serials : ℕ → ℕ) (later : List (ℕ × Act)) (node ticket : ℕ) (request : Request) (earlier : List (ℕ
        × Act)) (slot : Slot) (vote : Vote) →
        IsRun (start nodes serials) (later ++ (node, Begins ticket request) ∷ earlier) →
        IsChosenIn (reached (start nodes serials) earlier) slot vote → slot.id ≡ id_in request →
        Majority nodes (HasTold ((reached (start nodes serials) (later ++ (node, Begins ticket request)
        ∷ earlier)).actors node).received (record {
          node = node;
          incarnation = ((reached
              (start nodes serials) earlier).actors node).incarnation;
          ticket = ticket;
        })) →
        MeetsVote ((reached (start nodes serials) (later ++ (node, Begins ticket request) ∷ earlier)).actors node).received
        (λ teller. In (cast teller slot vote) (reached (start nodes serials) earlier).votes)
        (record {
          node = node;
          incarnation = ((reached
              (start nodes serials) earlier).actors node).incarnation;
          ticket = ticket;
        }) slot.place }
{}
