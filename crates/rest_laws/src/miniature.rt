//! The miniature: one slot, and nodes that drop it.

ghost use Rattle.std.specs.Prelude.{◌≡◌, ℕ, List, true, false};
ghost use Rattle.mc_model.specs.message.Decree.{Decree};
ghost use Rattle.mc_model.specs.synod.Lists.{In};
ghost use Rattle.rest_laws.specs.AnswersAgain.{answers_again, one_chain, other_chain};
ghost use Rattle.rest_laws.specs.Miniature.{Act, AreActs, led_by};

/// Whatever nodes stop, note, drop and forget, and whenever: no two chains that are told differ, as long as a node that dropped the message
/// answers nothing about it.
pub fn one_chain_is_told_though_nodes_drop()
    ensures { (nodes : ℕ) (acts : List Act) (one other : List Decree) → AreActs true nodes acts →
        In one (led_by nodes acts).told → In other (led_by nodes acts).told → one ≡ other }
{}

/// If it answers again, from the record that it has then, two are told: after a majority had decided.
pub fn two_are_told_if_one_answers_again()
    ensures may { AreActs false 3 answers_again }
    ensures first { In one_chain (led_by 3 answers_again).told }
    ensures second { In other_chain (led_by 3 answers_again).told }
{}
