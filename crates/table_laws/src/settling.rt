//! How a settle goes on, and that it has one end: what a loop that delivers packet after packet needs.

ghost use Rattle.std.specs.Prelude.{◌≡◌, ℕ, ◌+◌, ◌≤◌, []};
ghost use Rattle.mc_model.specs.node.Setup.{Setup};
ghost use Rattle.table_laws.specs.Settling.{Settling, delivered, first_delivered};

/// One more delivery is that of the first packet that is left.
pub fn a_settle_goes_on()
    ensures { (setup : Setup) (s : Settling) (n : ℕ) →
        delivered setup (n + 1) s ≡ first_delivered setup (delivered setup n s) (delivered setup n s).packets }
{}

/// Once no packet is left, nothing more is delivered: what is so after some deliveries is so after any greater number of them.
pub fn a_settle_ends()
    ensures { (setup : Setup) (s : Settling) (n : ℕ) → (delivered setup n s).packets ≡ [] → (m : ℕ) → n ≤ m →
        delivered setup m s ≡ delivered setup n s }
{}

/// So whenever no packet is left, it has come to the same end.
pub fn a_settle_has_one_end()
    ensures { (setup : Setup) (s : Settling) (n m : ℕ) → (delivered setup n s).packets ≡ [] → (delivered setup m s).packets ≡ [] →
        delivered setup n s ≡ delivered setup m s }
{}
