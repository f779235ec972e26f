//! What is done with each value of a shelf.

ghost use Rattle.std.specs.Prelude.{◌≡◌};

/// What is done with each value of a shelf.
pub trait Visit<V> {
    /// What it leaves of a value.
    ghost leaves: { Self → V → V };

    /// Does it with a value.
    fn visit(&self, value: &mut V)
        ensures { value.new ≡ leaves self.now value.old };
}
