//! What is looked for in a list.

ghost use Rattle.std.specs.Prelude.{◌≡◌, Bool};

/// A test that the first items of a list pass and the later ones don't: what is looked for begins where it first fails.
pub trait Probe<T> {
    ghost passes: { Self → T → Bool };

    /// Whether the item passes.
    fn passes(&self, item: &T) -> bool
        ensures { result ≡ passes self.now item.now };
}
