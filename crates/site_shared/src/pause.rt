//! What holds a window inside while it looks.

ghost use Rattle.std.specs.Prelude.{Bool};
ghost use Rattle.site_shared.specs.Pauses.{Pauses};

/// How often a pause is polled at most.
const MOST_TURNS: usize = 1_000_000;

/// What a window waits for inside before it looks.
pub trait Pause {
    /// From one state an answer leaves the other. A pause that has nothing to say of that leaves it out.
    ghost turns: { Self → Bool → Self → Type 0 } = { λ before answer after. Unit {0} };

    /// Whether to go on waiting.
    fn held(&mut self) -> bool
        ensures { turns self.old result self.new };
}

/// A pause that doesn't wait.
#[derive(Drop)]
pub(crate) struct AtOnce;

impl Pause for AtOnce {
    fn held(&mut self) -> bool {
        false
    }
}

/// Polls a pause until it returns false, at most 1,000,000 times.
pub(crate) fn hold<P: Pause>(pause: &mut P)
    ensures { Pauses P.turns 1000000 pause.old pause.new }
{
    for _turn in 0..MOST_TURNS {
        if !pause.held() {
            return;
        }
    }
}
