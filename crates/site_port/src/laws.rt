//! What holds of a plain site, over the definitions alone.

ghost use Rattle.std.specs.Prelude.{◌≡◌};
ghost use Rattle.site_port.specs.OwnSite.{OwnGives, OwnState};
ghost use Rattle.site_port.specs.Ports.{Call, IsGiven, IsLook, Reply};

use ready_core::verdicts_are_unique;

/// A law: a plain site gives one reply to a call that only looks, where it gives one, and such a call leaves it as it
/// was.
pub fn own_replies_are_one()
    ensures { (old new other : OwnState) → (call : Call) → (reply again : Reply) → IsLook call → IsGiven reply
        → IsGiven again
        → OwnGives old call reply new → OwnGives old call again other → (reply ≡ again) × (new ≡ old) × (other ≡ old) }
{
    verdicts_are_unique();
}
