//! What is published: a replica, with the prefix of publishes that it has.

ghost use Rattle.std.specs.Prelude.{◌≡◌, IfOk};
ghost use Rattle.std.specs.Arc.{arc_value};
ghost use Rattle.site_shared.specs.Publishes.{arrive};

use crate::law::{Law, Member};
use crate::sight::Sight;
use left_right::Absorb;
use logbook::Seen;
use replica_core::Replica;
use std::alloc::AllocError;
use std::sync::Arc;

/// A replica that has the publishes of a sight, in their order.
#[derive(Drop)]
pub struct Shown {
    pub replica: Arc<Replica>,
    pub sight: Sight,
    ghost arrived: { arc_value replica ≡ arrive sight.seen.log },
}

impl Shown {
    /// The same replica and the same sight.
    pub fn again(&self) -> Result<Shown, AllocError>
        ensures { IfOk result (λ shown. shown.sight ≡ self.now.sight) }
    {
        Ok(Shown {
            replica: Arc::try_clone(&self.replica)?,
            sight: self.sight.again(),
        })
    }
}

/// The next replica replaces the present one.
impl Absorb<Shown> for Shown {
    type State = Seen<Member, u64, Law>;

    ghost state = { λ shown. shown.sight.seen };

    ghost applied = { λ seen next. next.sight.seen };

    fn absorb_first(&mut self, operation: &Shown, _other: &Shown) -> Result<(), AllocError> {
        *self = operation.again()?;
        Ok(())
    }
}
