//! The clock that is read before each line.

ghost use Rattle.std.specs.Prelude.{ℤ, Option, option_map};

use jiff::Timestamp;
use std::time::Clock;

/// A clock that is read before each line.
pub trait Moments {
    /// From one state it is read so, in nanoseconds since 1970, and left in the other; none where it can't be read.
    ghost reads: { Self → Option ℤ → Self → Type 0 };

    /// What time it is.
    fn moment(&mut self) -> Option<Timestamp>
        ensures { reads self.old (option_map (λ moment. moment.nanosecond) result) self.new };
}

/// The system's clock, or none.
#[derive(Drop)]
pub struct SystemMoments<R> {
    rt: R,
    is_read: bool,
}

impl<R: Clock> SystemMoments<R> {
    /// The system's clock, which is read or not.
    pub fn new(rt: R, is_read: bool) -> SystemMoments<R> {
        SystemMoments { rt, is_read }
    }
}

impl<R: Clock> Moments for SystemMoments<R> {
    ghost use Rattle.std.specs.Prelude.{◌≡◌, None, false};

    ghost reads = { λ old moment new. (new ≡ old) × (old.is_read ≡ false → moment ≡ None) };

    fn moment(&mut self) -> Option<Timestamp> {
        if self.is_read {
            Timestamp::now(&self.rt).ok()
        } else {
            None
        }
    }
}
