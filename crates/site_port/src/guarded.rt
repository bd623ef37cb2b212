//! A sink behind a guard.

ghost use Rattle.std.specs.Prelude.{◌≡◌};
ghost use Rattle.site_port.specs.Guarding.{declined_by, guard_in, sink_in};

use super::fault::SinkFault;
use super::port::Sink;
use pull_guard::{Bar, Guard};
use replica_core::Front;
use review_ops::Op;

/// A sink that is handed operations only if a guard lets all of them in: then the whole list is handed on, in its
/// order, and else nothing is, and the sink stays as it is. What the guard lets in is judged by the greatest time that
/// the sink's record has before. Refusals beside those of the sink: 11 `NotListed`, 12 `FarAhead`, as `Guard::admit`
/// says. The sink behind the guard can only be looked at: operations reach it through the guard alone.
#[derive(Drop)]
pub struct Guarded<'g, K: Sink> {
    /// What the guard lets in.
    guard: &'g Guard,
    /// The sink behind it.
    sink: K,
}

impl<'g, K: Sink> Guarded<'g, K> {
    /// A sink behind a guard.
    pub fn new(guard: &'g Guard, sink: K) -> Guarded<'g, K>
        ensures by { guard_in result ≡ guard.now }
        ensures behind { sink_in result ≡ sink }
    {
        Guarded { guard, sink }
    }

    /// The sink behind the guard, to look at.
    pub fn sink(&self) -> &K
        ensures { result.now ≡ sink_in self.now }
    {
        &self.sink
    }
}

impl<'g, K: Sink> Sink for Guarded<'g, K> {
    ghost use Rattle.site_port.specs.Guarding.{GuardedSinks};

    ghost sinks = { λ old offer uptake new. GuardedSinks K.sinks old.guard.now old.sink offer uptake new.sink
        × (new.guard ≡ old.guard) };

    fn front(&mut self) -> Result<Front, SinkFault> {
        self.sink.front()
    }

    fn latest_time(&mut self) -> Result<u64, SinkFault> {
        self.sink.latest_time()
    }

    fn take_all(&mut self, ops: Vec<Op>) -> Result<(), SinkFault> {
        let latest = match self.sink.latest_time() {
            Ok(latest) => latest,
            Err(fault) => return Err(fault),
        };
        match self.guard.admit(latest, ops.as_slice()) {
            Ok(()) => self.sink.take_all(ops),
            Err(bar) => Err(declined_by(bar)),
        }
    }
}

/// How a sink declines what a guard bars.
fn declined_by(bar: Bar) -> SinkFault
    ensures { result ≡ declined_by bar }
{
    match bar {
        Bar::NotListed => SinkFault::NotListed,
        Bar::FarAhead => SinkFault::FarAhead,
    }
}
