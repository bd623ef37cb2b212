//! The replicas that were published before. No window reads the older one any more, so that it can be updated and
//! published again.

ghost use Rattle.std.specs.Prelude.{◌≡◌, IfOk, IfSome, Some};
ghost use Rattle.std.specs.Arc.{arc_value};
ghost use Rattle.replica_core.specs.Journal.{all_arrived};
ghost use Rattle.site_shared.specs.Publishes.{IsFrontPart};

use lattice_core::NoMemory;
use replica_core::Replica;
use review_ops::Op;
use std::alloc::Global;
use std::sync::Arc;

/// How many operations the reserve may lack to be updated; if it lacks more, a copy is made instead.
const LACK: usize = 4096;

/// The replica that was shown before the present one, the one before that, and one for the case that a window still
/// judges the older one.
#[derive(Drop)]
pub struct Spares {
    pub previous: Option<Arc<Replica>>,
    pub older: Option<Arc<Replica>>,
    pub reserve: Option<Replica>,
}

impl Spares {
    ghost use Rattle.site_shared.specs.Spares.{AreSpares};

    /// Copies of the replica that a site begins with, so that its first publishes have to make none.
    pub fn of(alloc: Global, shown: &Replica) -> Result<Spares, NoMemory>
        ensures { IfOk result (AreSpares shown.now) }
    {
        Ok(Spares {
            previous: Some(shared_copy(alloc, shown)?),
            older: Some(shared_copy(alloc, shown)?),
            reserve: Some(shown.copy()?),
        })
    }

    /// A replica that is equal to the one which is shown: the older spare brought up, where nobody looks at it, which
    /// costs O(m log n) for the m operations of n that it lacks, else the reserve, where it lacks few, and else a copy,
    /// which shares what the site began with.
    pub fn brought_up(&mut self, shown: &Replica) -> Result<Replica, NoMemory>
        requires { AreSpares shown.now self.old }
        ensures spares { AreSpares shown.now self.new }
        ensures ok { IfOk result (λ replica. replica ≡ shown.now) }
    {
        let Some(spare) = self.older.take() else {
            return another(&mut self.reserve, shown);
        };
        match Arc::try_unwrap(spare) {
            Ok(replica) => caught_up(replica, shown),
            Err(_) => another(&mut self.reserve, shown),
        }
    }

    /// Puts aside what was shown until now.
    pub fn put_aside(&mut self, shown: Arc<Replica>)
        ensures { (self.new.previous ≡ Some shown) × (self.new.older ≡ self.old.previous)
            × (self.new.reserve ≡ self.old.reserve) }
    {
        self.older = self.previous.take();
        self.previous = Some(shown);
    }
}

/// A copy of a replica, which may be shared.
fn shared_copy(alloc: Global, replica: &Replica) -> Result<Arc<Replica>, NoMemory>
    ensures { IfOk result (λ copied. arc_value copied ≡ replica.now) }
{
    Ok(Arc::new(alloc, replica.copy()?)?)
}

/// The reserve brought up, where it lacks few of the operations, or else a copy.
fn another(reserve: &mut Option<Replica>, shown: &Replica) -> Result<Replica, NoMemory>
    requires { IfSome reserve.old (λ spare. IsFrontPart spare shown.now) }
    ensures reserve { IfSome reserve.new (λ spare. IsFrontPart spare shown.now) }
    ensures ok { IfOk result (λ replica. replica ≡ shown.now) }
{
    match reserve.take() {
        Some(replica) if lacks_few(&replica, shown) => caught_up(replica, shown),
        kept => {
            *reserve = kept;
            shown.copy()
        }
    }
}

/// Whether a replica lacks few of the operations of another one.
fn lacks_few(replica: &Replica, shown: &Replica) -> bool {
    shown.len().saturating_sub(replica.len()) <= LACK
}

/// The replica with copies of what it lacks of another one, whose first operations it has.
fn caught_up(mut replica: Replica, shown: &Replica) -> Result<Replica, NoMemory>
    requires { IsFrontPart replica shown.now }
    ensures { IfOk result (λ same. same ≡ shown.now) }
{
    for place in replica.len()..shown.len() {
        let _new = replica.take(shown.arrival(place).copy()?)?;
    }
    Ok(replica)
}

/// The replica with copies of these operations.
pub fn with_copies(mut replica: Replica, ops: &[Op]) -> Result<Replica, NoMemory>
    ensures { IfOk result (λ more. more ≡ all_arrived replica ops.now) }
{
    for op in ops {
        let _taken = replica.take(op.copy()?)?;
    }
    Ok(replica)
}
