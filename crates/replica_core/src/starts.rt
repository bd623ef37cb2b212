//! The starts under which a site ran.

ghost use Rattle.replica_core.specs.Starts.{IsLatest};

use super::replica::Replica;

/// The greatest start of a site in a record; 0 if the record has no operation of the site. It costs O(n) for n
/// operations.
pub fn latest_start(replica: &Replica, site: u16) -> u32
    ensures { IsLatest site result replica.now }
{
    let mut latest = 0;
    for place in 0..replica.len() {
        let stamp = replica.arrival(place).stamp();
        if stamp.site() == site && stamp.start() > latest {
            latest = stamp.start();
        }
    }
    latest
}
