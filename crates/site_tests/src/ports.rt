//! The faults of ports and sinks.

use super::asserts::assert_found;
use review_ops::BodyFault;
use site_port::{PortFault, SinkFault, own_replies_are_one};

#[test]
fn faults_have_numbers_and_names(rt: HostRuntime) {
    own_replies_are_one();
    for (fault, number, name) in [
        (PortFault::ClockSpent, 1, "ClockSpent"),
        (PortFault::BadBody(BodyFault::BadChange), 2, "BadBody"),
        (PortFault::NoMemory, 3, "NoMemory"),
        (PortFault::Closed, 4, "Closed"),
    ] {
        assert_found(&rt, (fault.number(), fault.name()), (number, name));
    }
    for (fault, number, name) in [
        (SinkFault::NoMemory, 3, "NoMemory"),
        (SinkFault::Closed, 4, "Closed"),
        (SinkFault::NotListed, 11, "NotListed"),
        (SinkFault::FarAhead, 12, "FarAhead"),
    ] {
        assert_found(&rt, (fault.number(), fault.name()), (number, name));
    }
}
