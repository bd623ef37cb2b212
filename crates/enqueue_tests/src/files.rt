//! The answer of a query, and the items that were handed over before.

use enqueue_lines::{EnqueueFault, read_handed, read_places};
use state_core::Item;
use std::alloc::Global;
use std::test::Fail;

/// Answers that are refused, and the numbers of their lines.
const ANSWERS: &[(&str, u64)] = &[
    (
        "{\"number\":1,\"project\":\"p\",\"branch\":\"b\"}\nno object\n",
        2,
    ),
    ("{\"number\":1,\"project\":\"p\"}\n", 1),
    ("{\"project\":\"p\",\"branch\":\"b\"}\n", 1),
    ("{\"type\":\"stats\"}\n\n", 2),
    ("{\"type\":\"error\",\"message\":\"no\"}\n", 1),
];

#[test]
fn bad_answers_are_refused(rt: HostRuntime) -> Result<(), Fail> {
    for (answer, line) in ANSWERS {
        let places = read_places(rt.alloc(), answer.as_bytes());
        assert_eq!(rt;
            places.err(),
            Some(EnqueueFault::BadQuery(*line)),
            "{answer}"
        );
    }
    Ok(())
}

/// The last row of a change.
#[test]
fn the_last_row_counts(rt: HostRuntime) -> Result<(), Fail> {
    let answer =
        b"{\"number\":1,\"project\":\"p\",\"branch\":\"b\"}\n{\"number\":1,\"project\":\"q\",\"branch\":\"c\"}".as_slice();
    let places = read_places(rt.alloc(), answer)?;
    let place = places.get(&1).ok_or("a place")?;
    assert_eq!(rt; place.project.as_str(), "q");
    assert_eq!(rt; place.branch.as_str(), "c");
    Ok(())
}

/// Whether a list has its items.
fn has_both(alloc: Global, text: &str) -> Result<bool, Fail> {
    let handed = read_handed(alloc, text.as_bytes())?;
    let first = Item { change: 1, set: 2 };
    let other = Item { change: 2, set: 1 };
    Ok(handed.has(first) && !handed.has(other) && handed.as_slice().len() == 3)
}

#[test]
fn handed_items_are_read(rt: HostRuntime) -> Result<(), Fail> {
    let both = has_both(rt.alloc(), "1,2\r\n3,4\n1,2")?;
    assert!(rt; both);
    let bad = read_handed(rt.alloc(), b"1,2\n1;2\n".as_slice());
    assert_eq!(rt; bad.err(), Some(EnqueueFault::BadHanded(2)));
    Ok(())
}

/// The words of a fault, after its number.
fn words(alloc: Global, fault: EnqueueFault) -> Result<String, Fail> {
    let mut words = format!(in alloc; "{} ", fault.number())?;
    fault.write_words(&mut words)?;
    Ok(words)
}

/// Faults, with their words.
const FAULTS: &[(EnqueueFault, &str)] = &[
    (EnqueueFault::BadLine(7), "1 BadLine 7"),
    (EnqueueFault::BadEnd(8), "2 BadEnd 8"),
    (EnqueueFault::NoEnd, "3 NoEnd"),
    (EnqueueFault::ReadFault, "4 ReadFault"),
    (EnqueueFault::NoMemory, "5 NoMemory"),
    (EnqueueFault::WriteFault, "6 WriteFault"),
    (EnqueueFault::BadQuery(9), "9 BadQuery 9"),
    (EnqueueFault::BadHanded(10), "10 BadHanded 10"),
];

#[test]
fn faults_have_words(rt: HostRuntime) -> Result<(), Fail> {
    for (fault, wanted) in FAULTS {
        let told = words(rt.alloc(), *fault)?;
        assert_eq!(rt; told.as_str(), *wanted);
    }
    Ok(())
}
