//! Lines that are refused, and ends that fail.

use super::asserts::assert_found;
use super::talks::{SETTINGS, talk_of};
use byte_ends::{Broken, Ends};
use query_plan::{PlanFault, plan_queries};
use std::alloc::Global;

/// Lines that say nothing that a plan reads, after one that is answered.
const BAD: [&str; 24] = [
    "",
    "1",
    "1 ",
    " 1 next",
    "1  next",
    "1 next ",
    "1 Next",
    "01 next",
    "+1 next",
    "-1 next",
    "1.0 next",
    "18446744073709551616 next",
    "next",
    "1 ask",
    "1 ask ",
    "1 ask x",
    "1 ask 01",
    "1 ask -1",
    "1 ask 4294967296",
    "1 ask 5 6",
    "1 need",
    "1 listed",
    "1 all 5",
    "1 done",
];

#[test]
fn a_line_that_says_nothing_is_refused(rt: HostRuntime) {
    for line in BAD {
        let text = after_next(rt.alloc(), line);
        let (output, errors, ended) = talk_of(rt.alloc(), text.as_bytes());
        assert_found(&rt, (line, ended), (line, Err(PlanFault::BadLine(2))));
        assert_found(&rt, output.as_slice(), b"all\n".as_slice());
        assert_found(&rt, errors.as_slice(), b"".as_slice());
    }
}

/// A text that asks for the next query and then has this line; the first line alone where memory is refused.
fn after_next(alloc: Global, line: &str) -> String {
    let mut text = String::new(alloc);
    let _whole = text.push_str("0 next\n").is_ok()
        && text.push_str(line).is_ok()
        && text.push_str("\n").is_ok();
    text
}

/// Texts and how they end: a last line without its LF, an input that is no UTF-8, and a line that is read with a carriage
/// return before its LF.
const ENDS: [(&[u8], Result<(), PlanFault>); 6] = [
    (b"", Ok(())),
    (b"0 next", Err(PlanFault::BadLine(1))),
    (b"0 next\n1", Err(PlanFault::BadLine(2))),
    (b"0 n\xffxt\n", Err(PlanFault::BadLine(1))),
    (b"0 next\r\n", Ok(())),
    (b"0 next\r\r\n", Err(PlanFault::BadLine(1))),
];

#[test]
fn an_input_ends_with_a_whole_line(rt: HostRuntime) {
    for (text, wanted) in ENDS {
        let (_output, _errors, ended) = talk_of(rt.alloc(), text);
        assert_found(&rt, (text, ended), (text, wanted));
    }
}

#[test]
fn a_line_has_4096_bytes(rt: HostRuntime) {
    let mut line = Vec::new(rt.alloc());
    for _byte in 0..4097 {
        let _kept = line.push(b'1').is_ok();
    }
    let (_output, _errors, ended) = talk_of(rt.alloc(), line.as_slice());
    assert_found(&rt, (line.len(), ended), (4097, Err(PlanFault::BadLine(1))));
}

/// Words that speak of an answer, where no query is under way: at first, after an answer was whole, and after it failed.
const UNASKED: [&str; 5] = ["whole", "refused", "late", "lost", "listed 5"];

#[test]
fn an_answer_belongs_to_a_query(rt: HostRuntime) {
    for word in UNASKED {
        assert_found(
            &rt,
            (word, ended_after(rt.alloc(), "", word)),
            (word, Err(PlanFault::NoQuery(1))),
        );
        let after = ended_after(rt.alloc(), "0 next\n0 whole\n", word);
        assert_found(&rt, (word, after), (word, Err(PlanFault::NoQuery(3))));
        let failed = ended_after(rt.alloc(), "0 next\n0 lost\n", word);
        assert_found(&rt, (word, failed), (word, Err(PlanFault::NoQuery(3))));
    }
}

/// How a run ends that reads these lines, and then this word.
fn ended_after(alloc: Global, lines: &str, word: &str) -> Result<(), PlanFault> {
    let mut text = String::new(alloc);
    let _whole = text.push_str(lines).is_ok()
        && text.push_str("1 ").is_ok()
        && text.push_str(word).is_ok()
        && text.push_str("\n").is_ok();
    let (_output, _errors, ended) = talk_of(alloc, text.as_bytes());
    ended
}

#[test]
fn a_source_that_fails_ends_the_run(rt: HostRuntime) {
    let text = b"0 next\n0 lost\n0 next\n".as_slice();
    for place in 1..23u64 {
        let mut source = Broken::before_byte(Ends::new(text), place);
        let mut output = Ends::new(Vec::new(rt.alloc()));
        let mut errors = Ends::new(Vec::new(rt.alloc()));
        let ended = plan_queries(rt.alloc(), SETTINGS, &mut source, &mut output, &mut errors);
        assert_found(&rt, (place, ended), (place, Err(PlanFault::ReadFault)));
    }
}

#[test]
fn an_output_that_fails_ends_the_run(rt: HostRuntime) {
    let text = b"0 next\n0 refused\n0 next\n".as_slice();
    for place in 1..5u64 {
        let mut source = Ends::new(text);
        let mut output = Broken::before_byte(Ends::new(Vec::new(rt.alloc())), place);
        let mut errors = Ends::new(Vec::new(rt.alloc()));
        let ended = plan_queries(rt.alloc(), SETTINGS, &mut source, &mut output, &mut errors);
        assert_found(&rt, (place, ended), (place, Err(PlanFault::WriteFault)));
        let mut errors = Broken::before_byte(Ends::new(Vec::new(rt.alloc())), place);
        let mut source = Ends::new(text);
        let mut output = Ends::new(Vec::new(rt.alloc()));
        let ended = plan_queries(rt.alloc(), SETTINGS, &mut source, &mut output, &mut errors);
        assert_found(&rt, (place, ended), (place, Err(PlanFault::WriteFault)));
        assert_found(&rt, output.into_inner().as_slice(), b"all\n".as_slice());
    }
}
