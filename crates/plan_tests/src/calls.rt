//! Each public function, called once where memory is ample.

use super::asserts::assert_found;
use super::talks::SETTINGS;
use query_plan::{
    Failure, Line, Marks, Notice, Plan, PlanFault, Query, Schedule, Word, marks_say_what_waits,
    named_changes_wait, read_line, what_waits_is_kept,
};

#[test]
fn a_plan_is_called_step_by_step(rt: HostRuntime) {
    let alloc = rt.alloc();
    let mut plan = Plan::new(alloc, SETTINGS);
    let asked = plan.ask(100, 17, true).is_ok();
    let first = plan.next(alloc, 100);
    let listed = plan.list(17).is_ok() && plan.list(18).is_ok();
    let whole = plan.end_well(alloc, 103).is_ok();
    assert_found(
        &rt,
        (asked, first, listed, whole),
        (true, Ok(Query::All), true, true),
    );
    let kept = plan.marks_of(18);
    let known = Marks {
        is_known: true,
        ..Marks::none()
    };
    assert_found(&rt, kept, known);
    assert_found(&rt, plan.marks_of(19), Marks::none());
    let again = plan.ask(104, 18, false).is_ok();
    let second = plan.next(alloc, 104);
    assert_found(&rt, (again, second), (true, Ok(Query::Changes)));
    assert_found(&rt, plan.named.as_slice(), [18].as_slice());
    let notice = plan.end_badly(alloc, 111, Failure::Lost);
    assert_found(&rt, notice, Ok(Notice::Repeated(1)));
    plan.want_all();
    assert_found(&rt, plan.next(alloc, 112), Ok(Query::All));
}

#[test]
fn a_line_is_read(rt: HostRuntime) {
    let line = Line {
        time: 7,
        word: Word::Ask(5),
    };
    assert_found(&rt, read_line(rt.alloc(), b"7 ask 5"), Ok(Some(line)));
    assert_found(&rt, read_line(rt.alloc(), b"7 ask"), Ok(None));
}

#[test]
fn a_plan_steps_by_lines(rt: HostRuntime) {
    let mut plan = Plan::new(rt.alloc(), SETTINGS);
    let line = Line {
        time: 7,
        word: Word::Next,
    };
    let given = match plan.step(rt.alloc(), line) {
        Ok(answer) => answer.given,
        Err(_) => None,
    };
    assert_found(&rt, given, Some(Query::All));
    let schedule = Schedule::new(SETTINGS).given_all(7);
    assert_found(&rt, plan.schedule, schedule);
}

/// The numbers and words of faults.
const FAULTS: [(PlanFault, u8, &str); 5] = [
    (PlanFault::BadLine(7), 1, "BadLine 7"),
    (PlanFault::NoQuery(8), 2, "NoQuery 8"),
    (PlanFault::ReadFault, 3, "ReadFault"),
    (PlanFault::WriteFault, 4, "WriteFault"),
    (PlanFault::NoMemory, 5, "NoMemory"),
];

#[test]
fn a_fault_has_its_number_and_words(rt: HostRuntime) {
    for (fault, number, wanted) in FAULTS {
        let mut words = String::new(rt.alloc());
        let written = fault.write_words(&mut words).is_ok();
        assert_found(
            &rt,
            (written, fault.number(), words.as_str()),
            (true, number, wanted),
        );
    }
}

#[test]
fn laws_are_called(rt: HostRuntime) {
    marks_say_what_waits();
    what_waits_is_kept();
    named_changes_wait();
    assert_found(&rt, Schedule::new(SETTINGS).all_due, 0);
}
