//! What is handed over of reports and of groups of changes, worked out by hand.

use byte_ends::{Broken, Ends};
use enqueue_lines::{
    EnqueueFault, ItemSet, Pipeline, Places, Template, hand_over, read_handed, read_places,
    ready_items_are_handed_over_once,
};
use gerrit_events::Projects;
use std::alloc::Global;
use std::test::Fail;

/// The answer of a query with four changes.
const QUERY: &str = r#"{"project":"tools","branch":"main","number":101}
{"project":"tools","branch":"main","number":"102"}
{"project":"old","branch":"main","number":103}
{"project":"a site","branch":"v1.0","number":103,"open":true}
{"type":"stats","rowCount":4,"moreChanges":false}
"#;

/// What comes in, what was handed over before, what is printed and reported, and how it ends.
struct Row {
    input: &'static str,
    handed: &'static str,
    lines: &'static str,
    reports: &'static str,
    fault: Option<EnqueueFault>,
}

const ROWS: &[Row] = &[
    // Nothing comes.
    Row {
        input: "",
        handed: "",
        lines: "",
        reports: "",
        fault: None,
    },
    // Whole reports: an item is handed over once while it stays ready, and again when it becomes ready again.
    Row {
        input: "listening 8101\nready 102,1\nready 101,1\nout 103,1 cycle\nend 2 1\nready 101,1\nready 103,2\nout 102,1 cycle\nend 2 1\nready 101,1\nready 102,1\nend 2 0\n",
        handed: "",
        lines: "tools main 102,1\ntools main 101,1\n'a site' v1.0 103,2\ntools main 102,1\n",
        reports: "",
        fault: None,
    },
    // Groups of changes.
    Row {
        input: "+ready 101,1\nout 102,1 dependency 101\nend 1 1\n+ready 102,1\nend 2 0\n-ready 101,1\n-ready 102,1\ngone 101,1\nend 0 1\n+ready 102,1\r\nend 1 0\r\n",
        handed: "",
        lines: "tools main 101,1\ntools main 102,1\ntools main 102,1\n",
        reports: "",
        fault: None,
    },
    // What was handed over before isn't again, until it stops being ready.
    Row {
        input: "ready 101,1\nready 102,1\nend 2 0\nend 0 2\nready 101,1\nend 1 1\n",
        handed: "101,1\n7,7\n101,1\n",
        lines: "tools main 102,1\ntools main 101,1\n",
        reports: "",
        fault: None,
    },
    // A change that the query doesn't have is reported.
    Row {
        input: "ready 104,3\nready 101,1\nend 2 0\n",
        handed: "",
        lines: "tools main 101,1\n",
        reports: "reviewgate: enqueue 0 NoProject 104,3\n",
        fault: None,
    },
    // Nothing is handed over before the end line has come.
    Row {
        input: "ready 101,1\nend 1 0\nready 101,1\nready 102,1\n",
        handed: "",
        lines: "tools main 101,1\n",
        reports: "",
        fault: Some(EnqueueFault::NoEnd),
    },
    Row {
        input: "ready 101,1\nend 1 0",
        handed: "",
        lines: "",
        reports: "",
        fault: Some(EnqueueFault::NoEnd),
    },
    Row {
        input: "ready 101,1\nend 1 0\nready 0101,1\nend 1 0\n",
        handed: "",
        lines: "tools main 101,1\n",
        reports: "",
        fault: Some(EnqueueFault::BadLine(3)),
    },
    // An end line that doesn't fit: another number, an item twice, lines of both kinds.
    Row {
        input: "ready 101,1\nend 2 0\n",
        handed: "",
        lines: "",
        reports: "",
        fault: Some(EnqueueFault::BadEnd(2)),
    },
    Row {
        input: "ready 101,1\nready 101,1\nend 2 0\n",
        handed: "",
        lines: "",
        reports: "",
        fault: Some(EnqueueFault::BadEnd(3)),
    },
    Row {
        input: "ready 101,1\n-ready 102,1\nend 1 0\n",
        handed: "",
        lines: "",
        reports: "",
        fault: Some(EnqueueFault::BadEnd(3)),
    },
    Row {
        input: "+ready 101,1\nend 0 0\n",
        handed: "",
        lines: "",
        reports: "",
        fault: Some(EnqueueFault::BadEnd(2)),
    },
];

/// What items are handed over with.
#[derive(Drop)]
struct Order {
    template: Template,
    projects: Projects,
    places: Places,
}

/// The order of all rows.
fn make_order(alloc: Global) -> Result<Order, Fail> {
    Ok(Order {
        template: Template::read(alloc, "{project} {branch} {change},{set}")?,
        projects: Projects::all(),
        places: read_places(alloc, QUERY.as_bytes())?,
    })
}

impl Order {
    /// The pipeline that items are handed to.
    fn pipeline(&self) -> Pipeline<'_> {
        Pipeline {
            tenant: "main",
            name: "gate",
            template: &self.template,
            projects: &self.projects,
            places: &self.places,
        }
    }
}

/// Whether a row ends so, and prints what it says.
fn is_so(alloc: Global, order: &Order, row: &Row) -> Result<bool, Fail> {
    let handed = read_handed(alloc, row.handed.as_bytes())?;
    let mut input = Ends::new(row.input.as_bytes());
    let mut lines = Ends::new(Vec::new(alloc));
    let mut reports = Ends::new(Vec::new(alloc));
    let ended = hand_over(
        alloc,
        &order.pipeline(),
        handed,
        &mut input,
        &mut lines,
        &mut reports,
    );
    Ok(
        ended.err() == row.fault
            && lines.get_ref().as_slice() == row.lines.as_bytes()
            && reports.get_ref().as_slice() == row.reports.as_bytes(),
    )
}

#[test]
fn groups_are_handed_over(rt: HostRuntime) -> Result<(), Fail> {
    ready_items_are_handed_over_once();
    let order = make_order(rt.alloc())?;
    for row in ROWS {
        let so = is_so(rt.alloc(), &order, row)?;
        assert!(rt; so, "{}", row.input);
    }
    Ok(())
}

/// The first report of the rows, over an output that fails before a byte, and how much that has taken.
fn written_before(alloc: Global, byte: u64) -> Result<(Result<(), EnqueueFault>, usize), Fail> {
    let order = make_order(alloc)?;
    let mut input = Ends::new(b"ready 101,1\nready 102,1\nend 2 0\n".as_slice());
    let mut lines = Broken::before_byte(Ends::new(Vec::new(alloc)), byte);
    let mut reports = Ends::new(Vec::new(alloc));
    let handed = ItemSet::new(alloc);
    let ended = hand_over(
        alloc,
        &order.pipeline(),
        handed,
        &mut input,
        &mut lines,
        &mut reports,
    );
    Ok((ended, lines.into_inner().into_inner().len()))
}

#[test]
fn a_failing_output_has_taken_what_came_before(rt: HostRuntime) -> Result<(), Fail> {
    let (ended, taken) = written_before(rt.alloc(), 20)?;
    assert_eq!(rt; ended, Err(EnqueueFault::WriteFault));
    assert_eq!(rt; taken, 19);
    Ok(())
}

/// A report over an input that fails at its second call.
fn read_broken(alloc: Global) -> Result<(Result<(), EnqueueFault>, usize), Fail> {
    let order = make_order(alloc)?;
    let mut input = Broken::at_call(Ends::new(b"ready 101,1\nend 1 0\nready".as_slice()), 2);
    let mut lines = Ends::new(Vec::new(alloc));
    let mut reports = Ends::new(Vec::new(alloc));
    let handed = ItemSet::new(alloc);
    let ended = hand_over(
        alloc,
        &order.pipeline(),
        handed,
        &mut input,
        &mut lines,
        &mut reports,
    );
    Ok((ended, lines.into_inner().len()))
}

#[test]
fn what_came_before_a_failing_input_is_handed_over(rt: HostRuntime) -> Result<(), Fail> {
    let (ended, written) = read_broken(rt.alloc())?;
    assert_eq!(rt; ended, Err(EnqueueFault::ReadFault));
    assert_eq!(rt; written, 17);
    Ok(())
}
