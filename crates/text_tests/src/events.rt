//! Lines as Gerrit writes them, and what is found in them.

use super::asserts::assert_found;
use super::found::{MEMORY, assert_text};
use gerrit_events::{
    Ballot, EventFault, EventKey, Finding, Known, Listing, Part, Projects, read_event,
};
use op_text::write_body;
use review_ops::Body;
use std::alloc::{AllocError, Global};
use std::process::Abort;

/// Adds a fault, as `! NAME KEY`.
fn push_fault(text: &mut String, fault: EventFault) -> Result<(), AllocError> {
    text.push_str("! ")?;
    text.push_str(fault.name())?;
    match fault.key() {
        Some(key) => push_key(text, key),
        None => Ok(()),
    }
}

/// Adds a key behind a blank.
fn push_key(text: &mut String, key: EventKey) -> Result<(), AllocError> {
    text.push(' ')?;
    text.push_str(key.text())
}

/// Adds a body as it is written.
fn push_body(alloc: Global, text: &mut String, body: &Body) -> Option<()> {
    let written = write_body(alloc, body).ok()?;
    text.push_str(written.as_str()).ok()
}

/// Adds a body as it is written, behind a mark.
fn push_shown(alloc: Global, text: &mut String, body: &Body) -> Option<()> {
    text.push_str("~ ").ok()?;
    push_body(alloc, text, body)
}

/// Adds a ballot, as ` LABEL/VOTER`.
fn push_ballot(text: &mut String, ballot: &Ballot) -> Result<(), AllocError> {
    text.push(' ')?;
    text.push_str(ballot.label.as_str())?;
    text.push('/')?;
    text.push_str(ballot.voter.as_str())
}

/// Adds the votes of a patch set, as `= CHANGE,SET LABEL/VOTER ..`.
fn push_listing(text: &mut String, listing: &Listing) -> Result<(), AllocError> {
    let change = listing.change;
    let set = listing.set;
    write!(text, "= {change},{set}")?;
    for ballot in listing.ballots.as_slice() {
        push_ballot(text, ballot)?;
    }
    Ok(())
}

/// Adds what was found.
fn push_finding(alloc: Global, text: &mut String, finding: &Finding) -> Option<()> {
    match finding {
        Finding::Brings(body) => push_body(alloc, text, body),
        Finding::Shows(body) => push_shown(alloc, text, body),
        Finding::Lists(listing) => push_listing(text, listing).ok(),
        Finding::Refuses(fault) => push_fault(text, *fault).ok(),
    }
}

/// Adds what was found, each on a line.
fn push_findings(alloc: Global, text: &mut String, findings: &[Finding]) -> Option<()> {
    for finding in findings {
        push_finding(alloc, text, finding)?;
        text.push('\n').ok()?;
    }
    Some(())
}

/// What was found, as one text.
fn text_of(alloc: Global, findings: &[Finding]) -> Option<String> {
    let mut text = String::new(alloc);
    push_findings(alloc, &mut text, findings)?;
    Some(text)
}

/// What is found in a line where these projects are fed, as one text: the bodies as they are written, behind `~ ` where
/// an event shows them, the listings as `= CHANGE,SET LABEL/VOTER ..`, and the faults as `! NAME KEY`, each on a line.
fn found_of(alloc: Global, known: &mut Known, projects: &Projects, line: &[u8]) -> Option<String> {
    let parsed = read_event(alloc, known, projects, line).ok()?;
    text_of(alloc, parsed.findings.as_slice())
}

/// What is found in a line where all projects are fed.
fn found_in(alloc: Global, known: &mut Known, line: &[u8]) -> Option<String> {
    found_of(alloc, known, &Projects::all(), line)
}

/// Lines that come one after the other, and what is found in the last one.
#[derive(Clone, Copy)]
struct Row {
    lines: &'static [&'static str],
    found: &'static str,
}

/// What is found in the last of these lines.
fn found_last(alloc: Global, lines: &[&str]) -> Option<String> {
    let mut known = Known::new(alloc);
    let mut found = String::new(alloc);
    for line in lines {
        found = found_in(alloc, &mut known, line.as_bytes())?;
    }
    Some(found)
}

/// In each row's last line is found what stands beside it.
fn assert_rows(rt: &impl Abort, alloc: Global, rows: &[Row]) {
    for row in rows {
        assert_text(rt, found_last(alloc, row.lines), row.found);
    }
}

const CREATED: &str =
    r#"{"type":"patchset-created","change":{"project":"p","branch":"main","number":101,"commitMessage":"m\n"},"patchSet":{"number":1,"revision":"a1","parents":["f0"]},"uploader":{"username":"ann"},"eventCreatedOn":1}"#;

const CHILD: &str =
    r#"{"type":"patchset-created","change":{"project":"p","number":"102","commitMessage":"n"},"patchSet":{"number":"2","revision":"b2","parents":["f0","a1","a1"]}}"#;

/// The same commit as that of `CREATED`, in another project.
const FORKED: &str =
    r#"{"type":"patchset-created","change":{"project":"q","number":105,"commitMessage":"m\n"},"patchSet":{"number":1,"revision":"a1","parents":["f0"]}}"#;

/// Its child there.
const FORKED_CHILD: &str =
    r#"{"type":"comment-added","author":{"username":"ann"},"change":{"project":"q","number":106,"commitMessage":"n"},"patchSet":{"number":1,"revision":"c1","parents":["a1"]}}"#;

/// Patch sets that are made, with parents and without, and what is amiss with others.
const PATCH_SETS: &[Row] = &[
    Row {
        lines: &[CREATED],
        found: "~ {\"change\":101,\"message\":\"m\\n\",\"op\":\"patchset\",\"set\":1}\n",
    },
    Row {
        lines: &[CREATED, CREATED],
        found: "~ {\"change\":101,\"message\":\"m\\n\",\"op\":\"patchset\",\"set\":1}\n",
    },
    Row {
        lines: &[CREATED, CHILD],
        found: "~ {\"change\":102,\"message\":\"n\",\"op\":\"patchset\",\"parent\":101,\"set\":2}\n! BadEvent parents\n",
    },
    Row {
        lines: &[CREATED, FORKED_CHILD],
        found: "~ {\"change\":106,\"message\":\"n\",\"op\":\"patchset\",\"set\":1}\n",
    },
    Row {
        lines: &[CREATED, FORKED, FORKED_CHILD],
        found: "~ {\"change\":106,\"message\":\"n\",\"op\":\"patchset\",\"parent\":105,\"set\":1}\n",
    },
    Row {
        lines: &[FORKED, CREATED, CHILD],
        found: "~ {\"change\":102,\"message\":\"n\",\"op\":\"patchset\",\"parent\":101,\"set\":2}\n! BadEvent parents\n",
    },
    Row {
        lines: &[CHILD],
        found: "~ {\"change\":102,\"message\":\"n\",\"op\":\"patchset\",\"set\":2}\n",
    },
    Row {
        lines: &[
            r#"{"type":"patchset-created","change":{"number":0,"commitMessage":""},"patchSet":{"number":1}}"#,
        ],
        found: "! BadEvent change\n",
    },
    Row {
        lines: &[
            r#"{"type":"patchset-created","change":{"number":1,"commitMessage":""},"patchSet":{"number":"4294967296"}}"#,
        ],
        found: "! BadEvent patchSet\n",
    },
    Row {
        lines: &[
            r#"{"type":"patchset-created","change":{"number":1},"patchSet":{"number":4294967295}}"#,
        ],
        found: "! BadEvent commitMessage\n",
    },
];

#[test]
fn patch_sets_are_brought(rt: HostRuntime) {
    assert_rows(&rt, rt.alloc(), PATCH_SETS);
}

const COMMENTED: &str =
    r#"{"author":{"name":"Zuul","username":"zuul"},"approvals":[{"type":"Verified","description":"Verified","value":"2","oldValue":"1"},{"type":"Code-Review","value":"0","oldValue":"1"},{"type":"Workflow"}],"comment":"Patch Set 1: Verified+2","patchSet":{"number":1,"revision":"a1","parents":[]},"change":{"project":"p","number":101,"commitMessage":"m"},"type":"comment-added"}"#;

const VOTES: &str =
    "{\"change\":101,\"label\":\"verified\",\"op\":\"vote\",\"set\":1,\"value\":2,\"voter\":\"zuul\"}\n{\"change\":101,\"label\":\"code-review\",\"op\":\"withdraw\",\"set\":1,\"voter\":\"zuul\"}\n~ {\"change\":101,\"label\":\"workflow\",\"op\":\"withdraw\",\"set\":1,\"voter\":\"zuul\"}\n";

/// Approvals that are given and taken back, and what is amiss with others.
const APPROVALS: &[Row] = &[
    Row {
        lines: &[CREATED, COMMENTED],
        found: VOTES,
    },
    Row {
        lines: &[
            r#"{"type":"vote-deleted","change":{"number":7},"patchSet":{"number":3},"reviewer":{"email":"bob@example.org"},"remover":{"username":"ann"},"approvals":[{"type":"Code-Review","value":"0","oldValue":"-2"},{"type":"Workflow","value":"1"}]}"#,
        ],
        found: "{\"change\":7,\"label\":\"code-review\",\"op\":\"withdraw\",\"set\":3,\"voter\":\"<bob@example.org>\"}\n{\"change\":7,\"label\":\"workflow\",\"op\":\"vote\",\"set\":3,\"value\":1,\"voter\":\"<bob@example.org>\"}\n",
    },
    Row {
        lines: &[
            r#"{"type":"reviewer-deleted","change":{"number":7},"patchSet":{"number":3},"reviewer":{"username":"bob","email":"b@example.org"},"approvals":[{"type":"L","value":-1,"oldValue":"-2"}]}"#,
        ],
        found: "{\"change\":7,\"label\":\"l\",\"op\":\"vote\",\"set\":3,\"value\":-1,\"voter\":\"bob\"}\n",
    },
    Row {
        lines: &[
            r#"{"type":"comment-added","change":{"number":7},"patchSet":{"number":3},"author":{"username":"ann"},"approvals":[{"type":"Code-Review","value":"0"},{"type":"Workflow","value":"1","oldValue":"0"}]}"#,
        ],
        found: "~ {\"change\":7,\"label\":\"code-review\",\"op\":\"withdraw\",\"set\":3,\"voter\":\"ann\"}\n{\"change\":7,\"label\":\"workflow\",\"op\":\"vote\",\"set\":3,\"value\":1,\"voter\":\"ann\"}\n",
    },
    Row {
        lines: &[
            r#"{"type":"comment-added","change":{"number":7},"patchSet":{"number":3},"author":{"username":"ann"},"approvals":[{"type":"L","value":0},{"type":"L","oldValue":"1"},{"type":"L","value":0,"oldValue":1}]}"#,
        ],
        found: "~ {\"change\":7,\"label\":\"l\",\"op\":\"withdraw\",\"set\":3,\"voter\":\"ann\"}\n{\"change\":7,\"label\":\"l\",\"op\":\"withdraw\",\"set\":3,\"voter\":\"ann\"}\n{\"change\":7,\"label\":\"l\",\"op\":\"withdraw\",\"set\":3,\"voter\":\"ann\"}\n",
    },
    Row {
        lines: &[
            r#"{"type":"vote-deleted","change":{"number":7},"patchSet":{"number":3},"reviewer":{"username":"bob"},"approvals":[{"type":"L","value":"0"}]}"#,
        ],
        found: "~ {\"change\":7,\"label\":\"l\",\"op\":\"withdraw\",\"set\":3,\"voter\":\"bob\"}\n",
    },
    Row {
        lines: &[
            r#"{"type":"reviewer-deleted","change":{"number":7},"patchSet":{"number":3},"reviewer":{"username":"bob"},"approvals":[{"type":"L","value":"0"},{"type":"M","value":"0","oldValue":"2"}]}"#,
        ],
        found: "~ {\"change\":7,\"label\":\"l\",\"op\":\"withdraw\",\"set\":3,\"voter\":\"bob\"}\n{\"change\":7,\"label\":\"m\",\"op\":\"withdraw\",\"set\":3,\"voter\":\"bob\"}\n",
    },
    Row {
        lines: &[r#"{"type":"comment-added","change":{"number":7},"patchSet":{"number":3}}"#],
        found: "",
    },
    Row {
        lines: &[
            r#"{"type":"comment-added","change":{"number":7},"patchSet":{"number":3},"author":{"username":"a b"},"approvals":[{"type":"L","value":1},{"value":1},7,{"type":"L","value":"x"},{"type":"a_b","value":1},{"type":"L","value":128}]}"#,
        ],
        found: "! BadEvent username\n! BadEvent type\n! BadEvent type\n! BadEvent value\n! BadEvent type\n! BadEvent value\n",
    },
    Row {
        lines: &[
            r#"{"type":"comment-added","change":{"number":7},"patchSet":{"number":3},"author":{"name":"Ann"},"approvals":[{"type":"L","value":1}]}"#,
        ],
        found: "! BadEvent author\n",
    },
];

#[test]
fn approvals_are_votes(rt: HostRuntime) {
    assert_rows(&rt, rt.alloc(), APPROVALS);
}

/// Changes that are abandoned, restored, merged and deleted.
const ENDS: &[Row] = &[
    Row {
        lines: &[
            r#"{"type":"change-abandoned","change":{"number":7},"abandoner":{"username":"ann"}}"#,
        ],
        found: "{\"change\":7,\"op\":\"abandon\"}\n",
    },
    Row {
        lines: &[r#"{"type":"change-restored","change":{"number":7}}"#],
        found: "{\"change\":7,\"op\":\"restore\"}\n",
    },
    Row {
        lines: &[
            r#"{"type":"change-merged","change":{"number":101,"commitMessage":"m"},"patchSet":{"number":1,"revision":"a1"},"newRev":"c3"}"#,
        ],
        found: "~ {\"change\":101,\"message\":\"m\",\"op\":\"patchset\",\"set\":1}\n{\"change\":101,\"op\":\"merged\"}\n",
    },
    Row {
        lines: &[r#"{"type":"change-deleted","change":{"number":7},"deleter":{"username":"ann"}}"#],
        found: "{\"change\":7,\"op\":\"abandon\"}\n",
    },
    Row {
        lines: &[r#"{"type":"change-merged"}"#],
        found: "! BadEvent change\n",
    },
];

#[test]
fn changes_end_and_come_back(rt: HostRuntime) {
    assert_rows(&rt, rt.alloc(), ENDS);
}

/// Changes as a query answers them.
const QUERIES: &[Row] = &[
    Row {
        lines: &[
            CREATED,
            r#"{"number":101,"commitMessage":"m","status":"NEW","currentPatchSet":{"number":2,"revision":"a2","approvals":[{"type":"Verified","value":"1","by":{"username":"zuul"}}]},"patchSets":[{"number":1,"approvals":[{"type":"Verified","value":"-1","by":{"email":"z@example.org"}}]},{"number":2,"approvals":[{"type":"Verified","value":"1","by":{"username":"zuul"}}]}],"dependsOn":[{"number":"99"},{"number":98}]}"#,
        ],
        found: "{\"change\":101,\"message\":\"m\",\"op\":\"patchset\",\"parent\":99,\"set\":2}\n! BadEvent dependsOn\n= 101,2 verified/zuul\n{\"change\":101,\"label\":\"verified\",\"op\":\"vote\",\"set\":2,\"value\":1,\"voter\":\"zuul\"}\n= 101,1 verified/<z@example.org>\n{\"change\":101,\"label\":\"verified\",\"op\":\"vote\",\"set\":1,\"value\":-1,\"voter\":\"<z@example.org>\"}\n{\"change\":101,\"op\":\"restore\"}\n",
    },
    Row {
        lines: &[r#"{"number":5,"status":"MERGED","currentPatchSet":{"number":1}}"#],
        found: "{\"change\":5,\"op\":\"merged\"}\n! BadEvent commitMessage\n= 5,1\n",
    },
    Row {
        lines: &[
            r#"{"number":5,"status":"ABANDONED","commitMessage":"m","currentPatchSet":{"number":1,"approvals":{"type":"L","value":1}},"patchSets":[{}],"dependsOn":[{}]}"#,
        ],
        found: "{\"change\":5,\"op\":\"abandon\"}\n{\"change\":5,\"message\":\"m\",\"op\":\"patchset\",\"set\":1}\n! BadEvent dependsOn\n= 5,1\n! BadEvent by\n! BadEvent patchSets\n",
    },
    Row {
        lines: &[
            r#"{"number":5,"commitMessage":"m","status":"DRAFT","currentPatchSet":{"number":1}}"#,
        ],
        found: "{\"change\":5,\"message\":\"m\",\"op\":\"patchset\",\"set\":1}\n= 5,1\n",
    },
    Row {
        lines: &[r#"{"number":5,"commitMessage":"m","currentPatchSet":{"number":1}}"#],
        found: "{\"change\":5,\"message\":\"m\",\"op\":\"patchset\",\"set\":1}\n= 5,1\n! BadEvent status\n",
    },
    Row {
        lines: &[r#"{"type":"stats","rowCount":1,"runTimeMilliseconds":9}"#],
        found: "",
    },
    Row {
        lines: &["{}"],
        found: "! BadEvent number\n",
    },
    Row {
        lines: &[r#"{"number":1}"#],
        found: "! BadEvent currentPatchSet\n",
    },
    Row {
        lines: &[r#"{"number":1,"status":"MERGED"}"#],
        found: "{\"change\":1,\"op\":\"merged\"}\n! BadEvent currentPatchSet\n",
    },
];

#[test]
fn queries_put_right(rt: HostRuntime) {
    assert_rows(&rt, rt.alloc(), QUERIES);
}

/// Changes that are work in progress or private, or based on an outdated patch set, and an account that has the name of
/// the reserved voter.
const MARKS: &[Row] = &[
    Row {
        lines: &[
            r#"{"type":"patchset-created","change":{"number":7,"commitMessage":"m","wip":true,"private":true},"patchSet":{"number":2,"revision":"a1"}}"#,
        ],
        found: "~ {\"change\":7,\"message\":\"m\",\"op\":\"patchset\",\"set\":2}\n{\"change\":7,\"label\":\"work-in-progress\",\"op\":\"vote\",\"set\":2,\"value\":-1,\"voter\":\"gerrit\"}\n{\"change\":7,\"label\":\"private\",\"op\":\"vote\",\"set\":2,\"value\":-1,\"voter\":\"gerrit\"}\n",
    },
    Row {
        lines: &[
            r#"{"type":"wip-state-changed","change":{"number":7,"wip":true},"patchSet":{"number":2}}"#,
        ],
        found: "{\"change\":7,\"label\":\"work-in-progress\",\"op\":\"vote\",\"set\":2,\"value\":-1,\"voter\":\"gerrit\"}\n",
    },
    Row {
        lines: &[r#"{"type":"wip-state-changed","change":{"number":7},"patchSet":{"number":2}}"#],
        found: "{\"change\":7,\"label\":\"work-in-progress\",\"op\":\"withdraw\",\"set\":2,\"voter\":\"gerrit\"}\n",
    },
    Row {
        lines: &[
            r#"{"type":"private-state-changed","change":{"number":7,"private":false},"patchSet":{"number":2}}"#,
        ],
        found: "{\"change\":7,\"label\":\"private\",\"op\":\"withdraw\",\"set\":2,\"voter\":\"gerrit\"}\n",
    },
    Row {
        lines: &[
            r#"{"type":"private-state-changed","change":{"number":7,"private":true},"patchSet":{"number":2}}"#,
        ],
        found: "{\"change\":7,\"label\":\"private\",\"op\":\"vote\",\"set\":2,\"value\":-1,\"voter\":\"gerrit\"}\n",
    },
    Row {
        lines: &[r#"{"type":"wip-state-changed","change":{"number":7,"wip":true}}"#],
        found: "! BadEvent patchSet\n",
    },
    Row {
        lines: &[
            r#"{"number":7,"commitMessage":"m","status":"NEW","wip":true,"currentPatchSet":{"number":2,"approvals":[{"type":"Code-Review","value":"2","by":{"username":"ann"}},{"type":"Verified","value":"1","by":{"username":"gerrit"}}]},"dependsOn":[{"number":6,"isCurrentPatchSet":false}]}"#,
        ],
        found: "{\"change\":7,\"message\":\"m\",\"op\":\"patchset\",\"parent\":6,\"set\":2}\n= 7,2 code-review/ann work-in-progress/gerrit outdated-parent/gerrit\n{\"change\":7,\"label\":\"code-review\",\"op\":\"vote\",\"set\":2,\"value\":2,\"voter\":\"ann\"}\n! BadEvent username\n{\"change\":7,\"label\":\"work-in-progress\",\"op\":\"vote\",\"set\":2,\"value\":-1,\"voter\":\"gerrit\"}\n{\"change\":7,\"label\":\"outdated-parent\",\"op\":\"vote\",\"set\":2,\"value\":-1,\"voter\":\"gerrit\"}\n{\"change\":7,\"op\":\"restore\"}\n",
    },
    Row {
        lines: &[
            r#"{"number":7,"commitMessage":"m","status":"MERGED","wip":false,"private":"true","currentPatchSet":{"number":2},"dependsOn":[{"number":6,"isCurrentPatchSet":true}]}"#,
        ],
        found: "{\"change\":7,\"op\":\"merged\"}\n{\"change\":7,\"message\":\"m\",\"op\":\"patchset\",\"parent\":6,\"set\":2}\n= 7,2\n",
    },
    Row {
        lines: &[
            r#"{"type":"comment-added","change":{"number":7},"patchSet":{"number":3},"author":{"username":"gerrit"},"approvals":[{"type":"Workflow","value":1}]}"#,
        ],
        found: "! BadEvent username\n",
    },
];

#[test]
fn what_gerrit_says_beside_is_voted(rt: HostRuntime) {
    assert_rows(&rt, rt.alloc(), MARKS);
}

/// What a line is.
fn part_of(alloc: Global, line: &str) -> Option<Part> {
    let mut known = Known::new(alloc);
    let parsed = read_event(alloc, &mut known, &Projects::all(), line.as_bytes()).ok()?;
    Some(parsed.part)
}

/// Lines, and what they are.
const PARTS: &[(&str, Part)] = &[
    ("[]", Part::Nothing),
    (r#"{"type":1}"#, Part::Nothing),
    (
        r#"{"type":"dropped-output","change":{"number":7}}"#,
        Part::Event(None),
    ),
    (
        r#"{"type":"topic-changed","change":{"number":7}}"#,
        Part::Event(Some(7)),
    ),
    (r#"{"type":"ref-updated"}"#, Part::Event(None)),
    (r#"{"number":7}"#, Part::Row(Some(7))),
    ("{}", Part::Row(None)),
    (
        r#"{"type":"stats","rowCount":1}"#,
        Part::Stats { more: false },
    ),
    (
        r#"{"type":"stats","moreChanges":false}"#,
        Part::Stats { more: false },
    ),
    (
        r#"{"type":"stats","moreChanges":true}"#,
        Part::Stats { more: true },
    ),
    (
        r#"{"type":"error","message":"fatal: no query"}"#,
        Part::Error,
    ),
];

#[test]
fn lines_are_parts_of_what_gerrit_writes(rt: HostRuntime) {
    for (line, wanted) in PARTS {
        assert_found(&rt, part_of(rt.alloc(), line), Some(*wanted));
    }
}

/// The projects of one name.
fn project_named(alloc: Global, name: &str) -> Option<Projects> {
    let mut names = Vec::new(alloc);
    names.push(String::from_str(alloc, name).ok()?).ok()?;
    Some(Projects::named(names))
}

/// Whether something is found in a line where the changes of one project alone are fed.
fn is_found_fed(alloc: Global, project: &str, line: &str) -> Option<bool> {
    let projects = project_named(alloc, project)?;
    let found = found_of(alloc, &mut Known::new(alloc), &projects, line.as_bytes())?;
    Some(!found.is_empty())
}

/// Lines of changes of project `p` and of others, and whether something is found in them where that one is fed.
const FED: &[(&str, bool)] = &[
    (
        r#"{"type":"change-merged","change":{"project":"p","number":7}}"#,
        true,
    ),
    (
        r#"{"type":"change-merged","change":{"project":"q","number":7}}"#,
        false,
    ),
    (r#"{"type":"change-merged","change":{"number":7}}"#, false),
    (r#"{"type":"change-merged"}"#, true),
    (r#"{"type":"dropped-output"}"#, true),
    (r#"{"project":"p","number":7}"#, true),
    (r#"{"project":"p/q","number":7}"#, false),
    ("7", true),
];

#[test]
fn projects_are_fed_by_their_names(rt: HostRuntime) {
    for (line, wanted) in FED {
        assert_found(&rt, is_found_fed(rt.alloc(), "p", line), Some(*wanted));
    }
    assert_found(&rt, Projects::all().has("q"), true);
}

/// Events of other types, and lines that are no events.
const OTHERS: &[Row] = &[
    Row {
        lines: &[r#"{"type":"dropped-output"}"#],
        found: "! Dropped\n",
    },
    Row {
        lines: &[
            r#"{"type":"topic-changed","change":{"number":101,"commitMessage":"m"},"patchSet":{"number":1,"revision":"a1"}}"#,
        ],
        found: "~ {\"change\":101,\"message\":\"m\",\"op\":\"patchset\",\"set\":1}\n",
    },
    Row {
        lines: &[
            CREATED,
            r#"{"type":"topic-changed","change":{"project":"p","number":101,"commitMessage":"m"},"patchSet":{"number":1,"revision":"a1"}}"#,
        ],
        found: "",
    },
    Row {
        lines: &[
            CREATED,
            r#"{"type":"topic-changed","change":{"project":"p","number":7,"commitMessage":"m"},"patchSet":{"number":1,"revision":"a1"}}"#,
        ],
        found: "~ {\"change\":7,\"message\":\"m\",\"op\":\"patchset\",\"set\":1}\n",
    },
    Row {
        lines: &[r#"{"type":"ref-updated","refUpdate":{}}"#],
        found: "",
    },
    Row {
        lines: &[r#"{"type":7}"#],
        found: "! BadEvent type\n",
    },
    Row {
        lines: &["[]"],
        found: "! BadEvent line\n",
    },
    Row {
        lines: &[r#"{"type":"comment-ad"#],
        found: "! BadEvent line\n",
    },
    Row {
        lines: &[""],
        found: "! BadEvent line\n",
    },
];

#[test]
fn other_lines_bring_little(rt: HostRuntime) {
    assert_rows(&rt, rt.alloc(), OTHERS);
}

/// Adds a letter so many times.
fn push_times(text: &mut String, letter: char, times: usize) -> Result<(), AllocError> {
    for _ in 0..times {
        text.push(letter)?;
    }
    Ok(())
}

/// A patch set with a message of so many letters and then this text, as JSON has it.
fn long_event(alloc: Global, letters: usize, text: &str) -> Result<String, AllocError> {
    let mut line = String::from_str(
        alloc,
        r#"{"type":"patchset-created","patchSet":{"number":1,"revision":"a1"},"change":{"number":101,"commitMessage":""#,
    )?;
    push_times(&mut line, 'x', letters)?;
    line.push_str(text)?;
    line.push_str(r#""}}"#)?;
    Ok(line)
}

/// The change and the patch set of a revision, where it is known.
type Place = Option<(u32, u32)>;

/// What the revision of a line without a project is known as once the line was read, and whether just this was found in
/// the line.
fn read_long(alloc: Global, line: &str, wanted: &str) -> Option<(Place, bool)> {
    let mut known = Known::new(alloc);
    let found = found_in(alloc, &mut known, line.as_bytes())?;
    Some((known.place_of("\na1"), found.as_str() == wanted))
}

/// The same of a patch set with a message of so many letters and then this text.
fn read_message(alloc: Global, letters: usize, text: &str, wanted: &str) -> Option<(Place, bool)> {
    let line = long_event(alloc, letters, text).ok()?;
    read_long(alloc, line.as_str(), wanted)
}

/// The end of a message, of 55 bytes, and what is found of a longer message that ends so.
const FOOTERS: &str = r"\nDepends-On: https://r/98\n Depends-On: no\ndepends-ON:97";

const KEPT: &str =
    "~ {\"change\":101,\"message\":\"Depends-On: https://r/98\\ndepends-ON:97\\n\",\"op\":\"patchset\",\"set\":1}\n";

const EMPTY: &str = "~ {\"change\":101,\"message\":\"\",\"op\":\"patchset\",\"set\":1}\n";

/// A message of 65,536 bytes is kept whole, and of a longer one the lines that are footers.
#[test]
fn of_a_long_message_the_footers_are_kept(rt: HostRuntime) {
    for (letters, is_cut) in [(65_481usize, false), (65_482, true)] {
        let read = read_message(rt.alloc(), letters, FOOTERS, KEPT);
        assert_found(&rt, read, Some((Some((101, 1)), is_cut)));
    }
    let read = read_message(rt.alloc(), 65_537, "", EMPTY);
    assert_found(&rt, read, Some((Some((101, 1)), true)));
}

/// A patch set with a footer of so many letters.
fn long_footer(alloc: Global, letters: usize) -> Result<String, AllocError> {
    let mut text = String::from_str(alloc, r"\nDepends-On:")?;
    push_times(&mut text, 'y', letters)?;
    long_event(alloc, 1, text.as_str())
}

/// What is found where the only footer of a message is lost.
const LOST: &str =
    "~ {\"change\":101,\"message\":\"\",\"op\":\"patchset\",\"set\":1}\n! BadEvent commitMessage\n";

/// What is read of it, and whether it is lost.
fn read_footer(alloc: Global, letters: usize) -> Option<(Place, bool)> {
    let line = long_footer(alloc, letters).ok()?;
    read_long(alloc, line.as_str(), LOST)
}

#[test]
fn a_footer_that_does_not_fit_is_lost(rt: HostRuntime) {
    for (letters, is_lost) in [(65_524usize, false), (65_525, true)] {
        let wanted = (Some((101, 1)), is_lost);
        assert_found(&rt, read_footer(rt.alloc(), letters), Some(wanted));
    }
}

/// Learns that this number is the revision of the change with this number.
fn learn_number(alloc: Global, known: &mut Known, number: u32) -> Option<()> {
    let revision = format!(in alloc; "{number}").ok()?;
    known.learn(revision.as_str(), number, 1).ok()
}

/// What is known once the first 100,000 revisions were learned.
fn learned(alloc: Global) -> Option<Known> {
    let mut known = Known::new(alloc);
    for number in 1..=100_000u32 {
        learn_number(alloc, &mut known, number)?;
    }
    Some(known)
}

/// What is known once one more was learned.
fn with_one_more(alloc: Global, mut known: Known) -> Option<Known> {
    learn_number(alloc, &mut known, 100_001)?;
    Some(known)
}

/// The places of the first revision, of the second and of the last one, where they are known.
fn places_of(known: &Known) -> [Place; 3] {
    ["1", "2", "100001"].map(|revision| known.place_of(revision))
}

/// The place of the second revision once it was learned again, as that of another patch set.
fn learned_again(mut known: Known) -> Option<Place> {
    known.learn("2", 3, 4).ok()?;
    Some(known.place_of("2"))
}

#[test]
fn the_oldest_revision_is_forgotten(rt: HostRuntime) {
    let full = learned(rt.alloc()).expect(&rt, MEMORY);
    assert_found(&rt, full.place_of("1"), Some((1, 1)));
    let over = with_one_more(rt.alloc(), full).expect(&rt, MEMORY);
    let places = [None, Some((2, 1)), Some((100_001, 1))];
    assert_found(&rt, places_of(&over), places);
    assert_found(&rt, learned_again(over), Some(Some((2, 1))));
}

/// The text of the key of a fault, if it has one.
fn key_of(fault: EventFault) -> Option<&'static str> {
    match fault.key() {
        Some(key) => Some(key.text()),
        None => None,
    }
}

#[test]
fn faults_have_numbers_and_names(rt: HostRuntime) {
    for (fault, number, name, key) in [
        (
            EventFault::BadEvent(EventKey::By),
            1u8,
            "BadEvent",
            Some("by"),
        ),
        (EventFault::Dropped, 2, "Dropped", None),
    ] {
        let found = (fault.number(), fault.name(), key_of(fault));
        assert_found(&rt, found, (number, name, key));
    }
}
