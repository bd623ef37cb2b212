//! Scripts and what their steps print, worked out by hand.

use super::found::{MEMORY, assert_bytes};
use gate_rules::Gate;
use script_play::play_step;
use script_text::{Script, Step, read_script};
use std::alloc::Global;
use world_core::World;

/// A gate that wants open changes.
const GATE: &[u8] = br#"{"bases":["https://r/"],"require":{"gerrit":{"open":true}}}"#;

/// Adds what a step prints.
fn print_step(
    alloc: Global,
    printed: &mut Vec<u8>,
    world: &mut World,
    step: Step<'_>,
) -> Option<()> {
    let text = play_step(alloc, world, step).ok()?;
    printed.extend_from_slice(text.as_bytes()).ok()
}

/// What steps print in a world, one after the other.
fn printed_in(alloc: Global, world: &mut World, steps: Vec<Step<'_>>) -> Option<Vec<u8>> {
    let mut printed = Vec::new(alloc);
    for step in steps {
        print_step(alloc, &mut printed, world, step)?;
    }
    Some(printed)
}

/// What the steps of a script print, one after the other, where none of its lines is bad.
fn printed_by(alloc: Global, script: Script<'_>) -> Option<Vec<u8>> {
    if script.bad_line.is_some() {
        return None;
    }
    let mut world = World::new(alloc, script.sites).ok()?;
    printed_in(alloc, &mut world, script.steps)
}

/// What a script prints.
fn printed(alloc: Global, script: &[u8], gate: Option<&Gate>) -> Option<Vec<u8>> {
    printed_by(alloc, read_script(alloc, script, gate).ok()?)
}

#[test]
fn each_step_prints_what_it_answers(rt: HostRuntime) {
    let script =
        b"sites 2\nintake 1 {\"change\":5,\"op\":\"merged\"}\nsend 1 @2\ndeliver 1 2\nfront 2\nstate 3\nsend 1 @3\nsave 2\nrestart 2 2\n";
    let wanted =
        b"ok 1,1,1,1\npacket 1 1 done\ntook 1\n[[1,1,1]]\nno 1 NoSite\nno 1 NoSite\nsaved\nrestarted\n";
    assert_bytes(
        &rt,
        printed(rt.alloc(), script.as_slice(), None),
        wanted.as_slice(),
    );
}

#[test]
fn a_report_is_printed_under_a_gate(rt: HostRuntime) {
    let gate = Gate::read(rt.alloc(), GATE).ok().expect(&rt, MEMORY);
    let script =
        b"sites 1\nintake 1 {\"change\":7,\"message\":\"m\",\"op\":\"patchset\",\"set\":1}\nready 1\nready 2\n";
    let wanted = b"ok 1,1,1,1\nready 7,1\nend 1 0\nno 1 NoSite\n";
    let found = printed(rt.alloc(), script.as_slice(), Some(&gate));
    assert_bytes(&rt, found, wanted.as_slice());
}
