//! Connections over sockets of this machine.

use super::asserts::assert_found;
use site_net::{Awaited, Patience, PatientReader, PatientWriter, Stop};
use std::io::{Read, Write};
use std::net::{Net, TcpListener, TcpStream};
use std::process::Abort;
use std::sync::Wait;
use std::test::Fail;
use std::time::{Clock, Duration, Instant};
use std::{io, thread};

/// A patience of these milliseconds.
fn patience(limit: u64, idle: Option<u64>) -> Patience {
    Patience {
        limit: Duration::from_millis(limit),
        idle: idle.map(Duration::from_millis),
    }
}

#[test]
fn patience_ends_at_its_limit(rt: HostRuntime) {
    for (awaited, idle, waited, is_over) in [
        (Awaited::FirstLine, None, 299, false),
        (Awaited::FirstLine, None, 300, true),
        (Awaited::RestOfLine, Some(900), 300, true),
        (Awaited::NextLine, None, 1_000_000, false),
        (Awaited::NextLine, Some(900), 899, false),
        (Awaited::NextLine, Some(900), 900, true),
    ] {
        let waited = Duration::from_millis(waited);
        assert_found(&rt, patience(300, idle).is_over(awaited, waited), is_over);
    }
}

/// A connection of this machine with itself: the side that asked for it and the side that was asked.
fn both_sides<R: Net<Listener = TcpListener, Stream = TcpStream>>(
    rt: &R,
) -> io::Result<(TcpStream, TcpStream)> {
    let listener = TcpListener::bind(rt, "127.0.0.1:0")?;
    let address = listener.local_addr()?;
    let asking = TcpStream::connect(rt, address)?;
    let (asked, _address) = listener.accept()?;
    Ok((asking, asked))
}

/// What is read in one call, and that the reading fails or ends then.
fn assert_reads<R: Abort + Clock>(
    rt: &R,
    reader: &mut PatientReader<'_, R>,
    text: &[u8],
    fails: bool,
) -> Result<(), Fail> {
    let mut into = [0; 64];
    let count = reader.read(&mut into)?;
    assert_found(rt, &into[..count.min(64)], text);
    assert_found(rt, reader.read(&mut into).is_err(), fails);
    Ok(())
}

#[test]
fn a_line_that_stops_is_given_up(rt: HostRuntime) -> Result<(), Fail> {
    let (asking, asked) = both_sides(&rt)?;
    let stop = Stop::new();
    (&asking).write(b"hello 2\nta")?;
    let mut reader = PatientReader::new(&rt, &asked, &stop, patience(200, None))?;
    assert_reads(&rt, &mut reader, b"hello 2\nta", true)
}

#[test]
fn a_first_line_that_does_not_come_is_given_up(rt: HostRuntime) -> Result<(), Fail> {
    let (_asking, asked) = both_sides(&rt)?;
    let stop = Stop::new();
    let mut reader = PatientReader::new(&rt, &asked, &stop, patience(200, None))?;
    assert_found(&rt, reader.read(&mut [0; 64]).is_err(), true);
    Ok(())
}

#[test]
fn an_idle_side_is_given_up_where_that_has_a_limit(rt: HostRuntime) -> Result<(), Fail> {
    let (asking, asked) = both_sides(&rt)?;
    let stop = Stop::new();
    (&asking).write(b"hello 2\n")?;
    let mut reader = PatientReader::new(&rt, &asked, &stop, patience(60_000, Some(200)))?;
    assert_reads(&rt, &mut reader, b"hello 2\n", true)
}

#[test]
fn a_side_that_goes_is_no_fault(rt: HostRuntime) -> Result<(), Fail> {
    let (asking, asked) = both_sides(&rt)?;
    let stop = Stop::new();
    (&asking).write(b"hello 2\n")?;
    drop(asking);
    let mut reader = PatientReader::new(&rt, &asked, &stop, patience(60_000, None))?;
    assert_reads(&rt, &mut reader, b"hello 2\n", false)
}

#[test]
fn a_side_that_never_reads_is_given_up(rt: HostRuntime) -> Result<(), Fail> {
    let (_asking, asked) = both_sides(&rt)?;
    let mut writer = PatientWriter::new(&rt, &asked, patience(200, None))?;
    let page = [b'a'; 65_536];
    for _ in 0..1_000 {
        if writer.write(&page).is_err() {
            return Ok(());
        }
    }
    panic!(rt; "64 MB were taken in by nobody")
}

/// Reads a connection that brings nothing until the site stops: whether that is its end.
fn read_silence<R: Clock>(rt: &R, stream: &TcpStream, stop: &Stop) -> bool {
    let Ok(mut reader) = PatientReader::new(rt, stream, stop, patience(60_000, None)) else {
        return false;
    };
    matches!(reader.read(&mut [0; 64]), Ok(0))
}

/// Asks the site to stop once it has rested, and rests again, which then ends at once.
fn end<R: Wait + Clock>(rt: &R, stop: &Stop) -> bool {
    stop.rest(rt, Duration::from_millis(100));
    stop.ask(rt);
    stop.rest(rt, Duration::from_millis(600_000));
    stop.is_asked()
}

#[test]
fn a_stop_wakes_who_waits(rt: HostRuntime) -> Result<(), Fail> {
    let (_asking, asked) = both_sides(&rt)?;
    let stop = Stop::new();
    let begun = Instant::now(&rt)?;
    let (read, ended) = thread::join(&rt, || read_silence(&rt, &asked, &stop), || end(&rt, &stop));
    assert_found(&rt, (read, ended), (true, true));
    let is_soon = begun.elapsed(&rt)? < Duration::from_millis(30_000);
    assert_found(&rt, is_soon, true);
    Ok(())
}
