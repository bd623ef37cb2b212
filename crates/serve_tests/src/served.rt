//! Sites that are run within this process, by `serve_run`.

use super::asserts::assert_found;
use byte_ends::Ends;
use gate_rules::{Gate, GateFault};
use key_file::{KeyFault, Keys};
use key_files::{KeyReader, NoKeys};
use replica_core::Replica;
use site_net::Stop;
use site_serve::{Prints, Reloads, ServeFault, Served, SessionHooks, Setup, serve_run};
use std::alloc::Global;
use std::io::Write;
use std::net::{Net, Shutdown, TcpListener, TcpStream};
use std::sync::atomic::{AtomicBool, Ordering};
use std::sync::{Arc, Wait};
use std::test::Fail;
use std::thread::Threads;
use std::time::{Clock, Duration};
use std::{io, thread};

/// A gate that wants a workflow vote.
const GATE: &[u8] =
    br#"{"bases":["https://review.example.org/"],"require":{"gerrit":{"approval":[{"Workflow":1}]}}}"#;

/// Holds the first session until the second has ended, for ten seconds at most, if it is to hold it.
#[derive(Drop)]
struct Holds<R: Wait + Copy> {
    rt: R,
    is_holding: bool,
    has_second_ended: AtomicBool,
    is_given_up: AtomicBool,
}

impl<R: Wait + Copy> Holds<R> {
    fn new(rt: R, is_holding: bool) -> Holds<R> {
        Holds {
            rt,
            is_holding,
            has_second_ended: AtomicBool::new(false),
            is_given_up: AtomicBool::new(false),
        }
    }
}

impl<R: Wait + Clock + Copy> SessionHooks for Holds<R> {
    fn before(&self, session: u64) {
        for _ in 0..10_000 {
            let is_over = self.has_second_ended.load(Ordering::SeqCst);
            if !self.is_holding || session != 1 || is_over {
                return;
            }
            let _ = thread::sleep(&self.rt, Duration::from_millis(1));
        }
        self.is_given_up.store(true, Ordering::SeqCst);
    }

    fn after(&self, session: u64) {
        if session == 2 {
            self.has_second_ended.store(true, Ordering::SeqCst);
        }
    }
}

impl<R: Wait + Copy> KeyReader for Holds<R> {
    fn keys(&self, name: &str) -> Result<Keys, KeyFault> {
        NoKeys.keys(name)
    }

    fn nonce(&self) -> Result<[u8; 16], KeyFault> {
        NoKeys.nonce()
    }
}

/// Site 1 under start 1, empty, with as many workers as sessions.
fn setup_of(alloc: Global, sessions: u64) -> Result<Setup<'static>, GateFault> {
    Ok(Setup {
        gate: Gate::read(alloc, GATE)?,
        reloads: Arc::new(alloc, Reloads::new()).map_err(|_| GateFault::NoMemory)?,
        replica: Replica::new(alloc),
        site: 1,
        start: 1,
        peers: Vec::new(alloc),
        keys: None,
        sites: Vec::new(alloc),
        workers: sessions as usize,
        pause_ms: 50,
        sessions,
        idle_ms: 0,
        connections: 1024,
        prints: Prints::Report,
        page: None,
    })
}

/// A listener at a port of the system's choice, and that port.
fn listening<R>(rt: &R) -> io::Result<(TcpListener, u16)>
where
    R: Net<Listener = TcpListener, Stream = TcpStream>,
{
    let listener = TcpListener::bind(rt, "127.0.0.1:0")?;
    let port = listener.local_addr()?.port();
    Ok((listener, port))
}

/// A connection on which these lines were sent, and that is closed on this side.
fn asked<R>(rt: &R, port: u16, lines: &str) -> io::Result<TcpStream>
where
    R: Net<Listener = TcpListener, Stream = TcpStream>,
{
    let mut stream = TcpStream::connect(rt, ("127.0.0.1", port))?;
    stream.write_all(lines.as_bytes())?;
    stream.shutdown(Shutdown::Write)?;
    Ok(stream)
}

/// What a site answers to these lines.
fn talk<R>(rt: &R, alloc: Global, port: u16, lines: &str) -> io::Result<String>
where
    R: Net<Listener = TcpListener, Stream = TcpStream>,
{
    io::read_to_string(alloc, asked(rt, port, lines)?)
}

/// What a site answers two clients, of which the second is answered first.
fn talk_twice<R>(rt: &R, alloc: Global, port: u16) -> io::Result<(String, String)>
where
    R: Net<Listener = TcpListener, Stream = TcpStream>,
{
    let first = asked(rt, port, "hello 2\nquit\n")?;
    let second = talk(rt, alloc, port, "hello 2\nquit\n")?;
    Ok((io::read_to_string(alloc, first)?, second))
}

/// Runs a site of so many sessions: how it ended, and what it printed.
fn run<R>(
    rt: &R,
    alloc: Global,
    listener: TcpListener,
    sessions: u64,
    hooks: &Holds<R>,
) -> (Result<Served, ServeFault>, Vec<u8>)
where
    R: Net<Listener = TcpListener, Stream = TcpStream> + Threads + Wait + Clock + Copy + Sync,
{
    let mut output = Ends::new(Vec::new(alloc));
    let errors = Ends::new(Vec::new(alloc));
    let Ok(setup) = setup_of(alloc, sessions) else {
        return (Err(ServeFault::NoMemory), output.into_inner());
    };
    let stop = Stop::new();
    let served = serve_run(
        rt,
        alloc,
        listener,
        setup,
        &stop,
        &mut output,
        errors,
        hooks,
    );
    (served, output.into_inner())
}

/// How many operations a site had that ended well.
fn count_of(served: Result<Served, ServeFault>) -> Option<usize> {
    Some(served.ok()?.replica.len())
}

/// A client that takes in a patch set, and asks what is ready; what it is answered, and what the site prints last.
const TAKE: &str =
    "hello 2\ntake {\"change\":101,\"message\":\"m\",\"op\":\"patchset\",\"set\":1}\nready\nquit\n";

const TAKEN: &str = "hello 2\nok 1,1,1,1\nout 101,1 require approval 1\nend 0 1\nbye\n";

const PRINTED: &[u8] = b"out 101,1 require approval 1\nend 0 1\n";

/// A client takes in a patch set, reads its report, and the site prints it and has the patch set in the end.
#[test]
fn a_site_is_served_within_a_process(rt: HostRuntime) -> Result<(), Fail> {
    let (listener, port) = listening(&rt)?;
    let hooks = Holds::new(rt, false);
    let client = thread::spawn(&rt, move || talk(&rt, rt.alloc(), port, TAKE))?;
    let (served, printed) = run(&rt, rt.alloc(), listener, 1, &hooks);
    let answers = client.join(&rt)?;
    assert_found(&rt, answers.as_str(), TAKEN);
    assert_found(&rt, count_of(served), Some(1));
    assert_found(&rt, printed.as_slice().ends_with(PRINTED), true);
    Ok(())
}

/// Of two sessions side by side both are answered, of which the first is held until the second has ended.
#[test]
fn a_held_session_holds_no_other(rt: HostRuntime) -> Result<(), Fail> {
    let (listener, port) = listening(&rt)?;
    let hooks = Holds::new(rt, true);
    let clients = thread::spawn(&rt, move || talk_twice(&rt, rt.alloc(), port))?;
    let (served, _printed) = run(&rt, rt.alloc(), listener, 2, &hooks);
    let (first, second) = clients.join(&rt)?;
    assert_found(&rt, first.as_str(), "hello 2\nbye\n");
    assert_found(&rt, second.as_str(), "hello 2\nbye\n");
    assert_found(&rt, count_of(served), Some(0));
    assert_found(&rt, hooks.is_given_up.load(Ordering::SeqCst), false);
    Ok(())
}
