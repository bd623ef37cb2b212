//! Starts the thread that reads a site's standard input.

use super::input_commands::{InputContext, lines_of_input, start_input_thread};
use super::shared_errors::SharedErrors;
use byte_ends::{Drain, Source};
use console::Named;
use site_net::Stop;
use site_serve::{Reloads, ServeFault};
use std::alloc::{AllocError, Global};
use std::sync::{Arc, Wait};
use std::thread::Threads;
use std::time::Clock;

/// What a site shares with the thread that reads its standard input: the stop flag, the gates that are put in force, and
/// standard error.
#[derive(Drop)]
pub struct SiteControls<R> {
    pub stop: Arc<Stop, Global>,
    pub reloads: Arc<Reloads, Global>,
    pub errors: SharedErrors<R>,
}

impl<R: Wait + Clock + Copy> SiteControls<R> {
    /// Controls whose stop flag isn't set, and under which the site's first gate is in force.
    pub fn new(alloc: Global, errors: SharedErrors<R>) -> Result<SiteControls<R>, AllocError> {
        let stop = Arc::new(alloc, Stop::new()).map_err(|_| AllocError)?;
        let reloads = Arc::new(alloc, Reloads::new()).map_err(|_| AllocError)?;
        Ok(SiteControls {
            stop,
            reloads,
            errors,
        })
    }

    /// What that thread needs to carry out commands, given the name of the gate file.
    pub fn input_context<N: Drop>(
        &self,
        alloc: Global,
        gate: &str,
        files: N,
    ) -> Result<InputContext<R, N>, AllocError> {
        let stop = Arc::try_clone(&self.stop)?;
        let reloads = Arc::try_clone(&self.reloads)?;
        let gate = String::from_str(alloc, gate)?;
        let errors = self.errors.share()?;
        Ok(InputContext {
            stop,
            reloads,
            gate,
            files,
            errors,
        })
    }
}

/// With `--until-input-ends`, starts a thread that handles the lines of the input; else the input isn't read. Returns
/// what the site shares with that thread.
pub fn start_input<R, I, N, E>(
    rt: R,
    alloc: Global,
    gate: &str,
    until_input_ends: bool,
    input: I,
    files: N,
    errors: E,
) -> Result<SiteControls<R>, ServeFault>
where
    R: Threads + Wait + Clock + Copy + Send + 'static,
    I: Source + Send + Drop + 'static,
    N: Named + Send + Drop + 'static,
    E: Drain + Send + Drop + 'static,
{
    let controls = new_controls(rt, alloc, errors)?;
    if !until_input_ends {
        return Ok(controls);
    }
    match prepare_thread(rt, alloc, gate, input, files, &controls) {
        Ok(()) => Ok(controls),
        Err(fault) => Err(fault),
    }
}

/// New controls, whose standard error is written to this end.
fn new_controls<R, E>(rt: R, alloc: Global, errors: E) -> Result<SiteControls<R>, ServeFault>
where
    R: Threads + Wait + Clock + Copy + Send + 'static,
    E: Drain + Send + Drop + 'static,
{
    match SharedErrors::new(rt, alloc, errors) {
        Ok(Some(errors)) => SiteControls::new(alloc, errors).map_err(|_| ServeFault::NoMemory),
        Ok(None) => Err(ServeFault::NoPlace),
        Err(_) => Err(ServeFault::NoMemory),
    }
}

/// Prepares the thread that handles the lines of the input, and starts it.
fn prepare_thread<R, I, N>(
    rt: R,
    alloc: Global,
    gate: &str,
    input: I,
    files: N,
    controls: &SiteControls<R>,
) -> Result<(), ServeFault>
where
    R: Threads + Wait + Clock + Copy + Send + 'static,
    I: Source + Send + Drop + 'static,
    N: Named + Send + Drop + 'static,
{
    match controls.input_context(alloc, gate, files) {
        Ok(input_context) => start_thread(rt, alloc, input, input_context),
        Err(_) => Err(ServeFault::NoMemory),
    }
}

/// Starts the thread that handles the lines of the input.
fn start_thread<R, I, N>(
    rt: R,
    alloc: Global,
    input: I,
    input_context: InputContext<R, N>,
) -> Result<(), ServeFault>
where
    R: Threads + Wait + Clock + Copy + Send + 'static,
    I: Source + Send + Drop + 'static,
    N: Named + Send + Drop + 'static,
{
    let Ok(lines) = lines_of_input(alloc) else {
        return Err(ServeFault::NoMemory);
    };
    if start_input_thread(rt, alloc, lines, input, input_context) {
        Ok(())
    } else {
        Err(ServeFault::NoPlace)
    }
}
