//! Runs the command `enqueue`.

use super::projects::read_projects;
use byte_ends::{Drain, Source};
use command_line::EnqueueWords;
use commands::report;
use console::{Console, Named, Refusal, Streams, show_line};
use enqueue_lines::{
    EnqueueFault, ItemSet, Pipeline, Places, Template, TemplateFault, hand_over, read_handed,
    read_places,
};
use gerrit_events::Projects;
use refusal_line::{Part, refusal_line};
use std::alloc::{AllocError, Global};

/// How many bytes the answer of a query, and the list of items that were handed over, may have: 1 GiB.
const FILE_LIMIT: usize = 1_073_741_824;

/// The settings of `enqueue`, once its files are read.
#[derive(Drop)]
struct Order {
    template: Template,
    places: Places,
    projects: Projects,
    handed: ItemSet,
}

/// Why nothing is handed over, or no more.
#[derive(Drop)]
enum Stopped<'n> {
    File(Refusal<'n>),
    Template(TemplateFault<'n>),
    Enqueue(EnqueueFault),
}

/// Runs `enqueue`: writes a line for each item that becomes ready in the reports of the input. Returns the exit status:
/// 0 at the end of the input, else 1.
pub fn enqueue<I: Source, O: Drain, E: Drain, N: Named>(
    alloc: Global,
    words: EnqueueWords<'_>,
    input: &mut I,
    output: &mut O,
    errors: &mut E,
    files: &mut N,
) -> u8 {
    let mut console = Streams {
        input: &mut *input,
        output: &mut *output,
        files,
        is_spent: false,
    };
    let ended = match read_order(alloc, &words, &mut console) {
        Ok(order) => hand_on(alloc, &words, order, input, output, errors),
        Err(stopped) => Err(stopped),
    };
    match ended {
        Ok(()) => 0,
        Err(Stopped::File(refusal)) => report(alloc, &Err(refusal), errors),
        Err(Stopped::Template(fault)) => {
            show_line(&template_line(alloc, &fault), errors);
            1
        }
        Err(Stopped::Enqueue(fault)) => {
            show_line(&fault_line(alloc, &fault), errors);
            1
        }
    }
}

/// Parses the template, and then reads the files that the arguments name.
fn read_order<'n, C: Console>(
    alloc: Global,
    words: &EnqueueWords<'n>,
    console: &mut C,
) -> Result<Order, Stopped<'n>> {
    let template = match Template::read(alloc, words.template) {
        Ok(template) => template,
        Err(fault) => return Err(Stopped::Template(fault)),
    };
    let places = places_in(alloc, words.query, console)?;
    let projects = match read_projects(alloc, Vec::new(alloc), words.projects, console) {
        Ok(projects) => projects,
        Err(refusal) => return Err(Stopped::File(refusal)),
    };
    let handed = handed_in(alloc, words.handed, console)?;
    Ok(Order {
        template,
        places,
        projects,
        handed,
    })
}

/// Where changes are to be merged, by the answer of a query of this name.
fn places_in<'n, C: Console>(
    alloc: Global,
    name: &'n str,
    console: &mut C,
) -> Result<Places, Stopped<'n>> {
    let text = read_file(alloc, name, console)?;
    match read_places(alloc, text.as_slice()) {
        Ok(places) => Ok(places),
        Err(fault) => Err(Stopped::Enqueue(fault)),
    }
}

/// The items that were handed over before, by the file of this name, where one is named.
fn handed_in<'n, C: Console>(
    alloc: Global,
    name: Option<&'n str>,
    console: &mut C,
) -> Result<ItemSet, Stopped<'n>> {
    let Some(name) = name else {
        return Ok(ItemSet::new(alloc));
    };
    let text = read_file(alloc, name, console)?;
    match read_handed(alloc, text.as_slice()) {
        Ok(handed) => Ok(handed),
        Err(fault) => Err(Stopped::Enqueue(fault)),
    }
}

/// The bytes of the file of a name.
fn read_file<'n, C: Console>(
    alloc: Global,
    name: &'n str,
    console: &mut C,
) -> Result<Vec<u8>, Stopped<'n>> {
    match console.read(alloc, name, FILE_LIMIT) {
        Ok(bytes) => Ok(bytes),
        Err(fault) => Err(Stopped::File(Refusal::File(name, fault))),
    }
}

/// Hands over the items of the input.
fn hand_on<'n, I: Source, O: Drain, E: Drain>(
    alloc: Global,
    words: &EnqueueWords<'n>,
    order: Order,
    input: &mut I,
    output: &mut O,
    errors: &mut E,
) -> Result<(), Stopped<'n>> {
    let Order {
        template,
        places,
        projects,
        handed,
    } = order;
    let pipeline = Pipeline {
        tenant: words.tenant.unwrap_or(""),
        name: words.pipeline.unwrap_or(""),
        template: &template,
        projects: &projects,
        places: &places,
    };
    match hand_over(alloc, &pipeline, handed, input, output, errors) {
        Ok(()) => Ok(()),
        Err(fault) => Err(Stopped::Enqueue(fault)),
    }
}

/// The line of a template's fault.
fn template_line(alloc: Global, fault: &TemplateFault<'_>) -> Result<String, AllocError> {
    let mut words = String::new(alloc);
    fault.write_words(&mut words)?;
    refusal_line(alloc, Part::Enqueue, fault.number(), words.as_str())
}

/// The line of a fault.
fn fault_line(alloc: Global, fault: &EnqueueFault) -> Result<String, AllocError> {
    let mut words = String::new(alloc);
    fault.write_words(&mut words)?;
    refusal_line(alloc, Part::Enqueue, fault.number(), words.as_str())
}
