//! Prints the reports of a site, or their changes, whenever its verdicts change.

ghost use Rattle.std.specs.Prelude.{◌≡◌, [], IfOk};
ghost use Rattle.std.specs.List.Sorted.{IsStrictlySortedBy};
ghost use Rattle.std.specs.Option.{ForSome};
ghost use Rattle.ready_core.specs.Verdicts.{items_out};
ghost use Rattle.report_changes.specs.Lines.{changes_text};
ghost use Rattle.report_changes.specs.Listing.{listed_of};
ghost use Rattle.report_text.specs.Report.{report_of};
ghost use Rattle.site_serve.specs.Fault.{after_window};
ghost use Rattle.site_serve.specs.InForce.{followed_gate};
ghost use Rattle.site_serve.specs.Reports.{IsPrintedOf};
ghost use Rattle.site_shared.specs.Accounts.{GoesOn};
ghost use Rattle.state_core.specs.Items.{item_cmp};

use super::errors::Errors;
use super::gate_follower::GateFollower;
use super::kept_verdicts::up_to_date_watch;
use super::news::{News, Notice};
use super::opening::{OwnWatch, OwnWindow};
use super::setup::{Prints, ServeFault};
use byte_ends::{Drain, Ends, write_all};
use gate_rules::Gate;
use ready_core::Verdicts;
use report_changes::{Listed, write_changes};
use report_text::write_report;
use site_shared::{Naming, WindowFault};
use std::alloc::Global;
use std::io;
use std::sync::Wait;
use std::time::{Clock, Duration, Instant};

/// How many times as long as a report took to make its thread rests before the next one. A publish may have to wait for
/// a window that is looked through, so that reports hold up takes for a twentieth of the time.
const REST: u32 = 19;

/// The longest such rest in seconds, and how many times as long as a report took it rests at least: where a report
/// takes long, so that it is fresher, it may hold up takes for a fifth of the time.
const LONG_REST_S: u64 = 5;

const LEAST_REST: u32 = 4;

/// The longest rest in seconds.
const LONGEST_REST_S: u64 = 60;

/// How the printing of reports ended.
#[derive(Drop)]
pub struct Printed {
    /// Whether everything was written.
    pub written: bool,
    /// Why the last look failed, if it did.
    pub fault: Option<ServeFault>,
}

/// What a look gives to print.
#[derive(Drop)]
struct Shown {
    /// What is to be printed.
    text: Vec<u8>,
    /// What is listed, where changes are printed.
    listed: Listed,
}

/// Prints the report of what the window shows, and each one that differs from the last, or what changed from one to the
/// next, until nothing new comes any more. After each it rests, unless another gate is put in force, under which the
/// next one is made at once. The verdicts are kept from one look to the next, and brought up to date with what the
/// window shows; those under another gate are made anew. Once the output has failed, nothing more is printed, and that
/// is reported on standard error.
pub fn print_reports<R: Wait + Clock, W: Drain + Drop, E: Drain, J: Naming>(
    rt: &R,
    printer: ReportPrinter<'_, W, J>,
    news: &News<J>,
    errors: &Errors<E>,
) -> Printed {
    let mut printer = printer;
    let mut is_over = false;
    for _ in rt.forever() {
        let rest = printer.print_next(rt, errors);
        if is_over {
            return printer.printed;
        }
        is_over = printer.is_over_at(news.next(rt, rest));
    }
    unreachable!()
}

/// Prints the reports of a site: the gate and the window that they are made with, the output, and what was printed.
#[derive(Drop)]
pub struct ReportPrinter<'a, W: Drop, J: Naming> {
    alloc: Global,
    follower: GateFollower<'a>,
    prints: Prints,
    window: OwnWindow<J>,
    output: W,
    /// The verdicts of the last look.
    kept: Option<OwnWatch<J>>,
    last: Shown,
    printed: Printed,
    ghost under_gate: { ForSome kept (λ watch. watch.watch.gate ≡ followed_gate follower) },
}

impl<'a, W: Drain + Drop, J: Naming> ReportPrinter<'a, W, J> {
    /// A printer that has printed nothing yet.
    pub fn new(
        alloc: Global,
        follower: GateFollower<'a>,
        prints: Prints,
        window: OwnWindow<J>,
        output: W,
    ) -> ReportPrinter<'a, W, J> {
        ReportPrinter {
            alloc,
            follower,
            prints,
            window,
            output,
            kept: None,
            last: nothing_shown(alloc),
            printed: Printed {
                written: true,
                fault: None,
            },
        }
    }

    /// Prints what is shown now, if that is new. Returns how long to rest afterwards.
    fn print_next<R: Wait + Clock, E: Drain>(&mut self, rt: &R, errors: &Errors<E>) -> Duration {
        self.follower.follow(rt, &mut self.kept);
        let begun = Instant::now(rt);
        let shown = next_shown(
            self.alloc,
            self.follower.in_force.gate(),
            self.prints,
            &mut self.window,
            &mut self.kept,
            &self.last.listed,
        );
        let rest = rest_since(rt, begun);
        self.note_shown(rt, shown, errors);
        rest
    }

    /// Prints what is shown, or notes the fault of the look, which is reported on standard error unless the look before
    /// failed, too.
    fn note_shown<R: Wait, E: Drain>(
        &mut self,
        rt: &R,
        shown: Result<Shown, ServeFault>,
        errors: &Errors<E>,
    ) {
        match shown {
            Ok(shown) => {
                self.printed.fault = None;
                self.print(rt, shown, errors);
            }
            Err(fault) => {
                if self.printed.fault.is_none() {
                    errors.report_serve_fault(rt, self.alloc, fault);
                }
                self.printed.fault = Some(fault);
            }
        }
    }

    /// Prints what is shown, where that is news and the output has taken all so far.
    fn print<R: Wait, E: Drain>(&mut self, rt: &R, shown: Shown, errors: &Errors<E>) {
        if self.printed.written && is_news(self.prints, &shown, &self.last) {
            self.printed.written = is_printed(rt, self.alloc, &shown, &mut self.output, errors);
        }
        self.last = shown;
    }

    /// Takes a notice, and learns the receipt in it, if there is one. Returns whether it is the last.
    fn is_over_at(&mut self, notice: Notice<J>) -> bool {
        match notice {
            Notice::Published(receipt) => {
                let _own = self.window.learn(&receipt);
                false
            }
            Notice::Reloaded => false,
            Notice::Over => true,
        }
    }
}

/// Whether a text is printed after the last one: a report where it differs, and what changed where anything did.
fn is_news(prints: Prints, shown: &Shown, last: &Shown) -> bool {
    match prints {
        Prints::Report => shown.text != last.text,
        Prints::Changes => !shown.text.is_empty(),
        Prints::Nothing => false,
    }
}

/// Writes a text to the output. Returns whether that succeeded; a failure is reported on standard error.
fn is_printed<R: Wait, W: Drain, E: Drain>(
    rt: &R,
    alloc: Global,
    shown: &Shown,
    output: &mut W,
    errors: &Errors<E>,
) -> bool {
    let is_written = write_all(output, shown.text.as_slice()).is_ok();
    if !is_written {
        errors.report_output_fault(rt, alloc);
    }
    is_written
}

/// How long to rest after a report that was begun then; not at all where the clock can't be read.
fn rest_since<R: Clock>(rt: &R, begun: io::Result<Instant>) -> Duration {
    match begun.and_then(|begun| begun.elapsed(rt)) {
        Ok(took) => took
            .saturating_mul(REST)
            .min(Duration::from_secs(LONG_REST_S))
            .max(took.saturating_mul(LEAST_REST))
            .min(Duration::from_secs(LONGEST_REST_S)),
        Err(_) => Duration::ZERO,
    }
}

/// What is shown of what a window shows, by the verdicts that are kept, after what was listed before.
fn next_shown<J: Naming>(
    alloc: Global,
    gate: &Gate,
    prints: Prints,
    window: &mut OwnWindow<J>,
    kept: &mut Option<OwnWatch<J>>,
    before: &Listed,
) -> Result<Shown, ServeFault>
    requires { ForSome kept.old (λ watch. watch.watch.gate ≡ gate.now) }
    ensures gate { ForSome kept.new (λ watch. watch.watch.gate ≡ gate.now) }
    ensures later { GoesOn window.old.window window.new.window }
    ensures shown { IfOk result (λ shown. IsPrintedOf prints gate.now window.new.window.seen before.now shown.text.items
        shown.listed) }
{
    if prints == Prints::Nothing {
        return Ok(nothing_shown(alloc));
    }
    let watch = match up_to_date_watch(gate, window, kept.take()) {
        Ok(watch) => watch,
        Err(fault) => return Err(serve_fault(fault)),
    };
    let shown = shown_of(alloc, prints, &watch, before);
    *kept = Some(watch);
    shown
}

/// Nothing is printed.
fn nothing_shown(alloc: Global) -> Shown
    ensures { result.text.items ≡ [] }
{
    Shown {
        text: Vec::new(alloc),
        listed: Listed::new(alloc),
    }
}

/// What is shown of what a watch saw. It has no verdicts only where memory was refused.
fn shown_of<J: Naming>(
    alloc: Global,
    prints: Prints,
    watch: &OwnWatch<J>,
    before: &Listed,
) -> Result<Shown, ServeFault>
    ensures { IfOk result (λ shown. IsPrintedOf prints watch.now.watch.gate watch.now.watch.seen before.now shown.text.items
        shown.listed) }
{
    let Some(verdicts) = watch.verdicts() else {
        return Err(ServeFault::NoMemory);
    };
    match prints {
        Prints::Report => report_shown(alloc, verdicts),
        Prints::Changes => changes_shown(alloc, verdicts, before),
        Prints::Nothing => Ok(nothing_shown(alloc)),
    }
}

/// The report of verdicts.
fn report_shown(alloc: Global, verdicts: &Verdicts) -> Result<Shown, ServeFault>
    ensures { IfOk result (λ shown. shown.text.items ≡ report_of verdicts.now) }
{
    let mut text = Ends::new(Vec::new(alloc));
    match write_report(verdicts, &mut text) {
        Ok(()) => Ok(Shown {
            text: text.into_inner(),
            listed: Listed::new(alloc),
        }),
        Err(_) => Err(ServeFault::NoMemory),
    }
}

/// What changed in verdicts, after what was listed before, and what is listed of them.
fn changes_shown(alloc: Global, verdicts: &Verdicts, before: &Listed) -> Result<Shown, ServeFault>
    requires { IsStrictlySortedBy item_cmp (items_out verdicts.now.out) }
    ensures text { IfOk result (λ shown. shown.text.items ≡ changes_text before.now (listed_of verdicts.now)) }
    ensures listed { IfOk result (λ shown. shown.listed ≡ listed_of verdicts.now) }
{
    let Ok(listed) = Listed::of(alloc, verdicts) else {
        return Err(ServeFault::NoMemory);
    };
    let mut text = Ends::new(Vec::new(alloc));
    match write_changes(alloc, before, &listed, &mut text) {
        Ok(()) => Ok(Shown {
            text: text.into_inner(),
            listed,
        }),
        Err(_) => Err(ServeFault::NoMemory),
    }
}

/// The fault of a site for a fault of its window.
fn serve_fault(fault: WindowFault) -> ServeFault
    ensures { result ≡ after_window fault }
{
    match fault {
        WindowFault::NoMemory => ServeFault::NoMemory,
        WindowFault::Closed => ServeFault::NoPlace,
    }
}
