//! What the lines of a script say.

ghost use Rattle.std.specs.Prelude.{◌≡◌, ℕ, false, List, ◌∷◌, IfOk, IfErr, IfSome, IfNone, Option, codes};
ghost use Rattle.std.specs.Option.{option_copied};
ghost use Rattle.gate_rules.specs.Rules.{GateRules};
ghost use Rattle.script_text.specs.Fields.{IsNumberField};
ghost use Rattle.script_text.specs.Script.{IsNumberBefore, IsStepRead, IsReadAfter, IsUnreadScript, SaysScript, SaysSites};
ghost use Rattle.script_text.specs.Script.{SaysStep, line_fault_of, most_site, names_site};

use super::fault::ScriptFault;
use super::fields::{after_word, read_number, split_field};
use super::script_lines::ScriptLines;
use gate_rules::Gate;
use op_text::{OpTextFault, read_body, read_front};
use std::alloc::Global;
use world_core::Event;

/// The most sites that a script has.
const MOST_SITES: u64 = 64;

/// The greatest number of a site in a script.
const MOST_SITE: u64 = 65_535;

/// The greatest start in a script.
const MOST_START: u64 = 4_294_967_295;

/// What a line asks for.
#[derive(Drop)]
pub enum Step<'a> {
    /// Something happens in the world.
    Happens(Event),
    /// A site packs what the front of another lacks, as it is at that moment.
    SendTo { site: u16, receiver: u16 },
    /// The state text of a site is printed.
    State { site: u16 },
    /// The front of a site is printed.
    Front { site: u16 },
    /// The report of a site is printed, under a gate.
    Ready { site: u16, gate: &'a Gate },
}

/// A script, as far as it can be played.
#[derive(Drop)]
pub struct Script<'a> {
    /// How many sites there are, 1 to 64.
    pub sites: u16,
    /// What its lines ask for, in order.
    pub steps: Vec<Step<'a>>,
    /// The number of the line at which the script ends because it says no step, if there is one.
    pub bad_line: Option<u64>,
}

/// Why a line of a script is bad.
#[derive(Drop)]
enum LineFault {
    Bad,
    NoMemory,
}

/// Reads a script: its first line that says something is `sites N`, N from 1 to 64, and each later one says a step, up
/// to the first that says none. A `ready` line says a step only under a gate. Refusals: 1 `BadSites`, the first line
/// says no number of sites, or there is none; 3 `NoMemory`. In O(n) for a text of n bytes.
pub fn read_script<'a>(
    alloc: Global,
    text: &[u8],
    gate: Option<&'a Gate>,
) -> Result<Script<'a>, ScriptFault>
    ensures says { IfOk result
        (λ script. SaysScript (option_copied gate.entry) text.now script.sites script.steps.items script.bad_line) }
    ensures unread { IfErr result (IsUnreadScript text.now) }
{
    let mut lines = ScriptLines::new(text);
    let Some((_, first)) = lines.next_line() else {
        return Err(ScriptFault::BadSites);
    };
    let Some(sites) = read_sites(first) else {
        return Err(ScriptFault::BadSites);
    };
    let mut script = Script {
        sites,
        steps: Vec::new(alloc),
        bad_line: None,
    };
    while let Some((number, line)) = lines.next_line() {
        match read_step(alloc, line, gate) {
            Ok(step) => {
                if script.steps.push(step).is_err() {
                    return Err(ScriptFault::NoMemory);
                }
            }
            Err(LineFault::NoMemory) => return Err(ScriptFault::NoMemory),
            Err(LineFault::Bad) => {
                script.bad_line = Some(number);
                return Ok(script);
            }
        }
    }
    Ok(script)
}

/// `sites N`
fn read_sites(line: &[u8]) -> Option<u16>
    ensures found { IfSome result (SaysSites line.now) }
    ensures none { IfNone result ((sites : ℕ) → ¬ SaysSites line.now sites) }
{
    let field = after_word(line, b"sites")?;
    let sites = read_number(field, MOST_SITES)?;
    if sites == 0 {
        return None;
    }
    Some(sites as u16)
}

/// What a line asks for.
fn read_step<'a>(alloc: Global, line: &[u8], gate: Option<&'a Gate>) -> Result<Step<'a>, LineFault>
    ensures says { IfOk result (SaysStep (option_copied gate.entry) line.now) }
    // What a line says is read.
    ensures only { (step : Step) → SaysStep (option_copied gate.entry) line.now step → IsStepRead step result }
{
    if let Some(fields) = after_word(line, b"intake") {
        return read_intake(alloc, fields);
    }
    if let Some(fields) = after_word(line, b"send") {
        return read_send(alloc, fields);
    }
    if let Some(fields) = after_word(line, b"deliver") {
        return read_deliver(fields);
    }
    if let Some(fields) = after_word(line, b"restart") {
        return read_restart(fields);
    }
    if let Some(field) = after_word(line, b"save") {
        let site = read_site(field)?;
        return Ok(Step::Happens(Event::Save { site }));
    }
    if let Some(field) = after_word(line, b"state") {
        let site = read_site(field)?;
        return Ok(Step::State { site });
    }
    if let Some(field) = after_word(line, b"front") {
        let site = read_site(field)?;
        return Ok(Step::Front { site });
    }
    if let Some(field) = after_word(line, b"ready") {
        return read_ready(field, gate);
    }
    Err(LineFault::Bad)
}

/// `SITE`, under the gate
fn read_ready<'a>(field: &[u8], gate: Option<&'a Gate>) -> Result<Step<'a>, LineFault>
    ensures says { IfOk result (IsReadAfter (option_copied gate.entry) (codes "ready") field.now) }
    ensures only { (step : Step) → IsReadAfter (option_copied gate.entry) (codes "ready") field.now step
        → IsStepRead step result }
{
    let Some(gate) = gate else {
        return Err(LineFault::Bad);
    };
    let site = read_site(field)?;
    Ok(Step::Ready { site, gate })
}

/// `SITE BODY`
fn read_intake<'a>(alloc: Global, fields: &[u8]) -> Result<Step<'a>, LineFault>
    ensures says { (gate : Option GateRules) → IfOk result (IsReadAfter gate (codes "intake") fields.now) }
    ensures only { (gate : Option GateRules) → (step : Step) → IsReadAfter gate (codes "intake") fields.now step
        → IsStepRead step result }
{
    let Some((site, body)) = site_before(fields) else {
        return Err(LineFault::Bad);
    };
    match read_body(alloc, body) {
        Ok(draft) => Ok(Step::Happens(Event::Intake { site, draft })),
        Err(fault) => Err(line_fault(&fault)),
    }
}

/// `SITE FRONT` or `SITE @SITE`
fn read_send<'a>(alloc: Global, fields: &[u8]) -> Result<Step<'a>, LineFault>
    ensures says { (gate : Option GateRules) → IfOk result (IsReadAfter gate (codes "send") fields.now) }
    ensures only { (gate : Option GateRules) → (step : Step) → IsReadAfter gate (codes "send") fields.now step
        → IsStepRead step result }
{
    let Some((site, front)) = site_before(fields) else {
        return Err(LineFault::Bad);
    };
    if let Some(field) = named_site(front) {
        let receiver = read_site(field)?;
        return Ok(Step::SendTo { site, receiver });
    }
    match read_front(alloc, front) {
        Ok(front) => Ok(Step::Happens(Event::Send { site, front })),
        Err(fault) => Err(line_fault(&fault)),
    }
}

/// The field that names a site whose front is meant, behind its `@`.
fn named_site(front: &[u8]) -> Option<&[u8]>
    ensures found { IfSome result (λ field. front.now ≡ 64 ∷ field.now) }
    ensures none { IfNone result (names_site front.now ≡ false) }
{
    if front.is_empty() || front[0] != b'@' {
        return None;
    }
    Some(&front[1..])
}

/// The fault of a line whose body or front can't be read.
fn line_fault(fault: &OpTextFault) -> LineFault
    ensures { result ≡ line_fault_of fault.now }
{
    match fault {
        OpTextFault::NoMemory => LineFault::NoMemory,
        _ => LineFault::Bad,
    }
}

/// `SITE START`
fn read_restart<'a>(fields: &[u8]) -> Result<Step<'a>, LineFault>
    ensures says { (gate : Option GateRules) → IfOk result (IsReadAfter gate (codes "restart") fields.now) }
    ensures only { (gate : Option GateRules) → (step : Step) → IsReadAfter gate (codes "restart") fields.now step
        → IsStepRead step result }
{
    let Some((site, start)) = site_before(fields) else {
        return Err(LineFault::Bad);
    };
    let Some(start) = read_number(start, MOST_START) else {
        return Err(LineFault::Bad);
    };
    let start = start as u32;
    Ok(Step::Happens(Event::Restart { site, start }))
}

/// `PACKET SITE`
fn read_deliver<'a>(fields: &[u8]) -> Result<Step<'a>, LineFault>
    ensures says { (gate : Option GateRules) → IfOk result (IsReadAfter gate (codes "deliver") fields.now) }
    ensures only { (gate : Option GateRules) → (step : Step) → IsReadAfter gate (codes "deliver") fields.now step
        → IsStepRead step result }
{
    let Some((packet, site)) = number_before(fields, u64::MAX) else {
        return Err(LineFault::Bad);
    };
    let site = read_site(site)?;
    Ok(Step::Happens(Event::Deliver { packet, site }))
}

/// A number before a blank, and what follows the blank.
fn number_before(fields: &[u8], most: u64) -> Option<(u64, &[u8])>
    ensures found { IfSome result (λ found. IsNumberBefore fields.now most found.0 found.1.now) }
    ensures none { IfNone result ((number : ℕ) (rest : List ℕ) → ¬ IsNumberBefore fields.now most number rest) }
{
    let Some((field, rest)) = split_field(fields) else {
        return None;
    };
    match read_number(field, most) {
        Some(number) => Some((number, rest)),
        None => None,
    }
}

/// A site's number before a blank, and what follows the blank.
fn site_before(fields: &[u8]) -> Option<(u16, &[u8])>
    ensures found { IfSome result (λ found. IsNumberBefore fields.now most_site found.0 found.1.now) }
    ensures none { IfNone result ((site : ℕ) (rest : List ℕ) → ¬ IsNumberBefore fields.now most_site site rest) }
{
    match number_before(fields, MOST_SITE) {
        Some((site, rest)) => Some((site as u16, rest)),
        None => None,
    }
}

/// A site's number.
fn read_site(field: &[u8]) -> Result<u16, LineFault>
    ensures found { IfOk result (IsNumberField field.now most_site) }
    ensures none { IfErr result (λ fault. (site : ℕ) → ¬ IsNumberField field.now most_site site) }
{
    match read_number(field, MOST_SITE) {
        Some(site) => Ok(site as u16),
        None => Err(LineFault::Bad),
    }
}
