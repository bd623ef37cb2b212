//! A gate: what it requires of items, and what it rejects.

ghost use Rattle.std.specs.Prelude.{◌≡◌, ◌≢◌, ℕ, List, Some, IfOk, IfErr, MatchOption, MatchResult, map, option_map};
ghost use Rattle.std.specs.Prelude.{string_bytes};
ghost use Rattle.gate_rules.specs.Rules.{LabelRule, PatternRule, SideRules, GateRules};
ghost use Rattle.change_core.specs.VoteShown.{approval_shown};
ghost use Rattle.gate_rules.specs.Own.{takes, names, labels_take, matches, compared, IsFirstApproval, IsFirstWith};
ghost use Rattle.gate_rules.specs.Own.{IsBroken, IsFirstBroken, IsOwn, side_rules};
ghost use Rattle.state_core.specs.Items.{IsItem};
ghost use Rattle.gate_rules.specs.Spelling.{SpellsGate, IsBadBase, IsRefusalOf, NamesItem};
ghost use Rattle.gate_rules.specs.declared.bad_base.BadBase.{BadBase};

use super::build::read_gate;
use super::condition::{Clause, Condition, Side};
use super::fault::GateFault;
use super::own::{Standing, came_out, has_value};
use change_core::Approval;
use footer_text::Bases;
use lattice_core::NoMemory;
use state_core::{Item, State};
use std::alloc::Global;
use std::marker::Model;

/// A label of a pattern, in lower case, and the values that are accepted.
#[derive(Debug, Drop)]
pub struct LabelValues {
    label: String,
    values: Vec<i8>,
}

impl Model for LabelValues {
    ghost Value = { LabelRule };

    ghost view = { λ rule. record { label = string_bytes rule.label; values = rule.values.items } };
}

/// What an approval must be: by this voter, where one is named, and of each of these labels.
#[derive(Debug, Drop)]
pub struct Pattern {
    username: Option<String>,
    labels: Vec<LabelValues>,
}

impl Model for Pattern {
    ghost Value = { PatternRule };

    ghost view = { λ pattern. record {
      username = option_map string_bytes pattern.username;
      labels = pattern.labels.items;
    } };
}

/// The conditions of a side. Those that are absent demand nothing.
#[derive(Debug, Drop)]
pub struct Clauses {
    is_open: Option<bool>,
    is_current: Option<bool>,
    status: Option<Vec<String>>,
    approvals: Vec<Pattern>,
}

impl Model for Clauses {
    ghost Value = { SideRules };

    ghost view = { λ clauses. record {
      is_open = clauses.is_open;
      is_current = clauses.is_current;
      status = option_map (λ texts. map string_bytes texts.items) clauses.status;
      approvals = clauses.approvals.items;
    } };
}

/// The settings of a gate file.
#[derive(Debug, Drop)]
pub struct Gate {
    bases: Bases,
    connection: String,
    cycles: bool,
    require: Clauses,
    reject: Clauses,
}

impl Model for Gate {
    ghost Value = { GateRules };

    ghost view = { λ gate. record {
      bases = gate.bases;
      connection = string_bytes gate.connection;
      cycles = gate.cycles;
      require = gate.require;
      reject = gate.reject;
    } };
}

impl LabelValues {
    /// Whether the approval is of the label, and its value is accepted.
    fn takes(&self, approval: &Approval<'_>) -> bool
        ensures { result ≡ takes self.now (approval_shown approval.now) }
    {
        self.label.as_str() == approval.label && has_value(self.values.as_slice(), approval)
    }

    /// The label, in lower case.
    pub fn label(&self) -> &str
        ensures { result.now ≡ self.now.label }
    {
        &self.label
    }

    /// The values that are accepted.
    pub fn values(&self) -> &[i8]
        ensures { result.now ≡ self.now.values }
    {
        &self.values
    }

    /// A label, which is in lower case, and its values.
    pub(crate) fn new(label: String, values: Vec<i8>) -> LabelValues
        ensures { result ≡ record { label = string_bytes label; values = values.items } }
    {
        LabelValues { label, values }
    }

    /// A copy.
    fn copy(&self) -> Result<LabelValues, NoMemory>
        ensures { IfOk result (λ copy. copy ≡ self.now) }
    {
        let label = self.label.clone()?;
        let values = self.values.clone()?;
        Ok(LabelValues { label, values })
    }
}

impl Pattern {
    /// Whether the pattern matches the approval. A pattern without a label matches every label, and one with several
    /// labels matches none.
    pub fn matches(&self, approval: &Approval<'_>) -> bool
        ensures { result ≡ matches self.now (approval_shown approval.now) }
    {
        self.names(approval.voter) && labels_take(self.labels.as_slice(), approval)
    }

    /// The voter, where one is named.
    pub fn username(&self) -> Option<&str>
        ensures { option_map (λ name. name.now) result ≡ self.now.username }
    {
        match &self.username {
            Some(username) => Some(username.as_str()),
            None => None,
        }
    }

    /// The labels.
    pub fn labels(&self) -> &[LabelValues]
        ensures { result.now ≡ self.now.labels }
    {
        &self.labels
    }

    /// Whether the pattern matches this voter.
    fn names(&self, voter: &str) -> bool
        ensures { result ≡ names self.now.username voter.now }
    {
        match &self.username {
            Some(username) => username.as_str() == voter,
            None => true,
        }
    }

    /// A pattern of a voter, where one is named, and of labels.
    pub(crate) fn new(username: Option<String>, labels: Vec<LabelValues>) -> Pattern
        ensures { result
            ≡ record { username = option_map string_bytes username; labels = labels.items } }
    {
        Pattern { username, labels }
    }

    /// A copy.
    fn copy(&self) -> Result<Pattern, NoMemory>
        ensures { IfOk result (λ copy. copy ≡ self.now) }
    {
        let mut labels = Vec::new(*self.labels.allocator());
        for label in &self.labels {
            labels.push(label.copy()?)?;
        }
        let username = self.username.clone()?;
        Ok(Pattern { username, labels })
    }
}

/// Copies texts.
fn copied_texts(texts: &Option<Vec<String>>) -> Result<Option<Vec<String>>, NoMemory>
    ensures { IfOk result
        (λ copy. option_map (λ list. map string_bytes list.items) copy
        ≡ option_map (λ list. map string_bytes list.items) texts.now) }
{
    match texts {
        Some(list) => Ok(Some(list.clone()?)),
        None => Ok(None),
    }
}

/// Whether a list of labels matches an approval: an empty list matches every approval, and one of several labels none.
fn labels_take(labels: &[LabelValues], approval: &Approval<'_>) -> bool
    ensures { result ≡ labels_take labels.now (approval_shown approval.now) }
{
    if labels.is_empty() {
        return true;
    }
    labels.len() == 1 && labels[0].takes(approval)
}

impl Clauses {
    /// Whether the side asks for an open change (true) or a closed one (false); `None` if it doesn't ask.
    pub fn asks_open(&self) -> Option<bool>
        ensures { result ≡ self.now.is_open }
    {
        self.is_open
    }

    /// Whether the side asks for the current patch set (true) or another one (false); `None` if it doesn't ask.
    pub fn asks_current(&self) -> Option<bool>
        ensures { result ≡ self.now.is_current }
    {
        self.is_current
    }

    /// The statuses that the side asks for; `None` if it doesn't ask.
    pub fn statuses(&self) -> Option<&[String]>
        ensures { option_map (λ texts. map string_bytes texts.now) result ≡ self.now.status }
    {
        match &self.status {
            Some(texts) => Some(texts.as_slice()),
            None => None,
        }
    }

    /// The patterns of approvals, in the order of the gate file.
    pub fn approvals(&self) -> &[Pattern]
        ensures { result.now ≡ self.now.approvals }
    {
        &self.approvals
    }

    /// The conditions of a side.
    pub(crate) fn new(
        is_open: Option<bool>,
        is_current: Option<bool>,
        status: Option<Vec<String>>,
        approvals: Vec<Pattern>,
    ) -> Clauses
        ensures { result
            ≡ record {
              is_open = is_open;
              is_current = is_current;
              status = option_map (λ texts. map string_bytes texts.items) status;
              approvals = approvals.items;
            } }
    {
        Clauses {
            is_open,
            is_current,
            status,
            approvals,
        }
    }

    /// A copy.
    fn copy(&self) -> Result<Clauses, NoMemory>
        ensures { IfOk result (λ copy. copy ≡ self.now) }
    {
        let mut approvals = Vec::new(*self.approvals.allocator());
        for pattern in &self.approvals {
            approvals.push(pattern.copy()?)?;
        }
        let status = copied_texts(&self.status)?;
        Ok(Clauses {
            is_open: self.is_open,
            is_current: self.is_current,
            status,
            approvals,
        })
    }
}

impl Clauses {
    /// Whether a condition holds; `None` if the side doesn't have it.
    pub(crate) fn compare(&self, clause: Clause, standing: &Standing<'_>) -> Option<bool>
        ensures { result ≡ compared self.now standing.now clause }
    {
        match clause {
            Clause::OpenState => Some(standing.open_is(self.is_open?)),
            Clause::CurrentSet => Some(standing.current_is(self.is_current?)),
            Clause::StatusIn => {
                let texts = self.status.as_ref()?;
                Some(standing.status_among(texts.as_slice()))
            }
            Clause::Approval(number) => {
                if number == 0 {
                    return None;
                }
                let pattern = self.approvals.get(number - 1)?;
                Some(standing.meets(pattern))
            }
        }
    }

    /// The first approval that compares as wanted.
    fn first_approval(&self, wanted: bool, standing: &Standing<'_>) -> Option<Clause>
        ensures { MatchOption result
            ((number : ℕ) → compared self.now standing.now (Clause.Approval number) ≢ Some wanted)
            (IsFirstApproval self.now standing.now wanted) }
    {
        for place in 0..self.approvals.len() {
            let clause = Clause::Approval(place + 1);
            if came_out(self.compare(clause, standing), wanted) {
                return Some(clause);
            }
        }
        None
    }

    /// The first condition that compares as wanted.
    fn first_with(&self, wanted: bool, standing: &Standing<'_>) -> Option<Clause>
        ensures { MatchOption result
            ((clause : _) → compared self.now standing.now clause ≢ Some wanted)
            (IsFirstWith self.now standing.now wanted) }
    {
        if came_out(self.compare(Clause::OpenState, standing), wanted) {
            return Some(Clause::OpenState);
        }
        if came_out(self.compare(Clause::CurrentSet, standing), wanted) {
            return Some(Clause::CurrentSet);
        }
        if came_out(self.compare(Clause::StatusIn, standing), wanted) {
            return Some(Clause::StatusIn);
        }
        self.first_approval(wanted, standing)
    }
}

impl Gate {
    /// An item's own condition: the first condition that it breaks. What is required must hold, and what is rejected
    /// must not. The order is `open`, `current-patchset`, `status` and each approval of what is required, then the same
    /// of what is rejected. It takes no memory, and costs O(v p) for v votes on the change and p patterns.
    pub fn own(&self, state: &State, item: Item) -> Option<Condition>
        requires { IsItem state.now item }
        ensures { IsOwn self.now state.now item result }
    {
        let change = state.change(item.change).unwrap();
        let current = change.current().unwrap();
        self.first_broken(&Standing::new(change, current, item.set))
    }

    /// The first condition that is broken: those that are required come before those that reject.
    fn first_broken(&self, standing: &Standing<'_>) -> Option<Condition>
        ensures { MatchOption result
            ((condition : _) → ¬ IsBroken self.now standing.now condition)
            (IsFirstBroken self.now standing.now) }
    {
        if let Some(clause) = self.require.first_with(false, standing) {
            return Some(Condition {
                side: Side::Require,
                clause,
            });
        }
        let clause = self.reject.first_with(true, standing)?;
        Some(Condition {
            side: Side::Reject,
            clause,
        })
    }

    /// A gate of these settings.
    pub(crate) fn new(
        bases: Bases,
        connection: String,
        cycles: bool,
        require: Clauses,
        reject: Clauses,
    ) -> Gate
        ensures { result
            ≡ record {
              bases = bases;
              connection = string_bytes connection;
              cycles = cycles;
              require = require;
              reject = reject;
            } }
    {
        Gate {
            bases,
            connection,
            cycles,
            require,
            reject,
        }
    }

    /// Reads the text of a gate file. What the text spells is read, unless memory runs out. Refusals: 1 `NotJson`, the
    /// bytes aren't UTF-8 or aren't the text of one JSON object; otherwise the first fault, where members are visited
    /// depth first, those of an object in byte order of their keys, those of a list in order, and at each the key is
    /// judged before its value: 2 `UnknownKey`, 3 `BadValue`, 4 `Unsupported`, each with the key (for a member of a
    /// list that of the list; missing `bases` are a bad value, named last), and of `bases` with the first item that is
    /// refused, where one is; 5 `NoMemory`. It costs O(n log n) for n
    /// bytes.
    pub fn read(alloc: Global, bytes: &[u8]) -> Result<Gate, GateFault>
        ensures spelled { IfOk result (SpellsGate bytes.now) }
        ensures refused { IfErr result (IsRefusalOf bytes.now) }

        // What is spelled is read.
        ensures only { (gate : GateRules) → SpellsGate bytes.now gate
            → MatchResult result (λ read. read ≡ gate) (λ fault. fault ≡ GateFault.NoMemory) }

        // Where an item of the bases is refused, it is named.
        ensures item { (bad : BadBase) → IsBadBase bytes.now bad
            → MatchResult result (λ _. ⊥) (λ fault. NamesItem fault bad) }
    {
        read_gate(alloc, bytes)
    }

    /// What may precede a change's number in a footer.
    pub fn bases(&self) -> &Bases
        ensures { result.now ≡ self.now.bases }
    {
        &self.bases
    }

    /// The connection whose conditions these are.
    pub fn connection(&self) -> &str
        ensures { result.now ≡ self.now.connection }
    {
        &self.connection
    }

    /// The conditions of a side.
    pub fn clauses(&self, side: Side) -> &Clauses
        ensures { result.now ≡ side_rules self.now side }
    {
        match side {
            Side::Require => &self.require,
            Side::Reject => &self.reject,
        }
    }

    /// Whether items on a cycle of dependencies may be ready.
    pub fn cycles(&self) -> bool
        ensures { result ≡ self.now.cycles }
    {
        self.cycles
    }

    /// A copy, with memory of the same allocator. It costs O(n) for settings of n bytes.
    pub fn copy(&self) -> Result<Gate, NoMemory>
        ensures { IfOk result (λ copy. copy ≡ self.now) }
    {
        let bases = self.bases.copy()?;
        let connection = self.connection.clone()?;
        let require = self.require.copy()?;
        let reject = self.reject.copy()?;
        Ok(Gate {
            bases,
            connection,
            cycles: self.cycles,
            require,
            reject,
        })
    }
}
