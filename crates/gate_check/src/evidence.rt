//! What a record shows of a gate.

ghost use Rattle.std.specs.Prelude.{◌≡◌, IfOk, map, string_bytes};
ghost use Rattle.gate_check.specs.Evidence.{IsEvidence};
ghost use Rattle.gate_check.specs.Shown.{evidence_shown, names_shown};

use super::ignored::ignored_values;
use super::names::Names;
use super::unused::unused_bases;
use gate_rules::Gate;
use lattice_core::NoMemory;
use state_core::State;
use std::alloc::Global;
use std::collections::BTreeSet;

/// What a record shows of a gate: its labels and voters, of each base whether it is unused, and the values of footers
/// that begin with a base and yet name no change.
#[derive(Drop)]
pub struct Evidence {
    names: Names,
    unused: Vec<bool>,
    ignored: BTreeSet<String>,
}

impl Evidence {
    /// What the record of a state shows.
    pub fn of(alloc: Global, gate: &Gate, state: &State) -> Result<Evidence, NoMemory>
        ensures { IfOk result (λ evidence. IsEvidence gate.now state.now (evidence_shown evidence)) }
    {
        let names = Names::of(alloc, state)?;
        let unused = unused_bases(alloc, gate.bases(), state)?;
        let ignored = ignored_values(alloc, gate.bases(), state)?;
        Ok(Evidence {
            names,
            unused,
            ignored,
        })
    }

    /// The labels and the voters.
    pub fn names(&self) -> &Names
        ensures { names_shown result.now ≡ (evidence_shown self.now).names }
    {
        &self.names
    }

    /// Of each base whether it is unused.
    pub fn unused(&self) -> &[bool]
        ensures { result.now ≡ (evidence_shown self.now).unused }
    {
        &self.unused
    }

    /// The values of footers that begin with a base and yet name no change, in byte order.
    pub fn ignored(&self) -> &BTreeSet<String>
        ensures { map string_bytes result.now.keys ≡ (evidence_shown self.now).ignored }
    {
        &self.ignored
    }
}
