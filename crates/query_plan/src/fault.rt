//! Why a plan ends.

ghost use Rattle.std.specs.Prelude.{◌≡◌, ◌++◌, OnOk, string_bytes};
ghost use Rattle.query_plan.specs.Fault.{plan_fault_number, plan_fault_words};

use std::alloc::AllocError;

/// Why a plan ends before its input does.
#[derive(Clone, Copy, Debug, PartialEq, Eq)]
pub enum PlanFault {
    /// 1: the line of this number, counted from 1, says nothing that a plan reads, or has no LF.
    BadLine(u64),
    /// 2: the line of this number speaks of an answer, and no query is under way.
    NoQuery(u64),
    /// 3: the input failed, or gave 2^64 - 1 lines.
    ReadFault,
    /// 4: an output failed.
    WriteFault,
    /// 5: memory was refused.
    NoMemory,
}

impl PlanFault {
    /// The fault's number.
    pub fn number(&self) -> u8
        ensures { result ≡ plan_fault_number self.now }
    {
        match self {
            PlanFault::BadLine(_) => 1,
            PlanFault::NoQuery(_) => 2,
            PlanFault::ReadFault => 3,
            PlanFault::WriteFault => 4,
            PlanFault::NoMemory => 5,
        }
    }

    /// Adds the words of the fault: its name, and the number of the line.
    pub fn write_words(&self, words: &mut String) -> Result<(), AllocError>
        ensures { OnOk result (string_bytes words.new ≡ string_bytes words.old ++ plan_fault_words self.now) }
    {
        match self {
            PlanFault::BadLine(line) => write!(words, "BadLine {line}"),
            PlanFault::NoQuery(line) => write!(words, "NoQuery {line}"),
            PlanFault::ReadFault => words.push_str("ReadFault"),
            PlanFault::WriteFault => words.push_str("WriteFault"),
            PlanFault::NoMemory => words.push_str("NoMemory"),
        }
    }
}
