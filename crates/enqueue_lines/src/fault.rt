//! Why items aren't handed over.

ghost use Rattle.std.specs.Prelude.{◌≡◌, ◌++◌, OnOk, string_bytes};
ghost use Rattle.enqueue_lines.specs.Fault.{fault_number, enqueue_fault_words, template_number, template_words};

use super::template::Field;
use std::alloc::AllocError;

/// Why a template isn't read.
#[derive(Clone, Copy, Debug, PartialEq, Eq)]
pub enum TemplateFault<'a> {
    /// 7: this is between braces, and is no field's name.
    UnknownField(&'a str),
    /// 8: no brace closes one that is open.
    OpenBrace,
    /// 11: this field stands within quotes, or behind a backslash or a dollar.
    QuotedField(Field),
    /// 5: memory was refused.
    NoMemory,
}

impl<'a> TemplateFault<'a> {
    /// The fault's number.
    pub fn number(&self) -> u8
        ensures { result ≡ template_number self.now }
    {
        match self {
            TemplateFault::UnknownField(_) => 7,
            TemplateFault::OpenBrace => 8,
            TemplateFault::QuotedField(_) => 11,
            TemplateFault::NoMemory => 5,
        }
    }

    /// Adds the words of the fault: its name, and what is between the braces, where they are closed.
    pub fn write_words(&self, words: &mut String) -> Result<(), AllocError>
        ensures { OnOk result (string_bytes words.new ≡ string_bytes words.old ++ template_words self.now) }
    {
        match self {
            TemplateFault::UnknownField(name) => write!(words, "UnknownField {name}"),
            TemplateFault::OpenBrace => words.push_str("OpenBrace"),
            TemplateFault::QuotedField(field) => write!(words, "QuotedField {}", field.name()),
            TemplateFault::NoMemory => words.push_str("NoMemory"),
        }
    }
}

impl<'a> From<AllocError> for TemplateFault<'a> {
    ghost use Rattle.enqueue_lines.specs.declared.fault.TemplateFault.TheVariants.{NoMemory};

    ghost from_gives = { λ _ fault. fault ≡ NoMemory };

    fn from(_error: AllocError) -> TemplateFault<'a> {
        TemplateFault::NoMemory
    }
}

/// Why items aren't handed over any more.
#[derive(Clone, Copy, Debug, PartialEq, Eq)]
pub enum EnqueueFault {
    /// 1: the line of this number, counted from 1, is none that a site prints.
    BadLine(u64),
    /// 2: the end line of this number doesn't fit the lines before it.
    BadEnd(u64),
    /// 3: the input ended after a line that isn't an end line, or within a line.
    NoEnd,
    /// 4: the input failed, or gave 2^64 - 1 lines.
    ReadFault,
    /// 5: memory was refused.
    NoMemory,
    /// 6: an output failed.
    WriteFault,
    /// 9: the line of this number of the answer to a query is neither a row with all that is needed, nor its end.
    BadQuery(u64),
    /// 10: the line of this number of the items that were handed over is none, or repeats one.
    BadHanded(u64),
}

impl EnqueueFault {
    /// The fault's number.
    pub fn number(&self) -> u8
        ensures { result ≡ fault_number self.now }
    {
        match self {
            EnqueueFault::BadLine(_) => 1,
            EnqueueFault::BadEnd(_) => 2,
            EnqueueFault::NoEnd => 3,
            EnqueueFault::ReadFault => 4,
            EnqueueFault::NoMemory => 5,
            EnqueueFault::WriteFault => 6,
            EnqueueFault::BadQuery(_) => 9,
            EnqueueFault::BadHanded(_) => 10,
        }
    }

    /// Adds the words of the fault: its name, and the number of the line.
    pub fn write_words(&self, words: &mut String) -> Result<(), AllocError>
        ensures { OnOk result (string_bytes words.new ≡ string_bytes words.old ++ enqueue_fault_words self.now) }
    {
        match self {
            EnqueueFault::BadLine(line) => write!(words, "BadLine {line}"),
            EnqueueFault::BadEnd(line) => write!(words, "BadEnd {line}"),
            EnqueueFault::NoEnd => words.push_str("NoEnd"),
            EnqueueFault::ReadFault => words.push_str("ReadFault"),
            EnqueueFault::NoMemory => words.push_str("NoMemory"),
            EnqueueFault::WriteFault => words.push_str("WriteFault"),
            EnqueueFault::BadQuery(line) => write!(words, "BadQuery {line}"),
            EnqueueFault::BadHanded(line) => write!(words, "BadHanded {line}"),
        }
    }
}

impl From<AllocError> for EnqueueFault {
    ghost use Rattle.enqueue_lines.specs.declared.fault.EnqueueFault.TheVariants.{NoMemory};

    ghost from_gives = { λ _ fault. fault ≡ NoMemory };

    fn from(_error: AllocError) -> EnqueueFault {
        EnqueueFault::NoMemory
    }
}
