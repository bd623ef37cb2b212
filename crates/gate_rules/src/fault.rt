//! Why a gate file isn't read.

ghost use Rattle.std.specs.Prelude.{◌≡◌, ◌++◌, OnOk, string_bytes};
ghost use Rattle.gate_rules.specs.Fault.{bad_base_words, number_of, name_of, not_json_words, words_of};
ghost use Rattle.gate_rules.specs.declared.fault.GateFault.TheVariants.{NoMemory as OutOfMemory};

use super::bad_base::BadBase;
use super::place::Place;
use lattice_core::NoMemory;
use std::alloc::AllocError;
use thiserror::Error;

/// Why a gate file isn't read.
#[derive(Debug, Drop, Error)]
pub enum GateFault {
    /// 1: the bytes aren't UTF-8, or aren't the text of one JSON object; and the place where that shows.
    #[error("no JSON object")]
    NotJson(Place),
    /// 2: the key has no meaning in its place.
    #[error("unknown key {0:?}")]
    UnknownKey(String),
    /// 3: the key's value is of another kind, or out of range; or `bases` is missing.
    #[error("bad value of {0:?}")]
    BadValue(String),
    /// 3, too: this item of `bases` is refused; its name is `BadValue`.
    #[error("bad item of bases")]
    BadBases(BadBase),
    /// 4: Zuul knows the key, and this project doesn't support it.
    #[error("unsupported key {0:?}")]
    Unsupported(String),
    /// 5: memory was refused.
    #[error("no memory")]
    NoMemory,
}

impl GateFault {
    /// The fault's number in reports.
    pub fn number(&self) -> u8
        ensures { result ≡ number_of self.now }
    {
        match self {
            GateFault::NotJson(_) => 1,
            GateFault::UnknownKey(_) => 2,
            GateFault::BadValue(_) | GateFault::BadBases(_) => 3,
            GateFault::Unsupported(_) => 4,
            GateFault::NoMemory => 5,
        }
    }

    /// The fault's name in reports, without the key.
    pub fn name(&self) -> &'static str
        ensures { result.now ≡ name_of self.now }
    {
        match self {
            GateFault::NotJson(_) => "NotJson",
            GateFault::UnknownKey(_) => "UnknownKey",
            GateFault::BadValue(_) | GateFault::BadBases(_) => "BadValue",
            GateFault::Unsupported(_) => "Unsupported",
            GateFault::NoMemory => "NoMemory",
        }
    }

    /// Writes the fault's words in reports: its name, and the line and the column, or the key, where there is one;
    /// after the key `bases` the item that is refused, and why. In O(n) for their length.
    pub fn write_words(&self, text: &mut String) -> Result<(), AllocError>
        ensures { OnOk result (string_bytes text.new ≡ string_bytes text.old ++ words_of self.now) }
    {
        match self {
            GateFault::NotJson(place) => write_place(text, *place),
            GateFault::UnknownKey(key) => write!(text, "UnknownKey {key}"),
            GateFault::BadValue(key) => write!(text, "BadValue {key}"),
            GateFault::BadBases(bad) => write_bad_base(text, *bad),
            GateFault::Unsupported(key) => write!(text, "Unsupported {key}"),
            GateFault::NoMemory => text.push_str("NoMemory"),
        }
    }
}

/// Writes that a text is no JSON, with the place where that shows.
fn write_place(text: &mut String, place: Place) -> Result<(), AllocError>
    ensures { OnOk result (string_bytes text.new ≡ string_bytes text.old ++ not_json_words place) }
{
    let Place { line, column } = place;
    write!(text, "NotJson {line} {column}")
}

/// Writes that an item of the list of bases is refused, and why.
fn write_bad_base(text: &mut String, bad: BadBase) -> Result<(), AllocError>
    ensures { OnOk result (string_bytes text.new ≡ string_bytes text.old ++ bad_base_words bad) }
{
    let BadBase { item, flaw } = bad;
    let flaw = flaw.name();
    write!(text, "BadValue bases {item} {flaw}")
}

impl From<NoMemory> for GateFault {
    ghost from_gives = { λ _ fault. fault ≡ OutOfMemory };

    fn from(_refused: NoMemory) -> GateFault {
        GateFault::NoMemory
    }
}
