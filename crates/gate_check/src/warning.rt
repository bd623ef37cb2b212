//! The warnings of a check.

ghost use Rattle.std.specs.Prelude.{◌≡◌};
ghost use Rattle.gate_check.specs.Warnings.{name_of, number_of};

/// What a warning says of a condition.
#[derive(Clone, Copy, Debug, PartialEq, Eq)]
pub enum Warning {
    /// The username looks like a regular expression, and is compared as it is.
    Pattern,
    /// No vote of the record has the label.
    UnknownLabel,
    /// No vote of the record has the voter.
    UnknownVoter,
    /// No item can meet the condition beside the gate's others.
    NeverMet,
    /// No footer of the record has the base, while one has a URL that is under none.
    UnusedBase,
    /// Nobody can have the username.
    NoVoter,
    /// A footer of the record begins with a base and yet names no change.
    IgnoredFooter,
    /// An approval that is rejected accepts no vote.
    RejectsNothing,
    /// No change has the status.
    NoStatus,
}

impl Warning {
    /// The warning's number.
    pub fn number(self) -> u8
        ensures { result ≡ number_of self }
    {
        match self {
            Warning::Pattern => 1,
            Warning::UnknownLabel => 2,
            Warning::UnknownVoter => 3,
            Warning::NeverMet => 4,
            Warning::UnusedBase => 5,
            Warning::NoVoter => 6,
            Warning::IgnoredFooter => 7,
            Warning::RejectsNothing => 8,
            Warning::NoStatus => 9,
        }
    }

    /// The warning's name.
    pub fn name(self) -> &'static str
        ensures { result.now ≡ name_of self }
    {
        match self {
            Warning::Pattern => "Pattern",
            Warning::UnknownLabel => "UnknownLabel",
            Warning::UnknownVoter => "UnknownVoter",
            Warning::NeverMet => "NeverMet",
            Warning::UnusedBase => "UnusedBase",
            Warning::NoVoter => "NoVoter",
            Warning::IgnoredFooter => "IgnoredFooter",
            Warning::RejectsNothing => "RejectsNothing",
            Warning::NoStatus => "NoStatus",
        }
    }
}
