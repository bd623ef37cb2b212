//! Why a draft isn't accepted as a body.

ghost use Rattle.std.specs.Prelude.{◌≡◌};
ghost use Rattle.review_ops.specs.Fault.{number_of, name_of};

use thiserror::Error;

/// Why a draft isn't accepted as a body. Where several faults apply, the one with the least number is answered.
#[derive(Clone, Copy, Debug, PartialEq, Eq, Error)]
pub enum BodyFault {
    /// 1: the change's number is 0.
    #[error("the change's number is 0")]
    BadChange,
    /// 2: the patch set's number is 0.
    #[error("the patch set's number is 0")]
    BadSet,
    /// 3: the label isn't 1 to 64 ASCII letters, digits and `-`.
    #[error("the label isn't 1 to 64 letters, digits and dashes")]
    BadLabel,
    /// 4: the voter isn't 1 to 64 visible ASCII characters.
    #[error("the voter isn't 1 to 64 visible ASCII characters")]
    BadVoter,
    /// 5: the message is longer than 65,536 bytes.
    #[error("the message is longer than 65,536 bytes")]
    LongMessage,
    /// 7: the parent's number is 0.
    #[error("the parent's number is 0")]
    BadParent,
}

impl BodyFault {
    /// The fault's number in reports.
    pub fn number(&self) -> u8
        ensures { result ≡ number_of self.now }
    {
        match self {
            BodyFault::BadChange => 1,
            BodyFault::BadSet => 2,
            BodyFault::BadLabel => 3,
            BodyFault::BadVoter => 4,
            BodyFault::LongMessage => 5,
            BodyFault::BadParent => 7,
        }
    }

    /// The fault's name in reports.
    pub fn name(&self) -> &'static str
        ensures { result.now ≡ name_of self.now }
    {
        match self {
            BodyFault::BadChange => "BadChange",
            BodyFault::BadSet => "BadSet",
            BodyFault::BadLabel => "BadLabel",
            BodyFault::BadVoter => "BadVoter",
            BodyFault::LongMessage => "LongMessage",
            BodyFault::BadParent => "BadParent",
        }
    }
}
