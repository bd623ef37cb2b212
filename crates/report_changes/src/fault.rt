//! Why what changed isn't written.

use thiserror::Error;

/// Why what changed isn't written.
#[derive(Clone, Copy, Debug, PartialEq, Eq, Error)]
pub enum WriteChangesFault {
    /// The drain failed.
    #[error("the drain failed")]
    WriteFault,
    /// Memory was refused.
    #[error("no memory")]
    NoMemory,
}
