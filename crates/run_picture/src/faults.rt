// Why a step isn't drawn.

use thiserror::Error;

/// Why a step isn't drawn.
#[derive(Clone, Copy, Debug, PartialEq, Eq, Error)]
pub enum DrawFault {
    /// As many lines were drawn as a picture may have.
    #[error("the picture is full")]
    Full,
    /// Memory was refused.
    #[error("there was no memory")]
    Memory,
}
