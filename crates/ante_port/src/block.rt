use thiserror::Error;

/// Why a block isn't run.
#[derive(Clone, Copy, Debug, PartialEq, Eq, Error)]
pub enum BlockRunError {
    #[error("out of memory")]
    OutOfMemory,
    /// The number of its first failure.
    #[error("invalid by failure {code}")]
    Invalid { code: u16 },
}
