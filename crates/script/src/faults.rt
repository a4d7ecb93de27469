// Why a line is no call.
use std::alloc::AllocError;
use thiserror::Error;

#[derive(Clone, Copy, PartialEq, Eq, Debug, Error)]
pub enum Fault {
    #[error("unknown word")]
    UnknownWord,
    #[error("missing number")]
    MissingNumber,
    #[error("extra number")]
    ExtraNumber,
    #[error("number out of its range")]
    OutOfRange,
    #[error("too many bytes")]
    TooManyBytes,
    // the desk holds no receipt with this job and number
    #[error("no such receipt")]
    NoSuchReceipt,
    // a line on memory after the first call
    #[error("memory lines come first")]
    MemoryIsMade,
    // a fill or a seal of a sealed board
    #[error("the board is sealed")]
    BoardIsSealed,
    // a second board, ROM or seal layer
    #[error("given already")]
    GivenAlready,
    #[error("out of memory")]
    NoMemory(#[from(alloc)] AllocError),
}
