ghost use Rattle.std.specs.Prelude.{◌≡◌};
ghost use Rattle.index_stmt.specs.declared.fault.Stop.TheVariants.{Fault, Memory};

use std::alloc::{AllocError, AllocFailed};

/// Why a statement is refused.
#[derive(Clone, Copy, Debug, PartialEq, Eq)]
pub enum StmtCause {
    /// No token begins here, a token breaks a limit, or the statement is too long.
    NoToken,
    /// Another token is expected here.
    Unexpected,
    /// A column that the table lacks, or another table's name.
    UnknownName,
    /// A type that isn't built, or that stops before it is whole.
    UnknownType,
    /// Not allowed for this method or type.
    NotAllowed,
    /// A value that the option doesn't take.
    OutOfRange,
    /// A column of the table or an option that was named before.
    Repeated,
}

impl StmtCause {
    ghost use Rattle.std.specs.Prelude.{◌≡◌};
    ghost use Rattle.index_stmt.specs.Cause.{number_of_cause};

    /// The number by which the cause is told, from 1 to 7.
    pub fn number(self) -> u8
        ensures { result ≡ number_of_cause self }
    {
        match self {
            StmtCause::NoToken => 1,
            StmtCause::Unexpected => 2,
            StmtCause::UnknownName => 3,
            StmtCause::UnknownType => 4,
            StmtCause::NotAllowed => 5,
            StmtCause::OutOfRange => 6,
            StmtCause::Repeated => 7,
        }
    }
}

/// The first fault of a statement: 1 for the table's and 2 for the index's, the place of the token
/// at fault in bytes from 0, or the statement's length where it ends too early, and the number of
/// the cause.
#[derive(Clone, Copy, Debug, PartialEq, Eq)]
pub struct StmtFault {
    pub statement: u8,
    pub place: u32,
    pub cause: u8,
}

/// Why a statement wasn't read.
#[derive(Clone, Copy, Debug, PartialEq, Eq)]
pub enum ReadStmt {
    Fault(StmtFault),
    /// There was no memory for what the statement means.
    Memory,
}

/// Why a rule stopped: a fault at the next token, or no memory.
#[derive(Clone, Copy, Debug, PartialEq, Eq)]
pub enum Stop {
    Fault(StmtCause),
    Memory,
}

impl From<StmtCause> for Stop {
    ghost from_gives = { λ cause stop. stop ≡ Fault cause };

    fn from(cause: StmtCause) -> Stop {
        Stop::Fault(cause)
    }
}

impl From<AllocError> for Stop {
    ghost from_gives = { λ _ stop. stop ≡ Memory };

    fn from(_error: AllocError) -> Stop {
        Stop::Memory
    }
}

impl<T: Drop> From<AllocFailed<T>> for Stop {
    ghost from_gives = { λ _ stop. stop ≡ Memory };

    fn from(_failed: AllocFailed<T>) -> Stop {
        Stop::Memory
    }
}
