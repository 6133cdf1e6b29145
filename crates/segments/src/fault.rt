use std::alloc::AllocError;

/// What can be wrong with the segments of a relation.
#[derive(Clone, Copy, Debug, PartialEq, Eq)]
pub enum SeriesCause {
    /// A segment is longer than a segment is.
    Overlong,
    /// There are more segments than a relation may have.
    Surplus,
}

/// The fault of a relation's segments, and the block at which it is told.
#[derive(Clone, Copy, Debug, PartialEq, Eq)]
pub struct SeriesFault {
    pub block: u32,
    pub cause: SeriesCause,
}

/// Why a segment wasn't read.
#[derive(Clone, Copy, Debug, PartialEq, Eq)]
pub(crate) enum ReadError {
    Memory,
    Failed,
}

/// Why a relation wasn't read.
#[derive(Clone, Copy, Debug, PartialEq, Eq)]
pub enum SeriesError {
    Fault(SeriesFault),
    Memory,
    Failed,
}

impl From<AllocError> for ReadError {
    ghost use Rattle.std.specs.Prelude.{◌≡◌};
    ghost use Rattle.segments.specs.declared.fault.ReadError.TheVariants.{Memory};

    ghost from_gives = { λ _ e. e ≡ Memory };

    fn from(_: AllocError) -> Self {
        ReadError::Memory
    }
}

impl From<pg_files::Failed> for ReadError {
    ghost use Rattle.std.specs.Prelude.{◌≡◌};
    ghost use Rattle.segments.specs.declared.fault.ReadError.TheVariants.{Failed};

    ghost from_gives = { λ _ e. e ≡ Failed };

    fn from(_: pg_files::Failed) -> Self {
        ReadError::Failed
    }
}

impl From<ReadError> for SeriesError {
    ghost use Rattle.std.specs.Prelude.{◌≡◌};
    ghost use Rattle.segments.specs.Reading.{series_error};

    ghost from_gives = { λ error e. e ≡ series_error error };

    fn from(error: ReadError) -> Self {
        match error {
            ReadError::Memory => SeriesError::Memory,
            ReadError::Failed => SeriesError::Failed,
        }
    }
}

impl From<AllocError> for SeriesError {
    ghost use Rattle.std.specs.Prelude.{◌≡◌};
    ghost use Rattle.segments.specs.declared.fault.SeriesError.TheVariants.{Memory};

    ghost from_gives = { λ _ e. e ≡ Memory };

    fn from(_: AllocError) -> Self {
        SeriesError::Memory
    }
}

impl From<pg_files::Failed> for SeriesError {
    ghost use Rattle.std.specs.Prelude.{◌≡◌};
    ghost use Rattle.segments.specs.declared.fault.SeriesError.TheVariants.{Failed};

    ghost from_gives = { λ _ e. e ≡ Failed };

    fn from(_: pg_files::Failed) -> Self {
        SeriesError::Failed
    }
}
