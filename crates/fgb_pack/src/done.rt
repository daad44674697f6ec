// What a packer answers.
ghost use Rattle.std.specs.Prelude.{◌≡◌};
ghost use Rattle.fgb_pack.specs.Causes.{IsBuildCause, IsCheckCause, IsCopyCause, IsReadCause, IsSinkCause};
ghost use Rattle.fgb_pack.specs.declared.done.PackError.TheVariants.{Memory, Refused};

use feature_spans::CopyError;
use fgb_check::CheckError;
use fgb_outside::SinkError;
use fgb_reader::ReadStop;
use flat_builder::BuildError;
use flat_views::Broken;
use std::alloc::AllocError;

/// What was written.
#[derive(Clone, Copy, Debug, PartialEq, Eq)]
pub struct PackDone {
    pub features: u64,
    /// The nodes of the index, none where there are no features.
    pub nodes: u64,
    pub bytes: u64,
}

/// Why a file was not packed.
#[derive(Clone, Copy, Debug, PartialEq, Eq)]
pub enum PackError {
    /// There was no memory.
    Memory,
    /// The file breaks this rule at this place, and none in a unit in front of that.
    Refused(Broken),
    /// The source failed, and has counted a fault.
    SourceFailed,
    /// The sink failed, and has counted a fault.
    SinkFailed,
    /// The header or the file would be larger than the format lets it be.
    TooLarge,
}

impl From<AllocError> for PackError {
    ghost from_gives = { λ _ error. error ≡ Memory };

    fn from(_: AllocError) -> Self {
        PackError::Memory
    }
}

impl From<Broken> for PackError {
    ghost from_gives = { λ broken error. error ≡ Refused broken };

    fn from(broken: Broken) -> Self {
        PackError::Refused(broken)
    }
}

impl From<CheckError> for PackError {
    ghost from_gives = { IsCheckCause };

    fn from(error: CheckError) -> Self {
        match error {
            CheckError::SourceFailed => PackError::SourceFailed,
            CheckError::Memory => PackError::Memory,
        }
    }
}

impl From<ReadStop> for PackError {
    ghost from_gives = { IsReadCause };

    fn from(stop: ReadStop) -> Self {
        match stop {
            ReadStop::Refused(broken) => PackError::Refused(broken),
            ReadStop::SourceFailed => PackError::SourceFailed,
            ReadStop::Memory => PackError::Memory,
        }
    }
}

impl From<BuildError> for PackError {
    ghost from_gives = { IsBuildCause };

    fn from(error: BuildError) -> Self {
        match error {
            BuildError::Memory => PackError::Memory,
            BuildError::TooLarge => PackError::TooLarge,
        }
    }
}

impl From<SinkError> for PackError {
    ghost from_gives = { IsSinkCause };

    fn from(error: SinkError) -> Self {
        match error {
            SinkError::Failed => PackError::SinkFailed,
            SinkError::Memory => PackError::Memory,
        }
    }
}

impl From<CopyError> for PackError {
    ghost from_gives = { IsCopyCause };

    fn from(error: CopyError) -> Self {
        match error {
            CopyError::SourceFailed => PackError::SourceFailed,
            CopyError::SinkFailed => PackError::SinkFailed,
            CopyError::Memory => PackError::Memory,
        }
    }
}
