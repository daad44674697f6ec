// What a file is made of.
ghost use Rattle.std.specs.Prelude.{◌≡◌, ◌+◌, ◌-◌, ◌^◌, ◌<◌, ◌≤◌, min, Err, length, IfOk, IfErr, MatchResult};
ghost use Rattle.std.specs.List.{AllByRecursion, concat};
ghost use Rattle.flat_layout.specs.Promises.{IsClean};
ghost use Rattle.fgb_schema.specs.Headers.{header_of};
ghost use Rattle.fgb_schema.specs.Paths.{header_root};
ghost use Rattle.fgb_schema.specs.Weights.{BreaksBuffer};
ghost use Rattle.feature_tables.specs.Records.{Fits};
ghost use Rattle.packed_file.specs.Packing.{header_bytes, packed_header};
ghost use Rattle.fgb_pack.specs.Plans.{IsOfPlan};
ghost use Rattle.fgb_lay.specs.Laying.{HasNoRoom};
ghost use Rattle.fgb_lay.specs.Plans.{IsPlan, framed_all};

use feature_info::FeatureInfo;
use fgb_pack::PackError;
use header_info::HeaderInfo;
use laid_features::lay_features;
use std::alloc::Global;

/// The most bytes of a file.
const MAX_FILE: u64 = 1 << 48;

/// The bytes of the start of a file.
const START: u64 = 12;

/// A file that is not too large, before any of it is written.
#[derive(Drop)]
pub(crate) struct Plan {
    /// The buffer of the header.
    pub(crate) head: Vec<u8>,
    /// The buffer of each feature, in order.
    pub(crate) buffers: Vec<Vec<u8>>,
    /// The bytes of the whole file.
    pub(crate) size: u64,
}

/// Plans the file of features under a header.
pub(crate) fn plan_file(
    alloc: Global,
    header: &HeaderInfo,
    features: &[FeatureInfo],
) -> Result<Plan, PackError>
    requires { AllByRecursion (Fits header.now) features.now }
    ensures planned { IfOk result (IsPlan header.now features.now) }
    ensures too_large { result ≡ Err PackError.TooLarge → HasNoRoom header.now features.now }
    ensures own { IfErr result IsOfPlan }
{
    let buffers = lay_features(alloc, features)?;
    let head = head_of(alloc, header, features.len() as u64)?;
    let size = file_size(head.len() as u64, pieces_size(&buffers))?;
    Ok(Plan {
        head,
        buffers,
        size,
    })
}

/// The buffer of a header, but with this number of features and no index.
fn head_of(alloc: Global, header: &HeaderInfo, features: u64) -> Result<Vec<u8>, PackError>
    ensures bytes { IfOk result (λ head. head.items ≡ header_bytes header.now features 0) }
    ensures small { IfOk result (λ head. length head.items ≤ 10485760) }
    ensures clean { IfOk result (λ head. IsClean (BreaksBuffer head.items header_root)) }
    ensures shown { IfOk result (λ head. header_of head.items ≡ packed_header header.now features 0) }
    ensures too_large { result ≡ Err PackError.TooLarge → 10485760 < length (header_bytes header.now features 0) }
    ensures own { IfErr result IsOfPlan }
{
    let mut info = header.again(alloc)?;
    info.set_count(features);
    info.set_node_size(0);
    Ok(info.to_bytes(alloc)?)
}

/// The bytes of features with these buffers, as far as 64 bits hold the number.
fn pieces_size(buffers: &[Vec<u8>]) -> u64
    ensures { result ≡ min (length (concat (framed_all buffers.now))) (2 ^ 64 - 1) }
{
    let mut size: u64 = 0;
    for buffer in buffers {
        size = size.saturating_add(4).saturating_add(buffer.len() as u64);
    }
    size
}

/// The bytes of a file with a header of so many bytes, and so many bytes of features.
fn file_size(head: u64, pieces: u64) -> Result<u64, PackError>
    requires { head ≤ 10485760 }
    ensures { let size = 12 + head + pieces in
        MatchResult result (λ bytes. (bytes ≡ size) × (bytes ≤ 2 ^ 48)) (λ error. (error ≡ PackError.TooLarge) × (2 ^ 48 < size)) }
{
    let size = pieces.saturating_add(START + head);
    if size > MAX_FILE {
        return Err(PackError::TooLarge);
    }
    Ok(size)
}
