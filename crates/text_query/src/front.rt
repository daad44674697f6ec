// What stands in front of the features of a file.
ghost use Rattle.std.specs.Prelude.{◌≡◌, ◌<◌, ◌≤◌, Err, IfOk, OnOk, length};
ghost use Rattle.fgb_header.specs.Views.{header_shown};
ghost use Rattle.text_query.specs.Texts.{IsTooWide, found_head, front};
ghost use Rattle.text_query.specs.declared.output.Output.TheVariants.{Fgb};

use fgb_header::HeaderView;
use flat_builder::BuildError;
use header_info::HeaderInfo;
use std::alloc::{AllocError, Global};

/// The magic bytes; this writer ends them in 1.
const MAGIC: [u8; 8] = [0x66, 0x67, 0x62, 3, 0x66, 0x67, 0x62, 1];

/// The start and the header of a file of found features: the number of features is not said, and there is no index.
/// Refuses TooLarge where the header would be longer than 10,485,760 bytes.
pub(crate) fn front_of(alloc: Global, header: &HeaderView) -> Result<Vec<u8>, BuildError>
    ensures ok { IfOk result (λ bytes. bytes.items ≡ front Fgb (header_shown header.now)) }
    ensures fits { OnOk result (IsTooWide Fgb (header_shown header.now) → ⊥) }
    ensures too_large { result ≡ Err BuildError.TooLarge → IsTooWide Fgb (header_shown header.now) }
{
    let head = found_header(alloc, header)?;
    let mut bytes = Vec::from_slice(alloc, &MAGIC)?;
    bytes.extend_from_slice(&(head.len() as u32).to_le_bytes())?;
    bytes.extend_from_slice(&head)?;
    Ok(bytes)
}

/// The buffer of the header of a file of found features.
fn found_header(alloc: Global, header: &HeaderView) -> Result<Vec<u8>, BuildError>
    ensures ok { IfOk result (λ bytes. bytes.items ≡ found_head (header_shown header.now)) }
    ensures within { IfOk result (λ bytes. length bytes.items ≤ 10485760) }
    ensures too_large { result ≡ Err BuildError.TooLarge → 10485760 < length (found_head (header_shown header.now)) }
{
    let info = found_info(alloc, header)?;
    info.to_bytes(alloc)
}

/// The header of a file of found features.
fn found_info(alloc: Global, header: &HeaderView) -> Result<HeaderInfo, AllocError>
    ensures { IfOk result (λ info. info ≡ record (header_shown header.now) { features_count = 0; node_size = 0 }) }
{
    let mut info = HeaderInfo::of(alloc, header)?;
    info.set_count(0);
    info.set_node_size(0);
    Ok(info)
}
