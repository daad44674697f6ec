// The start and the header of a file.
ghost use Rattle.std.specs.Prelude.{◌≡◌, ◌+◌, ◌*◌, ◌<◌, ◌≤◌, ◌^◌, ℕ, List, option_map, is_some, IfSome, IfErr, true, length, take, slice_range, IfOk, OnOk, OnErr, IsErrOf, MatchResult};
ghost use Rattle.std.specs.List.{range_with_len};
ghost use Rattle.fgb_outside.specs.Source.{HasSize, IfTold, Rose};
ghost use Rattle.fgb_outside.specs.Asked.{IsInside, Reads, ReadsFront};
ghost use Rattle.flat_layout.specs.declared.Rule.TheVariants.{IndexPastEnd};
ghost use Rattle.level_bounds.specs.Levels.{HasLevels, Shape, node_count};
ghost use Rattle.level_bounds.specs.Shapes.{shape_of};
ghost use Rattle.fgb_schema.specs.Headers.{has_index as has_index_of};
ghost use Rattle.fgb_header.specs.Views.{header_shown};
ghost use Rattle.fgb_file.specs.File.{BreaksInFront, IsHeader, IsOpen, IsSized, IsStart, header_buffer, header_end, header_in, header_size};
ghost use Rattle.read_stop.specs.Stops.{IfRefused};
ghost use Rattle.fgb_reader.specs.Requests.{AsksAtMost, mebibytes};
ghost use Rattle.fgb_reader.specs.Starts.{IsOfStart, ShowsMagic};

use byteorder::{ByteOrder, LittleEndian};
use fgb_header::HeaderView;
use fgb_outside::{RangeSource, SourceError};
use flat_views::{Broken, Rule};
use level_bounds::Levels;
use node_items::NODE;
use read_stop::ReadStop;
use std::alloc::Global;

/// The bytes of the start: seven magic bytes, one of any value, and the header's size.
pub const START: usize = 12;

/// The largest file.
const MAX_FILE: u64 = 1 << 48;

/// The largest header.
const MAX_HEADER: u32 = 10485760;

/// The first seven bytes of a file: `fgb`, the version 3, and `fgb`.
const MAGIC: [u8; 7] = [0x66, 0x67, 0x62, 0x03, 0x66, 0x67, 0x62];

/// Judges the size of a file: refuses FileSize at 0 above 2^48 bytes, and Short at the size below 12.
pub fn judge_size(size: u64) -> Result<(), Broken>
    ensures judged { (image : List ℕ) → length image ≡ size → MatchResult result (λ _. IsSized image) (BreaksInFront image) }
    ensures sized { OnOk result ((12 ≤ size) × (size ≤ 2 ^ 48)) }
{
    if size > MAX_FILE {
        return Err(Broken {
            place: 0,
            rule: Rule::FileSize,
        });
    }
    if size < START as u64 {
        return Err(Broken {
            place: size,
            rule: Rule::Short,
        });
    }
    Ok(())
}

/// Judges the twelve bytes of the start of a file of this size, and gives the header's size. Refuses Magic at
/// the first magic byte that differs, or HeaderSize at 8. (FlatGeobuf, "Specification")
pub fn judge_start(start: &[u8], size: u64) -> Result<usize, Broken>
    requires twelve { length start.now ≡ 12 }
    requires long { 12 ≤ size }
    requires short { size ≤ 2 ^ 48 }
    ensures judged { (image : List ℕ) → length image ≡ size → start.now ≡ take 12 image
        → MatchResult result (λ len. IsStart image × (len ≡ header_size image)) (BreaksInFront image) }
    ensures sized { IfOk result (λ len. (len ≤ 10485760) × (12 + len ≤ size)) }
{
    if let Some(place) = wrong_magic(start) {
        return Err(Broken {
            place: place as u64,
            rule: Rule::Magic,
        });
    }
    let header = LittleEndian::read_u32(&start[8..]);
    if header > MAX_HEADER || START as u64 + header as u64 > size {
        return Err(Broken {
            place: 8,
            rule: Rule::HeaderSize,
        });
    }
    Ok(header as usize)
}

/// The place of the first magic byte that differs.
fn wrong_magic(start: &[u8]) -> Option<usize>
    requires { length start.now ≡ 12 }
    ensures { ShowsMagic start.now result }
{
    for (i, byte) in MAGIC.iter().enumerate() {
        if start[i] != *byte {
            return Some(i);
        }
    }
    None
}

/// Reads the header in its buffer, which stands behind the start. Refuses a rule of the header.
pub fn judge_header<'a>(buffer: &'a [u8]) -> Result<HeaderView<'a>, Broken>
    requires { length buffer.now ≤ 10485760 }
    ensures judged { (image : List ℕ) → IsStart image → buffer.now ≡ header_buffer image
        → MatchResult result (λ header. IsHeader image × (header_shown header ≡ header_in image)) (BreaksInFront image) }
{
    HeaderView::read(buffer, START as u64)
}

/// Whether a file with this header has an index: the count and the node size are both above 0.
pub fn has_index(header: &HeaderView) -> bool
    ensures { result ≡ has_index_of (header_shown header.now) }
{
    header.features_count() > 0 && header.index_node_size() > 0
}

/// The levels of the index of a file with this header and of this size, or None where it has no index. The index
/// begins at `place`, behind the header. Refuses IndexPastEnd there where its nodes don't fit into the file.
pub fn judge_levels(header: &HeaderView, place: u64, size: u64) -> Result<Option<Levels>, Broken>
    requires order { place ≤ size }
    requires small { size ≤ 2 ^ 48 }
    ensures judged { (image : List ℕ) → IsHeader image → header_shown header.now ≡ header_in image → place ≡ header_end image → size ≡ length image
        → MatchResult result (λ levels. IsOpen image (option_map shape_of levels)) (BreaksInFront image) }
    ensures fits { IfOk result (λ levels. IfSome levels (λ l. place + 40 * node_count (shape_of l) ≤ size)) }
    ensures shows { IfOk result (λ levels. is_some levels ≡ has_index_of (header_shown header.now)) }
    ensures levels { let h = header_shown header.now in IfOk result (λ levels. IfSome levels (λ l. HasLevels h.features_count h.node_size (shape_of l))) }

    // Whatever the file: it is refused only for an index, of which no levels fit.
    ensures refused { IfErr result (λ broken. broken ≡ record { place = place; rule = IndexPastEnd }) }
    ensures indexed { OnErr result (has_index_of (header_shown header.now) ≡ true) }
    ensures none_fits { let h = header_shown header.now in OnErr result ((t : Shape) → HasLevels h.features_count h.node_size t → size < place + 40 * node_count t) }
{
    if !has_index(header) {
        return Ok(None);
    }
    let past_end = Broken {
        place,
        rule: Rule::IndexPastEnd,
    };
    let Some(levels) = Levels::new(header.features_count(), header.index_node_size()) else {
        return Err(past_end);
    };
    if NODE as u64 * levels.nodes() > size - place {
        return Err(past_end);
    }
    Ok(Some(levels))
}

/// Fills `into` with the bytes from `at` on, and asks for nothing where it is empty.
fn read_all<S: RangeSource>(file: &mut S, at: u64, into: &mut [u8]) -> Result<(), SourceError>
    requires { at + length into.old ≤ (S.seen file.old).size }
    ensures bytes { OnOk result (IfTold (S.seen file.old) (λ image. into.new ≡ slice_range image at (at + length into.new))) }
    ensures reads { OnOk result (Reads (IsInside at (at + length into.old)) (S.seen file.old) (S.seen file.new) (range_with_len at (length into.old))) }
    ensures front { OnErr result (ReadsFront (IsInside at (at + length into.old)) (S.seen file.old) (S.seen file.new) (range_with_len at (length into.old))) }
    ensures few { OnOk result (AsksAtMost (mebibytes (length into.old)) (S.seen file.old) (S.seen file.new)) }
    ensures failed { IsErrOf result SourceError.Failed → Rose (S.seen file.old).faults (S.seen file.new).faults }
{
    if into.is_empty() {
        return Ok(());
    }
    file.read_at(at, into)
}

/// Reads the start of a source of this size in one request, and gives the header's size. Refuses what
/// `judge_size` and `judge_start` refuse; nothing is asked for where the size is refused.
pub fn read_start<S: RangeSource>(file: &mut S, size: u64) -> Result<usize, ReadStop>
    requires { HasSize (S.seen file.old) size }
    ensures start { IfOk result (λ len. IfTold (S.seen file.old) (λ image. IsStart image × (len ≡ header_size image))) }
    ensures sized { IfOk result (λ len. (len ≤ 10485760) × (12 + len ≤ size) × (size ≤ 2 ^ 48)) }
    ensures refused { IfRefused result (λ broken. IfTold (S.seen file.old) (λ image. BreaksInFront image broken)) }
    ensures reads { OnOk result (Reads (IsOfStart size) (S.seen file.old) (S.seen file.new) (range_with_len 0 12)) }
    ensures front { OnErr result (ReadsFront (IsOfStart size) (S.seen file.old) (S.seen file.new) (range_with_len 0 12)) }
    ensures few { OnOk result (AsksAtMost 1 (S.seen file.old) (S.seen file.new)) }
    ensures failed { IsErrOf result ReadStop.SourceFailed → Rose (S.seen file.old).faults (S.seen file.new).faults }
{
    judge_size(size)?;
    let mut start = [0; START];
    read_all(file, 0, &mut start)?;
    let len = judge_start(&start, size)?;
    Ok(len)
}

/// Reads the buffer of the header, which has this size. It is judged by `judge_header`.
pub fn read_header<S: RangeSource>(
    alloc: Global,
    file: &mut S,
    len: usize,
) -> Result<Vec<u8>, ReadStop>
    requires inside { 12 + len ≤ (S.seen file.old).size }
    ensures len { IfOk result (λ buffer. length buffer.items ≡ len) }
    ensures bytes { IfOk result (λ buffer. IfTold (S.seen file.old) (λ image. len ≡ header_size image → buffer.items ≡ header_buffer image)) }
    ensures reads { OnOk result (Reads (IsInside 12 (12 + len)) (S.seen file.old) (S.seen file.new) (range_with_len 12 len)) }
    ensures front { OnErr result (ReadsFront (IsInside 12 (12 + len)) (S.seen file.old) (S.seen file.new) (range_with_len 12 len)) }
    ensures few { OnOk result (AsksAtMost (mebibytes len) (S.seen file.old) (S.seen file.new)) }
    ensures failed { IsErrOf result ReadStop.SourceFailed → Rose (S.seen file.old).faults (S.seen file.new).faults }
    ensures unrefused { IfRefused result (λ broken. ⊥) }
{
    let mut buffer = vec![in alloc; 0; len]?;
    read_all(file, START as u64, &mut buffer)?;
    Ok(buffer)
}
