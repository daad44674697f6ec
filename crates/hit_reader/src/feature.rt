// A feature that stands next.
ghost use Rattle.std.specs.Prelude.{◌≡◌, ◌+◌, ◌*◌, ◌≤◌, ◌^◌, ◌∷◌, [], max, length, IfOk, OnOk, OnErr, IsErrOf};
ghost use Rattle.fgb_outside.specs.Source.{IfTold, Rose};
ghost use Rattle.section_window.specs.Window.{Shows, ahead};
ghost use Rattle.fgb_header.specs.Views.{header_shown};
ghost use Rattle.fgb_file.specs.File.{BreaksPrefix, IsFramed, size_at};
ghost use Rattle.found_features.specs.Stops.{IfRefused};
ghost use Rattle.found_features.specs.Visits.{TakesPart, TellsOnly};
ghost use Rattle.hit_reader.specs.Filling.{Fills, FillsPart};
ghost use Rattle.hit_reader.specs.Handing.{IsAlike, RefusesRead, entry_read};

use crate::section::Section;
use fgb_feature::FeatureView;
use fgb_outside::RangeSource;
use fgb_reader::{PREFIX, framed_size};
use flat_views::Rule;
use found_features::{Found, QueryError, Visitor};
use section_window::Window;
use tree_search::Hit;

/// Makes the feature whose size prefix stands next lie in the window, and gives its length with the prefix. Reads no
/// more than up to `until` of those behind it. Refuses FeaturePastEnd or FeatureSize at the prefix.
pub(crate) fn fill_feature<S: RangeSource>(
    window: &mut Window,
    until: u64,
    source: &mut S,
) -> Result<usize, QueryError>
    requires shows { Shows window.old (S.seen source.old) }
    requires room { window.old.at + 4 ≤ window.old.end }
    requires within { until ≤ window.old.end }
    ensures lies { IfOk result (λ len. (4 ≤ len) × (len ≤ 268435460) × (len ≤ length window.new.bytes)) }
    ensures framed { IfOk result (λ len. IfTold (S.seen source.old) (λ image. window.old.end ≡ length image → IsFramed image window.old.at × (len ≡ 4 + size_at image window.old.at))) }
    ensures refused { IfRefused result (λ broken. IfTold (S.seen source.old) (λ image. window.old.end ≡ length image → (broken.place ≡ window.old.at) × BreaksPrefix image window.old.at broken.rule)) }
    ensures kept { (window.new.at ≡ window.old.at) × (window.new.end ≡ window.old.end) }
    ensures shows { Shows window.new (S.seen source.new) }
    ensures fills { OnOk result (Fills window.old window.new (S.seen source.old) (S.seen source.new)) }
    ensures near { IfOk result (λ len. ahead window.new ≤ max (ahead window.old) (max until (window.old.at + len))) }
    ensures part { OnErr result (FillsPart window.old window.old.end (S.seen source.old) (S.seen source.new)) }
    ensures front { OnErr result (IfTold (S.seen source.old) (λ image. window.old.end ≡ length image
        → FillsPart window.old (max until (window.old.at + 4 + size_at image window.old.at)) (S.seen source.old) (S.seen source.new))) }
    ensures failed { IsErrOf result QueryError.SourceFailed → Rose (S.seen source.old).faults (S.seen source.new).faults }
    ensures unstopped { IsErrOf result QueryError.VisitorStopped → ⊥ }
{
    let at = window.at();
    let left = window.end() - at;
    window.fill_until(source, PREFIX, until.max(at + PREFIX as u64))?;
    let size = framed_size(window.bytes(), left, at)?;
    let len = PREFIX + size;
    window.fill_until(source, len, until.max(at + len as u64))?;
    Ok(len)
}

/// Judges the feature in this buffer, whose size prefix stands at `place`, by itself and beside its leaf, and hands it
/// over. Refuses LeafBox at the leaf, or what the buffer breaks.
pub(crate) fn hand_over<V: Visitor>(
    section: &Section,
    hit: Hit,
    place: u64,
    buffer: &[u8],
    visitor: &mut V,
) -> Result<(), QueryError>
    requires leaf { section.now.leaves + 40 * hit.number ≤ 2 ^ 48 }
    requires near { place + 4 ≤ 2 ^ 48 }
    requires small { length buffer.now ≤ 268435456 }
    requires told { TellsOnly (header_shown section.now.header.now) (V.told visitor.old) }
    ensures alike { OnOk result (IsAlike (header_shown section.now.header.now) hit buffer.now) }
    ensures stepped { OnOk result (V.step visitor.old (entry_read (header_shown section.now.header.now) hit buffer.now) visitor.new) }
    ensures part { OnErr result (TakesPart V.step V.failed_step visitor.old (entry_read (header_shown section.now.header.now) hit buffer.now ∷ []) visitor.new) }
    ensures refused { IfRefused result (λ broken. RefusesRead (header_shown section.now.header.now) hit buffer.now (place + 4) section.now.leaves broken) }
    ensures unchanged { IfRefused result (λ _. visitor.new ≡ visitor.old) }
    ensures unread { IsErrOf result QueryError.SourceFailed → ⊥ }
    ensures stopped { IsErrOf result QueryError.VisitorStopped → Rose (V.stops visitor.old) (V.stops visitor.new) }
    ensures later { V.stops visitor.old ≤ V.stops visitor.new }
    ensures tells { V.told visitor.new ≡ V.told visitor.old }
{
    let feature = FeatureView::read(buffer, place + PREFIX as u64, section.header)?;
    let bounds = feature.bounds();
    let same = hit.item.bounds.same(bounds);
    if !same {
        return Err(QueryError::Refused(section.broken(hit, Rule::LeafBox)));
    }
    visitor.take(&Found {
        number: hit.number,
        offset: hit.item.offset,
        bytes: buffer,
        bounds,
    })?;
    Ok(())
}
