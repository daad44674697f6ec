// A file that is read into memory.
ghost use Rattle.std.specs.Prelude.{◌≡◌, ◌+◌, ◌*◌, ◌^◌, ◌≤◌, ◌++◌, ◌∷◌, ℕ, List, [], Option, length, option_map, IfOk, OnOk, IsErrOf, MatchResult};
ghost use Rattle.flat_layout.specs.Promises.{Names};
ghost use Rattle.level_bounds.specs.Levels.{Shape};
ghost use Rattle.level_bounds.specs.Shapes.{shape_of};
ghost use Rattle.fgb_outside.specs.Source.{IfTold, Keeps, Rose};
ghost use Rattle.fgb_outside.specs.Asked.{IsInside};
ghost use Rattle.fgb_schema.specs.Features.{feature_of};
ghost use Rattle.fgb_schema.specs.Paths.{feature_root};
ghost use Rattle.fgb_schema.specs.Weights.{BreaksBuffer};
ghost use Rattle.fgb_header.specs.Views.{header_shown};
ghost use Rattle.feature_tables.specs.Records.{Fits};
ghost use Rattle.fgb_file.specs.File.{BreaksFirst, IsDeclared, IsFile, IsValid, first_place, header_end, header_in, nodes_of};
ghost use Rattle.fgb_reader.specs.Reading.{buffer_of, place_of};
ghost use Rattle.read_stop.specs.Asks.{AsksOnly};
ghost use Rattle.read_stop.specs.Stops.{IfRefused};
ghost use Rattle.owned_features.specs.Owned.{IsSound, Owns};

use feature_info::FeatureInfo;
use feature_tables::read_features_fit;
use fgb_check::{CheckError, Verdict, check};
use fgb_feature::FeatureView;
use fgb_header::HeaderView;
use fgb_outside::RangeSource;
use fgb_reader::{
    PREFIX, Pieces, ReadStop, START, judge_header, judge_levels, read_header, read_start,
};
use flat_views::Broken;
use header_info::HeaderInfo;
use node_items::NODE;
use std::alloc::{AllocError, Global};

/// What a file has of header and features, owned.
#[derive(Drop)]
pub struct OwnedFile {
    pub header: HeaderInfo,
    /// In the order of the file.
    pub features: Vec<FeatureInfo>,
    /// Where the size prefix of each feature stands in the file.
    pub places: Vec<u64>,
}

/// The header and the features of the file of a source, which it reads front to back, and then once more.
///
/// Refuses the file as `check` of `fgb_check` does, in front of all copying.
pub fn read_features<S: RangeSource>(alloc: Global, source: &mut S) -> Result<OwnedFile, ReadStop>
    // They are those of a file that breaks no rule.
    ensures owns { IfOk result (λ file. IfTold (S.seen source.old) (λ image. (index : Option Shape) (pieces : List (List ℕ)) → IsFile image index pieces
        → Owns image index pieces file)) }
    ensures valid { OnOk result (IfTold (S.seen source.old) (λ image. IsValid image)) }

    // Whatever the source tells, each feature has a place and fits the header.
    ensures sound { IfOk result IsSound }

    // It is refused for a rule that it breaks in the first unit in which any is.
    ensures refused { IfRefused result (λ broken. IfTold (S.seen source.old) (λ image. BreaksFirst image broken)) }

    // Each request lies inside one section that may be asked for.
    ensures declared { IfTold (S.seen source.old) (λ image. AsksOnly (IsDeclared image) (S.seen source.old) (S.seen source.new)) }
    ensures keeps { Keeps (S.seen source.old) (S.seen source.new) }
    ensures failed { IsErrOf result ReadStop.SourceFailed → Rose (S.seen source.old).faults (S.seen source.new).faults }
{
    judge_file(alloc, source)?;
    read_file(alloc, source)
}

/// Judges the file of a source.
fn judge_file<S: RangeSource>(alloc: Global, source: &mut S) -> Result<(), ReadStop>
    ensures valid { OnOk result (IfTold (S.seen source.old) (λ image. IsValid image)) }
    ensures refused { IfRefused result (λ broken. IfTold (S.seen source.old) (λ image. BreaksFirst image broken)) }
    ensures declared { IfTold (S.seen source.old) (λ image. AsksOnly (IsDeclared image) (S.seen source.old) (S.seen source.new)) }
    ensures keeps { Keeps (S.seen source.old) (S.seen source.new) }
    ensures failed { IsErrOf result ReadStop.SourceFailed → Rose (S.seen source.old).faults (S.seen source.new).faults }
{
    match check(alloc, source) {
        Ok(Verdict::Accepted { .. }) => Ok(()),
        Ok(Verdict::Refused(broken)) => Err(ReadStop::Refused(broken)),
        Err(CheckError::SourceFailed) => Err(ReadStop::SourceFailed),
        Err(CheckError::Memory) => Err(ReadStop::Memory),
    }
}

/// Reads the file of a source without its index. Its features are judged again, since a source may not tell what it holds.
fn read_file<S: RangeSource>(alloc: Global, source: &mut S) -> Result<OwnedFile, ReadStop>
    ensures owns { IfOk result (λ file. IfTold (S.seen source.old) (λ image. (index : Option Shape) (pieces : List (List ℕ)) → IsFile image index pieces
        → Owns image index pieces file)) }
    ensures sound { IfOk result IsSound }
    ensures unrefused { IfRefused result (λ _. IfTold (S.seen source.old) (λ image. (index : Option Shape) (pieces : List (List ℕ)) → IsFile image index pieces → ⊥)) }
    ensures declared { IfTold (S.seen source.old) (λ image. (index : Option Shape) (pieces : List (List ℕ)) → IsFile image index pieces
        → AsksOnly (IsDeclared image) (S.seen source.old) (S.seen source.new)) }
    ensures keeps { Keeps (S.seen source.old) (S.seen source.new) }
    ensures failed { IsErrOf result ReadStop.SourceFailed → Rose (S.seen source.old).faults (S.seen source.new).faults }
{
    let end = source.size();
    let len = read_start(source, end)?;
    let buffer = read_header(alloc, source, len)?;
    let header = judge_header(&buffer)?;
    let first = first_feature(&header, (START + len) as u64, end)?;
    copy_file(alloc, &header, first, end, source)
}

/// Where the first feature stands in a file with this header, which ends at `place`, and of this size.
fn first_feature(header: &HeaderView, place: u64, size: u64) -> Result<u64, Broken>
    requires order { place ≤ size }
    requires small { size ≤ 2 ^ 48 }
    ensures judged { (image : List ℕ) (index : Option Shape) (pieces : List (List ℕ)) → IsFile image index pieces → header_shown header.now ≡ header_in image
        → place ≡ header_end image → size ≡ length image → MatchResult result (λ first. first ≡ first_place image index) (λ _. ⊥) }
    ensures within { IfOk result (λ first. first ≤ size) }
{
    match judge_levels(header, place, size)? {
        Some(levels) => Ok(place + NODE as u64 * levels.nodes()),
        None => Ok(place),
    }
}

/// Copies the header, and the features that stand one behind the other between two places of a source. Refuses what is
/// broken at a feature.
#[tactic(auto, using(crate::proofs::Copying::goes_begin))]
fn copy_file<S: RangeSource>(
    alloc: Global,
    header: &HeaderView,
    first: u64,
    end: u64,
    source: &mut S,
) -> Result<OwnedFile, ReadStop>
    requires order { first ≤ end }
    requires small { end ≤ 2 ^ 48 }
    requires inside { end ≤ (S.seen source.old).size }
    ensures owns { IfOk result (λ file. IfTold (S.seen source.old) (λ image. (index : Option Shape) (pieces : List (List ℕ)) → IsFile image index pieces
        → header_shown header.now ≡ header_in image → first ≡ first_place image index → end ≡ length image → Owns image index pieces file)) }
    ensures sound { IfOk result IsSound }
    ensures unrefused { IfRefused result (λ _. IfTold (S.seen source.old) (λ image. (index : Option Shape) (pieces : List (List ℕ)) → IsFile image index pieces
        → header_shown header.now ≡ header_in image → first ≡ first_place image index → end ≡ length image → ⊥)) }
    ensures asked { AsksOnly (IsInside first end) (S.seen source.old) (S.seen source.new) }
    ensures failed { IsErrOf result ReadStop.SourceFailed → Rose (S.seen source.old).faults (S.seen source.new).faults }
{
    let copy = HeaderInfo::of(alloc, header)?;
    let mut file = OwnedFile {
        header: copy,
        features: Vec::new(alloc),
        places: Vec::new(alloc),
    };
    let mut pieces = Pieces::new(alloc, first, end);
    while pieces.advance(source)? {
        let feature = copy_feature(alloc, &pieces, header)?;
        add(&mut file, feature, pieces.place())?;
    }
    Ok(file)
}

/// A copy of the feature that is lent, whose buffer it judges.
fn copy_feature(
    alloc: Global,
    pieces: &Pieces,
    header: &HeaderView,
) -> Result<FeatureInfo, ReadStop>
    requires { 4 ≤ pieces.now.len }
    ensures shown { IfOk result (λ feature. feature ≡ feature_of (header_shown header.now) (buffer_of pieces.now)) }
    ensures fits { IfOk result (Fits (header_shown header.now)) }
    ensures refused { IfRefused result (λ broken. Names (place_of pieces.now + 4) (BreaksBuffer (buffer_of pieces.now) (feature_root (header_shown header.now))) broken) }
    ensures no_source { IsErrOf result ReadStop.SourceFailed → ⊥ }
{
    read_features_fit();
    let place = pieces.place() + PREFIX as u64;
    let feature = FeatureView::read(pieces.buffer(), place, header)?;
    Ok(FeatureInfo::of(alloc, &feature)?)
}

/// One feature more.
fn add(file: &mut OwnedFile, feature: FeatureInfo, place: u64) -> Result<(), AllocError>
    ensures header { file.new.header ≡ file.old.header }
    ensures features { OnOk result (file.new.features.items ≡ file.old.features.items ++ feature ∷ []) }
    ensures places { OnOk result (file.new.places.items ≡ file.old.places.items ++ place ∷ []) }
{
    file.features.push(feature)?;
    file.places.push(place)?;
    Ok(())
}
