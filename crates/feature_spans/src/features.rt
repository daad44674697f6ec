// The features of a source.
ghost use Rattle.std.specs.Prelude.{◌≡◌, ◌+◌, ◌^◌, ◌≤◌, ◌∷◌, ◌++◌, ℕ, List, [], Option, length, IfOk, OnOk, IsErrOf};
ghost use Rattle.std.specs.List.{AllByRecursion};
ghost use Rattle.level_bounds.specs.Levels.{Shape};
ghost use Rattle.order_keys.specs.Boxes.{IsBox};
ghost use Rattle.flat_layout.specs.Promises.{Judges};
ghost use Rattle.fgb_schema.specs.Paths.{feature_root};
ghost use Rattle.fgb_schema.specs.Weights.{BreaksBuffer};
ghost use Rattle.fgb_schema.specs.Features.{feature_of, own_box};
ghost use Rattle.fgb_outside.specs.Source.{IfTold, Keeps, Rose};
ghost use Rattle.fgb_header.specs.Views.{header_shown};
ghost use Rattle.fgb_file.specs.File.{IsFile, first_place, header_in};
ghost use Rattle.fgb_reader.specs.Reading.{buffer_of, end_of, first_of, place_of};
ghost use Rattle.read_stop.specs.Stops.{IfRefused};
ghost use Rattle.feature_spans.specs.Spans.{LiesIn, Surveys};

use fgb_feature::FeatureView;
use fgb_header::HeaderView;
use fgb_outside::RangeSource;
use fgb_reader::{PREFIX, Pieces, ReadStop};
use flat_views::Broken;
use order_keys::Bounds;
use std::alloc::{AllocError, Global};

/// A part of a source.
#[derive(Clone, Copy, Debug, PartialEq, Eq)]
pub struct Span {
    /// Where it begins.
    pub at: u64,
    /// How many bytes it has.
    pub len: usize,
}

/// What a file has of features, in the order of the file.
#[derive(Drop)]
pub struct Survey {
    /// The own box of each.
    pub boxes: Vec<Bounds>,
    /// Where each stands, with its size prefix.
    pub spans: Vec<Span>,
}

/// The features that stand one behind the other between two places of a source. Refuses what is broken at a feature.
pub fn survey_features<S: RangeSource>(
    alloc: Global,
    header: &HeaderView,
    first: u64,
    end: u64,
    source: &mut S,
) -> Result<Survey, ReadStop>
    requires order { first ≤ end }
    requires small { end ≤ 2 ^ 48 }
    requires inside { end ≤ (S.seen source.old).size }

    // Of a file that breaks no rule they are its features, and none is refused.
    ensures features { IfOk result (λ survey. IfTold (S.seen source.old) (λ image. (index : Option Shape) (pieces : List (List ℕ)) → IsFile image index pieces
        → header_shown header.now ≡ header_in image → first ≡ first_place image index → end ≡ length image → Surveys image (header_in image) pieces survey)) }
    ensures unrefused { IfRefused result (λ _. IfTold (S.seen source.old) (λ image. (index : Option Shape) (pieces : List (List ℕ)) → IsFile image index pieces
        → header_shown header.now ≡ header_in image → first ≡ first_place image index → end ≡ length image → ⊥)) }

    ensures boxes { IfOk result (λ survey. AllByRecursion IsBox survey.boxes.items) }
    ensures spans { IfOk result (λ survey. AllByRecursion (LiesIn first end) survey.spans.items) }
    ensures each { IfOk result (λ survey. length survey.spans.items ≡ length survey.boxes.items) }
    ensures few { IfOk result (λ survey. length survey.boxes.items ≤ end) }
    ensures keeps { Keeps (S.seen source.old) (S.seen source.new) }
    ensures failed { IsErrOf result ReadStop.SourceFailed → Rose (S.seen source.old).faults (S.seen source.new).faults }
{
    let mut survey = Survey {
        boxes: Vec::new(alloc),
        spans: Vec::new(alloc),
    };
    let mut pieces = Pieces::new(alloc, first, end);
    while pieces.advance(source)? {
        let bounds = own_box(&pieces, header)?;
        add(&mut survey, bounds, span_of(&pieces))?;
    }
    Ok(survey)
}

/// Where the feature that is lent stands, with its size prefix.
fn span_of(pieces: &Pieces) -> Span
    requires { 4 ≤ pieces.now.len }
    ensures at { result.at ≡ place_of pieces.now }
    ensures len { result.len ≡ pieces.now.len }
    ensures lies { LiesIn (first_of pieces.now) (end_of pieces.now) result }
{
    Span {
        at: pieces.place(),
        len: PREFIX + pieces.buffer().len(),
    }
}

/// One feature more.
fn add(survey: &mut Survey, bounds: Bounds, span: Span) -> Result<(), AllocError>
    ensures boxes { OnOk result (survey.new.boxes.items ≡ survey.old.boxes.items ++ bounds ∷ []) }
    ensures spans { OnOk result (survey.new.spans.items ≡ survey.old.spans.items ++ span ∷ []) }
{
    survey.boxes.push(bounds)?;
    survey.spans.push(span)?;
    Ok(())
}

/// The own box of the feature that is lent, whose buffer it judges.
fn own_box(pieces: &Pieces, header: &HeaderView) -> Result<Bounds, Broken>
    requires { 4 ≤ pieces.now.len }
    ensures judged { Judges (place_of pieces.now + 4) (BreaksBuffer (buffer_of pieces.now) (feature_root (header_shown header.now)))
        (λ own. own ≡ own_box (feature_of (header_shown header.now) (buffer_of pieces.now))) result }
    ensures sound { IfOk result IsBox }
{
    let feature = FeatureView::read(pieces.buffer(), pieces.place() + PREFIX as u64, header)?;
    match feature.geometry() {
        Some(geometry) => Ok(geometry.bounds()),
        None => Ok(Bounds::empty()),
    }
}
