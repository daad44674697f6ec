// The walk through a file without an index.
ghost use Rattle.std.specs.Prelude.{◌≡◌, ◌+◌, ◌<◌, ◌≤◌, ℕ, List, [], None, length, IfOk, OnOk, OnSome};
ghost use Rattle.order_keys.specs.declared.bounds.Bounds.{Bounds as Box};
ghost use Rattle.found_features.specs.Entries.{Entry};
ghost use Rattle.fgb_reader.specs.Tallies.{seen_of};

use crate::features::Features;
use box_list::Boxes;
use fgb_reader::{PREFIX, Tally};
use flat_views::Broken;
use found_features::Found;

/// A walk through all features.
#[derive(Drop)]
pub(crate) struct Scan<'a> {
    features: Features<'a>,
    boxes: Boxes,
    /// Where the next feature stands.
    at: usize,
    tally: Tally,
    pub ghost onward: { features.first ≤ at },
    pub ghost within: { at ≤ length features.bytes.now },
    pub ghost few: { seen_of tally ≤ at },
}

impl<'a> Scan<'a> {
    ghost use Rattle.slice_hits.specs.Answering.{GoesOn, PassesOn};
    ghost use Rattle.slice_hits.specs.Reading.{AreOf};
    ghost use Rattle.slice_hits.specs.Scanning.{Stands, left};

    /// In front of the first feature.
    pub(crate) fn new(features: Features<'a>, boxes: Boxes) -> Scan<'a>
        ensures { (image : List ℕ) → AreOf image None features.entry → Stands image boxes [] result }
    {
        Scan {
            features,
            boxes,
            at: features.first,
            tally: Tally::new(features.header.features_count()),
        }
    }

    /// The next feature whose own box meets one of the boxes, None behind the last feature. Refuses FeaturePastEnd or
    /// FeatureSize at a size prefix, what a feature's buffer breaks, and at the end FeatureCount.
    pub(crate) fn advance(&mut self) -> Result<Option<Found<'a>>, Broken>
        ensures goes { (image : List ℕ) (boxes : List Box) (entries : List Entry) → Stands image boxes entries self.old → GoesOn image boxes entries (λ es. Stands image boxes es self.new) result }
        ensures nearer { IfOk result (λ found. OnSome found (left self.new < left self.old)) }
    {
        while self.at < self.features.bytes.len() {
            if let Some(found) = self.pass()? {
                return Ok(Some(found));
            }
        }
        self.tally.judge(self.features.bytes.len() as u64)?;
        Ok(None)
    }

    /// Reads the next feature, goes on behind it, and gives it if its own box meets one of the boxes.
    fn pass(&mut self) -> Result<Option<Found<'a>>, Broken>
        requires { self.old.at < length self.old.features.bytes.now }
        ensures passes { (image : List ℕ) (boxes : List Box) (entries : List Entry) → Stands image boxes entries self.old → PassesOn image boxes entries (λ es. Stands image boxes es self.new) result }
        ensures same { length self.new.features.bytes.now ≡ length self.old.features.bytes.now }
        ensures nearer { OnOk result (self.old.at < self.new.at) }
    {
        let at = self.at;
        let (bytes, bounds) = self.features.read(at)?;
        let number = self.tally.seen();
        self.tally.add(at as u64);
        self.at = at + PREFIX + bytes.len();
        if !self.boxes.meets(bounds) {
            return Ok(None);
        }
        Ok(Some(Found {
            number,
            offset: (at - self.features.first) as u64,
            bytes,
            bounds,
        }))
    }
}
