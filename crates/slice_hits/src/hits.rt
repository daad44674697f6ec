// The iterator.
ghost use Rattle.std.specs.Prelude.{◌≡◌, ◌+◌, ◌*◌, ◌≤◌, ◌^◌, [], length, option_map, IfSome, MatchResult};
ghost use Rattle.level_bounds.specs.Levels.{node_count};
ghost use Rattle.level_bounds.specs.Shapes.{shape_of};
ghost use Rattle.fgb_header.specs.Views.{header_shown};
ghost use Rattle.fgb_file.specs.File.{BreaksInFront, IsOpen, header_end, header_in};

use crate::features::Features;
use crate::scan::Scan;
use crate::search::Search;
use crate::walk::Walk;
use box_list::Boxes;
use fgb_header::HeaderView;
use fgb_reader::{START, judge_header, judge_levels, judge_size, judge_start};
use flat_views::Broken;
use found_features::Found;
use level_bounds::Levels;
use node_items::NODE;

/// The features of a file in memory whose own boxes meet one of several boxes, in file order.
///
/// Gives each as Ok, and ends. An Err names a rule that is broken at its place, and then nothing more is given. With an
/// index that is NodeBox, ChildOffset or ParentBox at a node whose every ancestor's box meets one of the boxes,
/// LeafPastEnd, LeafOrder or LeafBox at a leaf that is found, or what the feature breaks that stands where such a leaf says; the
/// children of a node are judged before they are searched. Without an index it is what a feature breaks, or
/// FeatureCount. (FlatGeobuf, "Index")
#[derive(Drop)]
pub struct Hits<'a> {
    walk: Walk<'a>,
}

impl<'a> Hits<'a> {
    ghost use Rattle.slice_hits.specs.Giving.{HasGiven};

    /// The features in these bytes that meet one of the boxes. Refuses a rule of the start or the header, or IndexPastEnd. It
    /// takes no memory.
    pub fn new(bytes: &'a [u8], boxes: Boxes) -> Result<Hits<'a>, Broken>
        ensures { MatchResult result (HasGiven bytes.now boxes []) (BreaksInFront bytes.now) }
    {
        let size = bytes.len() as u64;
        judge_size(size)?;
        let len = judge_start(&bytes[..START], size)?;
        let header = judge_header(&bytes[START..START + len])?;
        let place = START + len;
        let levels = judge_levels(&header, place as u64, size)?;
        Ok(Hits::behind(bytes, boxes, header, place, levels))
    }

    /// In front of all features behind this header, which ends at this place, and this index, if there is one.
    fn behind(
        bytes: &'a [u8],
        boxes: Boxes,
        header: HeaderView<'a>,
        place: usize,
        levels: Option<Levels>,
    ) -> Hits<'a>
        requires small { length bytes.now ≤ 2 ^ 48 }
        requires order { place ≤ length bytes.now }
        requires inside { IfSome levels (λ l. place + 40 * node_count (shape_of l) ≤ length bytes.now) }
        ensures { header_shown header.entry ≡ header_in bytes.now → place ≡ header_end bytes.now → IsOpen bytes.now (option_map shape_of levels) → HasGiven bytes.now boxes [] result }
    {
        let walk = match levels {
            Some(levels) => {
                let features = Features {
                    bytes,
                    header,
                    first: place + NODE * levels.nodes() as usize,
                };
                Walk::Searching(Search::new(features, levels, place, boxes))
            }
            None => {
                let features = Features {
                    bytes,
                    header,
                    first: place,
                };
                Walk::Scanning(Scan::new(features, boxes))
            }
        };
        Hits { walk }
    }
}

impl<'a> Iterator for Hits<'a> {
    ghost use Rattle.std.specs.Iterator.{at_most};
    ghost use Rattle.slice_hits.specs.Giving.{IsStep, left};

    type Item = Result<Found<'a>, Broken>;

    ghost next_gives = { IsStep };

    ghost remaining = { λ hits. at_most (left hits) };

    fn next(&mut self) -> Option<Result<Found<'a>, Broken>> {
        match self.walk.advance() {
            Ok(Some(found)) => Some(Ok(found)),
            Ok(None) => {
                self.walk = Walk::Over;
                None
            }
            Err(broken) => {
                self.walk = Walk::Over;
                Some(Err(broken))
            }
        }
    }
}
