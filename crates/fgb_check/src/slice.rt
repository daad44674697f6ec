// Checking bytes in memory.
ghost use Rattle.std.specs.Prelude.{◌≡◌, ◌+◌, ◌*◌, ◌<◌, ◌≤◌, ◌^◌, MatchResult, length, option_map, IfSome};
ghost use Rattle.level_bounds.specs.Levels.{node_count};
ghost use Rattle.level_bounds.specs.Shapes.{shape_of};
ghost use Rattle.fgb_header.specs.Views.{header_shown};
ghost use Rattle.fgb_file.specs.File.{AreNodes, BreaksFeature, BreaksFirst, IsOpen, LeafAgrees, first_place, header_end, header_in, nodes_of};
ghost use Rattle.fgb_check.specs.Leaves.{RefusesLeaf};
ghost use Rattle.fgb_check.specs.Verdicts.{IsFileOf, IsFileWith, IsVerdict};
ghost use Rattle.fgb_check.specs.Walks.{IsOpened, IsSound, box_at};

use crate::leaf::judge_leaf;
use crate::verdict::Verdict;
use fgb_feature::FeatureView;
use fgb_header::HeaderView;
use fgb_reader::{
    PREFIX, START, Tally, framed_size, judge_header, judge_levels, judge_size, judge_start,
};
use flat_views::Broken;
use index_reader::{judge_index, leaf};
use level_bounds::Levels;
use node_items::NODE;
use order_keys::Bounds;

/// Judges a file in memory, as `check` does, and takes no memory.
pub fn check_slice(bytes: &[u8]) -> Verdict
    ensures { IsVerdict bytes.now result }
{
    match count(bytes) {
        Ok((features, nodes)) => Verdict::Accepted { features, nodes },
        Err(broken) => Verdict::Refused(broken),
    }
}

/// The numbers of features and of nodes of a file that breaks no rule.
fn count(bytes: &[u8]) -> Result<(u64, u64), Broken>
    ensures { MatchResult result (λ counts. IsFileOf bytes.now counts.0 counts.1) (BreaksFirst bytes.now) }
{
    let size = bytes.len() as u64;
    judge_size(size)?;
    let len = judge_start(&bytes[..START], size)?;
    let header = judge_header(&bytes[START..START + len])?;
    let place = START + len;
    let levels = judge_levels(&header, place as u64, size)?;
    let nodes = judge_nodes(bytes, place, &levels)?;
    let features = count_features(bytes, place, &levels, &header)?;
    Ok((features, nodes))
}

/// Judges the nodes of the index that begins at this place, if there is one, and says how many there are.
fn judge_nodes(bytes: &[u8], place: usize, levels: &Option<Levels>) -> Result<u64, Broken>
    requires place { place ≡ header_end bytes.now }
    requires small { length bytes.now ≤ 2 ^ 48 }
    requires opened { IsOpen bytes.now (option_map shape_of levels.now) }
    ensures { let index = option_map shape_of levels.now in
        MatchResult result (λ nodes. AreNodes bytes.now index × (nodes ≡ nodes_of index)) (BreaksFirst bytes.now) }
{
    match levels {
        Some(levels) => {
            judge_index(bytes, place, levels)?;
            Ok(levels.nodes())
        }
        None => Ok(0),
    }
}

/// The number of features from the end of the index on, which begins at this place, where there is one. They end a
/// file with this header.
fn count_features(
    bytes: &[u8],
    place: usize,
    levels: &Option<Levels>,
    header: &HeaderView,
) -> Result<u64, Broken>
    requires place { place ≡ header_end bytes.now }
    requires small { length bytes.now ≤ 2 ^ 48 }
    requires opened { let index = option_map shape_of levels.now in IsOpened bytes.now index (header_shown header.now) (first_place bytes.now index) }
    ensures { MatchResult result (IsFileWith bytes.now (option_map shape_of levels.now)) (BreaksFirst bytes.now) }
{
    let first = first_feature(place, levels);
    let mut at = first;
    let mut tally = Tally::new(header.features_count());
    while at < bytes.len() {
        let (own, next) = read_feature(bytes, at, header)?;
        judge_own_leaf(bytes, place, levels, tally.seen(), (at - first) as u64, own)?;
        tally.add(at as u64);
        at = next;
    }
    tally.judge(bytes.len() as u64)
}

/// Where the first feature stands behind an index that begins at this place, or none.
fn first_feature(place: usize, levels: &Option<Levels>) -> usize
    requires { IfSome levels.now (λ l. place + 40 * node_count (shape_of l) ≤ 2 ^ 48) }
    ensures { result ≡ place + 40 * nodes_of (option_map shape_of levels.now) }
{
    match levels {
        Some(levels) => place + NODE * levels.nodes() as usize,
        None => place,
    }
}

/// Reads the feature whose size prefix stands here, and gives its own box and the place behind it.
fn read_feature(bytes: &[u8], at: usize, header: &HeaderView) -> Result<(Bounds, usize), Broken>
    requires inside { at ≤ length bytes.now }
    requires small { length bytes.now ≤ 2 ^ 48 }
    requires header { header_shown header.now ≡ header_in bytes.now }
    ensures { MatchResult result (λ read. IsSound bytes.now at read.1 × (read.0 ≡ box_at bytes.now at)) (λ broken. BreaksFeature bytes.now at broken.place broken.rule) }
{
    let rest = &bytes[at..];
    let size = framed_size(rest, rest.len() as u64, at as u64)?;
    let from = at + PREFIX;
    let feature = FeatureView::read(&rest[PREFIX..PREFIX + size], from as u64, header)?;
    Ok((feature.bounds(), from + size))
}

/// Judges the leaf of feature k, where there is an index with so many, by the feature's offset and its own box.
fn judge_own_leaf(
    bytes: &[u8],
    place: usize,
    levels: &Option<Levels>,
    k: u64,
    offset: u64,
    own: Bounds,
) -> Result<(), Broken>
    requires place { place ≡ header_end bytes.now }
    requires small { length bytes.now ≤ 2 ^ 48 }
    requires inside { IfSome levels.now (λ l. place + 40 * node_count (shape_of l) ≤ length bytes.now) }
    ensures { let index = option_map shape_of levels.now in
        MatchResult result (λ _. LeafAgrees bytes.now index k offset own) (RefusesLeaf bytes.now index k offset own) }
{
    let Some(levels) = levels else {
        return Ok(());
    };
    let (first, end) = levels.level(0);
    if k >= end - first {
        return Ok(());
    }
    let item = leaf(bytes, place, levels, k);
    judge_leaf(
        item,
        (place + NODE * (first + k) as usize) as u64,
        offset,
        own,
    )
}
