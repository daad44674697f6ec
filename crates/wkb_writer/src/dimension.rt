// The dimension of the points of a shape: one for all of them, or none that can be written.
ghost use Rattle.std.specs.Prelude.{◌≡◌, ◌≤◌, ◌*◌, [], ◌∷◌, ◌++◌, List, MatchResult};
ghost use Rattle.fgb_schema.specs.Shapes.{Shape as Tree};
ghost use Rattle.wkb_writer.specs.Commons.{IsCommon};
ghost use Rattle.wkb_writer.specs.Dimensions.{IsDimension, coordinate_dimension, dimension_of, flat, tree};
ghost use Rattle.wkb_writer.specs.Refusals.{IsNoWkb};

use crate::shows::Shows;
use flat_views::{Broken, Rule};
use geometry_view::Ordinate;

/// Whether points have z and m. (OGC 06-103r4, section 8.2)
#[derive(Clone, Copy, Debug, PartialEq, Eq)]
pub struct Dimension {
    /// A height beside x and y.
    pub z: bool,
    /// A measure beside them.
    pub m: bool,
}

impl Dimension {
    /// How many bytes the ordinates of a point have.
    pub(crate) fn size(self) -> usize
        ensures all { result ≡ 8 * coordinate_dimension self }
        ensures few { result ≤ 32 }
    {
        8 * (2 + usize::from(self.z) + usize::from(self.m))
    }
}

/// What the points of some shapes have in common.
#[derive(Clone, Copy)]
pub(crate) enum Common {
    /// There are none.
    Pointless,
    /// They are of this dimension.
    Of(Dimension),
    /// They are of two dimensions, or there are times.
    Refused,
}

impl Common {
    /// What the points of these and of other shapes have in common.
    fn join(self, other: Common) -> Common
        ensures { (these others : List Tree) → IsCommon these self → IsCommon others other → IsCommon (these ++ others) result }
    {
        match (self, other) {
            (Common::Pointless, common) | (common, Common::Pointless) => common,
            (Common::Of(one), Common::Of(two)) if one.z == two.z && one.m == two.m => self,
            _ => Common::Refused,
        }
    }
}

/// The dimension of all points of a shape, at every depth, and x and y alone where there are none. Refuses NoWkb at 0.
pub(crate) fn dimension_in<S: Shows>(view: &S) -> Result<Dimension, Broken>
    ensures { MatchResult result (IsDimension (S.shown view.now)) (IsNoWkb (S.shown view.now)) }
{
    match common_of(view) {
        Common::Pointless => Ok(Dimension { z: false, m: false }),
        Common::Of(dimension) => Ok(dimension),
        Common::Refused => Err(Broken {
            place: 0,
            rule: Rule::NoWkb,
        }),
    }
}

/// What the points of a shape have in common.
fn common_of<S: Shows>(view: &S) -> Common
    ensures { IsCommon (tree (S.shown view.now)) result }
{
    let mut common = own_common(view);
    for i in 0..view.parts() {
        common = common.join(common_of(&view.part(i)));
    }
    common
}

/// What the points of a shape have in common, without those of its parts.
fn own_common<S: Shows>(view: &S) -> Common
    ensures { IsCommon (S.shown view.now ∷ []) result }
{
    if view.has(Ordinate::T) || view.has(Ordinate::Tm) {
        return Common::Refused;
    }
    if view.points() == 0 {
        return Common::Pointless;
    }
    Common::Of(own_dimension(view))
}

/// The dimension of a shape's own points.
pub(crate) fn own_dimension<S: Shows>(view: &S) -> Dimension
    ensures { result ≡ dimension_of (S.shown view.now) }
{
    Dimension {
        z: view.has(Ordinate::Z),
        m: view.has(Ordinate::M),
    }
}
