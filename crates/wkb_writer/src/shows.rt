// Geometries that can be walked: those that were read, and owned ones.
ghost use Rattle.std.specs.Prelude.{◌≡◌, ◌<◌, nat_lt, length, slice_get, Some, IsTrue};
ghost use Rattle.fgb_schema.specs.Shapes.{Shape as Tree, ordinates_in, parts_in, points_in, rings_in, type_in};
ghost use Rattle.geometry_view.specs.Kinds.{number_of};
ghost use Rattle.geometry_view.specs.Views.{geometry_shown, listed};
ghost use Rattle.wkb_writer.specs.Levels.{IsLaid};
ghost use Rattle.wkb_writer.specs.Laid.{view_laid};

use geometry_view::{GeometryView, Kind, Ordinate};
use owned_shape::Shape;

/// A geometry that can be walked.
pub(crate) trait Shows: Copy {
    // The shape that it shows.
    ghost shown: { Self → Tree };

    /// The type.
    fn kind(&self) -> Kind
        ensures { number_of result ≡ type_in (shown self.now) };

    /// How many points it has of its own.
    fn points(&self) -> usize
        ensures { result ≡ length (points_in (shown self.now)) };

    /// The patterns of the x and the y of its i-th point.
    fn xy(&self, i: usize) -> (u64, u64)
        requires { i < length (points_in (shown self.now)) }
        ensures { slice_get (points_in (shown self.now)) i ≡ Some result };

    /// Whether there are such numbers beside its points.
    fn has(&self, which: Ordinate) -> bool
        ensures { result ≡ nat_lt 0 (length (listed which (ordinates_in (shown self.now)))) };

    /// The number beside its i-th point.
    fn number(&self, which: Ordinate, i: usize) -> u64
        requires { i < length (listed which (ordinates_in (shown self.now))) }
        ensures { slice_get (listed which (ordinates_in (shown self.now))) i ≡ Some result };

    /// How many rings it has.
    fn rings(&self) -> usize
        ensures { result ≡ length (rings_in (shown self.now)) };

    /// The first point and the end of its i-th ring.
    fn ring(&self, i: usize) -> (usize, usize)
        requires { i < length (rings_in (shown self.now)) }
        ensures { slice_get (rings_in (shown self.now)) i ≡ Some result };

    /// How many parts it has.
    fn parts(&self) -> usize
        ensures { result ≡ length (parts_in (shown self.now)) };

    /// Its i-th part.
    fn part(&self, i: usize) -> Self
        requires { i < length (parts_in (shown self.now)) }
        ensures { slice_get (parts_in (shown self.now)) i ≡ Some (shown result) };

    // What its lists are to one another.
    ghost laid: { (s : Self) → IsLaid (shown s) };
}

impl Shows for GeometryView<'_> {
    ghost shown = { geometry_shown };

    fn kind(&self) -> Kind {
        self.kind()
    }

    fn points(&self) -> usize {
        self.points()
    }

    fn xy(&self, i: usize) -> (u64, u64) {
        let (x, y) = self.xy(i);
        (x.0, y.0)
    }

    fn has(&self, which: Ordinate) -> bool {
        self.ordinates(which).is_some()
    }

    fn number(&self, which: Ordinate, i: usize) -> u64 {
        match self.ordinates(which) {
            Some(list) => list.at_u64(i),
            None => unreachable!(),
        }
    }

    fn rings(&self) -> usize {
        self.rings()
    }

    fn ring(&self, i: usize) -> (usize, usize) {
        self.ring(i)
    }

    fn parts(&self) -> usize {
        self.parts()
    }

    fn part(&self, i: usize) -> Self {
        self.part(i)
    }

    ghost laid = { view_laid };
}

/// An owned shape, with what its lists are to one another.
#[derive(Clone, Copy)]
pub(crate) struct Owned<'a> {
    shape: &'a Shape,
    pub ghost laid: { IsLaid shape.now },
}

impl<'a> Owned<'a> {
    /// The shape.
    pub(crate) fn of(shape: &'a Shape) -> Owned<'a>
        ensures { result.shape.now ≡ shape.now }
    {
        // so that what it keeps is known
        let _ = shape.kind();
        Owned { shape }
    }
}

impl Shows for Owned<'_> {
    ghost shown = { λ owned. owned.shape.now };

    fn kind(&self) -> Kind {
        self.shape.kind()
    }

    fn points(&self) -> usize {
        self.shape.points()
    }

    fn xy(&self, i: usize) -> (u64, u64) {
        let (x, y) = self.shape.xy(i);
        (x.0, y.0)
    }

    fn has(&self, which: Ordinate) -> bool {
        !self.shape.ordinates(which).is_empty()
    }

    fn number(&self, which: Ordinate, i: usize) -> u64 {
        self.shape.ordinates(which)[i]
    }

    fn rings(&self) -> usize {
        self.shape.rings()
    }

    fn ring(&self, i: usize) -> (usize, usize) {
        self.shape.ring(i)
    }

    fn parts(&self) -> usize {
        self.shape.parts()
    }

    fn part(&self, i: usize) -> Self {
        Owned::of(self.shape.part(i))
    }

    ghost laid = { λ owned. owned.laid };
}
