ghost use Rattle.std.specs.Prelude.{◌≡◌, ◌==◌, false, MatchOption};
ghost use Rattle.fgb_schema.specs.Tables.{has_parts, has_points, has_rings, is_kind};
ghost use Rattle.geometry_view.specs.Kinds.{field_of, number_of};

use crate::lists::{M, T, TM, Z};

/// The type of a geometry. (FlatGeobuf, feature.fbs, GeometryType)
#[derive(Clone, Copy, Debug, PartialEq, Eq)]
pub enum Kind {
    /// One point, or none.
    Point,
    /// A line through points.
    LineString,
    /// Rings of points.
    Polygon,
    /// Points.
    MultiPoint,
    /// Lines, which are its rings.
    MultiLineString,
    /// Polygons, which are its parts.
    MultiPolygon,
    /// Geometries of any type, which are its parts.
    GeometryCollection,
}

/// A list of numbers beside the points of a geometry, one for each of them.
#[derive(Clone, Copy, Debug, PartialEq, Eq)]
pub enum Ordinate {
    /// The height.
    Z,
    /// A measure.
    M,
    /// A time.
    T,
    /// A time in nanoseconds.
    Tm,
}

impl Kind {
    /// The type with this number, if it is 1 to 7.
    pub fn of(number: u8) -> Option<Kind>
        ensures { MatchOption result (is_kind number ≡ false) (λ kind. number_of kind ≡ number) }
    {
        match number {
            1 => Some(Kind::Point),
            2 => Some(Kind::LineString),
            3 => Some(Kind::Polygon),
            4 => Some(Kind::MultiPoint),
            5 => Some(Kind::MultiLineString),
            6 => Some(Kind::MultiPolygon),
            7 => Some(Kind::GeometryCollection),
            _ => None,
        }
    }

    /// The number of the type, 1 to 7.
    pub fn number(self) -> u8
        ensures { result ≡ number_of self }
    {
        match self {
            Kind::Point => 1,
            Kind::LineString => 2,
            Kind::Polygon => 3,
            Kind::MultiPoint => 4,
            Kind::MultiLineString => 5,
            Kind::MultiPolygon => 6,
            Kind::GeometryCollection => 7,
        }
    }

    /// Whether it is a Point.
    pub(crate) fn is_point(self) -> bool
        ensures { result ≡ (number_of self == 1) }
    {
        matches!(self, Kind::Point)
    }

    /// Whether a geometry of this type has rings.
    pub(crate) fn has_rings(self) -> bool
        ensures { result ≡ has_rings (number_of self) }
    {
        matches!(self, Kind::Polygon | Kind::MultiLineString)
    }

    /// Whether it has points of its own.
    pub(crate) fn has_points(self) -> bool
        ensures { result ≡ has_points (number_of self) }
    {
        !self.has_parts()
    }

    /// Whether it has parts.
    pub(crate) fn has_parts(self) -> bool
        ensures { result ≡ has_parts (number_of self) }
    {
        matches!(self, Kind::MultiPolygon | Kind::GeometryCollection)
    }
}

impl Ordinate {
    /// The field of the schema that leads to it.
    pub(crate) fn field(self) -> u16
        ensures { result ≡ field_of self }
    {
        match self {
            Ordinate::Z => Z,
            Ordinate::M => M,
            Ordinate::T => T,
            Ordinate::Tm => TM,
        }
    }
}
