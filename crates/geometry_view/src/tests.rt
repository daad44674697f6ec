ghost use Rattle.std.specs.Prelude.{◌≤◌, length};

use super::*;
use flat_views::{Broken, Buf, Meter, Rule};
use order_keys::{Bounds, Coord};
use std::test::Fail;

/// A GeometryCollection of geometries of each type, hand-laid.
const SHAPES: [u8; 836] = [
    // the root
    104, 0, 0, 0,
    // the vtable of an empty geometry: its type alone
    18, 0, 5, 0, 0, 0, 0, 0, 0, 0, 0, 0, 0, 0, 0, 0, 4, 0, 0, 0,
    // of one with points and a type
    18, 0, 9, 0, 0, 0, 4, 0, 0, 0, 0, 0, 0, 0, 0, 0, 8, 0, 0, 0,
    // with ends too
    18, 0, 13, 0, 4, 0, 8, 0, 0, 0, 0, 0, 0, 0, 0, 0, 12, 0, 0, 0,
    // with all ordinates
    18, 0, 25, 0, 0, 0, 4, 0, 8, 0, 12, 0, 16, 0, 20, 0, 24, 0, 0, 0,
    // of one with parts and a type
    20, 0, 9, 0, 0, 0, 0, 0, 0, 0, 0, 0, 0, 0, 0, 0, 8, 0, 4, 0,
    // a GeometryCollection
    20, 0, 0, 0, 8, 0, 0, 0, 7, 0, 0, 0,
    // its nine parts
    9, 0, 0, 0, 36, 0, 0, 0, 128, 0, 0, 0, 132, 0, 0, 0, 236, 0, 0, 0, 60, 1, 0, 0, 104, 1, 0, 0,
    148, 1, 0, 0, 224, 1, 0, 0, 68, 2, 0, 0,
    // a Point with all ordinates
    92, 0, 0, 0, 24, 0, 0, 0, 40, 0, 0, 0, 48, 0, 0, 0, 56, 0, 0, 0, 64, 0, 0, 0, 1, 0, 0, 0,
    // (5, -6)
    2, 0, 0, 0, 0, 0, 0, 0, 0, 0, 20, 64, 0, 0, 0, 0, 0, 0, 24, 192,
    // its z, m, t and tm: 7, 8, 9, and the pattern 10
    1, 0, 0, 0, 0, 0, 0, 0, 0, 0, 28, 64, 1, 0, 0, 0, 0, 0, 0, 0, 0, 0, 32, 64, 1, 0, 0, 0, 0, 0,
    0, 0, 0, 0, 34, 64, 1, 0, 0, 0, 10, 0, 0, 0, 0, 0, 0, 0,
    // an empty Point
    248, 0, 0, 0, 1, 0, 0, 0,
    // a LineString, whose t and tm lead to one vector
    196, 0, 0, 0, 24, 0, 0, 0, 56, 0, 0, 0, 72, 0, 0, 0, 72, 0, 0, 0, 68, 0, 0, 0, 2, 0, 0, 0,
    // (1, 2), (3, -4)
    4, 0, 0, 0, 0, 0, 0, 0, 0, 0, 240, 63, 0, 0, 0, 0, 0, 0, 0, 64, 0, 0, 0, 0, 0, 0, 8, 64, 0, 0,
    0, 0, 0, 0, 16, 192,
    // a z that is no number, and 1
    2, 0, 0, 0, 0, 0, 0, 0, 0, 0, 248, 127, 0, 0, 0, 0, 0, 0, 240, 63,
    // an empty m
    0, 0, 0, 0,
    // 1, 2
    2, 0, 0, 0, 0, 0, 0, 0, 0, 0, 240, 63, 0, 0, 0, 0, 0, 0, 0, 64,
    // a Polygon
    68, 1, 0, 0, 12, 0, 0, 0, 24, 0, 0, 0, 3, 0, 0, 0,
    // the ends 2, 2, 3: the second of three rings is empty
    3, 0, 0, 0, 2, 0, 0, 0, 2, 0, 0, 0, 3, 0, 0, 0,
    // (0, 1), (2, 3), (4, 5)
    6, 0, 0, 0, 0, 0, 0, 0, 0, 0, 0, 0, 0, 0, 0, 0, 0, 0, 240, 63, 0, 0, 0, 0, 0, 0, 0, 64, 0, 0,
    0, 0, 0, 0, 8, 64, 0, 0, 0, 0, 0, 0, 16, 64, 0, 0, 0, 0, 0, 0, 20, 64,
    // a Polygon without ends
    172, 1, 0, 0, 8, 0, 0, 0, 3, 0, 0, 0,
    // (-1, 1), (-2, 2)
    4, 0, 0, 0, 0, 0, 0, 0, 0, 0, 240, 191, 0, 0, 0, 0, 0, 0, 240, 63, 0, 0, 0, 0, 0, 0, 0, 192, 0,
    0, 0, 0, 0, 0, 0, 64,
    // a MultiPoint
    220, 1, 0, 0, 8, 0, 0, 0, 4, 0, 0, 0,
    // (8, 7), (6, 9)
    4, 0, 0, 0, 0, 0, 0, 0, 0, 0, 32, 64, 0, 0, 0, 0, 0, 0, 28, 64, 0, 0, 0, 0, 0, 0, 24, 64, 0, 0,
    0, 0, 0, 0, 34, 64,
    // a MultiLineString
    248, 1, 0, 0, 12, 0, 0, 0, 20, 0, 0, 0, 5, 0, 0, 0,
    // the ends 1, 3
    2, 0, 0, 0, 1, 0, 0, 0, 3, 0, 0, 0,
    // (1, 1), (2, 2), (3, 0)
    6, 0, 0, 0, 0, 0, 0, 0, 0, 0, 240, 63, 0, 0, 0, 0, 0, 0, 240, 63, 0, 0, 0, 0, 0, 0, 0, 64, 0,
    0, 0, 0, 0, 0, 0, 64, 0, 0, 0, 0, 0, 0, 8, 64, 0, 0, 0, 0, 0, 0, 0, 0,
    // a MultiPolygon
    32, 2, 0, 0, 8, 0, 0, 0, 6, 0, 0, 0,
    // its two parts
    2, 0, 0, 0, 8, 0, 0, 0, 52, 0, 0, 0,
    // the first, with the type of a Point
    116, 2, 0, 0, 8, 0, 0, 0, 1, 0, 0, 0,
    // (0, 8), (1, 1)
    4, 0, 0, 0, 0, 0, 0, 0, 0, 0, 0, 0, 0, 0, 0, 0, 0, 0, 32, 64, 0, 0, 0, 0, 0, 0, 240, 63, 0, 0,
    0, 0, 0, 0, 240, 63,
    // the second, with no type
    164, 2, 0, 0, 8, 0, 0, 0, 0, 0, 0, 0,
    // (-9, 2)
    2, 0, 0, 0, 0, 0, 0, 0, 0, 0, 34, 192, 0, 0, 0, 0, 0, 0, 0, 64,
    // a GeometryCollection
    136, 2, 0, 0, 8, 0, 0, 0, 7, 0, 0, 0,
    // its two parts
    2, 0, 0, 0, 8, 0, 0, 0, 36, 0, 0, 0,
    // a Point
    220, 2, 0, 0, 8, 0, 0, 0, 1, 0, 0, 0,
    // (0, -0)
    2, 0, 0, 0, 0, 0, 0, 0, 0, 0, 0, 0, 0, 0, 0, 0, 0, 0, 0, 128,
    // a LineString
    252, 2, 0, 0, 8, 0, 0, 0, 2, 0, 0, 0,
    // (-0, 0), (0, -0)
    4, 0, 0, 0, 0, 0, 0, 0, 0, 0, 0, 128, 0, 0, 0, 0, 0, 0, 0, 0, 0, 0, 0, 0, 0, 0, 0, 0, 0, 0, 0,
    0, 0, 0, 0, 128,
];

/// A level of a tree: its vtable, a GeometryCollection, and two entries that lead to the next level.
const LEVEL: [u8; 44] = [
    20, 0, 12, 0, 0, 0, 0, 0, 0, 0, 0, 0, 0, 0, 0, 0, 8, 0, 4, 0, 20, 0, 0, 0, 8, 0, 0, 0, 7, 0, 0,
    0, 2, 0, 0, 0, 28, 0, 0, 0, 24, 0, 0, 0,
];

/// Where each buffer begins in its file.
const BASE: u64 = 1000;

/// Reads the geometry in the root table of a buffer at the first level, under a meter of this size.
fn read<'a>(bytes: &'a [u8], outer: u8, size: u64) -> Result<GeometryView<'a>, Broken>
    requires short { length bytes.now ≤ 1048576 }
    requires light { size ≤ 1048576 }
{
    let table = Buf::new(bytes, BASE).root()?;
    let mut meter = Meter::new(size, BASE);
    GeometryView::read_under(table, outer, 1, &mut meter)
}

/// Its i-th part, if it has so many.
fn part<'a>(shape: GeometryView<'a>, i: usize) -> Result<GeometryView<'a>, Fail> {
    if i < shape.parts() {
        Ok(shape.part(i))
    } else {
        Err(Fail::new("no part"))
    }
}

/// Whether these are its points.
fn has_points(shape: GeometryView, want: &[(i64, i64)]) -> bool {
    if shape.points() != want.len() {
        return false;
    }
    for i in 0..shape.points() {
        let (x, y) = shape.xy(i);
        if Coord::of_whole(want[i].0) != Some(x) || Coord::of_whole(want[i].1) != Some(y) {
            return false;
        }
    }
    true
}

/// Whether these are its rings.
fn has_rings(shape: GeometryView, want: &[(usize, usize)]) -> bool {
    if shape.rings() != want.len() {
        return false;
    }
    for i in 0..shape.rings() {
        if shape.ring(i) != want[i] {
            return false;
        }
    }
    true
}

/// Whether these are the patterns of one of its lists.
fn has_list(shape: GeometryView, which: Ordinate, want: &[u64]) -> bool {
    let Some(list) = shape.ordinates(which) else {
        return false;
    };
    if list.len() != want.len() {
        return false;
    }
    for i in 0..list.len() {
        if list.at_u64(i) != want[i] {
            return false;
        }
    }
    true
}

/// What is to be seen of a geometry. Its edges are the least x and y, and the greatest x and y.
struct Row {
    kind: Kind,
    points: &'static [(i64, i64)],
    rings: &'static [(usize, usize)],
    edges: Option<[i64; 4]>,
}

/// The first eight parts of `SHAPES`.
const PARTS: [Row; 8] = [
    Row {
        kind: Kind::Point,
        points: &[(5, -6)],
        rings: &[],
        edges: Some([5, -6, 5, -6]),
    },
    Row {
        kind: Kind::Point,
        points: &[],
        rings: &[],
        edges: None,
    },
    Row {
        kind: Kind::LineString,
        points: &[(1, 2), (3, -4)],
        rings: &[],
        edges: Some([1, -4, 3, 2]),
    },
    Row {
        kind: Kind::Polygon,
        points: &[(0, 1), (2, 3), (4, 5)],
        rings: &[(0, 2), (2, 2), (2, 3)],
        edges: Some([0, 1, 4, 5]),
    },
    Row {
        kind: Kind::Polygon,
        points: &[(-1, 1), (-2, 2)],
        rings: &[(0, 2)],
        edges: Some([-2, 1, -1, 2]),
    },
    Row {
        kind: Kind::MultiPoint,
        points: &[(8, 7), (6, 9)],
        rings: &[],
        edges: Some([6, 7, 8, 9]),
    },
    Row {
        kind: Kind::MultiLineString,
        points: &[(1, 1), (2, 2), (3, 0)],
        rings: &[(0, 1), (1, 3)],
        edges: Some([1, 0, 3, 2]),
    },
    Row {
        kind: Kind::MultiPolygon,
        points: &[],
        rings: &[],
        edges: Some([-9, 1, 1, 8]),
    },
];

/// The parts of the MultiPolygon.
const POLYGONS: [Row; 2] = [
    Row {
        kind: Kind::Polygon,
        points: &[(0, 8), (1, 1)],
        rings: &[(0, 2)],
        edges: Some([0, 1, 1, 8]),
    },
    Row {
        kind: Kind::Polygon,
        points: &[(-9, 2)],
        rings: &[(0, 1)],
        edges: Some([-9, 2, -9, 2]),
    },
];

/// The box with these edges, the empty one where there are none.
fn area(edges: Option<[i64; 4]>) -> Option<Bounds> {
    let Some(edges) = edges else {
        return Some(Bounds::empty());
    };
    Some(Bounds {
        min_x: Coord::of_whole(edges[0])?,
        min_y: Coord::of_whole(edges[1])?,
        max_x: Coord::of_whole(edges[2])?,
        max_y: Coord::of_whole(edges[3])?,
    })
}

/// Whether that is to be seen of it.
fn shows(shape: GeometryView, row: &Row) -> bool {
    let listed = has_points(shape, row.points) && has_rings(shape, row.rings);
    listed && shape.kind() == row.kind && Some(shape.bounds()) == area(row.edges)
}

/// The first of its parts of which something else is seen than in its row.
fn first_wrong(shape: GeometryView, rows: &[Row]) -> Option<usize> {
    for i in 0..rows.len() {
        if i >= shape.parts() || !shows(shape.part(i), &rows[i]) {
            return Some(i);
        }
    }
    None
}

#[test]
fn kinds(rt: HostRuntime) {
    assert_eq!(rt; Kind::of(0), None);
    assert_eq!(rt; Kind::of(1), Some(Kind::Point));
    assert_eq!(rt; Kind::of(7), Some(Kind::GeometryCollection));
    assert_eq!(rt; Kind::of(8), None);
    assert_eq!(rt; Kind::Point.number(), 1);
    assert_eq!(rt; Kind::GeometryCollection.number(), 7);
}

#[test]
fn shapes(rt: HostRuntime) -> Result<(), Fail> {
    let tree = read(&SHAPES, 0, 836)?;
    assert_eq!(rt; tree.kind(), Kind::GeometryCollection);
    assert_eq!(rt; tree.parts(), 9);
    assert_eq!(rt; tree.points(), 0);
    assert_eq!(rt; tree.rings(), 0);
    assert_eq!(rt; Some(tree.bounds()), area(Some([-9, -6, 8, 9])));
    assert_eq!(rt; first_wrong(tree, &PARTS), None);
    let polygons = part(tree, 7)?;
    assert_eq!(rt; polygons.parts(), 2);
    assert_eq!(rt; first_wrong(polygons, &POLYGONS), None);
    Ok(())
}

/// Of equal keys the pattern of the first point stays, and that of the first part.
#[test]
fn equal_keys(rt: HostRuntime) -> Result<(), Fail> {
    let inner = part(read(&SHAPES, 0, 836)?, 8)?;
    assert_eq!(rt; inner.kind(), Kind::GeometryCollection);
    assert_eq!(rt; inner.parts(), 2);
    let line = part(inner, 1)?;
    assert_eq!(rt; line.kind(), Kind::LineString);
    let (zero, minus) = (Coord(0), Coord(1 << 63));
    assert_eq!(rt; line.bounds(), Bounds::of_point(minus, zero));
    assert_eq!(rt; inner.bounds(), Bounds::of_point(zero, minus));
    Ok(())
}

#[test]
fn ordinates(rt: HostRuntime) -> Result<(), Fail> {
    let tree = read(&SHAPES, 0, 836)?;
    let point = part(tree, 0)?;
    assert!(rt; has_list(point, Ordinate::Z, &[0x401c_0000_0000_0000]));
    assert!(rt; has_list(point, Ordinate::M, &[0x4020_0000_0000_0000]));
    assert!(rt; has_list(point, Ordinate::T, &[0x4022_0000_0000_0000]));
    assert!(rt; has_list(point, Ordinate::Tm, &[10]));
    let line = part(tree, 2)?;
    let (one, two) = (0x3ff0_0000_0000_0000, 0x4000_0000_0000_0000);
    assert!(rt; has_list(line, Ordinate::Z, &[0x7ff8_0000_0000_0000, one]));
    assert!(rt; line.ordinates(Ordinate::M).is_none());
    assert!(rt; has_list(line, Ordinate::T, &[one, two]));
    assert!(rt; has_list(line, Ordinate::Tm, &[one, two]));
    assert!(rt; tree.ordinates(Ordinate::Z).is_none());
    Ok(())
}

/// The root as a MultiPolygon, whose parts are Polygons whatever types they have, and as a Point.
#[test]
fn outer_type(rt: HostRuntime) -> Result<(), Fail> {
    let tree = read(&SHAPES, 6, 836)?;
    assert_eq!(rt; tree.kind(), Kind::MultiPolygon);
    assert_eq!(rt; Some(tree.bounds()), area(Some([-2, -6, 8, 9])));
    let line = part(tree, 2)?;
    assert_eq!(rt; line.kind(), Kind::Polygon);
    assert!(rt; has_rings(line, &[(0, 2)]));
    let point = read(&SHAPES, 1, 1)?;
    assert_eq!(rt; point.kind(), Kind::Point);
    assert_eq!(rt; point.parts(), 0);
    let place = 1104;
    let unknown = Broken {
        place,
        rule: Rule::Kind,
    };
    assert_eq!(rt; read(&SHAPES, 8, 836).err(), Some(unknown));
    Ok(())
}

/// The root's table at the deepest level, where only its parts are too deep, and one level deeper.
#[test]
fn level(rt: HostRuntime) -> Result<(), Fail> {
    let table = Buf::new(&SHAPES, BASE).root()?;
    let mut meter = Meter::new(836, BASE);
    assert!(rt; GeometryView::read(table, Kind::Polygon, 16, &mut meter).is_ok());
    let whole = GeometryView::read(table, Kind::GeometryCollection, 16, &mut meter);
    let (place, rule) = (1156, Rule::Depth);
    assert_eq!(rt; whole.err(), Some(Broken { place, rule }));
    let deeper = GeometryView::read_under(table, 0, 17, &mut meter);
    let place = 1104;
    assert_eq!(rt; deeper.err(), Some(Broken { place, rule }));
    Ok(())
}

/// A place of `SHAPES`, the four bytes that are put there, and the refusal.
const HOSTILE: [(usize, [u8; 4], Rule, u64); 16] = [
    // three numbers in the MultiPoint, and two points in the Point of the inner collection
    (512, [3, 0, 0, 0], Rule::PairCount, 1512),
    (768, [4, 0, 0, 0], Rule::PointCount, 1768),
    // the ends 2, 1, 3, the ends 2, 2, 2, and the lines' ends 1, 4
    (392, [1, 0, 0, 0], Rule::Ends, 1384),
    (396, [2, 0, 0, 0], Rule::Ends, 1384),
    (572, [4, 0, 0, 0], Rule::Ends, 1564),
    // one z for two points, and two tm for one
    (324, [1, 0, 0, 0], Rule::Ordinates, 1324),
    (240, [2, 0, 0, 0], Rule::Ordinates, 1240),
    // an infinite y in the second polygon, and an x that is no number
    (728, [0, 0, 240, 127], Rule::NotFinite, 1724),
    (824, [0, 0, 248, 255], Rule::NotFinite, 1820),
    // parts of the types 0 and 8
    (508, [0, 0, 0, 0], Rule::Kind, 1500),
    (764, [8, 0, 0, 0], Rule::Kind, 1756),
    // the third part, and the second polygon, lead nowhere
    (128, [208, 2, 0, 0], Rule::Offset, 1128),
    (648, [0, 0, 0, 0], Rule::Offset, 1648),
    // a vtable in front of the buffer, more parts than there are bytes, a field behind its table
    (452, [208, 7, 0, 0], Rule::Vtable, 1452),
    (744, [232, 3, 0, 0], Rule::Vector, 1744),
    (48, [11, 0, 8, 0], Rule::Field, 1048),
];

#[test]
fn hostile(rt: HostRuntime) {
    for (at, four, rule, place) in HOSTILE {
        let mut bytes = SHAPES;
        assert!(rt; at <= 832);
        bytes[at..at + 4].copy_from_slice(&four);
        assert_eq!(rt; read(&bytes, 0, 836).err(), Some(Broken { place, rule }));
    }
}

/// A tree of levels that lead on by so many entries, but for the last.
fn tower(entries: u8, last: usize) -> [u8; 752] {
    let mut bytes = [0; 752];
    bytes[0] = 24;
    for level in 0..17 {
        let at = 4 + 44 * level;
        bytes[at..at + 44].copy_from_slice(&LEVEL);
        bytes[at + 32] = if level + 1 == last { 0 } else { entries };
    }
    bytes
}

#[test]
fn depth(rt: HostRuntime) {
    assert!(rt; read(&tower(1, 16), 0, 752).is_ok());
    let deep = Broken {
        place: 1728,
        rule: Rule::Depth,
    };
    assert_eq!(rt; read(&tower(1, 17), 0, 752).err(), Some(deep));
}

#[test]
fn weight(rt: HostRuntime) {
    let heavy = Broken {
        place: BASE,
        rule: Rule::Weight,
    };
    // the shapes weigh 512
    assert!(rt; read(&SHAPES, 0, 128).is_ok());
    assert_eq!(rt; read(&SHAPES, 0, 127).err(), Some(heavy));
    // 12 for each of 2^15 - 1 tables with two entries, 4 for each of 2^15 at the last level
    let tree = tower(2, 16);
    assert_eq!(rt; read(&tree, 0, 752).err(), Some(heavy));
    assert_eq!(rt; read(&tree, 0, 131068).err(), Some(heavy));
    assert!(rt; read(&tree, 0, 131069).is_ok());
}
