//! The grammar of WKB (OGC 06-103r4, section 8.2) and of EWKB (PostGIS, "Extended WKB"): which bytes are a value, in either
//! byte order, and which shape it has.
//!
//! The definitions in `specs/` are the values with the bytes of each (`Grammar`: `Value`, `bytes_of`, `IsValue`), the
//! shape of a value (`ShapesShown`: `shape_of`), and what a reader is to read (`Wkb`, `Ewkb`). There is no code here: each call
//! is a law over the definitions, and does nothing when it runs.
#![tactic(auto)]

ghost use Rattle.std.specs.Prelude.{◌≡◌, ◌≤◌, ◌<◌, ◌^◌, ℕ, List, ◌++◌, length};
ghost use Rattle.fgb_schema.specs.Shapes.{Shape};
ghost use Rattle.owned_shape.specs.Records.{IsRecord, depth};
ghost use Rattle.wkb_writer.specs.declared.dimension.Dimension.{Dimension};
ghost use Rattle.wkb_writer.specs.Wkb.{IsEwkb, IsWkb};
ghost use Rattle.wkb_grammar.specs.Grammar.{IsValue, Value, bytes_of};
ghost use Rattle.wkb_grammar.specs.Rows.{big_point, little_point, mixed_points, nan_point, no_point, one_two, one_two_one, one_two_twice, point_with_flag, point_with_srid, point_with_z};
ghost use Rattle.wkb_grammar.specs.ShapesShown.{shape_of};
ghost use Rattle.wkb_grammar.specs.Wkb.{Ewkb, Wkb, most_bytes};

/// No value is a proper prefix of another, and bytes are those of at most one value: where two lists of bytes are one,
/// and begin with a value each, the values are one, and so is what follows them.
pub fn values_are_told_apart()
    ensures { (d e : Dimension) (v u : Value) (rest others : List ℕ) → IsValue d v → IsValue e u
        → bytes_of v ++ rest ≡ bytes_of u ++ others → (v ≡ u) × (rest ≡ others) }
{}

/// Bytes are the value of at most one shape.
pub fn one_shape()
    ensures wkb { (g h : Shape) (bytes : List ℕ) → Wkb g bytes → Wkb h bytes → g ≡ h }
    ensures ewkb { (g h : Shape) (bytes : List ℕ) → Ewkb g bytes → Ewkb h bytes → g ≡ h }
{}

/// What the writer writes of a record is a value of that shape, where it is not too long.
pub fn written_values_are_read()
    ensures wkb { (g : Shape) (bytes : List ℕ) → IsRecord g → IsWkb g bytes → length bytes ≤ most_bytes → Wkb g bytes }
    ensures ewkb { (g : Shape) (srid : ℕ) (bytes : List ℕ) → IsRecord g → srid < 2 ^ 32 → IsEwkb srid g bytes → length bytes ≤ most_bytes → Ewkb g bytes }
{}

/// What is read of the EWKB that was written of a record is the record, where it is not too long.
pub fn written_ewkb_comes_back()
    ensures { (g h : Shape) (srid : ℕ) (bytes : List ℕ) → IsRecord g → srid < 2 ^ 32 → IsEwkb srid g bytes → length bytes ≤ most_bytes
        → Ewkb h bytes → h ≡ g }
{}

/// The shape of a value is that of a record, where it has at most 16 levels and the bytes are not too many.
pub fn value_is_record()
    ensures value { (d : Dimension) (v : Value) → IsValue d v → depth (shape_of v) ≤ 16 → length (bytes_of v) ≤ most_bytes
        → IsRecord (shape_of v) }
    ensures shape { (g : Shape) (bytes : List ℕ) → Wkb g bytes → IsRecord g }
    ensures extended { (g : Shape) (bytes : List ℕ) → Ewkb g bytes → IsRecord g }
{}

/// A value of WKB is a value of EWKB, of the same shape.
pub fn wkb_is_ewkb()
    ensures { (g : Shape) (bytes : List ℕ) → Wkb g bytes → Ewkb g bytes }
{}

/// Some values byte by byte: a Point in either order, a MultiPoint with a member of either, a Point with z, an empty Point.
/// As EWKB a Point with the number of its reference system, and a Point with z.
pub fn rows_are_values()
    ensures little { Wkb one_two little_point }
    ensures big { Wkb one_two big_point }
    ensures mixed { Wkb one_two_twice mixed_points }
    ensures with_z { Wkb one_two_one point_with_z }
    ensures empty { Wkb no_point nan_point }
    ensures with_srid { Ewkb one_two point_with_srid }
    ensures with_flag { Ewkb one_two_one point_with_flag }
{}
