//! The tables as which a shape is laid (FlatGeobuf, feature.fbs, Geometry), and that they read back.
//!
//! `shape_table` in `specs/Laying.antt` is the tree of tables of a shape, and `IsRecord` in `specs/Records.antt` says
//! which shapes can stand in a file. The crate has laws and no code: [`laid_shapes_read_back`] on a shape's table
//! anywhere in a buffer, and [`laid_geometries_read_back`] on a buffer of its own. They do nothing when they are called.
#![tactic(auto)]

ghost use Rattle.std.specs.Prelude.{ℕ, ◌≡◌, ◌<◌, ◌^◌, List, length, map};
ghost use Rattle.flat_layout.specs.Layout.{target};
ghost use Rattle.flat_layout.specs.Promises.{IsClean};
ghost use Rattle.fgb_schema.specs.Tables.{geometry, table as table_thing};
ghost use Rattle.fgb_schema.specs.Paths.{Breaks, offset, geometry_part};
ghost use Rattle.fgb_schema.specs.Shapes.{Shape, shape_at, shapes_of};
ghost use Rattle.fgb_schema.specs.Weights.{BreaksBuffer, Weighs};
ghost use Rattle.flat_builder.specs.Trees.{empty, table};
ghost use Rattle.flat_builder.specs.Shown.{tables_of};
ghost use Rattle.flat_builder.specs.Laying.{laid};
ghost use Rattle.flat_laid.specs.Lies.{Lies};
ghost use Rattle.flat_laid.specs.Trees.{AreLayable, item_weight};
ghost use Rattle.shape_tables.specs.Laying.{part_tables, shape_table};
ghost use Rattle.shape_tables.specs.Records.{IsRecord, Suits};

use flat_laid::laid_reads_back;

/// The table of a shape that can stand in a file can be laid (`layable`), and has the tables of its parts in their order
/// (`parts`). Wherever it lies in a buffer, as a geometry at the first level to which no type or its own is given from
/// outside, nothing is broken from it on, reading it weighs what the tree weighs, and it shows just the shape.
pub fn laid_shapes_read_back()
    ensures layable { (s : Shape) → IsRecord s → AreLayable (shape_table s) }
    ensures parts { (parts : List Shape) → part_tables (shapes_of parts) empty ≡ tables_of (map shape_table parts) }
    ensures clean { (s : Shape) (outer : ℕ) (b : List ℕ) (t : ℕ) → IsRecord s → Suits outer s → Lies b (table (shape_table s)) t → IsClean (Breaks b (geometry_part outer 1 t)) }
    ensures weighs { (s : Shape) (outer : ℕ) (b : List ℕ) (t : ℕ) → IsRecord s → Suits outer s → Lies b (table (shape_table s)) t → Weighs b (geometry_part outer 1 t) (item_weight (table (shape_table s))) }
    ensures shown { (s : Shape) (outer : ℕ) (b : List ℕ) (t : ℕ) → IsRecord s → Suits outer s → Lies b (table (shape_table s)) t → shape_at 15 outer b t ≡ s }
{}

/// A buffer in which a shape's table is laid as its root breaks no rule, weight included, and shows just the shape.
pub fn laid_geometries_read_back()
    ensures clean { (s : Shape) (outer : ℕ) → IsRecord s → Suits outer s → length (laid (shape_table s)) < 2 ^ 31 → IsClean (BreaksBuffer (laid (shape_table s)) (offset (table_thing (geometry outer 1)) 0)) }
    ensures shown { (s : Shape) (outer : ℕ) → IsRecord s → Suits outer s → length (laid (shape_table s)) < 2 ^ 31 → shape_at 15 outer (laid (shape_table s)) (target (laid (shape_table s)) 0) ≡ s }
{
    laid_reads_back();
}
