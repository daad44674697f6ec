//! The table as which a feature is laid (FlatGeobuf, feature.fbs, Feature), and that it reads back.
//!
//! `feature_table` in `specs/Laying.antt` is the tree of tables of a feature record: its geometry, its properties as
//! pairs of a column's number and a value, and its own columns. `IsRecord` in `specs/Records.antt` says which records can
//! stand in a file, and `Fits` under which headers. The crate has laws and no code: [`laid_values_read_back`] on the bytes
//! of a value, [`laid_properties_read_back`] on those of properties, [`laid_features_read_back`] on the buffer of a
//! feature, and [`read_features_fit`] on features that are read. They do nothing when they are called.
#![tactic(auto)]

ghost use Rattle.std.specs.Prelude.{ℕ, ◌≡◌, ◌<◌, ◌^◌, ◌++◌, List, length, true};
ghost use Rattle.std.specs.List.{AllByRecursion};
ghost use Rattle.flat_layout.specs.Promises.{IsClean};
ghost use Rattle.fgb_values.specs.Values.{Content, fits, size_in, value_in};
ghost use Rattle.fgb_schema.specs.Headers.{Header};
ghost use Rattle.fgb_schema.specs.Properties.{BreaksProperties, Property, properties_in};
ghost use Rattle.fgb_schema.specs.Features.{Feature, box_of_shape, feature_of, own_box};
ghost use Rattle.fgb_schema.specs.Paths.{feature_root};
ghost use Rattle.fgb_schema.specs.Weights.{BreaksBuffer};
ghost use Rattle.flat_builder.specs.Laying.{laid};
ghost use Rattle.flat_laid.specs.Trees.{AreLayable};
ghost use Rattle.feature_tables.specs.Laying.{feature_table, properties_bytes, value_bytes};
ghost use Rattle.feature_tables.specs.Records.{Fits, IsProperty, IsRecord, IsValue, NamesColumn};

use flat_laid::laid_reads_back;

/// The bytes of a value, whatever follows them, are read whole (`whole`), to their end (`size`), and say what the value
/// says (`shown`). A text's count has 4 bytes, so they are fewer than 2^32.
pub fn laid_values_read_back()
    ensures whole { (kind : ℕ) (content : Content) (rest : List ℕ) → IsValue kind content → length (value_bytes kind content) < 2 ^ 32 → fits kind (value_bytes kind content ++ rest) ≡ true }
    ensures size { (kind : ℕ) (content : Content) (rest : List ℕ) → IsValue kind content → length (value_bytes kind content) < 2 ^ 32 → size_in kind (value_bytes kind content ++ rest) ≡ length (value_bytes kind content) }
    ensures shown { (kind : ℕ) (content : Content) (rest : List ℕ) → IsValue kind content → length (value_bytes kind content) < 2 ^ 32 → value_in kind (value_bytes kind content ++ rest) ≡ content }
{}

/// The bytes of properties that name columns of these types break no rule, and show just the properties.
pub fn laid_properties_read_back()
    ensures clean { (kinds : List ℕ) (ps : List Property) → length (properties_bytes ps) < 2 ^ 32 → AllByRecursion IsProperty ps → AllByRecursion (NamesColumn kinds) ps → IsClean (BreaksProperties kinds (properties_bytes ps)) }
    ensures shown { (kinds : List ℕ) (ps : List Property) → length (properties_bytes ps) < 2 ^ 32 → AllByRecursion IsProperty ps → AllByRecursion (NamesColumn kinds) ps → properties_in kinds (properties_bytes ps) ≡ ps }
{}

/// The table of a feature that can stand in a file can be laid (`layable`). Under a header that the feature fits, a buffer
/// in which it is laid as the root breaks no rule, weight included, and shows just the feature, whose own box is that of
/// its shape.
pub fn laid_features_read_back()
    ensures layable { (f : Feature) → IsRecord f → AreLayable (feature_table f) }
    ensures clean { (h : Header) (f : Feature) → IsRecord f → Fits h f → length (laid (feature_table f)) < 2 ^ 31 → IsClean (BreaksBuffer (laid (feature_table f)) (feature_root h)) }
    ensures shown { (h : Header) (f : Feature) → IsRecord f → Fits h f → length (laid (feature_table f)) < 2 ^ 31 → feature_of h (laid (feature_table f)) ≡ f }
    ensures boxed { (h : Header) (f : Feature) → IsRecord f → Fits h f → length (laid (feature_table f)) < 2 ^ 31 → own_box (feature_of h (laid (feature_table f))) ≡ box_of_shape f.shape }
{
    laid_reads_back();
}

/// What a buffer shows under a header fits that header, so that a feature that was read can be laid under it again.
pub fn read_features_fit()
    ensures fits { (h : Header) (b : List ℕ) → Fits h (feature_of h b) }
{}
