//! What the packing of a FlatGeobuf file is, and that it is a valid file.
//!
//! The definitions in `specs/Packing.antt` say which bytes are the packing of a file (`IsPacking`), and which file has
//! none that the format admits (`IsTooLarge`). [`packings_are_files`] is a law over them, and does nothing when it is
//! called: a packing breaks no rule, its header is that of the file but for the number of features and the node size, and
//! its features are those of the file, each as often as before and with the same bytes.
#![tactic(auto)]

ghost use Rattle.std.specs.Prelude.{◌≡◌, ◌^◌, ◌<◌, ◌≤◌, ℕ, List, Option, length, IsPermutation};
ghost use Rattle.std.specs.List.{AllByRecursion};
ghost use Rattle.level_bounds.specs.Levels.{Shape};
ghost use Rattle.fgb_schema.specs.Headers.{Header};
ghost use Rattle.feature_order.specs.Order.{IsOrder};
ghost use Rattle.fgb_file.specs.File.{IsFile, header_in};
ghost use Rattle.packed_file.specs.Packing.{IsPacking, IsTooLarge, IsTreeOver, boxes_of, in_order, packed_file, packed_header, packed_size};

use feature_order::orders_are_one;
use header_tables::laid_headers_read_back;
use level_bounds::shapes_are_one;

/// The packing of a valid file of bytes, unless it is too large, is a valid file: its header is that of the file but for the
/// number of features and the node size, and its features are those of the file in their order. It has so many bytes, and
/// there is one.
pub fn packings_are_files()
    ensures file { (image : List ℕ) (index tree : Option Shape) (pieces : List (List ℕ)) (order : List ℕ) (node_size : ℕ)
        → AllByRecursion (λ byte. byte < 2 ^ 8) image → IsFile image index pieces → 2 ≤ node_size → node_size < 2 ^ 16
        → IsOrder (boxes_of (header_in image) pieces) order → IsTreeOver (length pieces) node_size tree → (IsTooLarge (header_in image) pieces node_size → ⊥)
        → IsFile (packed_file (header_in image) node_size tree (in_order pieces order)) tree (in_order pieces order) }
    ensures header { (image : List ℕ) (index tree : Option Shape) (pieces : List (List ℕ)) (order : List ℕ) (node_size : ℕ)
        → AllByRecursion (λ byte. byte < 2 ^ 8) image → IsFile image index pieces → 2 ≤ node_size → node_size < 2 ^ 16
        → IsOrder (boxes_of (header_in image) pieces) order → IsTreeOver (length pieces) node_size tree → (IsTooLarge (header_in image) pieces node_size → ⊥)
        → header_in (packed_file (header_in image) node_size tree (in_order pieces order)) ≡ packed_header (header_in image) (length pieces) node_size }
    ensures same { (header : Header) (pieces : List (List ℕ)) (order : List ℕ) → IsOrder (boxes_of header pieces) order → IsPermutation pieces (in_order pieces order) }
    ensures long { (header : Header) (tree : Option Shape) (pieces : List (List ℕ)) (order : List ℕ) (node_size : ℕ)
        → IsOrder (boxes_of header pieces) order → IsTreeOver (length pieces) node_size tree
        → length (packed_file header node_size tree (in_order pieces order)) ≡ packed_size header pieces node_size tree }
    ensures one { (image : List ℕ) (index : Option Shape) (pieces : List (List ℕ)) (node_size : ℕ) (a b : List ℕ)
        → AllByRecursion (λ byte. byte < 2 ^ 8) image → IsFile image index pieces
        → IsPacking (header_in image) pieces node_size a → IsPacking (header_in image) pieces node_size b → a ≡ b }
{
    laid_headers_read_back();
    orders_are_one();
    shapes_are_one();
}
