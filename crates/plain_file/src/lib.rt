//! What a FlatGeobuf file without an index is made of, and that it is a valid file.
//!
//! `plain_file` in `specs/Plain.antt` are the bytes of the file of some features under a header, and `IsTooLarge` says when
//! the format does not admit them. [`plain_files_are_files`] is a law over them, and does nothing when it is called: where
//! the features break no rule under the header, the file breaks none, its header is the given one but for the number of
//! features and the node size, and its features are the given ones in their order.
#![tactic(auto)]

ghost use Rattle.std.specs.Prelude.{◌≡◌, ◌+◌, ℕ, List, None, length};
ghost use Rattle.std.specs.List.{AllByRecursion, concat};
ghost use Rattle.fgb_schema.specs.Headers.{Header};
ghost use Rattle.header_tables.specs.Records.{IsRecord};
ghost use Rattle.fgb_file.specs.File.{IsFeature, IsFile, header_in};
ghost use Rattle.plain_file.specs.Plain.{IsTooLarge, plain_file, plain_head, plain_header};

use header_tables::laid_headers_read_back;

/// The file without an index of features that break no rule under a header that can be written, unless it is too large, is
/// a valid file with these features in their order (`file`). Its header is the given one but for the number of features
/// and the node size (`header`). It has so many bytes (`long`).
pub fn plain_files_are_files()
    ensures file { (header : Header) (pieces : List (List ℕ)) → IsRecord header → AllByRecursion (IsFeature header) pieces → (IsTooLarge header pieces → ⊥)
        → IsFile (plain_file header pieces) None pieces }
    ensures header { (header : Header) (pieces : List (List ℕ)) → IsRecord header → AllByRecursion (IsFeature header) pieces → (IsTooLarge header pieces → ⊥)
        → header_in (plain_file header pieces) ≡ plain_header header pieces }
    ensures long { (header : Header) (pieces : List (List ℕ)) → length (plain_file header pieces) ≡ 12 + length (plain_head header pieces) + length (concat pieces) }
{
    laid_headers_read_back();
}
