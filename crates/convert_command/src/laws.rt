// Laws over conversions.
ghost use Rattle.std.specs.Prelude.{ℕ, List};
ghost use Rattle.fgb_schema.specs.Shapes.{Shape};
ghost use Rattle.shape_features.specs.Features.{features_over, header_over};
ghost use Rattle.fgb_lay.specs.Laying.{HasNoRoom, IsLaid, laid_file};
ghost use Rattle.wkb_file.specs.Spellings.{SpellingsOf};
ghost use Rattle.wkb_file.specs.Values.{IsWkbFile};
ghost use Rattle.command_words.specs.declared.format.Format.TheVariants.{Fgb, Wkb};
ghost use Rattle.convert_command.specs.Conversions.{IsConversion, IsConvertible};
ghost use Rattle.convert_command.specs.Inputs.{Input, IsInput};

use feature_tables::laid_features_read_back;
use plain_file::plain_files_are_files;
use wkb_file::{files_have_one_list, values_have_spellings};

/// A WKB file as a FlatGeobuf file, where that has room, and this as a WKB file again, is the spelling of each of its
/// shapes, in order. A law, which does nothing when it is called.
pub fn round_trips()
    // The FlatGeobuf file is valid, and shows the features over the shapes.
    ensures laid { (shapes : List Shape) (image : List ℕ) → IsWkbFile shapes image → (HasNoRoom (header_over shapes) (features_over shapes) → ⊥)
        → IsLaid (header_over shapes) (features_over shapes) }
    // Each of them has a value, and their values are the spellings.
    ensures some { (shapes : List Shape) (image : List ℕ) (input : Input) → IsWkbFile shapes image → (HasNoRoom (header_over shapes) (features_over shapes) → ⊥)
        → IsInput Fgb (laid_file (header_over shapes) (features_over shapes)) input → IsConvertible Wkb input }
    ensures spelled { (shapes : List Shape) (image : List ℕ) (input : Input) (bytes : List ℕ) → IsWkbFile shapes image → (HasNoRoom (header_over shapes) (features_over shapes) → ⊥)
        → IsInput Fgb (laid_file (header_over shapes) (features_over shapes)) input → IsConversion Wkb input bytes → SpellingsOf shapes bytes }
{
    laid_features_read_back();
    plain_files_are_files();
    values_have_spellings();
}

/// Each value of a WKB file can be written as WKB, and is then its spelling. A law, which does nothing when it is called.
pub fn values_are_convertible()
    ensures some { (image : List ℕ) (input : Input) → IsInput Wkb image input → IsConvertible Wkb input }
    ensures spelled { (shapes : List Shape) (image : List ℕ) (input : Input) (bytes : List ℕ) → IsWkbFile shapes image → IsInput Wkb image input
        → IsConversion Wkb input bytes → SpellingsOf shapes bytes }
{
    values_have_spellings();
    files_have_one_list();
}
