// The conversion of a file.
ghost use Rattle.std.specs.Prelude.{◌≡◌, Err, OnOk, IfErr, IsErrOf};
ghost use Rattle.std.specs.List.{AllByRecursion};
ghost use Rattle.fgb_outside.specs.Source.{IfTold, Rose};
ghost use Rattle.fgb_lay.specs.Laying.{HasNoRoom, IsLaid};
ghost use Rattle.wkb_features.specs.Values.{HasValue};
ghost use Rattle.command_words.specs.Statuses.{IfRefused};
ghost use Rattle.command_words.specs.declared.format.Format.TheVariants.{Fgb, Wkb};
ghost use Rattle.convert_command.specs.Conversions.{WritesConversion, WritesConversionPart, IsConvertible, IsFault, RefusesConversion};
ghost use Rattle.convert_command.specs.Inputs.{Input, IsAccepted, IsInput};

use crate::reading::read_input;
use crate::stop::read_stop;
use crate::writing::write_input;
use command_words::{Format, Stop};
use fgb_outside::{RangeSource, Sink};
use std::alloc::Global;

/// Writes the file of a source, which has the one form, in the other: as a FlatGeobuf file without an index the same
/// header, or that over the shapes of a WKB file, and each feature in order; as a WKB file the little-endian value of each
/// feature, in order.
///
/// Nothing is written where the source has no file of the one form, where a feature has no value to be written, or
/// where a header, a feature or the file would be larger than the format lets it be.
pub fn convert_file<S: RangeSource, W: Sink>(
    alloc: Global,
    from: Format,
    to: Format,
    file: &mut S,
    out: &mut W,
) -> Result<(), Stop>
    // It was a file of the one form, and its conversion was written.
    ensures done { OnOk result (IfTold (S.seen file.old) (λ image. IsAccepted from image
        × ((input : Input) → IsInput from image input → WritesConversion to input (W.shown out.old) (W.shown out.new)))) }
    // A file that was laid is valid, and shows the same features under the same header.
    ensures laid { OnOk result (to ≡ Fgb → IfTold (S.seen file.old) (λ image. (input : Input) → IsInput from image input → IsLaid input.header input.features)) }

    // It is refused for what is broken, or for the first feature without a value, and then nothing was written.
    ensures refused { IfRefused result (λ broken. IfTold (S.seen file.old) (λ image. RefusesConversion from to image broken)) }
    ensures unwritten { IfRefused result (λ _. W.shown out.new ≡ W.shown out.old) }

    // It is too large where a file of the one form has no room as a FlatGeobuf file, and then nothing was written.
    ensures too_large { result ≡ Err Stop.TooLarge → (to ≡ Fgb) × ((W.shown out.new ≡ W.shown out.old) × IfTold (S.seen file.old) (λ image. IsAccepted from image
        × ((input : Input) → IsInput from image input → HasNoRoom input.header input.features))) }

    // What has no room, has a feature without a value, or is no file of the one form is not written at all.
    ensures large_none { IfTold (S.seen file.old) (λ image. (input : Input) → IsInput from image input → to ≡ Fgb → HasNoRoom input.header input.features
        → (W.shown out.new ≡ W.shown out.old) × OnOk result ⊥) }
    ensures valueless_none { IfTold (S.seen file.old) (λ image. (input : Input) → IsInput from image input → to ≡ Wkb → (AllByRecursion HasValue input.features → ⊥)
        → (W.shown out.new ≡ W.shown out.old) × OnOk result ⊥) }
    ensures broken { IfTold (S.seen file.old) (λ image. (IsAccepted from image → ⊥) → (W.shown out.new ≡ W.shown out.old) × OnOk result ⊥) }

    // Whatever comes of it, a front of the conversion was written, or nothing.
    ensures part { IfTold (S.seen file.old) (λ image. (input : Input) → IsInput from image input → WritesConversionPart to input (W.shown out.old) (W.shown out.new)) }

    // What can be converted is, unless the source or the sink fails, or memory runs out; and what has no room is not refused.
    ensures accepted { IfTold (S.seen file.old) (λ image. (input : Input) → IsInput from image input → IsConvertible to input → IfErr result IsFault) }
    ensures unrefused { IfTold (S.seen file.old) (λ image. (input : Input) → IsInput from image input → to ≡ Fgb → IfRefused result (λ _. ⊥)) }

    ensures failed { IsErrOf result Stop.SourceFailed → Rose (S.seen file.old).faults (S.seen file.new).faults }
    ensures sink_failed { IsErrOf result Stop.SinkFailed → Rose (W.shown out.old).faults (W.shown out.new).faults }
{
    match read_input(alloc, from, file) {
        Ok(owned) => write_input(alloc, to, &owned, out),
        Err(stop) => Err(read_stop(stop)),
    }
}
