// What is converted, read whole.
ghost use Rattle.std.specs.Prelude.{◌≡◌, IfOk};
ghost use Rattle.owned_features.specs.Owned.{IsSound};
ghost use Rattle.shape_features.specs.Features.{features_over, header_over};
ghost use Rattle.command_words.specs.declared.format.Format.TheVariants.{Fgb, Wkb};
ghost use Rattle.convert_command.specs.Steps.{Reads};

use command_words::Format;
use fgb_outside::RangeSource;
use owned_features::{OwnedFile, ReadStop, read_features};
use owned_shape::Shape;
use shape_features::{features_over, header_over};
use std::alloc::{AllocError, Global};
use wkb_file::{files_have_one_list, read_values};

/// The header and the features of a file of this form.
pub(crate) fn read_input<S: RangeSource>(
    alloc: Global,
    from: Format,
    file: &mut S,
) -> Result<OwnedFile, ReadStop>
    ensures { Reads from (S.seen file.old) (S.seen file.new) result }
{
    match from {
        Format::Fgb => read_file(alloc, file),
        Format::Wkb => read_shapes(alloc, file),
    }
}

/// Those of a FlatGeobuf file.
fn read_file<S: RangeSource>(alloc: Global, file: &mut S) -> Result<OwnedFile, ReadStop>
    ensures { Reads Fgb (S.seen file.old) (S.seen file.new) result }
{
    read_features(alloc, file)
}

/// Those over the shapes of a WKB file.
fn read_shapes<S: RangeSource>(alloc: Global, file: &mut S) -> Result<OwnedFile, ReadStop>
    ensures { Reads Wkb (S.seen file.old) (S.seen file.new) result }
{
    files_have_one_list();
    let shapes = read_values(alloc, file)?;
    Ok(file_over(alloc, shapes)?)
}

/// The header and the features over some shapes, none of which has a place.
fn file_over(alloc: Global, shapes: Vec<Shape>) -> Result<OwnedFile, AllocError>
    ensures header { IfOk result (λ owned. owned.header ≡ header_over shapes.items) }
    ensures features { IfOk result (λ owned. owned.features.items ≡ features_over shapes.items) }
    ensures sound { IfOk result IsSound }
{
    let header = header_over(alloc, &shapes);
    let places = vec![in alloc; 0; shapes.len()]?;
    let features = features_over(alloc, shapes)?;
    Ok(OwnedFile {
        header,
        features,
        places,
    })
}
