// What is converted, written.
ghost use Rattle.owned_features.specs.Owned.{IsSound};
ghost use Rattle.command_words.specs.declared.format.Format.TheVariants.{Fgb, Wkb};
ghost use Rattle.convert_command.specs.Steps.{Writes};

use crate::stop::{lay_stop, values_stop};
use command_words::{Format, Stop};
use fgb_lay::lay_plain;
use fgb_outside::Sink;
use owned_features::OwnedFile;
use std::alloc::Global;
use wkb_features::write_values;

/// Writes a header and features in this form.
pub(crate) fn write_input<W: Sink>(
    alloc: Global,
    to: Format,
    owned: &OwnedFile,
    out: &mut W,
) -> Result<(), Stop>
    requires { IsSound owned.now }
    ensures { Writes to owned.now (W.shown out.old) (W.shown out.new) result }
{
    match to {
        Format::Fgb => write_file(alloc, owned, out),
        Format::Wkb => write_wkb(alloc, owned, out),
    }
}

/// Writes them as a FlatGeobuf file.
fn write_file<W: Sink>(alloc: Global, owned: &OwnedFile, out: &mut W) -> Result<(), Stop>
    requires { IsSound owned.now }
    ensures { Writes Fgb owned.now (W.shown out.old) (W.shown out.new) result }
{
    match lay_plain(alloc, &owned.header, &owned.features, out) {
        Ok(_) => Ok(()),
        Err(error) => Err(lay_stop(error)),
    }
}

/// Writes the values of the features.
fn write_wkb<W: Sink>(alloc: Global, owned: &OwnedFile, out: &mut W) -> Result<(), Stop>
    requires { IsSound owned.now }
    ensures { Writes Wkb owned.now (W.shown out.old) (W.shown out.new) result }
{
    match write_values(alloc, &owned.features, &owned.places, out) {
        Ok(()) => Ok(()),
        Err(error) => Err(values_stop(error)),
    }
}
