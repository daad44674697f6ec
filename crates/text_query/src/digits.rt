// The digits of a geometry's WKB.
ghost use Rattle.std.specs.Prelude.{◌≡◌, OnOk, Some, option_map};
ghost use Rattle.hex.specs.Hex.{encode_lower};
ghost use Rattle.geometry_view.specs.Views.{geometry_shown};
ghost use Rattle.text_query.specs.Texts.{hex_line, hex_text};

use geometry_view::GeometryView;
use hex::encode_to_slice;
use std::alloc::{AllocError, Global};
use wkb_writer::{WkbError, write_wkb};

/// The text of a feature that has no WKB.
const NONE: &[u8] = b"none";

/// Lays the digits of a geometry's WKB and a line feed in place of what stood there.
pub(crate) fn lay_digits(
    line: &mut Vec<u8>,
    alloc: Global,
    geometry: Option<GeometryView>,
) -> Result<(), AllocError>
    ensures { OnOk result (line.new.items ≡ hex_line (option_map geometry_shown geometry.entry)) }
{
    lay_text(line, alloc, geometry)?;
    line.push(b'\n')?;
    Ok(())
}

/// Lays the digits of a geometry's WKB, or the text of a feature that has none.
fn lay_text(
    line: &mut Vec<u8>,
    alloc: Global,
    geometry: Option<GeometryView>,
) -> Result<(), AllocError>
    ensures { OnOk result (line.new.items ≡ hex_text (option_map geometry_shown geometry.entry)) }
{
    match geometry {
        Some(geometry) => put_spelling(line, alloc, &geometry),
        None => put_none(line),
    }
}

/// Lays the digits of a geometry's WKB, or the text of one that has none.
fn put_spelling(
    line: &mut Vec<u8>,
    alloc: Global,
    geometry: &GeometryView,
) -> Result<(), AllocError>
    ensures { OnOk result (line.new.items ≡ hex_text (Some (geometry_shown geometry.now))) }
{
    match write_wkb(alloc, geometry) {
        Ok(bytes) => put_digits(line, &bytes),
        Err(WkbError::Refused(_)) => put_none(line),
        Err(WkbError::Memory) => Err(AllocError),
    }
}

/// Lays the lower-case digits of bytes, two of each.
fn put_digits(line: &mut Vec<u8>, bytes: &[u8]) -> Result<(), AllocError>
    ensures { OnOk result (line.new.items ≡ encode_lower bytes.now) }
{
    line.clear();
    line.resize(2 * bytes.len(), 0)?;
    let _ = encode_to_slice(bytes, line.as_mut_slice());
    Ok(())
}

/// Lays the text of a feature that has no WKB.
fn put_none(line: &mut Vec<u8>) -> Result<(), AllocError>
    ensures { OnOk result (line.new.items ≡ NONE.now) }
{
    line.clear();
    line.extend_from_slice(NONE)?;
    Ok(())
}
