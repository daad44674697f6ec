// The ordinates of a point, and numbers at the end of a buffer.
ghost use Rattle.std.specs.Prelude.{◌≡◌, ◌<◌, ◌≤◌, ◌++◌, length, nat_lt, option_to_list, slice_get, Some, IsTrue, OnOk};
ghost use Rattle.byteorder.specs.Endian.{little_bytes};
ghost use Rattle.fgb_schema.specs.Shapes.{ordinates_in, points_in};
ghost use Rattle.geometry_view.specs.Views.{listed};
ghost use Rattle.wkb_writer.specs.Dimensions.{dimension_of};
ghost use Rattle.wkb_writer.specs.Levels.{IsNumberAt, rows_in};
ghost use Rattle.wkb_writer.specs.RowsShown.{row_shown};
ghost use Rattle.wkb_writer.specs.Wkb.{nowhere_bytes, row_bytes};

use crate::dimension::Dimension;
use crate::shows::Shows;
use geometry_view::Ordinate;
use std::alloc::AllocError;

/// The ordinate of a Point without points, a NaN.
const NOWHERE: u64 = 0x7ff8_0000_0000_0000;

/// The ordinates of a point.
#[derive(Clone, Copy)]
pub(crate) struct Row {
    x: u64,
    y: u64,
    z: Option<u64>,
    m: Option<u64>,
}

impl Row {
    /// Those of the i-th point of a shape whose points are of this dimension.
    pub(crate) fn at<S: Shows>(view: &S, dimension: Dimension, i: usize) -> Row
        requires own { dimension ≡ dimension_of (S.shown view.now) }
        requires early { i < length (points_in (S.shown view.now)) }
        ensures { slice_get (rows_in (S.shown view.now)) i ≡ Some (row_shown result) }
    {
        let (x, y) = view.xy(i);
        Row {
            x,
            y,
            z: number_at(view, Ordinate::Z, dimension.z, i),
            m: number_at(view, Ordinate::M, dimension.m, i),
        }
    }

    /// Those of a Point without points.
    pub(crate) fn nowhere(dimension: Dimension) -> Row
        ensures { row_bytes (row_shown result) ≡ nowhere_bytes dimension }
    {
        Row {
            x: NOWHERE,
            y: NOWHERE,
            z: dimension.z.then_some(NOWHERE),
            m: dimension.m.then_some(NOWHERE),
        }
    }

    /// Appends them.
    pub(crate) fn put(&self, out: &mut Vec<u8>) -> Result<(), AllocError>
        ensures { OnOk result (out.new.items ≡ out.old.items ++ row_bytes (row_shown self.now)) }
    {
        put_ordinate(out, self.x)?;
        put_ordinate(out, self.y)?;
        put_if(out, self.z)?;
        put_if(out, self.m)
    }
}

/// The number beside the i-th point, if there are such numbers.
fn number_at<S: Shows>(view: &S, which: Ordinate, is_there: bool, i: usize) -> Option<u64>
    requires there { is_there ≡ nat_lt 0 (length (listed which (ordinates_in (S.shown view.now)))) }
    requires early { IsTrue is_there → i < length (listed which (ordinates_in (S.shown view.now))) }
    ensures { IsNumberAt (listed which (ordinates_in (S.shown view.now))) i result }
{
    if is_there {
        Some(view.number(which, i))
    } else {
        None
    }
}

/// Appends an ordinate, if there is one.
fn put_if(out: &mut Vec<u8>, ordinate: Option<u64>) -> Result<(), AllocError>
    ensures { OnOk result (out.new.items ≡ out.old.items ++ row_bytes (option_to_list ordinate)) }
{
    match ordinate {
        Some(ordinate) => put_ordinate(out, ordinate),
        None => Ok(()),
    }
}

/// Appends an ordinate.
fn put_ordinate(out: &mut Vec<u8>, ordinate: u64) -> Result<(), AllocError>
    ensures { OnOk result (out.new.items ≡ out.old.items ++ little_bytes 8 ordinate) }
{
    out.extend_from_slice(&ordinate.to_le_bytes())
}

/// Appends how many things follow.
pub(crate) fn put_count(out: &mut Vec<u8>, count: usize) -> Result<(), AllocError>
    requires { count ≤ 268435456 }
    ensures { OnOk result (out.new.items ≡ out.old.items ++ little_bytes 4 count) }
{
    out.extend_from_slice(&(count as u32).to_le_bytes())
}
