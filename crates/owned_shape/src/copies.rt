// Copies of geometries that were read.
ghost use Rattle.std.specs.Prelude.{◌≡◌, ◌%◌, ◌^◌, ◌<◌, length, All, IfOk};
ghost use Rattle.flat_layout.specs.Layout.{longs};
ghost use Rattle.flat_views.specs.Vectors.{vector_bytes, vector_place, vector_width};
ghost use Rattle.fgb_schema.specs.Shapes.{ordinates_in, pairs_of, parts_in, points_in, rings_from, rings_in};
ghost use Rattle.geometry_view.specs.Views.{geometry_shown, listed};
ghost use Rattle.owned_shape.specs.ListsShown.{AreFitting, lists_shown};
ghost use Rattle.owned_shape.specs.Records.{IsNumber, IsRecord, IsSound};

use crate::lists::Lists;
use crate::shape::Shape;
use flat_views::VecView;
use geometry_view::{GeometryView, Ordinate};
use std::alloc::{AllocError, Global};

impl Shape {
    /// A copy of a geometry that was read.
    #[cycle(copying)]
    pub fn of(alloc: Global, view: &GeometryView<'_>) -> Result<Shape, AllocError>
        ensures value { IfOk result (λ shape. shape ≡ geometry_shown view.now) }
        ensures sound { IfOk result (λ shape. IsRecord shape) }
    {
        let kind = view.kind();
        let xy = points_of(alloc, view)?;
        let ends = ends_of(alloc, view)?;
        let lists = lists_of(alloc, view)?;
        let parts = parts_of(alloc, view)?;
        Ok(Shape {
            kind,
            xy,
            ends,
            lists,
            parts,
        })
    }
}

/// Copies of the parts.
#[cycle(copying)]
fn parts_of(alloc: Global, view: &GeometryView<'_>) -> Result<Vec<Shape>, AllocError>
    ensures value { IfOk result (λ parts. parts.items ≡ parts_in (geometry_shown view.now)) }
    ensures sound { IfOk result (λ parts. All IsSound parts.items) }
{
    let count = view.parts();
    let mut parts = Vec::with_capacity(alloc, count)?;
    for i in 0..count {
        let part = view.part(i);
        let copy = Shape::of(alloc, &part)?;
        parts.push(copy)?;
    }
    Ok(parts)
}

/// The points, x and y by turns.
fn points_of(alloc: Global, view: &GeometryView<'_>) -> Result<Vec<u64>, AllocError>
    ensures value { IfOk result (λ xy. pairs_of xy.items ≡ points_in (geometry_shown view.now)) }
    ensures even { IfOk result (λ xy. length xy.items % 2 ≡ 0) }
    ensures sound { IfOk result (λ xy. All IsNumber xy.items) }
{
    let count = view.points();
    let mut xy = Vec::with_capacity(alloc, 2 * count)?;
    for i in 0..count {
        let (x, y) = view.xy(i);
        xy.push(x.0)?;
        xy.push(y.0)?;
    }
    Ok(xy)
}

/// The ends of the rings.
fn ends_of(alloc: Global, view: &GeometryView<'_>) -> Result<Vec<u32>, AllocError>
    ensures { IfOk result (λ ends. rings_from 0 ends.items ≡ rings_in (geometry_shown view.now)) }
{
    let count = view.rings();
    let mut ends = Vec::with_capacity(alloc, count)?;
    for i in 0..count {
        let (_, end) = view.ring(i);
        ends.push(end as u32)?;
    }
    Ok(ends)
}

/// The lists beside the points.
fn lists_of(alloc: Global, view: &GeometryView<'_>) -> Result<Lists, AllocError>
    ensures value { IfOk result (λ lists. lists_shown lists ≡ ordinates_in (geometry_shown view.now)) }
    ensures fits { IfOk result (λ lists. AreFitting (lists_shown lists)) }
{
    let z = list_of(alloc, view, Ordinate::Z)?;
    let m = list_of(alloc, view, Ordinate::M)?;
    let t = list_of(alloc, view, Ordinate::T)?;
    let tm = list_of(alloc, view, Ordinate::Tm)?;
    Ok(Lists { z, m, t, tm })
}

/// One of the lists.
fn list_of(alloc: Global, view: &GeometryView<'_>, which: Ordinate) -> Result<Vec<u64>, AllocError>
    ensures value { IfOk result (λ list. list.items ≡ listed which (ordinates_in (geometry_shown view.now))) }
    ensures fits { IfOk result (λ list. All (λ x. x < 2 ^ 64) list.items) }
{
    match view.ordinates(which) {
        Some(list) => numbers_of(alloc, list),
        None => Ok(Vec::new(alloc)),
    }
}

/// The numbers of a vector.
fn numbers_of(alloc: Global, list: VecView) -> Result<Vec<u64>, AllocError>
    requires { vector_width list ≡ 8 }
    ensures value { IfOk result (λ numbers. numbers.items ≡ longs (vector_bytes list.entry) (vector_place list.entry)) }
    ensures fits { IfOk result (λ numbers. All (λ x. x < 2 ^ 64) numbers.items) }
{
    let count = list.len();
    let mut numbers = Vec::with_capacity(alloc, count)?;
    for i in 0..count {
        let number = list.at_u64(i);
        numbers.push(number)?;
    }
    Ok(numbers)
}
