// The header over some shapes.
ghost use Rattle.std.specs.Prelude.{◌≡◌};
ghost use Rattle.shape_features.specs.Features.{header_over, stands_beside, stands_in, stands_somewhere};

use geometry_view::Ordinate;
use header_info::HeaderInfo;
use owned_shape::Shape;
use std::alloc::Global;

/// The header of a file of these shapes: the type is not known, there is no index, and z and m are there where a shape, or
/// a part of one at any depth, has them. It takes no memory.
pub fn header_over(alloc: Global, shapes: &[Shape]) -> HeaderInfo
    ensures { result ≡ header_over shapes.now }
{
    let mut header = HeaderInfo::plain(alloc, 0);
    header.set_count(shapes.len() as u64);
    header.set_node_size(0);
    header.set_dimensions(
        stands_somewhere(Ordinate::Z, shapes),
        stands_somewhere(Ordinate::M, shapes),
    );
    header
}

/// Whether one of some shapes, or a part of one at any depth, has such a list.
fn stands_somewhere(which: Ordinate, shapes: &[Shape]) -> bool
    ensures { result ≡ stands_somewhere which shapes.now }
{
    for shape in shapes {
        if stands_in(which, shape) {
            return true;
        }
    }
    false
}

/// Whether a shape, or a part of it at any depth, has such a list.
fn stands_in(which: Ordinate, shape: &Shape) -> bool
    ensures { result ≡ stands_in which shape.now }
{
    let mut stands = stands_beside(which, shape);
    for i in 0..shape.parts() {
        let below = stands_in(which, shape.part(i));
        stands = stands || below;
    }
    stands
}

/// Whether such a list stands beside the points of a shape's own.
fn stands_beside(which: Ordinate, shape: &Shape) -> bool
    ensures { result ≡ stands_beside which shape.now }
{
    !shape.ordinates(which).is_empty()
}
