// The file that is made.
ghost use Rattle.std.specs.Prelude.{◌≡◌, ◌≤◌, [], IfOk, IfErr};
ghost use Rattle.make_command.specs.Files.{IsPacked};
ghost use Rattle.make_command.specs.Queries.{IsMade};

use crate::kept::Kept;
use feature_pack::pack_features;
use fgb_pack::{PackDone, PackError};
use grid_features::{grid_features, grid_header};
use std::alloc::{AllocError, Global};

/// At most so many children of a node (FlatGeobuf, header.fbs, index_node_size).
const CHILDREN: u16 = 16;

/// A file that was made.
#[derive(Drop)]
pub(crate) struct Made {
    pub(crate) bytes: Vec<u8>,
    /// How many features it has, and how many nodes its index has.
    pub(crate) features: u64,
    pub(crate) nodes: u64,
}

/// Makes so many features of the grid from this start on, and packs them.
pub(crate) fn make_file(alloc: Global, count: u64, start: u64) -> Result<Made, AllocError>
    requires few { count ≤ 1000000 }
    requires near { start ≤ 1000000000 }
    ensures { IfOk result (IsMade count start) }
{
    let mut out = Kept::new(alloc);
    match pack_grid(alloc, count, start, &mut out) {
        Ok(done) => Ok(Made {
            bytes: out.bytes,
            features: count,
            nodes: done.nodes,
        }),
        Err(_) => Err(AllocError),
    }
}

/// Packs so many features of the grid, which are let go at the end.
fn pack_grid(alloc: Global, count: u64, start: u64, out: &mut Kept) -> Result<PackDone, PackError>
    requires few { count ≤ 1000000 }
    requires near { start ≤ 1000000000 }
    requires new { out.old.bytes.items ≡ [] }
    ensures packed { IfOk result (λ done. IsPacked count start out.new.bytes.items done.nodes) }
    ensures own { IfErr result (λ error. error ≡ PackError.Memory) }
{
    let header = grid_header(alloc)?;
    let features = grid_features(alloc, count, start)?;
    pack_features(alloc, &header, &features, CHILDREN, out)
}
