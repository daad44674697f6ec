// The numbers of an envelope.
ghost use Rattle.std.specs.Prelude.{◌≡◌, ◌≢◌, ◌+◌, ◌^◌, ◌<◌, ◌≤◌, Err, IfOk, OnOk};
ghost use Rattle.std.specs.List.{AllByRecursion};
ghost use Rattle.flat_builder.specs.Trees.{entry_count};
ghost use Rattle.flat_views.specs.Vectors.{longs_shown};
ghost use Rattle.fgb_header.specs.Groups.{number_width};
ghost use Rattle.header_tables.specs.Laying.{doubles};
ghost use Rattle.header_info.specs.Puts.{put_some};

use flat_builder::{BuildError, FlatTable, FlatVector};
use flat_views::VecView;
use std::alloc::{AllocError, Global};

/// The patterns of an envelope that was read; none where there is no vector.
pub(crate) fn numbers_of(alloc: Global, view: Option<VecView>) -> Result<Vec<u64>, AllocError>
    requires { number_width view ≡ 8 }
    ensures ok { IfOk result (λ numbers. numbers.items ≡ longs_shown view.entry) }
    ensures sound { IfOk result (λ numbers. AllByRecursion (λ x. x < 2 ^ 64) numbers.items) }
{
    let mut numbers = Vec::new(alloc);
    let Some(view) = view else {
        return Ok(numbers);
    };
    for i in 0..view.len() {
        numbers.push(view.at_u64(i))?;
    }
    Ok(numbers)
}

/// Puts a vector of numbers of 8 bytes, if there are any.
pub(crate) fn put_doubles(
    table: &mut FlatTable,
    id: u16,
    numbers: &[u64],
    alloc: Global,
) -> Result<(), BuildError>
    requires above { entry_count table.old ≤ id }
    requires known { id < 1000 }
    ensures ok { OnOk result (table.new ≡ put_some table.old id (doubles numbers.now)) }
    ensures next { entry_count table.new ≤ id + 1 }
    ensures memory { result ≢ Err BuildError.TooLarge }
{
    if numbers.is_empty() {
        return Ok(());
    }
    let patterns = Vec::from_slice(alloc, numbers)?;
    table.put_vector(id, FlatVector::Longs(patterns))
}
