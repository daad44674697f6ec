// Reads over a file of 9,000 bytes: 4,096 times 1, 4,096 times 2, and 808 times 3.
ghost use Rattle.std.specs.Prelude.{◌≡◌, ◌<◌, ◌+◌, length, IfOk};

use crate::BlockSource;
use fgb_outside::{MemorySource, RangeSource, SourceError};
use std::alloc::{AllocError, Global};
use std::test::Fail;

fn image(alloc: Global) -> Result<Vec<u8>, AllocError> {
    let mut bytes = vec![in alloc; 1u8; 4096]?;
    bytes.resize(8192, 2)?;
    bytes.resize(9000, 3)?;
    Ok(bytes)
}

fn byte_at(source: &mut BlockSource<MemorySource<'_>>, at: u64) -> Result<u8, SourceError>
    requires { at < source.old.inner.size }
    ensures { source.new.inner.size ≡ source.old.inner.size }
{
    let mut byte = [0];
    source.read_at(at, &mut byte)?;
    Ok(byte[0])
}

#[test]
fn a_read_over_two_blocks(rt: HostRuntime) -> Result<(), Fail> {
    let alloc = rt.alloc();
    let bytes = image(alloc)?;
    let inner = MemorySource::new(alloc, &bytes, &[])?;
    let mut source = BlockSource::new(alloc, inner, 4)?;
    assert_eq!(rt; source.size(), 9000);
    let mut piece = [0u8; 4];
    assert_eq!(rt; source.read_at(4094, &mut piece), Ok(()));
    assert_eq!(rt; piece, [1, 1, 2, 2]);
    let inner = source.into_inner();
    let asked = [(0, 4096), (4096, 4096)];
    assert_eq!(rt; inner.asked(), asked.as_slice());
    Ok(())
}

#[test]
fn a_hit_asks_for_nothing(rt: HostRuntime) -> Result<(), Fail> {
    let alloc = rt.alloc();
    let bytes = image(alloc)?;
    let inner = MemorySource::new(alloc, &bytes, &[])?;
    let mut source = BlockSource::new(alloc, inner, 4)?;
    assert_eq!(rt; source.size(), 9000);
    assert_eq!(rt; byte_at(&mut source, 8999), Ok(3));
    assert_eq!(rt; byte_at(&mut source, 8192), Ok(3));
    let inner = source.into_inner();
    assert_eq!(rt; inner.asked(), [(8192, 808)].as_slice());
    Ok(())
}

#[test]
fn one_block_is_kept(rt: HostRuntime) -> Result<(), Fail> {
    let alloc = rt.alloc();
    let bytes = image(alloc)?;
    let inner = MemorySource::new(alloc, &bytes, &[])?;
    let mut source = BlockSource::new(alloc, inner, 1)?;
    assert_eq!(rt; source.size(), 9000);
    assert_eq!(rt; byte_at(&mut source, 0), Ok(1));
    assert_eq!(rt; byte_at(&mut source, 5000), Ok(2));
    assert_eq!(rt; byte_at(&mut source, 0), Ok(1));
    let inner = source.into_inner();
    let asked = [(0, 4096), (4096, 4096), (0, 4096)];
    assert_eq!(rt; inner.asked(), asked.as_slice());
    Ok(())
}

#[test]
fn the_block_used_longest_ago_is_dropped(rt: HostRuntime) -> Result<(), Fail> {
    let alloc = rt.alloc();
    let bytes = image(alloc)?;
    let inner = MemorySource::new(alloc, &bytes, &[])?;
    let mut source = BlockSource::new(alloc, inner, 2)?;
    assert_eq!(rt; source.size(), 9000);
    assert_eq!(rt; byte_at(&mut source, 0), Ok(1));
    assert_eq!(rt; byte_at(&mut source, 5000), Ok(2));
    assert_eq!(rt; byte_at(&mut source, 1), Ok(1));
    assert_eq!(rt; byte_at(&mut source, 8500), Ok(3));
    assert_eq!(rt; byte_at(&mut source, 2), Ok(1));
    let inner = source.into_inner();
    let asked = [(0, 4096), (4096, 4096), (8192, 808)];
    assert_eq!(rt; inner.asked(), asked.as_slice());
    Ok(())
}

#[test]
fn the_second_call_fails(rt: HostRuntime) -> Result<(), Fail> {
    let alloc = rt.alloc();
    let bytes = image(alloc)?;
    let inner = MemorySource::new(alloc, &bytes, &[2])?;
    let mut source = BlockSource::new(alloc, inner, 4)?;
    assert_eq!(rt; source.size(), 9000);
    let mut piece = [0u8; 2];
    assert_eq!(rt; source.read_at(4095, &mut piece), Err(SourceError::Failed));
    assert_eq!(rt; source.read_at(4095, &mut piece), Ok(()));
    assert_eq!(rt; piece, [1, 2]);
    let inner = source.into_inner();
    let asked = [(0, 4096), (4096, 4096), (4096, 4096)];
    assert_eq!(rt; inner.asked(), asked.as_slice());
    Ok(())
}
