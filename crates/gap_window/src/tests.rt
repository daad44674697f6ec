use super::*;
use fgb_outside::{MemorySource, RangeSource, SourceError};
use std::test::Fail;

#[test]
fn short_holes_are_read(rt: HostRuntime) -> Result<(), Fail> {
    let alloc = rt.alloc();
    let image = vec![in alloc; 7u8; 300]?;
    let mut source = MemorySource::new(alloc, &image, &[])?;
    assert_eq!(rt; source.size(), 300);
    let mut window = GapWindow::new(alloc, 10, 300, 5);
    window.reach(&mut source, 12, 8, 20)?;
    window.pass(8);
    window.reach(&mut source, 24, 6, 30)?;
    assert_eq!(rt; (window.at(), window.bytes().len()), (24, 6));
    window.pass(6);
    window.reach(&mut source, 35, 6, 300)?;
    assert_eq!(rt; (window.at(), window.bytes().len()), (35, 265));
    assert_eq!(rt; source.asked(), [(12, 8), (20, 10), (35, 265)].as_slice());
    Ok(())
}

#[test]
fn a_window_stays_after_a_fault(rt: HostRuntime) -> Result<(), Fail> {
    let alloc = rt.alloc();
    let image = vec![in alloc; 7u8; 300]?;
    let mut source = MemorySource::new(alloc, &image, &[2, 3])?;
    assert_eq!(rt; source.size(), 300);
    let mut window = GapWindow::new(alloc, 10, 300, 5);
    window.reach(&mut source, 10, 10, 20)?;
    assert_eq!(rt;
        window.reach(&mut source, 22, 10, 40),
        Err(SourceError::Failed)
    );
    assert_eq!(rt; (window.at(), window.bytes().len()), (10, 10));
    assert_eq!(rt;
        window.reach(&mut source, 50, 10, 60),
        Err(SourceError::Failed)
    );
    assert_eq!(rt; (window.at(), window.bytes().len()), (10, 0));
    window.reach(&mut source, 50, 10, 60)?;
    assert_eq!(rt; window.at(), 50);
    assert_eq!(rt;
        source.asked(),
        [(10, 10), (20, 20), (50, 10), (50, 10)].as_slice()
    );
    Ok(())
}
