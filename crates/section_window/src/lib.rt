//! A window over a section of a source: the bytes from a place on, read in pieces of up to 1 MiB.
//!
//! A [`Window`] is seen as the place of the first byte that it holds, the bytes held, and where the section
//! ends. [`Window::fill`] makes at least so many bytes lie there, and asks only for positions that were not
//! asked for before; [`Window::fill_until`] moreover asks for none from a bound on. [`Window::bytes`] lends them, and
//! [`Window::pass`] goes on behind some of them.
#![tactic(auto)]

mod pieces;
mod window;

pub use window::Window;

#[cfg(test)]
mod tests {
    use super::*;
    use fgb_outside::{MemorySource, RangeSource, SourceError};
    use std::test::Fail;

    #[test]
    fn a_section_is_walked(rt: HostRuntime) -> Result<(), Fail> {
        let alloc = rt.alloc();
        let image = vec![in alloc; 7u8; 2_500_100]?;
        let mut source = MemorySource::new(alloc, &image, &[])?;
        assert_eq!(rt; source.size(), 2_500_100);
        let mut window = Window::new(alloc, 10, 2_500_010);
        for _ in 0..25_000 {
            if window.end() - window.at() < 100 {
                break;
            }
            window.fill(&mut source, 100)?;
            window.pass(100);
        }
        assert_eq!(rt; window.at(), 2_500_010);
        assert_eq!(rt; window.bytes().len(), 0);
        let pieces = [
            (10, 1_048_576),
            (1_048_586, 1_048_576),
            (2_097_162, 402_848),
        ];
        assert_eq!(rt; source.asked(), pieces.as_slice());
        Ok(())
    }

    #[test]
    fn a_fill_goes_on_after_a_fault(rt: HostRuntime) -> Result<(), Fail> {
        let alloc = rt.alloc();
        let image = vec![in alloc; 7u8; 1_200_000]?;
        let mut source = MemorySource::new(alloc, &image, &[2])?;
        assert_eq!(rt; source.size(), 1_200_000);
        let mut window = Window::new(alloc, 0, 1_200_000);
        window.fill(&mut source, 10)?;
        assert_eq!(rt;
            window.fill(&mut source, 1_100_000),
            Err(SourceError::Failed)
        );
        window.fill(&mut source, 1_100_000)?;
        assert_eq!(rt; window.bytes().len(), 1_200_000);
        let asked = [(0, 1_048_576), (1_048_576, 151_424), (1_048_576, 151_424)];
        assert_eq!(rt; source.asked(), asked.as_slice());
        Ok(())
    }

    #[test]
    fn a_fill_stops_at_its_bound(rt: HostRuntime) -> Result<(), Fail> {
        let alloc = rt.alloc();
        let image = vec![in alloc; 7u8; 300]?;
        let mut source = MemorySource::new(alloc, &image, &[])?;
        assert_eq!(rt; source.size(), 300);
        let mut window = Window::new(alloc, 10, 300);
        window.fill_until(&mut source, 20, 50)?;
        assert_eq!(rt; window.bytes().len(), 40);
        window.pass(90);
        assert_eq!(rt; (window.at(), window.bytes().len()), (100, 0));
        window.fill_until(&mut source, 4, 104)?;
        assert_eq!(rt; source.asked(), [(10, 40), (100, 4)].as_slice());
        Ok(())
    }
}
