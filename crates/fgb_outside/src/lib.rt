//! The outside of the reader: what it reads from and what it writes to.
//!
//! A [`RangeSource`] gives ranges of bytes, and a [`Sink`] takes pieces of text. A contract sees a source as
//! its bytes, the pairs (place, length) that it was asked for, its size and a count of faults, and a sink as
//! the bytes written and two counts. Whether bytes and pairs are told is the implementor's choice: the forms
//! in memory tell them, and the adapters over a file or a writer do not.
//!
//! What several reads asked for is said by `Reads` and `ReadsFront` of `specs/Asked.antt`, which compose by
//! the lemmas of `proofs/Asking.antt`.
#![tactic(auto)]

mod file_source;
mod memory_sink;
mod memory_source;
mod plain_source;
mod sinks;
mod sources;
mod std_sink;

pub use file_source::FileSource;
pub use memory_sink::MemorySink;
pub use memory_source::MemorySource;
pub use plain_source::PlainSource;
pub use sinks::{Sink, SinkError};
pub use sources::{RangeSource, SourceError};
pub use std_sink::StdSink;

#[cfg(test)]
mod tests {
    use super::*;
    use std::fs::File;
    use std::test::Fail;
    use std::{env, fs, process};

    const IMAGE: [u8; 8] = [10, 11, 12, 13, 14, 15, 16, 17];

    #[test]
    fn the_third_read_fails(rt: HostRuntime) -> Result<(), Fail> {
        let mut source = MemorySource::new(rt.alloc(), &IMAGE, &[3])?;
        assert_eq!(rt; source.size(), 8);
        let mut piece = [0u8; 2];
        assert_eq!(rt; source.read_at(0, &mut piece), Ok(()));
        assert_eq!(rt; piece, [10, 11]);
        assert_eq!(rt; source.read_at(6, &mut piece), Ok(()));
        assert_eq!(rt; piece, [16, 17]);
        assert_eq!(rt; source.read_at(3, &mut piece), Err(SourceError::Failed));
        assert_eq!(rt; source.read_at(3, &mut piece), Ok(()));
        assert_eq!(rt; piece, [13, 14]);
        assert_eq!(rt; source.asked(), [(0, 2), (6, 2), (3, 2), (3, 2)].as_slice());
        Ok(())
    }

    #[test]
    fn a_plain_source_reads(rt: HostRuntime) {
        let mut source = PlainSource::new(&IMAGE);
        assert_eq!(rt; source.size(), 8);
        let mut piece = [0u8; 8];
        assert_eq!(rt; source.read_at(0, &mut piece), Ok(()));
        assert_eq!(rt; piece, IMAGE);
    }

    #[test]
    fn the_second_write_fails(rt: HostRuntime) -> Result<(), Fail> {
        let mut sink = MemorySink::new(rt.alloc(), &[2])?;
        assert_eq!(rt; sink.write(b"one "), Ok(()));
        assert_eq!(rt; sink.write(b"two "), Err(SinkError::Failed));
        assert_eq!(rt; sink.write(b"three"), Ok(()));
        assert_eq!(rt; sink.bytes(), b"one three".as_slice());
        Ok(())
    }

    #[test]
    fn a_file_is_read(rt: HostRuntime) -> Result<(), Fail> {
        let alloc = rt.alloc();
        let mut path = env::temp_dir(&rt)?;
        let id = process::id(rt.process());
        path.push(format!(in alloc; "fgb_outside_{id}")?)?;
        fs::write(&rt, &path, b"abcdef")?;
        let mut source = FileSource::new(File::open(&rt, &path)?)?;
        assert_eq!(rt; source.size(), 6);
        let mut piece = [0u8; 3];
        assert_eq!(rt; source.read_at(2, &mut piece), Ok(()));
        assert_eq!(rt; piece, *b"cde");
        fs::write(&rt, &path, b"abc")?;
        assert_eq!(rt; source.read_at(2, &mut piece), Err(SourceError::Failed));
        fs::remove_file(&rt, &path)?;
        Ok(())
    }

    #[test]
    fn a_writer_is_written(rt: HostRuntime) -> Result<(), Fail> {
        let mut bytes = Vec::new(rt.alloc());
        let mut sink = StdSink::new(&mut bytes);
        assert_eq!(rt; sink.write(b"one "), Ok(()));
        assert_eq!(rt; sink.write(b"two"), Ok(()));
        drop(sink);
        assert_eq!(rt; bytes.as_slice(), b"one two".as_slice());
        Ok(())
    }
}
