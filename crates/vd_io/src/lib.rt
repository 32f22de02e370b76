//! The outside: where a script's bytes come from and go to, the image behind a block device, and
//! a point at which a test may hold a worker.
//!
//! The lines of a script, the engine and the program stand on its four traits. A source, a sink and an
//! image may tell their bytes, and then the contract of each call says what becomes of them. Each
//! has a count of faults that never falls, and answers `Failed` only where that count rose. The
//! forms in memory tell everything, and fail exactly at the calls that they are told to.
#![tactic(auto)]

mod faults;
mod file;
mod gate;
mod image;
mod sink;
mod source;

pub use file::{FileImage, RandomAccess};
pub use gate::{Gate, OpenGate};
pub use image::{Image, MemImage};
pub use sink::{MemSink, Sink, StdSink};
pub use source::{MemSource, Source, StdSource};

/// A call on the outside that failed.
#[derive(Clone, Copy, Debug, PartialEq, Eq)]
pub struct Failed;

#[cfg(test)]
mod tests {
    use super::*;
    use std::alloc::{AllocError, Global};
    use std::fs::{self, OpenOptions};
    use std::test::Fail;
    use vd_num::{Bytes, Lines};

    fn lines(alloc: Global, numbers: &[u64]) -> Result<Lines, AllocError> {
        Ok(Lines::from_vec(numbers.to_vec(alloc)?))
    }

    #[test]
    fn source_and_sink_fail_where_listed(rt: HostRuntime) -> Result<(), Fail> {
        let text = Bytes::from_vec(b"abc".to_vec(rt.alloc())?);
        let mut source = MemSource::new(text, lines(rt.alloc(), &[1])?);
        let mut piece = [0u8; 2];
        assert_eq!(rt; source.pull(&mut piece), Ok(2));
        assert_eq!(rt; piece, *b"ab");
        assert_eq!(rt; source.pull(&mut piece), Err(Failed));
        assert_eq!(rt; source.pull(&mut piece), Ok(1));
        assert_eq!(rt; source.pull(&mut piece), Ok(0));

        let mut sink = MemSink::new(rt.alloc(), 4, lines(rt.alloc(), &[0])?)?;
        assert_eq!(rt; sink.push(b"abc"), Err(Failed));
        assert_eq!(rt; sink.push(b"abc"), Ok(3));
        assert_eq!(rt; sink.push(b"de"), Ok(1));
        assert_eq!(rt; sink.push(b"e"), Err(Failed));
        assert_eq!(rt; sink.as_slice(), b"abcd".as_slice());
        Ok(())
    }

    #[test]
    fn image_keeps_sectors(rt: HostRuntime) -> Result<(), Fail> {
        let mut image = MemImage::new(rt.alloc(), 2, lines(rt.alloc(), &[2])?)?;
        let ones = [1u8; 512];
        let mut piece = [9u8; 512];
        assert_eq!(rt; image.write_at(1, &ones), Ok(()));
        assert_eq!(rt; image.flush(), Ok(()));
        assert_eq!(rt; image.read_at(1, &mut piece), Err(Failed));
        assert_eq!(rt; piece[0], 9);
        assert_eq!(rt; image.read_at(1, &mut piece), Ok(()));
        assert_eq!(rt; piece[511], 1);
        assert_eq!(rt; image.as_slice()[511], 0);
        assert_eq!(rt; image.sectors(), 2);
        Ok(())
    }

    #[test]
    fn adapters_pass_bytes_on(rt: HostRuntime) -> Result<(), Fail> {
        let mut source = StdSource::new(b"ab".as_slice());
        let mut piece = [0u8; 4];
        assert_eq!(rt; source.pull(&mut piece), Ok(2));
        assert_eq!(rt; source.pull(&mut piece), Ok(0));
        let mut room = [0u8; 3];
        let mut sink = StdSink::new(room.as_mut_slice());
        assert_eq!(rt; sink.push(b"abcd"), Ok(3));
        assert_eq!(rt; sink.push(b"d"), Err(Failed));
        OpenGate.pass(0, 0);
        Ok(())
    }

    #[test]
    fn file_keeps_sectors(rt: HostRuntime) -> Result<(), Fail> {
        const PATH: &str = "vd_io_test.image";
        fs::write(&rt, PATH, [7u8; 1200].as_slice())?;
        let file = OpenOptions::new().read(true).write(true).open(&rt, PATH)?;
        let mut image = FileImage::new(file)?;
        let mut piece = [9u8; 512];
        assert_eq!(rt; image.sectors(), 2);
        assert_eq!(rt; image.write_at(1, &[1u8; 512]), Ok(()));
        assert_eq!(rt; image.flush(), Ok(()));
        assert_eq!(rt; image.read_at(1, &mut piece), Ok(()));
        assert_eq!(rt; (piece[0], piece[511]), (1, 1));
        let bytes = fs::read(&rt, PATH)?;
        assert_eq!(rt; bytes.len(), 1200);
        assert_eq!(rt;
            (bytes[511], bytes[512], bytes[1023], bytes[1024]),
            (7, 1, 1, 7)
        );
        fs::write(&rt, PATH, b"".as_slice())?;
        assert_eq!(rt; image.read_at(1, &mut piece), Err(Failed));
        fs::remove_file(&rt, PATH)?;
        Ok(())
    }
}
