//! A disk in memory, which a crash may stop at any moment.
//!
//! It tells everything: its contents, what a crash may leave of them, how its calls went and that nothing but they
//! happened in between. So a layer over a disk can be tried on each crash.
#![tactic(auto)]

mod calls;
mod disk;
mod store;

pub use disk::MemDisk;

#[cfg(test)]
mod tests {
    use super::*;
    use blk_disk::Disk;
    use std::alloc::{AllocError, Global};
    use std::test::Fail;
    use vd_num::Lines;

    /// A disk on which sector 0 has ones that stay and twos that don't yet, and whose call 3 failed.
    fn written(alloc: Global) -> Result<MemDisk, AllocError> {
        let fails = Lines::from_vec([3].to_vec(alloc)?);
        let mut disk = MemDisk::new(alloc, 2, 16, fails)?;
        let _ones = disk.write(0, &[1; 512]);
        let _synced = disk.sync();
        let _twos = disk.write(0, &[2; 512]);
        let _failed = disk.write(1, &[3; 512]);
        Ok(disk)
    }

    /// The first bytes of its sectors.
    fn firsts(disk: &MemDisk) -> (Option<u8>, Option<u8>) {
        let bytes = disk.as_slice();
        (bytes.get(0).copied(), bytes.get(512).copied())
    }

    #[test]
    fn crash_leaves_what_is_listed(rt: HostRuntime) -> Result<(), Fail> {
        let disk = written(rt.alloc())?;
        assert_eq!(rt; firsts(&disk), (Some(2), Some(0)));
        assert_eq!(rt; firsts(&disk.crash(0)), (Some(2), Some(0)));
        let disk = written(rt.alloc())?;
        assert_eq!(rt; firsts(&disk.crash(1)), (Some(1), Some(0)));
        Ok(())
    }
}
