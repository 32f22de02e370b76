//! Disks: one in a file.
#![tactic(auto)]

mod file;

pub use file::FileDisk;

#[cfg(test)]
mod tests {
    use super::*;
    use blk_disk::Disk;
    use std::fs::{self, OpenOptions};
    use std::test::Fail;

    #[test]
    fn file_keeps_sectors(rt: HostRuntime) -> Result<(), Fail> {
        const PATH: &str = "blk_disks_file_keeps_sectors.image";
        fs::write(&rt, PATH, [7u8; 1200].as_slice())?;
        let file = OpenOptions::new().read(true).write(true).open(&rt, PATH)?;
        let mut disk = FileDisk::new(file)?;
        let sectors = disk.sectors();
        assert_eq!(rt; sectors, 2);
        let mut piece = [9u8; 512];
        assert!(rt; disk.write(1, &[1; 512]).is_ok());
        assert!(rt; disk.sync().is_ok());
        assert!(rt; disk.read(1, &mut piece).is_ok());
        assert_eq!(rt; (piece[0], piece[511]), (1, 1));
        let bytes = fs::read(&rt, PATH)?;
        assert_eq!(rt; bytes.len(), 1200);
        assert_eq!(rt;
            (bytes[511], bytes[512], bytes[1023], bytes[1024]),
            (7, 1, 1, 7)
        );
        fs::write(&rt, PATH, b"".as_slice())?;
        assert!(rt; disk.read(1, &mut piece).is_err());
        fs::remove_file(&rt, PATH)?;
        Ok(())
    }
}
