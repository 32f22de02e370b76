//! The dirty sectors of a cache: their bytes, found by the sector's number, within room that is taken once.
#![tactic(auto)]

mod dirty;
mod line;

pub use dirty::Dirty;

#[cfg(test)]
mod tests {
    use super::*;
    use std::test::Fail;

    #[test]
    fn sectors_are_dirty_until_removed(rt: HostRuntime) -> Result<(), Fail> {
        let mut dirty = Dirty::new(rt.alloc(), 4, 2)?;
        dirty.put(1, &[7; 512]);
        dirty.put_all(3, &[8; 512]);
        assert_eq!(rt; dirty.len(), 2);
        assert_eq!(rt; dirty.next(2), Some(3));
        dirty.remove(3);
        assert_eq!(rt; dirty.next(2), Some(1));
        assert_eq!(rt; dirty.clean(0, 4), 3);
        let mut piece = [9; 1024];
        dirty.copy_over(0, &mut piece);
        assert_eq!(rt; (piece[511], piece[512]), (9, 7));
        Ok(())
    }
}
