//! Cells that several threads share.

ghost use Rattle.std.specs.Prelude.{◌≡◌, ◌≤◌};
ghost use Rattle.sh_cells.specs.Passes.{view, pages_of, IsOf};

use crate::{Cells, DaemonPass, DriverPass, Kind, Pass, Side, Word};
use std::test::Fail;
use std::thread;
use vd_num::Bus;

const ZERO_WORD: Word = Word {
    stamp: 0,
    bytes: [0, 0],
};

#[test]
fn a_word_goes_from_a_driver_to_a_daemon(rt: HostRuntime) -> Result<(), Fail> {
    let (cells, mut driver) = Cells::new(rt.alloc(), 2)?;
    assert_eq!(rt; driver.left(), 140_737_488_355_328);
    cells.set_page(&mut driver, 0, Some(Side::First));
    let stamp = cells.draw(&mut driver, Kind::Handed { mapping: 0 }, 0, b"ab");
    let word = Word {
        stamp,
        bytes: *b"ab",
    };
    cells.put(&mut driver, Side::First, 0, word);
    let mut daemon = cells.split_daemon(&mut driver, 10);
    assert_eq!(rt; stamp, 1);
    assert_eq!(rt; driver.left(), 140_737_488_355_317);
    assert_eq!(rt; driver.quota(), 140_737_488_355_318);
    assert_eq!(rt; (daemon.left(), daemon.quota()), (10, 10));

    assert_eq!(rt; cells.load(&mut daemon, 0), Ok(word));
    assert_eq!(rt; cells.load(&mut daemon, 2), Ok(ZERO_WORD));
    assert_eq!(rt; cells.load(&mut daemon, 4096), Err(Bus { at: 4096 }));
    assert_eq!(rt; cells.draw(&mut daemon, Kind::Daemon, 2, b"zz"), 2);

    cells.join_daemon(&mut driver, daemon);
    assert_eq!(rt; driver.left(), 140_737_488_355_326);
    assert_eq!(rt; driver.quota(), 140_737_488_355_328);
    let _log = cells.close(driver);
    Ok(())
}

// As where a user's area is registered: the word is copied, and then the page is switched.
#[test]
fn a_page_moves_to_its_second_side(rt: HostRuntime) -> Result<(), Fail> {
    let (cells, mut driver) = Cells::new(rt.alloc(), 1)?;
    let mut other = cells.split_driver(&mut driver, 5);
    assert_eq!(rt; cells.page(&mut other, 0), None);
    cells.set_page(&mut driver, 0, Some(Side::First));
    let stamp = cells.draw(&mut driver, Kind::Zero, 8, b"ab");
    let word = Word {
        stamp,
        bytes: *b"ab",
    };
    cells.put(&mut driver, Side::First, 8, word);
    let found = cells.load_side(&mut driver, Side::First, 8);
    assert_eq!(rt; cells.load_side(&mut other, Side::Second, 8), ZERO_WORD);
    cells.copy(&mut driver, Side::Second, 8, found);
    cells.set_page(&mut driver, 0, Some(Side::Second));
    assert_eq!(rt; cells.page(&mut other, 0), Some(Side::Second));
    assert_eq!(rt; cells.load(&mut other, 8), Ok(word));

    cells.set_page(&mut driver, 0, None);
    assert_eq!(rt; cells.load(&mut other, 8), Err(Bus { at: 8 }));
    cells.join_driver(&mut driver, other);
    assert_eq!(rt; driver.left(), 140_737_488_355_327);
    let _log = cells.close(driver);
    Ok(())
}

// Each thread has a pass of its own. What the daemon finds depends on the schedule, and is the
// driver's word or the zero word.
#[test]
fn two_threads_share_the_cells(rt: HostRuntime) -> Result<(), Fail> {
    let (cells, mut driver) = Cells::new(rt.alloc(), 1)?;
    cells.set_page(&mut driver, 0, Some(Side::Second));
    let mut daemon = cells.split_daemon(&mut driver, 1);
    let memory = &cells;
    let (word, found) = thread::join_mut(
        &rt,
        &mut || put_one(memory, &mut driver),
        &mut || load_one(memory, &mut daemon),
    );
    assert!(rt; found == Ok(ZERO_WORD) || found == Ok(word));
    assert_eq!(rt; cells.load(&mut daemon, 8), Ok(word));
    cells.join_daemon(&mut driver, daemon);
    let _log = cells.close(driver);
    Ok(())
}

fn put_one(cells: &Cells, driver: &mut DriverPass) -> Word
    requires { IsOf cells.now driver.old × (1 ≤ (view driver.old).left) × (pages_of cells.now ≡ 1) }
    ensures { IsOf cells.now driver.new × ((view driver.new).quota ≡ (view driver.old).quota) }
{
    let stamp = cells.draw(driver, Kind::Handed { mapping: 0 }, 8, b"ab");
    let word = Word {
        stamp,
        bytes: *b"ab",
    };
    cells.put(driver, Side::Second, 8, word);
    word
}

fn load_one(cells: &Cells, daemon: &mut DaemonPass) -> Result<Word, Bus>
    requires { IsOf cells.now daemon.old × (pages_of cells.now ≡ 1) }
    ensures { IsOf cells.now daemon.new × ((view daemon.new).quota ≡ (view daemon.old).quota) }
{
    cells.load(daemon, 8)
}
