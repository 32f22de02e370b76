//! A worked session on a device of 4 bounce pages and 8 pages in all, and a daemon that loads while
//! a driver maps and unmaps.
ghost use Rattle.std.specs.Prelude.{◌≡◌, ◌≤◌, ◌%◌, true, false, IfOk, length};
ghost use Rattle.sh_cells.specs.Views.{all_stamps};
ghost use Rattle.sh_cells.specs.Passes.{view, log_of, IsOf};
ghost use Rattle.sh_cells.specs.Backed.{IsSettled};

use sh_cells::{DaemonPass, DriverPass, Pass};
use sh_device::{Closed, Device, Held, NewDevice, SendAnswer};
use sh_parts::{Body, Dir, Errno, Naming, Range, Region, TakeAnswer};
use std::alloc::AllocError;
use std::marker::Brand;
use std::process::Abort;
use std::sync::Wait;
use std::test::Fail;
use std::thread::{Threads, join, join_mut, yield_now};
use vd_model::Sent;
use vd_num::Bus;

/// How often the driver maps, and how often the daemon loads.
const ROUNDS: u64 = 100_000;

#[test]
fn a_session_of_one_driver(rt: HostRuntime) -> Result<(), Fail> {
    let (new, driver) = NewDevice::new(rt.alloc(), 4, 8, 30)?;
    session::<Brand, _>(&rt, new, driver)
}

#[test]
fn a_message_between_two_threads(rt: HostRuntime) -> Result<(), Fail> {
    let (new, driver) = NewDevice::new(rt.alloc(), 4, 8, 30)?;
    one_message::<Brand, _>(&rt, new, driver)
}

#[test]
fn a_daemon_loads_while_a_driver_maps(rt: HostRuntime) -> Result<(), Fail> {
    let (new, driver) = NewDevice::new(rt.alloc(), 4, 8, 30)?;
    rounds::<Brand, _>(&rt, new, driver)
}

fn session<N: Naming, R: Wait + Abort>(
    rt: &R,
    new: NewDevice,
    mut driver: DriverPass,
) -> Result<(), Fail>
    requires pass { IsOf new.cells driver × (view driver ≡ all_stamps) }
    requires domain { (new.domain.table ≡ N.domain) × (new.domain.bounce ≡ N.numbers.bounce)
        × (new.domain.pages ≡ N.numbers.pages) }
    requires messages { (new.messages.table ≡ N.messages) × (new.messages.timeout ≡ N.numbers.timeout) }
    requires few { N.numbers.bounce ≤ 4096 }
{
    let device = new.named::<N>();
    let mut daemon = device.split_daemon(&mut driver, 1 << 20);
    let outcome = all_calls(rt, &device, &mut driver, &mut daemon);
    device.join_daemon(&mut driver, daemon);
    let _closed = device.close(driver);
    outcome
}

fn all_calls<N: Naming, R: Wait + Abort>(
    rt: &R,
    device: &Device<N>,
    driver: &mut DriverPass,
    daemon: &mut DaemonPass,
) -> Result<(), Fail>
    requires of { IsOf device.now driver.old × IsOf device.now daemon.old }
    requires few { N.numbers.bounce ≤ 4096 }
    ensures of { IsOf device.now driver.new × IsOf device.now daemon.new }
    ensures quota { ((view driver.new).quota ≡ (view driver.old).quota)
        × ((view daemon.new).quota ≡ (view daemon.old).quota) }
{
    mapping_to_the_device(rt, device, driver, daemon)?;
    mapping_of_both(rt, device, driver, daemon)?;
    regions(rt, device, driver)?;
    registrations(rt, device, driver)
}

fn one_message<N: Naming + Send + Sync, R: Threads + Wait + Abort + Sync>(
    rt: &R,
    new: NewDevice,
    driver: DriverPass,
) -> Result<(), Fail>
    requires pass { IsOf new.cells driver × (view driver ≡ all_stamps) }
    requires domain { (new.domain.table ≡ N.domain) × (new.domain.bounce ≡ N.numbers.bounce)
        × (new.domain.pages ≡ N.numbers.pages) }
    requires messages { (new.messages.table ≡ N.messages) × (new.messages.timeout ≡ N.numbers.timeout) }
    requires few { N.numbers.bounce ≤ 4096 }
{
    let device = new.named::<N>();
    let outcome = messages(rt, &device);
    let _closed = device.close(driver);
    outcome
}

fn map_one<N: Naming>(
    rt: &impl Wait,
    device: &Device<N>,
    pass: &mut DriverPass,
    bytes: &[u8],
    dir: Dir,
) -> Result<Held<N>, Fail>
    requires of { IsOf device.now pass.old }
    requires short { (length bytes.now ≤ 4096) × (length bytes.now % 2 ≡ 0) }
    ensures of { IsOf device.now pass.new }
    ensures quota { (view pass.new).quota ≡ (view pass.old).quota }
    ensures held { IfOk result (λ h. (h.len ≡ length bytes.now) × (h.coherent ≡ false)) }
{
    if pass.left() < 64 {
        return Err("few stamps are left".into());
    }
    match device.map(rt, pass, bytes, dir) {
        Ok(held) => Ok(held),
        Err(_) => Err("a map is refused".into()),
    }
}

fn unmap_one<N: Naming>(
    rt: &impl Wait,
    device: &Device<N>,
    pass: &mut DriverPass,
    held: Held<N>,
    bytes: &mut [u8],
) -> Result<(), Fail>
    requires of { IsOf device.now pass.old }
    requires held { (held.coherent ≡ false) × (length bytes.old ≡ held.len) }
    ensures of { IsOf device.now pass.new }
    ensures quota { (view pass.new).quota ≡ (view pass.old).quota }
    ensures len { length bytes.new ≡ length bytes.old }
{
    match device.unmap(rt, pass, held, bytes) {
        Ok(_) => Ok(()),
        Err(_) => Err("an unmap is refused".into()),
    }
}

fn mapping_to_the_device<N: Naming, R: Wait + Abort>(
    rt: &R,
    device: &Device<N>,
    driver: &mut DriverPass,
    daemon: &mut DaemonPass,
) -> Result<(), Fail>
    requires of { IsOf device.now driver.old × IsOf device.now daemon.old }
    ensures of { IsOf device.now driver.new × IsOf device.now daemon.new }
    ensures quota { ((view driver.new).quota ≡ (view driver.old).quota)
        × ((view daemon.new).quota ≡ (view daemon.old).quota) }
{
    let mut buffer = *b"ab";
    let mut found = [0; 2];
    let held = map_one(rt, device, driver, &buffer, Dir::To)?;
    assert_eq!(rt; held.iova(), 0x3000);
    assert_eq!(rt; held.place(), 0);
    assert_eq!(rt; device.load(daemon, 0x3000, &mut found), Ok(held.stamp()));
    assert_eq!(rt; found, *b"ab");
    assert_eq!(rt;
        device.load(daemon, 0x2000, &mut found),
        Err(Bus { at: 0x2000 })
    );
    assert!(rt; store_one(device, daemon, 0x3000, b"xy"));
    unmap_one(rt, device, driver, held, &mut buffer)?;
    assert_eq!(rt; buffer, *b"ab");
    Ok(())
}

fn mapping_of_both<N: Naming, R: Wait + Abort>(
    rt: &R,
    device: &Device<N>,
    driver: &mut DriverPass,
    daemon: &mut DaemonPass,
) -> Result<(), Fail>
    requires of { IsOf device.now driver.old × IsOf device.now daemon.old }
    ensures of { IsOf device.now driver.new × IsOf device.now daemon.new }
    ensures quota { ((view driver.new).quota ≡ (view driver.old).quota)
        × ((view daemon.new).quota ≡ (view daemon.old).quota) }
{
    let mut buffer = [0, 0];
    let held = map_one(rt, device, driver, &buffer, Dir::Both)?;
    assert_eq!(rt; held.iova(), 0x3000);
    assert!(rt; store_one(device, daemon, 0x3000, b"xy"));
    unmap_one(rt, device, driver, held, &mut buffer)?;
    assert_eq!(rt; buffer, *b"xy");
    Ok(())
}

fn store_one<N: Naming>(device: &Device<N>, daemon: &mut DaemonPass, at: u64, bytes: &[u8]) -> bool
    requires of { IsOf device.now daemon.old }
    requires even { (at % 2 ≡ 0) × (length bytes.now % 2 ≡ 0) × (1 ≤ length bytes.now) }
    ensures of { IsOf device.now daemon.new }
    ensures quota { (view daemon.new).quota ≡ (view daemon.old).quota }
{
    daemon.left() > 0 && device.store(daemon, at, bytes).is_ok()
}

fn regions<N: Naming, R: Wait + Abort>(
    rt: &R,
    device: &Device<N>,
    driver: &mut DriverPass,
) -> Result<(), Fail>
    requires of { IsOf device.now driver.old }
    ensures of { IsOf device.now driver.new }
    ensures quota { (view driver.new).quota ≡ (view driver.old).quota }
{
    if driver.left() < 64 {
        return Err("few stamps are left".into());
    }
    let Ok(held) = device.coherent(rt, driver, 2) else {
        return Err("a coherent region is refused".into());
    };
    assert!(rt; held.iova() == 0x7000 && held.is_coherent());
    let mut found = [7; 2];
    device.read(driver, &held, 0, &mut found);
    assert_eq!(rt; found, [0, 0]);
    if driver.left() > 0 {
        device.write(driver, &held, 0, b"cd");
    }
    device.read(driver, &held, 0, &mut found);
    assert_eq!(rt; found, *b"cd");

    let range = Range {
        start: 0,
        last: 0xffff,
    };
    let bounce = Region {
        start: 0,
        last: 0x3fff,
        offset: 0,
        perm: 3,
    };
    assert_eq!(rt; device.lookup(rt, range)?.value, Ok(bounce));
    if device.free(rt, driver, held).is_err() {
        return Err("a free is refused".into());
    }
    Ok(())
}

fn registrations<N: Naming, R: Wait + Abort>(
    rt: &R,
    device: &Device<N>,
    driver: &mut DriverPass,
) -> Result<(), Fail>
    requires of { IsOf device.now driver.old }
    requires few { N.numbers.bounce ≤ 4096 }
    ensures of { IsOf device.now driver.new }
    ensures quota { (view driver.new).quota ≡ (view driver.old).quota }
{
    let mut buffer = *b"gh";
    let held = map_one(rt, device, driver, &buffer, Dir::Both)?;
    assert_eq!(rt; register_one(rt, device, driver)?, Ok(()));
    assert_eq!(rt; register_one(rt, device, driver)?, Err(Errno::Exist));
    buffer = [0, 0];
    assert_eq!(rt; deregister_one(rt, device, driver)?, Ok(()));
    assert_eq!(rt; deregister_one(rt, device, driver)?, Err(Errno::Noent));
    unmap_one(rt, device, driver, held, &mut buffer)?;
    assert_eq!(rt; buffer, *b"gh");
    Ok(())
}

fn register_one<N: Naming>(
    rt: &impl Wait,
    device: &Device<N>,
    driver: &mut DriverPass,
) -> Result<Result<(), Errno>, Fail>
    requires of { IsOf device.now driver.old }
    requires few { N.numbers.bounce ≤ 4096 }
    ensures of { IsOf device.now driver.new }
    ensures quota { (view driver.new).quota ≡ (view driver.old).quota }
{
    if driver.left() < 4096 {
        return Err("few stamps are left".into());
    }
    let noted = device.register(rt, driver)?;
    Ok(noted.value)
}

fn deregister_one<N: Naming>(
    rt: &impl Wait,
    device: &Device<N>,
    driver: &mut DriverPass,
) -> Result<Result<(), Errno>, Fail>
    requires of { IsOf device.now driver.old }
    requires few { N.numbers.bounce ≤ 4096 }
    ensures of { IsOf device.now driver.new }
    ensures quota { (view driver.new).quota ≡ (view driver.old).quota }
{
    if driver.left() < 4096 {
        return Err("few stamps are left".into());
    }
    let noted = device.deregister(rt, driver)?;
    Ok(noted.value)
}

fn messages<N: Naming + Send + Sync, R: Threads + Wait + Abort + Sync>(
    rt: &R,
    device: &Device<N>,
) -> Result<(), Fail> {
    let body = Body::Status { value: 15 };
    let (sent, accepted) = join(
        rt,
        || device.send_and_wait(rt, body),
        || answer_again(rt, device),
    );
    assert!(rt; accepted?);
    let done = TakeAnswer::Done { body, avail: 0 };
    assert_eq!(rt; sent?.value, SendAnswer::Taken(done));
    let mut lost = device.lost(rt)?;
    let ticked = device.tick(rt, 5)?;
    assert!(rt; lost.place() < ticked.place());
    device.meet_messages(rt, &mut lost, ticked);
    Ok(())
}

/// Receives the one message that is sent, loses it as a daemon does that ends, and answers it with 0
/// when it has come again.
fn answer_again<N: Naming>(rt: &impl Wait, device: &Device<N>) -> Result<bool, AllocError> {
    let first = receive(rt, device)?;
    device.lost(rt)?;
    let again = receive(rt, device)?;
    let answered = device.answer(rt, again.id, 0, 0)?.value;
    Ok(answered && again.id == first.id)
}

/// Waits for a message.
fn receive<N: Naming>(rt: &impl Wait, device: &Device<N>) -> Result<Sent, AllocError> {
    for _ in rt.forever() {
        if let Some(sent) = device.recv(rt)?.value {
            return Ok(sent);
        }
        yield_now();
    }
    unreachable!()
}

fn rounds<N: Naming + Send + Sync, R: Threads + Wait + Abort + Sync>(
    rt: &R,
    new: NewDevice,
    driver: DriverPass,
) -> Result<(), Fail>
    requires pass { IsOf new.cells driver × (view driver ≡ all_stamps) }
    requires domain { (new.domain.table ≡ N.domain) × (new.domain.bounce ≡ N.numbers.bounce)
        × (new.domain.pages ≡ N.numbers.pages) }
    requires messages { (new.messages.table ≡ N.messages) × (new.messages.timeout ≡ N.numbers.timeout) }
{
    let (_closed, mapped, whole) = both_work(rt, new.named::<N>(), driver);
    mapped?;
    assert!(rt; whole);
    Ok(())
}

/// Lets both work, and ends the device. By its log, which is settled, each word that was loaded is
/// zero or was put.
fn both_work<N: Naming + Send + Sync, R: Threads + Wait + Sync>(
    rt: &R,
    device: Device<N>,
    mut driver: DriverPass,
) -> (Closed<N>, Result<(), Fail>, bool)
    requires pass { IsOf device driver × (view driver ≡ all_stamps) }
    ensures { IsSettled (log_of result.0.log) }
{
    let mut daemon = device.split_daemon(&mut driver, 1);
    let shared = &device;
    let (mapped, whole) = join_mut(
        rt,
        &mut || map_rounds(rt, shared, &mut driver),
        &mut || load_rounds(shared, &mut daemon),
    );
    device.join_daemon(&mut driver, daemon);
    (device.close(driver), mapped, whole)
}

fn map_rounds<N: Naming>(
    rt: &impl Wait,
    device: &Device<N>,
    driver: &mut DriverPass,
) -> Result<(), Fail>
    requires { IsOf device.now driver.old }
    ensures of { IsOf device.now driver.new }
    ensures quota { (view driver.new).quota ≡ (view driver.old).quota }
{
    for round in 0..ROUNDS {
        let byte = (round % 255) as u8 + 1;
        let mut buffer = [byte; 512];
        let held = map_one(rt, device, driver, &buffer, Dir::To)?;
        unmap_one(rt, device, driver, held, &mut buffer)?;
    }
    Ok(())
}

/// Whether each word that was loaded is whole: zero, or of two equal bytes as the driver's are.
fn load_rounds<N: Naming>(device: &Device<N>, daemon: &mut DaemonPass) -> bool
    requires { IsOf device.now daemon.old }
    ensures of { IsOf device.now daemon.new }
    ensures quota { (view daemon.new).quota ≡ (view daemon.old).quota }
{
    let mut whole = true;
    for _ in 0..ROUNDS {
        let mut found = [0; 512];
        let loaded = device.load(daemon, 0x3000, &mut found);
        whole = whole && (loaded.is_err() || are_whole(&found));
    }
    whole
}

fn are_whole(bytes: &[u8]) -> bool {
    bytes.chunks_exact(2).all(|word| word[0] == word[1])
}
