//! The sectors of the image that names have.

ghost use Rattle.std.specs.Prelude.{◌≡◌, ◌<◌, ◌+◌, ◌&&◌, find, nat_lt};
ghost use Rattle.std.specs.List.{list_any};
ghost use Rattle.std.specs.Option.{option_map};
ghost use Rattle.vd_instance.specs.Image.{window_or_none};
ghost use Rattle.vd_engine.specs.Windows.{given_window, has_window, shares_sector};

use vd_model::Window;
use vd_num::Name;

/// The sectors that a name has, for the whole run.
#[derive(Drop)]
pub struct Given {
    pub name: Name,
    pub window: Window,
}

/// The sectors that this name has.
pub(crate) fn window_of(windows: &[Given], name: &[u8]) -> Option<Window>
    ensures { result ≡ option_map given_window (find (has_window name.now) windows.now) }
{
    for given in windows {
        if name == given.name.as_slice() {
            return Some(given.window);
        }
    }
    None
}

/// The same, and a count of 0 where it has none.
pub(crate) fn drive_of(windows: &[Given], name: &[u8]) -> Window
    ensures { result ≡ window_or_none (option_map given_window (find (has_window name.now) windows.now)) }
{
    match window_of(windows, name) {
        Some(window) => window,
        None => Window { first: 0, count: 0 },
    }
}

/// Whether these sectors end past an image of so many.
pub(crate) fn is_beyond(first: u64, count: u64, sectors: u64) -> bool
    ensures { result ≡ nat_lt sectors (first + count) }
{
    count > sectors || first > sectors - count
}

/// Whether these sectors and those of a name share one.
fn shares(given: &Given, first: u64, count: u64) -> bool
    requires { 0 < count }
    ensures { result ≡ shares_sector first count given.now }
{
    if first < given.window.first {
        given.window.first - first < count
    } else {
        first - given.window.first < given.window.count
    }
}

/// Whether some name has one of these sectors.
pub(crate) fn is_taken(windows: &[Given], first: u64, count: u64) -> bool
    requires { 0 < count }
    ensures { result ≡ list_any (shares_sector first count) windows.now }
{
    windows.iter().any(|given| shares(given, first, count))
}
