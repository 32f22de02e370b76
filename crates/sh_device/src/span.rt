//! Ranges of words, read and written one atomic step after another.
ghost use Rattle.std.specs.Prelude.{◌≡◌, ◌≢◌, ◌≤◌, ◌<◌, ℕ, List, [], ◌∷◌, ◌+◌, ◌-◌, ◌*◌, ◌/◌, ◌%◌, length, MatchOption, None, Option, slice_index_or, is_none, true, false};
ghost use Rattle.sh_cells.specs.declared.word.Side.{Side};
ghost use Rattle.sh_cells.specs.declared.word.Word.{Word};
ghost use Rattle.sh_cells.specs.Passes.{view, pages_of, IsOf};
ghost use Rattle.sh_device.specs.Spans.{side_in, words_of, bytes_of, least_of, with_reads, with_found, with_bytes, accesses_on, zeros, Clears, with_shown, with_hidden};

use sh_cells::{Cells, DriverPass, Kind, Pass, Side, Word};
use vd_num::SLOT_SIZE;

/// The bytes of a page that was cleared.
pub(crate) const ZEROS: [u8; 4096] = [0; 4096];

/// The side of a page among those that were found, the first where it was absent.
fn side_at(found: &[Option<Side>], k: usize) -> Side
    ensures { result ≡ side_in found.now k }
{
    if k < found.len() {
        found[k].unwrap_or(Side::First)
    } else {
        Side::First
    }
}

/// Loads the page words from `page` on.
pub(crate) fn find_pages<P: Pass>(
    cells: &Cells,
    pass: &mut P,
    page: u64,
    found: &mut [Option<Side>],
)
    requires of { IsOf cells.now (P.token pass.old) }
    requires inside { page + length found.old ≤ pages_of cells.now }
    ensures of { IsOf cells.now (P.token pass.new) }
    ensures found { view (P.token pass.new) ≡ with_found (view (P.token pass.old)) page found.new }
{
    let mut i = 0;
    while i < found.len() {
        let side = cells.page(pass, (page + i as u64) as u32);
        found[i] = side;
        i += 1;
    }
}

/// Loads the words of a range, each on the side of its page, and answers the least stamp.
pub(crate) fn read_on<P: Pass>(
    cells: &Cells,
    pass: &mut P,
    found: &[Option<Side>],
    at: u64,
    out: &mut [u8],
) -> u64
    requires of { IsOf cells.now (P.token pass.old) }
    requires even { (at % 2 ≡ 0) × (length out.old % 2 ≡ 0) }
    requires inside { at + length out.old ≤ 4096 * pages_of cells.now }
    ensures of { IsOf cells.now (P.token pass.new) }
    ensures gained { (words : List Word)
        × (view (P.token pass.new)
        ≡ with_reads (view (P.token pass.old)) (accesses_on found.now (at / 4096) at words))
        × (out.new ≡ bytes_of words) × (result ≡ least_of words) }
{
    let mut least = u64::MAX;
    let mut i = 0;
    while i < out.len() {
        let place = at + i as u64;
        let side = side_at(found, (place / SLOT_SIZE - at / SLOT_SIZE) as usize);
        let word = cells.load_side(pass, side, place);
        out[i] = word.bytes[0];
        out[i + 1] = word.bytes[1];
        least = least.min(word.stamp);
        i += 2;
    }
    least
}

/// Draws one entry for the bytes, and puts its words, each on the side of its page.
pub(crate) fn write_on<P: Pass>(
    cells: &Cells,
    pass: &mut P,
    found: &[Option<Side>],
    kind: Kind,
    at: u64,
    bytes: &[u8],
) -> u64
    requires of { IsOf cells.now (P.token pass.old) }
    requires left { 1 ≤ (view (P.token pass.old)).left }
    requires may { P.may_draw kind }
    requires even { (at % 2 ≡ 0) × (length bytes.now % 2 ≡ 0) }
    requires inside { at + length bytes.now ≤ 4096 * pages_of cells.now }
    ensures of { IsOf cells.now (P.token pass.new) }
    ensures gained { view (P.token pass.new)
        ≡ with_bytes (view (P.token pass.old)) result kind found.now at bytes.now }
{
    let stamp = cells.draw(pass, kind, at, bytes);
    let mut i = 0;
    while i < bytes.len() {
        let place = at + i as u64;
        let side = side_at(found, (place / SLOT_SIZE - at / SLOT_SIZE) as usize);
        let word = Word {
            stamp,
            bytes: [bytes[i], bytes[i + 1]],
        };
        cells.put(pass, side, place, word);
        i += 2;
    }
    stamp
}

/// Puts zeros on the first side of each page that was absent.
pub(crate) fn clear_absent(cells: &Cells, pass: &mut DriverPass, page: u64, found: &[Option<Side>])
    requires of { IsOf cells.now pass.old }
    requires left { length found.now ≤ (view pass.old).left }
    requires inside { page + length found.now ≤ pages_of cells.now }
    ensures of { IsOf cells.now pass.new }
    ensures gained { Clears (view pass.old) page found.now (view pass.new) }
    ensures left { (view pass.old).left ≤ (view pass.new).left + length found.now }
{
    let mut i = 0;
    while i < found.len() {
        clear_one(cells, pass, page + i as u64, found[i]);
        i += 1;
    }
}

/// Puts zeros on the first side of a page that was absent.
fn clear_one(cells: &Cells, pass: &mut DriverPass, page: u64, found: Option<Side>)
    requires of { IsOf cells.now pass.old }
    requires left { 1 ≤ (view pass.old).left }
    requires inside { page < pages_of cells.now }
    ensures of { IsOf cells.now pass.new }
    ensures gained { Clears (view pass.old) page (found ∷ []) (view pass.new) }
    ensures left { (view pass.old).left ≤ (view pass.new).left + 1 }
{
    match found {
        Some(side) => {
            let _ = side;
        }
        None => {
            write_on(cells, pass, &[], Kind::Zero, SLOT_SIZE * page, &ZEROS);
        }
    }
}

/// Makes each page that was absent present on its first side.
pub(crate) fn show_absent(cells: &Cells, pass: &mut DriverPass, page: u64, found: &[Option<Side>])
    requires of { IsOf cells.now pass.old }
    requires inside { page + length found.now ≤ pages_of cells.now }
    ensures of { IsOf cells.now pass.new }
    ensures gained { view pass.new ≡ with_shown (view pass.old) page found.now }
{
    let mut i = 0;
    while i < found.len() {
        show_one(cells, pass, page + i as u64, found[i]);
        i += 1;
    }
}

/// Makes a page that was absent present on its first side.
fn show_one(cells: &Cells, pass: &mut DriverPass, page: u64, found: Option<Side>)
    requires of { IsOf cells.now pass.old }
    requires inside { page < pages_of cells.now }
    ensures of { IsOf cells.now pass.new }
    ensures gained { view pass.new ≡ with_shown (view pass.old) page (found ∷ []) }
{
    match found {
        Some(side) => {
            let _ = side;
        }
        None => cells.set_page(pass, page as u32, Some(Side::First)),
    }
}

/// Makes so many pages absent.
pub(crate) fn hide_pages(cells: &Cells, pass: &mut DriverPass, page: u64, count: u64)
    requires of { IsOf cells.now pass.old }
    requires inside { page + count ≤ pages_of cells.now }

    ensures of { IsOf cells.now pass.new }
    ensures gained { view pass.new ≡ with_hidden (view pass.old) page count }
{
    let mut i = 0;
    while i < count {
        cells.set_page(pass, (page + i) as u32, None);
        i += 1;
    }
}
