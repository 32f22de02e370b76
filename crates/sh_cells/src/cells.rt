//! The shared memory, and its calls.
ghost use Rattle.std.specs.Prelude.{◌≡◌, ◌≤◌, ℕ, ◌+◌, ◌*◌};

use crate::pass::{DaemonPass, DriverPass, Log, Pass, Token};
use crate::rule::{
    CellsRule, CutShare, Draft, DrawEntry, FindPage, Look, PutWord, ReadCell, SetPage, Share,
    TakeIn,
};
use crate::view::View;
use crate::word::{Kind, Side, Word};
use atomic_table::Table;
use std::alloc::{AllocError, Global};
use std::marker::Brand;
use vd_num::{Bus, SLOT_SIZE};

/// All stamps that the passes of some cells may draw, together.
const ALL_STAMPS: u64 = 1 << 47;

/// The table's word 0 is the last stamp drawn.
const LAST_STAMP: usize = 0;

/// The first of the table's 4,096 page words.
const PAGE_WORDS: usize = 1;

/// The first cell in the table. Each even address of the memory has two, one for each side.
const CELLS: usize = 4097;

/// A memory of some pages, each of 2,048 words of two bytes on either side.
#[derive(Drop)]
pub struct Cells {
    table: Table<(), View, u64, CellsRule, Global>,
    pages: u64,
    ghost few: { (1 ≤ pages) × (pages ≤ 4096) },
    ghost key_is: { table.shared.key ≡ pages },
    ghost wide: { table.shared.table_id.words ≡ 4097 + 4096 * pages },
}

impl Cells {
    ghost use Rattle.std.specs.Prelude.{◌≡◌, ◌≢◌, ◌⊎◌, ◌≤◌, ◌<◌, ℕ, ◌+◌, ◌*◌, ◌/◌, ◌%◌, ◌^◌, [], IfOk, IfErr, length, Contains, None};
    ghost use Rattle.sh_cells.specs.declared.word.Word.{Word};
    ghost use Rattle.sh_cells.specs.declared.word.Side.{Side};
    ghost use Rattle.sh_cells.specs.Words.{zero_word};
    ghost use Rattle.sh_cells.specs.Views.{access, entry, page_store, all_stamps, with_entry, with_put, with_read, with_page_read, with_page_store, kept_of, given_of, both_of, StampsBelow, LoadsWord};
    ghost use Rattle.sh_cells.specs.Backed.{MayPut, MayCopy, IsSettled};
    ghost use Rattle.sh_cells.specs.Passes.{view, log_of, pages_of, IsOf};

    /// The cells of 1 to 4,096 pages, of which none is present, and their first pass. It has all
    /// stamps and the whole quota. Every word is zero.
    pub fn new(alloc: Global, pages: u32) -> Result<(Cells, DriverPass), AllocError>
        requires { (1 ≤ pages) × (pages ≤ 4096) }
        ensures size { IfOk result (λ r. pages_of r.0 ≡ pages) }
        ensures pass { IfOk result (λ r. IsOf r.0 r.1 × (view r.1 ≡ all_stamps)) }
    {
        let words = vec![in alloc; 0u64; CELLS + 4096 * pages as usize]?;
        let pages = u64::from(pages);
        let (table, seat) = Table::of_words(alloc, words.as_slice(), &pages)?;
        let token = Token {
            seat,
            left: ALL_STAMPS,
            quota: ALL_STAMPS,
        };
        Ok((Cells { table, pages }, DriverPass { token }))
    }

    /// Draws the next stamp for an entry of these bytes, at the addresses from `base` on, and
    /// answers it. A daemon draws entries of kind `Daemon`, and a driver those of the other kinds.
    pub fn draw<P: Pass>(&self, pass: &mut P, kind: Kind, base: u64, bytes: &[u8]) -> u64
        requires of { IsOf self.now (P.token pass.old) }
        requires left { 1 ≤ (view (P.token pass.old)).left }
        requires may { P.may_draw kind }
        requires even { (base % 2 ≡ 0) × (length bytes.now % 2 ≡ 0) }
        requires inside { base + length bytes.now ≤ 4096 * pages_of self.now }

        ensures of { IsOf self.now (P.token pass.new) }
        ensures gained { view (P.token pass.new)
            ≡ with_entry (view (P.token pass.old)) (entry result kind base bytes.now) }
        ensures stamp { (1 ≤ result) × (result ≤ 2 ^ 47) }
        ensures fresh { StampsBelow result (view (P.token pass.old)) }
    {
        self.draw_entry::<Brand>(pass.token_mut(), kind, base, bytes)
    }

    /// Stores a word of an entry that the pass drew itself.
    pub fn put<P: Pass>(&self, pass: &mut P, side: Side, at: u64, word: Word)
        requires of { IsOf self.now (P.token pass.old) }
        requires even { at % 2 ≡ 0 }
        requires drawn { MayPut (view (P.token pass.old)) at word }

        ensures of { IsOf self.now (P.token pass.new) }
        ensures gained { view (P.token pass.new) ≡ with_put (view (P.token pass.old)) (access side at word) }
    {
        self.put_word(pass.token_mut(), side, at, word);
    }

    /// Loads the page word of an address, and then its word on the side that is present. `Bus` is
    /// answered exactly where the page word says none.
    pub fn load<P: Pass>(&self, pass: &mut P, at: u64) -> Result<Word, Bus>
        requires of { IsOf self.now (P.token pass.old) }
        requires even { at % 2 ≡ 0 }
        requires inside { at < 4096 * pages_of self.now }

        ensures of { IsOf self.now (P.token pass.new) }
        ensures word { IfOk result
            (λ word. LoadsWord (view (P.token pass.old)) at word (view (P.token pass.new))) }
        ensures bus { IfErr result
            (λ bus. (bus.at ≡ at)
            × (view (P.token pass.new)
            ≡ with_page_read (view (P.token pass.old)) (at / 4096) None)) }
    {
        let token = pass.token_mut();
        match self.find_page(token, at / SLOT_SIZE) {
            Some(side) => Ok(self.read_cell(token, side, at)),
            None => Err(Bus { at }),
        }
    }

    /// Loads the word of an address on one side, whether or not that side is present.
    pub fn load_side<P: Pass>(&self, pass: &mut P, side: Side, at: u64) -> Word
        requires of { IsOf self.now (P.token pass.old) }
        requires even { at % 2 ≡ 0 }
        requires inside { at < 4096 * pages_of self.now }

        ensures of { IsOf self.now (P.token pass.new) }
        ensures gained { view (P.token pass.new)
            ≡ with_read (view (P.token pass.old)) (access side at result) }
        ensures own { (w : Word) → Contains (view (P.token pass.old)).puts (access side at w) →
            result ≢ zero_word }
    {
        self.read_cell(pass.token_mut(), side, at)
    }

    /// Stores a word that the pass has loaded at this address, on either side.
    pub fn copy(&self, pass: &mut DriverPass, side: Side, at: u64, word: Word)
        requires of { IsOf self.now pass.old }
        requires even { at % 2 ≡ 0 }
        requires inside { at < 4096 * pages_of self.now }
        requires loaded { MayCopy (view pass.old) at word }

        ensures of { IsOf self.now pass.new }
        ensures gained { view pass.new ≡ with_put (view pass.old) (access side at word) }
    {
        self.put_word(&mut pass.token, side, at, word);
    }

    /// The side of a page that is present, or none.
    pub fn page<P: Pass>(&self, pass: &mut P, page: u32) -> Option<Side>
        requires of { IsOf self.now (P.token pass.old) }
        requires inside { page < pages_of self.now }

        ensures of { IsOf self.now (P.token pass.new) }
        ensures gained { view (P.token pass.new) ≡ with_page_read (view (P.token pass.old)) page result }
    {
        self.find_page(pass.token_mut(), u64::from(page))
    }

    /// Makes a side of a page present, or none.
    pub fn set_page(&self, pass: &mut DriverPass, page: u32, side: Option<Side>)
        requires of { IsOf self.now pass.old }
        requires inside { page < pages_of self.now }

        ensures of { IsOf self.now pass.new }
        ensures gained { view pass.new ≡ with_page_store (view pass.old) (page_store page side) }
    {
        self.store_page(&mut pass.token, page, side);
    }

    /// A new pass of a driver, which gets a share of the stamps that are left and of the quota.
    pub fn split_driver(&self, pass: &mut DriverPass, share: u64) -> DriverPass
        requires of { IsOf self.now pass.old }
        requires share { (1 ≤ share) × (share ≤ (view pass.old).left) × (share < (view pass.old).quota) }

        ensures of { IsOf self.now pass.new × IsOf self.now result }
        ensures kept { view pass.new ≡ kept_of share (view pass.old) }
        ensures given { view result ≡ given_of share (view pass.old) }
    {
        DriverPass {
            token: self.split::<Brand>(&mut pass.token, share),
        }
    }

    /// A new pass of a daemon, which gets a share of the stamps that are left and of the quota.
    pub fn split_daemon(&self, pass: &mut DriverPass, share: u64) -> DaemonPass
        requires of { IsOf self.now pass.old }
        requires share { (1 ≤ share) × (share ≤ (view pass.old).left) × (share < (view pass.old).quota) }

        ensures of { IsOf self.now pass.new × IsOf self.now result }
        ensures kept { view pass.new ≡ kept_of share (view pass.old) }
        ensures given { view result ≡ given_of share (view pass.old) }
    {
        DaemonPass {
            token: self.split::<Brand>(&mut pass.token, share),
        }
    }

    /// Puts another driver's pass into this one.
    pub fn join_driver(&self, pass: &mut DriverPass, other: DriverPass)
        requires of { IsOf self.now pass.old × IsOf self.now other }

        ensures of { IsOf self.now pass.new }
        ensures both { view pass.new ≡ both_of (view pass.old) (view other) }
    {
        let DriverPass { token } = other;
        self.join(&mut pass.token, token);
    }

    /// Puts a daemon's pass into this one.
    pub fn join_daemon(&self, pass: &mut DriverPass, other: DaemonPass)
        requires of { IsOf self.now pass.old × IsOf self.now other }

        ensures of { IsOf self.now pass.new }
        ensures both { view pass.new ≡ both_of (view pass.old) (view other) }
    {
        let DaemonPass { token } = other;
        self.join(&mut pass.token, token);
    }

    /// The log of all passes. The pass has the whole quota, so every other was joined.
    pub fn close(self, pass: DriverPass) -> Log
        requires of { IsOf self pass }
        requires whole { (view pass).quota ≡ 2 ^ 47 }

        ensures log { log_of result ≡ view pass }
        ensures settled { IsSettled (log_of result) }
    {
        let DriverPass { token } = pass;
        let Token {
            mut seat,
            left: _,
            quota: _,
        } = token;
        self.table.shared.load::<Look>(&mut seat, LAST_STAMP);
        Log { seat }
    }

    fn draw_entry<D: Draft>(&self, token: &mut Token, kind: Kind, base: u64, bytes: &[u8]) -> u64
        requires draft { (kind ≡ D.kind) × (base ≡ D.base) × (bytes.now ≡ D.bytes) }
        requires of { IsOf self.now token.old }
        requires left { 1 ≤ (view token.old).left }
        requires inside { base + length bytes.now ≤ 4096 * pages_of self.now }

        ensures of { IsOf self.now token.new }
        ensures gained { view token.new ≡ with_entry (view token.old) (entry result kind base bytes.now) }
        ensures stamp { (1 ≤ result) × (result ≤ 2 ^ 47) }
        ensures fresh { StampsBelow result (view token.old) }
    {
        // The entry lives in the view alone.
        let _ = bytes;
        let shared = &self.table.shared;
        let last = shared.fetch_add::<DrawEntry<D>>(&mut token.seat, LAST_STAMP, 1);
        token.left -= 1;
        last + 1
    }

    fn put_word(&self, token: &mut Token, side: Side, at: u64, word: Word)
        requires of { IsOf self.now token.old }
        requires even { at % 2 ≡ 0 }
        requires inside { at < 4096 * pages_of self.now }
        requires known { MayPut (view token.old) at word ⊎ MayCopy (view token.old) at word }

        ensures of { IsOf self.now token.new }
        ensures gained { view token.new ≡ with_put (view token.old) (access side at word) }
    {
        let cell = CELLS + at as usize + side.number();
        let shared = &self.table.shared;
        shared.store::<PutWord>(&mut token.seat, cell, word.number());
    }

    fn read_cell(&self, token: &mut Token, side: Side, at: u64) -> Word
        requires of { IsOf self.now token.old }
        requires even { at % 2 ≡ 0 }
        requires inside { at < 4096 * pages_of self.now }

        ensures of { IsOf self.now token.new }
        ensures gained { view token.new ≡ with_read (view token.old) (access side at result) }
        ensures own { (w : Word) → Contains (view token.old).puts (access side at w) → result ≢ zero_word }
    {
        let cell = CELLS + at as usize + side.number();
        let shared = &self.table.shared;
        Word::from_number(shared.load::<ReadCell>(&mut token.seat, cell))
    }

    fn find_page(&self, token: &mut Token, page: u64) -> Option<Side>
        requires of { IsOf self.now token.old }
        requires inside { page < pages_of self.now }

        ensures of { IsOf self.now token.new }
        ensures gained { view token.new ≡ with_page_read (view token.old) page result }
    {
        let place = page as usize + PAGE_WORDS;
        let shared = &self.table.shared;
        Side::from_page_word(shared.load::<FindPage>(&mut token.seat, place))
    }

    fn store_page(&self, token: &mut Token, page: u32, side: Option<Side>)
        requires of { IsOf self.now token.old }
        requires inside { page < pages_of self.now }

        ensures of { IsOf self.now token.new }
        ensures gained { view token.new ≡ with_page_store (view token.old) (page_store page side) }
    {
        let place = page as usize + PAGE_WORDS;
        let shared = &self.table.shared;
        shared.store::<SetPage>(&mut token.seat, place, Side::page_word(side));
    }

    fn split<D: Share>(&self, token: &mut Token, share: u64) -> Token
        requires picked { share ≡ D.share }
        requires of { IsOf self.now token.old }
        requires share { (1 ≤ share) × (share ≤ (view token.old).left) × (share < (view token.old).quota) }

        ensures of { IsOf self.now token.new × IsOf self.now result }
        ensures kept { view token.new ≡ kept_of share (view token.old) }
        ensures given { view result ≡ given_of share (view token.old) }
    {
        let shared = &self.table.shared;
        let seat = shared.split_seat::<CutShare<D>>(&mut token.seat);
        token.left -= share;
        token.quota -= share;
        Token {
            seat,
            left: share,
            quota: share,
        }
    }

    fn join(&self, token: &mut Token, other: Token)
        requires of { IsOf self.now token.old × IsOf self.now other }

        ensures of { IsOf self.now token.new }
        ensures both { view token.new ≡ both_of (view token.old) (view other) }
    {
        let Token { seat, left, quota } = other;
        let shared = &self.table.shared;
        shared.join_seat::<TakeIn>(&mut token.seat, seat);
        // A join tells nothing. Only the rule knows that the sums are at most 2^47.
        shared.load::<Look>(&mut token.seat, LAST_STAMP);
        token.left += left;
        token.quota += quota;
    }
}
