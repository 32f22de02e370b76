//! The registration of the bounce memory: its pages go to their second sides, and come back.
ghost use Rattle.std.specs.Prelude.{◌≡◌, ◌≤◌, ◌<◌, ◌+◌, ◌*◌, ◌%◌, ◌∷◌, [], ℕ, List, replicate, length, take, Some, IfOk, OnOk, OnErr};
ghost use Rattle.sh_cells.specs.declared.word.Side.TheVariants as side;
ghost use Rattle.sh_cells.specs.declared.word.Word.{Word};
ghost use Rattle.sh_cells.specs.Passes.{view, pages_of, IsOf};
ghost use Rattle.sh_cells.specs.Views.{entry, with_entry};
ghost use Rattle.sh_parts.specs.declared.entry.DomainStep.TheVariants as step;
ghost use Rattle.sh_device.specs.Spans.{GoesOn, Moves, Switches, with_copies};
ghost use Rattle.sh_device.specs.Calls.{IsDomainNote, Deregisters, done_answer};

use crate::device::Device;
use crate::held::Noted;
use crate::journals::{deregister_step, domain_step};
use crate::span::{ZEROS, write_on};
use sh_cells::{Cells, DriverPass, Kind, Side, Word};
use sh_parts::{DomainAnswer, DomainStep, Errno, Naming};
use std::alloc::AllocError;
use std::sync::Wait;
use vd_num::SLOT_SIZE;

impl<N: Naming> Device<N> {
    /// Registers the bounce memory: each of its pages is copied to its second side, or cleared there
    /// if it is absent, and made present on it. `Exist` where it is registered already. No mapping is
    /// made or taken back meanwhile; a store that a daemon makes meanwhile may stay behind.
    pub fn register(
        &self,
        rt: &impl Wait,
        pass: &mut DriverPass,
    ) -> Result<Noted<Result<(), Errno>, N>, AllocError>
        requires of { IsOf self.now pass.old }
        requires left { N.numbers.bounce ≤ (view pass.old).left }

        ensures of { IsOf self.now pass.new }
        ensures goes { GoesOn (view pass.old) (view pass.new) }
        ensures noted { IfOk result (λ n. IsDomainNote N.numbers n.note step.Register (done_answer n.value)) }
        ensures switches { IfOk result
            (λ n. OnOk n.value (Switches (view pass.old) 0
            (replicate N.numbers.bounce (Some side.Second)) (view pass.new))) }
        ensures refused { IfOk result (λ n. OnErr n.value (view pass.new ≡ view pass.old)) }
        ensures same { OnErr result (view pass.new ≡ view pass.old) }
    {
        let _switch = self.domain.switch.write(rt);
        let Noted { value, note } = domain_step(rt, &self.domain, DomainStep::Register)?;
        if let DomainAnswer::Err(errno) = value {
            let value = Err(errno);
            return Ok(Noted { value, note });
        }
        adopt_pages(&self.cells, pass, self.bounce_pages);
        let value = Ok(());
        Ok(Noted { value, note })
    }

    /// Ends the registration: each bounce page that a live mapping has is copied back to its first
    /// side and made present there, and the others become absent. `Noent` where nothing is
    /// registered. A store that a daemon makes meanwhile may stay behind.
    pub fn deregister(
        &self,
        rt: &impl Wait,
        pass: &mut DriverPass,
    ) -> Result<Noted<Result<(), Errno>, N>, AllocError>
        requires of { IsOf self.now pass.old }
        requires left { N.numbers.bounce ≤ (view pass.old).left }

        ensures of { IsOf self.now pass.new }
        ensures goes { GoesOn (view pass.old) (view pass.new) }
        ensures noted { IfOk result
            (λ n. IsDomainNote N.numbers n.note step.Deregister (done_answer n.value)) }
        ensures switches { IfOk result
            (λ n. OnOk n.value (Deregisters N.numbers n.note.entries (view pass.old)
            (view pass.new))) }
        ensures refused { IfOk result (λ n. OnErr n.value (view pass.new ≡ view pass.old)) }
        ensures same { OnErr result (view pass.new ≡ view pass.old) }
    {
        let _switch = self.domain.switch.write(rt);
        let count = self.bounce_pages;
        let mut sides = [None; 4096];
        let Noted { value, note } = deregister_step(rt, &self.domain, count, &mut sides)?;
        if let DomainAnswer::Err(errno) = value {
            let value = Err(errno);
            return Ok(Noted { value, note });
        }
        switch_pages(&self.cells, pass, count, &sides);
        let value = Ok(());
        Ok(Noted { value, note })
    }
}

/// Brings each of so many pages to its second side.
fn adopt_pages(cells: &Cells, pass: &mut DriverPass, count: u64)
    requires of { IsOf cells.now pass.old }
    requires left { count ≤ (view pass.old).left }
    requires inside { (count ≤ pages_of cells.now) × (count ≤ 4096) }

    ensures of { IsOf cells.now pass.new }
    ensures switches { Switches (view pass.old) 0 (replicate count (Some side.Second)) (view pass.new) }
{
    let sides = [Some(Side::Second); 4096];
    switch_pages(cells, pass, count, &sides);
}

/// Brings each of so many pages to the side that it is to lie on, or makes it absent.
fn switch_pages(cells: &Cells, pass: &mut DriverPass, count: u64, sides: &[Option<Side>])
    requires of { IsOf cells.now pass.old }
    requires left { count ≤ (view pass.old).left }
    requires inside { (count ≤ pages_of cells.now) × (count ≤ length sides.now) }

    ensures of { IsOf cells.now pass.new }
    ensures switches { Switches (view pass.old) 0 (take count sides.now) (view pass.new) }
{
    let mut page = 0;
    while page < count {
        switch_page(cells, pass, page, sides[page as usize]);
        page += 1;
    }
}

/// Brings a page to the side that it is to lie on, or makes it absent.
fn switch_page(cells: &Cells, pass: &mut DriverPass, page: u64, side: Option<Side>)
    requires of { IsOf cells.now pass.old }
    requires left { 1 ≤ (view pass.old).left }
    requires inside { page < pages_of cells.now }

    ensures of { IsOf cells.now pass.new }
    ensures switches { Switches (view pass.old) page (side ∷ []) (view pass.new) }
    ensures left { (view pass.old).left ≤ (view pass.new).left + 1 }
{
    if let Some(to) = side {
        let found = cells.page(pass, page as u32);
        move_page(cells, pass, page, found, to);
    }
    cells.set_page(pass, page as u32, side);
}

/// Copies a page from the side on which it was found, or clears it if it was absent.
fn move_page(cells: &Cells, pass: &mut DriverPass, page: u64, found: Option<Side>, to: Side)
    requires of { IsOf cells.now pass.old }
    requires left { 1 ≤ (view pass.old).left }
    requires inside { page < pages_of cells.now }

    ensures of { IsOf cells.now pass.new }
    ensures moves { Moves (view pass.old) page found to (view pass.new) }
    ensures left { (view pass.old).left ≤ (view pass.new).left + 1 }
{
    match found {
        Some(from) => copy_page(cells, pass, page, from, to),
        None => {
            write_on(
                cells,
                pass,
                &[Some(to)],
                Kind::Zero,
                SLOT_SIZE * page,
                &ZEROS,
            );
        }
    }
}

/// Copies the words of a page from one side to the other. In place of a word that nothing wrote it
/// puts one of a zero entry of its own.
fn copy_page(cells: &Cells, pass: &mut DriverPass, page: u64, from: Side, to: Side)
    requires of { IsOf cells.now pass.old }
    requires left { 1 ≤ (view pass.old).left }
    requires inside { page < pages_of cells.now }

    ensures of { IsOf cells.now pass.new }
    ensures copies { (stamp : ℕ) × (words : List Word) × (length words ≡ 2048)
        × (view pass.new ≡ with_copies (view pass.old) stamp from to page words) }
{
    let first = SLOT_SIZE * page;
    let stamp = cells.draw(pass, Kind::Zero, first, &ZEROS);
    let mut i = 0;
    while i < SLOT_SIZE {
        let word = cells.load_side(pass, from, first + i);
        if word.stamp == 0 {
            let zero = Word {
                stamp,
                bytes: [0, 0],
            };
            cells.put(pass, to, first + i, zero);
        } else {
            cells.copy(pass, to, first + i, word);
        }
        i += 2;
    }
}
