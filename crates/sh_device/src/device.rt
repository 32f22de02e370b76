//! The device, its passes, and its end.
ghost use Rattle.std.specs.Prelude.{◌≡◌, ◌≢◌, ◌≤◌, ◌<◌, ◌*◌, ◌^◌, [], IfOk};
ghost use Rattle.sh_cells.specs.Views.{all_stamps, kept_of, given_of, both_of};
ghost use Rattle.sh_cells.specs.Passes.{view, log_of, pages_of, IsOf};
ghost use Rattle.sh_cells.specs.Backed.{IsSettled};
ghost use Rattle.sh_parts.specs.declared.entry.JournalKind.TheVariants as kind;
ghost use Rattle.sh_parts.specs.Steps.{IsFront};

use sh_cells::{Cells, DaemonPass, DriverPass, Log};
use sh_parts::{
    DomainState, MessageState, Naming, NewDomain, NewMessages, Note, SharedDomain, SharedMessages,
};
use std::alloc::{AllocError, Global};
use std::marker::Model;
use std::sync::Wait;
use vd_num::SLOT_SIZE;

/// A device that threads share. In contracts it is its cells.
#[derive(Drop)]
pub struct Device<N: Naming> {
    pub(crate) alloc: Global,
    pub(crate) cells: Cells,
    pub(crate) bounce_pages: u64,
    // The bytes of the memory.
    pub(crate) size: u64,
    pub(crate) domain: SharedDomain<N>,
    pub(crate) messages: SharedMessages<N>,
}

impl<N: Naming> Model for Device<N> {
    ghost use Rattle.std.specs.Prelude.{◌≡◌, ◌≤◌, ◌<◌, ◌*◌};
    ghost use Rattle.sh_cells.specs.declared.cells.Cells.{Cells};
    ghost use Rattle.sh_cells.specs.Passes.{pages_of};

    ghost Value = { Cells };

    ghost view = { λ d. d.cells };

    ghost invariant = { λ d. (pages_of d.cells ≡ N.numbers.pages)
        × (d.bounce_pages ≡ N.numbers.bounce)
        × (N.numbers.bounce < N.numbers.pages)
        × (N.numbers.pages ≤ 4096)
        × (d.size ≡ 4096 * pages_of d.cells) };
}

/// A device that has no name yet.
#[derive(Drop)]
pub struct NewDevice {
    alloc: Global,
    pub(crate) cells: Cells,
    bounce_pages: u64,
    size: u64,
    pub(crate) domain: NewDomain,
    pub(crate) messages: NewMessages,
    ghost size_is: { size ≡ 4096 * pages_of cells },
    ghost few: { pages_of cells ≤ 4096 },
    ghost pages_are: { pages_of cells ≡ domain.pages },
    ghost bounce_is: { bounce_pages ≡ domain.bounce },
    ghost fewer: { domain.bounce < domain.pages },
}

/// What a device leaves: the states of its memory and its messages with their journals, and the log
/// of its cells, which takes no memory.
#[derive(Drop)]
pub struct Closed<N: Naming> {
    pub domain: DomainState<N>,
    pub messages: MessageState<N>,
    pub log: Log,
}

impl NewDevice {
    /// A device of so many bounce pages and pages in all, 4,096 bytes each, and its first pass. No
    /// page is present, both journals are empty, and each message that is sent has this timeout, in
    /// seconds and 0 for none. It gets its name by `named`.
    pub fn new(
        alloc: Global,
        bounce_pages: u32,
        pages: u32,
        timeout: u32,
    ) -> Result<(NewDevice, DriverPass), AllocError>
        requires { (2 ≤ bounce_pages) × (bounce_pages < pages) × (pages ≤ 4096) }
        ensures pass { IfOk result (λ r. IsOf r.0.cells r.1 × (view r.1 ≡ all_stamps)) }
        ensures pages { IfOk result (λ r. (r.0.domain.bounce ≡ bounce_pages) × (r.0.domain.pages ≡ pages)) }
        ensures timeout { IfOk result (λ r. r.0.messages.timeout ≡ timeout) }
        ensures empty { IfOk result (λ r. (r.0.domain.entries ≡ []) × (r.0.messages.entries ≡ [])) }
    {
        let domain = SharedDomain::new(alloc, bounce_pages, pages)?;
        let messages = SharedMessages::new(alloc, timeout)?;
        // The cells come last: their pass can't be dropped.
        let (cells, pass) = Cells::new(alloc, pages)?;
        let new = NewDevice {
            alloc,
            cells,
            bounce_pages: u64::from(bounce_pages),
            size: SLOT_SIZE * u64::from(pages),
            domain,
            messages,
        };
        Ok((new, pass))
    }

    /// The device with its name, whose tables and numbers are its own. Its two states, as they are,
    /// lie under their locks.
    pub fn named<N: Naming>(self) -> Device<N>
        requires domain { (self.domain.table ≡ N.domain) × (self.domain.bounce ≡ N.numbers.bounce)
            × (self.domain.pages ≡ N.numbers.pages) }
        requires messages { (self.messages.table ≡ N.messages) × (self.messages.timeout ≡ N.numbers.timeout) }
        ensures cells { result ≡ self.cells }
        ensures pages { pages_of result ≡ N.numbers.pages }
    {
        let NewDevice {
            alloc,
            cells,
            bounce_pages,
            size,
            domain,
            messages,
        } = self;
        Device {
            alloc,
            cells,
            bounce_pages,
            size,
            domain: domain.named(),
            messages: messages.named(),
        }
    }
}

impl<N: Naming> Device<N> {
    /// A new pass of a driver, which gets a share of the stamps that are left and of the quota.
    pub fn split_driver(&self, pass: &mut DriverPass, share: u64) -> DriverPass
        requires of { IsOf self.now pass.old }
        requires share { (1 ≤ share) × (share ≤ (view pass.old).left) × (share < (view pass.old).quota) }

        ensures of { IsOf self.now pass.new × IsOf self.now result }
        ensures kept { view pass.new ≡ kept_of share (view pass.old) }
        ensures given { view result ≡ given_of share (view pass.old) }
    {
        self.cells.split_driver(pass, share)
    }

    /// A new pass of a daemon, which gets a share of the stamps that are left and of the quota.
    pub fn split_daemon(&self, pass: &mut DriverPass, share: u64) -> DaemonPass
        requires of { IsOf self.now pass.old }
        requires share { (1 ≤ share) × (share ≤ (view pass.old).left) × (share < (view pass.old).quota) }

        ensures of { IsOf self.now pass.new × IsOf self.now result }
        ensures kept { view pass.new ≡ kept_of share (view pass.old) }
        ensures given { view result ≡ given_of share (view pass.old) }
    {
        self.cells.split_daemon(pass, share)
    }

    /// Puts another driver's pass into this one.
    pub fn join_driver(&self, pass: &mut DriverPass, other: DriverPass)
        requires of { IsOf self.now pass.old × IsOf self.now other }

        ensures of { IsOf self.now pass.new }
        ensures both { view pass.new ≡ both_of (view pass.old) (view other) }
    {
        self.cells.join_driver(pass, other);
    }

    /// Puts a daemon's pass into this one.
    pub fn join_daemon(&self, pass: &mut DriverPass, other: DaemonPass)
        requires of { IsOf self.now pass.old × IsOf self.now other }

        ensures of { IsOf self.now pass.new }
        ensures both { view pass.new ≡ both_of (view pass.old) (view other) }
    {
        self.cells.join_daemon(pass, other);
    }

    /// Tells of two notes of the domain's journal that their places differ, and that one's list is a
    /// front of the other's. The second is used up.
    pub fn meet_domain(&self, rt: &impl Wait, first: &mut Note<N>, second: Note<N>)
        requires { (first.old.kind ≡ kind.Domain) × (second.kind ≡ kind.Domain) }
        ensures same { first.new ≡ first.old }
        ensures apart { first.old.place ≢ second.place }
        ensures fronts { IsFront first.old.entries second.entries }
    {
        self.domain.state.lock(rt).meet(first, second);
    }

    /// Tells the same of two notes of the messages' journal.
    pub fn meet_messages(&self, rt: &impl Wait, first: &mut Note<N>, second: Note<N>)
        requires { (first.old.kind ≡ kind.Messages) × (second.kind ≡ kind.Messages) }
        ensures same { first.new ≡ first.old }
        ensures apart { first.old.place ≢ second.place }
        ensures fronts { IsFront first.old.entries second.entries }
    {
        self.messages.state.lock(rt).meet(first, second);
    }

    /// Ends the device. The pass has the whole quota, so every other pass was joined, and its view
    /// is the log of all of them. Both states come out of their locks, their journals legal.
    pub fn close(self, pass: DriverPass) -> Closed<N>
        requires of { IsOf self pass }
        requires whole { (view pass).quota ≡ 2 ^ 47 }

        ensures log { log_of result.log ≡ view pass }
        ensures settled { IsSettled (log_of result.log) }
    {
        let Device {
            alloc: _,
            cells,
            bounce_pages: _,
            size: _,
            domain,
            messages,
        } = self;
        let SharedDomain { state, switch: _ } = domain;
        let domain = state.into_inner();
        let SharedMessages { state, woken: _ } = messages;
        let messages = state.into_inner();
        let log = cells.close(pass);
        Closed {
            domain,
            messages,
            log,
        }
    }
}
