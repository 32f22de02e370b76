//! The request in hand.
ghost use Rattle.std.specs.Prelude.{◌≡◌, ◌<◌, ◌≤◌, ◌+◌, Some, None, false, vec_len, length, drop, ℕ, is_some, IfSome};
ghost use Rattle.vd_model.specs.Queues.{Execution};
ghost use Rattle.vd_model.specs.Block.{block_of};
ghost use Rattle.vd_model.specs.declared.parts.Chain.{Chain};
ghost use Rattle.blk_daemon.specs.Held.{InHand, IsSound, chain_in, hand_with};
ghost use Rattle.blk_daemon.specs.Executed.{Executes};
ghost use Rattle.blk_daemon.specs.Fetched.{Shows};
ghost use Rattle.blk_daemon.specs.Finished.{answer_bytes};
ghost use Rattle.vd_model.specs.Trace.{writable_len};

use crate::disk::{Device, Executed, execute, header_of};
use blk_proto::Header;
use std::marker::Model;
use vd_io::Image;
use vd_model::Chain;

/// What was fetched: the head of its chain, its header, and how many bytes the device writes.
#[derive(Clone, Copy, Debug, PartialEq, Eq)]
pub struct Fetched {
    pub head: u16,
    pub header: Header,
    pub writable: u64,
}

/// A request that was fetched.
#[derive(Drop)]
pub struct Request {
    chain: Chain,
    /// What the device reads: the header and the payload.
    bytes: Vec<u8>,
    /// What the device writes: the answer's bytes and the status, zeros until it is executed.
    answer: Vec<u8>,
    is_executed: bool,
}

impl Model for Request {
    ghost use Rattle.blk_daemon.specs.Held.{InHand, IsSound, hand_with, outcome_of};

    ghost Value = { InHand };

    ghost view = { λ r. record {
      hand = hand_with r.chain r.bytes.items;
      outcome = outcome_of r.is_executed r.answer.items;
    } };

    ghost invariant = { λ r. IsSound r.chain r.bytes.items r.answer.items r.is_executed };
}

impl Request {
    /// A request of which nothing was written yet.
    pub fn new(chain: Chain, bytes: Vec<u8>, answer: Vec<u8>) -> Request
        requires { IsSound chain bytes.items answer.items false }
        ensures { result ≡ record { hand = hand_with chain bytes.items; outcome = None } }
    {
        Request {
            chain,
            bytes,
            answer,
            is_executed: false,
        }
    }

    pub fn chain(&self) -> &Chain
        ensures { result.now ≡ chain_in self.now.hand }
    {
        &self.chain
    }

    pub fn fetched(&self) -> Fetched
        ensures { Shows self.now.hand result }
    {
        Fetched {
            head: self.chain.head,
            header: header_of(&self.bytes),
            writable: self.chain.writable,
        }
    }

    /// What the device reads behind the header.
    pub fn payload(&self) -> &[u8]
        ensures { result.now ≡ drop 16 self.now.hand.bytes }
    {
        &self.bytes[Header::LEN..]
    }

    pub fn is_executed(&self) -> bool
        ensures { result ≡ is_some self.now.outcome }
    {
        self.is_executed
    }

    /// How many bytes the device writes.
    pub fn len(&self) -> u32
        ensures { result ≡ self.now.hand.writable }
    {
        self.chain.writable as u32
    }

    /// What the device writes.
    pub fn answer(&self) -> &[u8]
        ensures len { length result.now ≡ writable_len self.now.hand.parts }
        ensures bytes { IfSome self.now.outcome (λ end. result.now ≡ answer_bytes end) }
    {
        self.answer.as_slice()
    }

    /// Carries it out, and answers how it ended.
    pub fn execute<I: Image>(&mut self, disk: &mut I, device: &Device) -> Executed
        requires fresh { self.old.outcome ≡ None }
        requires window { device.now.window.first + device.now.window.count ≤ I.size disk.old }
        ensures executed { (end : Execution) × (self.new ≡ record self.old { outcome = Some end })
            × (result.status ≡ end.status)
            × Executes I.content I.faults I.flushes device.now.window device.now.offered device.now.name.now
            (block_of self.old.hand.bytes self.old.hand.writable) result.failed disk.old disk.new end }
        ensures size { I.size disk.new ≡ I.size disk.old }
    {
        let executed = execute(disk, device, &self.bytes, &mut self.answer);
        self.is_executed = true;
        executed
    }
}
