//! Memories of three kinds: one that tells its bytes, one that is lent by the thing that it is part of, and one that
//! tells only a span.
ghost use Rattle.std.specs.Prelude.{◌≡◌, Some, None, IfErr, OnOk};
ghost use Rattle.std.specs.Option.{ForSome};
ghost use Rattle.vd_model.specs.Memory.{bytes_from};
ghost use Rattle.vr_split.specs.Mem.{LoadsNumber, IsUnchanged};

use std::alloc::{AllocError, Global};
use std::test::Fail;
use vd_num::Bus;
use vr_split::reach::{load16_in_reach, store16_in_reach};
use vr_split::{Layout, Mem, VecMem, layout_of, need_event};

/// Memory, and a count beside it.
#[derive(Drop)]
struct Board {
    ram: VecMem,
    count: u64,
}

/// The memory of a board.
#[derive(Drop)]
struct BoardMem<'a> {
    board: &'a mut Board,
}

impl<'a> Mem for BoardMem<'a> {
    ghost use Rattle.std.proofs.Common.{refl, ◌∙◌};
    ghost use Rattle.vr_split.specs.MemLemmas.{tells, tells_nothing, IsFinite-bytes_from};

    ghost told = { λ s. Some (bytes_from s.board.now.ram.base s.board.now.ram.bytes.items) };

    ghost span = { λ _. None };

    ghost keeps = { λ s t. (t.board.ghost_name ≡ s.board.ghost_name) × (t.board.now.count ≡ s.board.now.count)
        × (t.board.now.ram.base ≡ s.board.now.ram.base) };

    ghost told_ends = { λ s. tells _ _
        (IsFinite-bytes_from s.board.now.ram.base s.board.now.ram.bytes.items s.board.now.ram.within) };

    ghost span_ends = { λ _. tells_nothing _ };

    ghost keeps_refl = { λ s. (refl, refl, refl) };

    ghost keeps_trans = { λ a b c h g. (g.0 ∙ h.0, g.1 ∙ h.1, g.2 ∙ h.2) };

    fn load(&mut self, at: u64, out: &mut [u8]) -> Result<(), Bus> {
        self.board.ram.load(at, out)
    }

    fn store(&mut self, at: u64, bytes: &[u8]) -> Result<(), Bus> {
        self.board.ram.store(at, bytes)
    }
}

/// Bytes of which nothing is told, but that addresses below 256 are served.
#[derive(Drop)]
struct Quiet {
    bytes: [u8; 256],
}

impl Mem for Quiet {
    ghost use Rattle.std.proofs.Common.{lit<};
    ghost use Rattle.vr_split.specs.MemLemmas.{tells, tells_nothing};

    ghost told = { λ _. None };

    ghost span = { λ _. Some (record { start = 0; last = 255 }) };

    ghost keeps = { λ _ _. Unit {0} };

    ghost told_ends = { λ _. tells_nothing _ };

    ghost span_ends = { λ _. tells _ _ (lit< tt) };

    ghost keeps_refl = { λ _. tt };

    ghost keeps_trans = { λ _ _ _ _ _. tt };

    fn load(&mut self, at: u64, out: &mut [u8]) -> Result<(), Bus> {
        let n = out.len();
        if at > 256 || n as u64 > 256 - at {
            return Err(Bus { at });
        }
        let i = at as usize;
        out.copy_from_slice(&self.bytes[i..i + n]);
        Ok(())
    }

    fn store(&mut self, at: u64, bytes: &[u8]) -> Result<(), Bus> {
        let n = bytes.len();
        if at > 256 || n as u64 > 256 - at {
            return Err(Bus { at });
        }
        let i = at as usize;
        self.bytes[i..i + n].copy_from_slice(bytes);
        Ok(())
    }
}

/// Loads a number twice, through any memory.
fn twice<M: Mem>(mem: &mut M, at: u64) -> Result<u16, Bus>
    ensures loads { ForSome (M.told mem.old) (λ m. LoadsNumber m at result) }
    ensures memory { IsUnchanged M.told M.span M.keeps mem.old mem.new }
{
    mem.load16(at)?;
    mem.load16(at)
}

/// The same of a board, which stays as it is.
fn twice_on_board(board: &mut Board, at: u64) -> Result<u16, Bus>
    ensures loads { LoadsNumber (bytes_from board.old.ram.base board.old.ram.bytes.items) at result }
    ensures count { board.new.count ≡ board.old.count }
    ensures base { board.new.ram.base ≡ board.old.ram.base }
    ensures bytes { bytes_from board.new.ram.base board.new.ram.bytes.items
        ≡ bytes_from board.old.ram.base board.old.ram.bytes.items }
{
    let mut mem = BoardMem { board };
    twice(&mut mem, at)
}

#[test]
fn tells_bytes(rt: HostRuntime) -> Result<(), Fail> {
    let alloc = rt.alloc();
    let mut mem = VecMem::new(4096, vec![in alloc; 0; 6]?);
    mem.store(4096, &[1, 2, 3])?;
    mem.store16(4099, 0x504)?;
    let mut bytes = [9; 4];
    mem.load(4098, &mut bytes)?;
    assert_eq!(rt; bytes, [3, 4, 5, 0]);
    assert_eq!(rt; mem.load16(4097), Ok(0x302));
    for (at, missing) in [
        (4095, 4095),
        (4101, 4102),
        (4102, 4102),
        (u64::MAX, u64::MAX),
    ] {
        assert_eq!(rt; mem.load16(at), Err(Bus { at: missing }));
        assert_eq!(rt; mem.store16(at, 7), Err(Bus { at: missing }));
    }
    let mut board = Board { ram: mem, count: 3 };
    assert_eq!(rt; twice_on_board(&mut board, 4097), Ok(0x302));
    assert_eq!(rt; board.count, 3);
    Ok(())
}

#[test]
fn tells_a_span(rt: HostRuntime) {
    let mut mem = Quiet { bytes: [0; 256] };
    store16_in_reach(&mut mem, 254, 0x102);
    assert_eq!(rt; load16_in_reach(&mut mem, 254), 0x102);
    assert_eq!(rt; twice(&mut mem, 255), Err(Bus { at: 255 }));
}

#[test]
fn needs_events(rt: HostRuntime) {
    for (event, new, old, need) in [(65535, 0, 65535, true), (5, 6, 5, true), (4, 6, 5, false)] {
        assert_eq!(rt; need_event(event, new, old), need, "at {event}");
    }
}

#[test]
fn lays_out(rt: HostRuntime) {
    let four = Layout {
        driver_at: 0x40,
        device_at: 0x50,
        bytes: 118,
    };
    assert_eq!(rt; layout_of(4), four);
}
