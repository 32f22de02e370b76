//! Walks over a ring of four descriptors at 0x7fff000, and what the definition of the trace says of the same ring.
ghost use Rattle.std.specs.Prelude.{◌≡◌, [], ◌∷◌, false};
ghost use Rattle.vd_model.specs.Trace.{whole, ending_of};
ghost use Rattle.vd_model.specs.declared.answer.ChainKind.TheVariants.{Head, Loop, Next, Order, Shape};
ghost use Rattle.vr_rows.specs.Rows.{row_memory, row_start, IsFaulty};

use std::alloc::Global;
use std::test::Fail;
use vr_chain::{ChainFault, ChainKind, WalkError, walk};
use vr_split::{RingPlace, VecMem};

/// What the definition says of a ring's first descriptor, the others being zero.
fn by_definition()
    ensures round { IsFaulty (0 ∷ 240 ∷ 255 ∷ 3 ∷ 0 ∷ 0 ∷ 0 ∷ 0 ∷ 16 ∷ 0 ∷ 0 ∷ 0 ∷ 1 ∷ 0 ∷ 0 ∷ 0 ∷
        []) 0 Loop 0 }
    ensures head { IsFaulty (0 ∷ 240 ∷ 255 ∷ 3 ∷ 0 ∷ 0 ∷ 0 ∷ 0 ∷ 16 ∷ 0 ∷ 0 ∷ 0 ∷ 1 ∷ 0 ∷ 0 ∷ 0 ∷
        []) 4 Head 4 }
    ensures next { IsFaulty (0 ∷ 240 ∷ 255 ∷ 3 ∷ 0 ∷ 0 ∷ 0 ∷ 0 ∷ 16 ∷ 0 ∷ 0 ∷ 0 ∷ 1 ∷ 0 ∷ 4 ∷ 0 ∷
        []) 0 Next 0 }
    ensures shape { IsFaulty (0 ∷ 240 ∷ 255 ∷ 3 ∷ 0 ∷ 0 ∷ 0 ∷ 0 ∷ 24 ∷ 0 ∷ 0 ∷ 0 ∷ 4 ∷ 0 ∷ 0 ∷ 0 ∷
        []) 0 Shape 0 }
    ensures order { IsFaulty (0 ∷ 240 ∷ 255 ∷ 3 ∷ 0 ∷ 0 ∷ 0 ∷ 0 ∷ 16 ∷ 0 ∷ 0 ∷ 0 ∷ 3 ∷ 0 ∷ 1 ∷ 0 ∷
        []) 0 Order 1 }
    ensures chain { ending_of (row_start 0)
        (row_memory (0 ∷ 240 ∷ 255 ∷ 3 ∷ 0 ∷ 0 ∷ 0 ∷ 0 ∷ 16 ∷ 0 ∷ 0 ∷ 0 ∷ 0 ∷ 0 ∷ 0 ∷ 0 ∷ []))
        ≡ whole (record {
          head = 0;
          parts = record { at = 67104768; len = 16; writable = false } ∷ [];
          readable = 16;
          writable = 0;
        }) }
{}

const BASE: u64 = 0x7fff000;

/// How many parts a walk finds, and its readable and writable bytes. The ring has four descriptors, those not given
/// are zero, and a table of up to four more stands behind it.
fn outcome(
    alloc: Global,
    ring: &[u8],
    table: &[u8],
    head: u16,
) -> Result<(usize, u64, u64), WalkError> {
    let mut bytes = Vec::new(alloc);
    bytes.extend_from_slice(ring)?;
    bytes.resize(64, 0)?;
    bytes.extend_from_slice(table)?;
    bytes.truncate(128);
    let mut mem = VecMem::new(BASE, bytes);
    let ring = RingPlace {
        size: 4,
        desc: BASE,
        driver: BASE + 0x40,
        device: BASE + 0x50,
    };
    let chain = walk(alloc, &mut mem, &ring, head, true)?;
    Ok((chain.parts.as_slice().len(), chain.readable, chain.writable))
}

fn fault(kind: ChainKind, table: u8, index: u32) -> Result<(usize, u64, u64), WalkError> {
    Err(WalkError::Fault(ChainFault { kind, table, index }))
}

#[test]
fn walks_a_ring(rt: HostRuntime) -> Result<(), Fail> {
    let alloc = rt.alloc();
    let looped = [0, 0xf0, 0xff, 3, 0, 0, 0, 0, 0x10, 0, 0, 0, 1, 0, 0, 0];
    let beyond = [0, 0xf0, 0xff, 3, 0, 0, 0, 0, 0x10, 0, 0, 0, 1, 0, 4, 0];
    let misshapen = [0, 0xf0, 0xff, 3, 0, 0, 0, 0, 0x18, 0, 0, 0, 4, 0, 0, 0];
    let disordered = [0, 0xf0, 0xff, 3, 0, 0, 0, 0, 0x10, 0, 0, 0, 3, 0, 1, 0];
    let long = [0, 0xf0, 0xff, 3, 0, 0, 0, 0, 1, 0, 0, 1, 0, 0, 0, 0];
    let single = [0, 0xf0, 0xff, 3, 0, 0, 0, 0, 0x10, 0, 0, 0, 0, 0, 0, 0];
    let rows = [
        (looped, 0, fault(ChainKind::Loop, 0, 0)),
        (looped, 4, fault(ChainKind::Head, 0, 4)),
        (beyond, 0, fault(ChainKind::Next, 0, 0)),
        (misshapen, 0, fault(ChainKind::Shape, 0, 0)),
        (disordered, 0, fault(ChainKind::Order, 0, 1)),
        (long, 0, fault(ChainKind::Long, 0, 0)),
        (single, 0, Ok((1, 16, 0))),
    ];
    for (ring, head, want) in rows {
        assert_eq!(rt; outcome(alloc, &ring, &[], head), want, "at {ring:?}");
    }
    Ok(())
}

#[test]
fn walks_a_table(rt: HostRuntime) -> Result<(), Fail> {
    let alloc = rt.alloc();
    let ring = [0x40, 0xf0, 0xff, 7, 0, 0, 0, 0, 0x20, 0, 0, 0, 4, 0, 0, 0];
    let mut table = [
        0, 0, 1, 0, 0, 0, 0, 0, 8, 0, 0, 0, 1, 0, 1, 0, //
        0, 0, 2, 0, 0, 0, 0, 0, 9, 0, 0, 0, 2, 0, 0, 0,
    ];
    assert_eq!(rt; outcome(alloc, &ring, &table, 0), Ok((2, 8, 9)));
    table[28] = 1;
    assert_eq!(rt;
        outcome(alloc, &ring, &table, 0),
        fault(ChainKind::Loop, 1, 1)
    );
    assert_eq!(rt;
        outcome(alloc, &ring, &ring, 0),
        fault(ChainKind::Nested, 1, 0)
    );
    let missing = Err(WalkError::Bus { at: 0x7fff058 });
    assert_eq!(rt; outcome(alloc, &ring, &table[..24], 0), missing);
    Ok(())
}
