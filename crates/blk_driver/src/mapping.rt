//! Mapping what a request has in the driver's buffers.
ghost use Rattle.std.specs.Prelude.{◌≡◌, ◌≢◌, ◌+◌, ◌<◌, ◌^◌, ◌==◌, ◌++◌, List, length, true, false, Err, IfOk, OnOk};
ghost use Rattle.std.specs.List.{list_any};
ghost use Rattle.vd_model.specs.Setting.{Setting};
ghost use Rattle.vd_model.specs.Acts.{Act};
ghost use Rattle.vr_split.specs.Mem.{IsUnchanged};
ghost use Rattle.blk_driver.specs.Asked.{IsAsked, wants_of};
ghost use Rattle.blk_driver.specs.Buffers.{bytes_of, wanted_bytes};
ghost use Rattle.blk_driver.specs.Mapped.{AreThere, Maps};

use crate::ask::Draft;
use crate::dma::Dma;
use std::alloc::{AllocError, Global};
use vd_model::{MapError, Want};
use vd_num::Bytes;

/// Appends the bytes of ranges of buffers, one after another.
fn copy_all<P: Dma>(port: &P, wants: &[Want], bytes: &mut Bytes) -> Result<(), AllocError>
    ensures len { OnOk result (length bytes.new ≡ length bytes.old + bytes_of wants.now) }
    ensures bytes { (x : Setting) (acts : List Act) → P.stands port.now x acts → AreThere acts wants.now →
        OnOk result (bytes.new ≡ bytes.old ++ wanted_bytes x.per_page acts wants.now) }
{
    let (want, wants) = match wants.split_first() {
        Some(parts) => parts,
        None => return Ok(()),
    };
    match port.copy(want, bytes) {
        Ok(()) => copy_all(port, wants, bytes),
        Err(AllocError) => Err(AllocError),
    }
}

/// Maps ranges of buffers, all of them or none, and answers the first number.
fn map_wants<P: Dma>(alloc: Global, port: &mut P, wants: &[Want]) -> Result<u64, MapError>
    requires some { 0 < length wants.now }
    requires full { list_any (λ w. w.len == 0) wants.now ≡ false }
    ensures maps { Maps P.stands port.old wants.now result port.new }
    ensures room { IfOk result (λ number. number + length wants.now < 2 ^ 64) }
    ensures never_empty { result ≢ Err MapError.Empty }
    ensures memory { IsUnchanged P.told P.span P.keeps_rest port.old port.new }
{
    let mut bytes = Bytes::new(alloc);
    match copy_all(port, wants, &mut bytes) {
        Ok(()) => port.map_all(wants, bytes.as_slice()),
        Err(AllocError) => Err(MapError::Memory),
    }
}

/// Maps what a request has in the driver's buffers, and answers the first number.
pub fn map_request<P: Dma>(alloc: Global, port: &mut P, draft: &Draft) -> Result<u64, MapError>
    requires asked { IsAsked draft.now.ask }
    requires buffer { draft.now.buffer + 1 < 2 ^ 64 }
    ensures maps { Maps P.stands port.old (wants_of draft.now) result port.new }
    ensures room { IfOk result (λ number. number + length (wants_of draft.now) < 2 ^ 64) }
    ensures never_empty { result ≢ Err MapError.Empty }
    ensures memory { IsUnchanged P.told P.span P.keeps_rest port.old port.new }
{
    let header = draft.header_want();
    let status = draft.status_want();
    let table = draft.table_want();
    match (draft.ask.want(), draft.indirect) {
        (Some(want), true) => map_wants(alloc, port, &[header, want, status, table]),
        (Some(want), false) => map_wants(alloc, port, &[header, want, status]),
        (None, true) => map_wants(alloc, port, &[header, status, table]),
        (None, false) => map_wants(alloc, port, &[header, status]),
    }
}
