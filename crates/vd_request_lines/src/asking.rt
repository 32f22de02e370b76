//! What a line asks of a block device, and why it may not be asked.
ghost use Rattle.std.specs.Prelude.{◌≡◌, ◌+◌, nat_lt};
ghost use Rattle.vd_model.specs.RingTurns.{is_bad_len, made_len, table_len};
ghost use Rattle.vd_model.specs.Creation.{has_feature};
ghost use Rattle.blk_driver.specs.Asked.{asked_in};
ghost use Rattle.vd_request_lines.specs.Asking.{ask_by, range_refused, asked_refusal};

use blk_driver::{Ask, Dir, Want};
use vd_buffers::Buffers;
use vd_model::SubmitForm;
use vd_num::Errno;

/// The feature that lists the parts of a request in a table (`VIRTIO_F_INDIRECT_DESC`).
const INDIRECT_DESC: u32 = 28;

/// How many bytes the name of a device has.
const ID_LEN: u64 = 20;

/// A sector has so many bytes.
const SECTOR: u64 = 512;

/// The most bytes of one request.
const MOST: u64 = 1_048_576;

/// A request's header and its status byte.
const FRONT_LEN: u64 = 17;

/// Whether tables of descriptors were accepted.
pub fn has_indirect(features: u64) -> bool
    ensures { result ≡ has_feature features 28 }
{
    (features >> INDIRECT_DESC) % 2 == 1
}

/// What a form asks.
pub fn ask_of(form: &SubmitForm) -> Ask
    ensures { result ≡ ask_by form.now }
{
    match *form {
        SubmitForm::Read {
            sector,
            buffer,
            offset,
            len,
        } => Ask::Read {
            sector,
            want: Want {
                buffer,
                offset,
                len,
                dir: Dir::From,
            },
        },
        SubmitForm::Write {
            sector,
            buffer,
            offset,
            len,
        } => Ask::Write {
            sector,
            want: Want {
                buffer,
                offset,
                len,
                dir: Dir::To,
            },
        },
        SubmitForm::Flush => Ask::Flush,
        SubmitForm::Id { buffer, offset } => Ask::Id {
            want: Want {
                buffer,
                offset,
                len: ID_LEN,
                dir: Dir::From,
            },
        },
    }
}

/// Whether a request of this kind can't have so many bytes.
fn is_bad_len(ask: &Ask, len: u64) -> bool
    ensures { result ≡ is_bad_len (asked_in ask.now).kind len }
{
    match ask {
        Ask::Id { .. } => false,
        _ => len < SECTOR || len > MOST || len % SECTOR != 0,
    }
}

/// Whether a range ends behind a buffer of this size.
fn is_beyond(size: u64, want: &Want) -> bool
    ensures { result ≡ nat_lt size (want.now.offset + want.now.len) }
{
    want.offset > size || want.len > size - want.offset
}

/// Why a range of a buffer is refused, if it is.
fn range_refusal(size: Option<u64>, ask: &Ask, want: &Want, busy: bool) -> Option<Errno>
    ensures { result ≡ range_refused (asked_in ask.now).kind want.now busy size }
{
    let size = match size {
        Some(size) => size,
        None => return Some(Errno::Noent),
    };
    if busy {
        return Some(Errno::Busy);
    }
    if is_bad_len(ask, want.len) || is_beyond(size, want) {
        return Some(Errno::Inval);
    }
    None
}

/// Why a request is refused for its range, if it has one: there is no such buffer, a pending request made it, or the length
/// or the range is wrong.
pub fn want_refusal(buffers: &Buffers, ask: &Ask, busy: bool) -> Option<Errno>
    ensures { result ≡ asked_refusal buffers.now busy (asked_in ask.now) }
{
    match ask.want() {
        Some(want) => range_refusal(buffers.len_of(want.buffer), ask, &want, busy),
        None => None,
    }
}

/// How many bytes the table of a request's parts has.
pub fn table_len(ask: &Ask) -> u64
    ensures { result ≡ table_len (asked_in ask.now) }
{
    if ask.want().is_some() { 48 } else { 32 }
}

/// How many bytes the buffers of a request have together.
pub fn made_len(ask: &Ask, indirect: bool) -> u64
    ensures { result ≡ made_len indirect (asked_in ask.now) }
{
    if indirect {
        FRONT_LEN + table_len(ask)
    } else {
        FRONT_LEN
    }
}
