//! Rows of pages, each with a frame or none: their bytes one after another.

ghost use Rattle.std.specs.Prelude.{◌≡◌, ◌+◌, ◌-◌, ◌*◌, ◌/◌, ◌%◌, ◌<◌, ◌≤◌, ◌^◌, ◌==◌, ◌||◌, ◌&&◌, not, is_some, ℕ, length, slice_index, if◌then◌else◌, IfOk, None, replicate, slice_index_or, true, false};
ghost use Rattle.vd_num.specs.Number.{is_within};
ghost use Rattle.vd_pool.specs.Memory.{frame_size, is_out, byte_of};
ghost use Rattle.vd_bounce.specs.Frames.{frame_of, frame_byte, held_count, Holds, Keeps, Reaches};

use std::alloc::{AllocError, Global};
use vd_num::SLOT_SIZE;
use vd_pool::{Frame, Pool};

/// The page of an address, where pages have `size` bytes. A page of 1 or 16 slots is found by a shift.
pub fn page_of(size: usize, at: usize) -> usize
    requires { 0 < size }
    ensures { result ≡ at / size }
{
    if size == SLOT_SIZE as usize {
        at / SLOT_SIZE as usize
    } else if size == 16 * SLOT_SIZE as usize {
        at / (16 * SLOT_SIZE as usize)
    } else {
        at / size
    }
}

/// Where an address lies in its page.
pub fn offset_in(size: usize, at: usize) -> usize
    requires { 0 < size }
    ensures { result ≡ at % size }
{
    if size == SLOT_SIZE as usize {
        at % SLOT_SIZE as usize
    } else if size == 16 * SLOT_SIZE as usize {
        at % (16 * SLOT_SIZE as usize)
    } else {
        at % size
    }
}

/// Writes bytes from an address on, a page at a time.
pub fn put(frames: &[Option<Frame>], pool: &mut Pool, size: usize, at: usize, bytes: &[u8])
    requires holds { Holds frames.now pool.old }
    requires some { 0 < size }
    requires size { frame_size pool.old ≡ size }
    requires reaches { Reaches size frames.now at (length bytes.now) }
    requires end { at + length bytes.now < 2 ^ 63 }
    ensures kept { Keeps frames.now frames.now pool.old pool.new }
    ensures bytes { (a : ℕ) → frame_byte size frames.now pool.new a
        ≡ (if is_within at (length bytes.now) a then slice_index bytes.now
        (a - at) else frame_byte size frames.now pool.old a) }
    ensures spare { pool.new.spare ≡ pool.old.spare }
{
    let mut done = 0;
    while done < bytes.len() {
        let from = offset_in(size, at + done);
        let n = (size - from).min(bytes.len() - done);
        match &frames[page_of(size, at + done)] {
            Some(frame) => pool.write(frame, from, &bytes[done..done + n]),
            None => unreachable!(),
        }
        done += n;
    }
}

/// Fills a slice with the bytes from an address on, a page at a time.
pub fn get(frames: &[Option<Frame>], pool: &Pool, size: usize, at: usize, out: &mut [u8])
    requires holds { Holds frames.now pool.now }
    requires some { 0 < size }
    requires size { frame_size pool.now ≡ size }
    requires reaches { Reaches size frames.now at (length out.old) }
    requires end { at + length out.old < 2 ^ 63 }
    ensures { (i : ℕ) → i < length out.old →
        slice_index out.new i ≡ frame_byte size frames.now pool.now (at + i) }
{
    let mut done = 0;
    while done < out.len() {
        let from = offset_in(size, at + done);
        let n = (size - from).min(out.len() - done);
        match &frames[page_of(size, at + done)] {
            Some(frame) => read_part(pool, frame, from, out, done, n),
            None => unreachable!(),
        }
        done += n;
    }
}

/// Fills the `n` bytes of a slice from `at` on with a frame's bytes from `from` on.
fn read_part(pool: &Pool, frame: &Frame, from: usize, out: &mut [u8], at: usize, n: usize)
    requires out { is_out pool.now frame.now ≡ true }
    requires inside { from + n ≤ frame_size pool.now }
    requires room { at + n ≤ length out.old }
    ensures { (i : ℕ) → slice_index out.new i
        ≡ (if is_within at n i then byte_of pool.now frame.now (from + (i - at)) else slice_index out.old i) }
{
    pool.read(frame, from, &mut out[at..at + n]);
}

/// Gives a page a frame of zeros, if it has none.
pub fn ensure(frames: &mut [Option<Frame>], pool: &mut Pool, page: usize)
    requires holds { Holds frames.old pool.old }
    requires page { page < length frames.old }
    requires spare { 0 < pool.old.spare }
    ensures kept { Keeps frames.old frames.new pool.old pool.new }
    ensures bytes { (size a : ℕ) →
        frame_byte size frames.new pool.new a ≡ frame_byte size frames.old pool.old a }
    ensures present { (p : ℕ) →
        is_some (frame_of frames.new p) ≡ ((p == page) || is_some (frame_of frames.old p)) }
    ensures spare { pool.old.spare ≤ pool.new.spare + 1 }
{
    if frames[page].is_none() {
        let frame = pool.take();
        match frames[page].replace(frame) {
            Some(_old) => unreachable!(),
            None => {}
        }
    }
}

/// Gives the frame of a page back, if it has one.
pub fn drop_page(frames: &mut [Option<Frame>], pool: &mut Pool, page: usize)
    requires holds { Holds frames.old pool.old }
    requires page { page < length frames.old }
    ensures kept { Keeps frames.old frames.new pool.old pool.new }
    ensures bytes { (size a : ℕ) →
        frame_byte size frames.new pool.new a
        ≡ (if a / size == page then 0 else frame_byte size frames.old pool.old a) }
    ensures present { (p : ℕ) →
        is_some (frame_of frames.new p) ≡ (not (p == page) && is_some (frame_of frames.old p)) }
{
    match frames[page].take() {
        Some(frame) => pool.give(frame),
        None => {}
    }
}

/// So many pages with no frame.
pub fn none(alloc: Global, n: usize) -> Result<Vec<Option<Frame>>, AllocError>
    ensures { IfOk result (λ v. v.items ≡ replicate n None) }
{
    let mut frames = Vec::with_capacity(alloc, n)?;
    for _i in 0..n {
        match frames.push(None) {
            Ok(()) => {}
            Err(_e) => unreachable!(),
        }
    }
    Ok(frames)
}

/// Gives every frame back and ends the row.
pub fn discard(mut frames: Vec<Option<Frame>>, pool: &mut Pool)
    requires holds { Holds frames.items pool.old }
    ensures kept { Keeps frames.items (replicate 0 None) pool.old pool.new }
    ensures back { pool.new.spare ≡ pool.old.spare + held_count frames.items }
{
    while let Some(slot) = frames.pop() {
        match slot {
            Some(frame) => pool.give(frame),
            None => {}
        }
    }
    frames.destroy_empty();
}

/// Copies a whole page to its place in the area, from `from` on.
fn copy_out(
    frames: &[Option<Frame>],
    pool: &Pool,
    size: usize,
    page: usize,
    area: &mut [u8],
    from: usize,
)
    requires holds { Holds frames.now pool.now }
    requires some { 0 < size }
    requires size { frame_size pool.now ≡ size }
    requires there { is_some (frame_of frames.now page) ≡ true }
    requires page { page < length frames.now }
    requires room { from + size * page + size ≤ length area.old }
    ensures { (o : ℕ) → slice_index area.new o
        ≡ (if is_within (from + size * page) size o then frame_byte size frames.now pool.now
        (o - from) else slice_index area.old o) }
{
    let start = from + size * page;
    match &frames[page] {
        Some(frame) => read_part(pool, frame, 0, area, start, size),
        None => unreachable!(),
    }
}

/// Copies a whole page from its place in the area, from `from` on.
fn copy_in(
    frames: &[Option<Frame>],
    pool: &mut Pool,
    size: usize,
    page: usize,
    area: &[u8],
    from: usize,
)
    requires holds { Holds frames.now pool.old }
    requires some { 0 < size }
    requires size { frame_size pool.old ≡ size }
    requires there { is_some (frame_of frames.now page) ≡ true }
    requires page { page < length frames.now }
    requires room { from + size * page + size ≤ length area.now }
    ensures kept { Keeps frames.now frames.now pool.old pool.new }
    ensures bytes { (a : ℕ) → frame_byte size frames.now pool.new a
        ≡ (if a / size == page then slice_index area.now (from + a) else frame_byte size frames.now pool.old a) }
{
    let start = from + size * page;
    match &frames[page] {
        Some(frame) => pool.write(frame, 0, &area[start..start + size]),
        None => unreachable!(),
    }
}

/// Copies the pages in use to the area, from `from` on, and gives the frames of the others back.
pub fn adopt(
    frames: &mut [Option<Frame>],
    pool: &mut Pool,
    size: usize,
    area: &mut [u8],
    from: usize,
    in_use: &[bool],
)
    requires holds { Holds frames.old pool.old }
    requires some { 0 < size }
    requires size { frame_size pool.old ≡ size }
    requires each { length in_use.now ≡ length frames.old }
    requires used { (p : ℕ) → slice_index_or in_use.now p false ≡ true →
        is_some (frame_of frames.old p) ≡ true }
    requires room { from + size * length frames.old ≤ length area.old }
    ensures kept { Keeps frames.old frames.new pool.old pool.new }
    ensures bytes { (a : ℕ) → frame_byte size frames.new pool.new a
        ≡ (if slice_index_or in_use.now (a / size) false then frame_byte size frames.old pool.old a else 0) }
    ensures area { (o : ℕ) → slice_index area.new o
        ≡ (if is_within from (size * length frames.old) o && slice_index_or in_use.now ((o - from) / size) false
        then frame_byte size frames.old pool.old (o - from) else slice_index area.old o) }
    ensures present { (p : ℕ) → is_some (frame_of frames.new p) ≡ slice_index_or in_use.now p false }
{
    for page in 0..frames.len() {
        if in_use[page] {
            copy_out(frames, pool, size, page, area, from);
        } else {
            drop_page(frames, pool, page);
        }
    }
}

/// Copies the pages in use from the area, from `from` on, and gives the frames of the others back.
pub fn release(
    frames: &mut [Option<Frame>],
    pool: &mut Pool,
    size: usize,
    area: &[u8],
    from: usize,
    in_use: &[bool],
)
    requires holds { Holds frames.old pool.old }
    requires some { 0 < size }
    requires size { frame_size pool.old ≡ size }
    requires each { length in_use.now ≡ length frames.old }
    requires used { (p : ℕ) → slice_index_or in_use.now p false ≡ true →
        is_some (frame_of frames.old p) ≡ true }
    requires room { from + size * length frames.old ≤ length area.now }
    ensures kept { Keeps frames.old frames.new pool.old pool.new }
    ensures bytes { (a : ℕ) → frame_byte size frames.new pool.new a
        ≡ (if slice_index_or in_use.now (a / size) false then slice_index area.now (from + a) else 0) }
    ensures present { (p : ℕ) → is_some (frame_of frames.new p) ≡ slice_index_or in_use.now p false }
{
    for page in 0..frames.len() {
        if in_use[page] {
            copy_in(frames, pool, size, page, area, from);
        } else {
            drop_page(frames, pool, page);
        }
    }
}

/// Gives every frame back.
pub fn empty(frames: &mut [Option<Frame>], pool: &mut Pool)
    requires holds { Holds frames.old pool.old }
    ensures kept { Keeps frames.old frames.new pool.old pool.new }
    ensures none { (p : ℕ) → frame_of frames.new p ≡ None }
{
    for page in 0..frames.len() {
        drop_page(frames, pool, page);
    }
}
