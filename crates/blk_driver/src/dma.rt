//! What a driver asks of its device beside the ring's memory.
ghost use Rattle.std.specs.Prelude.{◌≡◌, ◌<◌, ◌+◌, ◌==◌, ◌^◌, ◌++◌, ◌∷◌, ℕ, List, length, is_some, true, Some, None, Err, OnOk, OnErr, IfOk};
ghost use Rattle.std.specs.List.{list_any};
ghost use Rattle.vd_model.specs.declared.memory.MapError.TheVariants.{Empty, NoSpace};
ghost use Rattle.vd_model.specs.Setting.{Setting};
ghost use Rattle.vd_model.specs.Acts.{Act, Streaming, Driver, Poked, Synced_device};
ghost use Rattle.vd_model.specs.Live.{maps, live_mappings, iova_of};
ghost use Rattle.vd_model.specs.Place.{taken_slots};
ghost use Rattle.vd_model.specs.Puts.{ram_bytes, is_to_device};
ghost use Rattle.vd_model.specs.RingTurns.{placed_mappings, map_acts, unmap_act};
ghost use Rattle.vr_split.specs.Mem.{IsUnchanged};
ghost use Rattle.blk_driver.specs.Buffers.{has_range, bytes_of, wanted_bytes, live_mapping};

use std::alloc::AllocError;
use vd_model::{MapError, Want};
use vd_num::Bytes;
use vr_split::Mem;

/// A device as its driver uses it: buffers of the driver, mapped where the device sees them. It may stand for the acts of a
/// device, and then each call says which acts it adds; a device that threads share stands for none, and there each call is
/// safe and returns. No call changes the bytes or the span that its memory tells.
pub trait Dma: Mem {
    /// It stands for these acts, in this setting.
    ghost stands: { Self → Setting → List Act → Type 0 };

    /// What each call leaves alone, as a relation between the states before and after.
    ghost keeps_rest: { Self → Self → Type 0 };

    /// Appends the bytes of a range of a buffer.
    fn copy(&self, want: &Want, into: &mut Bytes) -> Result<(), AllocError>
        ensures len { OnOk result (length into.new ≡ length into.old + want.now.len) }
        ensures bytes { (x : Setting) (acts : List Act) → stands self.now x acts →
            has_range acts want.now.buffer want.now.offset want.now.len ≡ true →
            OnOk result (into.new ≡ into.old
            ++ ram_bytes x.per_page acts want.now.buffer want.now.offset want.now.len) };

    /// Writes bytes into a buffer.
    fn fill(&mut self, buffer: u64, offset: u64, bytes: &[u8])
        ensures filled { (x : Setting) (acts : List Act) → stands self.old x acts →
            has_range acts buffer offset (length bytes.now) ≡ true →
            stands self.new x (Driver (Poked buffer offset bytes.now) ∷ acts) }
        ensures memory { IsUnchanged Self.told Self.span keeps_rest self.old self.new };

    /// Maps ranges of buffers in order, all of them or none; `bytes` are the ranges one after another. It answers the first
    /// number, and the others follow it.
    fn map_all(&mut self, wants: &[Want], bytes: &[u8]) -> Result<u64, MapError>
        requires some { 0 < length wants.now }
        requires text { length bytes.now ≡ bytes_of wants.now }
        ensures mapped { (x : Setting) (acts : List Act) (ms : List Streaming) → stands self.old x acts →
            bytes.now ≡ wanted_bytes x.per_page acts wants.now →
            placed_mappings x (taken_slots acts) (maps acts) wants.now ≡ Some ms →
            OnOk result (stands self.new x (map_acts ms ++ acts)) }
        ensures placed { (x : Setting) (acts : List Act) → stands self.old x acts → IfOk result (λ number.
            (number ≡ maps acts) × (is_some (placed_mappings x (taken_slots acts) (maps acts) wants.now) ≡ true)) }
        ensures room { IfOk result (λ number. number + length wants.now < 2 ^ 64) }
        ensures full { (x : Setting) (acts : List Act) → stands self.old x acts → result ≡ Err NoSpace →
            placed_mappings x (taken_slots acts) (maps acts) wants.now ≡ None }
        ensures empty { result ≡ Err Empty → list_any (λ w. w.len == 0) wants.now ≡ true }
        ensures stays { (x : Setting) (acts : List Act) → stands self.old x acts →
            OnErr result (stands self.new x acts) }
        ensures memory { IsUnchanged Self.told Self.span keeps_rest self.old self.new };

    /// The address of a live mapping.
    fn iova(&self, number: u64) -> u64
        ensures { (x : Setting) (acts : List Act) (m : Streaming) → stands self.now x acts →
            live_mapping acts number ≡ Some m → result ≡ iova_of m };

    /// Copies the buffer's bytes into a live mapping towards the device again.
    fn refresh(&mut self, number: u64)
        ensures refreshed { (x : Setting) (acts : List Act) (m : Streaming) → stands self.old x acts →
            live_mapping acts number ≡ Some m →
            is_to_device m.want.dir ≡ true → stands self.new x (Driver (Synced_device m) ∷ acts) }
        ensures memory { IsUnchanged Self.told Self.span keeps_rest self.old self.new };

    /// Ends a mapping, which brings the device's bytes back where it comes from there. A number that isn't live ends none.
    fn unmap(&mut self, number: u64)
        ensures unmapped { (x : Setting) (acts : List Act) → stands self.old x acts →
            stands self.new x (unmap_act (live_mappings acts) number ++ acts) }
        ensures memory { IsUnchanged Self.told Self.span keeps_rest self.old self.new };

    ghost rest_refl: { (s : Self) → keeps_rest s s };

    ghost rest_trans: { (a b c : Self) → keeps_rest a b → keeps_rest b c → keeps_rest a c };

    /// What the memory's calls keep has the rest in it.
    ghost keeps_more: { (a b : Self) → Self.keeps a b → keeps_rest a b };
}
