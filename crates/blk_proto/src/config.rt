//! The capacity of the config space.

ghost use Rattle.std.specs.Prelude.{◌≡◌, ◌≤◌, ◌↔◌, IsSome, IfSome, length};
ghost use Rattle.vd_num.specs.Field.{field_at};

use vd_num::get64;

/// The number of sectors that the config space tells, if it is long enough to tell one.
pub fn capacity_of(config: &[u8]) -> Option<u64>
    ensures told { IsSome result ↔ (8 ≤ length config.now) }
    ensures value { IfSome result (λ sectors. sectors ≡ field_at 8 config.now 0) }
{
    if config.len() < 8 {
        return None;
    }
    Some(get64(config, 0))
}
