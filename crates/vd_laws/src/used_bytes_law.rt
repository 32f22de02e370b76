//! What comes back from a daemon.

ghost use Rattle.std.specs.Prelude.{◌≡◌, ℕ, [], ◌∷◌, false, Some, None};
ghost use Rattle.vd_model.specs.declared.memory.Dir.TheVariants.{To, From, Both};
ghost use Rattle.vd_model.specs.declared.step.Step.TheVariants.{Device};
ghost use Rattle.vd_model.specs.declared.step.DevStep.TheVariants as line;
ghost use Rattle.vd_model.specs.declared.step.DriverStep.TheVariants as driver;
ghost use Rattle.vd_model.specs.declared.answer.Item.TheVariants.{Text};
ghost use Rattle.vd_model.specs.declared.answer.Answer.TheVariants.{Done};
ghost use Rattle.vd_model.specs.Acts.{Node, Driver, Area_put, Unmapped, Synced_device};
ghost use Rattle.vd_model.specs.Puts.{ram};
ghost use Rattle.vd_laws.specs.UsedBytesLaw.{last_write};
ghost use Rattle.vd_laws.specs.Small.{v};
ghost use Rattle.vd_laws.specs.MemorySamples.{mapping_sample, store_sample, registration_sample, sample_setting, unmap_history};
ghost use Rattle.vd_model.specs.Setting.{Setting};
ghost use Rattle.vd_model.specs.History.{History, reply};
ghost use Rattle.vd_laws.specs.UsedBytesLaw.{UsedBytesLaw};

/// The bytes that a daemon wrote last are the buffer's after an unmap, and a poll tells the length
/// that the ring has.
pub fn used_bytes()
    ensures { (x : Setting) (h : History) → UsedBytesLaw x h }
{}

/// Worked instances of the law on used bytes.
pub fn instances_of_used_bytes()
    ensures stored { last_write (store_sample From) (mapping_sample From) 1 ≡ Some 9 }
    ensures stored_back { ram 1 (Driver (Unmapped (mapping_sample From)) ∷ store_sample From) 0 1 ≡ 9 }
    ensures other_byte { last_write (store_sample From) (mapping_sample From) 0 ≡ None }
    ensures synced { last_write (Driver (Synced_device (mapping_sample Both)) ∷ store_sample Both)
        (mapping_sample Both) 1 ≡ None }
    ensures in_the_area { last_write (Node (Area_put 0x1f001 (6 ∷ [])) ∷ registration_sample Both)
        (mapping_sample Both) 1 ≡ Some 6 }
    ensures area_back { ram 1 (Driver (Unmapped (mapping_sample Both)) ∷ Node
        (Area_put 0x1f001 (6 ∷ [])) ∷ registration_sample Both) 0 1 ≡ 6 }
    ensures large_page { ram 16 (Driver (Unmapped (mapping_sample Both)) ∷ Node
        (Area_put 0x1f001 (6 ∷ [])) ∷ registration_sample Both) 0 1 ≡ 6 }
    ensures peeked { reply (sample_setting 1) (unmap_history From)
        (Device v (line.Driver (driver.Peek 0 0 2))) false ≡ Done (Text (0 ∷ 9 ∷ []) ∷ []) }
    ensures peeked_of_a_to { reply (sample_setting 1) (unmap_history To)
        (Device v (line.Driver (driver.Peek 0 0 2))) false ≡ Done (Text (7 ∷ 8 ∷ []) ∷ []) }
{}
