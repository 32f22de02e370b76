//! What changes memory.

ghost use Rattle.std.specs.Prelude.{◌≡◌, ℕ, [], ◌∷◌};
ghost use Rattle.vd_model.specs.declared.memory.Dir.TheVariants.{To, From, Both};
ghost use Rattle.vd_model.specs.Acts.{Driver, Mapped, Unmapped, Synced_cpu};
ghost use Rattle.vd_model.specs.Puts.{ram, shown_put};
ghost use Rattle.vd_laws.specs.MemorySamples.{mapping_sample, map_sample, store_sample, coherent_sample};
ghost use Rattle.vd_model.specs.Setting.{Setting};
ghost use Rattle.vd_model.specs.History.{History};
ghost use Rattle.vd_laws.specs.MemoryLaw.{MemoryLaw};

/// A driver's buffers change by its own acts and by what comes back from its mappings, and coherent
/// memory by what either side writes there.
pub fn driver_memory()
    ensures { (x : Setting) (h : History) → MemoryLaw x h }
{}

/// Worked instances of the law on memory.
pub fn instances_of_memory()
    ensures store_leaves { ram 1 (store_sample Both) 0 1 ≡ 8 }
    ensures unmap_brings { ram 1 (Driver (Unmapped (mapping_sample Both)) ∷ store_sample Both) 0 1 ≡ 9 }
    ensures sync_brings { ram 1 (Driver (Synced_cpu (mapping_sample Both)) ∷ store_sample Both) 0 1 ≡ 9 }
    ensures other_byte { ram 1 (Driver (Unmapped (mapping_sample Both)) ∷ store_sample Both) 0 0 ≡ 7 }
    ensures nothing_from_to { ram 1 (Driver (Unmapped (mapping_sample To)) ∷ store_sample To) 0 1 ≡ 8 }
    ensures zeros_from_a_new_page { ram 1 (Driver (Unmapped (mapping_sample From)) ∷ map_sample
        From) 0 1 ≡ 0 }
    ensures large_page { ram 16 (Driver (Unmapped (mapping_sample Both)) ∷ store_sample Both) 0 1 ≡ 9 }
    ensures map_leaves_coherent { (shown_put 16 (Driver (Mapped (mapping_sample Both)) ∷
        coherent_sample) 0x1f000).byte ≡ 5 }
    ensures part_of_a_page_would_not { (shown_put 32
        (Driver (Mapped (mapping_sample Both)) ∷ coherent_sample) 0x1f000).byte ≡ 0 }
{}
