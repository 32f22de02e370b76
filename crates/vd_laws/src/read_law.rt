//! What a daemon can read, and where it came from.

ghost use Rattle.std.specs.Prelude.{◌≡◌, ℕ, [], ◌∷◌, false, Some, None, Ok, Err};
ghost use Rattle.vd_model.specs.declared.memory.Dir.TheVariants.{To};
ghost use Rattle.vd_model.specs.declared.memory.Origin.TheVariants.{Zero, Daemon, Handed};
ghost use Rattle.vd_model.specs.declared.step.Step.TheVariants.{Device};
ghost use Rattle.vd_model.specs.declared.step.DevStep.TheVariants as line;
ghost use Rattle.vd_model.specs.declared.step.AreaStep.TheVariants as area;
ghost use Rattle.vd_model.specs.declared.answer.Answer.TheVariants.{Done};
ghost use Rattle.vd_model.specs.declared.answer.Item.TheVariants.{Text};
ghost use Rattle.vd_model.specs.Setting.{Setting};
ghost use Rattle.vd_model.specs.Acts.{Node, Deregistered};
ghost use Rattle.vd_model.specs.Puts.{Area, last_put, shown_put};
ghost use Rattle.vd_model.specs.Memory.{read};
ghost use Rattle.vd_model.specs.DaemonTurns.{daemon_memory};
ghost use Rattle.vd_model.specs.History.{History, reply};
ghost use Rattle.vd_laws.specs.Origins.{IsHanded, IsIndexOf, IsWritten};
ghost use Rattle.vd_laws.specs.Alike.{LooksAlike};
ghost use Rattle.vd_laws.specs.ReadLaw.{ReadLaw, seen_after};
ghost use Rattle.vd_laws.specs.Small.{v};
ghost use Rattle.vd_laws.specs.MemorySamples.{sample_setting, map_sample, store_sample, coherent_sample};
ghost use Rattle.vd_laws.specs.ReadSamples.{area_sample, next_page_sample, part_map_history};

/// What a daemon reads stands at addresses that it can access, and is a zero, a daemon's write at that
/// very place or a byte that the device's own driver handed.
pub fn reads()
    ensures { (x : Setting) (h : History) → ReadLaw x h }
{}

/// Worked instances of the law on reads.
pub fn instances_of_reading()
    ensures handed { shown_put 1 (map_sample To) 0xf001 ≡ record { byte = 8; origin = Handed (Some 0) } }
    ensures handed_by { IsHanded 1 (map_sample To) (λ at. at ≡ 0xf001) 8 (Some 0) }
    ensures kept { shown_put 1 area_sample 0xf001 ≡ record { byte = 8; origin = Handed (Some 0) } }
    ensures kept_by { IsHanded 1 area_sample (λ at. at ≡ 0xf001) 8 (Some 0) }
    ensures in_the_area { last_put 1 area_sample (Area 0x1f001)
        ≡ record { byte = 8; origin = Handed (Some 0) } }
    ensures given_back { shown_put 1 (Node Deregistered ∷ area_sample) 0xf001
        ≡ record { byte = 8; origin = Handed (Some 0) } }
    ensures moved { shown_put 1 next_page_sample 0xe001 ≡ record { byte = 8; origin = Handed (Some 0) } }
    ensures rest_of_a_page { shown_put 1 (map_sample To) 0xf002 ≡ record { byte = 0; origin = Zero } }
    ensures rest_of_a_large_page { shown_put 16 (map_sample To) 0x1000 ≡ record { byte = 0; origin = Zero } }
    ensures stored { shown_put 1 (store_sample To) 0xf001 ≡ record { byte = 9; origin = Daemon } }
    ensures stored_by { IsWritten (store_sample To) (λ at. at ≡ 0xf001) (IsIndexOf 0xf001) 9 }
    ensures coherent { shown_put 1 coherent_sample 0x1f000 ≡ record { byte = 5; origin = Handed None } }

    ensures read { read (daemon_memory (sample_setting 1) (map_sample To)) 0xf000 3 ≡ Ok (7 ∷ 8 ∷ 0 ∷ []) }
    ensures outside_a_page { read (daemon_memory (sample_setting 1) (map_sample To)) 0xefff 2 ≡ Err 0xefff }
    ensures within_a_large_page { read (daemon_memory (sample_setting 16) (map_sample To)) 0xefff 2
        ≡ Ok (0 ∷ 7 ∷ []) }

    ensures loaded { (third : ℕ) →
        reply (sample_setting 1) (part_map_history third)
        (Device v (line.Area (area.Load 0xf000 3))) false ≡ Done (Text (7 ∷ 8 ∷ 0 ∷ []) ∷ []) }
    ensures third_byte_does_not_show { (a b : ℕ) →
        LooksAlike (sample_setting 1) (seen_after (sample_setting 1) (part_map_history a) v)
        (seen_after (sample_setting 1) (part_map_history b) v) }
{}
