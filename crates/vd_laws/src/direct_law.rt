//! How near the machine is to one that copies nothing.

ghost use Rattle.std.specs.Prelude.{◌≡◌, ℕ, ◌*◌, [], ◌∷◌, ◌++◌, true, false, Some, None, replicate};
ghost use Rattle.vd_model.specs.declared.memory.Dir.TheVariants.{To, From, Both};
ghost use Rattle.vd_model.specs.declared.step.Step.TheVariants.{Device};
ghost use Rattle.vd_model.specs.declared.step.DevStep.TheVariants as line;
ghost use Rattle.vd_model.specs.declared.step.AreaStep.TheVariants as area;
ghost use Rattle.vd_model.specs.declared.answer.Item.TheVariants.{Text};
ghost use Rattle.vd_model.specs.declared.answer.Answer.TheVariants.{Done};
ghost use Rattle.vd_model.specs.Acts.{Node, Driver, Daemon_put, Unmapped};
ghost use Rattle.vd_model.specs.Puts.{ram};
ghost use Rattle.vd_model.specs.Direct.{direct_byte, is_marked, Known, Told, mapping_through, plain_store};
ghost use Rattle.vd_model.specs.History.{reply};
ghost use Rattle.vd_laws.specs.Runs.{acts_of};
ghost use Rattle.vd_laws.specs.Small.{v};
ghost use Rattle.vd_laws.specs.MemorySamples.{mapping_sample, second_mapping, map_sample, store_sample, poke_sample, two_maps_sample, coherent_sample, sample_setting, map_history};
ghost use Rattle.vd_model.specs.Setting.{Setting};
ghost use Rattle.vd_model.specs.History.{History};
ghost use Rattle.vd_laws.specs.DirectLaw.{DirectLaw};

/// What is marked is as in a machine without bounce memory, pages or copies, and coherent memory is
/// one store.
pub fn direct_transfer()
    ensures { (x : Setting) (h : History) → DirectLaw x h }
{}

/// Worked instances of the law on the machine without copies.
pub fn instances_of_direct()
    ensures told_by_a_map { is_marked (map_sample To) (Told (mapping_sample To) 1) ≡ true }
    ensures not_told_by_a_from { is_marked (map_sample From) (Told (mapping_sample From) 1) ≡ false }
    ensures not_told_after_a_poke { is_marked (poke_sample Both) (Told (mapping_sample Both) 0) ≡ false }
    ensures known_after_a_poke { is_marked (poke_sample Both) (Known 0 0) ≡ true }
    ensures value_after_a_store { direct_byte (store_sample Both) 0 1 ≡ 9 }
    ensures not_known_after_a_store { is_marked (store_sample Both) (Known 0 1) ≡ false }
    ensures told_after_a_store { is_marked (store_sample Both) (Told (mapping_sample Both) 1) ≡ true }
    ensures known_after_an_unmap { is_marked (Driver (Unmapped (mapping_sample Both)) ∷ store_sample
        Both) (Known 0 1) ≡ true }
    ensures store_to_a_to { direct_byte (store_sample To) 0 1 ≡ 8 }
    ensures highest { mapping_through two_maps_sample (Node (Daemon_put 0xe000 (replicate 0x1001 3
        ++ 4 ∷ []))) 0 1 ≡ Some (mapping_sample Both) }
    ensures lower { is_marked (Node (Daemon_put 0xe000 (replicate 0x1001 3
        ++ 4 ∷ [])) ∷ two_maps_sample) (Told second_mapping 0) ≡ false }
    ensures one_store { plain_store coherent_sample 0x1f000 ≡ 5 }
    ensures loaded { reply (sample_setting 1) (map_history To)
        (Device v (line.Area (area.Load 0xf000 2))) false ≡ Done (Text (7 ∷ 8 ∷ []) ∷ []) }
    ensures loaded_told { is_marked (acts_of (sample_setting 1) (map_history To) v)
        (Told (mapping_sample To) 1) ≡ true }
{}
