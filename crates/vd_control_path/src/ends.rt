//! What ends the block daemon's position on a queue. The function does nothing: its contract is a law.

ghost use Rattle.std.specs.Prelude.{ℕ, ◌≡◌, ◌≢◌, ◌<◌, suc, List, ◌∷◌, ◌++◌, true, false, not};
ghost use Rattle.std.specs.List.{list_all};
ghost use Rattle.vd_model.specs.Acts.{Act, state_acts};
ghost use Rattle.vd_model.specs.Queues.{ends_position};
ghost use Rattle.vd_state.specs.Stands.{generation_of};
ghost use Rattle.vd_control_path.specs.Ends.{closings_of, ends_of};

/// Each act that ends the position is counted once, and no other act. So the position goes on exactly
/// as long as the counts stay the same.
pub fn ends_counted()
    ensures ends { (q : ℕ) (act : Act) (done : List Act) → ends_position q act ≡ true →
        ends_of (act ∷ done) q ≡ suc (ends_of done q) }
    ensures stays { (q : ℕ) (act : Act) (done : List Act) → ends_position q act ≡ false →
        (closings_of (act ∷ done) ≡ closings_of done) ×
        (generation_of (state_acts (act ∷ done)) q ≡ generation_of (state_acts done) q) }

    // Of acts after some others.
    ensures goes_on { (q : ℕ) (acts done : List Act) → ends_of (acts ++ done) q ≡ ends_of done q →
        list_all (λ act. not (ends_position q act)) acts ≡ true }
    ensures same { (q : ℕ) (acts done : List Act) → list_all (λ act. not (ends_position q act)) acts ≡ true →
        (closings_of (acts ++ done) ≡ closings_of done) ×
        (generation_of (state_acts (acts ++ done)) q ≡ generation_of (state_acts done) q) }
    ensures more { (q : ℕ) (acts done : List Act) → ends_of (acts ++ done) q ≢ ends_of done q →
        ends_of done q < ends_of (acts ++ done) q }
{}
