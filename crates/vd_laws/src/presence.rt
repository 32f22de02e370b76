//! Which pages are present.

ghost use Rattle.std.specs.Prelude.{◌≡◌, ◌||◌, ℕ, List, is_some};
ghost use Rattle.vd_model.specs.Acts.{Act};
ghost use Rattle.vd_model.specs.Live.{registration_of, is_present};
ghost use Rattle.vd_laws.specs.Presence.{was_mapped};

/// A page of bounce memory is present where a registration stands, and where the last act that
/// decides it is a map.
pub fn present_pages()
    ensures { (g : ℕ) (acts : List Act) (page : ℕ) →
        is_present g acts page ≡ (is_some (registration_of acts) || was_mapped g acts page) }
{}
