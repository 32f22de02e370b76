//! What is kept of a queue at the start, after acts of other kinds, and what its pending requests are. The function does
//! nothing: its contract is a law.
ghost use Rattle.std.specs.Prelude.{◌≡◌, ◌++◌, [], ℕ, List, Bool, Option, Some, None, true, false};
ghost use Rattle.std.specs.List.{list_any, list_all};
ghost use Rattle.vd_model.specs.Acts.{Act, Request};
ghost use Rattle.vd_model.specs.Queues.{chains_out};
ghost use Rattle.vd_rings.specs.Stands.{leaves_ring};
ghost use Rattle.blk_driver.specs.Driver.{request_in};
ghost use Rattle.vd_request_lines.specs.declared.held.HeldDriver.{HeldDriver as Held};
ghost use Rattle.vd_request_lines.specs.Stands.{RequestsStand, ring_in, pending_held};

/// At the start nothing is kept. Acts that are none on a queue's ring leave what is kept of it standing, as long as none
/// frees the ring's region; and some chain that is out has a request of a kind exactly where a pending one is of it.
pub fn kept_requests()
    ensures start { (q : ℕ) → RequestsStand [] q None }
    ensures stays { (q : ℕ) (acts done : List Act) (kept : Option Held) →
        list_all (leaves_ring q (ring_in kept)) acts ≡ true →
        RequestsStand done q kept → RequestsStand (acts ++ done) q kept }
    ensures pending { (passes : Option Request → Bool) → passes None ≡ false →
        (acts : List Act) (q : ℕ) (kept : Option Held) → RequestsStand acts q kept →
        list_any (λ chain. passes chain.request) (chains_out acts q) ≡ list_any
        (λ p. passes (Some (request_in p))) (pending_held kept) }
{}
