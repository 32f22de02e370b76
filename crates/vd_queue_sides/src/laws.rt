//! What each act does to the two sides of a queue. The functions do nothing: their contracts are laws.
ghost use Rattle.std.specs.Prelude.{◌≡◌, ◌<◌, ◌≤◌, ◌%◌, ℕ, Bool, List, [], ◌∷◌, length, Option, Some, None, Ok, true, false};
ghost use Rattle.vd_model.specs.declared.queue.RingPlace.{RingPlace};
ghost use Rattle.vd_model.specs.declared.parts.Chain.{Chain};
ghost use Rattle.vd_model.specs.declared.parts.Part.{Part};
ghost use Rattle.vd_model.specs.Memory.{Memory};
ghost use Rattle.vd_model.specs.Setting.{Setting};
ghost use Rattle.vd_model.specs.Acts.{Act, Request, Queue, Driver, Driver_put, Ring_made, Ring_dropped, Chain_added, Chains_published, Chain_reclaimed, Fetched, Executed, Finished};
ghost use Rattle.vd_model.specs.Queues as model;
ghost use Rattle.vd_model.specs.Queues.{Execution, ends_position, added_count, published_count, chains_out, published_chains_out, fetches};
ghost use Rattle.vd_model.specs.Raw.{little_bytes};
ghost use Rattle.vd_model.specs.Rings.{number16, next16, used_index_at, available_slot_at, available_index_at};
ghost use Rattle.vd_model.specs.RingTurns.{descriptor_puts};
ghost use Rattle.vd_model.specs.Trace.{whole, trace_start, ending_of};
ghost use Rattle.vd_model.specs.DaemonTurns.{Hand, daemon_memory, queue_place, index_after, first_used, readable_bytes, has_indirect};
ghost use Rattle.vr_driver.specs.Side.{DriverSide, side_of, unowned_descriptors, with_chain, all_published, without_chain, waiting, is_waiting};
ghost use Rattle.vr_driver.specs.Driver.{chain_written, with_index};
ghost use Rattle.vr_device.specs.Side.{Side};
ghost use Rattle.vd_ring_memory.specs.RingPuts.{after_puts};
ghost use Rattle.vd_queue_sides.specs.Chains.{RingStands, is_ring_act, is_head, next_added};
ghost use Rattle.vd_queue_sides.specs.Daemon.{is_daemon_act, IsAt, PositionStands, HandStands, DaemonStands};

/// The driver's side of a ring: what each act on it leaves, and what it counts and tests.
pub fn driver_side()
    ensures others { (q : ℕ) (act : Act) (acts : List Act) → is_ring_act q act ≡ false →
        (kept : Option (ℕ × DriverSide)) →
        RingStands acts q kept → RingStands (act ∷ acts) q kept }
    ensures made { (acts : List Act) (q region : ℕ) (place : RingPlace) →
        RingStands (Queue (Ring_made q place region) ∷ acts) q (Some (region, side_of place)) }
    ensures dropped { (acts : List Act) (q : ℕ) → RingStands (Queue (Ring_dropped q) ∷ acts) q None }
    ensures added { (acts : List Act) (q region n : ℕ) (s : DriverSide) (request : Option Request) →
        RingStands acts q (Some (region, s)) →
        0 < n → n ≤ length (unowned_descriptors s) →
        RingStands (Queue (Chain_added q (next_added s n request)) ∷ acts) q (Some (region, with_chain s n)) }
    ensures published { (acts : List Act) (q region : ℕ) (s : DriverSide) → RingStands acts q (Some (region, s)) →
        RingStands (Queue (Chains_published q) ∷ acts) q (Some (region, all_published s)) }
    ensures reclaimed { (acts : List Act) (q region head : ℕ) (s : DriverSide) → RingStands acts q (Some (region, s)) →
        is_head (published_chains_out acts q) head ≡ true →
        RingStands (Queue (Chain_reclaimed q head) ∷ acts) q (Some (region, without_chain s head)) }

    // The free descriptors are those that the acts leave free.
    ensures free { (acts : List Act) (q region : ℕ) (s : DriverSide) → RingStands acts q (Some (region, s)) →
        unowned_descriptors s ≡ model.free_descriptors s.place.size (chains_out acts q) }

    // Counts modulo 65,536 say as much as the whole ones, in a ring of at most 32,768.
    ensures waiting { (acts : List Act) (q region : ℕ) (s : DriverSide) →
        RingStands acts q (Some (region, s)) → s.place.size ≤ 32768 →
        waiting s ≡ length (published_chains_out acts q) }
    ensures same { (acts : List Act) (q region : ℕ) (s : DriverSide) → RingStands acts q (Some (region, s)) →
        s.place.size ≤ 32768 →
        s.added ≡ s.published → added_count acts q ≡ published_count acts q }
    ensures waits { (acts : List Act) (q region id : ℕ) (s : DriverSide) →
        RingStands acts q (Some (region, s)) → s.place.size ≤ 32768 →
        is_waiting s id ≡ is_head (published_chains_out acts q) id }

    // What is written is what the puts of the acts write.
    ensures chain { (m : Memory) (r : RingPlace) (parts : List Part) (indices : List ℕ) →
        length indices ≡ length parts →
        after_puts m (descriptor_puts r parts indices) ≡ chain_written m r parts indices (length parts) }
    ensures index { (m : Memory) (s : DriverSide) (count : ℕ) → s.added ≡ count % 65536 →
        after_puts m (Driver (Driver_put (available_index_at s.place) (little_bytes 2 count)) ∷ []) ≡ with_index m s }
{}

/// The block daemon's side: its position, and the request in hand.
pub fn daemon_side()
    ensures others { (x : Setting) (q : ℕ) (act : Act) (acts : List Act) → is_daemon_act q act ≡ false →
        (position : Option Side) (hand : Option Hand) (ended : Option Execution) →
        DaemonStands x acts q position hand ended → DaemonStands x (act ∷ acts) q position hand ended }
    ensures ends { (x : Setting) (q : ℕ) (act : Act) (acts : List Act) →
        ends_position q act ≡ true → DaemonStands x (act ∷ acts) q None None None }

    // The position goes on from the used index of the first fetch.
    ensures first { (x : Setting) (acts : List Act) (q : ℕ) (side : Side) → (s : IsAt x acts q side) →
        (first_used x acts q ≡ Ok s.from) × (side.position ≡ index_after (fetches acts q) s.from) }
    ensures begins { (x : Setting) (acts : List Act) (q from : ℕ) → PositionStands x acts q None →
        number16 (daemon_memory x acts) (used_index_at (queue_place acts q)) ≡ Ok from → from ≡ from % 65536 →
        PositionStands x (Queue (Fetched q) ∷ acts) q
        (Some (record { place = queue_place acts q; position = next16 from; used = from })) }
    ensures goes_on { (x : Setting) (acts : List Act) (q : ℕ) (side : Side) → PositionStands x acts q (Some side) →
        PositionStands x (Queue (Fetched q) ∷ acts) q (Some (record side { position = next16 side.position })) }

    // The request in hand is kept as it was read.
    ensures hand { (x : Setting) (acts : List Act) (q used head : ℕ) (chain : Chain) (bytes : List ℕ) →
        first_used x acts q ≡ Ok used →
        number16 (daemon_memory x acts)
        (available_slot_at (queue_place acts q) (index_after (fetches acts q) used)) ≡ Ok head →
        ending_of (trace_start (queue_place acts q) head (has_indirect acts)) (daemon_memory x acts) ≡ whole chain →
        readable_bytes (daemon_memory x acts) chain.parts ≡ Ok bytes →
        HandStands x (Queue (Fetched q) ∷ acts) q
        (Some (record { head = chain.head; parts = chain.parts; writable = chain.writable; bytes = bytes })) None }
    ensures executed { (x : Setting) (acts : List Act) (q status : ℕ) (bytes : List ℕ) (h : Hand)
        (ended : Option Execution) → HandStands x acts q (Some h) ended →
        HandStands x (Queue (Executed q status bytes) ∷ acts) q (Some h)
        (Some (record { status = status; bytes = bytes })) }
    ensures finished { (x : Setting) (acts : List Act) (q : ℕ) (side : Side) (hand : Option Hand)
        (ended : Option Execution) →
        DaemonStands x acts q (Some side) hand ended →
        DaemonStands x (Queue (Finished q) ∷ acts) q (Some (record side { used = next16 side.used })) None ended }
{}
