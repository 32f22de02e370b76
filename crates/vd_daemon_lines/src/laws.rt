//! What acts leave of a block daemon on a queue. The function does nothing: its contract is a law.
ghost use Rattle.std.specs.Prelude.{◌≡◌, ◌∷◌, ◌++◌, [], ℕ, List, not, true};
ghost use Rattle.std.specs.List.{list_all};
ghost use Rattle.vd_model.specs.Setting.{Setting};
ghost use Rattle.vd_model.specs.Acts.{Act};
ghost use Rattle.vd_model.specs.Queues.{ends_position};
ghost use Rattle.vd_queue_sides.specs.Daemon.{is_daemon_act};
ghost use Rattle.blk_daemon.specs.Held.{Held, idle};
ghost use Rattle.vd_daemon_lines.specs.Stands.{DaemonStands};

/// Acts that are none of the daemon on its queue, and that don't end its position, leave it standing. After an act that
/// ends it, and at first, a daemon stands that has no position and nothing in hand.
pub fn kept_daemon()
    ensures stays { (x : Setting) (q : ℕ) (acts done : List Act) (daemon : Held) →
        list_all (λ act. not (is_daemon_act q act)) acts ≡ true →
        DaemonStands x done q daemon → DaemonStands x (acts ++ done) q daemon }
    ensures ends { (x : Setting) (q : ℕ) (act : Act) (acts : List Act) (name : List ℕ) → ends_position q act ≡ true →
        DaemonStands x (act ∷ acts) q (idle name) }
    ensures begins { (x : Setting) (q : ℕ) (name : List ℕ) → DaemonStands x [] q (idle name) }
{}
