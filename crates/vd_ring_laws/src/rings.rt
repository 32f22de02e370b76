//! What holds of a ring, and of calm histories.

ghost use Rattle.vd_model.specs.Setting.{Setting};
ghost use Rattle.vd_model.specs.History.{History};
ghost use Rattle.vd_ring_laws.specs.CalmLaw.{CalmLaw};
ghost use Rattle.vd_ring_laws.specs.ChainLaw.{ChainLaw};
ghost use Rattle.vd_ring_laws.specs.PositionLaw.{PositionLaw};
ghost use Rattle.vd_model.specs.Memory.{Memory};
ghost use Rattle.vd_ring_laws.specs.TableLaw.{TableLaw};
ghost use Rattle.vd_ring_laws.specs.TraceLaw.{TraceLaw};
ghost use Rattle.vd_ring_laws.specs.CalmInstances.{CalmInstances};

/// The block daemon has one request in hand at most on a queue, of a queue that was ready when it
/// was fetched, and has finished all others that it fetched.
pub fn positions()
    ensures { (x : Setting) (h : History) → PositionLaw x h }
{}

/// The chains that are out on a ring have heads of their own, and are no more than the ring has
/// descriptors.
pub fn chains_out()
    ensures { (x : Setting) (h : History) → ChainLaw x h }
{}

/// On each ring of a calm history requests alone were placed, and those that are out are apart.
pub fn calm_rings()
    ensures { (x : Setting) (h : History) → CalmLaw x h }
{}

/// The trace of a chain that a driver wrote into its ring's table is that chain.
pub fn written_chains()
    ensures { (m : Memory) → TraceLaw m }
{}

/// Right after a driver's puts of some descriptors past bounce memory, a ring's table has them.
pub fn written_tables()
    ensures { (x : Setting) (h : History) → TableLaw x h }
{}

/// A small history, in which a request is finished, is calm, and a small table meets the condition
/// of the law on traces.
pub fn instances_of_calm()
    ensures { CalmInstances }
{}
