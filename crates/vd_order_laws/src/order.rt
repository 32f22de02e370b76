//! The order in which requests finish.

ghost use Rattle.vd_model.specs.Setting.{Setting};
ghost use Rattle.vd_model.specs.History.{History};
ghost use Rattle.vd_order_laws.specs.OrderInstances.{OrderInstances};
ghost use Rattle.vd_order_laws.specs.OrderLaw.{OrderLaw};

/// On each ring of a calm history the heads that finishes pushed are the first ones of those that
/// submits placed, in their order, whatever closes and opens come between.
pub fn order_law()
    ensures { (x : Setting) (h : History) → OrderLaw x h }
{}

/// A small history meets the conditions of that law, and in another a daemon's store into the ring
/// breaks what it says.
pub fn instances_of_order()
    ensures { OrderInstances }
{}
