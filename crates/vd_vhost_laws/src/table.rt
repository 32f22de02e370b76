//! The law on the table, for every run of lines.

ghost use Rattle.std.specs.Prelude.{ℕ, List, []};
ghost use Rattle.vd_vhost_laws.specs.TableLaw.{TableLaw, done_by_lines};
ghost use Rattle.vd_vhost_laws.specs.TableInstances.{TableInstances};

/// After any lines, what a daemon loads are bytes of the guest's memory, each through the region that holds its
/// address and permits reading; a byte of that memory is changed by a poke, and by a store through a region that
/// permits writing; and a denial names the first address that fails, and the rule that it breaks there.
pub fn table_law()
    ensures { (size : ℕ) (lines : List (List ℕ)) → TableLaw size (done_by_lines size [] lines) }
{}

/// A small run in which that law says something.
pub fn instances_of_the_table()
    ensures { TableInstances }
{}
