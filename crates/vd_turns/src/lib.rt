//! Machines whose replies follow from the lines before.
//!
//! It stands on `vd_loop`. The definitions stand in `specs/`: a state, a step and a reply at each line. The lemmas of
//! `proofs/` say what a run of such a machine's lines wrote, for the programs above.
#![tactic(auto)]
