//! Prints what the structs and numbers of this repository are in bytes: the length of each struct,
//! the offset and width of each field, one filled struct of each kind, and the constants.
//!
//! `checks/linux-headers` compares it with what a C program prints that includes the headers of
//! Linux. It stands on `vd_abi` and `blk_proto`, and every line comes from their `write` and `read`.
#![tactic(auto)]

mod block;
mod control;
mod device;
mod iova;
mod message;
mod show;

use std::io;

fn main(rt: HostRuntime) -> io::Result<()> {
    control::print(&rt)?;
    device::print(&rt)?;
    iova::print(&rt)?;
    message::print(&rt)?;
    block::print(&rt)
}
