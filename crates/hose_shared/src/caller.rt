// Who calls, and what with.

use hose_graph::Name;
use std::alloc::Global;

/// What is answered with, from the program's start down to a call: what it waits with, where it
/// takes memory, and the gate that its sessions pass.
#[derive(Drop)]
pub struct Context<'a, W, G> {
    pub rt: &'a W,
    pub alloc: Global,
    pub gate: &'a G,
}

/// A customer who calls, with the number of its session at the gate.
#[derive(Drop)]
pub struct Caller<'a, W, G> {
    pub context: &'a Context<'a, W, G>,
    pub session: u64,
    pub customer: &'a Name,
}
