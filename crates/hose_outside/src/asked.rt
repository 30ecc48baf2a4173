// What a command is asked for, where one crate reads it from words and another one does it.
use crate::reading::Names;

/// What a network and a script are made of: a seed, and how many nodes, links and hoses there are.
#[derive(Clone, Copy)]
pub struct Sizes {
    pub seed: u64,
    pub nodes: u32,
    pub links: u32,
    pub hoses: u32,
}

/// What is moved: the names of the topology and of the journal that are left as they are, those of
/// the topology and of the journal that it is moved to, and whether the live VPNs alone are moved.
#[derive(Clone, Copy)]
pub struct Move<'a> {
    pub from: Names<'a>,
    pub to: Names<'a>,
    pub live: bool,
}
