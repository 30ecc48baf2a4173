// The limits of networks and hoses. The least capacity, length, cost and rate is 1.
ghost use Rattle.std.specs.Prelude.{◌≡◌};
ghost use Rattle.hose_graph.specs.Limits.{least_ends, most_amount, most_capacity, most_cost, most_ends, most_epoch};
ghost use Rattle.hose_graph.specs.steps.Limits.{most_distance};
ghost use Rattle.hose_graph.specs.Limits.{most_length, most_links, most_live, most_name_bytes, most_nodes, most_quotes, most_rate, most_tree_links};
ghost use Rattle.hose_graph.specs.Limits.{operator};

use crate::name::OPERATOR;

/// The greatest number of nodes of a network.
pub const MOST_NODES: u32 = 512;

/// The greatest number of links of a network.
pub const MOST_LINKS: u32 = 2048;

/// The greatest number of bytes of a name.
pub const MOST_NAME_BYTES: usize = 16;

/// The greatest capacity of a link, in the customer's unit of bandwidth.
pub const MOST_CAPACITY: u64 = 1_000_000_000;

/// The greatest length of a link, in whatever unit the network is measured in.
pub const MOST_LENGTH: u64 = 1_000_000;

/// The greatest cost of a link, for one unit of bandwidth.
pub const MOST_COST: u64 = 1_000_000;

/// The least number of endpoints of a hose.
pub const LEAST_ENDS: usize = 2;

/// The greatest number of endpoints of a hose.
pub const MOST_ENDS: usize = 64;

/// The greatest rate of an endpoint, in the customer's unit of bandwidth.
pub const MOST_RATE: u64 = 1_000_000;

/// The greatest epoch, which counts accepted entries, and so the greatest number of a VPN.
pub const MOST_EPOCH: u64 = 4_000_000_000;

/// The greatest number of live VPNs.
pub const MOST_LIVE: usize = 20_000;

/// The greatest number of links that a tree can have: one less than there can be nodes.
pub const MOST_TREE_LINKS: u32 = MOST_NODES - 1;

/// The greatest amount that a hose can reserve on a link: half of the greatest sum of rates.
pub const MOST_AMOUNT: u64 = MOST_ENDS as u64 * MOST_RATE / 2;

/// The greatest distance of two nodes: what a walk costs at most that comes to no node twice.
pub const MOST_DISTANCE: u64 = MOST_TREE_LINKS as u64 * MOST_COST;

/// The greatest number of quotes that a customer can hold at once, and so of a quote's number.
pub const MOST_QUOTES: usize = 16;

/// Each of these constants is the literal that definitions cite.
pub fn law_limits()
    ensures most_nodes { MOST_NODES ≡ most_nodes }
    ensures most_links { MOST_LINKS ≡ most_links }
    ensures most_name_bytes { MOST_NAME_BYTES ≡ most_name_bytes }
    ensures most_capacity { MOST_CAPACITY ≡ most_capacity }
    ensures most_length { MOST_LENGTH ≡ most_length }
    ensures most_cost { MOST_COST ≡ most_cost }
    ensures least_ends { LEAST_ENDS ≡ least_ends }
    ensures most_ends { MOST_ENDS ≡ most_ends }
    ensures most_rate { MOST_RATE ≡ most_rate }
    ensures most_epoch { MOST_EPOCH ≡ most_epoch }
    ensures most_live { MOST_LIVE ≡ most_live }
    ensures most_quotes { MOST_QUOTES ≡ most_quotes }
    ensures most_tree_links { MOST_TREE_LINKS ≡ most_tree_links }
    ensures most_amount { MOST_AMOUNT ≡ most_amount }
    ensures most_distance { MOST_DISTANCE ≡ most_distance }
    ensures operator { OPERATOR.now ≡ operator }
{}
