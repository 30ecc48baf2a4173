// The links of a topology in JSON.
ghost use Rattle.std.specs.Prelude.{◌≡◌, ◌≢◌, ◌⊎◌, ◌≤◌, ℕ, IfErr, IfNone, IfSome, None, OnOk, Some, codes, length, map};
ghost use Rattle.std.specs.List.{AllZip};
ghost use Rattle.serde_json.specs.Find.{get};
ghost use Rattle.serde_json.specs.View.{view};
ghost use Rattle.hose_graph.specs.Limit.{IsUpTo};
ghost use Rattle.hose_graph.specs.Network.{IsNetwork, IsNodeOf, name_of};
ghost use Rattle.hose_graph.specs.declared.topology.Link.{Link};
ghost use Rattle.hose_graph.specs.declared.limits.TheConstants.{MOST_COST, MOST_LINKS};
ghost use Rattle.hose_topo_json.specs.JsonValue.{number_at, text_at};
ghost use Rattle.hose_topo_json.specs.JsonTopology.{TellsJsonLink, unlinked};
ghost use Rattle.hose_topo_json.specs.Refused.{IsWrongLink};

use crate::by_name::NodesByName;
use crate::member::{number_up_to, text};
use hose_graph::{Link, MOST_CAPACITY, MOST_COST, MOST_LENGTH, Name, Topology};
use serde_json::Value;

/// Adds the links that values tell; or the place of the lowest one that tells none.
pub fn add_links(top: &mut Topology, by_name: &NodesByName, values: &[Value]) -> Result<(), u64>
    requires unlinked { top.old ≡ unlinked top.old.nodes }
    requires few { length values.now ≤ MOST_LINKS }
    ensures ok { OnOk result
        (AllZip (TellsJsonLink top.new.nodes) (map view values.now) top.new.links) }
    ensures nodes { OnOk result (top.new.nodes ≡ top.old.nodes) }
    ensures wrong { IfErr result (IsWrongLink top.old.nodes (map view values.now)) }
{
    for (place, value) in values.iter().enumerate() {
        let Some(link) = read_link(top, by_name, value) else {
            return Err(place as u64);
        };
        top.push_link(link);
    }
    Ok(())
}

// The link that a value tells.
fn read_link(top: &Topology, by_name: &NodesByName, value: &Value) -> Option<Link>
    ensures some { IfSome result (TellsJsonLink top.now.nodes (view value.now)) }
    ensures none { IfNone result
        ((link : Link) → ¬ TellsJsonLink top.now.nodes (view value.now) link) }
{
    let _nodes = top.nodes();
    let Some(a) = node(top, by_name, value, "a") else {
        return None;
    };
    let Some(b) = node(top, by_name, value, "b") else {
        return None;
    };
    if a == b {
        return None;
    }
    let Some(capacity) = number_up_to(value, "capacity", MOST_CAPACITY) else {
        return None;
    };
    let Some(length) = number_up_to(value, "length", MOST_LENGTH) else {
        return None;
    };
    let Some(cost) = cost_of(value, length) else {
        return None;
    };
    Some(Link {
        a,
        b,
        capacity,
        length,
        cost,
    })
}

// The node that the text under a name names.
fn node(top: &Topology, by_name: &NodesByName, value: &Value, member: &str) -> Option<u32>
    requires { IsNetwork top.now }
    ensures some { IfSome result (λ node. text_at member.now (view value.now)
        ≡ Some (name_of top.now node)) }
    ensures is_node { IfSome result (IsNodeOf top.now) }
    ensures none { IfNone result ((node : ℕ) → IsNodeOf top.now node
        → text_at member.now (view value.now) ≢ Some (name_of top.now node)) }
{
    let Some(text) = text(value, member) else {
        return None;
    };
    let Some(name) = Name::read(text.as_bytes()) else {
        return None;
    };
    by_name.find(top, &name)
}

// The cost that a value tells, or else the length.
fn cost_of(value: &Value, length: u64) -> Option<u64>
    requires { IsUpTo MOST_COST length }
    ensures some { IfSome result (λ cost. ((get (codes "cost") (view value.now) ≡ None)
        × (cost ≡ length)) ⊎ (number_at (codes "cost") (view value.now) ≡ Some cost)) }
    ensures within { IfSome result (IsUpTo MOST_COST) }
    ensures none { IfNone result ((cost : ℕ) → IsUpTo MOST_COST cost
        → (get (codes "cost") (view value.now) ≢ None)
        × (number_at (codes "cost") (view value.now) ≢ Some cost)) }
{
    if value.get("cost").is_none() {
        return Some(length);
    }
    number_up_to(value, "cost", MOST_COST)
}
