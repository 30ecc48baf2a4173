// The nodes of a topology in JSON.
ghost use Rattle.std.specs.Prelude.{◌≡◌, ◌≤◌, ℕ, List, [], IfErr, IfNone, IfSome, OnOk, Contains, length, map};
ghost use Rattle.serde_json.specs.View.{view};
ghost use Rattle.hose_graph.specs.Name.{IsName};
ghost use Rattle.hose_graph.specs.declared.limits.TheConstants.{MOST_NODES};
ghost use Rattle.hose_topo_json.specs.JsonTopology.{IsText, NameNodes, unlinked};
ghost use Rattle.hose_topo_json.specs.Refused.{IsWrongNode};

use hose_graph::{Name, Topology};
use serde_json::Value;

/// Adds the nodes that values name; or the place of the lowest one that names none.
pub fn add_nodes(top: &mut Topology, values: &[Value]) -> Result<(), u64>
    requires empty { top.old ≡ unlinked [] }
    requires few { length values.now ≤ MOST_NODES }
    ensures ok { OnOk result (NameNodes (map view values.now) top.new.nodes) }
    ensures unlinked { OnOk result (top.new ≡ unlinked top.new.nodes) }
    ensures wrong { IfErr result (IsWrongNode (map view values.now)) }
{
    for (place, value) in values.iter().enumerate() {
        let Some(name) = new_name(top, value) else {
            return Err(place as u64);
        };
        top.push_node(name);
    }
    Ok(())
}

// The name that a value is, where no node has it.
fn new_name(top: &Topology, value: &Value) -> Option<Name>
    ensures text { IfSome result (λ name. IsText (view value.now) name) }
    ensures is_name { IfSome result (λ name. IsName name) }
    ensures is_new { IfSome result (λ name. ¬ Contains top.now.nodes name) }
    ensures none { IfNone result ((name : List ℕ) → IsText (view value.now) name
        → IsName name → Contains top.now.nodes name) }
{
    let Some(text) = value.as_str() else {
        return None;
    };
    let Some(name) = Name::read(text.as_bytes()) else {
        return None;
    };
    if top.find(&name).is_some() {
        return None;
    }
    Some(name)
}
