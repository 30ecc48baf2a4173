// A topology in JSON, as a whole, and why none was read.
ghost use Rattle.std.specs.Prelude.{◌≡◌, ◌≢◌, ◌⊎◌, List, Ok, Err, IfErr, IfOk, IfSome, IfNone, map};
ghost use Rattle.serde_json.specs.Data.{Data};
ghost use Rattle.serde_json.specs.View.{view};
ghost use Rattle.hose_graph.specs.Network.{IsNetwork, Network};
ghost use Rattle.hose_topo_json.specs.JsonValue.{ReadsObject};
ghost use Rattle.hose_topo_json.specs.JsonTopology.{HasLinks, HasNodes, IsJsonTopology};
ghost use Rattle.hose_topo_json.specs.Refused.{IsJsonFault};
ghost use Rattle.hose_topo_json.specs.declared.reading.JsonFault.{JsonFault};
ghost use Rattle.hose_topo_json.specs.declared.reading.JsonFault.TheVariants.{Memory};

use crate::by_name::NodesByName;
use crate::links::add_links;
use crate::member::list;
use crate::nodes::add_nodes;
use hose_graph::{MOST_LINKS, MOST_NODES, Topology};
use serde_json::Value;
use std::alloc::{AllocError, Global};
use thiserror::Error;

/// Why no topology was read. Each comes only where those before it do not.
#[derive(Clone, Copy, Debug, Error, PartialEq, Eq)]
pub enum JsonFault {
    /// The bytes are not JSON, or not an object.
    #[error("the text is no object in JSON")]
    Json,
    /// The member `nodes` is not an array of 1 to 512 elements.
    #[error("nodes are not 1 to 512 in an array")]
    Nodes,
    /// The lowest element of `nodes` that is no name, or the same as one before it. Elements count
    /// from 0.
    #[error("node {index} is no new name")]
    Node { index: u64 },
    /// The member `links` is not an array of at most 2,048 elements.
    #[error("links are not up to 2,048 in an array")]
    Links,
    /// The lowest element of `links` that tells no link. Elements count from 0.
    #[error("link {index} is no link")]
    Link { index: u64 },
    /// There was too little memory.
    #[error("there is too little memory")]
    Memory,
}

impl From<AllocError> for JsonFault {
    ghost from_gives = { λ _ fault. fault ≡ Memory };

    fn from(_error: AllocError) -> JsonFault {
        JsonFault::Memory
    }
}

/// Reads a topology in JSON. Where a member's name repeats in an object, the last one counts.
pub fn read_json(alloc: Global, bytes: &[u8]) -> Result<Topology, JsonFault>
    ensures topology { IfOk result (IsJsonTopology bytes.now) }
    ensures refused { IfErr result (IsJsonFault bytes.now) }
    ensures network { IfOk result IsNetwork }
    // But for want of memory there is one answer.
    ensures accepts { (network : Network) → IsJsonTopology bytes.now network
        → (result ≡ Ok network) ⊎ (result ≡ Err JsonFault.Memory) }
    ensures refuses { (fault : JsonFault) → fault ≢ JsonFault.Memory → IsJsonFault bytes.now fault
        → (result ≡ Err fault) ⊎ (result ≡ Err JsonFault.Memory) }
{
    read_members(alloc, bytes)
}

// Reads the topology member by member. That there is one answer follows from what it may be.
fn read_members(alloc: Global, bytes: &[u8]) -> Result<Topology, JsonFault>
    ensures topology { IfOk result (IsJsonTopology bytes.now) }
    ensures refused { IfErr result (IsJsonFault bytes.now) }
    ensures network { IfOk result IsNetwork }
{
    let value = read_object(alloc, bytes)?;
    let Some(nodes) = nodes_of(&value) else {
        return Err(JsonFault::Nodes);
    };
    let mut top = Topology::new(alloc)?;
    if let Err(index) = add_nodes(&mut top, nodes) {
        return Err(JsonFault::Node { index });
    }
    let Some(links) = links_of(&value) else {
        return Err(JsonFault::Links);
    };
    let by_name = NodesByName::build(alloc, &top)?;
    if let Err(index) = add_links(&mut top, &by_name, links) {
        return Err(JsonFault::Link { index });
    }
    let _nodes = top.nodes();
    Ok(top)
}

// The object that the bytes are.
fn read_object(alloc: Global, bytes: &[u8]) -> Result<Value, JsonFault>
    ensures ok { IfOk result (λ value. ReadsObject bytes.now (view value)) }
    ensures refused { IfErr result (IsJsonFault bytes.now) }
{
    let value = match Value::from_slice(alloc, bytes) {
        Ok(value) => value,
        Err(error) if error.is_memory() => return Err(JsonFault::Memory),
        Err(_) => return Err(JsonFault::Json),
    };
    if value.is_object() {
        Ok(value)
    } else {
        Err(JsonFault::Json)
    }
}

// The values of the member `nodes`, where they are as many as there may be.
fn nodes_of(value: &Value) -> Option<&[Value]>
    ensures some { IfSome result (λ nodes. HasNodes (view value.now) (map view nodes.now)) }
    ensures none { IfNone result ((nodes : List Data) → ¬ HasNodes (view value.now) nodes) }
{
    let Some(nodes) = list(value, "nodes") else {
        return None;
    };
    if (1..=MOST_NODES as usize).contains(&nodes.len()) {
        Some(nodes)
    } else {
        None
    }
}

// The values of the member `links`, where they are no more than there may be.
fn links_of(value: &Value) -> Option<&[Value]>
    ensures some { IfSome result (λ links. HasLinks (view value.now) (map view links.now)) }
    ensures none { IfNone result ((links : List Data) → ¬ HasLinks (view value.now) links) }
{
    let Some(links) = list(value, "links") else {
        return None;
    };
    if links.len() <= MOST_LINKS as usize {
        Some(links)
    } else {
        None
    }
}
