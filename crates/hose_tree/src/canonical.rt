// The tree that joins a hose to the root of a row by shortest walks.
ghost use Rattle.std.specs.Prelude.{◌≡◌, ℕ, ◌<◌, Bool, List, All, IfOk, IsSome, OnOk, length, reverse};
ghost use Rattle.hose_graph.specs.Hose.{node_of};
ghost use Rattle.hose_graph.specs.Network.{IsNetwork};
ghost use Rattle.hose_graph.specs.Row.{distance_of, tight_link_of};
ghost use Rattle.hose_law.specs.CanonicalPlan.{IsCanonicalTree};
ghost use Rattle.hose_law.specs.Row.{IsRow};
ghost use Rattle.hose_law.specs.Walk.{Joins};
ghost use Rattle.hose_tree.specs.steps.Attached.{IsTightTree, IsAttached};

use crate::Tree;
use hose_graph::{Hose, Row, Step, Topology};
use std::alloc::{AllocError, Global};

impl Tree {
    /// The tree that joins a hose to the root of a row: the union of the endpoints' ways to the
    /// root along tight links.
    ///
    /// It starts at the root, which need not be an endpoint.
    pub fn from_row(
        alloc: Global,
        top: &Topology,
        row: &Row,
        hose: &Hose,
    ) -> Result<Tree, AllocError>
        requires is_row { (set : List Bool) × IsRow top.now set row.now.root row.now }
        requires reaches { All (λ end. IsSome (distance_of row.now (node_of end))) hose.now }
        ensures { IfOk result (λ tree. (set : List Bool) → IsRow top.now set row.now.root row.now
            → IsCanonicalTree top.now set hose.now row.now.root tree) }
    {
        let mut on = vec![in alloc; false; top.nodes() as usize]?;
        let mut steps = Vec::new(alloc);
        for (node, _) in hose.ends() {
            attach(top, row, *node, &mut on, &mut steps)?;
        }
        Ok(Tree {
            start: row.root,
            steps,
        })
    }
}

// Attaches a node to the tree by steps along its way to the root, as far as that is not on the
// tree. `on` says to which nodes steps lead.
fn attach(
    top: &Topology,
    row: &Row,
    node: u32,
    on: &mut [bool],
    steps: &mut Vec<Step>,
) -> Result<(), AllocError>
    requires network { IsNetwork top.now }
    requires is_row { (set : List Bool) × IsRow top.now set row.now.root row.now }
    requires reached { IsSome (distance_of row.now node) }
    requires places { length on.old ≡ length top.now.nodes }
    ensures { OnOk result ((set : List Bool) → IsRow top.now set row.now.root row.now
        → IsTightTree top.now set row.now.root (reverse steps.old.items) on.old
        → IsAttached top.now set row.now.root node
        (reverse steps.old.items) (reverse steps.new.items) on.new) }
{
    if on[node as usize] {
        return Ok(());
    }
    // The root alone has no tight link.
    let Some(link) = tight_link(row, node) else {
        return Ok(());
    };
    let nearer = other_end(top, link, node);
    attach(top, row, nearer, on, steps)?;
    steps.push(Step {
        link,
        old: nearer,
        new: node,
    })?;
    on[node as usize] = true;
    Ok(())
}

// The tight link of a node in a row.
fn tight_link(row: &Row, node: u32) -> Option<u32>
    requires { node < length row.now.tight }
    ensures { result ≡ tight_link_of row.now node }
{
    row.tight[node as usize]
}

// The node to which a link leads from one of its nodes.
pub(crate) fn other_end(top: &Topology, link: u32, node: u32) -> u32
    requires link { link < length top.now.links }
    requires joins { (other : ℕ) × Joins top.now link node other }
    ensures { Joins top.now link node result }
{
    let link = top.link(link);
    if link.a == node { link.b } else { link.a }
}
