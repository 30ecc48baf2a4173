// The canonical plan of a hose over a set of links.
ghost use Rattle.std.specs.Prelude.{◌≡◌, ◌≤◌, length, All, IfOk, Some};
ghost use Rattle.hose_graph.specs.Amounts.{amount_of};
ghost use Rattle.hose_graph.specs.Hose.{IsHose};
ghost use Rattle.hose_graph.specs.Network.{IsNetwork};
ghost use Rattle.hose_law.specs.steps.Plan.{AreNodes};
ghost use Rattle.hose_law.specs.Row.{IsRow};
ghost use Rattle.hose_paths.specs.steps.Rows.{AreRows};
ghost use Rattle.hose_plan.specs.steps.Rooting.{IsBestRoot, IsPlanOver, MakesPlan};
ghost use Rattle.hose_tree.specs.steps.Amounts.{AreOnLinks};

use crate::root::{best_root, best_root_of_kept, root_row};
use hose_graph::{Amounts, Hose, MOST_AMOUNT, MOST_TREE_LINKS, Row, Topology};
use hose_links::LinkSet;
use hose_paths::{Chains, RowMaker, row_of};
use hose_tree::{Tree, reservations};
use std::alloc::{AllocError, Global};

/// What a hose reserves on the tree of its root over a set of links; none where no node reaches all
/// endpoints. The maker is asked once for kept rows, which are read where they lie; where it has
/// none over the set, the endpoints' distances are found along chains that are made once.
pub fn plan<R: RowMaker>(
    alloc: Global,
    top: &Topology,
    links: &LinkSet,
    hose: &Hose,
    rows: &mut R,
) -> Result<Option<Amounts>, AllocError>
    requires places { length links.now ≡ length top.now.links }
    requires nodes { AreNodes top.now hose.now }
    ensures { MakesPlan top.now links.now hose.now result }
{
    if let Some(kept) = rows.kept(top, links) {
        return plan_by_kept(alloc, top, links, hose, kept);
    }
    // The calls tell the proof what holds of each network and of each hose.
    let _nodes = top.nodes();
    let _ends = hose.ends();
    let chains = Chains::new(alloc, top, links)?;
    let mut made = Vec::new(alloc);
    let Some(root) = best_root(alloc, top, links, hose, &chains, &mut made)? else {
        return Ok(None);
    };
    let row = root_row(alloc, top, links, &chains, &made, root)?;
    Ok(Some(reserved_from(alloc, top, links, hose, root, &row)?))
}

// What a hose reserves on the tree of its root over a set of links, of which the rows of all nodes
// are kept; none where no node reaches all endpoints.
pub(crate) fn plan_by_kept(
    alloc: Global,
    top: &Topology,
    links: &LinkSet,
    hose: &Hose,
    kept: &[Row],
) -> Result<Option<Amounts>, AllocError>
    requires places { length links.now ≡ length top.now.links }
    requires nodes { AreNodes top.now hose.now }
    requires kept { AreRows top.now links.now kept.now }
    ensures { MakesPlan top.now links.now hose.now result }
{
    let Some(root) = best_root_of_kept(alloc, top, links, hose, kept)? else {
        return Ok(None);
    };
    let row = row_of(top, links, kept, root);
    Ok(Some(reserved_from(alloc, top, links, hose, root, row)?))
}

// What a hose reserves on the tree of its root, of which this is the row.
fn reserved_from(
    alloc: Global,
    top: &Topology,
    links: &LinkSet,
    hose: &Hose,
    root: u32,
    row: &Row,
) -> Result<Amounts, AllocError>
    requires network { IsNetwork top.now }
    requires nodes { AreNodes top.now hose.now }
    requires hose { IsHose hose.now }
    requires root { IsBestRoot top.now links.now hose.now (Some root) }
    requires row { IsRow top.now links.now root row.now }
    ensures plan { IfOk result (λ plan. IsPlanOver top.now links.now hose.now (Some plan)) }
    ensures links { IfOk result (AreOnLinks top.now) }
    ensures few { IfOk result (λ plan. length plan ≤ MOST_TREE_LINKS) }
    ensures amounts { IfOk result (All (λ pair. amount_of pair ≤ MOST_AMOUNT)) }
{
    let tree = Tree::from_row(alloc, top, row, hose)?;
    Ok(reservations(alloc, &tree, hose)?)
}
