// The traffic that puts the most on a link, and what it puts there.
ghost use Rattle.std.specs.Prelude.{◌≡◌, ◌<◌, length};
ghost use Rattle.hose_law.specs.Tree.{JoinsHose};

use cases_common::{CaseText, Trouble};
use hose_graph::{Hose, Topology};
use hose_tree::{Matrix, Tree, heaviest, load};
use std::alloc::{AllocError, Global};

/// What the heaviest matrix of each link of a tree puts there, and whether it has all within the
/// rates: the sums of its rows and columns are. The matrices come too, where they are to be shown.
pub fn tell_heaviest(
    top: &Topology,
    tree: &Tree,
    hose: &Hose,
    shows: bool,
    told: &mut CaseText,
) -> Result<(), Trouble>
    requires { JoinsHose tree.now hose.now }
{
    for link in 0..top.links() {
        told.add(heaviest_at(told.alloc(), tree, hose, link, shows));
    }
    Ok(())
}

fn heaviest_at(
    alloc: Global,
    tree: &Tree,
    hose: &Hose,
    link: u32,
    shows: bool,
) -> Result<String, AllocError>
    requires { JoinsHose tree.now hose.now }
{
    let matrix = heaviest(alloc, tree, hose, link)?;
    let is_within = is_within(&matrix, hose);
    let load = load(tree, hose, &matrix, link);
    if shows {
        format!(in alloc; "{link}: {matrix:?} load {load}, within the rates {is_within}\n")
    } else {
        format!(in alloc; "{link}: load {load}, within the rates {is_within}\n")
    }
}

fn is_within(matrix: &Matrix, hose: &Hose) -> bool
    requires { length matrix.now ≡ length hose.now }
{
    let ends = hose.ends();
    for i in 0..ends.len() as u32 {
        if traffic_of(matrix, ends.len() as u32, i) > ends[i as usize].1 {
            return false;
        }
    }
    true
}

// All that endpoint i sends and is sent.
fn traffic_of(matrix: &Matrix, ends: u32, i: u32) -> u64
    requires ends { length matrix.now ≡ ends }
    requires endpoint { i < ends }
{
    let mut sum: u64 = 0;
    for j in 0..ends {
        sum = sum
            .saturating_add(matrix.at(i, j))
            .saturating_add(matrix.at(j, i));
    }
    sum
}
