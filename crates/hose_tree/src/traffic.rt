// Which nodes and endpoints lie beyond a link of a tree: on the side that is away from its start;
// and what traffic between the endpoints of a hose puts on it.
ghost use Rattle.std.specs.Prelude.{◌≡◌, ℕ, ◌<◌, ◌≤◌, ◌*◌, false, length, replicate};
ghost use Rattle.hose_law.specs.Matrix.{IsWithinRates, demand};
ghost use Rattle.hose_law.specs.Route.{matrix_load};
ghost use Rattle.hose_law.specs.Tree.{JoinsHose};
ghost use Rattle.hose_tree.specs.steps.Side.{AreBeyond, is_marked, sent_across};

use crate::Tree;
use crate::matrix::Matrix;
use hose_graph::{Hose, MOST_ENDS, MOST_NODES, MOST_RATE};

/// What a matrix puts on a link of a tree, which only an embedding or a test asks: the sum of its
/// entries over the ordered pairs of endpoints whose route on the tree has the link.
pub fn load(tree: &Tree, hose: &Hose, matrix: &Matrix, link: u32) -> u64
    requires joins { JoinsHose tree.now hose.now }
    requires within { IsWithinRates hose.now matrix.now }
    ensures { result ≡ matrix_load tree.now hose.now matrix.now link }
{
    let mut marks = [false; MOST_NODES as usize];
    mark_beyond(tree, link, &mut marks);
    let mut load = 0;
    for i in 0..hose.ends().len() as u32 {
        load += load_from(hose, matrix, &marks, i);
    }
    load
}

// What endpoint i sends to the endpoints on the other side.
fn load_from(hose: &Hose, matrix: &Matrix, marks: &[bool], i: u32) -> u64
    requires marks { length marks.now ≡ MOST_NODES }
    requires endpoint { i < length hose.now }
    requires rows { length matrix.now ≡ length hose.now }
    requires small { (j : ℕ) → j < length hose.now → demand matrix.now i j ≤ MOST_RATE }
    ensures load { result ≡ sent_across hose.now marks.now matrix.now i }
    ensures bound { result ≤ MOST_ENDS * MOST_RATE }
{
    let here = is_beyond(hose, marks, i);
    let mut load = 0;
    for j in 0..hose.ends().len() as u32 {
        if is_beyond(hose, marks, j) != here {
            load += matrix.at(i, j);
        }
    }
    load
}

/// Marks the nodes beyond a link, where none is marked yet.
pub fn mark_beyond(tree: &Tree, link: u32, marks: &mut [bool])
    requires none { marks.old ≡ replicate MOST_NODES false }
    ensures { AreBeyond tree.now link marks.new }
{
    for step in tree.steps() {
        marks[step.new as usize] = marks[step.old as usize] || step.link == link;
    }
}

/// Whether endpoint i is at a marked node.
pub fn is_beyond(hose: &Hose, marks: &[bool], i: u32) -> bool
    requires places { length marks.now ≡ MOST_NODES }
    requires endpoint { i < length hose.now }
    ensures { result ≡ is_marked hose.now marks.now i }
{
    let (node, _) = hose.ends()[i as usize];
    marks[node as usize]
}
