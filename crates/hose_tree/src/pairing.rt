// The traffic within the rates of a hose that puts the most on a link of a tree.
ghost use Rattle.std.specs.Prelude.{◌≡◌, ◌≤◌, ◌+◌, ◌<◌, ◌*◌, IfOk, length, map};
ghost use Rattle.std.specs.List.{range_with_len};
ghost use Rattle.hose_law.specs.steps.Heaviest.{IsPairedOff, common, rate_before};
ghost use Rattle.hose_law.specs.Matrix.{IsWithinRates, rate_at};
ghost use Rattle.hose_law.specs.Route.{matrix_load};
ghost use Rattle.hose_law.specs.Tree.{JoinsHose, smaller_side};
ghost use Rattle.hose_tree.specs.steps.Side.{is_marked, paired};

use crate::Tree;
use crate::matrix::Matrix;
use crate::traffic::{is_beyond, mark_beyond};
use hose_graph::{Hose, MOST_ENDS, MOST_NODES, MOST_RATE};
use std::alloc::{AllocError, Global};

/// The traffic that only an embedding or a test asks for: the one within the rates of a hose that
/// puts on a link of a tree all that is reserved there.
///
/// The rates of the endpoints on the one side are paired off, in order of endpoints, with those of
/// the endpoints on the other. What is paired stands in the row of the lower-numbered endpoint and
/// the column of the other; all else is 0.
pub fn heaviest(alloc: Global, tree: &Tree, hose: &Hose, link: u32) -> Result<Matrix, AllocError>
    requires joins { JoinsHose tree.now hose.now }
    ensures within { IfOk result (IsWithinRates hose.now) }
    ensures load { IfOk result (λ matrix.
        matrix_load tree.now hose.now matrix link ≡ smaller_side tree.now hose.now link) }
    ensures paired { IfOk result (IsPairedOff tree.now hose.now link) }
{
    let mut marks = [false; MOST_NODES as usize];
    mark_beyond(tree, link, &mut marks);
    let mut rows = Vec::new(alloc);
    for i in 0..hose.ends().len() as u32 {
        rows.push(heaviest_row(alloc, hose, &marks, i)?)?;
    }
    Ok(Matrix::from_rows(rows))
}

// The row of endpoint i.
fn heaviest_row(alloc: Global, hose: &Hose, marks: &[bool], i: u32) -> Result<Vec<u64>, AllocError>
    requires marks { length marks.now ≡ MOST_NODES }
    requires endpoint { i < length hose.now }
    ensures { IfOk result (λ row. row.items
        ≡ map (paired hose.now marks.now i) (range_with_len 0 (length hose.now))) }
{
    let mut row = Vec::new(alloc);
    for j in 0..hose.ends().len() as u32 {
        row.push(paired_rate(hose, marks, i, j))?;
    }
    Ok(row)
}

// What stands in the row of endpoint i and the column of endpoint j.
fn paired_rate(hose: &Hose, marks: &[bool], i: u32, j: u32) -> u64
    requires marks { length marks.now ≡ MOST_NODES }
    requires row { i < length hose.now }
    requires column { j < length hose.now }
    ensures { result ≡ paired hose.now marks.now i j }
{
    if i >= j || is_beyond(hose, marks, i) == is_beyond(hose, marks, j) {
        return 0;
    }
    let one = Stretch::of(hose, marks, i);
    let other = Stretch::of(hose, marks, j);
    one.end
        .min(other.end)
        .saturating_sub(one.start.max(other.start))
}

// Where the rate of an endpoint lies when those of its side are laid end to end.
#[derive(Clone, Copy)]
struct Stretch {
    start: u64,
    end: u64,
}

impl Stretch {
    fn of(hose: &Hose, marks: &[bool], i: u32) -> Stretch
        requires marks { length marks.now ≡ MOST_NODES }
        requires endpoint { i < length hose.now }
        ensures start { result.start
            ≡ rate_before (rate_at hose.now) (is_marked hose.now marks.now) i }
        ensures end { result.end ≡ result.start + rate_at hose.now i }
    {
        let side = is_beyond(hose, marks, i);
        let mut start = 0;
        for k in 0..i {
            if is_beyond(hose, marks, k) == side {
                start += rate(hose, k);
            }
        }
        Stretch {
            start,
            end: start + rate(hose, i),
        }
    }
}

// The rate of endpoint i.
fn rate(hose: &Hose, i: u32) -> u64
    requires { i < length hose.now }
    ensures rate { result ≡ rate_at hose.now i }
    ensures bound { result ≤ MOST_RATE }
{
    hose.ends()[i as usize].1
}
