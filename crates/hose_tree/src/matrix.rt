// Traffic matrices of a hose.
ghost use Rattle.std.specs.Prelude.{◌≡◌, ◌<◌, All, length, map};
ghost use Rattle.hose_law.specs.Matrix.{demand};

use std::marker::Model;

/// What the endpoints of a hose send each other, which only an embedding or a test tells: in the
/// customer's unit of bandwidth, a row and a column for each endpoint, in their order.
///
/// A contract sees it as the list of its rows.
#[derive(Debug, Drop)]
pub struct Matrix {
    rows: Vec<Vec<u64>>,
}

impl Model for Matrix {
    ghost use Rattle.std.specs.Prelude.{◌≡◌, ℕ, List, All, length, map};

    ghost Value = { List (List ℕ) };

    ghost view = { λ matrix. map (λ row. row.items) matrix.rows.items };

    // Each row has as many places as there are rows.
    ghost invariant = { λ matrix.
        All (λ row. length row.items ≡ length matrix.rows.items) matrix.rows.items };
}

impl Matrix {
    /// The matrix of these rows, each with a place for each of them.
    pub fn from_rows(rows: Vec<Vec<u64>>) -> Matrix
        requires { All (λ row. length row.items ≡ length rows.items) rows.items }
        ensures { result ≡ map (λ row. row.items) rows.items }
    {
        Matrix { rows }
    }

    /// What endpoint i sends endpoint j.
    pub fn at(&self, i: u32, j: u32) -> u64
        requires row { i < length self.now }
        requires column { j < length self.now }
        ensures { result ≡ demand self.now i j }
    {
        self.rows[i as usize][j as usize]
    }
}
