//! Examples for who reads the statement: what its words come to on the network of demo/star.txt,
//! whose nodes `a`, `b` and `c` are joined to a fourth, `h`, by links 0, 1 and 2. Each example is a
//! clause of a law, and the page of the statement has it beside the definitions that it names.
//! Nothing stands on this crate.
//!
//! ```
//! law_tree();
//! ```
#![tactic(auto)]

ghost use Rattle.std.specs.Prelude.{◌≡◌, ◌∷◌, [], true, false};
ghost use Rattle.hose_graph.specs.Hose.{IsHose, total_rate};
ghost use Rattle.hose_graph.specs.Network.{IsNetwork};
ghost use Rattle.hose_law.specs.Book.{IsOversold, load_of};
ghost use Rattle.hose_law.specs.Carries.{amounts_on};
ghost use Rattle.hose_law.specs.Decision.{Fits};
ghost use Rattle.hose_law.specs.Matrix.{demand, sent_by, sent_to, IsWithinRates};
ghost use Rattle.hose_law.specs.Plan.{plan_cost};
ghost use Rattle.hose_law.specs.Route.{is_on_route, matrix_load};
ghost use Rattle.hose_law.specs.Tree.{IsReservation, IsTree, JoinsHose, links_of, rate_beyond, smaller_side, way_up};
ghost use Rattle.hose_law.specs.Walk.{cost_of};
ghost use Rattle.hose_star.specs.steps.Star.{star, star_book, star_hose, star_matrix, star_plan, star_tree};

/// The rates of a hose, and what a link costs.
pub fn law_network()
    // The rates 3, 4 and 5 make 12.
    ensures total { total_rate star_hose ≡ 12 }
    // A unit costs 2 on link 1.
    ensures cost { cost_of star 1 ≡ 2 }
    // The star has nodes and links as a network may have them.
    ensures is_network { IsNetwork star }
    // It has three endpoints, in ascending order of nodes, and their rates are within the limit.
    ensures is_hose { IsHose star_hose }
{}

/// A tree, and the ways on it.
pub fn law_tree()
    // The tree grows from `h` along links 0, 1 and 2 to `a`, `b` and `c`.
    ensures is_tree { IsTree star star_tree }
    // `a`, `b` and `c` are on the tree.
    ensures joins { JoinsHose star_tree star_hose }
    // The links of the tree are 0, 1 and 2.
    ensures links { links_of star_tree ≡ 0 ∷ 1 ∷ 2 ∷ [] }
    // From `b` up to `h` one goes by link 1 alone.
    ensures way { way_up star_tree 1 ≡ 1 ∷ [] }
    // The route from `a` to `b` has link 0.
    ensures route { is_on_route star_tree 0 1 0 ≡ true }
    // The route from `a` to `b` does not have link 2.
    ensures no_route { is_on_route star_tree 0 1 2 ≡ false }
{}

/// A matrix, and the loads that it puts on links.
pub fn law_matrix()
    // `a` sends 2 to `b`.
    ensures demanded { demand star_matrix 0 1 ≡ 2 }
    // `a` sends 2 and 1, all that its rate of 3 allows.
    ensures sent { sent_by 3 star_matrix 0 ≡ 3 }
    // `c` is sent 1 by `a` and 2 by `b`.
    ensures sent_on { sent_to 3 star_matrix 2 ≡ 3 }
    // The matrix is within the rates: `a` sends 3, `b` sends 2 and is sent 2, and `c` is sent 3,
    // where 3, 4 and 5 are allowed.
    ensures within { IsWithinRates star_hose star_matrix }
    // Link 1 has the 2 from `a` to `b` and the 2 from `b` to `c`: all that is reserved there.
    ensures load { matrix_load star_tree star_hose star_matrix 1 ≡ 4 }
{}

/// What the hose reserves on its tree, and what that costs.
pub fn law_reserved()
    // Beyond link 2 is `c` alone, whose rate is 5.
    ensures beyond { rate_beyond star_tree star_hose 2 ≡ 5 }
    // Link 2 has a rate of 5 on one side and rates of 7 on the other: 5 is reserved.
    ensures side { smaller_side star_tree star_hose 2 ≡ 5 }
    // The amounts 3, 4 and 5 stand on links 0, 1 and 2.
    ensures amounts { amounts_on star_tree (3 ∷ 4 ∷ 5 ∷ []) ≡ star_plan }
    // 3 units at 1, 4 at 2 and 5 at 3 cost 26.
    ensures cost { plan_cost star star_plan ≡ 26 }
    // On links 0, 1 and 2 the smaller side's rate sums are 3, 4 and 5; nothing else is reserved.
    ensures reservation { IsReservation star_tree star_hose star_plan }
    // Where each link has 10 free, 3, 4 and 5 fit.
    ensures fits { Fits (10 ∷ 10 ∷ 10 ∷ []) star_plan }
{}

/// The book once the hose is admitted.
pub fn law_book()
    // Link 1 carries the 4 that the one live VPN reserves there.
    ensures load { load_of star_book 1 ≡ 4 }
    // Link 1 can carry 10 and carries 4, so it is not oversold.
    ensures not_oversold { ¬ IsOversold star star_book 1 }
{}
