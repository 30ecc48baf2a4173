// Whether the grounds of a decision still hold.
ghost use Rattle.std.specs.Prelude.{◌≡◌, ◌<◌, ◌↔◌, List, IfSome, IsSomeAnd, IsTrue, length};
ghost use Rattle.hose_graph.specs.Hose.{Endpoint};
ghost use Rattle.hose_law.specs.Decision.{Fits};
ghost use Rattle.hose_law.specs.Room.{Room, free_rates, half_rate, safe_links};
ghost use Rattle.hose_plan.specs.steps.Planning.{AreGroundsOf, AreMade, HoldBySafe, IsSafeStill, TellsBooks, TellsRooms, room_beside};
ghost use Rattle.hose_tree.specs.steps.Amounts.{AreWithinCapacities, AreOnLinks};

use crate::decision::{Grounds, first_fits};
use hose_graph::Topology;
use hose_links::LinkSet;
use hose_tree::free_rate;

/// Whether the grounds of the hose over these links in service and beside these loads equal the
/// given ones, which are those of a decision on it over others and beside others: then the decision
/// is the same too. There is a place in service and a load for each link of the topology, the load
/// at most the link's capacity.
pub fn grounds_hold(top: &Topology, service: &LinkSet, loads: &[u64], grounds: &Grounds) -> bool
    requires service { length service.now ≡ length top.now.links }
    requires loads { AreWithinCapacities top.now loads.now }
    requires made { AreMade top.now grounds.now }
    ensures rooms { TellsRooms top.now service.now loads.now grounds.now result }
    ensures books { TellsBooks top.now service.now loads.now grounds.now result }
{
    if !service.same(&grounds.service) {
        return false;
    }
    if !fits_as_before(top, service, loads, grounds) {
        return false;
    }
    if grounds.first_fits {
        return true;
    }
    are_safe(top, service, loads, grounds)
}

// Whether the first plan fits just where it did, over the same links in service. Then the grounds
// hold where it fits, and where it does not just where the safe links are the same.
pub(crate) fn fits_as_before(
    top: &Topology,
    service: &LinkSet,
    loads: &[u64],
    grounds: &Grounds,
) -> bool
    requires same { grounds.now.service ≡ service.now }
    requires loads { AreWithinCapacities top.now loads.now }
    requires made { AreMade top.now grounds.now }
    ensures { (hose : List Endpoint) (earlier : Room)
        → AreGroundsOf top.now earlier hose grounds.now
        → (HoldBySafe top.now (room_beside top.now service.now loads.now) hose grounds.now result
        ↔ AreGroundsOf top.now (room_beside top.now service.now loads.now) hose grounds.now) }
{
    // The call tells the proof what holds of each network: that a hose has one plan over its links.
    let _nodes = top.nodes();
    first_fits(top, loads, &grounds.first) == grounds.first_fits
}

// Whether the links in service that have half of the hose's rates free are the safe ones of the
// grounds.
pub(crate) fn are_safe(top: &Topology, service: &LinkSet, loads: &[u64], grounds: &Grounds) -> bool
    requires service { length service.now ≡ length top.now.links }
    requires loads { AreWithinCapacities top.now loads.now }
    requires places { length grounds.now.safe ≡ length top.now.links }
    ensures { (hose : List Endpoint) → grounds.now.half ≡ half_rate hose
        → (IsTrue result
        ↔ (grounds.now.safe ≡ safe_links (room_beside top.now service.now loads.now) hose)) }
{
    for link in 0..top.links() {
        if !is_safe_as_before(top, service, loads, grounds, link) {
            return false;
        }
    }
    true
}

// Whether a link of the topology is safe by the grounds just where it is in service and has half of
// the hose's rates free.
pub(crate) fn is_safe_as_before(
    top: &Topology,
    service: &LinkSet,
    loads: &[u64],
    grounds: &Grounds,
    link: u32,
) -> bool
    requires service { length service.now ≡ length top.now.links }
    requires loads { AreWithinCapacities top.now loads.now }
    requires places { length grounds.now.safe ≡ length top.now.links }
    requires link { link < length top.now.links }
    ensures { IsTrue result
        ↔ IsSafeStill top.now service.now loads.now grounds.now.half grounds.now.safe link }
{
    let is_safe = service.has(link) && grounds.half <= free_rate(top, loads, link);
    grounds.safe.has(link) == is_safe
}
