// Whether the grounds of a decision still hold, by the links that moved since.
ghost use Rattle.std.specs.Prelude.{◌≡◌, ◌↔◌, ℕ, ◌<◌, List, IsTrue, length};
ghost use Rattle.hose_graph.specs.Hose.{Endpoint};
ghost use Rattle.hose_law.specs.Room.{half_rate, safe_links};
ghost use Rattle.hose_law.specs.steps.Tracks.{IsNamedSince};
ghost use Rattle.hose_plan.specs.steps.Planning.{AreMadeSince, AreServedSince, IsSafeStill, TellsBooks, TellsRooms, room_beside};
ghost use Rattle.hose_tree.specs.steps.Amounts.{AreWithinCapacities};

use crate::decision::Grounds;
use crate::holding::{are_safe, fits_as_before, is_safe_as_before};
use hose_graph::Topology;
use hose_links::LinkSet;

// More changes than that cost more to look at than the links in service, which are compared as
// bytes.
const FEW_CHANGES: usize = 32;

/// Whether the grounds of the hose over these links in service and beside these loads equal the
/// given ones, as `grounds_hold` tells it, by the links alone that moved. `seen` is the epoch at
/// which the grounds were made, and a change is an epoch and the link that it touched: each link
/// whose load is another by now, or that was taken out of service or put back, stands in a change
/// of an epoch above `seen`. The changes may stand in any order; those of other epochs are passed
/// over, and so is a number that is no link's. Where they are so many that a look at all links
/// costs less, that is done. There is a place in service and a load for each link of the topology,
/// the load at most the link's capacity. It takes no memory.
pub fn grounds_hold_since(
    top: &Topology,
    service: &LinkSet,
    loads: &[u64],
    grounds: &Grounds,
    changes: &[(u64, u32)],
    seen: u64,
) -> bool
    requires service { length service.now ≡ length top.now.links }
    requires loads { AreWithinCapacities top.now loads.now }
    requires made { AreMadeSince top.now service.now loads.now grounds.now changes.now seen }
    ensures rooms { TellsRooms top.now service.now loads.now grounds.now result }
    ensures books { TellsBooks top.now service.now loads.now grounds.now result }
{
    if !is_service_since(top, service, &grounds.service, changes, seen) {
        return false;
    }
    if !fits_as_before(top, service, loads, grounds) {
        return false;
    }
    if grounds.first_fits {
        return true;
    }
    are_safe_since(top, service, loads, grounds, changes, seen)
}

// Whether the links in service are those that were, where it is known of all but those that changes
// of later epochs name.
fn is_service_since(
    top: &Topology,
    service: &LinkSet,
    served: &LinkSet,
    changes: &[(u64, u32)],
    seen: u64,
) -> bool
    requires service { length service.now ≡ length top.now.links }
    requires served { length served.now ≡ length top.now.links }
    requires others { AreServedSince top.now changes.now seen served.now service.now }
    ensures { IsTrue result ↔ (served.now ≡ service.now) }
{
    if changes.len() > FEW_CHANGES {
        return served.same(service);
    }
    for &(at, touched) in changes {
        let is_later = seen < at && touched < top.links();
        if is_later && served.has(touched) != service.has(touched) {
            return false;
        }
    }
    true
}

// Whether the links in service that have half of the hose's rates free are the safe ones of the
// grounds, where it is known of all but those that changes of later epochs name.
fn are_safe_since(
    top: &Topology,
    service: &LinkSet,
    loads: &[u64],
    grounds: &Grounds,
    changes: &[(u64, u32)],
    seen: u64,
) -> bool
    requires service { length service.now ≡ length top.now.links }
    requires loads { AreWithinCapacities top.now loads.now }
    requires places { length grounds.now.safe ≡ length top.now.links }
    requires others { (l : ℕ) → l < length top.now.links → (¬ IsNamedSince changes.now seen l)
        → IsSafeStill top.now service.now loads.now grounds.now.half grounds.now.safe l }
    ensures { (hose : List Endpoint) → grounds.now.half ≡ half_rate hose
        → (IsTrue result
        ↔ (grounds.now.safe ≡ safe_links (room_beside top.now service.now loads.now) hose)) }
{
    // A change costs about as much as three links, which stand one behind the other.
    if changes.len() > top.links() as usize / 3 {
        return are_safe(top, service, loads, grounds);
    }
    for &(epoch, link) in changes {
        let is_named = epoch > seen && link < top.links();
        if is_named && !is_safe_as_before(top, service, loads, grounds, link) {
            return false;
        }
    }
    true
}
