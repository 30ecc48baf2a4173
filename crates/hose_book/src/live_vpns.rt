// The live VPNs in order.
ghost use Rattle.std.specs.Prelude.{◌≡◌, ◌+◌, ◌-◌, ◌<◌, ◌≤◌, [], ◌∷◌, ◌++◌, IfOk, drop, length, vec_capacity};
ghost use Rattle.std.specs.List.{remove};
ghost use Rattle.hose_graph.specs.declared.limits.TheConstants.{MOST_LIVE};

use hose_graph::{MOST_LIVE, Vpn};
use std::alloc::{AllocError, Global};
use std::marker::Model;

// How many VPNs that are not live any more may stand before the live ones.
const MOST_GONE: usize = 256;

// The live VPNs in the order of their admission, with room for as many as may be live. One that is
// taken out of the front half changes places with those before it and stands among the gone, which
// are dropped together, so that the later VPNs seldom move. The gone keep their memory until then.
//
// A contract sees the list of the live ones.
#[derive(Drop)]
pub(crate) struct LiveVpns {
    vpns: Vec<Vpn>,
    gone: usize,
}

impl Model for LiveVpns {
    ghost use Rattle.std.specs.Prelude.{◌+◌, ◌≤◌, List, drop, length, vec_capacity};
    ghost use Rattle.hose_graph.specs.declared.limits.TheConstants.{MOST_LIVE};
    ghost use Rattle.hose_graph.specs.declared.entry.Vpn.{Vpn};
    ghost use Rattle.hose_book.specs.declared.live_vpns.TheConstants.{MOST_GONE};

    ghost Value = { List Vpn };

    ghost view = { λ l. drop l.gone l.vpns.items };

    ghost invariant = { λ l. (l.gone ≤ MOST_GONE)
        × (l.gone ≤ length l.vpns.items)
        × (length l.vpns.items ≤ l.gone + MOST_LIVE)
        × (MOST_GONE + MOST_LIVE ≤ vec_capacity l.vpns) };
}

impl LiveVpns {
    // None, with room for all that may be live.
    pub(crate) fn new(alloc: Global) -> Result<LiveVpns, AllocError>
        ensures { IfOk result (λ live. live ≡ []) }
    {
        let vpns = Vec::with_capacity(alloc, MOST_GONE + MOST_LIVE)?;
        Ok(LiveVpns { vpns, gone: 0 })
    }

    // The live ones.
    pub(crate) fn as_slice(&self) -> &[Vpn]
        ensures value { result.now ≡ self.now }
        ensures few { length result.now ≤ MOST_LIVE }
    {
        &self.vpns[self.gone..]
    }

    // Puts a VPN behind the last.
    pub(crate) fn push(&mut self, vpn: Vpn)
        requires { length self.old < MOST_LIVE }
        ensures { self.new ≡ self.old ++ vpn ∷ [] }
    {
        self.vpns.push_reserved(vpn);
    }

    // Takes out the VPN at a place.
    pub(crate) fn remove(&mut self, place: usize)
        requires { place < length self.old }
        ensures { self.new ≡ remove self.old place }
    {
        let later = self.vpns.len() - self.gone - place;
        if place < later {
            self.remove_early(place);
        } else {
            self.vpns.remove(self.gone + place);
        }
    }

    // Takes out the VPN at a place in the front half, past which those before it move.
    fn remove_early(&mut self, place: usize)
        requires { place < length self.old }
        ensures { self.new ≡ remove self.old place }
    {
        let gone = room_among_gone(&mut self.vpns, self.gone);
        first_after(&mut self.vpns, gone, gone + place);
        self.gone = gone + 1;
    }
}

// Drops those that are gone where they are as many as there may be. The result is how many are
// left.
fn room_among_gone(vpns: &mut Vec<Vpn>, gone: usize) -> usize
    requires few { gone ≤ MOST_GONE }
    requires inside { gone ≤ length vpns.old.items }
    ensures room { result < MOST_GONE }
    ensures inside { result ≤ length vpns.new.items }
    ensures live { drop result vpns.new.items ≡ drop gone vpns.old.items }
    ensures capacity { vec_capacity vpns.new ≡ vec_capacity vpns.old }
{
    if gone < MOST_GONE {
        return gone;
    }
    let live = vpns.len() - gone;
    vpns.rotate_left(gone);
    vpns.truncate(live);
    0
}

// Moves the VPN at a place to another before it, past those between them.
fn first_after(vpns: &mut [Vpn], start: usize, place: usize)
    requires order { start ≤ place }
    requires inside { place < length vpns.old }
    ensures { drop (start + 1) vpns.new ≡ remove (drop start vpns.old) (place - start) }
{
    vpns[start..=place].rotate_right(1);
}
