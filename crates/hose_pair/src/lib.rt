//! A leader and a follower on two machines: what each may conclude of the bytes that came over a
//! connection between them, and of its own disk; and what a host's story tells of the disk of the
//! follower at its link.
//!
//! These are laws of the crates below, and nothing here runs. They are for a host that tells a
//! customer of an order only once a follower has it: what it reads of a connection to the follower
//! has to be answers of that follower (`law_heard`), what the follower reads has to be packets that
//! were sent (`law_arrives`), both have to be of one history (`law_joins`), and the host's own disk
//! has to have its list (`law_own_disk`). What comes of all this, and of what the host is proved to
//! do, is `law_standby`. That all it supposes can hold at once is `law_met`.
#![tactic(auto)]

ghost use Rattle.std.specs.Prelude.{◌≡◌, ◌≢◌, ◌⊎◌, ◌<◌, ◌≤◌, ℕ, ⊤, Bool, true, false, [], ◌∷◌, All, Contains, List, None, Option, Some, ◌++◌, codes, drop, length, take};
ghost use mathlib.Core.List.{IsPrefix};
ghost use Rattle.sha2.specs.Sha256.{sha256};
ghost use Rattle.hose_graph.specs.Network.{IsNetwork};
ghost use Rattle.hose_graph.specs.declared.entry.Entry.{Entry};
ghost use Rattle.hose_topo.specs.Canonical.{canonical_text};
ghost use Rattle.hose_journal.specs.Chain.{chain};
ghost use Rattle.hose_journal.specs.steps.Chain.{Collide, hashed};
ghost use Rattle.hose_store.specs.Recovery.{digest_of};
ghost use Rattle.hose_store.specs.steps.Store.{HasHistory, KeptStore};
ghost use Rattle.hose_follow.specs.Answers.{offered_text, offered_texts};
ghost use Rattle.hose_follow.specs.steps.Lines.{HasLine};
ghost use Rattle.hose_follow.specs.Packet.{IsPacket, Packet, packets_bytes};
ghost use Rattle.hose_follow.specs.Replication.{IsLeader};
ghost use Rattle.hose_follow.specs.steps.Offering.{IsOffered};
ghost use Rattle.hose_follow.specs.steps.Replication.{IsBeginning, IsOfLeader, Replication};
ghost use Rattle.hose_follow.specs.declared.answers.Offered.{Offered};
ghost use Rattle.hose_follow.specs.declared.answers.Offered.TheVariants.{Differs};
ghost use Rattle.hose_lead.specs.Leading.{no_value};
ghost use Rattle.hose_net.specs.Story.{Exchange, Step, hold_in};
ghost use Rattle.hose_net.specs.declared.hold.Hold.TheVariants.{Upto};
ghost use Rattle.hose_clerk.specs.HostLines.{HostLine};
ghost use Rattle.hose_clerk.specs.Hosting.{HostState};
ghost use Rattle.hose_clerk.specs.declared.doors.DoorRule.{DoorRule};
ghost use Rattle.hose_clerk.specs.declared.doors.DoorRule.TheVariants.{Any};
ghost use Rattle.hose_clerk.specs.declared.replies.HostReply.{HostReply};
ghost use Rattle.hose_pair.specs.steps.Meeting.{IsMet, two_nodes};
ghost use Rattle.hose_pair.specs.steps.Orders.{HasOrders};
ghost use Rattle.hose_pair.specs.steps.Standing.{AnsweredSince, Goes, HasStory, IsFresh, MayLeave, ServesAtLink, Standing, WasTold, about_of};
ghost use Rattle.hose_pair.specs.steps.Written.{IsWritten};

use hose_disk::{Disk, MemDisk};
use hose_follow::law_following;
use hose_graph::Topology;
use hose_net::{Connections, MemConnections};

/// Each whole line of what was got of a connection to a follower that is the text of an answer, as
/// `have N` or `differs at N OWN GIVEN`, is one that it gave, where what was got is a beginning of
/// the lines of its answers from some place on.
pub fn law_heard()
    ensures { (said : List Offered) → (from : ℕ) → (got unread : List ℕ) → (answer : Offered) →
        All IsWritten said → IsWritten answer → got ++ unread ≡ offered_texts (drop from said) →
        HasLine got (offered_text answer) → Contains said answer }
{}

/// Each whole packet of what a follower got of a connection was sent, where what was got is a
/// beginning of the bytes of the packets that were sent from some place on.
pub fn law_arrives()
    ensures { (sent packets : List Packet) → (from : ℕ) → (got unread rest : List ℕ) →
        All IsPacket sent → All IsPacket packets → got ++ unread ≡ packets_bytes (drop from sent) →
        got ≡ packets_bytes packets ++ rest → All (Contains sent) packets }
{}

/// A follower that was just opened, and answers `differs at N OWN ..` to some packet, where N is
/// not above the leader's epoch and OWN is the leader's chain value at N, begins as a follower of
/// this leader; or two different strings that were hashed have one SHA-256.
pub fn law_joins<D: Disk>(top: &Topology)
    ensures { (state : Replication D) → (own : List Entry) → (packet : Packet) → (at : ℕ) →
        (mine given : List ℕ) → (left : KeptStore D) → IsLeader top.now state.leader →
        state.sent ≡ [] → state.told ≡ 0 → state.store.ledger.network ≡ top.now →
        HasHistory D.Disk state.store own None →
        IsOffered D.Disk state.store packet (Differs at mine given) left →
        at ≤ length state.leader → mine ≡ chain (digest_of top.now) (take at state.leader) →
        IsBeginning D.Disk top.now state
        ⊎ Collide sha256 (hashed (digest_of top.now) own
        ++ hashed (digest_of top.now) (take (length own) state.leader)) }
{}

/// A leader's own disk: each image that a stop between two calls leaves has all entries of its
/// list.
pub fn law_own_disk<D: Disk>(top: &Topology)
    ensures { (store : KeptStore D) → (list : List Entry) → (doubt : Option Entry) →
        (image : List ℕ) → store.ledger.network ≡ top.now → HasHistory D.Disk store list doubt →
        D.may_leave store.journal.disk image → HasOrders top.now list image }
{}

/// What a host's own story, with its link to a follower, tells of the follower's disk. From where
/// how replies are held is what was last heard of the follower on, each image that a stop of it may
/// leave, at each later moment, also within an offer, a closing or an opening, has all orders that
/// stood when a line was answered of whose reply a byte was sent, while the host was alone too; or
/// two different strings that were hashed have one SHA-256.
///
/// It supposes of the host that its story is as its contract says, that a process of it answers
/// fewer lines than a count holds, and that it is started anew on a history that begins with the
/// one that it had; of the follower that it answers by `offer`, and opens its store anew for each
/// connection, on a disk that nothing else writes to and that keeps to its model; and of a
/// connection that it gives a beginning of what was put into it. Connections may break and be made
/// at any time, to other followers too, and nothing is supposed of what the follower had at its
/// beginning.
pub fn law_standby<N: Connections, D: Disk, K>(top: &Topology)
    ensures told { (rules : List DoorRule) → (standby : Option (List ℕ)) →
        (may_be_alone required : Bool) → (own : List Entry) → (start told end : Standing D) →
        (exchange : Exchange HostLine HostReply) → (state : HostState) → (image : List ℕ) →
        WasTold (about_of N.did (N.saw K) top.now rules standby may_be_alone required) D.Disk own
        start told exchange state →
        Goes (about_of N.did (N.saw K) top.now rules standby may_be_alone required) D.Disk
        told end →
        IsLeader top.now end.host.history → MayLeave D.Disk top.now end image →
        HasOrders top.now state.history image
        ⊎ Collide sha256 (hashed (digest_of top.now) own
        ++ hashed (digest_of top.now) (take (length own) end.host.history)) }
    // Where replies wait for entries, so many as were heard are there, whichever process of the
    // host answered for them.
    ensures heard { (rules : List DoorRule) → (standby : Option (List ℕ)) → (may_be_alone : Bool) →
        (own : List Entry) → (start told end : Standing D) → (count : ℕ) → (image : List ℕ) →
        IsFresh (about_of N.did (N.saw K) top.now rules standby may_be_alone false) D.Disk
        own start →
        Goes (about_of N.did (N.saw K) top.now rules standby may_be_alone false) D.Disk
        start told →
        told.decides ≡ true → hold_in told.story ≡ Upto count →
        Goes (about_of N.did (N.saw K) top.now rules standby may_be_alone false) D.Disk told end →
        IsLeader top.now end.host.history → MayLeave D.Disk top.now end image →
        IsOfLeader top.now end.host.history count image
        ⊎ Collide sha256 (hashed (digest_of top.now) own
        ++ hashed (digest_of top.now) (take (length own) end.host.history)) }
    // Where a host that may go on alone is not alone, and answered a line since its link to the
    // follower was opened, how replies are held is what it last heard of that follower: so what was
    // told by then, whomever it was heard of before, is there from then on. An earlier link counts
    // for nothing at a later one.
    ensures present { (rules : List DoorRule) → (standby : Option (List ℕ)) →
        (may_be_alone required : Bool) → (own : List Entry) → (start now : Standing D) →
        IsFresh (about_of N.did (N.saw K) top.now rules standby may_be_alone required) D.Disk
        own start →
        Goes (about_of N.did (N.saw K) top.now rules standby may_be_alone required) D.Disk
        start now →
        ServesAtLink (about_of N.did (N.saw K) top.now rules standby may_be_alone required) now →
        now.decides ≡ true }
    // Where a standby is required, the follower answered a packet after each line of whose reply a
    // byte was sent, a question's too: so it was that host's standby still.
    ensures behind { (rules : List DoorRule) → (standby : Option (List ℕ)) →
        (may_be_alone : Bool) → (own : List Entry) → (start told : Standing D) →
        (exchange : Exchange HostLine HostReply) → (state : HostState) →
        (was : WasTold (about_of N.did (N.saw K) top.now rules standby may_be_alone true) D.Disk
        own start told exchange state) →
        IsLeader top.now told.host.history →
        AnsweredSince (about_of N.did (N.saw K) top.now rules standby may_be_alone true) D.Disk
        start told was.before exchange }
    // The host's history only grows.
    ensures grows { (rules : List DoorRule) → (standby : Option (List ℕ)) →
        (may_be_alone required : Bool) → (old new : Standing D) →
        Goes (about_of N.did (N.saw K) top.now rules standby may_be_alone required) D.Disk
        old new →
        IsPrefix old.host.history new.host.history }
{
    law_following::<D>(top);
}

/// All that `law_standby` supposes holds at once of a run over connections and a disk in memory,
/// whatever the path of the standby, whether the host may go on alone, and whether the standby is
/// required: so that law is not empty. A follower without an order has the host's link, was
/// compared, and answered `have 0`; then a greeting and an order of the operator were answered; the
/// order's packet was sent, entered on the follower's disk and answered `have 1`; both replies were
/// sent; and then the follower was stopped and opened anew, and the host was started anew.
pub fn law_met(top: &Topology)
    // At each network that has a link and whose digest is not the value by which a link asks.
    ensures here { (path : List ℕ) → (may_be_alone required : Bool) →
        0 < length top.now.links → digest_of top.now ≢ no_value →
        IsMet (about_of ⟦<MemConnections as Connections>⟧.did
        (⟦<MemConnections as Connections>⟧.saw ⊤) top.now (Any ∷ []) (Some path) may_be_alone
        required) ⟦<MemDisk as Disk>⟧ }
    // Of one of two networks not even that is supposed, or two strings have one SHA-256.
    ensures somewhere { (path : List ℕ) → (may_be_alone required : Bool) →
        IsMet (about_of ⟦<MemConnections as Connections>⟧.did
        (⟦<MemConnections as Connections>⟧.saw ⊤) (two_nodes (codes "b")) (Any ∷ []) (Some path)
        may_be_alone required) ⟦<MemDisk as Disk>⟧
        ⊎ (IsMet (about_of ⟦<MemConnections as Connections>⟧.did
        (⟦<MemConnections as Connections>⟧.saw ⊤) (two_nodes (codes "c")) (Any ∷ []) (Some path)
        may_be_alone required) ⟦<MemDisk as Disk>⟧
        ⊎ Collide sha256 (canonical_text (two_nodes (codes "b"))
        ∷ canonical_text (two_nodes (codes "c")) ∷ [])) }
    ensures networks { IsNetwork (two_nodes (codes "b")) × IsNetwork (two_nodes (codes "c")) }
    // And `law_standby`, of each such run, tells that the order is in the image, without more.
    ensures told { (path : List ℕ) → (may_be_alone required : Bool) →
        (met : IsMet (about_of ⟦<MemConnections as Connections>⟧.did
        (⟦<MemConnections as Connections>⟧.saw ⊤) top.now (Any ∷ []) (Some path) may_be_alone
        required) ⟦<MemDisk as Disk>⟧) → HasOrders top.now (met.order ∷ []) met.image }
{
    law_standby::<MemConnections, MemDisk, ()>(top);
}

/// Each beginning of a host's story is a story of it. So what `law_standby` supposes of each moment
/// holds where it holds of the last one of each process.
pub fn law_earlier<N: Connections, K>(top: &Topology)
    ensures { (rules : List DoorRule) → (standby : Option (List ℕ)) →
        (may_be_alone required : Bool) →
        (since : List Entry) → (early later : List (Step HostLine HostReply)) →
        HasStory (about_of N.did (N.saw K) top.now rules standby may_be_alone required) since
        (early ++ later) →
        HasStory (about_of N.did (N.saw K) top.now rules standby may_be_alone required) since
        early }
{}
