// What is true of every follower.
ghost use Rattle.std.specs.Prelude.{◌≡◌, ◌∷◌, ℕ, [], List, Contains, Option};
ghost use Rattle.hose_graph.specs.declared.entry.Entry.{Entry};
ghost use Rattle.hose_law.specs.History.{IsDecided, IsSound};
ghost use Rattle.hose_codec.specs.Spelling.{IsSpelling};
ghost use Rattle.hose_store.specs.Recovery.{IsHistoryOf};
ghost use Rattle.hose_store.specs.steps.Store.{HasHistory, KeptStore};
ghost use Rattle.hose_follow.specs.steps.Chained.{LeadsOn};
ghost use Rattle.hose_follow.specs.steps.Event.{Event};
ghost use Rattle.hose_follow.specs.steps.Offering.{AreOffered, BringsNone, IsOffered};
ghost use Rattle.hose_follow.specs.Packet.{Packet};
ghost use Rattle.hose_follow.specs.Replication.{IsLeader};
ghost use Rattle.hose_follow.specs.steps.Splitting.{IsSplit};
ghost use Rattle.hose_follow.specs.steps.Replication.{AcceptsDecided, IsBeginning, IsFollowing, IsOfLeader, Lead, MayBeLeft, Replication};
ghost use Rattle.hose_follow.specs.declared.answers.Offered.{Offered};

use hose_disk::Disk;
use hose_graph::Topology;
use hose_store::Premises;

/// Of a leader whose list is sound, whoever decided its entries, and of its follower. Whatever they
/// do, whoever asks the follower by packets that bring no entry, whenever it is stopped, closed or
/// opened, and whatever becomes of the packets between them and of the follower's disk: the
/// follower has a beginning of the leader's list, and so has each image of its disk at each moment,
/// with all that a `have` told; and no packet that was sent is answered as one of another history,
/// or as unsound.
pub fn law_following<D: Disk>(top: &Topology)
    // Each history for which a journal stands is a leader's, as one to which orders were moved.
    ensures leads { (list : List Entry) → (image : List ℕ) →
        IsHistoryOf top.now list image → IsLeader top.now list }
    ensures begins { (state : Replication D) →
        IsBeginning D.Disk top.now state → IsFollowing D.Disk top.now state }
    ensures stays { (old new : Replication D) → (events : List Event) →
        IsFollowing D.Disk top.now old → Lead D.Disk top.now old events new →
        IsFollowing D.Disk top.now new }
    // What the follower has is a sound history, and decided from where the leader's list is.
    ensures sound { (state : Replication D) → (following : IsFollowing D.Disk top.now state) →
        IsSound top.now 0 following.own }
    ensures decided { (state : Replication D) → (since : ℕ) →
        (following : IsFollowing D.Disk top.now state) →
        IsDecided top.now 0 since state.leader → IsDecided top.now 0 since following.own }
    // And the leader's list stays decided from there on, where each entry that it accepts is.
    ensures stays_decided { (old new : Replication D) → (since : ℕ) → (events : List Event) →
        IsDecided top.now 0 since old.leader → Lead D.Disk top.now old events new →
        AcceptsDecided top.now old.leader events → IsDecided top.now 0 since new.leader }
    // At rest, and at each moment within an offer, an orderly closing and an opening.
    ensures images { (state : Replication D) → (image : List ℕ) →
        IsFollowing D.Disk top.now state → MayBeLeft D.Disk top.now state image →
        IsOfLeader top.now state.leader state.told image }
    ensures never_differs { (state : Replication D) → (packet : Packet) → (at : ℕ) →
        (own given : List ℕ) → (left : KeptStore D) → IsFollowing D.Disk top.now state →
        Contains state.sent packet →
        ¬ IsOffered D.Disk state.store packet (Offered.Differs at own given) left }
    ensures never_unsound { (state : Replication D) → (packet : Packet) → (epoch : ℕ) →
        (left : KeptStore D) → IsFollowing D.Disk top.now state → Contains state.sent packet →
        ¬ IsOffered D.Disk state.store packet (Offered.Unsound epoch) left }
{}

/// Who asks a follower changes nothing of it: a packet whose body spells no entry, as a byte of 0
/// does, brings none, whatever its epoch and its chain value, and its answer leaves the store as it
/// was.
pub fn law_asking<D: Disk>()
    ensures brings_none { (store : KeptStore D) → (packet : Packet) →
        ((entry : Entry) → ¬ IsSpelling entry packet.body) → BringsNone D.Disk store packet }
    ensures zero { (entry : Entry) → ¬ IsSpelling entry (0 ∷ []) }
    ensures same { (store left : KeptStore D) → (packet : Packet) → (answer : Offered) →
        BringsNone D.Disk store packet → IsOffered D.Disk store packet answer left →
        left ≡ store }
{}

/// What is told of each entry that a follower enters, whoever sent it: it is sound.
pub struct Sound;

impl Premises for Sound {
    ghost use Rattle.hose_law.specs.History.{IsSoundAt};

    ghost kind = { IsSoundAt };
}

/// Packets that were offered one after another lead a store from the history that it had to one
/// that goes on from there by commits of sound entries.
pub fn law_offered<D: Disk>()
    ensures { (first last : KeptStore D) → (packets : List Packet) → (answers : List Offered) →
        (since : List Entry) → (doubt : Option Entry) → HasHistory D.Disk first since doubt →
        AreOffered D.Disk first packets answers last → LeadsOn D.Disk first since last }
{}

/// Bytes are split in one way into whole packets, one after another, and what begins with none. So
/// which packets a follower answers is told by the bytes that it takes.
pub fn law_one_split()
    ensures { (bytes : List ℕ) → (one other : List Packet) → (rest left : List ℕ) →
        IsSplit bytes one rest → IsSplit bytes other left → (one ≡ other) × (rest ≡ left) }
{}
