// What is at hand of the history that a follower is to have.
ghost use Rattle.std.specs.Prelude.{◌≡◌, ◌≤◌, List, IfSome, length};
ghost use Rattle.hose_graph.specs.Network.{Network};
ghost use Rattle.hose_graph.specs.declared.entry.Entry.{Entry};
ghost use Rattle.hose_graph.specs.Limits.{most_epoch};
ghost use Rattle.hose_lead.specs.Leading.{IsValueAt};
ghost use Rattle.hose_lead.specs.steps.History.{IsPacketBehind};

/// The number of bytes of a chain value.
pub const VALUE_BYTES: usize = 32;

/// The history that a follower is to have, of which not all may be at hand.
pub trait History {
    /// It has these entries, of a network.
    ghost is_of: { Self → Network → List Entry → Type 0 };

    /// How many entries it has.
    fn epoch(&self) -> u64
        ensures count { (network : Network) → (list : List Entry) →
            is_of self.now network list → result ≡ length list }
        ensures few { result ≤ most_epoch };

    /// The bytes of the packet of the entry behind so many, where it is at hand.
    fn packet(&self, count: u64) -> Option<&[u8]>
        ensures { (network : Network) → (list : List Entry) → is_of self.now network list →
            IfSome result (λ bytes. IsPacketBehind network list count bytes.now) };

    /// The chain value of the first so many entries, where it is at hand.
    fn value(&self, count: u64) -> Option<[u8; VALUE_BYTES]>
        ensures { (network : Network) → (list : List Entry) → is_of self.now network list →
            IfSome result (IsValueAt network list count) };
}
