// The last packets of a history, in memory.
ghost use Rattle.std.specs.Prelude.{◌≡◌, ◌<◌, ◌≤◌, ◌+◌, ◌++◌, ◌∷◌, List, [], IfSome, true, false, length};
ghost use Rattle.hose_graph.specs.Network.{Network};
ghost use Rattle.hose_graph.specs.declared.entry.Entry.{Entry};
ghost use Rattle.hose_graph.specs.Limits.{most_epoch};
ghost use Rattle.hose_codec.specs.declared.limits.TheConstants.{MOST_SPELLING};
ghost use Rattle.hose_codec.specs.Spelling.{spelling};
ghost use Rattle.hose_journal.specs.Chain.{chain};
ghost use Rattle.hose_store.specs.Recovery.{digest_of};
ghost use Rattle.hose_lead.specs.Leading.{IsValueAt};
ghost use Rattle.hose_lead.specs.LedStore.{KeptPacket};
ghost use Rattle.hose_lead.specs.steps.History.{IsPacketBehind, IsRecentOf, kept_size};
ghost use Rattle.hose_lead.specs.steps.Taking.{Shortens};

use crate::history::{History, VALUE_BYTES};
use crate::packet::packet;
use std::alloc::{AllocError, Global};
use std::collections::VecDeque;
use std::marker::Model;

/// The packet of an entry, and the chain value before it.
#[derive(Drop)]
pub struct Kept {
    before: [u8; VALUE_BYTES],
    bytes: Vec<u8>,
}

impl Model for Kept {
    ghost use Rattle.hose_lead.specs.LedStore.{KeptPacket};

    ghost Value = { KeptPacket };

    ghost view = { λ kept. record { before = kept.before; bytes = kept.bytes.items } };
}

/// The packets of the last entries of a history, as many as have room in so many bytes. The oldest
/// are given up.
#[derive(Drop)]
pub struct RecentPackets {
    alloc: Global,
    limit: usize,
    kept: VecDeque<Kept>,
    size: usize,
    epoch: u64,
    value: [u8; VALUE_BYTES],
}

impl Model for RecentPackets {
    ghost use Rattle.std.specs.Prelude.{◌≡◌, ◌≤◌};
    ghost use Rattle.hose_graph.specs.Limits.{most_epoch};
    ghost use Rattle.hose_lead.specs.LedStore.{RecentState};
    ghost use Rattle.hose_lead.specs.steps.History.{kept_size};

    ghost Value = { RecentState };

    ghost view = { λ recent. record {
      kept = recent.kept.items;
      limit = recent.limit;
      epoch = recent.epoch;
      value = recent.value;
    } };

    ghost invariant = { λ recent. (recent.epoch ≤ most_epoch)
        × (recent.size ≡ kept_size recent.kept.items) };
}

impl RecentPackets {
    /// Those of a history with so many entries and this chain value: none yet.
    pub fn new(alloc: Global, limit: usize, epoch: u64, value: [u8; VALUE_BYTES]) -> RecentPackets
        requires { epoch ≤ most_epoch }
        ensures is { (network : Network) → (list : List Entry) → epoch ≡ length list →
            value ≡ chain (digest_of network) list → IsRecentOf network list result }
        ensures limit { result.limit ≡ limit }
        ensures epoch { result.epoch ≡ epoch }
    {
        RecentPackets {
            alloc,
            limit,
            kept: VecDeque::new(alloc),
            size: 0,
            epoch,
            value,
        }
    }

    /// Takes in the next entry, by its spelling and the chain value after it. Where no memory is
    /// left for its packet, none is at hand then.
    pub fn push(&mut self, body: &[u8], value: [u8; VALUE_BYTES]) -> Result<(), AllocError>
        requires epoch { self.old.epoch < most_epoch }
        requires body { length body.now ≤ MOST_SPELLING }
        ensures is { (network : Network) → (list : List Entry) → (entry : Entry) →
            IsRecentOf network list self.old → body.now ≡ spelling entry →
            value ≡ chain (digest_of network) (list ++ entry ∷ []) →
            IsRecentOf network (list ++ entry ∷ []) self.new }
        ensures bound { kept_size self.new.kept ≤ self.new.limit }
        ensures limit { self.new.limit ≡ self.old.limit }
        ensures epoch { self.new.epoch ≡ self.old.epoch + 1 }
    {
        let Ok(bytes) = packet(self.alloc, self.epoch as u32 + 1, &self.value, body) else {
            self.give_up(value);
            return Err(AllocError);
        };
        let before = self.value;
        if self.append(Kept { before, bytes }, value) {
            self.shorten();
            return Ok(());
        }
        Err(AllocError)
    }

    // Goes on by an entry of which no packet is kept, nor of those before it.
    fn give_up(&mut self, value: [u8; VALUE_BYTES])
        requires { self.old.epoch < most_epoch }
        ensures { self.new
            ≡ record self.old { kept = []; epoch = self.old.epoch + 1; value = value } }
    {
        self.kept.clear();
        self.size = 0;
        self.epoch += 1;
        self.value = value;
    }

    // Goes on by an entry, and says whether its packet is kept.
    fn append(&mut self, kept: Kept, value: [u8; VALUE_BYTES]) -> bool
        requires { self.old.epoch < most_epoch }
        ensures kept { result ≡ true → self.new ≡ record self.old {
          kept = self.old.kept ++ kept ∷ [];
          epoch = self.old.epoch + 1;
          value = value;
        } }
        ensures given_up { result ≡ false → self.new
            ≡ record self.old { kept = []; epoch = self.old.epoch + 1; value = value } }
    {
        let Some(size) = self.size.checked_add(kept.bytes.as_slice().len()) else {
            self.give_up(value);
            return false;
        };
        let Ok(()) = self.kept.push_back(kept) else {
            self.give_up(value);
            return false;
        };
        self.size = size;
        self.epoch += 1;
        self.value = value;
        true
    }

    // Gives up the oldest packets until the rest has room.
    fn shorten(&mut self)
        ensures shortens { Shortens self.old self.new }
        ensures bound { kept_size self.new.kept ≤ self.new.limit }
    {
        while self.drop_if_over() {}
    }

    // Gives up the oldest packet, where the packets have more bytes than they may have.
    fn drop_if_over(&mut self) -> bool
        ensures shortens { Shortens self.old self.new }
        ensures more { result ≡ true → length self.new.kept < length self.old.kept }
        ensures bound { result ≡ false → kept_size self.new.kept ≤ self.new.limit }
    {
        if !self.is_over() {
            return false;
        }
        self.drop_oldest()
    }

    // Whether the packets have more bytes than they may have.
    fn is_over(&self) -> bool
        ensures { result ≡ false → kept_size self.now.kept ≤ self.now.limit }
    {
        self.size > self.limit
    }

    // Gives up the oldest packet, where there is one.
    fn drop_oldest(&mut self) -> bool
        ensures some { result ≡ true →
            (first : KeptPacket) × (self.old.kept ≡ first ∷ self.new.kept) }
        ensures none { result ≡ false → (self.old.kept ≡ []) × (self.new.kept ≡ []) }
        ensures rest { self.new ≡ record self.old { kept = self.new.kept } }
    {
        let Some(oldest) = self.kept.pop_front() else {
            return false;
        };
        self.size -= oldest.bytes.len();
        true
    }

    // What is kept of the entry behind so many.
    fn kept_behind(&self, count: u64) -> Option<&Kept>
        ensures { (network : Network) → (list : List Entry) → IsRecentOf network list self.now →
            IfSome result (λ kept. IsValueAt network list count kept.now.before
            × IsPacketBehind network list count kept.now.bytes) }
    {
        let first = self.epoch.saturating_sub(self.kept.len() as u64);
        let place = count.checked_sub(first)?;
        self.kept.get(place as usize)
    }
}

impl History for RecentPackets {
    ghost use Rattle.hose_lead.specs.steps.History.{IsRecentOf};

    ghost is_of = { λ recent network list. IsRecentOf network list recent };

    fn epoch(&self) -> u64 {
        self.epoch
    }

    fn packet(&self, count: u64) -> Option<&[u8]> {
        let kept = self.kept_behind(count)?;
        Some(&kept.bytes)
    }

    fn value(&self, count: u64) -> Option<[u8; VALUE_BYTES]> {
        if count == self.epoch {
            return Some(self.value);
        }
        let kept = self.kept_behind(count)?;
        Some(kept.before)
    }
}
