// One packet, offered to the store of a follower.
ghost use Rattle.std.specs.Prelude.{◌≡◌, ◌+◌, ◌↔◌, ℕ, List, IsTrue};
ghost use Rattle.hose_follow.specs.steps.Offering.{IsChainOf, IsOffered};

use crate::answers::Offered;
use crate::packet::VALUE_BYTES;
use hose_book::{Books, Committed};
use hose_codec::{CodecFault, decode};
use hose_disk::Disk;
use hose_store::Store;
use std::alloc::Global;

/// Offers a packet to a follower: the epoch after its entry, the chain value before it, and its
/// body. The entry is committed where it is the follower's next one, and its book takes it.
pub fn offer<D: Disk>(
    alloc: Global,
    store: &mut Store<D>,
    epoch: u64,
    chain: [u8; VALUE_BYTES],
    body: &[u8],
) -> Offered
    ensures { IsOffered D.Disk store.old
        (record { epoch = epoch; chain = chain; body = body.now }) result store.new }
{
    let own_epoch = store.book().epoch();
    if epoch <= own_epoch {
        return Offered::Have { n: own_epoch };
    }
    if epoch > own_epoch + 1 {
        return Offered::Want { n: own_epoch + 1 };
    }
    let own = store.chain();
    if !is_same(&own, &chain) {
        return Offered::Differs {
            at: own_epoch,
            own,
            given: chain,
        };
    }
    enter(alloc, store, epoch, body)
}

// Enters the entry of a body, which has the follower's next epoch.
fn enter<D: Disk>(alloc: Global, store: &mut Store<D>, epoch: u64, body: &[u8]) -> Offered
    requires { epoch ≡ store.old.ledger.book.epoch + 1 }
    ensures { (chain : List ℕ) → IsChainOf D.Disk store.old chain →
        IsOffered D.Disk store.old
        (record { epoch = epoch; chain = chain; body = body.now }) result store.new }
{
    let entry = match decode(alloc, body) {
        Ok(entry) => entry,
        Err(CodecFault::Bad) => return Offered::Unsound { epoch },
        Err(CodecFault::Memory) => return Offered::Memory,
    };
    if store.book().check(&entry).is_err() {
        return Offered::Unsound { epoch };
    }
    let Ok(ready) = Store::<D>::prepare(alloc, &entry) else {
        return Offered::Memory;
    };
    match store.commit(entry, ready) {
        Committed::Done => Offered::Have { n: epoch },
        Committed::Disk => Offered::Disk { at: epoch - 1 },
    }
}

// Whether two chain values are the same.
fn is_same(one: &[u8], other: &[u8]) -> bool
    ensures { IsTrue result ↔ (one.now ≡ other.now) }
{
    one == other
}
