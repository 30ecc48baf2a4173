// Planning over a copy of the links in service, and beside one of the loads.
ghost use Rattle.std.specs.Prelude.{MatchResult};
ghost use Rattle.hose_law.specs.History.{book_of};
ghost use Rattle.hose_law.specs.steps.Plan.{AreNodes};
ghost use Rattle.hose_core.specs.steps.Planning.{IsPlannedFor};
ghost use Rattle.hose_shared.specs.steps.Along.{IsNotTried};
ghost use Rattle.hose_shared.specs.steps.Sharing.{HasSeenMore, IsPassOf};

use crate::caller::Caller;
use crate::kept::Begun;
use crate::shared::Shared;
use hose_book::Books;
use hose_core::{Admission, BookView, Quote, newest_now, plan_beside};
use hose_disk::Disk;
use hose_graph::Reply;
use hose_links::LinkSet;
use hose_paths::{RowMaker, kept_rows};
use hose_turn::Pass;
use std::sync::Wait;

impl<D: Disk, B: Begun<D>> Shared<D, B> {
    /// The plan of a hose over the links in service at a place of the history, which the pass has
    /// seen then, and beside the loads there; or the reply where it has none. Where a number is
    /// named and the customer's newest VPN there has another one, the reply tells that. It is made
    /// outside of the lock.
    pub(crate) fn plan<W: Wait, G, R: RowMaker>(
        &self,
        caller: &Caller<'_, W, G>,
        pass: Pass,
        asked: Admission,
        rows: &mut R,
    ) -> (Result<Quote, Reply>, Pass)
        requires of { IsPassOf self.now pass }
        requires nodes { AreNodes self.now.network asked.hose }
        ensures more { HasSeenMore pass result.1 }
        ensures planned { let book = book_of 0 result.1.seen in
            MatchResult result.0 (IsPlannedFor self.now.network book asked.hose)
            (IsNotTried self.now.network book caller.now.customer.now asked.known asked.hose) }
    {
        let Admission { known, hose } = asked;
        let alloc = caller.context.alloc;
        let links = self.topology.links();
        let Ok(mut loads) = Vec::from_elem(alloc, 0, links as usize) else {
            return (Err(Reply::Memory), pass);
        };
        let Ok(mut service) = LinkSet::new(alloc, links) else {
            return (Err(Reply::Memory), pass);
        };
        // The links in service and the loads are copied, so that others have their turns meanwhile.
        let held = self.turn.lock(caller.context.rt, pass);
        let store = &held.value().store;
        let book = store.book();
        service.copy_from(book.service());
        loads.copy_from_slice(book.loads());
        let epoch = book.epoch();
        let instead = newest_now(store, caller.customer, known);
        let pass = self.turn.unlock(held);
        if let Some(reply) = instead {
            return (Err(reply), pass);
        }
        let seen = BookView {
            top: &self.topology,
            service: &service,
            loads: &loads,
            kept: kept_rows(self.table.as_ref(), &service),
            epoch,
        };
        (plan_beside(alloc, seen, hose, rows), pass)
    }
}
