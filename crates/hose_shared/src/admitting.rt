// Admissions.
ghost use Rattle.hose_graph.specs.declared.command.Command.{Command};
ghost use Rattle.hose_law.specs.History.{book_of};
ghost use Rattle.hose_law.specs.steps.Plan.{AreNodes};
ghost use Rattle.hose_core.specs.steps.Bound.{admission_command};
ghost use Rattle.hose_core.specs.steps.Holding.{IsMadeAt};
ghost use Rattle.hose_shared.specs.steps.Along.{AnswersAlong, IsTried};
ghost use Rattle.hose_shared.specs.steps.Sharing.{IsPassOf};

use crate::caller::Caller;
use crate::kept::Begun;
use crate::shared::Shared;
use hose_core::{Admission, Quote, admit_claimed_now, admit_with_rows, claim_take};
use hose_disk::Disk;
use hose_graph::{Hose, Reply};
use hose_paths::RowMaker;
use hose_pool::{Gate, Point};
use hose_turn::Pass;
use std::snapshot::Snapshot;
use std::sync::Wait;

// How often an admission is planned outside of the lock.
const TRIES: u32 = 3;

impl<D: Disk, B: Begun<D>> Shared<D, B> {
    /// Admits a hose: `Admitted`, `Refused`, `Spent`, `Full`, `Disk` or `Memory`. Its endpoints are
    /// nodes of the network. It is planned outside of the lock, and then taken; where the plan has
    /// gone stale by then it is planned again, and after three times under the lock.
    pub fn admit<W: Wait, G: Gate, R: RowMaker>(
        &self,
        caller: &Caller<'_, W, G>,
        pass: Pass,
        hose: Hose,
        rows: &mut R,
    ) -> (Reply, Pass)
        requires of { IsPassOf self.now pass }
        requires nodes { AreNodes self.now.network hose }
        ensures { AnswersAlong self.now.network caller.now.customer.now
            (Command.Admit hose) result.0 pass result.1 }
    {
        let asked = Admission { known: None, hose };
        self.admit_bound(caller, pass, asked, rows)
    }

    /// Admits a hose as `admit` does. Where a number is named, the customer's newest live VPN has
    /// to have it, or where it is 0 the customer has none. Else the reply is `Newest`, which comes
    /// before all others but `Memory`: it is looked at together with the loads, and again where
    /// the plan is taken.
    pub(crate) fn admit_bound<W: Wait, G: Gate, R: RowMaker>(
        &self,
        caller: &Caller<'_, W, G>,
        pass: Pass,
        asked: Admission,
        rows: &mut R,
    ) -> (Reply, Pass)
        requires of { IsPassOf self.now pass }
        requires nodes { AreNodes self.now.network asked.hose }
        ensures { AnswersAlong self.now.network caller.now.customer.now
            (admission_command asked.known asked.hose) result.0 pass result.1 }
    {
        let mut pass = pass;
        let mut asked = asked;
        for _ in 0..TRIES {
            let known = asked.known;
            let (planned, seen) = self.plan(caller, pass, asked, rows);
            let quote = match planned {
                Ok(quote) => quote,
                Err(reply) => return (reply, seen),
            };
            caller.context.gate.at(Point::Planned {
                session: caller.session,
            });
            let (tried, later) = self.take_planned(caller, seen, known, quote);
            pass = later;
            match tried {
                Ok(reply) => return (reply, pass),
                Err(hose) => asked = Admission { known, hose },
            }
        }
        // The rest is done under the lock.
        let (mut held, start) = self.begin_turn(caller.context.rt, pass);
        let (alloc, customer) = (caller.context.alloc, caller.customer);
        let store = &mut held.value_mut().store;
        let table = self.table.as_ref();
        let (reply, entry) = admit_with_rows(alloc, store, customer, asked, table, rows);
        let pass = self.end_turn(held, start, entry, &reply);
        (reply, pass)
    }

    // Takes a plan that was made of all that the pass has seen, bound as before. Where it is stale
    // by now, its hose comes back.
    fn take_planned<W: Wait, G: Gate>(
        &self,
        caller: &Caller<'_, W, G>,
        pass: Pass,
        known: Option<u64>,
        quote: Quote,
    ) -> (Result<Reply, Hose>, Pass)
        requires of { IsPassOf self.now pass }
        requires planned { IsMadeAt self.now.network (book_of 0 pass.seen) quote }
        ensures { IsTried self.now.network caller.now.customer.now known quote.hose pass result.1
            result.0 }
    {
        let Ok(claim) = claim_take(caller.context.alloc, caller.customer, &quote) else {
            return (Ok(Reply::Memory), pass);
        };
        let entry = Snapshot::of(&claim.entry);
        let (mut held, start) = self.begin_turn(caller.context.rt, pass);
        let store = &mut held.value_mut().store;
        let settled = admit_claimed_now(store, caller.customer, known, &quote, claim);
        let Some(reply) = settled else {
            let pass = self.end_turn(held, start, None, &Reply::Memory);
            return (Err(quote.hose), pass);
        };
        let pass = self.end_turn(held, start, Some(entry), &reply);
        (Ok(reply), pass)
    }
}
