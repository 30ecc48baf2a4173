// What one turn answers: questions after what is live, its release, and orders of the operator.
ghost use Rattle.std.specs.Prelude.{◌≤◌, ℕ, List};
ghost use Rattle.hose_graph.specs.Network.{IsLinkOf};
ghost use Rattle.hose_graph.specs.declared.command.Command.{Command};
ghost use Rattle.hose_graph.specs.declared.limits.TheConstants.{MOST_EPOCH};
ghost use Rattle.hose_core.specs.steps.Service.{service_command};
ghost use Rattle.hose_shared.specs.steps.Along.{AnswersAlong};
ghost use Rattle.hose_shared.specs.steps.Sharing.{IsPassOf};

use crate::caller::Caller;
use crate::kept::Begun;
use crate::shared::Shared;
use hose_core::{
    claim_release, claim_service, link_now, release_now, service_now, show_now, vpns_now,
};
use hose_disk::Disk;
use hose_graph::Reply;
use hose_pool::Gate;
use hose_turn::Pass;
use std::snapshot::Snapshot;
use std::sync::Wait;

impl<D: Disk, B: Begun<D>> Shared<D, B> {
    /// Tells a customer what the VPN of a number is: `Shown`, `NoVpn` or `Memory`.
    pub fn show<W: Wait, G: Gate>(
        &self,
        caller: &Caller<'_, W, G>,
        pass: Pass,
        id: u64,
    ) -> (Reply, Pass)
        requires { IsPassOf self.now pass }
        ensures { AnswersAlong self.now.network caller.now.customer.now
            (Command.Show id) result.0 pass result.1 }
    {
        let (held, start) = self.begin_turn(caller.context.rt, pass);
        let reply = show_now(
            caller.context.alloc,
            &held.value().store,
            caller.customer,
            id,
        );
        let pass = self.end_turn(held, start, None, &reply);
        (reply, pass)
    }

    /// Tells a customer the numbers of the VPNs that are live and the customer's: `Vpns` or
    /// `Memory`.
    pub fn vpns<W: Wait, G: Gate>(&self, caller: &Caller<'_, W, G>, pass: Pass) -> (Reply, Pass)
        requires { IsPassOf self.now pass }
        ensures { AnswersAlong self.now.network caller.now.customer.now
            Command.Vpns result.0 pass result.1 }
    {
        let (held, start) = self.begin_turn(caller.context.rt, pass);
        let reply = vpns_now(caller.context.alloc, &held.value().store, caller.customer);
        let pass = self.end_turn(held, start, None, &reply);
        (reply, pass)
    }

    /// Tells what is reserved on a link of the network: `LinkState`.
    pub fn link<W: Wait, G: Gate>(
        &self,
        caller: &Caller<'_, W, G>,
        pass: Pass,
        link: u32,
    ) -> (Reply, Pass)
        requires of { IsPassOf self.now pass }
        requires link { IsLinkOf self.now.network link }
        ensures { (customer : List ℕ) → AnswersAlong self.now.network customer
            (Command.Link link) result.0 pass result.1 }
    {
        let (held, start) = self.begin_turn(caller.context.rt, pass);
        let reply = link_now(&held.value().store, link);
        let pass = self.end_turn(held, start, None, &reply);
        (reply, pass)
    }

    /// Gives up a customer's VPN of a number of at most 4,000,000,000: `Released`, `NoVpn`,
    /// `Spent`, `Disk` or `Memory`.
    pub fn release<W: Wait, G: Gate>(
        &self,
        caller: &Caller<'_, W, G>,
        pass: Pass,
        id: u64,
    ) -> (Reply, Pass)
        requires of { IsPassOf self.now pass }
        requires id { id ≤ MOST_EPOCH }
        ensures { AnswersAlong self.now.network caller.now.customer.now
            (Command.Release id) result.0 pass result.1 }
    {
        let Ok(claim) = claim_release(caller.context.alloc, caller.customer, id) else {
            return (Reply::Memory, pass);
        };
        let entry = Snapshot::of(&claim.entry());
        let (mut held, start) = self.begin_turn(caller.context.rt, pass);
        let reply = release_now(&mut held.value_mut().store, claim);
        let pass = self.end_turn(held, start, Some(entry), &reply);
        (reply, pass)
    }

    /// Takes a link of the network out of service, where `down` is true, or puts it back: `Down`,
    /// `Up`, `Denied`, `Already`, `Spent`, `Disk` or `Memory`. Any customer but the operator is
    /// denied. What was planned beside it is planned anew where its grounds are others then.
    pub fn operate<W: Wait, G: Gate>(
        &self,
        caller: &Caller<'_, W, G>,
        pass: Pass,
        link: u32,
        down: bool,
    ) -> (Reply, Pass)
        requires of { IsPassOf self.now pass }
        requires link { IsLinkOf self.now.network link }
        ensures { AnswersAlong self.now.network caller.now.customer.now
            (service_command down link) result.0 pass result.1 }
    {
        let is_operator = caller.customer.is_operator();
        if !is_operator {
            let (at, pass) = self.now(caller.context.rt, pass);
            return (Reply::Denied { at }, pass);
        }
        // What holds of the network is told with it: how many links there can be.
        let _topology = self.topology();
        let Ok(claim) = claim_service(caller.context.alloc, link, down) else {
            return (Reply::Memory, pass);
        };
        let entry = Snapshot::of(&claim.entry());
        let (mut held, start) = self.begin_turn(caller.context.rt, pass);
        let reply = service_now(&mut held.value_mut().store, claim);
        let pass = self.end_turn(held, start, Some(entry), &reply);
        (reply, pass)
    }
}
