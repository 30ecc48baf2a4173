// What a customer asks for, and what a line is answered.

use crate::amounts::Amounts;
use crate::hose::Hose;
use crate::node_list::NodeList;
use crate::vpn_list::VpnList;

/// What a customer asks for. A later command is a variant of its own.
#[derive(Debug, Drop)]
pub enum Command {
    /// To admit a network of these endpoints.
    Admit(Hose),
    /// To admit a network of these endpoints where the customer's newest live network has the
    /// number `known`, or where there is none and it is 0.
    AdmitAfter { known: u64, hose: Hose },
    /// To plan a network of these endpoints and hold the plan.
    Quote(Hose),
    /// To admit the network that is held under this number.
    Take(u64),
    /// To give up the network of this number.
    Release(u64),
    /// To tell the network of this number.
    Show(u64),
    /// To tell the numbers of the customer's live networks.
    Vpns,
    /// To tell a link, what is reserved on it, and whether it is out of service.
    Link(u32),
    /// To take a link out of service, so that no new tree uses it.
    Down(u32),
    /// To put a link back into service.
    Up(u32),
}

/// What a line is answered. `at` is the epoch at which the reply holds: the one after the entry
/// where there is one, and that of the decision for all others.
#[derive(Debug, Drop)]
pub enum Reply {
    /// A session began.
    Welcome {
        at: u64,
    },
    /// The network has the number `id`. Each link of its tree reserves its amount, and `cost` is
    /// what these cost.
    Admitted {
        id: u64,
        cost: u64,
        at: u64,
        amounts: Amounts,
    },
    /// As `Admitted`, but only offered, under the number `quote`.
    Quoted {
        quote: u64,
        cost: u64,
        at: u64,
        amounts: Amounts,
    },
    /// There is no room. `side` is what the lowest endpoint reaches over links with half of the
    /// rates free.
    Refused {
        at: u64,
        side: NodeList,
    },
    /// What a quote of the epoch `seen` rests on has changed.
    Stale {
        seen: u64,
        now: u64,
    },
    /// The network of this number was given up.
    Released {
        id: u64,
        at: u64,
    },
    /// The customer has no live network of this number.
    NoVpn {
        id: u64,
        at: u64,
    },
    /// The customer holds no quote of this number.
    NoQuote {
        quote: u64,
        at: u64,
    },
    /// The customer holds as many quotes as can be.
    TooMany {
        at: u64,
    },
    /// The network of this number: what it costs, its endpoints, and what its links reserve.
    Shown {
        id: u64,
        cost: u64,
        at: u64,
        hose: Hose,
        amounts: Amounts,
    },
    /// The numbers of the customer's live networks.
    Vpns {
        at: u64,
        ids: VpnList,
    },
    /// The customer's newest live network has this number, 0 where there is none, and another one
    /// was to be the newest.
    Newest {
        id: u64,
        at: u64,
    },
    /// A link, with what is reserved on it, and whether it is out of service.
    LinkState {
        link: u64,
        load: u64,
        out: bool,
        at: u64,
    },
    /// The link was taken out of service.
    Down {
        link: u64,
        at: u64,
    },
    /// The link was put back into service.
    Up {
        link: u64,
        at: u64,
    },
    /// The link is already out of service, or in service, as was asked for.
    Already {
        link: u64,
        at: u64,
    },
    /// Only the operator may ask for this.
    Denied {
        at: u64,
    },
    /// As many networks are live as can be.
    Full {
        at: u64,
    },
    /// No epoch is left.
    Spent {
        at: u64,
    },
    /// The disk failed, and the command may or may not be kept.
    Disk {
        at: u64,
    },
    /// There was no memory, and nothing was done.
    Memory,
    /// The line is not one of the grammar. `word` is the first one that is not allowed, counted
    /// from 1.
    Bad {
        word: u64,
    },
    /// The line is too long.
    Long,
    /// The session ends.
    Bye,
}
