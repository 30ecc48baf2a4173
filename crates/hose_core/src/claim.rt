// Claims on what a take, a release or an order of the operator needs.
ghost use Rattle.std.specs.Prelude.{◌≡◌, ◌<◌, ◌≤◌, IfOk};
ghost use Rattle.hose_graph.specs.Ranges.{AreInRanges};
ghost use Rattle.hose_graph.specs.declared.entry.Entry.{Entry};
ghost use Rattle.hose_graph.specs.declared.limits.TheConstants.{MOST_EPOCH, MOST_LINKS};
ghost use Rattle.hose_law.specs.steps.Service.{service_entry};
ghost use Rattle.hose_core.specs.steps.Claiming.{IsClaimOf, IsReleaseClaim, IsServiceClaim};

use crate::quotes::Quote;
use hose_book::Books;
use hose_graph::{Amounts, Entry, Name};
use std::alloc::{AllocError, Global};

/// All the memory that a take needs, taken before it.
#[derive(Drop)]
pub struct Claim<K: Books> {
    /// What joins the book where it is accepted.
    pub entry: Entry,
    pub(crate) ready: K::Ready,
    // What the reply tells.
    pub(crate) told: Amounts,
}

/// All the memory that a release needs, taken before it.
#[derive(Drop)]
pub struct ReleaseClaim<K: Books> {
    pub(crate) customer: Name,
    pub(crate) id: u64,
    pub(crate) ready: K::Ready,
}

impl<K: Books> ReleaseClaim<K> {
    /// What joins the book where it is accepted.
    pub fn entry(&self) -> Entry
        ensures { result ≡ Entry.Release self.now.customer self.now.id }
    {
        Entry::Release {
            customer: self.customer,
            id: self.id,
        }
    }
}

/// All the memory that an order of the operator needs, taken before it: the link that is to be
/// taken out of service, where `down` is true, or put back.
#[derive(Drop)]
pub struct ServiceClaim<K: Books> {
    pub(crate) link: u32,
    pub(crate) down: bool,
    pub(crate) ready: K::Ready,
}

impl<K: Books> ServiceClaim<K> {
    /// What joins the book where it is accepted.
    pub fn entry(&self) -> Entry
        ensures { result ≡ service_entry self.now.down self.now.link }
    {
        service_entry(self.link, self.down)
    }
}

/// Claims what a customer needs to take a quote.
pub fn claim_take<K: Books>(
    alloc: Global,
    customer: &Name,
    quote: &Quote,
) -> Result<Claim<K>, AllocError>
    requires { AreInRanges quote.now.amounts }
    ensures { IfOk result (λ claim. IsClaimOf K.Books claim customer.now quote.now) }
{
    let told = quote.amounts.copy(alloc)?;
    let entry = Entry::Admit {
        customer: *customer,
        hose: quote.hose.copy(alloc)?,
        amounts: quote.amounts.copy(alloc)?,
    };
    let ready = K::prepare(alloc, &entry)?;
    Ok(Claim { entry, ready, told })
}

/// Claims what a customer needs to release the VPN of a number of at most 4,000,000,000.
pub fn claim_release<K: Books>(
    alloc: Global,
    customer: &Name,
    id: u64,
) -> Result<ReleaseClaim<K>, AllocError>
    requires { id ≤ MOST_EPOCH }
    ensures { IfOk result (λ claim. IsReleaseClaim K.Books claim customer.now id) }
{
    let customer = *customer;
    let ready = K::prepare(alloc, &Entry::Release { customer, id })?;
    Ok(ReleaseClaim {
        customer,
        id,
        ready,
    })
}

/// Claims what is needed to take a link out of service, where `down` is true, or to put it back.
/// The link's number is below 2,048.
pub fn claim_service<K: Books>(
    alloc: Global,
    link: u32,
    down: bool,
) -> Result<ServiceClaim<K>, AllocError>
    requires { link < MOST_LINKS }
    ensures { IfOk result (λ claim. IsServiceClaim K.Books claim down link) }
{
    let ready = K::prepare(alloc, &service_entry(link, down))?;
    Ok(ServiceClaim { link, down, ready })
}

// The entry that takes a link out of service, or puts it back.
fn service_entry(link: u32, down: bool) -> Entry
    ensures { result ≡ service_entry down link }
{
    if down {
        return Entry::Down { link };
    }
    Entry::Up { link }
}
