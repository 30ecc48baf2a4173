// What an entry does to the book.
ghost use Rattle.std.specs.Prelude.{◌≡◌, ◌+◌, ◌<◌, ◌≤◌, ◌^◌, ℕ, List, length, slice_index, slice_get, All, IsSomeAnd};
ghost use Rattle.hose_graph.specs.Amounts.{link_of};
ghost use Rattle.hose_graph.specs.Hose.{IsHose};
ghost use Rattle.hose_law.specs.Book.{IsLiveVpn, amount_on};
ghost use Rattle.hose_law.specs.History.{IsSoundAt};
ghost use Rattle.hose_graph.specs.Limits.{most_epoch};
ghost use Rattle.hose_graph.specs.declared.entry.Entry.{Entry};
ghost use Rattle.hose_law.specs.steps.Tracks.{Tracks};
ghost use Rattle.hose_book.specs.Ledger.{HasBookOf};
ghost use Rattle.hose_book.specs.steps.Changes.{opening_recent};
ghost use Rattle.hose_book.specs.steps.Ledger.{TracksOn, next_ledger};

use crate::Book;
use hose_graph::{Amounts, Entry, Hose, Name, ReservedLink, Vpn};

impl Book {
    /// Enters an entry for which `check` answers Ok: the epoch is one more, an admitted VPN is the
    /// last of the live, a released one is not live any more, a link is taken out of service or put
    /// back, and the links that the entry touched are changes of the new epoch. It takes no memory.
    pub fn apply(&mut self, entry: Entry)
        requires { IsSoundAt self.old.network self.old.book entry }
        ensures ledger { self.new ≡ next_ledger self.old entry }
        // What tracked a history tracks it with the entry.
        ensures tracks { TracksOn self.old entry self.new }
    {
        match entry {
            Entry::Admit {
                customer,
                hose,
                amounts,
            } => self.admit(customer, hose, amounts),
            Entry::Release { customer, id } => self.release(&customer, id),
            Entry::Down { link } => self.take_out(link),
            Entry::Up { link } => self.put_back(link),
        }
    }

    /// Forgets which links the entries touched so far: from now on it keeps the changes of later
    /// epochs alone.
    pub fn forget_changes(&mut self)
        ensures ledger { self.new ≡ record self.old {
          recent = opening_recent self.old.book.epoch;
        } }
        // Whatever history it is the book of, it tracks from now on.
        ensures tracks { (epoch : ℕ) (history : List Entry) → HasBookOf epoch history self.old
            → Tracks epoch history self.new.recent }
    {
        self.recent.restart(self.epoch);
    }

    fn take_out(&mut self, link: u32)
        requires { IsSoundAt self.old.network self.old.book (Entry.Down link) }
        ensures { self.new ≡ next_ledger self.old (Entry.Down link) }
    {
        self.served.take_out(link);
        self.recent.add_link(self.epoch, link);
        self.epoch += 1;
    }

    fn put_back(&mut self, link: u32)
        requires { IsSoundAt self.old.network self.old.book (Entry.Up link) }
        ensures { self.new ≡ next_ledger self.old (Entry.Up link) }
    {
        self.served.put_back(link);
        self.recent.add_link(self.epoch, link);
        self.epoch += 1;
    }

    fn admit(&mut self, customer: Name, hose: Hose, amounts: Amounts)
        requires { IsSoundAt self.old.network self.old.book (Entry.Admit customer hose amounts) }
        ensures { self.new ≡ next_ledger self.old (Entry.Admit customer hose amounts) }
    {
        // That this is a hose is told by the call that gives its endpoints.
        let _ends = hose.ends();
        let pairs = amounts.pairs();
        add_amounts(&mut self.loads, pairs);
        self.recent.add(self.epoch, pairs);
        self.epoch += 1;
        self.live.push(Vpn {
            id: self.epoch,
            customer,
            hose,
            amounts,
        });
    }

    fn release(&mut self, customer: &Name, id: u64)
        requires { IsSoundAt self.old.network self.old.book (Entry.Release customer.now id) }
        ensures { self.new ≡ next_ledger self.old (Entry.Release customer.now id) }
    {
        // It is there, as the entry is sound.
        if let Some(place) = self.place_of(customer, id) {
            self.remove(customer, id, place);
        }
    }

    // Takes the VPN at a place out of the book.
    fn remove(&mut self, customer: &Name, id: u64, place: usize)
        requires there { IsSomeAnd (slice_get self.old.book.live place)
            (IsLiveVpn self.old.book customer.now id) }
        requires epoch { self.old.book.epoch < most_epoch }
        ensures { self.new ≡ next_ledger self.old (Entry.Release customer.now id) }
    {
        let vpn = &self.live.as_slice()[place];
        subtract_amounts(&mut self.loads, vpn.amounts.pairs());
        self.recent.add(self.epoch, vpn.amounts.pairs());
        self.live.remove(place);
        self.epoch += 1;
    }
}

// Adds what a plan reserves to the loads.
fn add_amounts(loads: &mut [u64], amounts: &[ReservedLink])
    requires links { All (λ pair. link_of pair < length loads.old) amounts.now }
    requires fits { (l : ℕ) → l < length loads.old
        → slice_index loads.old l + amount_on l amounts.now < 2 ^ 64 }
    ensures { (l : ℕ) → l < length loads.old
        → slice_index loads.new l ≡ slice_index loads.old l + amount_on l amounts.now }
{
    for (l, amount) in amounts {
        loads[*l as usize] += *amount;
    }
}

// Subtracts what a plan reserves from the loads.
fn subtract_amounts(loads: &mut [u64], amounts: &[ReservedLink])
    requires links { All (λ pair. link_of pair < length loads.old) amounts.now }
    requires held { (l : ℕ) → l < length loads.old
        → amount_on l amounts.now ≤ slice_index loads.old l }
    ensures { (l : ℕ) → l < length loads.old
        → slice_index loads.new l + amount_on l amounts.now ≡ slice_index loads.old l }
{
    for (l, amount) in amounts {
        loads[*l as usize] -= *amount;
    }
}
