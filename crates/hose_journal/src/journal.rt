// A journal to which entries are added.
ghost use Rattle.std.specs.Prelude.{◌≡◌, ◌⊎◌, ◌<◌, ◌≤◌, ◌+◌, ◌∷◌, [], Option, Some, None, false, length, IfOk, IsFalse, IsTrue, IsOk, OnErr, OnOk};
ghost use Rattle.hose_graph.specs.declared.entry.Entry.{Entry};
ghost use Rattle.hose_graph.specs.steps.Ranges.{IsInRanges};
ghost use Rattle.hose_disk.specs.steps.Disk.{IsCalled};
ghost use Rattle.hose_journal.specs.Chain.{chain};
ghost use Rattle.hose_journal.specs.steps.Entries.{IsListOf};
ghost use Rattle.hose_journal.specs.steps.Journal.{Account, IsListAmid, IsReady, Stands, with_doubt, account_with};
ghost use Rattle.hose_journal.specs.Moments.{Images, LeavesOnly, TellsAsBefore};
ghost use Rattle.hose_journal.specs.steps.Moments.{IsTornFrom, Lands};
ghost use Rattle.hose_journal.specs.declared.layout.TheConstants.{CLOSED};

use crate::chaining::chain_after;
use crate::layout::{CLOSED, DIGEST_BYTES, OPEN};
use crate::prepared::{Ready, fill_record, fill_seal};
use crate::steps::{set_gate, stage};
use hose_codec::encode;
use hose_disk::{Disk, Failed};
use hose_graph::{Entry, MOST_EPOCH};
use std::alloc::{AllocError, Global};

/// A journal to which entries are added, one at a time.
///
/// An entry whose append fails in its last two calls on the disk is in doubt: a stop may leave it
/// or not, until it is revoked. At most one is in doubt at any moment.
#[derive(Drop)]
pub struct Journal<D: Disk> {
    disk: D,
    gate: u64,
    doubt: bool,
    sealed: bool,
    chain: [u8; DIGEST_BYTES],
    buffer: Vec<u8>,
}

impl<D: Disk> Journal<D> {
    // The journal with its last gate at this place, and no entry in doubt.
    pub(crate) fn at(
        disk: D,
        gate: u64,
        sealed: bool,
        chain: [u8; DIGEST_BYTES],
        buffer: Vec<u8>,
    ) -> Journal<D>
        ensures { result ≡ record {
          disk = disk;
          gate = gate;
          doubt = false;
          sealed = sealed;
          chain = chain;
          buffer = buffer;
        } }
    {
        Journal {
            disk,
            gate,
            doubt: false,
            sealed,
            chain,
            buffer,
        }
    }

    /// Whether an entry is in doubt.
    pub fn doubt(&self) -> bool
        ensures { result ≡ self.now.doubt }
    {
        self.doubt
    }

    /// Whether the records that follow have chain values.
    pub fn sealed(&self) -> bool
        ensures { result ≡ self.now.sealed }
    {
        self.sealed
    }

    /// The chain value of the entries.
    pub fn chain(&self) -> [u8; DIGEST_BYTES]
        ensures is { result ≡ self.now.chain }
        ensures chain { (account : Account) → Stands D.Disk self.now account →
            result ≡ chain account.digest account.entries }
    {
        self.chain
    }

    /// Revokes the entry in doubt. Without one it makes no call on the disk.
    pub fn settle(&mut self) -> Result<(), Failed>
        requires { (account : Account) × Stands D.Disk self.old account }
        // At every moment each image stands for the entries, with the one in doubt or without it.
        ensures any_moment { (account : Account) → Stands D.Disk self.old account →
            LeavesOnly D.Disk self.old.disk self.new.disk (IsListAmid account None) }
        ensures settled { OnOk result ((account : Account) → Stands D.Disk self.old account →
            Stands D.Disk self.new (with_doubt account None)) }
        // Its gate is closed by the byte that a new journal's has.
        ensures closed { IsTrue self.old.doubt → OnOk result
            (Lands D.Disk self.old.disk self.new.disk self.old.gate (CLOSED ∷ [])) }
        // Whatever it answers, it wrote nothing but that gate.
        ensures torn { IsTrue self.old.doubt →
            Images D.Disk self.new.disk (IsTornFrom D.Disk self.old.disk self.old.gate 1) }
        ensures failed { OnErr result ((account : Account) → Stands D.Disk self.old account →
            Stands D.Disk self.new account) }

        ensures unsure { OnErr result (IsTrue self.old.doubt) }
        ensures kept { self.new ≡ record self.old { disk = self.new.disk; doubt = self.new.doubt } }
        ensures none { IsFalse self.old.doubt → self.new ≡ self.old }
        ensures tells { TellsAsBefore D.Disk self.old.disk self.new.disk }
        ensures call { IsTrue self.old.doubt →
            IsCalled (D.frame self.old.disk) (D.frame self.new.disk) result }
    {
        if self.doubt {
            set_gate(&mut self.disk, self.gate, CLOSED)?;
            self.doubt = false;
        }
        Ok(())
    }

    /// Adds an entry to a sealed journal, after the one in doubt was revoked.
    pub fn append(&mut self, ready: &Ready) -> Result<(), Failed>
        requires stands { (account : Account) × (entry : Entry) × Stands D.Disk self.old account
            × IsReady entry ready.now × (length account.entries < MOST_EPOCH) }
        requires sealed { IsTrue self.old.sealed }
        // At every moment each image stands for the entries, or for them and one more: this one, or
        // the one that was in doubt.
        ensures any_moment { (account : Account) → (entry : Entry) →
            Stands D.Disk self.old account → IsReady entry ready.now →
            length account.entries < MOST_EPOCH →
            LeavesOnly D.Disk self.old.disk self.new.disk (IsListAmid account (Some entry)) }
        ensures added { OnOk result ((account : Account) → (entry : Entry) →
            Stands D.Disk self.old account → IsReady entry ready.now →
            length account.entries < MOST_EPOCH →
            Stands D.Disk self.new (account_with account entry)) }
        ensures durable { OnOk result ((account : Account) → (entry : Entry) →
            Stands D.Disk self.old account → IsReady entry ready.now →
            length account.entries < MOST_EPOCH →
            Images D.Disk self.new.disk
            (IsListOf account.digest (account_with account entry).entries)) }
        // The entry in doubt is the one of before where it could not be revoked; else it is none,
        // or this one.
        ensures failed { OnErr result ((account : Account) → (entry : Entry) →
            Stands D.Disk self.old account → IsReady entry ready.now →
            length account.entries < MOST_EPOCH →
            Stands D.Disk self.new account
            ⊎ (Stands D.Disk self.new (with_doubt account None)
            ⊎ Stands D.Disk self.new (with_doubt account (Some entry)))) }

        ensures sealed { IsTrue self.new.sealed }
        ensures tells { TellsAsBefore D.Disk self.old.disk self.new.disk }
        ensures call { IsCalled (D.frame self.old.disk) (D.frame self.new.disk) result }
    {
        self.settle()?;
        self.add_entry(ready)
    }

    // Adds an entry where none is in doubt.
    fn add_entry(&mut self, ready: &Ready) -> Result<(), Failed>
        requires stands { (account : Account) × (entry : Entry)
            × Stands D.Disk self.old (with_doubt account None)
            × IsReady entry ready.now × (length account.entries < MOST_EPOCH) }
        requires sealed { IsTrue self.old.sealed }
        ensures any_moment { (account : Account) → (entry : Entry) →
            Stands D.Disk self.old (with_doubt account None) → IsReady entry ready.now →
            length account.entries < MOST_EPOCH →
            LeavesOnly D.Disk self.old.disk self.new.disk
            (IsListAmid (with_doubt account None) (Some entry)) }
        ensures added { OnOk result ((account : Account) → (entry : Entry) →
            Stands D.Disk self.old (with_doubt account None) → IsReady entry ready.now →
            length account.entries < MOST_EPOCH →
            Stands D.Disk self.new (account_with account entry)) }
        ensures durable { OnOk result ((account : Account) → (entry : Entry) →
            Stands D.Disk self.old (with_doubt account None) → IsReady entry ready.now →
            length account.entries < MOST_EPOCH →
            Images D.Disk self.new.disk
            (IsListOf account.digest (account_with account entry).entries)) }
        ensures failed { OnErr result ((account : Account) → (entry : Entry) →
            Stands D.Disk self.old (with_doubt account None) → IsReady entry ready.now →
            length account.entries < MOST_EPOCH →
            Stands D.Disk self.new (with_doubt account None)
            ⊎ Stands D.Disk self.new (with_doubt account (Some entry))) }

        ensures sealed { IsTrue self.new.sealed }
        ensures tells { TellsAsBefore D.Disk self.old.disk self.new.disk }
        ensures call { IsCalled (D.frame self.old.disk) (D.frame self.new.disk) result }
    {
        let value = chain_after(&self.chain, &ready.bytes);
        fill_record(&mut self.buffer, &value, &ready.bytes);
        stage(&mut self.disk, self.gate, &self.buffer)?;
        self.doubt = true;
        set_gate(&mut self.disk, self.gate, OPEN)?;
        self.doubt = false;
        self.gate += self.buffer.len() as u64;
        self.chain = value;
        Ok(())
    }

    /// Seals a journal that is not sealed and has no entry in doubt: the records that follow have
    /// chain values. After a failure nothing is known of the journal but its images, so that the
    /// only call that may follow is `stop`.
    pub fn seal(&mut self) -> Result<(), Failed>
        requires stands { (account : Account) × Stands D.Disk self.old account
            × (length account.entries ≤ MOST_EPOCH) }
        requires sure { IsFalse self.old.doubt }
        requires plain { IsFalse self.old.sealed }
        // At every moment each image stands for the entries.
        ensures any_moment { (account : Account) → Stands D.Disk self.old account →
            length account.entries ≤ MOST_EPOCH →
            LeavesOnly D.Disk self.old.disk self.new.disk
            (IsListOf account.digest account.entries) }
        ensures stands { OnOk result ((account : Account) → Stands D.Disk self.old account →
            length account.entries ≤ MOST_EPOCH → Stands D.Disk self.new account) }
        ensures sealed { OnOk result (IsTrue self.new.sealed) }

        ensures tells { TellsAsBefore D.Disk self.old.disk self.new.disk }
        ensures call { IsCalled (D.frame self.old.disk) (D.frame self.new.disk) result }
    {
        fill_seal(&mut self.buffer, &self.chain);
        stage(&mut self.disk, self.gate, &self.buffer)?;
        set_gate(&mut self.disk, self.gate, OPEN)?;
        self.gate += self.buffer.len() as u64;
        self.sealed = true;
        Ok(())
    }

    /// Ends the work on the journal, and hands back the disk as it is.
    pub fn stop(self) -> D
        ensures { result ≡ self.disk }
    {
        self.disk
    }
}

/// Takes the memory that an append of this entry needs.
pub fn ready(alloc: Global, entry: &Entry) -> Result<Ready, AllocError>
    requires { IsInRanges entry.now }
    ensures { IfOk result (IsReady entry.now) }
{
    let bytes = encode(alloc, entry)?;
    Ok(Ready { bytes })
}
