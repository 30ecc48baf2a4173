// A journal whose entries are read, one after another, and that it is read as one list.
ghost use Rattle.std.specs.Prelude.{◌≡◌, ◌≤◌, ◌++◌, [], List, ℕ, None, Some, IfSome, IsErr, IsFalse, IsTrue, OnErr, OnOk, true, vec_capacity};
ghost use Rattle.hose_graph.specs.declared.entry.Entry.{Entry};
ghost use Rattle.hose_journal.specs.steps.AtGate.{BeginsSeal};
ghost use Rattle.hose_journal.specs.Chain.{chain};
ghost use Rattle.hose_journal.specs.Entries.{Item, TakesAny, entries_in};
ghost use Rattle.hose_journal.specs.steps.Entries.{IsListOf};
ghost use Rattle.hose_journal.specs.Image.{AreItems, IsVersion};
ghost use Rattle.hose_journal.specs.steps.Image.{journal_bytes};
ghost use Rattle.hose_journal.specs.steps.Journal.{Stands};
ghost use Rattle.hose_journal.specs.Moments.{KeepsCount};
ghost use Rattle.hose_journal.specs.Reading.{HasFailed};
ghost use Rattle.hose_journal.specs.steps.Reading.{AtGate, HasRead, IsAtNoSeal, IsOpen, KeepsJournalFault, OnlyRead, CoversRecord, Reads, held_from};
ghost use Rattle.hose_journal.specs.declared.layout.TheConstants.{BUFFER_BYTES, HEAD_BYTES};

use crate::fault::JournalFault;
use crate::journal::Journal;
use crate::layout::{DIGEST_BYTES, HEAD_BYTES, SEAL_RECORD};
use crate::opening::BegunJournal;
use crate::part::{Found, begins_seal, part};
use crate::piece::Piece;
use hose_codec::CodecFault;
use hose_disk::{Disk, Failed};
use hose_graph::Entry;
use std::alloc::Global;

/// A journal whose entries are read, one after another.
#[derive(Drop)]
pub struct Reading<D: Disk> {
    alloc: Global,
    disk: D,
    piece: Piece,
    end: u64,
    gate: u64,
    last: u64,
    closed: bool,
    sealed: bool,
    chain: [u8; DIGEST_BYTES],
    buffer: Vec<u8>,
    fault: Option<JournalFault>,
}

impl<D: Disk> Reading<D> {
    // The reading at the gate after the head of a journal that was begun. The buffer is for the
    // records of the journal that it becomes.
    pub(crate) fn first(
        alloc: Global,
        disk: D,
        piece: Piece,
        begun: BegunJournal,
        digest: [u8; DIGEST_BYTES],
        buffer: Vec<u8>,
    ) -> Reading<D>
        requires { BUFFER_BYTES ≤ vec_capacity buffer }
        ensures opened { IsOpen D.Disk disk piece begun digest → Reads D.Disk result digest [] }
        ensures disk { result.disk ≡ disk }
        ensures fault { result.fault ≡ None }
        ensures last { result.last ≡ HEAD_BYTES }
    {
        Reading {
            alloc,
            disk,
            piece,
            end: begun.end,
            gate: HEAD_BYTES as u64,
            last: HEAD_BYTES as u64,
            closed: false,
            sealed: begun.chained,
            chain: digest,
            buffer,
            fault: None,
        }
    }

    /// The next entry, or none at a gate that is not open.
    ///
    /// After a fault it answers the same from then on, but for want of memory: then nothing has
    /// moved.
    pub fn next(&mut self) -> Result<Option<Entry>, JournalFault>
        requires { self.old.fault ≡ None →
            (digest : List ℕ) × (entries : List Entry) × Reads D.Disk self.old digest entries }
        ensures read { self.old.fault ≡ None → (digest : List ℕ) → (entries : List Entry) →
            Reads D.Disk self.old digest entries →
            HasRead D.Disk self.old self.new digest entries result }
        ensures fault { self.old.fault ≡ None → KeepsJournalFault result self.new.fault }
        ensures again { IfSome self.old.fault (λ fault.
            (result ≡ Err fault) × (self.new ≡ self.old)) }
        // After a fault it is still that of the entries that were given.
        ensures chain { OnErr result (self.new.chain ≡ self.old.chain) }
        ensures only { OnlyRead D.Disk self.old.disk self.new.disk }
        ensures count { OnOk result (KeepsCount D.Disk self.old.disk self.new.disk) }
    {
        if let Some(fault) = self.fault {
            return Err(fault);
        }
        match self.read() {
            Ok(entry) => Ok(entry),
            Err(JournalFault::Memory) => Err(JournalFault::Memory),
            Err(fault) => {
                self.fault = Some(fault);
                Err(fault)
            }
        }
    }

    /// The place of the gate at which was read last.
    pub fn at(&self) -> u64
        ensures { result ≡ self.now.last }
    {
        self.last
    }

    /// The chain value of the entries that it has given.
    pub fn chain(&self) -> [u8; DIGEST_BYTES]
        ensures is { result ≡ self.now.chain }
        ensures chain { (digest : List ℕ) → (entries : List Entry) →
            Reads D.Disk self.now digest entries → result ≡ chain digest entries }
    {
        self.chain
    }

    /// The journal after its last entry.
    pub fn finish(self) -> Journal<D>
        requires { (digest : List ℕ) × (entries : List Entry)
            × Reads D.Disk self digest entries × IsTrue self.closed }
        ensures stands { (digest : List ℕ) → (entries : List Entry) →
            Reads D.Disk self digest entries →
            Stands D.Disk result
            (record { digest = digest; entries = entries; doubt = None }) }
        ensures disk { result.disk ≡ self.disk }
    {
        Journal::at(self.disk, self.gate, self.sealed, self.chain, self.buffer)
    }

    /// Ends the reading, and hands back the disk.
    pub fn stop(self) -> D
        ensures { result ≡ self.disk }
    {
        self.disk
    }

    // Reads on from the gate.
    fn read(&mut self) -> Result<Option<Entry>, JournalFault>
        requires { (digest : List ℕ) × (entries : List Entry)
            × Reads D.Disk self.old digest entries }
        ensures read { (digest : List ℕ) → (entries : List Entry) →
            Reads D.Disk self.old digest entries →
            HasRead D.Disk self.old self.new digest entries result }
        ensures fault { self.new.fault ≡ self.old.fault }
        ensures chain { OnErr result (self.new.chain ≡ self.old.chain) }
        ensures only { OnlyRead D.Disk self.old.disk self.new.disk }
        ensures count { OnOk result (KeepsCount D.Disk self.old.disk self.new.disk) }
    {
        if self.closed {
            self.last = self.gate;
            return Ok(None);
        }
        self.approach()?;
        match self.here() {
            Ok(Some(found)) => {
                let Found {
                    entry,
                    value,
                    distance,
                } = found;
                self.last = self.gate;
                self.gate += distance as u64;
                self.chain = value;
                Ok(Some(entry))
            }
            Ok(None) => {
                self.last = self.gate;
                self.closed = true;
                Ok(None)
            }
            Err(CodecFault::Bad) => {
                self.last = self.gate;
                Err(JournalFault::Damaged { at: self.gate })
            }
            Err(CodecFault::Memory) => Err(JournalFault::Memory),
        }
    }

    // What stands at the gate, in the piece that was read.
    fn here(&self) -> Result<Option<Found>, CodecFault>
        requires { (digest : List ℕ) × (entries : List Entry) × Reads D.Disk self.now digest entries
            × CoversRecord self.now.piece self.now.gate × IsAtNoSeal self.now }
        ensures { (digest : List ℕ) → (entries : List Entry) →
            Reads D.Disk self.now digest entries → CoversRecord self.now.piece self.now.gate →
            IsAtNoSeal self.now → AtGate D.Disk self.now digest entries result }
    {
        part(
            self.alloc,
            self.piece.rest(self.gate),
            self.sealed,
            &self.chain,
        )
    }

    // Goes to the gate of the next entry, past a seal, and reads as far as a record may reach.
    fn approach(&mut self) -> Result<(), Failed>
        requires reads { (digest : List ℕ) × (entries : List Entry)
            × Reads D.Disk self.old digest entries }
        requires going { IsFalse self.old.closed }
        ensures approached { OnOk result ((digest : List ℕ) → (entries : List Entry) →
            Reads D.Disk self.old digest entries → Reads D.Disk self.new digest entries) }
        ensures reaches { OnOk result (CoversRecord self.new.piece self.new.gate) }
        ensures past { OnOk result (IsAtNoSeal self.new) }
        ensures kept { self.new ≡ record self.old {
          disk = self.new.disk;
          piece = self.new.piece;
          gate = self.new.gate;
          sealed = self.new.sealed;
        } }
        ensures only { OnlyRead D.Disk self.old.disk self.new.disk }
        ensures count { OnOk result (KeepsCount D.Disk self.old.disk self.new.disk) }
        ensures failed { IsErr result → HasFailed D.Disk self.old.disk self.new.disk }
    {
        self.fill()?;
        if self.is_at_seal() {
            self.pass_seal();
            return self.fill();
        }
        Ok(())
    }

    // Whether a seal stands at the gate, where one may.
    fn is_at_seal(&self) -> bool
        requires { (digest : List ℕ) × (entries : List Entry) × Reads D.Disk self.now digest entries
            × CoversRecord self.now.piece self.now.gate }
        ensures seal { IsTrue result → IsFalse self.now.sealed
            × BeginsSeal self.now.chain (held_from self.now.piece self.now.gate) }
        ensures none { IsFalse result → IsAtNoSeal self.now }
    {
        if self.sealed {
            return false;
        }
        begins_seal(self.piece.rest(self.gate), &self.chain)
    }

    // Goes past the seal at the gate.
    fn pass_seal(&mut self)
        requires { (digest : List ℕ) × (entries : List Entry)
            × Reads D.Disk self.old digest entries }
        ensures passed { (digest : List ℕ) → (entries : List Entry) →
            Reads D.Disk self.old digest entries → CoversRecord self.old.piece self.old.gate →
            IsFalse self.old.closed → IsFalse self.old.sealed →
            BeginsSeal self.old.chain (held_from self.old.piece self.old.gate) →
            Reads D.Disk self.new digest entries }
        ensures kept { self.new ≡ record self.old { gate = self.new.gate; sealed = true } }
    {
        self.gate += SEAL_RECORD as u64;
        self.sealed = true;
    }

    // Reads the next piece where this one does not reach as far as a record may.
    fn fill(&mut self) -> Result<(), Failed>
        requires { (digest : List ℕ) × (entries : List Entry)
            × Reads D.Disk self.old digest entries }
        ensures filled { OnOk result ((digest : List ℕ) → (entries : List Entry) →
            Reads D.Disk self.old digest entries → Reads D.Disk self.new digest entries) }
        ensures reaches { OnOk result (CoversRecord self.new.piece self.new.gate) }
        ensures kept { self.new ≡ record self.old { disk = self.new.disk; piece = self.new.piece } }
        ensures only { OnlyRead D.Disk self.old.disk self.new.disk }
        ensures count { OnOk result (KeepsCount D.Disk self.old.disk self.new.disk) }
        ensures failed { IsErr result → HasFailed D.Disk self.old.disk self.new.disk }
    {
        if !self.piece.reaches(self.gate) {
            self.piece.load(&mut self.disk, self.gate, self.end)?;
        }
        Ok(())
    }
}

/// The journal of a list is read as this list, in both versions and whatever follows it, and no
/// image is read as two.
pub fn law_one_list(digest: &[u8; DIGEST_BYTES])
    ensures read { (version : ℕ) → (items : List Item) → (rest : List ℕ) → IsVersion version →
        AreItems TakesAny version [] items →
        IsListOf digest.now (entries_in items)
        (journal_bytes version digest.now items ++ rest) }
    ensures alone { (image : List ℕ) → (one other : List Entry) → IsListOf digest.now one image →
        IsListOf digest.now other image → one ≡ other }
{}
