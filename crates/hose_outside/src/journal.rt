// The journal of a name in a cabinet: how its store is opened and closed.
ghost use Rattle.std.specs.Prelude.{◌≡◌, IfErr, IfOk, IfSome, IsSome, Err, None};
ghost use Rattle.hose_outside.specs.OnDisk.{OthersStay};
ghost use Rattle.hose_outside.specs.steps.Journal.{ClosesJournal, IsJustOpened, IsOpenCall, OpensJournal};
ghost use Rattle.hose_outside.specs.Unopened.{OpensNoJournal, first_of};
ghost use Rattle.hose_outside.specs.steps.Unopened.{IsNotOpened};

use crate::fault::Fault;
use hose_book::Book;
use hose_disk::{Cabinet, Disk};
use hose_graph::Topology;
use hose_io::Failed;
use hose_store::{Premises, Store};
use std::alloc::Global;

/// Takes the disk of a name out of the cabinet and opens the store on it; where none is opened, the
/// disk is put back. What is added to the store is to be as `P` says.
pub fn open_journal<C: Cabinet, P: Premises>(
    alloc: Global,
    name: &str,
    topology: Topology,
    cabinet: &mut C,
) -> Result<Store<C::Disk>, Fault>
    requires { (C.frame cabinet.old).out ≡ None }
    ensures opens { IfOk result (OpensJournal C.Cabinet C.Disk.Disk P.kind name.now
        cabinet.old cabinet.new topology) }
    ensures refused { IfErr result (λ why. OpensNoJournal C.Cabinet C.Disk.Disk name.now
        cabinet.old cabinet.new topology (Err why)) }
    ensures others { OthersStay C.Cabinet name.now cabinet.old cabinet.new }
    ensures call { IsOpenCall name.now (C.frame cabinet.old) (C.frame cabinet.new) result }
{
    let Ok(disk) = cabinet.disk(name) else {
        return Err(Fault::Cabinet);
    };
    match open_store::<C::Disk, P>(alloc, topology, disk) {
        Ok(store) => Ok(store),
        Err(refused) => {
            cabinet.back(refused.1);
            Err(refused.0)
        }
    }
}

/// Closes a store, and puts its disk back into the cabinet that it was taken out of. The book comes
/// back.
pub fn close_journal<C: Cabinet>(
    store: Store<C::Disk>,
    cabinet: &mut C,
) -> (Result<(), Failed>, Book)
    requires { IsSome (C.frame cabinet.old).out }
    ensures closes { ClosesJournal C.Cabinet C.Disk.Disk cabinet.old cabinet.new store result.0 }
    ensures others { IfSome (C.frame cabinet.old).out
        (λ name. OthersStay C.Cabinet name cabinet.old cabinet.new) }
    ensures book { result.1 ≡ store.ledger }
{
    let (closing, disk, book) = store.close();
    cabinet.back(disk);
    (closing, book)
}

/// Opens the store on a disk, or says why it is not opened and hands the disk back. What is added
/// to it is to be as `P` says.
pub fn open_store<D: Disk, P: Premises>(
    alloc: Global,
    topology: Topology,
    disk: D,
) -> Result<Store<D>, (Fault, D)>
    ensures network { IfOk result (λ store. store.ledger.network ≡ topology) }
    ensures opens { IfOk result (IsJustOpened D.Disk P.kind disk topology) }
    ensures refused { IfErr result (λ refused.
        IsNotOpened D.Disk disk refused.1 topology (Err refused.0)) }
{
    match Store::open(alloc, disk, topology) {
        Ok(store) => Ok(store),
        Err(refused) => Err((Fault::from(refused.0), refused.1)),
    }
}

/// The first fault of what was done with a journal and then of closing it.
pub fn first_fault(done: Result<(), Fault>, closing: Result<(), Failed>) -> Result<(), Fault>
    ensures { result ≡ first_of done closing }
{
    match closing {
        Ok(()) => done,
        Err(_) => done.and(Err(Fault::Cabinet)),
    }
}
