// The disks of a cabinet in memory, of which one may be out.
ghost use Rattle.std.specs.Prelude.{◌≡◌, ◌<◌, None, IfOk, IfSome, IsSome, OnErr, OnOk, [], ◌∷◌, vec_capacity, vec_len};
ghost use Rattle.hose_disk.specs.steps.CabinetState.{shelf_after_putting, shelf_after_taking, item_of, or_empty, without};

use crate::mem_disk::MemDisk;
use crate::named::{Named, place_of};
use std::alloc::{AllocError, Global};
use std::marker::Model;

/// The disks that are there, and the name of the one that is out, for which a place is kept.
#[derive(Debug, Drop)]
pub struct Shelf {
    alloc: Global,
    disks: Vec<Named<MemDisk>>,
    out: Option<Vec<u8>>,
}

impl Model for Shelf {
    ghost use Rattle.std.specs.Prelude.{◌<◌, IsSome, option_map, vec_capacity, vec_len};
    ghost use Rattle.hose_disk.specs.steps.CabinetState.{ShelfState};

    ghost Value = { ShelfState };

    ghost view = { λ shelf. record {
      disks = shelf.disks.items;
      out = option_map (λ name. name.items) shelf.out;
    } };

    ghost invariant = { λ shelf. IsSome shelf.out →
        vec_len shelf.disks < vec_capacity shelf.disks };
}

impl Shelf {
    /// One disk under a name, which is not out.
    pub fn of(alloc: Global, name: &[u8], disk: MemDisk) -> Result<Shelf, AllocError>
        ensures { IfOk result (λ shelf. shelf ≡ record {
          disks = record { name = name.now; item = disk } ∷ [];
          out = None;
        }) }
    {
        let name = Vec::from_slice(alloc, name)?;
        let mut disks = Vec::new(alloc);
        disks.push(Named { name, item: disk })?;
        Ok(Shelf {
            alloc,
            disks,
            out: None,
        })
    }

    /// Takes out the disk of a name, an empty one where the name is new.
    pub fn take_out(&mut self, name: &[u8]) -> Result<MemDisk, AllocError>
        requires { self.old.out ≡ None }
        ensures disk { IfOk result (λ disk. disk ≡ or_empty (item_of name.now self.old.disks)) }
        ensures ok { OnOk result (self.new ≡ shelf_after_taking name.now self.old) }
        ensures err { OnErr result (self.new ≡ self.old) }
    {
        let out = Vec::from_slice(self.alloc, name)?;
        let disk = take(self.alloc, &mut self.disks, name)?;
        self.out = Some(out);
        Ok(disk)
    }

    /// Puts a disk under the name of the one that is out. It takes no memory.
    pub fn put_back(&mut self, disk: MemDisk)
        requires { IsSome self.old.out }
        ensures { IfSome self.old.out (λ name. self.new ≡ shelf_after_putting name disk self.old) }
    {
        if let Some(name) = self.out.take() {
            let _ = self.disks.insert(0, Named { name, item: disk });
        }
    }
}

// Takes the disk of a name from those there, or makes an empty one. Then there is a place for it.
fn take(alloc: Global, disks: &mut Vec<Named<MemDisk>>, name: &[u8]) -> Result<MemDisk, AllocError>
    ensures disk { IfOk result (λ disk. disk ≡ or_empty (item_of name.now disks.old.items)) }
    ensures ok { OnOk result (disks.new.items ≡ without name.now disks.old.items) }
    ensures place { OnOk result (vec_len disks.new < vec_capacity disks.new) }
    ensures err { OnErr result (disks.new.items ≡ disks.old.items) }
{
    let Some(place) = place_of(disks, name) else {
        disks.reserve(1)?;
        return MemDisk::new(alloc);
    };
    Ok(disks.remove(place).item)
}
