// Where named texts and named disks are: its contract.
ghost use Rattle.std.specs.Prelude.{◌≡◌, ◌≢◌, ◌<◌, ◌≤◌, ℕ, List, Option, None, IfOk, IfSome, IsErr, IsFalse, IsSome, IsTrue, OnErr, OnOk, length};
ghost use Rattle.hose_disk.specs.Cabinet.{CabinetFrame, IsDiskCall, Has, where_told, opened_at, after_back};
ghost use Rattle.hose_disk.specs.steps.Cabinet.{IsTextCall, IsTextAt, absent_after};
ghost use Rattle.hose_disk.specs.Disk.{NoneNew};

use crate::disk::Disk;
use hose_io::Failed;

/// A place of named texts and named disks, of which at most one disk is out at a time.
///
/// A name is any text. A text is only read. A disk is taken out by its name, used, and put back; a
/// name that is new has an empty disk.
pub trait Cabinet: Drop {
    /// A disk that was taken out.
    type Disk: Disk + Send;

    /// How often it has failed, how many texts were asked for that are not there, the count of
    /// faults of the disk that was put back last (0 where none was), the name of the disk that is
    /// out, and whether it tells its texts and disks.
    ghost frame: { Self → CabinetFrame };

    /// That two names are of two disks, as it was found last.
    ghost apart: { Self → List ℕ → List ℕ → Type 0 };

    /// The text of a name, where it tells and has one.
    ghost text: { Self → List ℕ → Option (List ℕ) };

    /// The disk that it holds under a name, where it tells.
    ghost held: { Self → List ℕ → Option Self.Disk };

    /// Puts the bytes of a text from a place on at the front of `into`, and says how many. What
    /// stands after them is left open. A text that is not there is a failure, which counts as
    /// absent besides.
    fn text(&mut self, name: &str, from: u64, into: &mut [u8]) -> Result<usize, Failed>
        requires { 0 < length into.old }
        ensures room { IfOk result (λ count. count ≤ length into.new) }
        ensures read { IfOk result (λ count. Has (frame self.old).tells (text self.old name.now)
            (λ bytes. IsTextAt from count bytes into.new)) }
        ensures refused { IsTrue (frame self.old).tells → text self.old name.now ≡ None →
            IsErr result }
        ensures absent { IsTrue (frame self.old).tells → (frame self.new).absent
            ≡ absent_after (text self.old name.now) (frame self.old).absent }
        ensures texts { text self.new ≡ text self.old }
        ensures disks { held self.new ≡ held self.old }
        ensures call { IsTextCall (frame self.old) (frame self.new) result };

    /// Looks whether two names are of two disks, and opens neither. That they are of one, as where
    /// they are one word, is a failure. A name of which no disk is found is of no other's.
    fn tell_apart(&mut self, one: &str, other: &str) -> Result<(), Failed>
        ensures apart { OnOk result (apart self.new one.now other.now) }
        ensures refused { one.now ≡ other.now → IsErr result }
        ensures texts { text self.new ≡ text self.old }
        ensures disks { held self.new ≡ held self.old }
        ensures call { IsTextCall (frame self.old) (frame self.new) result };

    /// Takes out the disk of a name. It has failed in no call yet, no time has passed on it since
    /// it was put there, and what a stop may leave of it is what one might have left of it then.
    fn disk(&mut self, name: &str) -> Result<Self::Disk, Failed>
        requires { (frame self.old).out ≡ None }
        ensures opened { IfOk result
            (λ disk. Self.Disk.frame disk ≡ opened_at (Self.Disk.moment disk)) }
        ensures content { IfOk result (λ disk. Has (frame self.old).tells (held self.old name.now)
            (λ was. Self.Disk.content disk ≡ Self.Disk.content was)) }
        ensures images { IfOk result (λ disk. Has (frame self.old).tells (held self.old name.now)
            (λ was. NoneNew (Self.Disk.may_leave was) (Self.Disk.may_leave disk))) }
        ensures moment { IfOk result (λ disk. Has (frame self.old).tells (held self.old name.now)
            (λ was. Self.Disk.moment disk ≡ Self.Disk.moment was)) }
        ensures untold { IfOk result (λ disk. IsFalse (frame self.old).tells →
            Self.Disk.content disk ≡ None) }
        ensures texts { text self.new ≡ text self.old }
        ensures others { (other : List ℕ) → other ≢ name.now →
            held self.new other ≡ held self.old other }
        ensures same { OnErr result (held self.new ≡ held self.old) }
        ensures call { IsDiskCall name.now (frame self.old) (frame self.new) result };

    /// Takes out the disk of a name to be read alone, as `disk` does: a write to it may fail.
    fn disk_to_read(&mut self, name: &str) -> Result<Self::Disk, Failed>
        requires { (frame self.old).out ≡ None }
        ensures opened { IfOk result
            (λ disk. Self.Disk.frame disk ≡ opened_at (Self.Disk.moment disk)) }
        ensures content { IfOk result (λ disk. Has (frame self.old).tells (held self.old name.now)
            (λ was. Self.Disk.content disk ≡ Self.Disk.content was)) }
        ensures images { IfOk result (λ disk. Has (frame self.old).tells (held self.old name.now)
            (λ was. NoneNew (Self.Disk.may_leave was) (Self.Disk.may_leave disk))) }
        ensures moment { IfOk result (λ disk. Has (frame self.old).tells (held self.old name.now)
            (λ was. Self.Disk.moment disk ≡ Self.Disk.moment was)) }
        ensures untold { IfOk result (λ disk. IsFalse (frame self.old).tells →
            Self.Disk.content disk ≡ None) }
        ensures texts { text self.new ≡ text self.old }
        ensures others { (other : List ℕ) → other ≢ name.now →
            held self.new other ≡ held self.old other }
        ensures same { OnErr result (held self.new ≡ held self.old) }
        ensures call { IsDiskCall name.now (frame self.old) (frame self.new) result };

    /// Puts a disk back under the name of the one that is out. Where its last call failed, the
    /// cabinet counts a failure too.
    fn back(&mut self, disk: Self::Disk)
        requires { IsSome (frame self.old).out }
        ensures held { IfSome (frame self.old).out
            (λ name. held self.new name ≡ where_told (frame self.old).tells disk) }
        ensures others { IfSome (frame self.old).out (λ name. (other : List ℕ) → other ≢ name →
            held self.new other ≡ held self.old other) }
        ensures texts { text self.new ≡ text self.old }
        ensures never_falls { (frame self.old).faults ≤ (frame self.new).faults }
        ensures call { frame self.new ≡ after_back (Self.Disk.frame disk) (frame self.old) };
}
