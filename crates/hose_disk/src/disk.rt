// What is read, written and made durable: its contract.
ghost use Rattle.std.specs.Prelude.{◌≡◌, ◌+◌, ◌<◌, ◌≤◌, ◌^◌, ℕ, List, Option, None, IfOk, IfSome, OnOk, OnErr, length, take};
ghost use Rattle.hose_disk.specs.Disk.{DiskFrame, NoneNew};
ghost use Rattle.hose_disk.specs.steps.Disk.{IsCalled, IsOverwritten, Torn, IsCut, IsTruncated, IsReadAt, ContentSteps, StepsTo, Only, Elapses};

use hose_io::Failed;

/// A disk: bytes that are read and written at places, with a length.
///
/// Until a sync succeeds, a stop may leave any bytes in the ranges that were written, and any
/// length from the least to the greatest since the last one; a call that failed counts as begun. A
/// disk that tells nothing of its content has no images, so what is said of all images says nothing
/// of it.
pub trait Disk: Drop {
    /// How often it has failed, the moment of its opening, and whether its last call failed.
    ghost frame: { Self → DiskFrame };

    /// What a read gives, where it tells.
    ghost content: { Self → Option (List ℕ) };

    /// The images that a stop now may leave.
    ghost may_leave: { Self → List ℕ → Type 0 };

    /// The moment, as a number that does not fall.
    ghost moment: { Self → ℕ };

    /// The images that a stop at some moment from that one on might have left.
    ghost left_since: { Self → ℕ → List ℕ → Type 0 };

    /// The length.
    fn len(&mut self) -> Result<u64, Failed>
        ensures small { IfOk result (λ len. len < 2 ^ 62) }
        ensures length { IfOk result (λ len. IfSome (content self.old)
            (λ bytes. len ≡ length bytes)) }
        ensures same { content self.new ≡ content self.old }
        ensures images { NoneNew (may_leave self.old) (may_leave self.new) }
        ensures time { Elapses (moment self.old) (moment self.new)
            (left_since self.old) (left_since self.new) (may_leave self.new) }
        ensures call { IsCalled (frame self.old) (frame self.new) result };

    /// Puts the bytes from a place on at the front of `into`, and says how many.
    fn read_at(&mut self, at: u64, into: &mut [u8]) -> Result<usize, Failed>
        requires { at + length into.old < 2 ^ 62 }
        ensures room { IfOk result (λ count. count ≤ length into.new) }
        ensures read { IfOk result (λ count. IfSome (content self.old)
            (λ bytes. IsReadAt at (length into.old) bytes (take count into.new))) }
        ensures same { content self.new ≡ content self.old }
        ensures images { NoneNew (may_leave self.old) (may_leave self.new) }
        ensures time { Elapses (moment self.old) (moment self.new)
            (left_since self.old) (left_since self.new) (may_leave self.new) }
        ensures call { IsCalled (frame self.old) (frame self.new) result };

    /// Writes over what is there, and past the end.
    fn write_at(&mut self, at: u64, bytes: &[u8]) -> Result<(), Failed>
        requires small { at + length bytes.now < 2 ^ 62 }
        requires within { IfSome (content self.old) (λ old. at ≤ length old) }
        ensures written { OnOk result
            (ContentSteps (IsOverwritten at bytes.now) (content self.old) (content self.new)) }
        ensures begun { OnErr result
            (ContentSteps (Torn at (length bytes.now)) (content self.old) (content self.new)) }
        ensures images { StepsTo (Torn at (length bytes.now))
            (may_leave self.old) (may_leave self.new) }
        ensures time { Elapses (moment self.old) (moment self.new)
            (left_since self.old) (left_since self.new) (may_leave self.new) }
        ensures call { IsCalled (frame self.old) (frame self.new) result };

    /// Cuts it to a length.
    fn cut(&mut self, len: u64) -> Result<(), Failed>
        requires small { len < 2 ^ 62 }
        requires within { IfSome (content self.old) (λ old. len ≤ length old) }
        ensures cut { OnOk result
            (ContentSteps (IsTruncated len) (content self.old) (content self.new)) }
        ensures begun { OnErr result
            (ContentSteps (IsCut len) (content self.old) (content self.new)) }
        ensures images { StepsTo (IsCut len) (may_leave self.old) (may_leave self.new) }
        ensures time { Elapses (moment self.old) (moment self.new)
            (left_since self.old) (left_since self.new) (may_leave self.new) }
        ensures call { IsCalled (frame self.old) (frame self.new) result };

    /// Makes durable what a read gives: after it a stop leaves that and nothing else.
    fn sync(&mut self) -> Result<(), Failed>
        ensures durable { OnOk result
            (IfSome (content self.old) (λ bytes. Only bytes (may_leave self.new))) }
        ensures same { content self.new ≡ content self.old }
        ensures images { NoneNew (may_leave self.old) (may_leave self.new) }
        ensures time { Elapses (moment self.old) (moment self.new)
            (left_since self.old) (left_since self.new) (may_leave self.new) }
        ensures call { IsCalled (frame self.old) (frame self.new) result };

    /// This moment is one of those since an earlier one.
    ghost counts_now: { (disk : Self) (t : ℕ) (image : List ℕ) → t ≤ moment disk →
        may_leave disk image → left_since disk t image };

    /// Since this moment there is no other.
    ghost only_now: { (disk : Self) (image : List ℕ) →
        left_since disk (moment disk) image → may_leave disk image };

    /// What is read is one of the images now.
    ghost reads_an_image: { (disk : Self) → IfSome (content disk) (may_leave disk) };

    /// A disk that does not tell has no images.
    ghost untold: { (disk : Self) (t : ℕ) (image : List ℕ) → content disk ≡ None →
        left_since disk t image → ⊥ };
}
