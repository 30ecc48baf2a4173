// How often calls of a form in memory have failed.
ghost use Rattle.std.specs.Prelude.{◌≡◌, ◌≤◌, ℕ};
ghost use Rattle.hose_io.specs.steps.Faults.{faults_frame, no_faults, one_fault, one_starved};
ghost use Rattle.hose_io.specs.Frame.{Rose};

use crate::Failed;

/// What a form in memory counts of its calls that failed. A count stands still at its type's end.
#[derive(Clone, Copy, Debug, PartialEq, Eq)]
pub struct Faults {
    /// How many calls have failed.
    pub count: u64,
    /// How many of the failed calls found no memory.
    pub starved: u64,
}

impl Faults {
    /// No call has failed.
    pub fn none() -> Faults
        ensures { result ≡ no_faults }
    {
        Faults {
            count: 0,
            starved: 0,
        }
    }

    /// Counts a call that failed.
    pub fn fail(&mut self) -> Failed
        ensures after { self.new ≡ one_fault self.old }
        ensures rose { (number : ℕ) →
            Rose (faults_frame self.old number) (faults_frame self.new number) }
        ensures never_falls { self.old.count ≤ self.new.count }
    {
        self.count = self.count.saturating_add(1);
        Failed
    }

    /// Counts a call that found no memory.
    pub fn starve(&mut self) -> Failed
        ensures after { self.new ≡ one_starved self.old }
        ensures rose { (number : ℕ) →
            Rose (faults_frame self.old number) (faults_frame self.new number) }
        ensures never_falls { self.old.count ≤ self.new.count }
    {
        self.starved = self.starved.saturating_add(1);
        self.fail()
    }
}
