// What the replies of a script come to together.
ghost use Rattle.std.specs.Prelude.{◌≡◌, ◌+◌, ◌<◌, ◌^◌, ℕ, [], codes};
ghost use Rattle.hose_io.specs.steps.Gather.{IsAdded};
ghost use Rattle.hose_io.specs.steps.Writing.{IsPut};
ghost use Rattle.hose_offline.specs.Tally.{admitted_cost, one_if_admitted, one_if_refused, one_if_released, tally_line, tally_of, told};
ghost use Rattle.hose_offline.specs.steps.Tally.{IsOfUpTo, with_reply};

use hose_graph::Reply;
use hose_io::{Failed, Gather, Sink};
use itoa::Buffer;

/// How many replies told an admission, a refusal and a release, the epoch after the last one, and
/// what the admitted cost together.
#[derive(Drop)]
pub struct Tally {
    pub admitted: u64,
    pub refused: u64,
    pub released: u64,
    pub epoch: u64,
    pub cost: u128,
}

impl Tally {
    /// That of no reply.
    pub fn new() -> Tally
        ensures { result ≡ tally_of [] 0 }
    {
        Tally {
            admitted: 0,
            refused: 0,
            released: 0,
            epoch: 0,
            cost: 0,
        }
    }

    /// Counts a reply more.
    pub fn count(&mut self, reply: &Reply)
        requires { (replies : ℕ) × (replies < 2 ^ 63) × IsOfUpTo replies self.old }
        ensures counted { self.new ≡ with_reply self.old reply.now }
        ensures up_to { (replies : ℕ) → IsOfUpTo replies self.old
            → IsOfUpTo (replies + 1) self.new }
    {
        self.admitted += if_admitted(reply);
        self.refused += if_refused(reply);
        self.released += if_released(reply);
        self.cost += u128::from(cost_of(reply));
    }

    /// Writes the line that tells it, with the seed and the number of hoses of its script.
    pub fn put<O: Sink>(&self, seed: u64, hoses: u32, output: &mut O) -> Result<(), Failed>
        ensures { IsPut O.Sink output.old output.new (tally_line seed hoses self.now) result }
    {
        let mut gather = Gather::new();
        add_told(&mut gather, output, b"gen ", seed);
        add_told(&mut gather, output, b" hoses ", u64::from(hoses));
        add_told(&mut gather, output, b" admitted ", self.admitted);
        add_told(&mut gather, output, b" refused ", self.refused);
        add_told(&mut gather, output, b" released ", self.released);
        add_told(&mut gather, output, b" epoch ", self.epoch);
        add_cost(&mut gather, output, self.cost);
        gather.add(output, b"\n");
        gather.finish(output)
    }
}

// 1 for a reply that tells an admission.
fn if_admitted(reply: &Reply) -> u64
    ensures { result ≡ one_if_admitted reply.now }
{
    if matches!(reply, Reply::Admitted { .. }) {
        1
    } else {
        0
    }
}

// 1 for a reply that tells a refusal.
fn if_refused(reply: &Reply) -> u64
    ensures { result ≡ one_if_refused reply.now }
{
    if matches!(reply, Reply::Refused { .. }) {
        1
    } else {
        0
    }
}

// 1 for a reply that tells a release.
fn if_released(reply: &Reply) -> u64
    ensures { result ≡ one_if_released reply.now }
{
    if matches!(reply, Reply::Released { .. }) {
        1
    } else {
        0
    }
}

// The cost of an admission that a reply tells.
fn cost_of(reply: &Reply) -> u64
    ensures { result ≡ admitted_cost reply.now }
{
    let Reply::Admitted { cost, .. } = reply else {
        return 0;
    };
    *cost
}

// Adds a number after its word.
fn add_told<O: Sink>(gather: &mut Gather, output: &mut O, word: &[u8], number: u64)
    ensures { IsAdded O.Sink gather.old output.old gather.new output.new (told word.now number) }
{
    gather.add(output, word);
    gather.add_number(output, number);
}

// Adds the cost after its word.
fn add_cost<O: Sink>(gather: &mut Gather, output: &mut O, cost: u128)
    ensures { IsAdded O.Sink gather.old output.old gather.new output.new
        (told (codes " cost ") cost) }
{
    gather.add(output, b" cost ");
    let mut buffer = Buffer::new();
    gather.add(output, buffer.format(cost).as_bytes());
}
