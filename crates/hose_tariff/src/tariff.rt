// What a tariff is, and which one of several has a name.
ghost use Rattle.std.specs.Prelude.{◌≡◌, ◌≢◌, ◌↔◌, ℕ, ◌<◌, ◌≤◌, IfNone, IfSome, length, slice_index_or};
ghost use Rattle.hose_graph.specs.Limit.{IsUpTo};
ghost use Rattle.hose_graph.specs.declared.limits.TheConstants.{MOST_COST, MOST_LENGTH};
ghost use Rattle.hose_tariff.specs.Fact.{IsPrice};
ghost use Rattle.hose_tariff.specs.steps.Fact.{KeepsFact};

use hose_graph::Name;

/// What a unit of bandwidth costs on a link of a length.
pub type Rule = Box<dyn Fn(u64) -> u64>;

/// A rule that makes costs of lengths, with the bounds that it keeps: for each length of a link the
/// cost is 1 at least, `base` at least, `base` and `per` for each unit of the length at most, and
/// within the limits of a network.
#[derive(Drop)]
pub struct Tariff {
    name: Name,
    base: u64,
    per: u64,
    rule: Rule,
    ghost keeps: { KeepsFact (Rule.pre rule) (Rule.post rule) base per },
    ghost few: { (base ≤ MOST_COST) × (per ≤ MOST_COST) },
}

impl Tariff {
    /// A tariff of a rule that may be called for each length and keeps these bounds.
    pub fn new(name: Name, base: u64, per: u64, rule: Rule) -> Tariff
        requires base { base ≤ MOST_COST }
        requires per { per ≤ MOST_COST }
        requires keeps { KeepsFact (Rule.pre rule) (Rule.post rule) base per }
        ensures name { result.name ≡ name }
        ensures base { result.base ≡ base }
        ensures per { result.per ≡ per }
        ensures rule { result.rule ≡ rule }
    {
        Tariff {
            name,
            base,
            per,
            rule,
        }
    }

    /// The name by which it is chosen.
    pub fn name(&self) -> Name
        ensures { result ≡ self.now.name }
    {
        self.name
    }

    /// The least cost of a link, whatever its length.
    pub fn base(&self) -> u64
        ensures value { result ≡ self.now.base }
        ensures within { result ≤ MOST_COST }
    {
        self.base
    }

    /// What each unit of length adds at most.
    pub fn per(&self) -> u64
        ensures value { result ≡ self.now.per }
        ensures within { result ≤ MOST_COST }
    {
        self.per
    }

    /// What a unit of bandwidth costs on a link of this length.
    pub fn cost(&self, length: u64) -> u64
        requires { IsUpTo MOST_LENGTH length }
        ensures rule { Rule.post self.now.rule length result }
        ensures fact { IsPrice self.now.base self.now.per length result }
    {
        self.answer(length)
    }

    // The rule's answer.
    fn answer(&self, length: u64) -> u64
        requires { IsUpTo MOST_LENGTH length }
        ensures { Rule.post self.now.rule length result }
    {
        (self.rule)(length)
    }
}

/// The place of the first tariff with the name that these bytes are; none where no tariff has it.
pub fn find(tariffs: &[Tariff], name: &[u8]) -> Option<usize>
    ensures none { IfNone result ((k : ℕ) (d : _) → k < length tariffs.now
        → (slice_index_or tariffs.now k d).name ≢ name.now) }
    ensures first { IfSome result (λ place. (place < length tariffs.now)
        × ((d : _) → (slice_index_or tariffs.now place d).name ≡ name.now)
        × ((k : ℕ) (d : _) → k < place → (slice_index_or tariffs.now k d).name ≢ name.now)) }
{
    for place in 0..tariffs.len() {
        if tariffs[place].name().bytes() == name {
            return Some(place);
        }
    }
    None
}
