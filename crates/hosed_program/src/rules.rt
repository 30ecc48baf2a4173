// The tariffs that the program has, and their rules.
ghost use Rattle.std.specs.Prelude.{◌≡◌, IfOk, [], ◌∷◌, codes, map};
ghost use Rattle.hose_tariff.specs.steps.Rules.{flat_cost, hops_cost, long_cost};
ghost use Rattle.hosed_program.specs.steps.Rules.{IsRuleOf};

use hose_graph::{MOST_COST, Name};
use hose_tariff::{Rule, Tariff};
use std::alloc::{AllocError, Global};

/// What a link costs by its length alone: the length.
pub fn flat(length: u64) -> u64
    ensures { result ≡ flat_cost length }
{
    length
}

/// What each link costs where links are counted: 1.
pub fn hops(length: u64) -> u64
    ensures { result ≡ hops_cost length }
{
    let _ = length;
    1
}

/// What a link costs where long ones are dear: 5 and twice its length, 1,000,000 at most.
pub fn long(length: u64) -> u64
    ensures { result ≡ long_cost length }
{
    (5 + 2 * length.min(MOST_COST)).min(MOST_COST)
}

/// The tariffs that `--tariff` chooses from, of their rules, which the caller has to make.
pub fn tariffs(
    alloc: Global,
    by_flat: Rule,
    by_hops: Rule,
    by_long: Rule,
) -> Result<Vec<Tariff>, AllocError>
    requires flat { IsRuleOf flat_cost (⟦<Box<dyn Fn(u64) -> u64> as Fn(u64) -> u64>⟧.pre by_flat)
        (⟦<Box<dyn Fn(u64) -> u64> as Fn(u64) -> u64>⟧.post by_flat) }
    requires hops { IsRuleOf hops_cost (⟦<Box<dyn Fn(u64) -> u64> as Fn(u64) -> u64>⟧.pre by_hops)
        (⟦<Box<dyn Fn(u64) -> u64> as Fn(u64) -> u64>⟧.post by_hops) }
    requires long { IsRuleOf long_cost (⟦<Box<dyn Fn(u64) -> u64> as Fn(u64) -> u64>⟧.pre by_long)
        (⟦<Box<dyn Fn(u64) -> u64> as Fn(u64) -> u64>⟧.post by_long) }
    ensures names { IfOk result (λ made. map (λ tariff. tariff.name) made.items
        ≡ codes "flat" ∷ codes "hops" ∷ codes "long" ∷ []) }
    ensures bases { IfOk result (λ made. map (λ tariff. tariff.base) made.items ≡ 0 ∷ 1 ∷ 5 ∷ []) }
    ensures pers { IfOk result (λ made. map (λ tariff. tariff.per) made.items ≡ 1 ∷ 0 ∷ 2 ∷ []) }
    ensures rules { IfOk result (λ made. map (λ tariff. tariff.rule) made.items
        ≡ by_flat ∷ by_hops ∷ by_long ∷ []) }
{
    let mut tariffs = Vec::with_capacity(alloc, 3)?;
    tariffs.push_reserved(Tariff::new(Name::read(b"flat").unwrap(), 0, 1, by_flat));
    tariffs.push_reserved(Tariff::new(Name::read(b"hops").unwrap(), 1, 0, by_hops));
    tariffs.push_reserved(Tariff::new(Name::read(b"long").unwrap(), 5, 2, by_long));
    Ok(tariffs)
}
