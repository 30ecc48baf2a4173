// The lowering of a node's entry along a link.
ghost use Rattle.std.specs.Prelude.{◌≡◌, ◌⊎◌, ℕ, ◌+◌, ◌^◌, ◌<◌, IfNone, IfSome, Some, length};
ghost use Rattle.hose_paths.specs.steps.Table.{entry, CannotLower, LowersTo};

// Lowers a node's entry to that of another and the cost, where that is less, and tells what it is
// then.
pub fn lower(dist: &mut [Option<u64>], from: u32, to: u32, cost: u64) -> Option<u64>
    requires from { from < length dist.old }
    requires to { to < length dist.old }
    requires fits { (near : ℕ) → entry dist.old from ≡ Some near → near + cost < 2 ^ 64 }
    ensures lowered { IfSome result (LowersTo dist.old dist.new from to cost) }
    ensures low { IfNone result ((dist.new ≡ dist.old) × CannotLower dist.old from to cost) }
{
    let Some(near) = dist[from as usize] else {
        return None;
    };
    lower_from(dist, from, near, to, cost)
}

// Lowers a node's entry to that of another, which is known, and the cost, where that is less, and
// tells what it is then.
pub fn lower_from(dist: &mut [Option<u64>], from: u32, near: u64, to: u32, cost: u64) -> Option<u64>
    requires near { entry dist.old from ≡ Some near }
    requires to { to < length dist.old }
    requires fits { near + cost < 2 ^ 64 }
    ensures lowered { IfSome result (LowersTo dist.old dist.new from to cost) }
    ensures low { IfNone result ((dist.new ≡ dist.old) × CannotLower dist.old from to cost) }
{
    let far = near + cost;
    let lowers = match dist[to as usize] {
        Some(known) => far < known,
        None => true,
    };
    if !lowers {
        return None;
    }
    dist[to as usize] = Some(far);
    Some(far)
}
