// A use of the passes of a lock.
ghost use Rattle.std.specs.Prelude.{◌≡◌, ◌≤◌};

use hose_turn::{HoldsHistory, Pass, Turn};

/// A pass is split off and joined again.
pub fn there_and_back<S: HoldsHistory + Drop>(turn: &Turn<S>, pass: &mut Pass)
    requires turn { pass.old.turn ≡ turn.now }
    requires share { 2 ≤ pass.old.share }
    ensures same { (pass.new.turn ≡ pass.old.turn) × (pass.new.share ≡ pass.old.share) }
{
    let other = turn.split(pass);
    turn.join(pass, other);
}
