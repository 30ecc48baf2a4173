// What is true of every connection to a follower.
ghost use Rattle.std.specs.Prelude.{◌≡◌, ◌++◌, ℕ, List, Some};
ghost use Rattle.hose_graph.specs.Network.{Network};
ghost use Rattle.hose_graph.specs.declared.entry.Entry.{Entry};
ghost use Rattle.hose_follow.specs.Answers.{offered_text};
ghost use Rattle.hose_follow.specs.declared.answers.Offered.TheVariants.{Differs, Have};
ghost use Rattle.hose_lead.specs.Leading.{IsValueAt, no_value, AreHandedOut};
ghost use Rattle.hose_follow.specs.steps.Lines.{HasLine};
ghost use Rattle.hose_lead.specs.steps.Standby.{IsLed, StandbyState};

/// What led to a state, where a history has some entries, led to it where it has more.
pub fn law_longer()
    ensures { (network : Network) → (list more : List Entry) → (came sent : List ℕ) →
        (state : StandbyState) → IsLed network list came sent state →
        IsLed network (list ++ more) came sent state }
{}

/// The bytes that came have the line of each `have` that was heard, whole, and one by which the
/// follower was compared.
pub fn law_told()
    ensures have { (network : Network) → (list : List Entry) → (came sent : List ℕ) →
        (state : StandbyState) → (count : ℕ) → IsLed network list came sent state →
        state.heard ≡ Some count → HasLine came (offered_text (Have count)) }
    ensures compared { (network : Network) → (list : List Entry) → (came sent : List ℕ) →
        (state : StandbyState) → (count : ℕ) → IsLed network list came sent state →
        state.heard ≡ Some count → (start : ℕ) × (own : List ℕ)
        × IsValueAt network list start own
        × HasLine came (offered_text (Differs start own no_value)) }
{}

/// What was handed out are probes, and packets of entries only after the comparison: each once, in
/// order, from the first that the follower lacks on.
pub fn law_handed()
    ensures { (network : Network) → (list : List Entry) → (came sent : List ℕ) →
        (state : StandbyState) → (led : IsLed network list came sent state) →
        AreHandedOut network list led.lines led.packets }
{}
