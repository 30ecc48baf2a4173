// A topology's text, line by line.
ghost use Rattle.std.specs.Prelude.{◌≡◌, ◌⊎◌, ◌↔◌, ℕ, ◌+◌, ◌<◌, ◌≤◌, List, ◌++◌, length, Some, None, Ok, Err, IfOk};
ghost use Rattle.hose_io.specs.Frame.{Rose};
ghost use Rattle.hose_words.specs.Reading.{WhereTold};
ghost use Rattle.hose_words.specs.steps.Reading.{ReadsOn};
ghost use Rattle.hose_words.specs.declared.lines.LineFault.{LineFault};
ghost use Rattle.hose_graph.specs.Network.{Network, IsNetwork};
ghost use Rattle.hose_topo.specs.Reading.{StopsInTopology};
ghost use Rattle.hose_topo.specs.steps.Reading.{fault_of, KeepsLineFault};
ghost use Rattle.hose_topo.specs.steps.Taken.{TakesNext};
ghost use Rattle.hose_topo.specs.TopologyText.{IsTopologyText, IsWrongAt};

use crate::fault::TopoFault;
use crate::line::{Taken, take_line};
use hose_graph::Topology;
use hose_io::Source;
use hose_words::{INPUT_LIMIT, Line, LineFault, LineReader};
use std::alloc::Global;

/// Reads a topology up to and with the line `end`, and no line after it. A text that is refused is
/// never told as want of memory: room for the greatest topology is taken before the first line.
pub fn read<S: Source>(alloc: Global, lines: &mut LineReader<S>) -> Result<Topology, TopoFault>
    // What was to come is the text of this topology and of no other, and what is to come now is
    // what that leaves.
    ensures topology { WhereTold (S.content lines.old.source) (S.content lines.new.source)
        (λ before after. IfOk result (λ top.
        IsTopologyText (lines.old.pending ++ before) top (lines.new.pending ++ after))) }
    ensures alone { WhereTold (S.content lines.old.source) (S.content lines.new.source)
        (λ before after. IfOk result (λ top. (other : Network) (rest : List ℕ)
        → IsTopologyText (lines.old.pending ++ before) other rest
        → (other ≡ top) × (rest ≡ lines.new.pending ++ after))) }
    ensures network { IfOk result IsNetwork }
    ensures some { IfOk result (λ top. 0 < length top.nodes) }

    // What was to come is not the text of a topology, and wrong first at this word. The lines up to
    // the wrong one were taken.
    ensures wrong { (line word : ℕ) → result ≡ Err (TopoFault.At line word)
        → WhereTold (S.content lines.old.source) (S.content lines.new.source) (λ before after.
        IsWrongAt (lines.old.pending ++ before) line word (lines.new.pending ++ after)) }
    ensures no_text { (line word : ℕ) → result ≡ Err (TopoFault.At line word)
        → WhereTold (S.content lines.old.source) (S.content lines.new.source) (λ before _.
        (network : Network) (rest : List ℕ)
        → IsTopologyText (lines.old.pending ++ before) network rest → ⊥) }

    ensures read { result ≡ Err TopoFault.Read → (lines.old.fault ≡ Some LineFault.Read)
        ⊎ Rose (S.frame lines.old.source) (S.frame lines.new.source) }
    ensures too_long { lines.old.taken ≤ INPUT_LIMIT
        → ((result ≡ Err TopoFault.TooLong) ↔ (INPUT_LIMIT < lines.new.taken)) }
    // Whole lines that add to a network were taken, and then bytes that end no line.
    ensures front { lines.old.fault ≡ None → (fault : LineFault) → result ≡ Err (fault_of fault)
        → WhereTold (S.content lines.old.source) (S.content lines.new.source) (λ before after.
        StopsInTopology fault (lines.old.pending ++ before) after) }
    ensures memory { result ≡ Err TopoFault.Memory → lines.new ≡ lines.old }

    ensures fault { KeepsLineFault lines.old.fault lines.new.fault result }
    ensures reads_on { ReadsOn S.Source lines.old lines.new }
    ensures limit { lines.old.taken ≤ INPUT_LIMIT + 1 → lines.new.taken ≤ INPUT_LIMIT + 1 }
{
    let mut top = Topology::new(alloc)?;
    // The lines are counted in 64 bits, as each takes a byte at least of those pending and those to
    // come.
    let _pending = lines.pending();
    let mut line = 0;
    loop {
        line += 1;
        match take_next(&mut top, lines)? {
            Taken::Added => {}
            Taken::End => return Ok(top),
            Taken::Wrong(word) => return Err(TopoFault::At { line, word }),
        }
    }
}

// Takes the next line into the topology.
fn take_next<S: Source>(top: &mut Topology, lines: &mut LineReader<S>) -> Result<Taken, LineFault>
    ensures takes { TakesNext S.Source lines.old lines.new result top.old top.new }
    ensures network { IsNetwork top.old }
{
    let _nodes = top.nodes();
    match lines.next()? {
        Some(Line::Text(line)) => Ok(take_line(top, line)),
        Some(Line::Long) => Ok(Taken::Wrong(0)),
        None => Ok(Taken::Wrong(1)),
    }
}
