// The network that the text of a topology tells.
ghost use Rattle.std.specs.Prelude.{IsSome, IsTrue};
ghost use Rattle.hose_outside.specs.Reading.{ReadsText, ReadsTopology};
ghost use Rattle.hose_outside.specs.TopologyTold.{own_costs};

use crate::cabinet_text::CabinetText;
use crate::fault::Fault;
use crate::json_text::read_whole_json;
use crate::notation::Notation;
use hose_disk::Cabinet;
use hose_graph::Topology;
use hose_tariff::Prices;
use hose_topo::read;
use hose_words::LineReader;
use std::alloc::Global;

/// The names, in a cabinet, of a text with a topology and of the journal of its network.
#[derive(Clone, Copy)]
pub struct Names<'a> {
    pub topology: &'a str,
    pub journal: &'a str,
}

/// The network that the text of a name tells, with these costs. It is written in JSON where its
/// name ends in `.json`.
pub fn read_topology<P: Prices, C: Cabinet>(
    alloc: Global,
    costs: &P,
    name: &str,
    cabinet: &mut C,
) -> Result<Topology, Fault>
    ensures reads { ReadsTopology C.Cabinet cabinet.old cabinet.new (P.prices costs.now) name.now
        result }
{
    let told = read_told(alloc, name, cabinet)?;
    let topology = costs.apply(alloc, told)?;
    Ok(topology)
}

// Reads the topology of a text of the cabinet, with the costs that the text tells.
fn read_told<C: Cabinet>(alloc: Global, name: &str, cabinet: &mut C) -> Result<Topology, Fault>
    ensures reads { ReadsTopology C.Cabinet cabinet.old cabinet.new own_costs name.now result }
{
    // A text that is not there is told before a topology is looked for in it.
    let Ok(_) = cabinet.text(name, 0, &mut [0]) else {
        return Err(Fault::Text);
    };
    read_there(alloc, name, cabinet)
}

// Reads the topology of a text that is there, with the costs that the text tells.
fn read_there<C: Cabinet>(alloc: Global, name: &str, cabinet: &mut C) -> Result<Topology, Fault>
    requires { IsTrue (C.frame cabinet.old).tells → IsSome (C.text cabinet.old name.now) }
    ensures reads { ReadsTopology C.Cabinet cabinet.old cabinet.new own_costs name.now result }
{
    match Notation::of(name) {
        Notation::Lines => read_text(alloc, name, cabinet),
        Notation::Json => read_json_text(alloc, name, cabinet),
    }
}

// The topology of a text in lines.
fn read_text<C: Cabinet>(alloc: Global, name: &str, cabinet: &mut C) -> Result<Topology, Fault>
    requires { IsTrue (C.frame cabinet.old).tells → IsSome (C.text cabinet.old name.now) }
    ensures reads { ReadsText C.Cabinet cabinet.old cabinet.new Notation.Lines own_costs name.now
        result }
{
    let mut lines = LineReader::new(CabinetText::new(cabinet, name));
    let topology = read(alloc, &mut lines);
    // What is known of the cabinet again comes from here.
    let _ = lines.into_source().into_cabinet();
    match topology {
        Ok(topology) => Ok(topology),
        Err(fault) => Err(Fault::of_topology(fault, Fault::Text)),
    }
}

// The topology of a text in JSON.
fn read_json_text<C: Cabinet>(alloc: Global, name: &str, cabinet: &mut C) -> Result<Topology, Fault>
    requires { IsTrue (C.frame cabinet.old).tells → IsSome (C.text cabinet.old name.now) }
    ensures reads { ReadsText C.Cabinet cabinet.old cabinet.new Notation.Json own_costs name.now
        result }
{
    let mut text = CabinetText::new(cabinet, name);
    let topology = read_whole_json(alloc, &mut text);
    let _ = text.into_cabinet();
    topology
}
