// Calls by their names, of which the program prints what comes.
use crate::{doors, lines, streams, topologies, values};
use cases_common::{Calls, CaseCall, CaseText, Trouble, first, named, number};
use hose_graph::Topology;

/// The calls of this program.
pub struct PartCalls;

impl Calls for PartCalls {
    fn tell(call: CaseCall<'_>, told: &mut CaseText) -> Result<(), Trouble> {
        match call.name {
            "command" | "reply" | "vpns" | "copies" | "canonical" => {
                let top = named(told.alloc(), call.network)?;
                tell_of_network(&top, call, told)
            }
            "endpoints" | "long" | "gather" | "lines" | "ended" | "generate" => {
                let (count, rest) = first(call.words);
                tell_of_number(call.name, number(count)?, rest, told)
            }
            "words" | "links" | "hose" | "refusals" | "names" => tell_of_values(call, told),
            _ => tell_of_streams(call.name, told),
        }
    }
}

// A call that takes a network.
fn tell_of_network(top: &Topology, call: CaseCall<'_>, told: &mut CaseText) -> Result<(), Trouble> {
    match call.name {
        "command" => {
            lines::tell_command(top, call.words, told);
            Ok(())
        }
        "reply" => lines::tell_reply(top, call.words, told),
        "vpns" => lines::tell_vpns(top, number(call.words)?, told),
        "copies" => values::tell_copies(top, told),
        _ => topologies::tell_canonical(top, told),
    }
}

// A call that takes a number or two.
fn tell_of_number(name: &str, count: u64, rest: &str, told: &mut CaseText) -> Result<(), Trouble> {
    match name {
        "endpoints" => lines::tell_endpoints(count, told),
        "long" => lines::tell_long(count, told),
        "gather" => streams::tell_gathered(count, told),
        "ended" => topologies::tell_ended(count, told),
        "generate" => topologies::tell_generated(count, told),
        _ => streams::tell_lines(count, rest, told),
    }
}

// A call of values that takes no network.
fn tell_of_values(call: CaseCall<'_>, told: &mut CaseText) -> Result<(), Trouble> {
    match call.name {
        "words" => {
            lines::tell_words(told);
            Ok(())
        }
        "links" => values::tell_links(told),
        "hose" => values::tell_hose(call.words, told),
        "refusals" => values::tell_refusals(told),
        _ => {
            values::tell_names(call.words, told);
            Ok(())
        }
    }
}

// A call of streams or of a door.
fn tell_of_streams(name: &str, told: &mut CaseText) -> Result<(), Trouble> {
    match name {
        "door" => doors::tell_only_one(told),
        "door-fails" => doors::tell_failing(told),
        "source" => streams::tell_source(told),
        "sink" => streams::tell_sink(told),
        "trickle" => {
            streams::tell_trickled(told);
            Ok(())
        }
        "pass" => streams::tell_passed(told),
        _ => Err(Trouble::Word),
    }
}
