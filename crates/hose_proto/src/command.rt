// Commands read from words.
ghost use Rattle.std.specs.Prelude.{◌≡◌, ◌⊎◌, ℕ, List, ◌+◌, ◌≤◌, ◌↔◌, length, drop, Ok, Err, IfOk, IfErr, IsTrue, Any};
ghost use Rattle.hose_words.specs.Words.{IsChoice, IsFirst, words_of};
ghost use Rattle.hose_words.specs.Shapes.{IsFirstWrong};
ghost use Rattle.hose_graph.specs.Hose.{Endpoint, node_of};
ghost use Rattle.hose_graph.specs.Network.{IsNetwork};
ghost use Rattle.hose_graph.specs.declared.command.Command.{Command};
ghost use Rattle.hose_proto.specs.Command.{AreEndsOf, AreNewEnds, IsCommand, TakesMemory, command_shape, ends_shape, verb_word};
ghost use Rattle.hose_proto.specs.Places.{end_word};
ghost use Rattle.hose_proto.specs.steps.CommandForms.{AsksByFields, command_form, ends_form};
ghost use Rattle.hose_proto.specs.steps.Reading.{IsFaultIn, IsFaultOf, IsNewEnd};
ghost use Rattle.hose_graph.specs.steps.Naming.{AsksOf};

use crate::choices::next_choice;
use crate::fault::{Read, ReadFault};
use crate::lists::{Items, read_items};
use crate::places::endpoint;
use crate::verb::{VERBS, read_after};
use hose_graph::{Command, Endpoint, Hose, LEAST_ENDS, MOST_ENDS, Topology};
use hose_words::Cursor;
use std::alloc::Global;

/// The command that the words of a line after its first `from` ask for.
///
/// The endpoints of an admission or of a quote may stand in any order. A word that is not allowed
/// is told by its number in the line.
pub fn read_command(
    alloc: Global,
    top: &Topology,
    line: &[u8],
    from: u64,
) -> Result<Command, ReadFault>
    requires { from ≤ length (words_of line.now) }
    ensures ok { IfOk result (IsCommand top.now (drop from (words_of line.now))) }
    ensures bad { (word : ℕ) → result ≡ Err (ReadFault.Bad word)
        → (place : ℕ) × (word ≡ from + place)
        × IsFirstWrong (command_shape top.now) (drop from (words_of line.now)) place }

    // A line that asks for a command is never refused, and nothing else is read of it.
    ensures asked { (command : Command) → IsCommand top.now (drop from (words_of line.now)) command
        → (result ≡ Ok command) ⊎ (result ≡ Err ReadFault.Memory) }
    // Memory is wanted for endpoints alone.
    ensures memory { result ≡ Err ReadFault.Memory
        → IsFirst (IsChoice TakesMemory verb_word) (drop from (words_of line.now)) }
    ensures nodes { IfOk result (AsksOf top.now) }
{
    let mut words = Cursor::new(line);
    words.skip(from);
    read_command_at(alloc, top, &mut words)
}

/// The command that the words still to come ask for, as `read_command` reads it.
pub fn read_command_at(
    alloc: Global,
    top: &Topology,
    words: &mut Cursor<'_>,
) -> Result<Command, ReadFault>
    ensures ok { IfOk result (IsCommand top.now words.old.left) }
    ensures bad { IfErr result (IsFaultIn (command_shape top.now) words.old) }
    ensures asked { (command : Command) → IsCommand top.now words.old.left command
        → (result ≡ Ok command) ⊎ (result ≡ Err ReadFault.Memory) }
    ensures memory { result ≡ Err ReadFault.Memory
        → IsFirst (IsChoice TakesMemory verb_word) words.old.left }
    ensures nodes { IfOk result (AsksOf top.now) }

    // Whatever is answered, these words ask for one command at most, and where they ask for one,
    // none of them is wrong.
    ensures alone { (command other : Command) → IsCommand top.now words.old.left command
        → IsCommand top.now words.old.left other → command ≡ other }
    ensures never_wrong { (command : Command) (word : ℕ) → IsCommand top.now words.old.left command
        → IsFirstWrong (command_shape top.now) words.old.left word → ⊥ }
{
    let _nodes = top.nodes();
    read_words(alloc, top, words)
}

// Reads the words of a command, where it is known that `top` is a network.
fn read_words(alloc: Global, top: &Topology, words: &mut Cursor<'_>) -> Read<Command>
    requires { IsNetwork top.now }
    ensures ok { IfOk result (AsksByFields top.now words.old.left) }
    ensures bad { IfErr result (IsFaultOf (command_form top.now) words.old) }
    ensures memory { result ≡ Err ReadFault.Memory
        → IsFirst (IsChoice TakesMemory verb_word) words.old.left }
{
    let verb = next_choice(words, &VERBS)?;
    read_after(alloc, top, verb, words)
}

/// The hose of the endpoints `NAME:RATE` that are left of a line. They may stand in any order.
pub fn read_hose(alloc: Global, top: &Topology, words: &mut Cursor<'_>) -> Result<Hose, ReadFault>
    ensures ok { IfOk result (AreEndsOf top.now words.old.left) }
    ensures bad { IfErr result (IsFaultIn (ends_shape top.now) words.old) }

    // Whatever is answered, these words spell one hose at most, and where they spell one, none of
    // them is wrong.
    ensures alone { (hose other : List Endpoint) → AreEndsOf top.now words.old.left hose
        → AreEndsOf top.now words.old.left other → hose ≡ other }
    ensures never_wrong { (hose : List Endpoint) (word : ℕ) → AreEndsOf top.now words.old.left hose
        → IsFirstWrong (ends_shape top.now) words.old.left word → ⊥ }
{
    let _nodes = top.nodes();
    read_ends(alloc, top, words)
}

// Reads the words of endpoints, where it is known that `top` is a network.
pub(crate) fn read_ends(alloc: Global, top: &Topology, words: &mut Cursor<'_>) -> Read<Hose>
    requires { IsNetwork top.now }
    ensures ok { IfOk result (AreEndsOf top.now words.old.left) }
    ensures bad { IfErr result (IsFaultOf (ends_form top.now) words.old) }
{
    let ends = read_items::<NewEnds>(alloc, top, LEAST_ENDS, words)?;
    let hose = Hose::from_ends(alloc, &ends)?;
    Ok(hose)
}

// Endpoints of a hose, in any order.
struct NewEnds;

impl Items for NewEnds {
    type ListItem = Endpoint;

    ghost word_of = { end_word };

    ghost fine = { AreNewEnds };

    ghost may_come = { IsNewEnd };

    // The endpoint that a word spells, where there is room for one more and its node has none yet.
    fn next(top: &Topology, ends: &[Endpoint], word: &[u8]) -> Option<Endpoint> {
        let Some(end) = endpoint(top, word) else {
            return None;
        };
        if ends.len() >= MOST_ENDS {
            return None;
        }
        if has_node(ends, end.0) {
            return None;
        }
        Some(end)
    }
}

// Whether one of the endpoints is at the node.
fn has_node(ends: &[Endpoint], node: u32) -> bool
    ensures { IsTrue result ↔ Any (λ end. node_of end ≡ node) ends.now }
{
    ends.iter().any(|end| end.0 == node)
}
