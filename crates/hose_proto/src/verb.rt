// The table of commands: the first word of each, and what is read after it.
ghost use Rattle.std.specs.Prelude.{◌≡◌, ◌∷◌, IfOk, IfErr, Err};
ghost use Rattle.hose_words.specs.steps.Cursor.{IsWrong};
ghost use Rattle.hose_words.specs.steps.Form.{TellsNumber, finish, place};
ghost use Rattle.hose_graph.specs.Network.{Network, IsNetwork};
ghost use Rattle.hose_proto.specs.Command.{IsId, TakesMemory, verb_word};
ghost use Rattle.hose_proto.specs.steps.CommandForms.{Asks, AsksByFields, an_id, asked_form, nothing, one_link, the_hose, verb_form};
ghost use Rattle.hose_proto.specs.steps.Reading.{IsFaultOf};

use crate::command::read_ends;
use crate::fault::{Read, ReadFault};
use crate::places::read_link_number;
use hose_graph::{Command, Hose, MOST_EPOCH, Topology};
use hose_words::{Cursor, WrongWord};
use std::alloc::Global;

// What a command's first word says is to be done. The line of each is that of the usage text.
#[derive(Clone, Copy, Debug)]
pub(crate) enum Verb {
    // `CUSTOMER admit NAME:RATE ..`
    Admit,
    // `CUSTOMER admit-after K NAME:RATE ..`
    AdmitAfter,
    // `CUSTOMER quote NAME:RATE ..`
    Quote,
    // `CUSTOMER take Q`
    Take,
    // `CUSTOMER release ID`
    Release,
    // `CUSTOMER show ID`
    Show,
    // `CUSTOMER vpns`
    Vpns,
    // `CUSTOMER link L`
    Link,
    // `operator down L`
    Down,
    // `operator up L`
    Up,
}

pub(crate) const VERBS: [(Verb, &[u8]); 10] = [
    (Verb::Admit, b"admit"),
    (Verb::AdmitAfter, b"admit-after"),
    (Verb::Quote, b"quote"),
    (Verb::Take, b"take"),
    (Verb::Release, b"release"),
    (Verb::Show, b"show"),
    (Verb::Vpns, b"vpns"),
    (Verb::Link, b"link"),
    (Verb::Down, b"down"),
    (Verb::Up, b"up"),
];

// The command of a verb and the words after it.
pub(crate) fn read_after(
    alloc: Global,
    top: &Topology,
    verb: Verb,
    words: &mut Cursor<'_>,
) -> Read<Command>
    requires { IsNetwork top.now }
    ensures ok { IfOk result (AsksByFields top.now (verb_word verb ∷ words.old.left)) }
    ensures bad { IfErr result (IsFaultOf (verb_form top.now verb) words.old) }
    ensures memory { result ≡ Err ReadFault.Memory → TakesMemory verb }
{
    match verb {
        Verb::Admit => Ok(Command::Admit(read_ends(alloc, top, words)?)),
        Verb::AdmitAfter => {
            let (known, hose) = read_bound(alloc, top, words)?;
            Ok(Command::AdmitAfter { known, hose })
        }
        Verb::Quote => Ok(Command::Quote(read_ends(alloc, top, words)?)),
        Verb::Take => Ok(Command::Take(read_id(words)?)),
        Verb::Release => Ok(Command::Release(read_id(words)?)),
        Verb::Show => Ok(Command::Show(read_id(words)?)),
        Verb::Vpns => {
            words.finish()?;
            Ok(Command::Vpns)
        }
        Verb::Link => Ok(Command::Link(read_link(top, words)?)),
        Verb::Down => Ok(Command::Down(read_link(top, words)?)),
        Verb::Up => Ok(Command::Up(read_link(top, words)?)),
    }
}

// A number, and the endpoints of a hose.
fn read_bound(alloc: Global, top: &Topology, words: &mut Cursor<'_>) -> Read<(u64, Hose)>
    requires { IsNetwork top.now }
    ensures ok { IfOk result
        (λ bound. Asks top.now (an_id the_hose) (bound.0, bound.1) words.old.left) }
    ensures bad { IfErr result (IsFaultOf (asked_form top.now (an_id the_hose)) words.old) }
{
    let known = words.number_within(0, MOST_EPOCH)?;
    let hose = read_ends(alloc, top, words)?;
    Ok((known, hose))
}

// The number of a VPN or of a quote, to the end of the line.
fn read_id(words: &mut Cursor<'_>) -> Result<u64, WrongWord>
    ensures ok { IfOk result
        (λ id. (network : Network) → Asks network (an_id nothing) (id, tt) words.old.left) }
    ensures wrong { IfErr result
        (λ wrong. IsWrong (place (TellsNumber IsId) finish) words.old wrong.number) }
{
    let id = words.number_within(0, MOST_EPOCH)?;
    words.finish()?;
    Ok(id)
}

// The number of a link, to the end of the line.
fn read_link(top: &Topology, words: &mut Cursor<'_>) -> Result<u32, WrongWord>
    requires { IsNetwork top.now }
    ensures ok { IfOk result
        (λ link. Asks top.now (one_link nothing) (link, tt) words.old.left) }
    ensures wrong { IfErr result
        (λ wrong. IsWrong (asked_form top.now (one_link nothing)) words.old wrong.number) }
{
    let link = read_link_number(top, words)?;
    words.finish()?;
    Ok(link)
}
