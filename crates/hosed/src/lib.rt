//! The provisioning server as one call: what it answers on an output to what it reads on an input.
//!
//! `hosed` does what the words of the program say and gives the exit status. With `run` it reads
//! a topology text and then lines `CUSTOMER COMMAND`, and writes one reply line for each; with
//! `run JOURNAL` it keeps its book in a journal, which outlives it; `audit TOPOLOGY JOURNAL` writes
//! what the book of a journal holds; `serve TOPOLOGY JOURNAL PORT CONNECTIONS WORKERS` serves
//! customers at a port, each in a session, by the book of a journal that they share. With
//! `--tariff` each plans by the costs that a tariff makes of the lengths of links. Beside them
//! `prove TOPOLOGY NAME:RATE ..` writes a certificate of least cost, `check TOPOLOGY` judges one,
//! `price TOPOLOGY` prices hoses under all tariffs, and `gen SEED NODES LINKS HOSES` runs a script
//! that it makes of four numbers. A standby is kept by `ship TOPOLOGY JOURNAL FROM`, which writes
//! the entries of a journal as packets, and `follow TOPOLOGY JOURNAL`, which takes packets into
//! another one. `move TOPOLOGY JOURNAL NEW_TOPOLOGY NEW_JOURNAL` writes what a journal of one
//! network holds into a journal of another one, and `cut TOPOLOGY JOURNAL N NEW_JOURNAL` the first
//! entries of a journal into another one:
//!
//! ```
//! let input = &mut StdSource::new(stdin);
//! let output = &mut StdSink::new(stdout);
//! let (cabinet, door) = (&mut DirCabinet::new(rt), &mut TcpDoor::new(rt));
//! let status = hosed(&rt, alloc, &words, input, output, cabinet, door, &tariffs, &PlainGate);
//! ```
//!
//! Each reply is the sequential book's at its place in one history; each admitted tree's
//! reservations carry every traffic matrix within the rates, at no more than any tree over the
//! links then allowed would cost; after a stop at any moment the journal gives every acknowledged
//! command, in order, and then at most the one that was being written.
#![tactic(auto)]

ghost use Rattle.std.specs.Prelude.{◌≡◌, None, map};
ghost use Rattle.std.specs.String.{string_bytes};
ghost use Rattle.hose_io.specs.Frame.{Stays};
ghost use Rattle.hose_outside.specs.Parts.{AllStay, door_parts, parts, tellings};
ghost use Rattle.hose_outside.specs.Why.{IsTold, why_status};
ghost use Rattle.hosed.specs.Failing.{FailsWords};
ghost use Rattle.hosed.specs.Hosed.{HosedOutcome};
ghost use Rattle.hosed_requests.specs.Naming.{NamesOf};
ghost use Rattle.hosed.specs.Offline.{OfflineOutcome, offer_of};
ghost use Rattle.hosed_requests.specs.ProgramWords.{AsksToServe};
ghost use Rattle.hosed.specs.ServerDoor.{seen_of};

mod doing;
mod server;

use doing::do_request;
pub use hose_crew::Context;
use hose_disk::Cabinet;
use hose_io::{Door, Sink, Source};
use hose_outside::{Fault, Outside, Why, end};
use hose_pool::Gate;
use hose_tariff::{Prices, Tariff};
use hosed_requests::{
    NamedByWords, asks_to_serve, costs_of, named_of, request_of, serve_of, server_named,
};
use server::serve;
use std::alloc::Global;
use std::sync::Wait;
use std::thread::Threads;

/// Why the program ended, and what its words name, if they are not wrong.
#[derive(Clone, Copy)]
pub struct Ended<'w> {
    pub why: Why,
    pub named: Option<NamedByWords<'w>>,
}

/// Does what the words say, and gives the exit status. The words are those after the program's
/// name: `run`, and the name of a journal in the cabinet if the book is to be kept in one; `audit`,
/// the name of a text in the cabinet with a topology, and that of a journal of it; `serve`, the
/// same names, a port, how many connections are to be served, and by how many workers; `prove`, the
/// name of a text with a topology, and the endpoints of a hose; `check` or `price`, and the name of
/// a text with a topology; `ship`, the names of `audit`, and an epoch; `follow`, and the names of
/// `audit`; `move`, `--live` or nothing, the names of `audit`, and the same of another network,
/// whose journal has another name; `cut`, the names of `audit`, a number of entries, and the name
/// of another journal; or `gen`, and four numbers. After the first of them, but for `price` and
/// `gen`, `--tariff` may stand, and the name of one of the tariffs, of which the first with that
/// name is meant. `price` takes all tariffs, of which there have to be 1 to 16. A text
/// whose name ends in `.json` is JSON.
///
/// The status is 0 where all was read to its end, and the journal closed. Else it tells the first
/// fault, and the last line of the output tells it too: 1 `words K`, the number of the first word
/// that is not allowed; 2 `topology LINE WORD`, the first word of the topology that is not allowed,
/// or `topology` and the first fault of one in JSON; 3 `read`; 4 a failed output, which has no last
/// line; 5 `journal other KEPT GIVEN`, a journal of another network, by both digests, or
/// `journal damaged at P`, at this byte; 6 `cabinet`, a text that could not be read, or a journal
/// that could not be opened, read, written or closed; 7 `no memory`; 8 `too long`, an input or a
/// topology of more than 1 GiB, or JSON of more than 16 MiB; 9 `door`, a port that could not be
/// opened, or a connection that could not be accepted; 10 `no K`, a certificate whose rule K fails;
/// 11 `packet P`, an input in which no whole packet begins at byte P; 12 `network node K` or
/// `network link K`, the first change by which a new network does not go on from the old one; 13
/// `unsound N`, the epoch of an entry that is not sound on a new network; 14 `differs at N`, that
/// of an entry that a new journal has and should not have; 15 `less M`, how many entries an old
/// journal has, of which more were to be cut off. Of a move or a cut that came to its end
/// `moved N live V` is the last line, and a fault of what is new is told after `new `.
///
/// With `serve` it waits for customers, and for threads of its own: what it promises it keeps if it
/// returns. It writes `ready` once the port is open, and what the book holds once all is closed.
pub fn hosed<
    R: Threads + Wait + Sync,
    I: Source,
    O: Sink,
    C: Cabinet,
    L: Door + Send,
    G: Gate + Sync,
>(
    rt: &R,
    alloc: Global,
    words: &[String],
    input: &mut I,
    output: &mut O,
    cabinet: &mut C,
    door: &mut L,
    tariffs: &[Tariff],
    gate: &G,
) -> u8
    requires { (C.frame cabinet.old).out ≡ None }
    ensures outcome { HosedOutcome (tellings I.Source O.Sink C.Cabinet C.Disk.Disk)
        (offer_of ⟦<Tariff as Prices>⟧.prices (λ tariff. tariff.name) (λ tariff. tariff.base)
        (λ tariff. tariff.per) tariffs.now)
        (door_parts (parts input.old output.old cabinet.old)
        (seen_of (L.frame door.old) (L.told door.old) (L.opened_at door.old)))
        (door_parts (parts input.new output.new cabinet.new)
        (seen_of (L.frame door.new) (L.told door.new) (L.opened_at door.new)))
        result (map string_bytes words.now) }
    ensures back { (C.frame cabinet.new).out ≡ None }
    ensures keeps { AllStay (tellings I.Source O.Sink C.Cabinet C.Disk.Disk)
        (parts input.old output.old cabinet.old) (parts input.new output.new cabinet.new) }
    ensures door { Stays (L.frame door.old) (L.frame door.new) }
{
    hosed_ended(
        Context { rt, alloc, gate },
        words,
        input,
        output,
        cabinet,
        door,
        tariffs,
    )
    .why
    .status()
}

/// Does what the words say, and tells why that ended, and what the words name: `hosed`, whose
/// status comes of it.
pub fn hosed_ended<
    'w,
    R: Threads + Wait + Sync,
    I: Source,
    O: Sink,
    C: Cabinet,
    L: Door + Send,
    G: Gate + Sync,
>(
    context: Context<'_, R, G>,
    words: &'w [String],
    input: &mut I,
    output: &mut O,
    cabinet: &mut C,
    door: &mut L,
    tariffs: &[Tariff],
) -> Ended<'w>
    requires { (C.frame cabinet.old).out ≡ None }
    ensures outcome { HosedOutcome (tellings I.Source O.Sink C.Cabinet C.Disk.Disk)
        (offer_of ⟦<Tariff as Prices>⟧.prices (λ tariff. tariff.name) (λ tariff. tariff.base)
        (λ tariff. tariff.per) tariffs.now)
        (door_parts (parts input.old output.old cabinet.old)
        (seen_of (L.frame door.old) (L.told door.old) (L.opened_at door.old)))
        (door_parts (parts input.new output.new cabinet.new)
        (seen_of (L.frame door.new) (L.told door.new) (L.opened_at door.new)))
        (why_status result.why) (map string_bytes words.now) }
    ensures told { IsTold O.Sink output.new result.why }
    ensures fails { FailsWords (tellings I.Source O.Sink C.Cabinet C.Disk.Disk)
        (offer_of ⟦<Tariff as Prices>⟧.prices (λ tariff. tariff.name) (λ tariff. tariff.base)
        (λ tariff. tariff.per) tariffs.now)
        (parts input.old output.old cabinet.old) (parts input.new output.new cabinet.new)
        result.why (map string_bytes words.now) }
    ensures names { NamesOf (map (λ tariff. tariff.name) tariffs.now) (map string_bytes words.now)
        result.named }
    ensures back { (C.frame cabinet.new).out ≡ None }
    ensures keeps { AllStay (tellings I.Source O.Sink C.Cabinet C.Disk.Disk)
        (parts input.old output.old cabinet.old) (parts input.new output.new cabinet.new) }
    ensures door { Stays (L.frame door.old) (L.frame door.new) }
{
    if !asks_to_serve(words) {
        return offline_ended(context.alloc, words, input, output, cabinet, tariffs);
    }
    match serve_of(words, tariffs) {
        Ok(request) => {
            let costs = costs_of(tariffs, request.tariff);
            let mut outside = Outside::of(input, output, cabinet);
            Ended {
                why: serve(context, &costs, request, &mut outside, door),
                named: Some(server_named(request)),
            }
        }
        Err(wrong) => Ended {
            why: end(Err(Fault::Words(wrong)), output),
            named: None,
        },
    }
}

/// Does what the words say, and gives the exit status, for every command that waits for nobody, and
/// for wrong words that do not begin with `serve`: as `hosed` does, which calls it. It returns
/// where the calls of its input, its output and its cabinet do.
pub fn offline<I: Source, O: Sink, C: Cabinet>(
    alloc: Global,
    words: &[String],
    input: &mut I,
    output: &mut O,
    cabinet: &mut C,
    tariffs: &[Tariff],
) -> u8
    requires none_out { (C.frame cabinet.old).out ≡ None }
    requires waits_for_nobody { ¬ AsksToServe (map string_bytes words.now) }
    ensures outcome { OfflineOutcome (tellings I.Source O.Sink C.Cabinet C.Disk.Disk)
        (offer_of ⟦<Tariff as Prices>⟧.prices (λ tariff. tariff.name) (λ tariff. tariff.base)
        (λ tariff. tariff.per) tariffs.now)
        (parts input.old output.old cabinet.old) (parts input.new output.new cabinet.new)
        result (map string_bytes words.now) }
    ensures back { (C.frame cabinet.new).out ≡ None }
    ensures keeps { AllStay (tellings I.Source O.Sink C.Cabinet C.Disk.Disk)
        (parts input.old output.old cabinet.old) (parts input.new output.new cabinet.new) }
{
    offline_ended(alloc, words, input, output, cabinet, tariffs)
        .why
        .status()
}

/// Does what the words say, and tells why that ended, and what the words name, for every command
/// that waits for nobody: `offline`, whose status comes of it.
pub fn offline_ended<'w, I: Source, O: Sink, C: Cabinet>(
    alloc: Global,
    words: &'w [String],
    input: &mut I,
    output: &mut O,
    cabinet: &mut C,
    tariffs: &[Tariff],
) -> Ended<'w>
    requires none_out { (C.frame cabinet.old).out ≡ None }
    requires waits_for_nobody { ¬ AsksToServe (map string_bytes words.now) }
    ensures outcome { OfflineOutcome (tellings I.Source O.Sink C.Cabinet C.Disk.Disk)
        (offer_of ⟦<Tariff as Prices>⟧.prices (λ tariff. tariff.name) (λ tariff. tariff.base)
        (λ tariff. tariff.per) tariffs.now)
        (parts input.old output.old cabinet.old) (parts input.new output.new cabinet.new)
        (why_status result.why) (map string_bytes words.now) }
    ensures told { IsTold O.Sink output.new result.why }
    ensures fails { FailsWords (tellings I.Source O.Sink C.Cabinet C.Disk.Disk)
        (offer_of ⟦<Tariff as Prices>⟧.prices (λ tariff. tariff.name) (λ tariff. tariff.base)
        (λ tariff. tariff.per) tariffs.now)
        (parts input.old output.old cabinet.old) (parts input.new output.new cabinet.new)
        result.why (map string_bytes words.now) }
    ensures names { NamesOf (map (λ tariff. tariff.name) tariffs.now) (map string_bytes words.now)
        result.named }
    ensures back { (C.frame cabinet.new).out ≡ None }
    ensures keeps { AllStay (tellings I.Source O.Sink C.Cabinet C.Disk.Disk)
        (parts input.old output.old cabinet.old) (parts input.new output.new cabinet.new) }
{
    match request_of(words, tariffs) {
        Ok(request) => {
            let mut outside = Outside::of(input, output, cabinet);
            Ended {
                why: do_request(alloc, request, tariffs, &mut outside),
                named: Some(named_of(request)),
            }
        }
        Err(wrong) => Ended {
            why: end(Err(Fault::Words(wrong)), output),
            named: None,
        },
    }
}
