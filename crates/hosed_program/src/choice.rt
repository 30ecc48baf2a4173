// What the program's words choose: a text about itself, or the server.
ghost use Rattle.std.specs.Prelude.{◌≡◌, None, Ok, map, ⊤};
ghost use Rattle.std.specs.String.{string_bytes};
ghost use Rattle.hose_io.specs.Frame.{Stays};
ghost use Rattle.hose_outside.specs.Ending.{EndsTold};
ghost use Rattle.hose_outside.specs.Parts.{AllStay, door_parts, parts, tellings};
ghost use Rattle.hose_outside.specs.Why.{IsTold, why_status};
ghost use Rattle.hosed.specs.Failing.{FailsWords};
ghost use Rattle.hosed_requests.specs.Naming.{NamesOf};
ghost use Rattle.hosed.specs.Offline.{offer_of};
ghost use Rattle.hosed.specs.ServerDoor.{seen_of};
ghost use Rattle.hosed_program.specs.Program.{ProgramOutcome, asks_help, text_or_command};
ghost use Rattle.hosed_program.specs.declared.choice.TextOrCommand.TheVariants as asked;

use crate::texts::{HELP, VERSION};
use hose_disk::Cabinet;
use hose_io::{Door, Sink, Source, write_all};
use hose_outside::{Fault, Why};
use hose_pool::Gate;
use hose_tariff::{Prices, Tariff};
use hosed::{Context, Ended, hosed_ended, offline_ended};
use hosed_requests::asks_to_serve;
use std::sync::Wait;
use std::thread::Threads;

/// What the program's words ask for.
#[derive(Clone, Copy)]
pub enum TextOrCommand {
    Help,
    Version,
    /// All other words, right ones and wrong ones.
    Command,
}

/// What the program reads, writes and serves.
#[derive(Drop)]
pub struct OwnedOutside<I: Source, O: Sink, C: Cabinet, L: Door> {
    pub input: I,
    pub output: O,
    pub cabinet: C,
    pub door: L,
}

/// Does what the words say, and tells why that ended, and what the words name.
pub fn program<
    'w,
    R: Threads + Wait + Sync,
    I: Source,
    O: Sink,
    C: Cabinet,
    L: Door + Send,
    G: Gate + Sync,
>(
    context: Context<'_, R, G>,
    words: &'w [String],
    tariffs: &[Tariff],
    world: &mut OwnedOutside<I, O, C, L>,
) -> Ended<'w>
    requires { (C.frame world.old.cabinet).out ≡ None }
    ensures outcome { ProgramOutcome (tellings I.Source O.Sink C.Cabinet C.Disk.Disk)
        (door_parts (parts world.old.input world.old.output world.old.cabinet)
        (seen_of (L.frame world.old.door) (L.told world.old.door) (L.opened_at world.old.door)))
        (door_parts (parts world.new.input world.new.output world.new.cabinet)
        (seen_of (L.frame world.new.door) (L.told world.new.door) (L.opened_at world.new.door)))
        (offer_of ⟦<Tariff as Prices>⟧.prices (λ tariff. tariff.name) (λ tariff. tariff.base)
        (λ tariff. tariff.per) tariffs.now)
        (why_status result.why) (map string_bytes words.now) }
    ensures told { IsTold O.Sink world.new.output result.why }
    ensures fails { text_or_command (map string_bytes words.now) ≡ asked.Command
        → FailsWords (tellings I.Source O.Sink C.Cabinet C.Disk.Disk)
        (offer_of ⟦<Tariff as Prices>⟧.prices (λ tariff. tariff.name) (λ tariff. tariff.base)
        (λ tariff. tariff.per) tariffs.now)
        (parts world.old.input world.old.output world.old.cabinet)
        (parts world.new.input world.new.output world.new.cabinet)
        result.why (map string_bytes words.now) }
    ensures names { text_or_command (map string_bytes words.now) ≡ asked.Command
        → NamesOf (map (λ tariff. tariff.name) tariffs.now) (map string_bytes words.now)
        result.named }
    ensures back { (C.frame world.new.cabinet).out ≡ None }
    ensures keeps { AllStay (tellings I.Source O.Sink C.Cabinet C.Disk.Disk)
        (parts world.old.input world.old.output world.old.cabinet)
        (parts world.new.input world.new.output world.new.cabinet) }
    ensures door { Stays (L.frame world.old.door) (L.frame world.new.door) }
{
    match text_or_command(words) {
        TextOrCommand::Help => Ended {
            why: tell(&mut world.output, HELP),
            named: None,
        },
        TextOrCommand::Version => Ended {
            why: tell(&mut world.output, VERSION),
            named: None,
        },
        TextOrCommand::Command if asks_to_serve(words) => hosed_ended(
            context,
            words,
            &mut world.input,
            &mut world.output,
            &mut world.cabinet,
            &mut world.door,
            tariffs,
        ),
        TextOrCommand::Command => offline_ended(
            context.alloc,
            words,
            &mut world.input,
            &mut world.output,
            &mut world.cabinet,
            tariffs,
        ),
    }
}

// What the words ask for. The texts are for each of these words alone.
fn text_or_command(words: &[String]) -> TextOrCommand
    ensures { result ≡ text_or_command (map string_bytes words.now) }
{
    match words {
        [word] if asks_help(word.as_str()) => TextOrCommand::Help,
        [word] if word.as_str() == "--version" => TextOrCommand::Version,
        _ => TextOrCommand::Command,
    }
}

// Whether a word asks what the words are.
fn asks_help(word: &str) -> bool
    ensures { result ≡ asks_help word.now }
{
    word == "--help" || word == "-h" || word == "help"
}

// Writes a text, and tells why that ended.
fn tell<O: Sink>(output: &mut O, text: &str) -> Why
    ensures out { EndsTold {T = ⊤} O.Sink output.old output.new (why_status result) (Ok tt)
        text.now }
    ensures told { IsTold O.Sink output.new result }
    ensures stays { Stays (O.frame output.old) (O.frame output.new) }
{
    match write_all(output, text.as_bytes()) {
        Ok(()) => Why::Done,
        Err(_) => Why::Stopped(Fault::Write),
    }
}
