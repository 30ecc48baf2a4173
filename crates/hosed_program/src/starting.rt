// The program's one call.
ghost use Rattle.std.specs.Prelude.{◌≡◌, ◌∷◌, [], None, codes, map};
ghost use Rattle.hose_outside.specs.Ending.{IsOut};
ghost use Rattle.hose_outside.specs.Fault.{last_line};
ghost use Rattle.hose_outside.specs.Parts.{door_parts, parts, tellings};
ghost use Rattle.hose_outside.specs.declared.fault.Fault.TheVariants as fault;
ghost use Rattle.hosed.specs.Offline.{offer_of};
ghost use Rattle.hosed.specs.ServerDoor.{seen_of};
ghost use Rattle.hose_lead.specs.LedStore.{LedState};
ghost use Rattle.hosed_host.specs.HostBook.{door_tellings};
ghost use Rattle.hosed_program.specs.Program.{StartOutcome};

use crate::choice::{OwnedOutside, program};
use crate::given::Given;
use crate::hosting::{HostOutside, host_ended};
use crate::known::{Hints, Known, Troubled};
use crate::reasons::{tell_host_why, tell_why};
use crate::words::program_words;
use hose_disk::Cabinet;
use hose_io::{Door, Sink, Source, write_all};
use hose_net::Doors;
use hose_outside::{Fault, Why};
use hose_pool::Gate;
use hose_tariff::{Prices, Tariff};
use hosed::{Context, Ended};
use hosed_requests::asks_to_host;
use std::io::{Eprint, Write};
use std::sync::Wait;
use std::thread::Threads;
use std::time::Clock;

/// Takes all words that the program is given, does what they say, tells on standard error why that
/// ended, and gives the exit status. The tariffs are the program's three.
pub fn start<
    R: Threads + Wait + Sync,
    E: Eprint,
    W: Given,
    I: Source,
    O: Sink,
    C: Cabinet + Troubled,
    L: Door + Send,
    G: Gate + Sync,
    D: Doors,
    T: Threads + Wait + Clock + Copy + Drop + Send + 'static,
    S: Write + Drop + Send + 'static,
>(
    context: Context<'_, R, G>,
    hints: Hints<'_, E>,
    given: &W,
    tariffs: &[Tariff],
    world: &mut OwnedOutside<I, O, C, L>,
    host: &mut HostOutside<D, T, S>,
) -> u8
    requires none_out { (C.frame world.old.cabinet).out ≡ None }
    requires names { map (λ tariff. tariff.name) tariffs.now
        ≡ codes "flat" ∷ codes "hops" ∷ codes "long" ∷ [] }
    requires bases { map (λ tariff. tariff.base) tariffs.now ≡ 0 ∷ 1 ∷ 5 ∷ [] }
    requires pers { map (λ tariff. tariff.per) tariffs.now ≡ 1 ∷ 0 ∷ 2 ∷ [] }
    ensures { StartOutcome (tellings I.Source O.Sink C.Cabinet C.Disk.Disk)
        (door_tellings D.Doors D.Network.Connections.did
        (D.Network.Connections.saw (LedState C.Disk)))
        (offer_of ⟦<Tariff as Prices>⟧.prices (λ tariff. tariff.name) (λ tariff. tariff.base)
        (λ tariff. tariff.per) tariffs.now)
        (door_parts (parts world.old.input world.old.output world.old.cabinet) (
          seen_of (L.frame world.old.door) (L.told world.old.door) (L.opened_at world.old.door),
          host.old.doors,
        ))
        (door_parts (parts world.new.input world.new.output world.new.cabinet) (
          seen_of (L.frame world.new.door) (L.told world.new.door) (L.opened_at world.new.door),
          host.new.doors,
        )) result (W.words given.now) }
{
    match program_words(given, context.alloc) {
        Ok(words) => {
            if asks_to_host(&words) {
                let ended = host_ended(
                    context.rt,
                    context.alloc,
                    &words,
                    tariffs,
                    &mut world.input,
                    &mut world.output,
                    &mut world.cabinet,
                    host,
                );
                tell_host_why(hints.rt, &words, ended, known(hints, world));
                return ended.why.status();
            }
            let ended = program(context, &words, tariffs, world);
            tell_why(hints.rt, &words, ended, known(hints, world));
            ended.why.status()
        }
        Err(_) => no_memory(hints.rt, &mut world.output),
    }
}

// What is known of what ended the program.
fn known<E, I: Source, O: Sink, C: Cabinet + Troubled, L: Door>(
    hints: Hints<'_, E>,
    world: &OwnedOutside<I, O, C, L>,
) -> Known {
    Known {
        unread: hints.unread.get(),
        trouble: world.cabinet.last_trouble(),
    }
}

/// Tells that there is no memory to begin with, and gives the status.
pub fn no_memory<E: Eprint, O: Sink>(errors: &E, output: &mut O) -> u8
    ensures status { result ≡ 7 }
    ensures line { IsOut O.Sink output.old output.new (last_line fault.Memory) }
{
    // The status stays where the line cannot be written.
    let _ = write_all(output, b"no memory\n");
    let ended = Ended {
        why: Why::Stopped(Fault::Memory),
        named: None,
    };
    tell_why(errors, &[], ended, Known::nothing());
    7
}
