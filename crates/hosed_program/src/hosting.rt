// A host, as the program's words ask for it.
ghost use Rattle.std.specs.Prelude.{◌≡◌, None, map, option_map};
ghost use Rattle.std.specs.String.{string_bytes};
ghost use Rattle.hose_outside.specs.Reading.{priced_names};
ghost use Rattle.hose_outside.specs.Parts.{AllStay, door_parts, parts, tellings};
ghost use Rattle.hosed_requests.specs.HostNaming.{HostNamesOf};
ghost use Rattle.hosed_requests.specs.HostWords.{AreHostWords, AsksToHost, HostAsked};
ghost use Rattle.hosed.specs.Offline.{offer_of};
ghost use Rattle.hosed_requests.specs.ProgramWords.{costs_at};
ghost use Rattle.hose_lead.specs.LedStore.{LedState};
ghost use Rattle.hosed_host.specs.HostBook.{door_tellings};
ghost use Rattle.hosed_host.specs.HostOutcome.{FailsHost};
ghost use Rattle.hosed_host.specs.HostWhy.{TellsWhy, host_status};
ghost use Rattle.hosed_program.specs.HostCommand.{HostCommand, doors_of};
ghost use Rattle.hosed_program.specs.steps.HostWords.{plan_said};

use hose_disk::Cabinet;
use hose_io::{Sink, Source};
use hose_log::ErrorLog;
use hose_net::Doors;
use hose_outside::{Fault, Outside, end};
use hose_tariff::{Prices, Tariff};
use hosed_host::{HostDoors, HostRequest, HostWhy, StandbyPlan, host_by_names};
use hosed_requests::{HostWords, StandbyWords, costs_of, host_words};
use std::alloc::Global;
use std::io::Write;
use std::sync::Wait;
use std::thread::Threads;
use std::time::Clock;

/// For so many seconds nothing may be heard of a standby, where no other number is told.
const PATIENCE: u64 = 10;

/// What a host reaches besides: its doors, the threads and the clock of its log, and standard
/// error, which a log takes.
#[derive(Drop)]
pub struct HostOutside<D, T, S> {
    pub doors: D,
    pub threads: T,
    pub errors: Option<S>,
}

/// Why a host ended, and the topology and the journal that its words name, if they are not wrong.
#[derive(Clone, Copy)]
pub struct HostEnded<'w> {
    pub why: HostWhy,
    pub named: Option<HostWords<'w>>,
}

/// Does what the words of a host say, and tells why that ended.
pub fn host_ended<
    'w,
    W: Wait,
    I: Source,
    O: Sink,
    C: Cabinet,
    D: Doors,
    T: Threads + Wait + Clock + Copy + Drop + Send + 'static,
    S: Write + Drop + Send + 'static,
>(
    rt: &W,
    alloc: Global,
    words: &'w [String],
    tariffs: &[Tariff],
    input: &mut I,
    output: &mut O,
    cabinet: &mut C,
    host: &mut HostOutside<D, T, S>,
) -> HostEnded<'w>
    requires none_out { (C.frame cabinet.old).out ≡ None }
    requires asks { AsksToHost (map string_bytes words.now) }
    ensures outcome { HostCommand (tellings I.Source O.Sink C.Cabinet C.Disk.Disk)
        (door_tellings D.Doors D.Network.Connections.did
        (D.Network.Connections.saw (LedState C.Disk)))
        (offer_of ⟦<Tariff as Prices>⟧.prices (λ tariff. tariff.name) (λ tariff. tariff.base)
        (λ tariff. tariff.per) tariffs.now)
        (door_parts (parts input.old output.old cabinet.old) host.old.doors)
        (door_parts (parts input.new output.new cabinet.new) host.new.doors)
        (host_status result.why) (map string_bytes words.now) }
    ensures told { TellsWhy O.Sink output.new result.why }
    ensures fails { (asked : HostAsked) → AreHostWords (map (λ tariff. tariff.name) tariffs.now)
        (map string_bytes words.now) asked
        → FailsHost (tellings I.Source O.Sink C.Cabinet C.Disk.Disk)
        (door_tellings D.Doors D.Network.Connections.did
        (D.Network.Connections.saw (LedState C.Disk)))
        (priced_names (costs_at ⟦<Tariff as Prices>⟧.prices tariffs.now asked.tariff)
        asked.topology asked.journal) (doors_of (map (λ tariff. tariff.name) tariffs.now) asked)
        (door_parts (parts input.old output.old cabinet.old) host.old.doors)
        (door_parts (parts input.new output.new cabinet.new) host.new.doors) result.why }
    ensures names { HostNamesOf (map (λ tariff. tariff.name) tariffs.now)
        (map string_bytes words.now) result.named }
    ensures back { (C.frame cabinet.new).out ≡ None }
    ensures keeps { AllStay (tellings I.Source O.Sink C.Cabinet C.Disk.Disk)
        (parts input.old output.old cabinet.old) (parts input.new output.new cabinet.new) }
{
    match host_words(words, tariffs) {
        Ok(said) => {
            let costs = costs_of(tariffs, said.tariff);
            let request = HostRequest {
                topology: said.topology,
                journal: said.journal,
                doors: HostDoors {
                    operator: said.operator,
                    words: said.doors,
                    first: said.first,
                    standby: plan_of(said.standby),
                },
            };
            let log = log_of(host.threads, alloc, &mut host.errors, said.quiet);
            let mut outside = Outside::of(input, output, cabinet);
            let doors = &mut host.doors;
            HostEnded {
                why: host_by_names(rt, alloc, &costs, request, &mut outside, doors, log),
                named: Some(said),
            }
        }
        Err(wrong) => HostEnded {
            why: HostWhy::Ended(end(Err(Fault::Words(wrong)), output)),
            named: None,
        },
    }
}

// The standby that words tell.
fn plan_of(standby: Option<StandbyWords<'_>>) -> Option<StandbyPlan<'_>>
    ensures { result ≡ option_map plan_said standby.entry }
{
    let said = standby?;
    Some(StandbyPlan {
        path: said.path,
        seconds: said.seconds.unwrap_or(PATIENCE),
        or_stop: said.or_stop,
    })
}

// The log of a host: at standard error where that is not taken, or none for who wants quiet.
fn log_of<
    T: Threads + Wait + Clock + Copy + Drop + Send + 'static,
    S: Write + Drop + Send + 'static,
>(threads: T, alloc: Global, errors: &mut Option<S>, is_quiet: bool) -> ErrorLog<T> {
    if is_quiet {
        return ErrorLog::silent(threads, alloc);
    }
    match errors.take() {
        Some(errors) => ErrorLog::begin(threads, alloc, errors),
        None => ErrorLog::silent(threads, alloc),
    }
}
