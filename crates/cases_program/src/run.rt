// The run of a case that calls the program.
ghost use Rattle.std.specs.Prelude.{◌≡◌, None};
ghost use Rattle.hose_disk.specs.steps.CabinetState.{cabinet_frame};

use crate::holding::HoldingGate;
use cases_files::Case;
use cases_stage::{CaseStage, Outcome, outcome_of, stage_of};
use hose_disk::Cabinet;
use hose_io::{Door, Sink, Source};
use hose_pool::{Gate, PlainGate};
use hose_tariff::Tariff;
use hosed_program::{Context, OwnedOutside, flat, hops, long, program, tariffs};
use std::alloc::{AllocError, Global};
use std::sync::Wait;
use std::thread::Threads;

/// Runs the program as the case says.
pub fn run_program<R: Threads + Wait + Sync>(
    rt: &R,
    alloc: Global,
    case: &Case,
) -> Result<Outcome, AllocError> {
    let by_flat = Box::new(alloc, |length: u64| flat(length))?;
    let by_hops = Box::new(alloc, |length: u64| hops(length))?;
    let by_long = Box::new(alloc, |length: u64| long(length))?;
    let tariffs = tariffs(alloc, by_flat, by_hops, by_long)?;
    if case.holds {
        return run_held(rt, alloc, case, &tariffs);
    }
    let gate = &PlainGate;
    run_by(Context { rt, alloc, gate }, case, &tariffs)
}

// A run of which the first session is held, and whether the gate found sessions that are not beside
// each other.
fn run_held<R: Threads + Wait + Sync>(
    rt: &R,
    alloc: Global,
    case: &Case,
    tariffs: &[Tariff],
) -> Result<Outcome, AllocError> {
    let gate = &HoldingGate::new(case.door.connections.len() as u64);
    let mut outcome = run_by(Context { rt, alloc, gate }, case, tariffs)?;
    outcome.is_alone = gate.is_alone();
    Ok(outcome)
}

fn run_by<R: Threads + Wait + Sync, G: Gate + Sync>(
    context: Context<'_, R, G>,
    case: &Case,
    tariffs: &[Tariff],
) -> Result<Outcome, AllocError> {
    let stage = stage_of(context.alloc, case)?;
    run_on(context, case, tariffs, stage)
}

fn run_on<R: Threads + Wait + Sync, G: Gate + Sync>(
    context: Context<'_, R, G>,
    case: &Case,
    tariffs: &[Tariff],
    stage: CaseStage,
) -> Result<Outcome, AllocError>
    requires { (cabinet_frame stage.cabinet).out ≡ None }
{
    let alloc = context.alloc;
    let CaseStage {
        input,
        output,
        cabinet,
        door,
    } = stage;
    let mut world = OwnedOutside {
        input,
        output,
        cabinet,
        door,
    };
    let status = run_in(context, case, tariffs, &mut world);
    let OwnedOutside {
        input,
        output,
        cabinet,
        door,
    } = world;
    let stage = CaseStage {
        input,
        output,
        cabinet,
        door,
    };
    outcome_of(alloc, case, status, stage)
}

// The program's call, at types of which no more is known: its clauses are long at those of a case.
fn run_in<R: Threads + Wait + Sync, I: Source, O: Sink, C: Cabinet, L: Door + Send, G: Gate + Sync>(
    context: Context<'_, R, G>,
    case: &Case,
    tariffs: &[Tariff],
    world: &mut OwnedOutside<I, O, C, L>,
) -> u8
    requires { (C.frame world.old.cabinet).out ≡ None }
    ensures { (C.frame world.new.cabinet).out ≡ None }
{
    program(context, &case.words, tariffs, world).why.status()
}
