// The lines of an input: those of a script, and those of a sheet of hoses that are to be priced.
ghost use Rattle.std.specs.Prelude.{◌≡◌, ℕ, List, Err, IfOk};
ghost use Rattle.hose_words.specs.Shapes.{IsFirstWrong};
ghost use Rattle.hose_words.specs.Words.{words_of};
ghost use Rattle.hose_graph.specs.Hose.{Endpoint};
ghost use Rattle.hose_graph.specs.steps.Naming.{AsksOf};
ghost use Rattle.hose_offline.specs.ScriptLine.{IsAsking, WantsMemory, script_shape};
ghost use Rattle.hose_offline.specs.steps.Talking.{SaysOneThing};
ghost use Rattle.hose_offline.specs.SheetLine.{IsPricing, sheet_shape};

use hose_graph::{Command, Hose, Name, Topology};
use hose_proto::{ReadFault, read_command_at, read_hose, read_name};
use hose_words::Cursor;
use std::alloc::Global;

/// The customer of a line of a script, and what it asks for.
pub fn read_line(alloc: Global, top: &Topology, line: &[u8]) -> Result<(Name, Command), ReadFault>
    ensures ok { IfOk result (λ asked. IsAsking top.now line.now asked.0 asked.1) }
    ensures names { IfOk result (λ asked. AsksOf top.now asked.1) }
    ensures bad { (word : ℕ) → result ≡ Err (ReadFault.Bad word)
        → IsFirstWrong (script_shape top.now) (words_of line.now) word }
    ensures memory { result ≡ Err ReadFault.Memory → WantsMemory (words_of line.now) }

    // Whatever is answered, the line could not have been read as another thing.
    ensures alone { SaysOneThing top.now line.now }
{
    let mut words = Cursor::new(line);
    let customer = read_name(&mut words)?;
    let command = read_command_at(alloc, top, &mut words)?;
    Ok((customer, command))
}

/// The customer of a line of a sheet, and the hose that is to be priced.
pub fn read_sheet_line(
    alloc: Global,
    top: &Topology,
    line: &[u8],
) -> Result<(Name, Hose), ReadFault>
    ensures ok { IfOk result (λ asked. IsPricing top.now line.now asked.0 asked.1) }
    ensures bad { (word : ℕ) → result ≡ Err (ReadFault.Bad word)
        → IsFirstWrong (sheet_shape top.now) (words_of line.now) word }

    // A line that asks for a hose to be priced is never refused.
    ensures asked { (word : ℕ) → result ≡ Err (ReadFault.Bad word) → (customer : List ℕ)
        (hose : List Endpoint) → IsPricing top.now line.now customer hose → ⊥ }
{
    let mut words = Cursor::new(line);
    let customer = read_name(&mut words)?;
    let hose = read_hose(alloc, top, &mut words)?;
    Ok((customer, hose))
}
