// A book, told as a text.
ghost use Rattle.hose_audit.specs.Audit.{audit_text};
ghost use Rattle.hose_outside.specs.Ending.{EndsTold};
ghost use Rattle.hose_outside.specs.steps.Ending.{IsWhyAfter, WroteWhy};
ghost use Rattle.hose_outside.specs.Why.{why_status};

use crate::fault::Fault;
use crate::why::{Why, end};
use hose_book::Book;
use hose_io::Sink;

/// Writes what a book holds, and the last line of a fault that was met before, if one was; says why
/// that ended.
pub fn tell<O: Sink>(book: &Book, done: Result<(), Fault>, output: &mut O) -> Why
    ensures { WroteWhy O.Sink output.old output.new result (EndsTold O.Sink output.old output.new
        (why_status result) done (audit_text book.now.network book.now.book))
        (IsWhyAfter done result) }
{
    let told = hose_audit::audit(book, output);
    match done {
        Ok(()) => match told {
            Ok(()) => Why::Done,
            Err(_) => Why::Stopped(Fault::Write),
        },
        // After a failed write nothing more is written.
        Err(why) => match told {
            Ok(()) => end(Err(why), output),
            Err(_) => Why::Stopped(why),
        },
    }
}
