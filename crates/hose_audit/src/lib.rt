//! The audit of a book: a text that tells all that is reserved in a network, for those who want to
//! check it by other means than the server's own replies.
//!
//! ```
//! audit(store.book(), &mut sink)?;
//! ```
#![tactic(auto)]

ghost use Rattle.hose_io.specs.steps.Writing.{IsPut};
ghost use Rattle.hose_audit.specs.Audit.{audit_text};

mod lines;

use hose_book::Book;
use hose_io::{Failed, Gather, Sink};
use lines::{add_epoch, add_links, add_live, add_vpns};

/// Writes what the book of a network holds: a line for its epoch, one for each link with its load,
/// one for each live VPN in the order of admission, and one with their number and what they cost
/// together.
///
/// It takes no memory, and goes out in pieces of up to 4,096 bytes.
pub fn audit<S: Sink>(book: &Book, sink: &mut S) -> Result<(), Failed>
    ensures { IsPut S.Sink sink.old sink.new (audit_text book.now.network book.now.book) result }
{
    let mut gather = Gather::new();
    add_epoch(&mut gather, sink, book);
    add_links(&mut gather, sink, book);
    add_vpns(&mut gather, sink, book.topology(), book.live());
    add_live(&mut gather, sink, book);
    gather.finish(sink)
}
