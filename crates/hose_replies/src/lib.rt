//! Replies read from the words of a line, as `put_reply` of `hose_proto` writes them: for whoever
//! writes a client, and for cases. The server reads none.
//!
//! ```
//! let reply = read_reply(alloc, &topology, b"released 7 at 9")?;
//! ```
#![tactic(auto)]

ghost use Rattle.std.specs.Prelude.{◌≡◌, ◌⊎◌, ℕ, [], IfOk, Ok, Err};
ghost use Rattle.hose_words.specs.Words.{IsChoice, IsFirst, words_of};
ghost use Rattle.hose_words.specs.steps.Grammar.{IsFirstNotAllowed};
ghost use Rattle.hose_graph.specs.declared.command.Reply.{Reply};
ghost use Rattle.hose_graph.specs.steps.Naming.{NamesPlaces};
ghost use Rattle.hose_proto.specs.declared.fault.ReadFault.TheVariants.{Bad, Memory};
ghost use Rattle.hose_proto.specs.ReplyText.{reply_text};
ghost use Rattle.hose_replies.specs.steps.ReplyLines.{HasLine, HasLists, IsOfKind, IsReply, head_word, reply_grammar};

mod fields;
mod head;
mod lines;
mod lists;
mod until;

use crate::lines::read_words;
use hose_graph::{Reply, Topology};
use hose_proto::ReadFault;
use hose_words::Cursor;
use std::alloc::Global;

/// The reply that the words of a line tell: that whose text has these words.
pub fn read_reply(alloc: Global, top: &Topology, line: &[u8]) -> Result<Reply, ReadFault>
    ensures ok { IfOk result (IsReply top.now (words_of line.now)) }
    ensures bad { (word : ℕ) → result ≡ Err (Bad word)
        → IsFirstNotAllowed (reply_grammar top.now) [] (words_of line.now) word }

    // What was read can be written.
    ensures places { IfOk result (NamesPlaces top.now) }

    // A line that tells a reply is never refused, and nothing else is read of it.
    ensures told { (reply : Reply) → IsReply top.now (words_of line.now) reply
        → (result ≡ Ok reply) ⊎ (result ≡ Err Memory) }
    // Memory is wanted for lists alone.
    ensures memory { result ≡ Err Memory
        → IsFirst (IsChoice HasLists head_word) (words_of line.now) }

    // Each reply has a line, and the words of its text tell it again.
    ensures lines { (reply : Reply) → HasLine reply }
    ensures again { (reply : Reply) → IsOfKind top.now reply
        → IsReply top.now (words_of (reply_text top.now reply)) reply }
{
    let _nodes = top.nodes();
    read_words(alloc, top, &mut Cursor::new(line))
}
