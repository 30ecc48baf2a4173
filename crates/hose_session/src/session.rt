// A session from its first line to its end.
ghost use Rattle.std.specs.Prelude.{◌≡◌, ◌≢◌, ◌⊎◌, ◌↔◌, ◌+◌, ◌<◌, ◌≤◌, ℕ, List, length};
ghost use Rattle.hose_io.specs.Frame.{Rose, Stays};
ghost use Rattle.hose_io.specs.Stream.{Gives};
ghost use Rattle.hose_shared.specs.steps.Sharing.{IsPassOf};
ghost use Rattle.hose_session.specs.steps.Session.{IsGreeted, ServesSession};

use crate::conversation::Conversation;
use crate::ending::SessionEnd;
use crate::phase::Phase;
use hose_core::Quotes;
use hose_disk::Disk;
use hose_io::{Sink, Source};
use hose_paths::RowMaker;
use hose_pool::Gate;
use hose_shared::{Begun, Context, Seat, Shared};
use hose_talk::converse;
use hose_turn::Pass;
use hose_words::{INPUT_LIMIT, LineReader};
use std::sync::Wait;

/// A session, but for its streams, its rows and its pass: what it is answered with, the shared
/// book, and its number at the gate.
#[derive(Drop)]
pub struct Session<'a, W, D: Disk, B: Begun<D>, G: Gate> {
    pub context: &'a Context<'a, W, G>,
    pub shared: &'a Shared<D, B>,
    pub number: u64,
}

/// Serves one customer over an input and an output, along a pass of the shared book.
///
/// Each line has one reply, which is out before the source is asked for another line: first
/// `welcome at N` to `hello NAME`, then one to each command, and `bye` to `bye`, where the session
/// ends. It ends as well where a stream fails, where its first line is no greeting, to which the
/// reply is `bad W` or `long`, and where more than 1 GiB was taken. Want of memory ends no session:
/// it is the reply `memory` to one command.
pub fn serve_session<W: Wait, S: Source, O: Sink, D: Disk, B: Begun<D>, R: RowMaker, G: Gate>(
    session: Session<'_, W, D, B, G>,
    source: &mut S,
    sink: &mut O,
    pass: Pass,
    rows: &mut R,
) -> (SessionEnd, Pass)
    requires { IsPassOf session.shared.now pass }
    ensures session { ServesSession S.Source O.Sink session.entry.shared.now.network source.old
        source.new sink.old sink.new pass result.1 result.0 }
    ensures takes { (bytes : List ℕ) × Gives (S.content source.old) (S.content source.new) bytes
        × (length bytes ≤ INPUT_LIMIT + 1)
        × ((result.0 ≡ SessionEnd.TooLong) ↔ (INPUT_LIMIT < length bytes)) }
    // A session that is greeted is served to its end, where nothing fails.
    ensures complete { IsGreeted (S.content source.old)
        → ¬ Rose (S.frame source.old) (S.frame source.new)
        → ¬ Rose (O.frame sink.old) (O.frame sink.new)
        → (result.0 ≡ SessionEnd.End) ⊎ (result.0 ≡ SessionEnd.Bye) }
    ensures reading { result.0 ≢ SessionEnd.Read → S.frame source.new ≡ S.frame source.old }
    ensures writing { result.0 ≢ SessionEnd.Write → O.frame sink.new ≡ O.frame sink.old }
    ensures source { Stays (S.frame source.old) (S.frame source.new) }
    ensures sink { Stays (O.frame sink.old) (O.frame sink.new) }
{
    let Session {
        context,
        shared,
        number,
    } = session;
    let quotes = Quotes::new();
    let seat = Seat {
        context,
        shared,
        session: number,
        pass,
        quotes,
    };
    let (top, phase) = (shared.topology(), Phase::Waiting);
    let mut talk = Conversation {
        seat,
        top,
        rows,
        phase,
    };
    let mut lines = LineReader::new(source);
    let ended = converse(&mut talk, &mut lines, sink);
    let _ = lines.into_source();
    talk.into_end(ended)
}
