// The loop: a line, its answer, and the reply.
ghost use Rattle.std.specs.Prelude.{◌≡◌, ◌↔◌, ◌+◌, ◌<◌, ◌≤◌, ℕ, [], Err, List, None, false, length};
ghost use Rattle.hose_io.specs.Frame.{Stays};
ghost use Rattle.hose_io.specs.Stream.{Gives};
ghost use Rattle.hose_words.specs.steps.Reading.{ReadsOn};
ghost use Rattle.hose_talk.specs.Talk.{talk};
ghost use Rattle.hose_talk.specs.steps.Talk.{KeepsFault, TalksByInput, TalksByReader};

use crate::Answers;
use hose_io::{Sink, Source};
use hose_words::{INPUT_LIMIT, LineFault, LineReader};

/// How a talk ended that met no fault.
#[derive(Clone, Copy, Debug, PartialEq, Eq)]
pub enum TalkEnd {
    /// All lines were answered.
    Input,
    /// No line is answered any more.
    Over,
}

/// A fault of reading or of writing.
#[derive(Clone, Copy, Debug, PartialEq, Eq)]
pub enum TalkFault {
    /// A call of the input failed.
    Read,
    /// The input gave more than 1 GiB.
    TooLong,
    /// A call of the output failed.
    Write,
}

impl From<LineFault> for TalkFault {
    ghost use Rattle.std.specs.Prelude.{◌≡◌};
    ghost use Rattle.hose_talk.specs.steps.TalkFaults.{of_line};

    ghost from_gives = { λ fault made. made ≡ of_line fault };

    fn from(fault: LineFault) -> TalkFault {
        match fault {
            LineFault::Read => TalkFault::Read,
            LineFault::TooLong => TalkFault::TooLong,
        }
    }
}

/// Answers the lines of an input from its first byte on, up to a fault or until no line is answered
/// any more.
pub fn hold_talk<A: Answers, S: Source, O: Sink>(
    answers: &mut A,
    source: &mut S,
    output: &mut O,
) -> Result<TalkEnd, TalkFault>
    requires { A.fits answers.old }
    ensures talks { (from : A.origin) → A.comes from [] [] answers.old
        → TalksByInput A.Answers S.Source O.Sink from (talk source.old output.old answers.old)
        (talk source.new output.new answers.new) result }
    ensures takes { (bytes : List ℕ) × Gives (S.content source.old) (S.content source.new) bytes
        × (length bytes ≤ INPUT_LIMIT + 1)
        × ((result ≡ Err TalkFault.TooLong) ↔ (INPUT_LIMIT < length bytes)) }
    ensures about { A.about answers.new ≡ A.about answers.old }
    ensures fits { A.fits answers.new }
    ensures source { Stays (S.frame source.old) (S.frame source.new) }
    ensures output { Stays (O.frame output.old) (O.frame output.new) }
{
    let mut lines = LineReader::new(source);
    let ended = converse(answers, &mut lines, output);
    // What is known of the input again comes from here.
    let _ = lines.into_source();
    ended
}

/// Answers the lines that a reader is to give, up to a fault or until no line is answered any more.
pub fn converse<A: Answers, S: Source, O: Sink>(
    answers: &mut A,
    lines: &mut LineReader<S>,
    output: &mut O,
) -> Result<TalkEnd, TalkFault>
    requires fits { A.fits answers.old }
    requires limit { lines.old.taken ≤ INPUT_LIMIT }
    requires no_fault { lines.old.fault ≡ None }
    ensures talks { (from : A.origin) → A.comes from [] [] answers.old
        → TalksByReader A.Answers S.Source O.Sink from (talk lines.old output.old answers.old)
        (talk lines.new output.new answers.new) result }
    ensures fault { KeepsFault lines.old lines.new result }
    ensures about { A.about answers.new ≡ A.about answers.old }
    ensures fits { A.fits answers.new }
    ensures too_long { (result ≡ Err TalkFault.TooLong) ↔ (INPUT_LIMIT < lines.new.taken) }
    ensures reads_on { ReadsOn S.Source lines.old lines.new }
    ensures limit { lines.new.taken ≤ INPUT_LIMIT + 1 }
    ensures output { Stays (O.frame output.old) (O.frame output.new) }
{
    while !answers.is_over() {
        let Some(line) = lines.next()? else {
            return Ok(TalkEnd::Input);
        };
        let reply = answers.answer(line);
        let Ok(()) = answers.put(output, &reply) else {
            // What was taken ahead is told with how much it is.
            let _ahead = lines.pending();
            return Err(TalkFault::Write);
        };
    }
    // So it is here.
    let _ahead = lines.pending();
    Ok(TalkEnd::Over)
}
