// The lines of a session.
ghost use Rattle.std.specs.Prelude.{◌↔◌, IfErr, IfOk, IsTrue};
ghost use Rattle.hose_words.specs.Shapes.{IsFirstWrong};
ghost use Rattle.hose_words.specs.Words.{words_of};
ghost use Rattle.hose_graph.specs.Name.{IsName};
ghost use Rattle.hose_greeting.specs.SessionLines.{IsBye, IsGreeting, greeting_shape};
ghost use Rattle.hose_greeting.specs.steps.Shown.{IsGreetedBy};

use hose_graph::{Name, Reply};
use hose_proto::read_name;
use hose_words::{Cursor, Line, WrongWord};

/// What the first line of a session is: a greeting, with this name, or else the reply to it.
pub fn greeting_of(line: Line<'_>) -> Result<Name, Reply>
    ensures { IsGreetedBy line.entry result }
{
    let Line::Text(text) = line else {
        return Err(Reply::Long);
    };
    match read_greeting(text) {
        Ok(name) => Ok(name),
        Err(wrong) => Err(Reply::Bad { word: wrong.number }),
    }
}

// The name in a greeting, `hello NAME`.
fn read_greeting(line: &[u8]) -> Result<Name, WrongWord>
    ensures ok { IfOk result (IsGreeting IsName line.now) }
    ensures bad { IfErr result
        (λ wrong. IsFirstWrong (greeting_shape IsName) (words_of line.now) wrong.number) }
{
    let mut words = Cursor::new(line);
    words.expect(b"hello")?;
    let name = read_name(&mut words)?;
    words.finish()?;
    Ok(name)
}

/// Whether the only word of a line is `bye`.
pub fn is_bye(line: &[u8]) -> bool
    ensures { IsTrue result ↔ IsBye line.now }
{
    let mut words = Cursor::new(line);
    words.expect(b"bye").is_ok() && words.finish().is_ok()
}
