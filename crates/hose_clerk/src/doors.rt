// Who may greet at a door, and the greeting there.
ghost use Rattle.std.specs.Prelude.{◌≡◌, ◌↔◌, IfErr, IfOk, IsTrue};
ghost use Rattle.hose_words.specs.Shapes.{IsFirstWrong};
ghost use Rattle.hose_words.specs.Words.{words_of};
ghost use Rattle.hose_words.specs.steps.Cursor.{Misses, Took};
ghost use Rattle.hose_greeting.specs.SessionLines.{IsGreeting, greeting_shape};
ghost use Rattle.hose_clerk.specs.HostLines.{MayGreet, IsNameAt, rule_at};
ghost use Rattle.hose_clerk.specs.steps.Shown.{IsGreetedAt};

use hose_graph::{Name, Reply};
use hose_proto::read_name;
use hose_words::{Cursor, Line, WrongWord};

/// Who may greet at a door.
#[derive(Clone, Copy, Debug)]
pub enum DoorRule {
    /// Every customer.
    Any,
    /// Every customer but the operator.
    AnyButOperator,
    /// The customer of this name alone.
    Only(Name),
}

impl DoorRule {
    /// Whether the customer of a name may greet.
    pub fn allows(&self, name: &Name) -> bool
        ensures { IsTrue result ↔ MayGreet self.now name.now }
    {
        match self {
            DoorRule::Any => true,
            DoorRule::AnyButOperator => !name.is_operator(),
            DoorRule::Only(only) => name == only,
        }
    }
}

/// The rule of a door.
pub fn rule_of(doors: &[DoorRule], door: usize) -> DoorRule
    ensures { result ≡ rule_at doors.now door }
{
    match doors.get(door) {
        Some(rule) => *rule,
        None => DoorRule::AnyButOperator,
    }
}

/// What the first line of a session is at a door of this rule: a greeting, with this name, or else
/// the reply to it.
pub fn greeting_at(rule: DoorRule, line: Line<'_>) -> Result<Name, Reply>
    ensures { IsGreetedAt rule line.entry result }
{
    let Line::Text(text) = line else {
        return Err(Reply::Long);
    };
    match read_greeting(rule, text) {
        Ok(name) => Ok(name),
        Err(wrong) => Err(Reply::Bad { word: wrong.number }),
    }
}

// The name in a greeting, `hello NAME`.
fn read_greeting(rule: DoorRule, line: &[u8]) -> Result<Name, WrongWord>
    ensures ok { IfOk result (IsGreeting (IsNameAt rule) line.now) }
    ensures bad { IfErr result (λ wrong.
        IsFirstWrong (greeting_shape (IsNameAt rule)) (words_of line.now) wrong.number) }
{
    let mut words = Cursor::new(line);
    words.expect(b"hello")?;
    let name = read_name_at(rule, &mut words)?;
    words.finish()?;
    Ok(name)
}

// The name that the next word is, of one who may greet.
fn read_name_at(rule: DoorRule, words: &mut Cursor<'_>) -> Result<Name, WrongWord>
    ensures ok { IfOk result (λ name. Took words.old words.new name) }
    ensures is_name { IfOk result (IsNameAt rule) }
    ensures wrong { IfErr result (λ wrong. Misses (IsNameAt rule) words.old wrong.number) }
{
    let wrong = words.wrong();
    let name = read_name(words)?;
    if rule.allows(&name) {
        Ok(name)
    } else {
        Err(wrong)
    }
}
