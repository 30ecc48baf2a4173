// What answering lines came to.
ghost use Rattle.std.specs.Prelude.{◌≡◌};
ghost use Rattle.hose_offline.specs.Talking.{done_of_talk};

use hose_outside::Fault;
use hose_talk::{TalkEnd, TalkFault};

/// What answering lines came to, as a command tells it.
pub fn done_of_talk(ended: Result<TalkEnd, TalkFault>) -> Result<(), Fault>
    ensures { result ≡ done_of_talk ended }
{
    match ended {
        Ok(_) => Ok(()),
        Err(TalkFault::Read) => Err(Fault::Read),
        Err(TalkFault::TooLong) => Err(Fault::TooLong),
        Err(TalkFault::Write) => Err(Fault::Write),
    }
}
