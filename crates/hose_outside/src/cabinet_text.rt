// A text of a cabinet that is read as a source.
ghost use Rattle.std.specs.Prelude.{◌≡◌, IsSome, IsTrue};

use hose_disk::Cabinet;
use hose_io::{Failed, Source};
use hose_words::INPUT_LIMIT;
use std::marker::Model;

// How many bytes of a text are ever read: what a reader of lines may take.
const TEXT_LIMIT: u64 = INPUT_LIMIT + 1;

/// The text of a name in a cabinet, which is asked for it piece by piece.
///
/// The text has to be there, where the cabinet tells. Through a text nothing but texts is asked of
/// the cabinet.
#[derive(Drop)]
pub struct CabinetText<'a, C: Cabinet> {
    cabinet: &'a mut C,
    name: &'a str,
    from: u64,
}

impl<'a, C: Cabinet> Model for CabinetText<'a, C> {
    ghost use Rattle.std.specs.Prelude.{◌≤◌, ◌+◌, IsSome, IsTrue};
    ghost use Rattle.hose_words.specs.declared.lines.TheConstants.{INPUT_LIMIT};
    ghost use Rattle.hose_outside.specs.steps.CabinetText.{TextState};

    ghost Value = { TextState C };

    ghost view = { λ text. record {
      cabinet = text.cabinet;
      name = text.name.now;
      from = text.from;
    } };

    ghost invariant = { λ text.
        (IsTrue (C.frame text.cabinet.now).tells → IsSome (C.text text.cabinet.now text.name.now))
        × (text.from ≤ INPUT_LIMIT + 1) };
}

impl<'a, C: Cabinet> CabinetText<'a, C> {
    /// The text of a name, of which nothing was read.
    pub fn new(cabinet: &'a mut C, name: &'a str) -> CabinetText<'a, C>
        requires { IsTrue (C.frame cabinet.old).tells → IsSome (C.text cabinet.old name.now) }
        ensures same_reference { result.cabinet.ghost_name ≡ cabinet.entry.ghost_name }
        ensures value { result.cabinet.now ≡ cabinet.old }
        ensures name { result.name ≡ name.entry.now }
        ensures from { result.from ≡ 0 }
    {
        CabinetText {
            cabinet,
            name,
            from: 0,
        }
    }

    /// The cabinet.
    pub fn into_cabinet(self) -> &'a mut C
        ensures same_reference { result.ghost_name ≡ self.entry.cabinet.ghost_name }
        ensures value { result.now ≡ self.entry.cabinet.now }
    {
        self.cabinet
    }
}

impl<'a, C: Cabinet> Source for CabinetText<'a, C> {
    ghost use Rattle.hose_outside.specs.steps.CabinetText.{HasAsked, reading_frame, text_left};

    ghost frame = { λ text. reading_frame C.Cabinet text };

    ghost content = { λ text. text_left C.Cabinet text };

    ghost went = { λ old new. HasAsked C.Cabinet old new };

    fn take(&mut self, into: &mut [u8]) -> Result<usize, Failed> {
        let room = (TEXT_LIMIT - self.from).min(into.len() as u64) as usize;
        if room == 0 {
            return Ok(0);
        }
        let name = self.name;
        let from = self.from;
        let count = self.cabinet.text(name, from, &mut into[..room])?;
        self.from += count as u64;
        Ok(count)
    }
}
