// The leader's side of a connection to a follower.
ghost use Rattle.std.specs.Prelude.{◌≡◌, ◌<◌, ◌≤◌, ◌+◌, ◌^◌, ◌++◌, ◌∷◌, ℕ, List, [], Ok, Some, None, false, drop, length, take, IfSome, OnErr, OnOk, ◌↔◌, IsTrue, true};
ghost use Rattle.hose_graph.specs.Network.{Network};
ghost use Rattle.hose_graph.specs.declared.entry.Entry.{Entry};
ghost use Rattle.hose_graph.specs.Limits.{most_epoch};
ghost use Rattle.hose_follow.specs.Answers.{offered_text};
ghost use Rattle.hose_lead.specs.steps.Standby.{EndsFor, HandsOut, IfEnded, IsFilled, IsLed, IsOpen, LacksNothing, RisesTo, TakesIn, TellsWhy, counted_more};
ghost use Rattle.hose_lead.specs.steps.Taking.{Takes};

use crate::coming::ComingLine;
use crate::history::{History, VALUE_BYTES};
use crate::packet::probe_packet;
use crate::reading::{is_same, read_answer};
use crate::stage::{Ending, Stage};
use hose_follow::Offered;
use std::alloc::{AllocError, Global};
use std::marker::Model;

/// How many bytes are handed out at most before more are sent, but for the last packet.
pub const ROOM_BYTES: usize = 65_536;

const LINE_FEED: u8 = b'\n';

// The epoch above each that a follower wants.
const ASKING_EPOCH: u32 = u32::MAX;

/// What a leader knows of a follower on one connection, and what is to be sent there. Another
/// connection begins with a new one.
#[derive(Drop)]
pub struct Standby {
    line: ComingLine,
    output: Vec<u8>,
    stage: Stage,
    heard: Option<u64>,
    asks: bool,
    // How many packets were handed out, and how many lines came whole. Each count stays at the
    // type's end.
    handed: u64,
    answered: u64,
}

impl Model for Standby {
    ghost use Rattle.hose_lead.specs.steps.Standby.{StandbyState};

    ghost Value = { StandbyState };

    ghost view = { λ standby. record {
      line = standby.line;
      unsent = standby.output.items;
      stage = standby.stage;
      heard = standby.heard;
      asks = standby.asks;
      handed = standby.handed;
      answered = standby.answered;
    } };
}

impl Standby {
    /// A connection on which nothing came and nothing was sent.
    pub fn new(alloc: Global) -> Standby
        ensures led { (network : Network) → (list : List Entry) →
            IsLed network list [] [] result }
        ensures none { result.heard ≡ None }
    {
        Standby {
            line: ComingLine::new(),
            output: Vec::new(alloc),
            stage: Stage::Unasked,
            heard: None,
            asks: false,
            handed: 0,
            answered: 0,
        }
    }

    /// How far it is.
    pub fn stage(&self) -> Stage
        ensures { result ≡ self.now.stage }
    {
        self.stage
    }

    /// How many entries of the history the follower is heard to have, on this connection.
    pub fn heard(&self) -> Option<u64>
        ensures { result ≡ self.now.heard }
    {
        self.heard
    }

    /// How many packets were handed out on this connection. The count stays at the type's end.
    pub fn handed(&self) -> u64
        ensures { result ≡ self.now.handed }
    {
        self.handed
    }

    /// How many whole lines the follower gave on this connection, while it was followed: it answers
    /// each packet by one. The count stays at the type's end.
    pub fn answered(&self) -> u64
        ensures { result ≡ self.now.answered }
    {
        self.answered
    }

    /// The bytes that are to be sent next.
    pub fn unsent(&self) -> &[u8]
        ensures { result.now ≡ self.now.unsent }
    {
        &self.output
    }

    /// So many of them were sent.
    pub fn was_sent(&mut self, count: usize)
        requires { count ≤ length self.old.unsent }
        ensures is { self.new ≡ record self.old { unsent = drop count self.old.unsent } }
        ensures led { (network : Network) → (list : List Entry) → (came sent : List ℕ) →
            IsLed network list came sent self.old →
            IsLed network list came (sent ++ take count self.old.unsent) self.new }
    {
        self.drop_front(count);
    }

    // Lets go of so many bytes that were handed out.
    fn drop_front(&mut self, count: usize)
        requires { count ≤ length self.old.unsent }
        ensures { self.new ≡ record self.old { unsent = drop count self.old.unsent } }
    {
        let len = self.output.len() - count;
        self.output.copy_within(count.., 0);
        self.output.truncate(len);
    }

    /// Asks a follower that is followed on for a `have`, as a sign of life: by what is handed out
    /// next.
    pub fn ask(&mut self)
        ensures { self.new ≡ record self.old { asks = true } }
    {
        self.asks = true;
    }

    /// Hands out what is to be sent next: a probe, or entries that the follower lacks while there
    /// is room.
    pub fn fill<H: History>(&mut self, history: &H) -> Result<(), AllocError>
        ensures hands { HandsOut (H.is_of history.now) self.old self.new }
        ensures filled { (network : Network) → (list : List Entry) →
            H.is_of history.now network list → OnOk result (IsFilled list self.new) }
    {
        match self.stage() {
            Stage::Unasked => self.ask_epoch(history),
            Stage::ToldEpoch { start } => self.ask_value(history, start),
            Stage::Following { start, upto } => self.offer_more(history, start, upto),
            Stage::AskedEpoch | Stage::AskedValue { .. } | Stage::Ended { .. } => Ok(()),
        }
    }

    // Asks how many entries a follower has.
    fn ask_epoch<H: History>(&mut self, _history: &H) -> Result<(), AllocError>
        requires { self.old.stage ≡ Stage.Unasked }
        ensures hands { HandsOut (H.is_of _history.now) self.old self.new }
        ensures filled { (list : List Entry) → OnOk result (IsFilled list self.new) }
    {
        self.add(&probe_packet(ASKING_EPOCH), Stage::AskedEpoch)
    }

    // Hands the bytes of a packet out, which brings it to a stage.
    fn add(&mut self, bytes: &[u8], stage: Stage) -> Result<(), AllocError>
        ensures ok { OnOk result (self.new ≡ record self.old {
          unsent = self.old.unsent ++ bytes.now;
          stage = stage;
          handed = counted_more self.old.handed;
        }) }
        ensures err { OnErr result (self.new ≡ self.old) }
    {
        self.output.extend_from_slice(bytes)?;
        self.stage = stage;
        self.handed = self.handed.saturating_add(1);
        Ok(())
    }

    // Asks a follower that has so many entries for its chain value.
    fn ask_value<H: History>(&mut self, _history: &H, start: u64) -> Result<(), AllocError>
        requires { self.old.stage ≡ Stage.ToldEpoch start }
        ensures hands { HandsOut (H.is_of _history.now) self.old self.new }
        ensures filled { (list : List Entry) → OnOk result (IsFilled list self.new) }
    {
        let Ok(epoch) = u32::try_from(start.saturating_add(1)) else {
            self.end(Ending::Stranger);
            return Ok(());
        };
        self.add(&probe_packet(epoch), Stage::AskedValue { start })
    }

    // Goes to a stage.
    fn go(&mut self, stage: Stage)
        ensures { self.new ≡ record self.old { stage = stage } }
    {
        self.stage = stage;
    }

    // Ends it where the follower tells that it has so many entries, which are more than there are.
    fn end_ahead(&mut self, count: u64)
        ensures is { self.new ≡ record self.old { stage = Stage.Ended (Ending.Ahead count) } }
        ensures takes { (network : Network) → (list : List Entry) → (next : ℕ) →
            next ≡ count + 1 →
            Takes network list (offered_text (Offered.Want next)) self.old self.new }
    {
        self.go(Stage::Ended {
            why: Ending::Ahead { count },
        });
    }

    // Ends it for another reason.
    fn end(&mut self, why: Ending)
        requires { (lines : List (List ℕ)) → TellsWhy lines why }
        ensures is { self.new ≡ record self.old { stage = Stage.Ended why } }
        ensures takes { (network : Network) → (list : List Entry) → (text : List ℕ) →
            Takes network list text self.old self.new }
        ensures led { (network : Network) → (list : List Entry) → (came sent : List ℕ) →
            IsLed network list came sent self.old → IsLed network list came sent self.new }
    {
        self.go(Stage::Ended { why });
    }

    // Hands out a probe, where one is to be asked, and entries while there is room.
    fn offer_more<H: History>(
        &mut self,
        history: &H,
        start: u64,
        upto: u64,
    ) -> Result<(), AllocError>
        requires { self.old.stage ≡ Stage.Following start upto }
        ensures hands { HandsOut (H.is_of history.now) self.old self.new }
        ensures filled { (network : Network) → (list : List Entry) →
            H.is_of history.now network list → OnOk result (IsFilled list self.new) }
    {
        self.ask_have(history, start, upto)?;
        self.add_entries(history, start, upto)
    }

    // Hands out the probe for a `have`, where one is to be asked for.
    fn ask_have<H: History>(
        &mut self,
        _history: &H,
        start: u64,
        upto: u64,
    ) -> Result<(), AllocError>
        requires { self.old.stage ≡ Stage.Following start upto }
        ensures hands { HandsOut (H.is_of _history.now) self.old self.new }
        ensures asked { OnOk result (self.new.asks ≡ false) }
        ensures stage { self.new.stage ≡ self.old.stage }
    {
        if !self.asks() {
            return Ok(());
        }
        self.add(&probe_packet(0), Stage::Following { start, upto })?;
        self.has_asked();
        Ok(())
    }

    // Hands out entries behind those up to a number, while there is room.
    fn add_entries<H: History>(
        &mut self,
        history: &H,
        start: u64,
        from: u64,
    ) -> Result<(), AllocError>
        requires stage { self.old.stage ≡ Stage.Following start from }
        requires asks { self.old.asks ≡ false }
        ensures hands { HandsOut (H.is_of history.now) self.old self.new }
        ensures filled { (network : Network) → (list : List Entry) →
            H.is_of history.now network list → OnOk result (IsFilled list self.new) }
    {
        let mut upto = from;
        while self.add_more(history, start, upto)? {
            upto += 1;
        }
        Ok(())
    }

    // Hands out the entry behind those up to a number, where there is one and room for it, and says
    // whether it did.
    fn add_more<H: History>(
        &mut self,
        history: &H,
        start: u64,
        upto: u64,
    ) -> Result<bool, AllocError>
        requires stage { self.old.stage ≡ Stage.Following start upto }
        requires asks { self.old.asks ≡ false }
        ensures hands { HandsOut (H.is_of history.now) self.old self.new }
        ensures filled { (network : Network) → (list : List Entry) →
            H.is_of history.now network list → result ≡ Ok false → IsFilled list self.new }
        ensures room { result ≡ Ok true → (length self.old.unsent < ROOM_BYTES)
            × (length self.old.unsent < length self.new.unsent) }
        ensures next { result ≡ Ok true →
            (self.new.stage ≡ Stage.Following start (upto + 1)) × (upto < most_epoch) }
        ensures asks { self.new.asks ≡ false }
    {
        if !self.has_room() {
            return Ok(false);
        }
        self.add_behind(history, start, upto)
    }

    // Whether a `have` is to be asked for.
    fn asks(&self) -> bool
        ensures { result ≡ self.now.asks }
    {
        self.asks
    }

    // It is asked for.
    fn has_asked(&mut self)
        ensures { self.new ≡ record self.old { asks = false } }
    {
        self.asks = false;
    }

    // Whether more may be handed out before some is sent.
    fn has_room(&self) -> bool
        ensures { IsTrue result ↔ (length self.now.unsent < ROOM_BYTES) }
    {
        self.output.len() < ROOM_BYTES
    }

    // Hands out the entry behind those up to a number, where there is one, and says whether it did.
    fn add_behind<H: History>(
        &mut self,
        history: &H,
        start: u64,
        upto: u64,
    ) -> Result<bool, AllocError>
        requires stage { self.old.stage ≡ Stage.Following start upto }
        requires asks { self.old.asks ≡ false }
        ensures hands { HandsOut (H.is_of history.now) self.old self.new }
        ensures all { (network : Network) → (list : List Entry) →
            H.is_of history.now network list → result ≡ Ok false →
            LacksNothing list false self.new.stage }
        ensures more { result ≡ Ok true → length self.old.unsent < length self.new.unsent }
        ensures next { result ≡ Ok true →
            (self.new.stage ≡ Stage.Following start (upto + 1)) × (upto < most_epoch) }
        ensures asks { self.new.asks ≡ false }
    {
        if upto >= history.epoch() {
            return Ok(false);
        }
        let Some(packet) = history.packet(upto) else {
            self.end(Ending::Gone { count: upto });
            return Ok(false);
        };
        // No packet is empty.
        if packet.is_empty() {
            self.end(Ending::Gone { count: upto });
            return Ok(false);
        }
        let next = Stage::Following {
            start,
            upto: upto + 1,
        };
        self.add(packet, next)?;
        Ok(true)
    }

    /// Takes in bytes that came.
    pub fn take_in<H: History>(&mut self, history: &H, bytes: &[u8])
        ensures { TakesIn (H.is_of history.now) self.old bytes.now self.new }
    {
        for byte in bytes {
            self.take_byte(history, *byte);
        }
    }

    // Takes in a byte that came.
    fn take_byte<H: History>(&mut self, history: &H, byte: u8)
        ensures { TakesIn (H.is_of history.now) self.old (byte ∷ []) self.new }
    {
        if !self.is_open() {
            return;
        }
        if byte == LINE_FEED {
            self.take_line(history);
            return;
        }
        if self.push(byte) {
            return;
        }
        self.end(Ending::Stranger);
    }

    // Whether it has not ended.
    fn is_open(&self) -> bool
        ensures open { result ≡ true → IsOpen self.now.stage }
        ensures ended { result ≡ false → ¬ IsOpen self.now.stage }
    {
        match self.stage() {
            Stage::Ended { .. } => false,
            Stage::Unasked
            | Stage::AskedEpoch
            | Stage::ToldEpoch { .. }
            | Stage::AskedValue { .. }
            | Stage::Following { .. } => true,
        }
    }

    // Takes in a byte of the line that is coming, unless it is longer than any answer.
    fn push(&mut self, byte: u8) -> bool
        ensures more { result ≡ true →
            self.new ≡ record self.old { line = self.old.line ++ byte ∷ [] } }
        ensures same { result ≡ false → self.new ≡ self.old }
    {
        self.line.push(byte)
    }

    // Takes out the line that came, counts it, and gives the answer that it is.
    fn take_text(&mut self) -> Option<Offered>
        ensures answer { IfSome result (λ answer. self.old.line ≡ offered_text answer) }
        ensures rest { self.new
            ≡ record self.old { line = []; answered = counted_more self.old.answered } }
    {
        let answer = read_answer(self.line.bytes());
        self.line.clear();
        self.answered = self.answered.saturating_add(1);
        answer
    }

    // Takes in the line that came, which is whole.
    fn take_line<H: History>(&mut self, history: &H)
        requires { IsOpen self.old.stage }
        ensures { TakesIn (H.is_of history.now) self.old (10 ∷ []) self.new }
    {
        match self.take_text() {
            Some(answer) => self.take_answer(history, answer),
            None => self.end(Ending::Stranger),
        }
    }

    // Takes in an answer.
    fn take_answer<H: History>(&mut self, history: &H, answer: Offered)
        requires { IsOpen self.old.stage }
        ensures takes { (network : Network) → (list : List Entry) →
            H.is_of history.now network list →
            Takes network list (offered_text answer) self.old self.new }
        ensures unsent { self.new.unsent ≡ self.old.unsent }
        ensures rises { RisesTo self.old.heard self.new.heard }
        ensures why { (network : Network) → (list : List Entry) →
            H.is_of history.now network list → IfEnded network list self.new.stage }
    {
        match self.stage() {
            Stage::AskedEpoch => self.take_epoch(history, answer),
            Stage::AskedValue { start } => self.compare(history, start, answer),
            Stage::Following { start, upto } => self.take_have(start, upto, answer),
            // Nothing was asked.
            Stage::Unasked | Stage::ToldEpoch { .. } | Stage::Ended { .. } => {
                self.end(Ending::Stranger);
            }
        }
    }

    // Takes in how many entries a follower has.
    fn take_epoch<H: History>(&mut self, history: &H, answer: Offered)
        requires { self.old.stage ≡ Stage.AskedEpoch }
        ensures takes { (network : Network) → (list : List Entry) →
            H.is_of history.now network list →
            Takes network list (offered_text answer) self.old self.new }
        ensures unsent { self.new.unsent ≡ self.old.unsent }
        ensures heard { self.new.heard ≡ self.old.heard }
        ensures why { (network : Network) → (list : List Entry) →
            H.is_of history.now network list → IfEnded network list self.new.stage }
    {
        let Offered::Want { n } = answer else {
            self.end(ending_of(answer));
            return;
        };
        let Some(start) = n.checked_sub(1) else {
            self.end(Ending::Stranger);
            return;
        };
        if start > history.epoch() {
            self.end_ahead(start);
            return;
        }
        self.go(Stage::ToldEpoch { start });
    }

    // Takes in the chain value of a follower that has so many entries, and compares it.
    fn compare<H: History>(&mut self, history: &H, start: u64, answer: Offered)
        requires { self.old.stage ≡ Stage.AskedValue start }
        ensures takes { (network : Network) → (list : List Entry) →
            H.is_of history.now network list →
            Takes network list (offered_text answer) self.old self.new }
        ensures unsent { self.new.unsent ≡ self.old.unsent }
        ensures heard { self.new.heard ≡ self.old.heard }
        ensures why { (network : Network) → (list : List Entry) →
            H.is_of history.now network list → IfEnded network list self.new.stage }
    {
        let Offered::Differs { at, own, given } = answer else {
            self.end(ending_of(answer));
            return;
        };
        if at != start {
            self.end(Ending::Stranger);
            return;
        }
        if !is_same(&given, &[0; VALUE_BYTES]) {
            self.end(Ending::Stranger);
            return;
        }
        let Some(ours) = history.value(start) else {
            self.end(Ending::Gone { count: start });
            return;
        };
        if !is_same(&own, &ours) {
            self.end(Ending::Other {
                count: start,
                own,
                ours,
            });
            return;
        }
        self.follow(start);
    }

    // Goes on with a follower that has so many entries of the history.
    fn follow(&mut self, start: u64)
        ensures { self.new
            ≡ record self.old { stage = Stage.Following start start; asks = true } }
    {
        self.go(Stage::Following { start, upto: start });
        self.ask();
    }

    // Takes in how many entries a follower has that was compared.
    fn take_have(&mut self, start: u64, upto: u64, answer: Offered)
        requires { self.old.stage ≡ Stage.Following start upto }
        ensures takes { (network : Network) → (list : List Entry) →
            Takes network list (offered_text answer) self.old self.new }
        ensures unsent { self.new.unsent ≡ self.old.unsent }
        ensures rises { RisesTo self.old.heard self.new.heard }
        ensures why { (network : Network) → (list : List Entry) →
            IfEnded network list self.new.stage }
    {
        let Offered::Have { n } = answer else {
            self.end(ending_of(answer));
            return;
        };
        if n < self.heard().unwrap_or(start) {
            self.end(Ending::Stranger);
            return;
        }
        if n > upto {
            self.end(Ending::Stranger);
            return;
        }
        self.hear(n);
    }

    // So many entries are heard to be there.
    fn hear(&mut self, n: u64)
        ensures { self.new ≡ record self.old { heard = Some n } }
    {
        self.heard = Some(n);
    }
}

// Why a follower is not followed on that answers so.
fn ending_of(answer: Offered) -> Ending
    ensures ends { (network : Network) → (list : List Entry) → EndsFor network list result }
    ensures told { (lines : List (List ℕ)) → TellsWhy lines result }
{
    match answer {
        Offered::Disk { at } => Ending::Disk { count: at },
        Offered::Memory => Ending::Memory,
        Offered::Have { .. }
        | Offered::Want { .. }
        | Offered::Differs { .. }
        | Offered::Unsound { .. } => Ending::Stranger,
    }
}
