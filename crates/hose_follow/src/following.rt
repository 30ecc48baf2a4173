// Packets of an input, each offered and answered.
ghost use Rattle.std.specs.Prelude.{◌≡◌, ◌<◌, ◌≤◌, [], List, ℕ, length};
ghost use Rattle.hose_follow.specs.steps.Ends.{FollowsInput};
ghost use Rattle.hose_follow.specs.steps.Exchanging.{AdvancesTo, TakesMore, TakesPart, follow_state, input_state};
ghost use Rattle.hose_follow.specs.steps.Follower.{follower, follower_tellings};
ghost use Rattle.hose_follow.specs.Packet.{IsPartOfPacket};
ghost use Rattle.hose_follow.specs.declared.following.FollowEnd.TheVariants.{Write};
ghost use Rattle.hose_follow.specs.declared.packet.TheConstants.{MOST_PACKET};
ghost use Rattle.hose_follow.specs.Layout.{follow_limit};

use crate::answers::put_answer;
use crate::buffer::Buffer;
use crate::offering::offer;
use crate::packet::{FRONT_BYTES, Front, front_of};
use hose_disk::Disk;
use hose_io::{Failed, Sink, Source};
use hose_store::Store;
use std::alloc::Global;

/// The greatest number of bytes of an input that is followed: 1 GiB.
pub const INPUT_LIMIT: u64 = 1 << 30;

/// The limit is the literal that definitions cite.
pub fn law_limit()
    ensures follow_limit { INPUT_LIMIT ≡ follow_limit }
{}

/// How following an input ends.
#[derive(Clone, Copy, Debug, PartialEq, Eq)]
pub enum FollowEnd {
    /// The input was read to its end.
    End,
    /// At this byte of the input no packet begins, or one that is not there whole.
    Packet { at: u64 },
    /// The source failed.
    Read,
    /// The sink failed.
    Write,
    /// The source gave more than 1 GiB.
    TooLong,
    /// There was too little memory, and nothing was done.
    Memory,
}

impl From<Failed> for FollowEnd {
    ghost from_gives = { λ _ end. end ≡ Write };

    fn from(_error: Failed) -> FollowEnd {
        FollowEnd::Write
    }
}

// What was taken of an input: the bytes that belong to no packet yet that was answered, and how
// many there were in all.
#[derive(Drop)]
struct Intake {
    buffer: Buffer,
    taken: u64,
}

/// Offers the packets of an input to a store, one after another, and writes the line of each
/// answer.
pub fn follow<S: Source, O: Sink, D: Disk>(
    alloc: Global,
    source: &mut S,
    sink: &mut O,
    store: &mut Store<D>,
) -> FollowEnd
    ensures { FollowsInput (follower_tellings S.Source O.Sink D.Disk)
        (follower source.old sink.old store.old) (follower source.new sink.new store.new) result }
{
    let Ok(buffer) = Buffer::new(alloc) else {
        return FollowEnd::Memory;
    };
    let mut intake = Intake { buffer, taken: 0 };
    follow_all(alloc, &mut intake, source, sink, store)
}

// Follows an input of which nothing was taken.
fn follow_all<S: Source, O: Sink, D: Disk>(
    alloc: Global,
    intake: &mut Intake,
    source: &mut S,
    sink: &mut O,
    store: &mut Store<D>,
) -> FollowEnd
    requires pending { intake.old.buffer.pending ≡ [] }
    requires taken { intake.old.taken ≡ 0 }
    ensures { FollowsInput (follower_tellings S.Source O.Sink D.Disk)
        (follower source.old sink.old store.old) (follower source.new sink.new store.new) result }
{
    loop {
        if let Err(end) = exchange(alloc, intake, source, sink, store) {
            return end;
        }
    }
}

// Answers the packet that is pending, or takes more of the source.
fn exchange<S: Source, O: Sink, D: Disk>(
    alloc: Global,
    intake: &mut Intake,
    source: &mut S,
    sink: &mut O,
    store: &mut Store<D>,
) -> Result<(), FollowEnd>
    requires limit { intake.old.taken ≤ INPUT_LIMIT }
    requires pending { length intake.old.buffer.pending ≤ intake.old.taken }
    ensures { AdvancesTo (follower_tellings S.Source O.Sink D.Disk)
        (follow_state source.old intake.old sink.old store.old)
        (follow_state source.new intake.new sink.new store.new) result }
{
    let pending = intake.buffer.pending();
    match front_of(pending) {
        Front::Whole { epoch, chain, body } => {
            let size = FRONT_BYTES + body.len();
            let answer = offer(alloc, store, epoch, chain, body);
            intake.buffer.pass(size);
            put_answer(sink, &answer)?;
            Ok(())
        }
        Front::Bad => Err(FollowEnd::Packet {
            at: intake.taken - pending.len() as u64,
        }),
        Front::Part => take_part(intake, source),
    }
}

// Takes more of the source, where what is pending is a part of a packet or nothing.
fn take_part<S: Source>(intake: &mut Intake, source: &mut S) -> Result<(), FollowEnd>
    requires part { IsPartOfPacket intake.old.buffer.pending }
    requires limit { intake.old.taken ≤ INPUT_LIMIT }
    requires pending { length intake.old.buffer.pending ≤ intake.old.taken }
    ensures { TakesPart S.Source (input_state source.old intake.old)
        (input_state source.new intake.new) result }
{
    if take_more(intake, source)? {
        return Ok(());
    }
    let left = intake.buffer.pending().len() as u64;
    if left == 0 {
        return Err(FollowEnd::End);
    }
    Err(FollowEnd::Packet {
        at: intake.taken - left,
    })
}

// Takes more of the source, and says whether there was more.
fn take_more<S: Source>(intake: &mut Intake, source: &mut S) -> Result<bool, FollowEnd>
    requires room { length intake.old.buffer.pending < MOST_PACKET }
    requires limit { intake.old.taken ≤ INPUT_LIMIT }
    ensures { TakesMore S.Source (input_state source.old intake.old)
        (input_state source.new intake.new) result }
{
    if intake.taken == INPUT_LIMIT {
        return take_past_limit(source);
    }
    intake.buffer.make_room();
    match intake
        .buffer
        .fill(source, (INPUT_LIMIT - intake.taken) as usize)
    {
        Ok(0) => Ok(false),
        Ok(count) => {
            intake.taken += count as u64;
            Ok(true)
        }
        Err(Failed) => Err(FollowEnd::Read),
    }
}

// Where all was taken that may be, one byte more is too many.
fn take_past_limit<S: Source>(source: &mut S) -> Result<bool, FollowEnd>
    ensures { (pending : List ℕ) → TakesMore S.Source
        (record { source = source.old; pending = pending; taken = INPUT_LIMIT })
        (record { source = source.new; pending = pending; taken = INPUT_LIMIT }) result }
{
    let mut byte = [0];
    match source.take(&mut byte) {
        Ok(0) => Ok(false),
        Ok(_) => Err(FollowEnd::TooLong),
        Err(Failed) => Err(FollowEnd::Read),
    }
}
