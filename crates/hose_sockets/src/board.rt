// Which doors and places are to be told next, and what of the link to a standby: each stands on the
// board once at most, so that it is hardly longer than there are doors and places.
use crate::door::Door;
use crate::stream::Stream;
use hose_net::Ready;
use mio::Token;
use mio::event::Event;
use std::alloc::{AllocError, Global};
use std::collections::VecDeque;
use std::fs::Files;

// The token of the first door. Places have smaller ones.
const DOORS: usize = 1 << 40;

// The token of the link to a standby. Doors have smaller ones.
const LINK: usize = 1 << 41;

#[derive(Drop)]
struct DoorAt {
    door: Door,
    is_on_board: bool,
    // Who came cannot be let in, for want of a place, of a descriptor or of memory.
    is_put_off: bool,
}

#[derive(Drop)]
struct Place {
    stream: Option<Stream>,
    is_on_board: bool,
    // Something came that was not read to its end. The system tells it once.
    is_unread: bool,
    // The peer sends no more, which the system tells once, perhaps before what came was read.
    is_ended: bool,
    // It was told twice, and not read.
    is_left: bool,
}

#[derive(Drop)]
pub struct Board {
    doors: Vec<DoorAt>,
    places: Vec<Place>,
    // The place that was told last.
    told: Option<usize>,
    is_link_on_board: bool,
    // What is told in this round, and what in the next one.
    now: VecDeque<Ready>,
    next: VecDeque<Ready>,
}

impl Board {
    pub fn new(alloc: Global) -> Board {
        Board {
            doors: Vec::new(alloc),
            places: Vec::new(alloc),
            told: None,
            is_link_on_board: false,
            now: VecDeque::new(alloc),
            next: VecDeque::new(alloc),
        }
    }

    /// The token of the next door, or of one more than this crate counts.
    pub fn next_token(&self) -> Token {
        door_token(self.doors.len())
    }

    pub fn add_door(&mut self, door: Door) -> Result<(), AllocError> {
        self.make_room()?;
        self.doors.push(DoorAt {
            door,
            is_on_board: false,
            is_put_off: false,
        })?;
        Ok(())
    }

    /// Takes the files of its sockets away.
    pub fn take_files_away<N: Files>(&self, rt: &N) {
        for at in self.doors.iter() {
            at.door.take_file_away(rt);
        }
    }

    pub fn door(&self, door: usize) -> Option<&Door> {
        let at = self.doors.get(door)?;
        Some(&at.door)
    }

    pub fn stream_mut(&mut self, place: usize) -> Option<&mut Stream> {
        let at = self.places.get_mut(place)?;
        at.stream.as_mut()
    }

    /// A read gave all that it had room for, or less: then nothing is left but the peer's end.
    pub fn was_read(&mut self, place: usize, is_full: bool) {
        let Some(at) = self.places.get_mut(place) else {
            return;
        };
        at.is_unread = is_full || at.is_ended;
        at.is_left = false;
        if at.is_unread {
            self.tell_place(place);
        }
    }

    /// Puts a connection at a place, which is at most the first one that was never used.
    pub fn seat(&mut self, place: usize, stream: Stream) -> Result<bool, AllocError> {
        if place == self.places.len() {
            self.make_room()?;
            self.places.push(Place {
                stream: None,
                is_on_board: false,
                is_unread: false,
                is_ended: false,
                is_left: false,
            })?;
        }
        let Some(at) = self.places.get_mut(place) else {
            return Ok(false);
        };
        at.stream = Some(stream);
        at.is_unread = false;
        at.is_ended = false;
        at.is_left = false;
        Ok(true)
    }

    /// The stream of a place is closed as it is dropped.
    pub fn unseat(&mut self, place: usize) {
        if let Some(at) = self.places.get_mut(place) {
            at.stream = None;
            at.is_unread = false;
        }
    }

    // Room for each door and each place, one more of them, the link, a second and the standby that
    // is late.
    fn make_room(&mut self) -> Result<(), AllocError> {
        let wanted = self.doors.len().saturating_add(self.places.len());
        let wanted = wanted.saturating_add(5);
        self.now.reserve(wanted.saturating_sub(self.now.len()))?;
        self.next.reserve(wanted.saturating_sub(self.next.len()))
    }

    pub fn put_off(&mut self, door: usize) {
        if let Some(at) = self.doors.get_mut(door) {
            at.is_put_off = true;
        }
    }

    /// All doors at which someone was put off are told again.
    pub fn knock(&mut self) {
        for door in 0..self.doors.len() {
            if self.takes_back(door) {
                self.tell_door(door);
            }
        }
    }

    // Whether someone was put off at a door, who is not any more.
    fn takes_back(&mut self, door: usize) -> bool {
        let Some(at) = self.doors.get_mut(door) else {
            return false;
        };
        let was_put_off = at.is_put_off;
        at.is_put_off = false;
        was_put_off
    }

    pub fn tell_door(&mut self, door: usize) {
        let Some(at) = self.doors.get_mut(door) else {
            return;
        };
        if !at.is_on_board {
            at.is_on_board = self.next.push_back(Ready::Door(door)).is_ok();
        }
    }

    /// There is more to do at a place, since lines of a piece are left: it is told once more, and
    /// who does not read there then either is told again.
    pub fn tell_again(&mut self, place: usize) {
        if let Some(at) = self.places.get_mut(place) {
            at.is_left = false;
        }
        self.tell_place(place);
    }

    pub fn tell_place(&mut self, place: usize) {
        let Some(at) = self.places.get_mut(place) else {
            return;
        };
        if !at.is_on_board {
            at.is_on_board = self.next.push_back(Ready::Place(place)).is_ok();
        }
    }

    pub fn tell_link(&mut self) {
        if !self.is_link_on_board {
            self.is_link_on_board = self.next.push_back(Ready::Link).is_ok();
        }
    }

    /// A second has passed.
    pub fn tell_second(&mut self) {
        let _ = self.next.push_back(Ready::Second);
    }

    /// Nothing was heard of the standby for as long as was said; says whether that is told.
    pub fn tell_late(&mut self) -> bool {
        self.next.push_back(Ready::Late).is_ok()
    }

    /// Takes in what the system tells.
    pub fn note(&mut self, event: &Event) {
        let number = usize::from(event.token());
        if number >= LINK {
            self.tell_link();
            return;
        }
        if number >= DOORS {
            self.tell_door(number - DOORS);
            return;
        }
        if let Some(at) = self.places.get_mut(number) {
            at.is_unread = at.is_unread || event.is_readable() || event.is_read_closed();
            at.is_ended = at.is_ended || event.is_read_closed();
            at.is_left = false;
        }
        self.tell_place(number);
    }

    // Who was told of a place and did not read there, since lines of an earlier piece were left, is
    // told once more; it may be that they are not any more.
    fn look_back(&mut self) {
        let Some(place) = self.told.take() else {
            return;
        };
        let Some(at) = self.places.get_mut(place) else {
            return;
        };
        // Who is told anyhow is looked at again after that turn.
        let is_told_again = at.is_unread && !at.is_left && !at.is_on_board;
        if is_told_again {
            at.is_left = true;
            self.tell_place(place);
        }
    }

    /// Whether something is to be told in the next round.
    pub fn has_next(&self) -> bool {
        !self.next.is_empty()
    }

    /// The next round begins, where this one is over.
    pub fn turn(&mut self) {
        if self.now.is_empty() {
            std::mem::swap(&mut self.now, &mut self.next);
        }
    }

    /// What is told next in this round.
    pub fn take(&mut self) -> Option<Ready> {
        self.look_back();
        let ready = self.now.pop_front()?;
        match ready {
            Ready::Door(door) => self.leave_door(door),
            Ready::Place(place) => self.leave_place(place),
            Ready::Link => self.is_link_on_board = false,
            Ready::Second | Ready::Late | Ready::Stop => {}
        }
        Some(ready)
    }

    fn leave_door(&mut self, door: usize) {
        if let Some(at) = self.doors.get_mut(door) {
            at.is_on_board = false;
        }
    }

    fn leave_place(&mut self, place: usize) {
        self.told = Some(place);
        if let Some(at) = self.places.get_mut(place) {
            at.is_on_board = false;
        }
    }
}

pub fn place_token(place: usize) -> Token {
    Token(place)
}

pub fn link_token() -> Token {
    Token(LINK)
}

fn door_token(door: usize) -> Token {
    Token(DOORS.saturating_add(door))
}
