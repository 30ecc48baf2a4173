// Why the program ended, as one sentence on standard error.
use crate::hosting::HostEnded;
use crate::known::{Known, told};
use hose_disk::Trouble;
use hose_net::DoorTrouble;
use hose_outside::{Fault, MoveStop, Refusal, Why};
use hosed::Ended;
use hosed_host::HostWhy;
use hosed_requests::NamedByWords;
use std::fmt::{Display, Formatter};
use std::io::Eprint;
use std::{fmt, io};

// Which topology: that of a name, or the one in the input.
#[derive(Clone, Copy)]
struct Which<'w> {
    topology: Option<&'w str>,
}

impl Display for Which<'_> {
    fn fmt<W: fmt::Write>(&self, f: &mut Formatter<W>) -> fmt::Result {
        match self.topology {
            Some(name) => write!(f, "{name:?}"),
            None => f.write_str("in the input"),
        }
    }
}

/// Tells on standard error why the program ended, if not all was done. Where who reads the output
/// has gone, nothing is told: that was their choice.
pub fn tell_why<R: Eprint>(rt: &R, words: &[String], ended: Ended<'_>, known: Known) {
    let named = ended.named.unwrap_or(NamedByWords::nothing());
    // The output tells it too, so a standard error that fails is passed over.
    let _ = match ended.why {
        Why::Done => Ok(()),
        Why::Stopped(Fault::Write) if known.unread => Ok(()),
        Why::Stopped(Fault::Words(number)) => {
            tell_word(rt, number, word_at(words, number), named.topology)
        }
        Why::Stopped(fault) => tell_fault(rt, fault, named, known),
        Why::NotValid { rule } => tell_not_valid(rt, rule, named),
        Why::NotMoved(MoveStop::Old(fault)) => tell_fault(rt, fault, named, known),
        Why::NotMoved(MoveStop::New(fault)) => tell_fault(rt, fault, named.of_new(), known),
        Why::NotMoved(stop) => tell_not_moved(rt, stop, named, named.of_new()),
    };
}

/// Tells on standard error why a host ended, if not all was done.
pub fn tell_host_why<R: Eprint>(rt: &R, words: &[String], ended: HostEnded<'_>, known: Known) {
    let named = match ended.named {
        Some(said) => NamedByWords::of_journal(said.topology, said.journal),
        None => NamedByWords::nothing(),
    };
    // The output tells it too, so a standard error that fails is passed over.
    let _ = match ended.why {
        HostWhy::Door(number, trouble) => tell_host_door(rt, word_at(words, number), trouble),
        HostWhy::StandbyGone => {
            eprintln!(rt; "hosed: nothing was heard of the standby for too long, so the host ended")
        }
        HostWhy::StandbyAhead(count) => eprintln!(rt;
            "hosed: the standby has {count} orders, more than the journal: orders of the journal \
            were lost, or it is of an earlier time"
        ),
        HostWhy::Ended(Why::Stopped(Fault::Door)) => {
            eprintln!(rt; "hosed: the system tells no more of the connections of the doors")
        }
        HostWhy::Ended(why) => {
            let named = Some(named);
            tell_why(rt, words, Ended { why, named }, known);
            Ok(())
        }
    };
}

// A door of a host could not be opened.
fn tell_host_door<R: Eprint>(rt: &R, word: Option<&str>, trouble: DoorTrouble) -> io::Result<()> {
    let door = word.unwrap_or("");
    let why = match trouble {
        DoorTrouble::Served => "another program serves there",
        DoorTrouble::NotAllowed => "permission denied",
        DoorTrouble::NoFolder => "its folder is not there",
        DoorTrouble::NoSocket => "what lies there is no socket",
        DoorTrouble::Other => "the system has no room for it, or refused it",
    };
    eprintln!(rt; "hosed: the door {door:?} could not be opened: {why}")
}

// The word of a number, counted from 1; an empty one where it is missing.
fn word_at(words: &[String], number: u64) -> Option<&str> {
    Some(words.get(number.checked_sub(1)? as usize)?.as_str())
}

// The words are not allowed from this one on, counted from 1. Where a topology is named, it is its
// node that is missing.
fn tell_word<R: Eprint>(
    rt: &R,
    number: u64,
    word: Option<&str>,
    topology: Option<&str>,
) -> io::Result<()> {
    match (word, topology) {
        (Some(word), Some(topology)) => eprintln!(rt;
            "hosed: word {number} is not allowed: {word:?} is an endpoint at no node of the \
            topology {topology:?}"
        ),
        (None, _) => eprintln!(rt;
            "hosed: word {number} is not allowed: it is missing, see hosed --help"
        ),
        (Some(""), None) => eprintln!(rt;
            "hosed: word {number} is not allowed: it is empty, too long or no text, see hosed \
            --help"
        ),
        (Some(word), None) => {
            eprintln!(rt; "hosed: word {number} is not allowed: {word:?}, see hosed --help")
        }
    }
}

// A fault of the network that these names are of.
fn tell_fault<R: Eprint>(
    rt: &R,
    fault: Fault,
    of: NamedByWords<'_>,
    known: Known,
) -> io::Result<()> {
    let which = Which {
        topology: of.topology,
    };
    let journal = of.journal.unwrap_or("");
    let trouble = known.trouble.unwrap_or(Trouble::Disk);
    match fault {
        Fault::Topology(refusal) => tell_refused(rt, refusal, which),
        Fault::Text => {
            let (text, why) = (of.failed(fault).unwrap_or(""), told(trouble));
            eprintln!(rt; "hosed: the topology {text:?} could not be read: {why}")
        }
        Fault::Other { .. } => eprintln!(rt;
            "hosed: the journal {journal:?} is that of another network, or of other costs, than \
            the topology {which} tells"
        ),
        Fault::Damaged { at } => eprintln!(rt;
            "hosed: the journal {journal:?} is damaged: no whole record stands at byte {at}, or \
            one that its network does not take"
        ),
        Fault::Cabinet => {
            let journal = of.failed(fault).unwrap_or("");
            let (why, more) = (told(trouble), none_made(trouble));
            eprintln!(rt;
                "hosed: the journal {journal:?} could not be opened, read, written or closed: \
                {why}{more}"
            )
        }
        Fault::TooLong => tell_too_long(rt, of.topology),
        Fault::Door => tell_door(rt, of.port.unwrap_or(0)),
        fault => tell_stream(rt, fault),
    }
}

// What is told besides of a journal that is not there.
fn none_made(trouble: Trouble) -> &'static str {
    match trouble {
        Trouble::NotFound => ", and none is made there",
        _ => "",
    }
}

// A topology is not allowed.
fn tell_refused<R: Eprint>(rt: &R, refusal: Refusal, which: Which<'_>) -> io::Result<()> {
    match refusal {
        Refusal::Word { line, word } => eprintln!(rt;
            "hosed: the topology {which} is not allowed at line {line}, word {word} (a line ends \
            with a line feed alone)"
        ),
        _ => eprintln!(rt;
            "hosed: the topology {which} is not allowed at the place that the last line of the \
            output tells"
        ),
    }
}

// A fault of what is named by no word.
fn tell_stream<R: Eprint>(rt: &R, fault: Fault) -> io::Result<()> {
    match fault {
        Fault::Read => eprintln!(rt; "hosed: the input could not be read"),
        Fault::Write => eprintln!(rt;
            "hosed: the output could not be written: its disk is full, or failed"
        ),
        Fault::Packet { at } => eprintln!(rt; "hosed: the input has no whole packet at byte {at}"),
        _ => eprintln!(rt; "hosed: there was not enough memory"),
    }
}

fn tell_too_long<R: Eprint>(rt: &R, topology: Option<&str>) -> io::Result<()> {
    match topology {
        Some(topology) => eprintln!(rt;
            "hosed: the topology {topology:?}, or the input, is longer than 1 GiB, or the topology \
            is in JSON and longer than 16 MiB"
        ),
        None => eprintln!(rt; "hosed: the input is longer than 1 GiB"),
    }
}

fn tell_door<R: Eprint>(rt: &R, port: u16) -> io::Result<()> {
    eprintln!(rt;
        "hosed: the port {port} could not be opened: another program listens there, or rights are \
        missing; or accepting a connection failed"
    )
}

fn tell_not_valid<R: Eprint>(rt: &R, rule: u64, of: NamedByWords<'_>) -> io::Result<()> {
    let which = Which {
        topology: of.topology,
    };
    eprintln!(rt;
        "hosed: the certificate in the input is not valid for the topology {which}: rule {rule} is \
        the lowest that fails"
    )
}

// The old network and the new one do not go together.
fn tell_not_moved<R: Eprint>(
    rt: &R,
    stop: MoveStop,
    old: NamedByWords<'_>,
    new: NamedByWords<'_>,
) -> io::Result<()> {
    let (before, after) = (
        Which {
            topology: old.topology,
        },
        Which {
            topology: new.topology,
        },
    );
    let (journal, moved) = (old.journal.unwrap_or(""), new.journal.unwrap_or(""));
    match stop {
        MoveStop::Unsound { epoch } => eprintln!(rt;
            "hosed: the topology {after} has no room for an order of the journal {journal:?}, \
            which epoch {epoch} of {moved:?} would be; {moved:?} ends before it"
        ),
        MoveStop::Differs { epoch } => eprintln!(rt;
            "hosed: the journal {moved:?} has another order than is to be moved at epoch {epoch}"
        ),
        MoveStop::Less { entries } => eprintln!(rt;
            "hosed: the journal {journal:?} has fewer entries than are to be cut off: {entries}"
        ),
        _ => eprintln!(rt;
            "hosed: the topology {after} does not go on from {before}: the last line of the output \
            tells the first node or link that is not where it was"
        ),
    }
}
