// What happened, in lines.
use hose_net::{DoorTrouble, DoorsEvent, DoorsFault, Happened, KeptAddress, Parting};
use std::io;

// How many bytes that were sent are shown at most.
const SHOWN: usize = 200;

/// What happened at connections.
pub fn tell<R: Print>(rt: &R, happened: &[Happened]) -> io::Result<()> {
    for event in happened {
        match event {
            Happened::Came(door, place) => println!(rt; "    {place} came by {door}")?,
            Happened::Got(place, bytes) => println!(rt; "    {place} gave {}", bytes.len())?,
            Happened::Sent(place, bytes) => tell_sent(rt, *place, bytes)?,
            Happened::Refused(place) => println!(rt; "    {place} took no more")?,
            Happened::Opened(path) => println!(rt; "    the link was opened to {path}")?,
            Happened::Gave(bytes) => println!(rt; "    the link gave {}", bytes.len())?,
            Happened::Took(bytes) => tell_took(rt, bytes)?,
            Happened::Closed => println!(rt; "    the link was closed")?,
            Happened::Late => println!(rt; "    the standby is late")?,
            Happened::Left(place) => println!(rt; "    {place} left")?,
            Happened::Stopped => println!(rt; "    was told to stop")?,
        }
    }
    Ok(())
}

// What a link was sent: a text, or a piece of a packet, of which the size is told.
fn tell_took<R: Print>(rt: &R, bytes: &[u8]) -> io::Result<()> {
    if !is_text(bytes) {
        return println!(rt; "    the link was sent {} bytes", bytes.len());
    }
    let text = std::str::from_utf8(bytes).unwrap_or("?");
    println!(rt; "    the link was sent {text:?}")
}

fn is_text(bytes: &[u8]) -> bool {
    for byte in bytes {
        if *byte < b'\n' {
            return false;
        }
    }
    true
}

// What was sent, or how much that is where it is long.
fn tell_sent<R: Print>(rt: &R, place: usize, bytes: &[u8]) -> io::Result<()> {
    if bytes.len() > SHOWN {
        return println!(rt; "    {place} was sent {} bytes", bytes.len());
    }
    let text = std::str::from_utf8(bytes).unwrap_or("?");
    println!(rt; "    {place} was sent {text:?}")
}

/// Why a host ended.
pub fn tell_parting<R: Print>(rt: &R, why: Parting) -> io::Result<()> {
    match why {
        Parting::Asked => println!(rt; "    ended: asked"),
        Parting::Told => println!(rt; "    ended: told"),
        Parting::Late => println!(rt; "    ended: late"),
        Parting::Ahead(count) => println!(rt; "    ended: ahead {count}"),
    }
}

/// What was done with doors.
pub fn tell_doors<R: Print>(rt: &R, done: &[DoorsEvent]) -> io::Result<()> {
    for event in done {
        match event {
            DoorsEvent::Opened(addresses) => {
                for address in addresses {
                    tell_address(rt, address)?;
                }
            }
            DoorsEvent::Refused(DoorsFault::Door(place, trouble)) => {
                println!(rt;
                    "    door {place} could not be opened: {}",
                    name_of(*trouble)
                )?;
            }
            DoorsEvent::Refused(DoorsFault::Memory) => println!(rt; "    no memory for doors")?,
            DoorsEvent::Closed(happened) => {
                tell(rt, happened)?;
                println!(rt; "    doors were closed")?;
            }
        }
    }
    Ok(())
}

fn tell_address<R: Print>(rt: &R, address: &KeptAddress) -> io::Result<()> {
    match address {
        KeptAddress::Port(port) => println!(rt; "    opened port {port}"),
        KeptAddress::Path(path) => println!(rt; "    opened {path}"),
    }
}

/// Why a door could not be opened, as scripts say it.
pub fn name_of(trouble: DoorTrouble) -> &'static str {
    match trouble {
        DoorTrouble::Served => "served",
        DoorTrouble::NotAllowed => "denied",
        DoorTrouble::NoFolder => "no folder",
        DoorTrouble::NoSocket => "no socket",
        DoorTrouble::Other => "other",
    }
}
