// What the words say that tell which reply a line is.

// The first word of a reply, by what stands after it.
#[derive(Clone, Copy, Debug)]
pub(crate) enum Head {
    // `at N`
    Epoch(EpochHead),
    // `ID at N`
    Number(NumberHead),
    // `LINK at N`
    Service(ServiceHead),
    // `ID cost C at N links LINK:AMOUNT ..`
    Plan(PlanHead),
    // nothing
    Lone(LoneHead),
    // `at N side NAME ..`
    Refused,
    // `SEEN NOW`
    Stale,
    // `vpn ID at N`, or `quote Q at N`
    No,
    // `many quotes at N`
    Too,
    // `ID cost C at N ends NAME:RATE .. links LINK:AMOUNT ..`
    Vpn,
    // `ID .. at N`
    Vpns,
    // `LINK NAME NAME capacity C cost C load A at N`, with `out` before `at` where it is so
    Link,
    // `WORD`
    Bad,
}

#[derive(Clone, Copy, Debug)]
pub(crate) enum EpochHead {
    Welcome,
    Denied,
    Full,
    Spent,
    Disk,
}

#[derive(Clone, Copy, Debug)]
pub(crate) enum NumberHead {
    Released,
    Newest,
}

#[derive(Clone, Copy, Debug)]
pub(crate) enum ServiceHead {
    Down,
    Up,
    Already,
}

#[derive(Clone, Copy, Debug)]
pub(crate) enum PlanHead {
    Admitted,
    Quoted,
}

#[derive(Clone, Copy, Debug)]
pub(crate) enum LoneHead {
    Memory,
    Long,
    Bye,
}

pub(crate) const HEADS: [(Head, &[u8]); 23] = [
    (Head::Epoch(EpochHead::Welcome), b"welcome"),
    (Head::Plan(PlanHead::Admitted), b"admitted"),
    (Head::Plan(PlanHead::Quoted), b"quoted"),
    (Head::Refused, b"refused"),
    (Head::Stale, b"stale"),
    (Head::Number(NumberHead::Released), b"released"),
    (Head::No, b"no"),
    (Head::Too, b"too"),
    (Head::Vpn, b"vpn"),
    (Head::Vpns, b"vpns"),
    (Head::Number(NumberHead::Newest), b"newest"),
    (Head::Link, b"link"),
    (Head::Service(ServiceHead::Down), b"down"),
    (Head::Service(ServiceHead::Up), b"up"),
    (Head::Service(ServiceHead::Already), b"already"),
    (Head::Epoch(EpochHead::Denied), b"denied"),
    (Head::Epoch(EpochHead::Full), b"full"),
    (Head::Epoch(EpochHead::Spent), b"spent"),
    (Head::Epoch(EpochHead::Disk), b"disk"),
    (Head::Lone(LoneHead::Memory), b"memory"),
    (Head::Bad, b"bad"),
    (Head::Lone(LoneHead::Long), b"long"),
    (Head::Lone(LoneHead::Bye), b"bye"),
];

// What there is none of, by the word after `no`.
#[derive(Clone, Copy, Debug)]
pub(crate) enum Missing {
    Vpn,
    Quote,
}

pub(crate) const MISSING: [(Missing, &[u8]); 2] = [
    (Missing::Vpn, b"vpn"),
    (Missing::Quote, b"quote"),
];

// Whether a link is out of service, by the word after its load.
#[derive(Clone, Copy, Debug)]
pub(crate) enum Service {
    Out,
    At,
}

pub(crate) const SERVICES: [(Service, &[u8]); 2] = [(Service::Out, b"out"), (Service::At, b"at")];
