// What the program tells of itself.

/// What `--help` is answered with.
pub const HELP: &str = "\
usage: hosed run [--tariff NAME] [JOURNAL] < FILE
       hosed audit [--tariff NAME] TOPOLOGY JOURNAL
       hosed serve [--tariff NAME] TOPOLOGY JOURNAL PORT CONNECTIONS WORKERS
       hosed host [--tariff NAME] [--operator PATH] [--quiet] [STANDBY] TOPOLOGY JOURNAL DOOR ..
       hosed prove [--tariff NAME] TOPOLOGY NAME:RATE ..
       hosed check [--tariff NAME] TOPOLOGY < CERTIFICATE
       hosed price TOPOLOGY < SHEET
       hosed ship [--tariff NAME] TOPOLOGY JOURNAL FROM > PACKETS
       hosed follow [--tariff NAME] TOPOLOGY JOURNAL < PACKETS
       hosed move [--tariff NAME] [--live] TOPOLOGY JOURNAL NEW_TOPOLOGY NEW_JOURNAL
       hosed cut [--tariff NAME] TOPOLOGY JOURNAL N NEW_JOURNAL
       hosed gen SEED NODES LINKS HOSES
       hosed --help | --version

hosed run reads a topology, in which lines that begin with # are passed over, and then a line for
each command of a customer:

    node NAME                           the next node
    link A B CAPACITY LENGTH [COST]     the next link, between two nodes named before
    end                                 the end of the topology
    CUSTOMER admit NAME:RATE ..         2 to 64 endpoints
    CUSTOMER admit-after K NAME:RATE .. the same where K is the newest VPN of the customer
    CUSTOMER quote NAME:RATE ..         the same, held under a number and not reserved
    CUSTOMER take Q                     admits what was quoted
    CUSTOMER release ID
    CUSTOMER show ID
    CUSTOMER vpns                       which VPNs the customer has
    CUSTOMER link L
    operator down L                     takes the link out of service: no new tree uses it
    operator up L                       puts it back into service

and writes one line for each of the last ten. JOURNAL is a file that keeps the book: an order is
in it before its line is written, and a later run with it goes on from there. It is begun where it
is not there. Without it the book is gone at the end.

    admitted ID cost C at N links L:R ..
    newest M at N                       another one is the newest than K; 0 where there is none
    quoted Q cost C at N links L:R ..
    refused at N side NAME ..
    stale S N                           quoted at the epoch S, and what decided has changed since
    no quote Q at N
    too many quotes at N                the customer holds 16
    released ID at N
    no vpn ID at N
    vpn ID cost C at N ends NAME:RATE .. links L:R ..
    vpns ID .. at N                     the live VPNs of the customer, ascending
    link L A B capacity C cost K load X at N
    link L A B capacity C cost K load X out at N            it is out of service
    down L at N, up L at N
    already L at N                      the link is so already
    denied at N                         the customer is not operator
    full at N, spent at N
    disk at N                           the journal's disk failed, and nothing was entered
    bad W                               the line's first word that is not allowed
    long                                the line has more than 4,096 bytes
    memory                              there was none, and nothing was done

hosed audit reads a topology from the file TOPOLOGY, where what stands after `end` is not looked at,
and the book of JOURNAL, and writes what it holds:

    epoch N
    link L A B capacity C cost K load X                     each link
    vpn ID CUSTOMER cost C ends NAME:RATE .. links L:R ..   each VPN, as it was admitted
    live K cost C                                           how many there are, and their cost

hosed serve reads a topology from the file TOPOLOGY, as audit does, and writes

    ready

once it listens at 127.0.0.1:PORT. It accepts CONNECTIONS connections, which WORKERS workers serve
side by side by the book of JOURNAL; then it closes JOURNAL, and writes what audit writes. Each
connection is a session of one customer, with one line in reply to each:

    hello NAME                          the first line; the reply is: welcome at N
    admit NAME:RATE ..                  and so on: the commands of run, without CUSTOMER
    bye                                 ends the session; the reply is: bye

PORT is 1 to 65535, CONNECTIONS is 1 to 10000, WORKERS is 1 to 16.

hosed host answers the sessions of all who come to its doors, 1 to 64 of them and thousands of
customers at once, until the customer operator says `end`; then it writes what audit writes. It
writes `ready` once all doors are open, and a line for each order on standard error, but with
--quiet. A session is that of serve; besides, these two lines are for operator alone:

    end                                 the reply is: ending at N, and no line is answered any more
    figures                             what there was since the start, in one line

DOOR is a port at 127.0.0.1, 1 to 65535; or the path of a Unix socket, with a `/` in it; or
PATH=NAME, where no other name than NAME may be said. PATH of --operator is a socket where operator
alone may greet, who then may do so at no other door but one of that name.

STANDBY is --standby PATH [--standby-seconds N] [--standby-or-stop]. Behind the Unix socket PATH is
a `hosed follow`, and each reply waits until it has all orders that the reply tells of. Where
nothing was heard of it for N seconds, 1 to 3600, 10 if not told, customers are served without it
until it has all again; with --standby-or-stop the host ends, and each reply waits besides until it
has answered what it was sent behind the line. A host keeps packets of 64 MiB for it: what lacks
more is brought up by `ship` first.

hosed prove reads a topology from the file TOPOLOGY, as audit does, plans a hose of 2 to 64
endpoints on the whole network, as if nothing were reserved and whatever links can carry, and writes
its certificate, which says what the plan reserves and why nothing else costs less; or

    none                                no tree joins the hose

hosed check reads a topology from the file TOPOLOGY, as audit does, and a certificate, which any
program may have made. It makes no plan, and writes

    yes C                               the reservations carry the hose at the least cost, C
    no K                                the certificate's lowest rule that fails, 1 to 6

hosed price reads a topology from the file TOPOLOGY, as audit does, and a sheet, in which each line
is a hose, CUSTOMER NAME:RATE .. . It writes what each costs at least on the whole network, as if
nothing were reserved, by each tariff below; LOW and HIGH bound C by the tariff's rule alone:

    price CUSTOMER NAME C LOW HIGH .. best NAME     the best is the first tariff of least C
    price CUSTOMER none                             no tree joins the hose
    bad W, long, memory                             as those of run

hosed ship reads a topology from the file TOPOLOGY, as audit does, and writes the admissions,
releases and changes of links of JOURNAL from the epoch FROM on, 1 to 4000000000, a packet each.
hosed follow takes such packets, in whatever order and however often they come, into a JOURNAL of
its own, which audit and serve read as any other, and writes one line for each:

    have N                              the journal has all up to the epoch N
    want N                              the packet is too far on; the one of the epoch N is next
    differs at N OWN GIVEN              the next one, of another history; both chain values
    unsound N                           no entry of the epoch N is in it that the book takes
    disk at N                           the journal's disk failed, and nothing was entered
    memory                              there was none, and nothing was done

hosed move reads two topologies, as audit does, and JOURNAL, which has to be there and is only read,
and writes what JOURNAL holds into NEW_JOURNAL, which is one of the network of NEW_TOPOLOGY: each
VPN with its tree and what is reserved for it. That network has the nodes and links of the old one
first, in their order; more may follow, and capacities, lengths and costs may be others. NEW_JOURNAL
has the same entries, with the same numbers; or, with --live, the VPNs that are live alone, with
other numbers, and then the links that are out of service. It goes on from what is there. The last
line tells how many entries NEW_JOURNAL has, and how many VPNs are live:

    vpn OLD is NEW                      with --live, each VPN that is live
    moved N live V

hosed cut reads a topology, as audit does, and JOURNAL, which has to be there and is only read, and
writes its first N entries, 0 to 4000000000, into NEW_JOURNAL, a journal of the same network. It
goes on from what is there, and its last line is that of move.

hosed gen makes a network of NODES nodes and LINKS links, and HOSES admissions with a release after
each fifth, all by the number SEED. It runs them as run does without a journal, and writes how many
were admitted, refused and released, the last epoch, and what the admitted cost together:

    gen SEED hoses H admitted A refused R released L epoch N cost C

SEED is 0 to 18446744073709551615, NODES is 6 to 512, LINKS is NODES - 1 to 2048, HOSES is 0 to
20000.

A TOPOLOGY whose name ends in .json is JSON: an object with the members `nodes`, an array of names,
and `links`, an array of objects with the members `a` and `b`, two names, `capacity`, `length` and,
where it is not the length, `cost`.

--tariff NAME prices the network by another rule than its own costs:

    flat                                a link costs its length
    hops                                a link costs 1
    long                                5 and twice its length, 1,000,000 at most

order   an admission, a release, or a link that is taken out of service or put back
epoch   how many orders there have been
N       the epoch at which the reply holds: after an order, its own
L       a link by its number; links and nodes count from 0, in the topology's order
load    what is reserved on a link, of all VPNs together
Q       a quote of the customer by its number, 1 to 16
side    the nodes that the lowest endpoint reaches over links in service with half of the rates free

A name is 1 to 16 of a to z, 0 to 9 and -. A capacity is 1 to 1,000,000,000; a length, a cost and
a rate are 1 to 1,000,000.

status  comes                           last line
0       all was read                    none
1       wrong words, or in prove
        the name of no node             words K
2       no topology                     topology LINE WORD
        or, in JSON,                    topology json | nodes [I] | links [I]
3       the input failed                read
4       the output failed               none
5       a journal of another network    journal other KEPT GIVEN
        or a damaged one                journal damaged at BYTE
6       no file TOPOLOGY, a journal
        that another program holds,
        or a file that failed           cabinet
7       no memory to begin,
        or in prove, check, ship,
        move, cut or gen                no memory
8       input or TOPOLOGY longer
        than 1 GiB, in JSON than
        16 MiB                          too long
9       the port could not be opened,
        or accepting failed; in host
        the door of the word K          door | door K
10      the certificate is not valid    no K
11      at this byte of the input no
        whole packet begins             packet P
12      NEW_TOPOLOGY has not this
        node or link first              network node I | network link I
13      the entry of this epoch is
        not sound there                 unsound N
14      NEW_JOURNAL has another one     differs at N
15      JOURNAL has M entries, fewer
        than N                          less M
16      the standby is gone, with
        --standby-or-stop               standby
17      the standby has N orders, and
        the host fewer                  ahead N

What is wrong with NEW_TOPOLOGY or NEW_JOURNAL at a status up to 8 is told after `new `.
";

/// What `--version` is answered with.
pub const VERSION: &str = "hosed 0.2.0\n";
