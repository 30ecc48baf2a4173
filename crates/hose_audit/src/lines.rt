// The lines of an audit.
ghost use Rattle.std.specs.Prelude.{◌≡◌, All};
ghost use Rattle.std.specs.List.{flat_map};
ghost use Rattle.hose_io.specs.steps.Gather.{IsAdded};
ghost use Rattle.hose_graph.specs.Network.{IsLinkOf};
ghost use Rattle.hose_book.specs.steps.Ledger.{IsKept};
ghost use Rattle.hose_audit.specs.Audit.{epoch_line, load_line, link_numbers, live_line, total_cost, vpn_line};

use hose_book::Book;
use hose_graph::{Topology, Vpn};
use hose_io::{Gather, Sink};
use hose_proto::{add_ends, add_link, add_pairs};
use hose_tree::cost;

// Adds the line of the epoch.
pub(crate) fn add_epoch<S: Sink>(gather: &mut Gather, sink: &mut S, book: &Book)
    ensures { IsAdded S.Sink gather.old sink.old gather.new sink.new (epoch_line book.now.book) }
{
    gather.add_numbered(sink, b"epoch ", book.epoch());
    gather.add(sink, b"\n");
}

// Adds the lines of the links.
pub(crate) fn add_links<S: Sink>(gather: &mut Gather, sink: &mut S, book: &Book)
    ensures { IsAdded S.Sink gather.old sink.old gather.new sink.new
        (flat_map (load_line book.now.network book.now.book) (link_numbers book.now.network)) }
{
    for number in 0..book.topology().links() {
        add_link_line(gather, sink, book, number);
    }
}

// Adds the line of a link.
fn add_link_line<S: Sink>(gather: &mut Gather, sink: &mut S, book: &Book, number: u32)
    requires { IsLinkOf book.now.network number }
    ensures { IsAdded S.Sink gather.old sink.old gather.new sink.new
        (load_line book.now.network book.now.book number) }
{
    let top = book.topology();
    gather.add_numbered(sink, b"link ", u64::from(number));
    add_link(gather, sink, top, &top.link(number));
    gather.add_numbered(sink, b" load ", book.loads()[number as usize]);
    gather.add(sink, b"\n");
}

// Adds the lines of live VPNs.
pub(crate) fn add_vpns<S: Sink>(gather: &mut Gather, sink: &mut S, top: &Topology, live: &[Vpn])
    requires { All (IsKept top.now) live.now }
    ensures { IsAdded S.Sink gather.old sink.old gather.new sink.new
        (flat_map (vpn_line top.now) live.now) }
{
    for vpn in live {
        add_vpn(gather, sink, top, vpn);
    }
}

// Adds the line of a live VPN.
fn add_vpn<S: Sink>(gather: &mut Gather, sink: &mut S, top: &Topology, vpn: &Vpn)
    requires { IsKept top.now vpn.now }
    ensures { IsAdded S.Sink gather.old sink.old gather.new sink.new (vpn_line top.now vpn.now) }
{
    gather.add_numbered(sink, b"vpn ", vpn.id);
    gather.add(sink, b" ");
    gather.add(sink, vpn.customer.bytes());
    gather.add_numbered(sink, b" cost ", cost(top, &vpn.amounts));
    gather.add(sink, b" ends");
    add_ends(gather, sink, top, vpn.hose.ends());
    gather.add(sink, b" links");
    add_pairs(gather, sink, vpn.amounts.pairs());
    gather.add(sink, b"\n");
}

// Adds the last line.
pub(crate) fn add_live<S: Sink>(gather: &mut Gather, sink: &mut S, book: &Book)
    ensures { IsAdded S.Sink gather.old sink.old gather.new sink.new
        (live_line book.now.network book.now.book) }
{
    gather.add_numbered(sink, b"live ", book.live().len() as u64);
    gather.add_numbered(sink, b" cost ", total_cost(book));
    gather.add(sink, b"\n");
}

// What all live VPNs cost: the sum over all links of load times cost.
fn total_cost(book: &Book) -> u64
    ensures { result ≡ total_cost book.now.network book.now.book }
{
    let top = book.topology();
    let loads = book.loads();
    let links = top.links();
    let mut total = 0;
    for number in 0..links {
        total += loads[number as usize] * top.link(number).cost;
    }
    total
}
