// The links in service, and those that are out.
ghost use Rattle.std.specs.Prelude.{◌≡◌, ◌<◌, ◌≤◌, [], true, false, IfOk, IsTrue, length, replicate, slice_index_or, slice_set};
ghost use Rattle.hose_graph.specs.declared.limits.TheConstants.{MOST_LINKS};
ghost use Rattle.hose_law.specs.Service.{put_back, taken_out};

use hose_graph::MOST_LINKS;
use hose_links::LinkSet;
use std::alloc::{AllocError, Global};
use std::marker::Model;

// The set of the links in service, and the others in the order in which they were taken out, with
// room for as many links as a network can have.
//
// A contract sees both.
#[derive(Drop)]
pub(crate) struct ServedLinks {
    pub(crate) links: LinkSet,
    out: Vec<u32>,
}

impl Model for ServedLinks {
    ghost use Rattle.std.specs.Prelude.{◌≤◌, length, vec_capacity};
    ghost use Rattle.hose_graph.specs.declared.limits.TheConstants.{MOST_LINKS};
    ghost use Rattle.hose_book.specs.steps.Serving.{Served, IsSetInService};

    ghost Value = { Served };

    ghost view = { λ s. record { links = s.links; out = s.out.items } };

    ghost invariant = { λ s. IsSetInService (record { links = s.links; out = s.out.items })
        × (MOST_LINKS ≤ vec_capacity s.out) };
}

impl ServedLinks {
    // All of so many links in service.
    pub(crate) fn new(alloc: Global, count: u32) -> Result<ServedLinks, AllocError>
        requires { count ≤ MOST_LINKS }
        ensures { IfOk result
            (λ served. served ≡ record { links = replicate count true; out = [] }) }
    {
        let mut links = LinkSet::new(alloc, count)?;
        links.fill_where(|_| true);
        let out = Vec::with_capacity(alloc, MOST_LINKS as usize)?;
        Ok(ServedLinks { links, out })
    }

    // Where it is true, every link is in service.
    pub(crate) fn are_all(&self) -> bool
        ensures { IsTrue result → self.now.out ≡ [] }
    {
        self.out.is_empty()
    }

    // Takes a link in service out of it.
    pub(crate) fn take_out(&mut self, link: u32)
        requires link { link < length self.old.links }
        requires served { slice_index_or self.old.links link false ≡ true }
        ensures { self.new ≡ record {
          links = slice_set self.old.links link false;
          out = taken_out self.old.out link;
        } }
    {
        self.links.clear(link);
        self.out.push_reserved(link);
    }

    // Puts a link back into service.
    pub(crate) fn put_back(&mut self, link: u32)
        requires { link < length self.old.links }
        ensures { self.new ≡ record {
          links = slice_set self.old.links link true;
          out = put_back self.old.out link;
        } }
    {
        self.links.put(link);
        self.out.retain(|other| *other != link);
    }
}
