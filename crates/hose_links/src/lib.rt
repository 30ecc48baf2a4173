//! Sets of the links of a topology, for the planner and the book: a place for each link, true where
//! the link is in the set. A contract sees the list of these truth values, in the links' order.
//!
//! ```
//! let mut links = LinkSet::new(alloc, 3)?;
//! links.put(1);
//! links.fill_where(|link| link != 1);
//! ```
#![tactic(auto)]

ghost use Rattle.std.specs.Prelude.{◌≡◌, ℕ, ◌<◌, ◌↔◌, true, false, IfOk, IsTrue, length, replicate, slice_index_or, slice_set};

use std::alloc::{AllocError, Global};
use std::marker::Model;

/// A set of links, which are numbered from 0.
#[derive(Debug, Drop)]
pub struct LinkSet {
    places: Vec<bool>,
}

impl Model for LinkSet {
    ghost use Rattle.std.specs.Prelude.{◌^◌, ◌<◌, Bool, List, length};

    ghost Value = { List Bool };

    ghost view = { λ links. links.places.items };

    // The number of links fits `u32`.
    ghost invariant = { λ links. length links.places.items < 2 ^ 32 };
}

impl LinkSet {
    /// None of `len` links.
    pub fn new(alloc: Global, len: u32) -> Result<LinkSet, AllocError>
        ensures { IfOk result (λ links. links ≡ replicate len false) }
    {
        let places = vec![in alloc; false; len as usize]?;
        Ok(LinkSet { places })
    }

    /// How many links there are, in the set or not.
    pub fn len(&self) -> u32
        ensures { result ≡ length self.now }
    {
        self.places.len() as u32
    }

    /// Whether `link` is in the set.
    pub fn has(&self, link: u32) -> bool
        requires { link < length self.now }
        ensures { result ≡ slice_index_or self.now link false }
    {
        self.places[link as usize]
    }

    /// Puts `link` into the set.
    pub fn put(&mut self, link: u32)
        requires { link < length self.old }
        ensures { self.new ≡ slice_set self.old link true }
    {
        self.places[link as usize] = true;
    }

    /// Takes `link` out of the set.
    pub fn clear(&mut self, link: u32)
        requires { link < length self.old }
        ensures { self.new ≡ slice_set self.old link false }
    {
        self.places[link as usize] = false;
    }

    /// Whether both have the same links in and the same out.
    pub fn same(&self, other: &LinkSet) -> bool
        ensures { IsTrue result ↔ (self.now ≡ other.now) }
    {
        self.places == other.places
    }

    /// Makes this the set of the links for which `f` answers true.
    pub fn fill_where<F: Fn(u32) -> bool>(&mut self, f: F)
        requires { (link : ℕ) → link < length self.old → F.pre f link }
        ensures len { length self.new ≡ length self.old }
        ensures answers { (link : ℕ) → link < length self.new
            → F.post f link (slice_index_or self.new link false) }
    {
        for link in 0..self.len() {
            self.places[link as usize] = f(link);
        }
    }

    /// Makes this the set of the links of another one, of as many links.
    pub fn copy_from(&mut self, other: &LinkSet)
        requires { length self.old ≡ length other.now }
        ensures { self.new ≡ other.now }
    {
        self.places.copy_from_slice(&other.places);
    }

    /// A second set with the same links.
    pub fn copy(&self, alloc: Global) -> Result<LinkSet, AllocError>
        ensures { IfOk result (λ copy. copy ≡ self.now) }
    {
        let places = Vec::from_slice(alloc, &self.places)?;
        Ok(LinkSet { places })
    }
}
