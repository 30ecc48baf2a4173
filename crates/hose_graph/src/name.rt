// Names: what they are, how they are read, and when two are the same.
ghost use Rattle.std.specs.Prelude.{◌≡◌, ◌↔◌, IsTrue, IsSome, IfSome};
ghost use Rattle.std.specs.Str.{bytes_eq};
ghost use Rattle.std.proofs.Common.{refl};
ghost use Rattle.std.specs.Cmp.{partial_equiv_from_equiv, unsigned_ties};
ghost use Rattle.std.specs.Cmp.Lexicographic.{lists_ties, nat_list_cmp_total, nat_list_eq_equiv};
ghost use Rattle.std.specs.Cmp.Lexicographic.{slice_cmp, texts_po};
ghost use Rattle.std.specs.Ordering.{as_partial_cmp, nat_cmp};
ghost use Rattle.hose_graph.specs.Limits.{operator};
ghost use Rattle.hose_graph.specs.Name.{IsName, is_name_byte};

use crate::limits::MOST_NAME_BYTES;
use std::cmp::Ordering;
use std::marker::Model;

/// The name of the one customer who may take links out of service and put them back.
pub const OPERATOR: &str = "operator";

/// The name of a node or of a customer: 1 to 16 bytes of `a` to `z`, `0` to `9` and `-`.
///
/// A contract sees it as its bytes.
#[derive(Clone, Copy, Debug)]
pub struct Name {
    // The bytes after the name's own are zero, so that one name has one form.
    bytes: [u8; MOST_NAME_BYTES],
    len: u8,
}

impl Model for Name {
    ghost use Rattle.std.specs.Prelude.{◌≡◌, ℕ, List, length, take};
    ghost use Rattle.hose_graph.specs.Name.{IsName};
    ghost use Rattle.hose_graph.specs.steps.Name.{padded};

    ghost Value = { List ℕ };

    ghost view = { λ name. take name.len name.bytes };

    ghost invariant = { λ name. IsName (take name.len name.bytes)
        × (name.bytes ≡ padded (take name.len name.bytes))
        × (name.len ≡ length (take name.len name.bytes)) };

    ghost inverse = { λ name. record { bytes = padded name; len = length name } };

    ghost use Rattle.std.proofs.Common.{sym};

    ghost inverse_ok = { λ name is i. record { bytes = sym is.1 i; len = sym is.2 i } };
}

impl Name {
    /// The name that these bytes are.
    pub fn read(bytes: &[u8]) -> Option<Name>
        ensures is_name { IsSome result ↔ IsName bytes.now }
        ensures same { IfSome result (λ name. name ≡ bytes.now) }
    {
        let is_short = (1..=MOST_NAME_BYTES).contains(&bytes.len());
        if !is_short || !bytes.iter().all(|byte| is_allowed(*byte)) {
            return None;
        }
        let mut padded = [0; MOST_NAME_BYTES];
        padded[..bytes.len()].copy_from_slice(bytes);
        Some(Name {
            bytes: padded,
            len: bytes.len() as u8,
        })
    }

    /// The bytes of the name, without those that it is padded with.
    pub fn bytes(&self) -> &[u8]
        ensures value { result.now ≡ self.now }
        ensures is_name { IsName self.now }
    {
        &self.bytes[..usize::from(self.len)]
    }

    /// Whether this is the operator's name.
    pub fn is_operator(&self) -> bool
        ensures { IsTrue result ↔ (self.now ≡ operator) }
    {
        self.bytes() == OPERATOR.as_bytes()
    }
}

impl PartialEq for Name {
    ghost eq = { bytes_eq };

    ghost laws = { partial_equiv_from_equiv nat_list_eq_equiv };

    fn eq(&self, other: &Name) -> bool
        ensures value { result ≡ bytes_eq self.now other.now }
        ensures same { IsTrue result ↔ (self.now ≡ other.now) }
    {
        self.bytes() == other.bytes()
    }
}

impl Eq for Name {
    ghost laws = { nat_list_eq_equiv };
}

impl PartialOrd for Name {
    ghost partial_cmp = { as_partial_cmp (slice_cmp nat_cmp) };

    ghost laws = { texts_po };

    fn partial_cmp(&self, other: &Name) -> Option<Ordering> {
        Some(self.cmp(other))
    }
}

/// Names are in the order of their bytes.
impl Ord for Name {
    ghost cmp = { slice_cmp nat_cmp };

    ghost total = { nat_list_cmp_total };

    ghost matches_partial_cmp = { λ x y. refl };

    ghost matches_eq = { lists_ties nat_cmp unsigned_ties };

    fn cmp(&self, other: &Name) -> Ordering {
        self.bytes().cmp(other.bytes())
    }
}

// Whether a name may have the byte.
fn is_allowed(byte: u8) -> bool
    ensures { result ≡ is_name_byte byte }
{
    byte.is_ascii_lowercase() || byte.is_ascii_digit() || byte == b'-'
}
