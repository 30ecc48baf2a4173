// Chain values: the one after one entry more, what a record has of it, and what two equal ones say.
ghost use Rattle.std.specs.Prelude.{◌≡◌, ◌⊎◌, ◌++◌, ◌∷◌, [], List, ℕ, All, length};
ghost use Rattle.sha2.specs.Sha256.{sha256};
ghost use Rattle.hose_graph.specs.declared.entry.Entry.{Entry};
ghost use Rattle.hose_codec.specs.Spelling.{IsEntry, spelling};
ghost use Rattle.hose_journal.specs.Chain.{chain};
ghost use Rattle.hose_journal.specs.steps.Chain.{Collide, hashed};
ghost use Rattle.hose_journal.specs.Entries.{value_in};

use crate::layout::DIGEST_BYTES;
use hose_graph::Entry;
use sha2::{Digest, Sha256};

/// The chain value after an entry with this spelling.
pub fn chain_after(value: &[u8; DIGEST_BYTES], body: &[u8]) -> [u8; DIGEST_BYTES]
    ensures { (digest : List ℕ) → (entries : List Entry) → (entry : Entry) →
        value.now ≡ chain digest entries → body.now ≡ spelling entry →
        result ≡ chain digest (entries ++ entry ∷ []) }
{
    let mut hasher = Sha256::new();
    hasher.update(value);
    hasher.update(body);
    hasher.finalize()
}

/// What a record has of a chain value: all of it, or nothing.
pub fn value_part(chained: bool, value: &[u8; DIGEST_BYTES]) -> &[u8]
    ensures { result.now ≡ value_in chained value.now }
{
    if chained {
        return value;
    }
    &[]
}

/// Two lists of one length with one chain value are equal, or among the byte strings that were
/// hashed along them two different ones have one SHA-256.
pub fn law_chain(digest: &[u8; DIGEST_BYTES], one: &[Entry], other: &[Entry])
    requires one { All IsEntry one.now }
    requires other { All IsEntry other.now }
    requires length { length one.now ≡ length other.now }
    requires chain { chain digest.now one.now ≡ chain digest.now other.now }
    ensures { (one.now ≡ other.now)
        ⊎ Collide sha256 (hashed digest.now one.now ++ hashed digest.now other.now) }
{}
