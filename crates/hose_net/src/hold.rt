// How replies are held back for a standby, and why a host ends.
//
// How much is heard of a standby is a number: of the entries that it has, or, where who answers
// lines says so, of the lines behind which it gave an answer.

/// Which replies may be sent.
#[derive(Clone, Copy, Debug, PartialEq, Eq)]
pub enum Hold {
    /// All: the host goes on alone.
    Alone,
    /// Those that need no more than this, which is heard of the standby.
    Upto(u64),
}

/// Why a host ends.
#[derive(Clone, Copy, Debug, PartialEq, Eq)]
pub enum Parting {
    /// It was asked to.
    Asked,
    /// Its network told it to stop.
    Told,
    /// Nothing was heard of the standby for too long, and it may not go on alone.
    Late,
    /// The standby has so many entries, more than the host: entries of the host were lost.
    Ahead(u64),
}
