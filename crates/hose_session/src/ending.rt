// How a session ends.

/// How a session ended.
#[derive(Clone, Copy, Debug, PartialEq, Eq)]
pub enum SessionEnd {
    /// The input was read to its end after the greeting.
    End,
    /// A line was `bye`.
    Bye,
    /// The first line was no greeting, or there was none.
    NoHello,
    /// A call of the input failed.
    Read,
    /// A call of the output failed.
    Write,
    /// The input gave more than 1 GiB.
    TooLong,
}
