// How far the bytes that an instruction reads are spread over cases.

/// Which bytes get a value of their own in each case, of those that an instruction reads.
#[derive(Clone, Copy, Debug, PartialEq, Eq)]
pub enum Spread {
    /// All of them: one that may be any byte has 256 cases.
    EachByte,

    /// Those of which the values are listed.
    ListedBytes,

    /// None.
    NoByte,
}
