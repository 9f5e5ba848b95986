/// A change of the files between two looks, or the end of a process. Of a name that leads nowhere only `Replace` and `Bar` do anything.
#[derive(Clone, Copy, Debug, PartialEq, Eq)]
pub enum Edit<'a> {
    /// These bytes come to the end of the name's file.
    Append(&'a str, &'a [u8]),
    /// Of the name's file this number of bytes is left, from its front, and all if it has no more.
    Truncate(&'a str, usize),
    /// The name leads to a new file, which holds these bytes.
    Replace(&'a str, &'a [u8]),
    /// The name leads nowhere.
    Remove(&'a str),
    /// The process of this number ends.
    End(u32),
    /// The name can't be opened or read from now on, if this is true, and it can again if it is false.
    Bar(&'a str, bool),
}
