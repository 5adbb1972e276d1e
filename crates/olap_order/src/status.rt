// How a run ends.
use olap_base::Memory;

/// How a run ends. `Yes`, `No`, `Usage` and `Refused` are answers of the words and the files; the others say
/// why there is no answer.
#[derive(Clone, Copy, Debug, PartialEq, Eq)]
pub enum Status {
    /// The answer is yes, or the command is done.
    Yes,
    /// The answer is no.
    No,
    /// The words are no command.
    Usage,
    /// A file or a word is at fault, and the output says where.
    Refused,
    /// A file couldn't be opened or read. Nothing was written.
    ReadFault,
    /// The output couldn't be written whole.
    WriteFault,
    /// Out of memory. Nothing was written.
    Memory(Memory),
}
