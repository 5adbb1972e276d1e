// Theorems over the definitions. Each is the clause of a function that does nothing.
ghost use Rattle.olap_records.specs.FaultLaws.{FirstFaultIsFirst, NoFaultIsNone};
ghost use Rattle.olap_records.specs.Pieces.{MarkIsInFront, PiecesJoin, RecordsAtEnd, RecordsBegin};
ghost use Rattle.olap_records.specs.Tables.{AllReadIsFirst, AllReadIsRead};
ghost use Rattle.olap_records.specs.Texts.{TextReadsBack};

/// `first_fault` is a place and a kind exactly if the record at that place has that fault after the
/// records before it, and none of these has a fault.
pub fn first_fault_is_first<R, K>()
    ensures { FirstFaultIsFirst R K }
{}

/// `first_fault` is nothing exactly if no record has a fault after the records before it.
pub fn no_fault_is_none<R, K>()
    ensures { NoFaultIsNone R K }
{}

/// `all_read` is a fault with its record's place exactly if that record has the fault after the records before it, and
/// none of these has one.
pub fn all_read_is_first<R, T, K>()
    ensures { AllReadIsFirst R T K }
{}

/// `all_read` is a list exactly if each record stands for the thing at its place there, after the records before it.
pub fn all_read_is_read<R, T, K>()
    ensures { AllReadIsRead R T K }
{}

/// What is printed reads back as the same records.
pub fn text_reads_back()
    ensures { TextReadsBack }
{}

/// The records of a text are those of its reader, byte by byte, at its end.
pub fn records_are_those_at_the_end()
    ensures { RecordsAtEnd }
{}

/// A text that is read piece by piece is read as a whole.
pub fn pieces_join()
    ensures { PiecesJoin }
{}

/// The records of a piece stand at the front of those of the whole, whatever comes after it.
pub fn records_begin()
    ensures { RecordsBegin }
{}

/// Whether a text begins with a byte order mark is told by its first three bytes.
pub fn mark_is_in_front()
    ensures { MarkIsInFront }
{}
