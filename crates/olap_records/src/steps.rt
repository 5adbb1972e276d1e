// What one byte does, with the settings by which the program reads.
ghost use Rattle.std.specs.Prelude.{◌≡◌, ◌≤◌, ◌-◌, IsTrue, drop, length, take};
ghost use Rattle.csv.specs.Machine.{Runs, in_field, start_field, start_record, step as csv_step};
ghost use Rattle.csv.specs.declared.parser.Action.TheVariants as act;
ghost use Rattle.csv.specs.Reading.{default_config};
ghost use Rattle.olap_records.specs.Places.{action_of, state_of};

/// Where a splitter stands in a record.
#[derive(Clone, Copy, PartialEq, Eq)]
pub(crate) enum Place {
    /// Before a record.
    Record,
    /// Before a field.
    Field,
    /// In a field, not in quotes.
    Plain,
    /// In quotes.
    Quoted,
    /// After a quote in quotes.
    Closed,
    /// After a carriage return that ended a record.
    Return,
}

/// What a byte does.
#[derive(Clone, Copy, PartialEq, Eq)]
pub(crate) enum Action {
    Skip,
    Copy,
    EndField,
    EndRecord,
}

#[inline(always)]
fn plain(c: u8) -> (Place, Action)
    ensures place { state_of result.0 ≡ (in_field default_config c).0 }
    ensures action { action_of result.1 ≡ (in_field default_config c).1 }
{
    if c == b',' {
        (Place::Field, Action::EndField)
    } else if c == b'\r' {
        (Place::Return, Action::EndRecord)
    } else if c == b'\n' {
        (Place::Record, Action::EndRecord)
    } else {
        (Place::Plain, Action::Copy)
    }
}

#[inline(always)]
fn field(c: u8) -> (Place, Action)
    ensures place { state_of result.0 ≡ (start_field default_config c).0 }
    ensures action { action_of result.1 ≡ (start_field default_config c).1 }
{
    if c == b'"' {
        (Place::Quoted, Action::Skip)
    } else {
        plain(c)
    }
}

#[inline(always)]
fn record(c: u8) -> (Place, Action)
    ensures place { state_of result.0 ≡ (start_record default_config c).0 }
    ensures action { action_of result.1 ≡ (start_record default_config c).1 }
{
    if c == b'\r' || c == b'\n' {
        (Place::Record, Action::Skip)
    } else {
        field(c)
    }
}

/// The place and the action of one byte.
#[inline(always)]
pub(crate) fn step(place: Place, c: u8) -> (Place, Action)
    ensures place { state_of result.0 ≡ (csv_step default_config (state_of place) c).0 }
    ensures action { action_of result.1 ≡ (csv_step default_config (state_of place) c).1 }
{
    match place {
        Place::Record => record(c),
        Place::Field => field(c),
        Place::Plain => plain(c),
        Place::Quoted if c == b'"' => (Place::Closed, Action::Skip),
        Place::Quoted => (Place::Quoted, Action::Copy),
        Place::Closed if c == b'"' => (Place::Quoted, Action::Copy),
        Place::Closed => plain(c),
        Place::Return if c == b'\n' => (Place::Record, Action::Skip),
        Place::Return => record(c),
    }
}

/// Whether the byte only joins the field at hand.
#[inline(always)]
fn joins(place: Place, c: u8) -> bool
    ensures { IsTrue result → csv_step default_config (state_of place) c ≡ (state_of place, act.Copy) }
{
    match place {
        Place::Plain => c != b',' && c != b'\r' && c != b'\n',
        Place::Quoted => c != b'"',
        _ => false,
    }
}

/// Where the bytes end that only join the field at hand, from a place in the piece on.
#[inline(always)]
fn joined_up_to(place: Place, piece: &[u8], from: usize) -> usize
    requires from { from ≤ length piece.now }
    ensures bounds { (from ≤ result) × (result ≤ length piece.now) }
    ensures runs { Runs default_config (state_of place) (take (result - from) (drop from piece.now)) }
{
    'run: for i in from..piece.len() {
        if !joins(place, piece[i]) {
            return i;
        }
    }
    piece.len()
}

/// The same. A field without quotes has a loop of its own, in which its place is known.
#[inline(always)]
pub(crate) fn run_end(place: Place, piece: &[u8], from: usize) -> usize
    requires from { from ≤ length piece.now }
    ensures bounds { (from ≤ result) × (result ≤ length piece.now) }
    ensures runs { Runs default_config (state_of place) (take (result - from) (drop from piece.now)) }
{
    match place {
        Place::Plain => joined_up_to(Place::Plain, piece, from),
        _ => joined_up_to(place, piece, from),
    }
}
