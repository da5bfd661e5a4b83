// What a run says of where its lines stand, of which rows its tables stand on, and how it ended before its last line.
ghost use Rattle.run_laws.specs.Hidings.{NoSparedRowIsHidden};
ghost use Rattle.run_laws.specs.Places.{PlacesAreExact};
ghost use Rattle.run_laws.specs.Stops.{FilesTooLong, ReadsFailed};

/// Of a line outside of blocks that made nothing, as a query or whatever was refused, the least and the greatest length
/// of each history are one: what it says holds at just that length, and not only at some length of a range.
pub fn places_are_exact()
    ensures exact { PlacesAreExact }
{}

/// A table stands on each row that its line had seen accepted, unless a line of the script trimmed the row's range with a
/// bound above the row's end.
pub fn no_row_is_hidden()
    ensures stands { NoSparedRowIsHidden }
{}

/// Where the status is 4, the last file that was asked for could not be read, and the text says so at its end.
pub fn reads_failed()
    ensures failed { ReadsFailed }
{}

/// Where the status is 8, the last read gave more than 64 MiB, and the text says so at its end.
pub fn files_too_long()
    ensures long { FilesTooLong }
{}
