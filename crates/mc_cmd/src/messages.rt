//! The texts of the lines that go to the error output, and of what the command itself adds to the output.

pub const USAGE: &[u8] = b"merc: usage: merc check|run|query|gen\n";

/// Stands before the name of a file that isn't there.
pub const NO_FILE: &[u8] = b"merc: no file ";

/// Stands before the name of a file that can't be read.
pub const CANNOT_READ: &[u8] = b"merc: cannot read ";

/// Stands before the number of calls that a run may make.
pub const BUDGET_OF: &[u8] = b"merc: budget of ";

/// Stands behind the number of calls that a run may make.
pub const CALLS_SPENT: &[u8] = b" calls is spent\n";

/// Stands before the height that calls may have.
pub const DEPTH_OF: &[u8] = b"merc: depth of ";

/// Stands behind the height that calls may have.
pub const IS_REACHED: &[u8] = b" is reached\n";

/// Stands before the text of an exception.
pub const EXCEPTION: &[u8] = b"merc: exception: ";

pub const ZERO_DIVISOR: &[u8] = b"merc: exception: zero divisor\n";

/// The query's name, where the files have theirs.
pub const QUERY: &[u8] = b"query";

/// What a query puts that ends without an answer.
pub const NO_ANSWER: &[u8] = b"false.\n";
