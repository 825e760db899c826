ghost use Rattle.std.specs.Prelude.{◌≡◌, if◌then◌else◌};

use mc_base::Text;
use mc_model::run::Exception;

/// How an atom went that gives at most one answer: its body goes on with the bindings that it left, it fails, or it is
/// stuck, since a variable is unbound whose value it needs.
#[derive(Clone, Copy, Debug, PartialEq, Eq)]
pub enum AtomResult {
    On,
    Fails,
    Stuck,
}

/// What the application of a builtin does: it goes as atoms do, throws, writes a text before it goes so, or wants a line
/// of the input from a byte on.
#[derive(Drop)]
pub enum BuiltinResult {
    Went(AtomResult),
    Throws(Exception),
    Wrote(Text, AtomResult),
    Reads(u64),
}

/// What a builtin does that was fed a line of the input: it goes as atoms do, or throws.
#[derive(Drop)]
pub enum ReadLineResult {
    Went(AtomResult),
    Throws(Exception),
}

impl AtomResult {
    /// On where what was to be met is met.
    pub fn of(met: bool) -> AtomResult
        ensures { result ≡ (if met then AtomResult.On else AtomResult.Fails) }
    {
        if met {
            AtomResult::On
        } else {
            AtomResult::Fails
        }
    }
}
