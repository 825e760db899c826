use mc_base::Text;
use mc_model::run::Exception;
use mc_values::Ref;

/// What a builtin does at its inputs: it gives its output, where it has one, fails, throws, writes a text and gives a
/// new state of io, or wants a line of the input from a byte on.
#[derive(Drop)]
pub enum Applied {
    Gives(Option<Ref>),
    Fails,
    Throws(Exception),
    Wrote(Text, Ref),
    Reads(u64),
}
