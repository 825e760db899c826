use mc_base::Text;
use mc_model::run::Exception;

/// What a builtin makes of its inputs, before it has a place in the heap.
#[derive(Drop)]
pub enum Made {
    Fails,
    Succeeds,
    Int(i64),
    Char(char),
    Text(Text),
    /// The list of these characters.
    Chars(Vec<char>),
    Throws(Exception),
}
