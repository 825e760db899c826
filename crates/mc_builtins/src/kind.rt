ghost use Rattle.mc_values.specs.Heap.{IsLive, value_at};
ghost use Rattle.mc_builtins.specs.code.Kinds.{IsKind};

use mc_base::Text;
use mc_values::{Heap, Ref};

/// The kind of a value, with what it is made of where it has no arguments.
pub enum Kind<'h> {
    Int(i64),
    Char(char),
    Text(&'h Text),
    /// A state of io, with the number of input bytes taken.
    State(u64),
    Con,
}

/// The kind of the value that a Ref stands for.
pub fn kind_of(heap: &Heap, r: Ref) -> Kind<'_>
    requires { IsLive heap.now r }
    ensures { IsKind (value_at heap.now r) result }
{
    if let Some(i) = heap.int_at(r) {
        Kind::Int(i)
    } else if let Some(c) = heap.char_at(r) {
        Kind::Char(c)
    } else if let Some(text) = heap.text_at(r) {
        Kind::Text(text)
    } else if let Some(taken) = heap.taken_at(r) {
        Kind::State(taken)
    } else {
        Kind::Con
    }
}
