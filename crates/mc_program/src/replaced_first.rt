ghost use Rattle.std.specs.Prelude.{◌≡◌, ◌<◌, length, slice_index_or, slice_set};

use mc_base::Row;
use std::mem;

/// The first of some parts, and all of them with a link in its place. It takes no memory.
pub(crate) fn replace_first<T>(parts: Row<T>, link: T) -> (T, Row<T>)
    requires { 0 < length parts }
    ensures first { result.0 ≡ slice_index_or parts 0 result.0 }
    ensures others { result.1 ≡ slice_set parts 0 link }
{
    let mut items = parts.into_vec();
    let first = mem::replace(&mut items[0], link);
    (first, Row::from_vec(items))
}
