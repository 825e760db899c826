ghost use Rattle.std.specs.Prelude.{◌<◌, ◌+◌, ◌^◌, length};

use crate::heap::Ref;
use mc_base::Row;
use mc_program::value::Value;

/// A constructor that is being copied: the copies of the arguments before the one at hand, and the Refs of those behind
/// it.
#[derive(Drop)]
pub struct Part<'h> {
    pub symbol: u32,
    pub done: Row<Value>,
    pub rest: &'h [Ref],
    pub ghost has_room: { length done + 1 + length rest.now < 2 ^ 32 },
}
