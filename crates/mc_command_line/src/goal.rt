//! The text of a query.
ghost use Rattle.std.specs.Prelude.{◌≡◌, false, IfOk};
ghost use Rattle.mc_command_line.specs.Words.{is_blank, query_text, stops_after};

use mc_base::Memory;
use std::alloc::Global;

fn is_blank(byte: u8) -> bool
    ensures { result ≡ is_blank byte }
{
    (9 <= byte && byte <= 13) || byte == 32
}

/// Whether the last byte that isn't blank is a full stop.
fn stops(goal: &[u8]) -> bool
    ensures { result ≡ stops_after false goal.now }
{
    let mut stops = false;
    for byte in goal {
        if !is_blank(*byte) {
            stops = *byte == b'.';
        }
    }
    stops
}

/// The text of a query: the goal and a line end where its last byte that isn't blank is a full stop, else the goal, a blank, a full
/// stop and a line end.
pub fn query_text(alloc: Global, goal: &str) -> Result<Vec<u8>, Memory>
    ensures { IfOk result (λ text. text.items ≡ query_text goal.now) }
{
    let mut text = goal.as_bytes().to_vec(alloc)?;
    if stops(goal.as_bytes()) {
        text.extend_from_slice(b"\n")?;
    } else {
        text.extend_from_slice(b" .\n")?;
    }
    Ok(text)
}
