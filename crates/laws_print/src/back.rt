ghost use Rattle.std.specs.Prelude.{◌≡◌, ℕ, ◌≤◌, IfOk, IfSome, IfNone, IsSomeAnd};
ghost use Rattle.mc_program.specs.Values.{plain_value};
ghost use Rattle.mc_program.specs.Printed.{Names, names_of};
ghost use Rattle.mc_term_data.specs.Plain.{plain_term};
ghost use Rattle.mc_terms.specs.Answers.{IsItem};
ghost use Rattle.laws_print.specs.Terms.{term_of, HasText, depth_of};
ghost use Rattle.laws_print.specs.Whole.{item_text, IsUnread};

use crate::printed_values_read_back;
use mc_base::Memory;
use mc_print::printed;
use mc_program::program::Program;
use mc_program::value::Value;
use mc_term_data::Term;
use mc_terms::{ReadKind, read_term};
use std::alloc::Global;

/// The term that a value's text with a full stop and a line end is read as, or None where it is refused: the value's
/// own term, where its strings and names are UTF-8 and that term is at most 256 deep.
pub fn read_back(alloc: Global, v: &Value, program: &Program) -> Result<Option<Term>, Memory>
    requires { Names program.now (plain_value v.now) }
    ensures item { IfOk result
        (λ answer. IfSome answer (λ term. (next : ℕ)
        × IsItem (item_text (names_of program.now) (plain_value v.now)) 0 term next)) }
    ensures refused { IfOk result
        (λ answer.
        IfNone answer (IsUnread (item_text (names_of program.now) (plain_value v.now)))) }
    ensures back { HasText (names_of program.now) (plain_value v.now)
        → depth_of (term_of (names_of program.now) 1 (plain_value v.now)) ≤ 256
        → IfOk result
        (λ answer.
        IsSomeAnd answer
        (λ term. plain_term term ≡ term_of (names_of program.now) 1 (plain_value v.now))) }
{
    printed_values_read_back();
    let mut text = printed(alloc, v, program)?;
    text.extend(b".\n")?;
    if text.len() == u32::MAX {
        return Err(Memory);
    }
    match read_term(alloc, text.bytes(), 0) {
        Ok(Some((term, _))) => Ok(Some(term)),
        Ok(None) => Ok(None),
        Err(fault) => match fault.kind {
            ReadKind::Memory => Err(Memory),
            _ => Ok(None),
        },
    }
}
