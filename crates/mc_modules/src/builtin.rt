ghost use Rattle.std.specs.Prelude.{◌≡◌};
ghost use Rattle.mc_names.specs.Plain.{plain_name_arity, is_name_arity, id as id_of};
ghost use Rattle.mc_modules.specs.Visible.{is_builtin};

use mc_names::{Kind, NameArity};

/// Whether a name is a type, an inst or a mode that every module sees.
pub fn is_builtin(kind: Kind, id: &NameArity<'_>) -> bool
    ensures { result ≡ is_builtin kind (plain_name_arity id.now) }
{
    match kind {
        Kind::DefinedType => is(id, b"int", 0) || is(id, b"char", 0) || is(id, b"string", 0),
        Kind::Inst => {
            is(id, b"free", 0)
                || is(id, b"ground", 0)
                || is(id, b"unique", 0)
                || is(id, b"dead", 0)
                || is(id, b"clobbered", 0)
        }
        Kind::Mode => {
            is(id, b"in", 0)
                || is(id, b"out", 0)
                || is(id, b"di", 0)
                || is(id, b"uo", 0)
                || is(id, b"in", 1)
                || is(id, b"out", 1)
        }
        _ => false,
    }
}

fn is(id: &NameArity<'_>, name: &[u8], arity: usize) -> bool
    ensures { result ≡ is_name_arity (plain_name_arity id.now) (id_of name.now arity) }
{
    id.arity == arity && id.name == name
}
