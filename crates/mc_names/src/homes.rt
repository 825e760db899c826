ghost use Rattle.std.specs.Prelude.{◌≡◌, ◌<◌, ◌^◌, length};
ghost use Rattle.mc_names.specs.Linked.{plain_named, plain_names, module_from, defining_module};

use crate::names::{Named, Names, Scope};

/// The number of the module in which a type is defined.
pub fn defining_module(names: &Names, named: &Named) -> u32
    ensures { result ≡ defining_module (plain_names names.now) (plain_named named.now) }
{
    module_named(names.scopes.as_slice(), named.name.module.bytes())
}

// The number of the first module of a name, or one past the last.
fn module_named(scopes: &[Scope], name: &[u8]) -> u32
    requires { length scopes.now < 2 ^ 32 }
    ensures { result ≡ module_from 0 name.now scopes.now }
{
    let mut number = 0;
    for scope in scopes {
        if scope.module.bytes() == name {
            return number;
        }
        number += 1;
    }
    number
}
