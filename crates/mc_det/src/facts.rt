ghost use Rattle.std.specs.Prelude.{◌≡◌, ◌++◌, ◌∷◌, [], MatchOption, Some, None};
ghost use Rattle.mc_program.specs.Values.{plain_value, same_value};
ghost use Rattle.mc_model.specs.PlainGoals.{plain_label};
ghost use Rattle.mc_accepted.specs.Determined.{knows_symbol, knows_constant};
ghost use Rattle.mc_det.specs.code.Facts.{known_in};

use mc_model::sched::On;
use mc_program::same::same_value;
use mc_program::value::Value;

/// What is known of a variable in an arm of a switch on it.
#[derive(Drop)]
pub struct Fact {
    pub variable: u32,
    pub on: On,
}

/// Takes the last fact off.
pub fn last_fact(facts: &mut Vec<Fact>) -> Option<Fact>
    ensures { MatchOption result (facts.old.items ≡ []) (λ last. facts.old.items ≡ facts.new.items ++ last ∷ []) }
{
    facts.pop()
}

/// Whether a variable is known to have a symbol.
pub fn has_symbol(facts: &[Fact], x: u32, symbol: u32) -> bool
    ensures { result ≡ knows_symbol (known_in facts.now x) symbol }
{
    match last_on(facts, x) {
        Some(on) => is_symbol(on, symbol),
        None => false,
    }
}

/// Whether a variable is known to be a constant.
pub fn has_constant(facts: &[Fact], x: u32, value: &Value) -> bool
    ensures { result ≡ knows_constant (known_in facts.now x) (plain_value value.now) }
{
    match last_on(facts, x) {
        Some(on) => is_constant(on, value),
        None => false,
    }
}

/// Whether an arm is for a constant.
fn is_constant(on: &On, value: &Value) -> bool
    ensures { result ≡ knows_constant (Some (plain_label on.now)) (plain_value value.now) }
{
    match on {
        On::Symbol(_) => false,
        On::Const(constant) => equal(constant, value),
    }
}

/// Whether two values are equal.
fn equal(a: &Value, b: &Value) -> bool
    ensures { result ≡ same_value (plain_value a.now) (plain_value b.now) }
{
    same_value(a, b)
}

/// Whether an arm is for a symbol.
fn is_symbol(on: &On, symbol: u32) -> bool
    ensures { result ≡ knows_symbol (Some (plain_label on.now)) symbol }
{
    match on {
        On::Symbol(f) => *f == symbol,
        On::Const(_) => false,
    }
}

/// What the last arm on a variable is for.
fn last_on(facts: &[Fact], x: u32) -> Option<&On>
    ensures { MatchOption result (known_in facts.now x ≡ None)
        (λ on. known_in facts.now x ≡ Some (plain_label on.now)) }
{
    let mut n = facts.len();
    while n > 0 {
        n -= 1;
        let fact = &facts[n];
        if fact.variable == x {
            return Some(&fact.on);
        }
    }
    None
}
