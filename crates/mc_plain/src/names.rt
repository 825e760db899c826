ghost use Rattle.std.specs.Prelude.{◌<◌, ◌↔◌, All, IsTrue};
ghost use Rattle.mc_program.specs.Values.{plain_value};
ghost use Rattle.mc_builtins.specs.Answers.{known};
ghost use Rattle.mc_plain.specs.Values.{IsConstant, IsProper, ListsAreNamed, ResultsAreNamed};
ghost use Rattle.mc_plain.specs.Names.{IsNamed, NamesAll};

use mc_builtins::Library;
use mc_flat_code::code::{Code, Instr};
use mc_model::builtin::Builtin;
use mc_model::program::Program;
use mc_program::value::Value;

/// Whether the program has all that the code names.
pub fn names_all(program: &Program, code: &Code) -> bool
    ensures { IsTrue result ↔ NamesAll program.now code.now }
{
    let library = Library::of(program);
    are_named(program.symbols.len(), &library, &code.instrs) && are_constants(&code.values)
}

/// Whether the symbols that goals make are among so many.
fn are_named(count: u32, library: &Library<'_>, goals: &Vec<Instr>) -> bool
    ensures { IsTrue result ↔ All (IsNamed count (known library.now)) goals.now.items }
{
    goals.iter().all(|goal| is_named(count, library, *goal))
}

fn is_named(count: u32, library: &Library<'_>, goal: Instr) -> bool
    ensures { IsTrue result ↔ IsNamed count (known library.now) goal }
{
    match goal {
        Instr::Made(_, symbol, _, _) => symbol < count,
        Instr::Apply(op, _, _, _) => {
            lists_are_named(count, library, op) && results_are_named(count, library, op)
        }
        _ => true,
    }
}

/// Whether the symbols of lists are among so many, where a builtin makes lists.
fn lists_are_named(count: u32, library: &Library<'_>, op: Builtin) -> bool
    ensures { IsTrue result ↔ ListsAreNamed count (known library.now) op }
{
    match op {
        Builtin::ToCharList => library.nil < count && library.cons < count,
        _ => true,
    }
}

/// Whether the symbols of what a reading gives are among so many, where a builtin reads.
fn results_are_named(count: u32, library: &Library<'_>, op: Builtin) -> bool
    ensures { IsTrue result ↔ ResultsAreNamed count (known library.now) op }
{
    match op {
        Builtin::ReadLine => library.ok < count && library.eof < count,
        _ => true,
    }
}

/// Whether each value is an integer, a character or a string of UTF-8.
fn are_constants(values: &Vec<Value>) -> bool
    ensures { IsTrue result
        ↔ All (λ v. IsConstant (plain_value v) × IsProper (plain_value v)) values.now.items }
{
    values.iter().all(|value| is_constant(value))
}

/// Whether a value is such a constant. That integers have 64 bits and characters are scalar values, their types say.
fn is_constant(value: &Value) -> bool
    ensures { IsTrue result
        ↔ IsConstant (plain_value value.now) × IsProper (plain_value value.now) }
{
    match value {
        Value::Int(number) => {
            let _number = *number;
            true
        }
        Value::Char(character) => {
            let _character = *character;
            true
        }
        Value::Str(text) => str::from_utf8(text.bytes()).is_ok(),
        _ => false,
    }
}
