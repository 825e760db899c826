ghost use Rattle.std.specs.Prelude.{◌≡◌, ℕ, List, IfSome};

use crate::replaced_first::replace_first;
use mc_base::{Row, Text};

/// A value of a run. (Mercury Language Reference Manual, chapters Types and Semantics.)
pub enum Value {
    Int(i64),
    Char(char),
    /// Bytes that are UTF-8.
    Str(Text),
    /// A constructor, by its number in the program, over its arguments.
    Con(u32, Row<Value>),
    /// A state of io: the bytes written so far, and the number of input bytes taken so far.
    Io(Text, u64),
}

/// A value is dropped by loops, without recursion and without memory: while the first argument of a constructor is taken
/// apart, what is left of the values above hangs in its place. So no value takes stack for its depth.
impl Drop for Value {
    fn drop(self) {
        let mut left = match self.into_args() {
            Some(args) => args,
            None => return,
        };
        'left: while let Some(last) = left.pop() {
            let mut value = last;
            'down: while let Some(args) = value.into_args() {
                if left.is_empty() {
                    drop(left);
                    left = args;
                    break 'down;
                }
                if args.is_empty() {
                    drop(args);
                    break 'down;
                }
                (value, left) = replace_first(args, Value::Con(0, left));
            }
        }
        drop(left);
    }
}

impl Value {
    /// The arguments of a constructor; None of any other value.
    pub fn into_args(self) -> Option<Row<Value>>
        ensures arguments { (symbol : ℕ) (args : List Value) → self ≡ Value.Con symbol args
            → result ≡ Some args }
        ensures no_other { IfSome result (λ args. (symbol : ℕ) × (self ≡ Value.Con symbol args)) }
    {
        match self {
            Value::Con(_, args) => Some(args),
            Value::Int(_) => None,
            Value::Char(_) => None,
            Value::Str(text) => {
                drop(text);
                None
            }
            Value::Io(written, _) => {
                drop(written);
                None
            }
        }
    }
}
