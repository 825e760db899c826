// The arguments of a name: those of one token each are read at once, without a step of the machine
// for each of them.
ghost use Rattle.std.specs.Prelude.{◌≡◌, ◌+◌, ◌≤◌, ◌∷◌, length, drop, IfOk, IfSome, Some, true};
ghost use Rattle.mc_term_parser.specs.declared.frame.Series.TheVariants.{Arguments};
ghost use Rattle.mc_term_parser.specs.code.Machine as M;
ghost use Rattle.mc_term_parser.specs.code.Seen.{SeenRow, no_seen, seen_then};
ghost use Rattle.mc_term_parser.specs.code.Views.{frames, reading as seen, readings as seen_row};
ghost use Rattle.mc_term_parser.specs.code.Arguments.{alone, ReadsArguments, Reaches};

use crate::frame::{Context, Frame, Machine, Mark, ParserStack, Series};
use crate::lexeme::Lexeme;
use crate::reader::{closed, mark, name_row};
use crate::reading::{Reading, Readings};
use mc_base::{Copied, Memory, Row, Text};
use std::alloc::Global;

// An argument of one token, and whether the closing bracket stands behind it.
#[derive(Drop)]
struct Argument {
    reading: Reading,
    is_last: bool,
}

// The arguments of one token each up to a place, and whether the closing bracket stands before it.
#[derive(Drop)]
struct ArgumentsRead {
    parts: Readings,
    at: usize,
    is_closed: bool,
}

// How many arguments begin in a place, where each is one token; 0 where one isn't.
fn flat_count(tokens: &[Lexeme], at: usize) -> usize
    requires { at ≤ length tokens.now }
    ensures { result ≤ length tokens.now }
{
    let mut count = 1;
    let mut behind = at + 1;
    while behind < tokens.len() {
        match &tokens[behind] {
            Lexeme::Comma => {
                count += 1;
                behind += 2;
            }
            Lexeme::Close => return count,
            _ => return 0,
        }
    }
    0
}

// What a token is alone, before a comma or a closing bracket.
fn alone(alloc: Global, token: &Lexeme) -> Result<Option<Reading>, Memory>
    ensures { IfOk result (λ one. IfSome one (λ r. alone token.now ≡ Some (seen r))) }
{
    match token {
        Lexeme::Word(name, _, line) => {
            let name = name_row(alloc, name)?;
            Ok(Some(Reading::name(alloc, *line, name)))
        }
        Lexeme::Var(name, line) => Ok(Some(Reading::var(*line, name.copied(alloc)?))),
        Lexeme::Int(value, line) => Ok(Some(Reading::int(*line, *value))),
        Lexeme::Str(bytes, line) => Ok(Some(Reading::str(*line, bytes.copied(alloc)?))),
        _ => Ok(None),
    }
}

// The argument that a token is alone, where it is one.
fn lone_argument(alloc: Global, token: &Lexeme, is_last: bool) -> Result<Option<Argument>, Memory>
    ensures { IfOk result
        (λ one.
        IfSome one (λ s. (alone token.now ≡ Some (seen s.reading)) × (s.is_last ≡ is_last))) }
{
    match alone(alloc, token)? {
        Some(reading) => Ok(Some(Argument { reading, is_last })),
        None => Ok(None),
    }
}

// The argument in a place, where it is one token.
fn argument_at(alloc: Global, tokens: &[Lexeme], at: usize) -> Result<Option<Argument>, Memory>
    requires { at ≤ length tokens.now }
    ensures reads { IfOk result
        (λ one.
        IfSome one
        (λ s.
        (ms : SeenRow)
        → ReadsArguments ms (drop at tokens.now) s.is_last (seen_then ms (seen s.reading))
        (drop (at + 2) tokens.now))) }
    ensures within { IfOk result (λ one. IfSome one (λ s. at + 2 ≤ length tokens.now)) }
{
    match mark(tokens, at + 1) {
        Mark::Comma => lone_argument(alloc, &tokens[at], false),
        Mark::Close => lone_argument(alloc, &tokens[at], true),
        _ => Ok(None),
    }
}

// The arguments from a place on, up to the first that isn't one token, or to the closing bracket.
fn leading_arguments(alloc: Global, tokens: &[Lexeme], from: usize) -> Result<ArgumentsRead, Memory>
    requires { from ≤ length tokens.now }
    ensures reads { IfOk result
        (λ s.
        ReadsArguments no_seen (drop from tokens.now) s.is_closed (seen_row s.parts)
        (drop s.at tokens.now)) }
    ensures within { IfOk result (λ s. s.at ≤ length tokens.now) }
{
    let mut parts = Readings::with_room(alloc, flat_count(tokens, from))?;
    let mut at = from;
    'arguments: loop {
        match argument_at(alloc, tokens, at)? {
            None => {
                return Ok(ArgumentsRead {
                    parts,
                    at,
                    is_closed: false,
                });
            }
            Some(argument) => {
                parts = parts.then(argument.reading)?;
                at += 2;
                if argument.is_last {
                    return Ok(ArgumentsRead {
                        parts,
                        at,
                        is_closed: true,
                    });
                }
            }
        }
    }
}

// The arguments of a name; the parser is behind the bracket.
pub fn start_arguments(
    alloc: Global,
    tokens: &[Lexeme],
    parser: ParserStack,
    name: Row<Text>,
    line: u32,
    context: Context,
) -> Result<Machine, Memory>
    requires { parser.at ≤ length tokens.now }
    ensures { IfOk result
        (Reaches tokens.now
        (M.Start true 1200
        (M.InParts (Arguments name) line no_seen context.commas context.limit
        ∷ frames parser.stack.items) (drop parser.at tokens.now))) }
{
    let read = leading_arguments(alloc, tokens, parser.at)?;
    let parser = ParserStack {
        stack: parser.stack,
        at: read.at,
    };
    if read.is_closed {
        let term = Reading::app(line, name, read.parts)?;
        return Ok(parser.done(context, closed(term)));
    }
    let frame = Frame::Parts(Series::Arguments(name), line, read.parts, context);
    Ok(parser.with(frame)?.start(Context::ARGUMENT))
}
