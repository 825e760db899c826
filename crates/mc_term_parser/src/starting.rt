ghost use Rattle.std.specs.Prelude.{◌≡◌, ◌+◌, ◌-◌, ◌≤◌, ◌<◌, ◌∷◌, [], length, drop, IfOk, IfSome, IfNone, Option, Some, List, Bool, true, false};
ghost use Rattle.mc_term_parser.specs.code.Views.{state, frames, part as part_seen, reading as seen, mark_of, number_next, minus_next, is_over};
ghost use Rattle.mc_term_parser.specs.Answers.{Shows};
ghost use Rattle.mc_term_parser.specs.Infixes.{prefix_role, prefix_of, starts, role};
ghost use Rattle.mc_term_parser.specs.code.Machine as M;
ghost use Rattle.mc_term_parser.specs.code.Arguments.{Reaches};
ghost use Rattle.mc_term_data.specs.Plain.{Var, Str};
ghost use Rattle.mc_term_parser.specs.code.Seen.{Seen, leaf, seen_making};
ghost use Rattle.mc_term_parser.specs.Part as P;
ghost use Rattle.mc_term_parser.specs.Reads.{ReadsTerm};
ghost use Rattle.mc_term_parser.specs.Tree.{Tree};
ghost use Rattle.mc_term_parser.specs.declared.lexeme.Lexeme.{Lexeme};

use crate::arguments::start_arguments;
use crate::frame::{Context, Frame, Machine, Mark, Operator, ParserPhase, ParserStack, Series};
use crate::infixes::Role;
use crate::lexeme::Lexeme;
use crate::reader::{closed, mark, name_row, step_done};
use crate::reading::{Reading, Readings};
use mc_base::{Copied, Memory, Row, Text};
use mc_operators::{Fix, infix, is, prefix};
use std::alloc::Global;

// Whether the token in a place starts a term.
fn starts(tokens: &[Lexeme], at: usize) -> bool
    ensures { result ≡ starts (drop at tokens.now) }
{
    if at >= tokens.len() {
        return false;
    }
    match &tokens[at] {
        Lexeme::Word(name, quoted, _) => {
            *quoted
                || infix(name.bytes()).is_none()
                || prefix(name.bytes()).is_some()
                || matches!(mark(tokens, at + 1), Mark::OpenCt)
        }
        Lexeme::Close | Lexeme::ListClose | Lexeme::Bar | Lexeme::Comma | Lexeme::Dot => false,
        _ => true,
    }
}

fn prefix_role(limit: u32, row: Option<(u32, Fix)>, next: bool) -> Role
    ensures { result ≡ prefix_role limit row next }
{
    match row {
        Some((number, fix)) if next && number <= limit => prefix_by(number, fix),
        _ => Role::Plain,
    }
}

fn prefix_by(number: u32, fix: Fix) -> Role
    ensures { result ≡ prefix_of number fix }
{
    match fix {
        Fix::Fx => Role::Single(number, number.saturating_sub(1)),
        Fix::Fy => Role::Single(number, number),
        Fix::Fxy => Role::Double(number),
        _ => Role::Plain,
    }
}

fn number_at(tokens: &[Lexeme], at: usize) -> Option<u64>
    ensures { result ≡ number_next (drop at tokens.now) }
{
    if at < tokens.len() {
        if let Lexeme::Int(value, _) = &tokens[at] {
            return Some(*value);
        }
    }
    None
}

// The number behind a minus sign.
fn minus_at(tokens: &[Lexeme], name: &[u8], at: usize) -> Option<u64>
    ensures { result ≡ minus_next name.now (drop at tokens.now) }
{
    if is(b"-", name) {
        number_at(tokens, at)
    } else {
        None
    }
}

// What a name is, before the tokens from a place on.
fn role(tokens: &[Lexeme], limit: u32, name: &[u8], at: usize) -> Role
    ensures { result ≡ role limit name.now (drop at tokens.now) }
{
    if let Mark::OpenCt = mark(tokens, at) {
        return Role::Compound;
    }
    if let Some(value) = minus_at(tokens, name, at) {
        return Role::Negative(value);
    }
    prefix_role(limit, prefix(name), starts(tokens, at))
}

// A name where a term starts, on a line; the parser is behind it.
fn start_word(
    alloc: Global,
    tokens: &[Lexeme],
    parser: ParserStack,
    name: &Text,
    line: u32,
    context: Context,
) -> Result<Machine, Memory>
    requires { parser.at ≤ length tokens.now }
    ensures { IfOk result
        (Reaches tokens.now
        (M.on_role seen_making context.commas context.limit (frames parser.stack.items) line
        (name.now ∷ []) (drop parser.at tokens.now)
        (role context.limit name.now (drop parser.at tokens.now)))) }
{
    let role = role(tokens, context.limit, name.bytes(), parser.at);
    start_name(
        alloc,
        tokens,
        parser,
        name_row(alloc, name)?,
        line,
        role,
        context,
    )
}

// The same by what the name is.
fn start_name(
    alloc: Global,
    tokens: &[Lexeme],
    parser: ParserStack,
    name: Row<Text>,
    line: u32,
    role: Role,
    context: Context,
) -> Result<Machine, Memory>
    requires { parser.at ≤ length tokens.now }
    ensures { IfOk result
        (Reaches tokens.now
        (M.on_role seen_making context.commas context.limit (frames parser.stack.items) line
        name (drop parser.at tokens.now) role)) }
{
    let commas = context.commas;
    match role {
        Role::Compound => start_compound(alloc, tokens, parser, name, line, context),
        Role::Negative(value) => Ok(start_negative(tokens, parser, line, value, context)),
        Role::Single(number, limit) => {
            let frame = Frame::Operand(Operator { line, name, number }, limit, context);
            Ok(parser.with(frame)?.start(Context { commas, limit }))
        }
        Role::Double(number) => {
            let frame = Frame::First(Operator { line, name, number }, context);
            let limit = number.saturating_sub(1);
            Ok(parser.with(frame)?.start(Context { commas, limit }))
        }
        Role::Plain => {
            let term = Reading::name(alloc, line, name);
            Ok(parser.done(context, closed(term)))
        }
    }
}

// A sign and its number.
fn start_negative(
    tokens: &[Lexeme],
    parser: ParserStack,
    line: u32,
    value: u64,
    context: Context,
) -> Machine
    requires { parser.at ≤ length tokens.now }
    ensures { state tokens.now result
        ≡ M.on_negative seen_making context.commas context.limit (frames parser.stack.items) line
        value (drop parser.at tokens.now) }
{
    if parser.at >= tokens.len() {
        return parser.refused();
    }
    let number = Reading::neg(line, value);
    parser.past().done(context, closed(number))
}

// A name and a bracket directly behind it.
fn start_compound(
    alloc: Global,
    tokens: &[Lexeme],
    parser: ParserStack,
    name: Row<Text>,
    line: u32,
    context: Context,
) -> Result<Machine, Memory>
    requires { parser.at ≤ length tokens.now }
    ensures { IfOk result
        (Reaches tokens.now
        (M.on_compound seen_making context.commas context.limit (frames parser.stack.items)
        line name (drop parser.at tokens.now))) }
{
    if parser.at >= tokens.len() {
        return Ok(parser.refused());
    }
    start_arguments(alloc, tokens, parser.past(), name, line, context)
}

// A qualified name; the parser is behind it.
fn start_path(
    alloc: Global,
    tokens: &[Lexeme],
    parser: ParserStack,
    name: Row<Text>,
    line: u32,
    context: Context,
) -> Result<Machine, Memory>
    requires { parser.at ≤ length tokens.now }
    ensures { IfOk result
        (Reaches tokens.now
        (M.on_path seen_making context.commas context.limit (frames parser.stack.items) line
        name (drop parser.at tokens.now))) }
{
    if let Mark::OpenCt = mark(tokens, parser.at) {
        return start_arguments(alloc, tokens, parser.past(), name, line, context);
    }
    let term = Reading::name(alloc, line, name);
    Ok(parser.done(context, closed(term)))
}

// A list; the parser is behind its bracket.
fn start_list(
    alloc: Global,
    tokens: &[Lexeme],
    parser: ParserStack,
    line: u32,
    context: Context,
) -> Result<Machine, Memory>
    requires { parser.at ≤ length tokens.now }
    ensures { IfOk result
        (λ m.
        state tokens.now m
        ≡ M.on_list seen_making context.commas context.limit (frames parser.stack.items) line
        (drop parser.at tokens.now)) }
{
    let none = Readings::none(alloc);
    if let Mark::ListClose = mark(tokens, parser.at) {
        let list = Reading::items(line, none)?;
        return Ok(parser.past().done(context, closed(list)));
    }
    let frame = Frame::Parts(Series::Elements, line, none, context);
    Ok(parser.with(frame)?.start(Context::ARGUMENT))
}

// A term in brackets; the parser is behind the first.
fn start_paren(
    tokens: &[Lexeme],
    parser: ParserStack,
    line: u32,
    context: Context,
) -> Result<Machine, Memory>
    ensures { IfOk result
        (λ m.
        state tokens.now m
        ≡ M.Start false 1200
        (M.InParen line context.commas context.limit ∷ frames parser.stack.items)
        (drop parser.at tokens.now)) }
{
    let _tokens = tokens;
    let frame = Frame::Paren(line, context);
    Ok(parser.with(frame)?.start(Context::WHOLE))
}

// A qualified name, of which there is one to copy.
fn start_qualified(
    alloc: Global,
    tokens: &[Lexeme],
    parser: ParserStack,
    name: &Row<Text>,
    line: u32,
    context: Context,
) -> Result<Machine, Memory>
    requires { parser.at ≤ length tokens.now }
    ensures { IfOk result
        (Reaches tokens.now
        (M.on_path seen_making context.commas context.limit (frames parser.stack.items) line
        name.now (drop parser.at tokens.now))) }
{
    let name = name.copied(alloc)?;
    start_path(alloc, tokens, parser, name, line, context)
}

// A variable; the parser is behind it.
fn start_var(
    alloc: Global,
    tokens: &[Lexeme],
    parser: ParserStack,
    name: &Text,
    line: u32,
    context: Context,
) -> Result<Machine, Memory>
    ensures { IfOk result
        (λ m.
        state tokens.now m
        ≡ M.Done context.commas context.limit (frames parser.stack.items)
        (P.closed (leaf line (Var name.now))) (drop parser.at tokens.now)) }
{
    let _tokens = tokens;
    let variable = Reading::var(line, name.copied(alloc)?);
    Ok(parser.done(context, closed(variable)))
}

// A string; the parser is behind it.
fn start_str(
    alloc: Global,
    tokens: &[Lexeme],
    parser: ParserStack,
    bytes: &Text,
    line: u32,
    context: Context,
) -> Result<Machine, Memory>
    ensures { IfOk result
        (λ m.
        state tokens.now m
        ≡ M.Done context.commas context.limit (frames parser.stack.items)
        (P.closed (leaf line (Str bytes.now))) (drop parser.at tokens.now)) }
{
    let _tokens = tokens;
    let string = Reading::str(line, bytes.copied(alloc)?);
    Ok(parser.done(context, closed(string)))
}

// A term that starts with a token; the parser is behind it.
fn start_with(
    alloc: Global,
    tokens: &[Lexeme],
    parser: ParserStack,
    token: &Lexeme,
    context: Context,
) -> Result<Machine, Memory>
    requires { parser.at ≤ length tokens.now }
    ensures { IfOk result
        (Reaches tokens.now
        (M.start seen_making context.commas context.limit (frames parser.stack.items)
        (token.now ∷ drop parser.at tokens.now))) }
{
    match token {
        Lexeme::Word(name, _, line) => start_word(alloc, tokens, parser, name, *line, context),
        Lexeme::Path(name, line) => { start_qualified(alloc, tokens, parser, name, *line, context) }
        Lexeme::Var(name, line) => start_var(alloc, tokens, parser, name, *line, context),
        Lexeme::Int(value, line) => {
            let number = Reading::int(*line, *value);
            Ok(parser.done(context, closed(number)))
        }
        Lexeme::Str(bytes, line) => start_str(alloc, tokens, parser, bytes, *line, context),
        Lexeme::Open(line) => start_paren(tokens, parser, *line, context),
        Lexeme::OpenCt(line) => start_paren(tokens, parser, *line, context),
        Lexeme::ListOpen(line) => start_list(alloc, tokens, parser, *line, context),
        _ => Ok(parser.refused()),
    }
}

fn start_at(
    alloc: Global,
    tokens: &[Lexeme],
    parser: ParserStack,
    context: Context,
) -> Result<Machine, Memory>
    requires { parser.at ≤ length tokens.now }
    ensures { IfOk result
        (Reaches tokens.now
        (M.start seen_making context.commas context.limit (frames parser.stack.items)
        (drop parser.at tokens.now))) }
{
    if parser.at >= tokens.len() {
        return Ok(parser.refused());
    }
    let token = &tokens[parser.at];
    start_with(alloc, tokens, parser.past(), token, context)
}

// A step of the machine, or more.
fn step(alloc: Global, tokens: &[Lexeme], machine: Machine) -> Result<Machine, Memory>
    ensures { IfOk result (Reaches tokens.now (M.step seen_making (state tokens.now machine))) }
{
    let Machine { phase, parser } = machine;
    let ParserStack { stack, at } = parser;
    let at = at.min(tokens.len());
    let parser = ParserStack { stack, at };
    match phase {
        ParserPhase::Start(context) => start_at(alloc, tokens, parser, context),
        ParserPhase::Done(context, part) => step_done(alloc, tokens, parser, part, context),
        ParserPhase::Yes(part) => Ok(Machine {
            phase: ParserPhase::Yes(part),
            parser,
        }),
        ParserPhase::No => Ok(parser.refused()),
    }
}

fn is_over(machine: &Machine) -> bool
    ensures { (tokens : List Lexeme) → result ≡ is_over (state tokens machine.now) }
{
    matches!(machine.phase, ParserPhase::Yes(_) | ParserPhase::No)
}

fn answer(machine: Machine) -> Option<Reading>
    ensures found { IfSome result
        (λ r.
        (tokens : List Lexeme)
        → (p : P.Part Seen) × (state tokens machine ≡ M.Yes p) × (p.tree ≡ seen r)) }
    ensures none { IfNone result
        ((tokens : List Lexeme)
        → is_over (state tokens machine) ≡ true
        → state tokens machine ≡ M.No) }
{
    let Machine { phase, .. } = machine;
    match phase {
        ParserPhase::Yes(part) => Some(part.reading),
        _ => None,
    }
}

/// What the tokens of an item stand for, None where they are no term.
pub fn read(alloc: Global, tokens: &[Lexeme]) -> Result<Option<Reading>, Memory>
    ensures found { IfOk result
        (λ answer. IfSome answer (λ r. (t : Tree) × ReadsTerm tokens.now t 1200 × Shows t r)) }
    ensures none { IfOk result (λ answer. IfNone answer ((t : Tree) → ReadsTerm tokens.now t 1200 → ⊥)) }
{
    let parser = ParserStack {
        stack: Vec::new(alloc),
        at: 0,
    };
    let mut machine = parser.start(Context::WHOLE);
    'run: while !is_over(&machine) {
        machine = step(alloc, tokens, machine)?;
    }
    Ok(answer(machine))
}
