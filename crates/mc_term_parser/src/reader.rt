ghost use Rattle.std.specs.Prelude.{◌≡◌, ◌-◌, ◌+◌, ◌≤◌, ◌<◌, ◌^◌, ◌∷◌, [], length, drop, IfOk, Some};
ghost use Rattle.mc_term_parser.specs.code.Views.{state, frames, frame as frame_seen, part as part_seen, reading as seen, readings as seen_row, mark_of, infix_next, name_next, separates};
ghost use Rattle.mc_term_parser.specs.Infixes.{joined_by, infix_of as infix_from, binary_of, operand, rank};
ghost use Rattle.mc_term_parser.specs.code.Machine as M;
ghost use Rattle.mc_term_parser.specs.code.Seen.{seen_making, seen_app, seen_then, no_seen, line_seen};
ghost use Rattle.mc_term_parser.specs.Part as P;

use crate::frame::{
    Context, Frame, Machine, Mark, Operator, ParserPhase, ParserStack, Part, Series,
};
use crate::infixes::{Chain, Infix};
use crate::lexeme::Lexeme;
use crate::reading::{Reading, Readings};
use mc_base::{Copied, Memory, Row, Text};
use mc_operators::{Fix, infix, is};
use std::alloc::Global;

// What stands in a place.
pub fn mark(tokens: &[Lexeme], at: usize) -> Mark
    ensures { result ≡ mark_of (drop at tokens.now) }
{
    if at >= tokens.len() {
        return Mark::Nothing;
    }
    match &tokens[at] {
        Lexeme::Close => Mark::Close,
        Lexeme::ListClose => Mark::ListClose,
        Lexeme::Bar => Mark::Bar,
        Lexeme::Comma => Mark::Comma,
        Lexeme::OpenCt(_) => Mark::OpenCt,
        _ => Mark::Other,
    }
}

// A term that nothing can change any more.
pub fn closed(reading: Reading) -> Part
    ensures { part_seen result ≡ P.closed (seen reading) }
{
    Part {
        reading,
        number: 0,
        reach: 0,
    }
}

impl ParserStack {
    // The parser at the token after the next one.
    pub fn past(self) -> ParserStack
        requires { self.at < 2 ^ 63 }
        ensures { result ≡ record { stack = self.stack; at = self.at + 1 } }
    {
        ParserStack {
            stack: self.stack,
            at: self.at + 1,
        }
    }

    // The parser with a frame on top.
    pub fn with(self, frame: Frame) -> Result<ParserStack, Memory>
        ensures frames { IfOk result
            (λ parser. frames parser.stack.items ≡ frame_seen frame ∷ frames self.stack.items) }
        ensures at { IfOk result (λ parser. parser.at ≡ self.at) }
    {
        let mut stack = self.stack;
        stack.push(frame)?;
        Ok(ParserStack { stack, at: self.at })
    }

    // The machine where a part starts.
    pub fn start(self, context: Context) -> Machine
        ensures { result ≡ record { phase = ParserPhase.Start context; parser = self } }
    {
        Machine {
            phase: ParserPhase::Start(context),
            parser: self,
        }
    }

    // The machine where a part is read.
    pub fn done(self, context: Context, part: Part) -> Machine
        ensures { result ≡ record { phase = ParserPhase.Done context part; parser = self } }
    {
        Machine {
            phase: ParserPhase::Done(context, part),
            parser: self,
        }
    }

    // The machine where the tokens are no term.
    pub fn refused(self) -> Machine
        ensures { result ≡ record { phase = ParserPhase.No; parser = self } }
    {
        Machine {
            phase: ParserPhase::No,
            parser: self,
        }
    }
}

impl Operator {
    // The term over one operand, which was read up to a number.
    pub fn over_one(self, alloc: Global, operand: Reading, reach: u32) -> Result<Part, Memory>
        ensures { IfOk result
            (λ p.
            part_seen p
            ≡ P.over self.number reach
            (seen_app self.line self.name (M.one seen_making (seen operand)))) }
    {
        let operands = Readings::one(alloc, operand)?;
        Ok(Part {
            reading: Reading::app(self.line, self.name, operands)?,
            number: self.number,
            reach,
        })
    }

    // The term over two operands, the last of which was read up to a number.
    pub fn over_two(
        self,
        alloc: Global,
        left: Reading,
        right: Reading,
        reach: u32,
    ) -> Result<Part, Memory>
        ensures { IfOk result
            (λ p.
            part_seen p
            ≡ P.over self.number reach
            (seen_app self.line self.name (M.two seen_making (seen left) (seen right)))) }
    {
        let operands = Readings::two(alloc, left, right)?;
        Ok(Part {
            reading: Reading::app(self.line, self.name, operands)?,
            number: self.number,
            reach,
        })
    }
}

// A bracketed term is read: a closing bracket follows, or the tokens are no term.
fn after_paren(
    tokens: &[Lexeme],
    parser: ParserStack,
    line: u32,
    inside: Reading,
    outer: Context,
) -> Machine
    requires { parser.at ≤ length tokens.now }
    ensures { state tokens.now result
        ≡ M.after_paren seen_making outer.commas outer.limit (frames parser.stack.items) line
        (seen inside) (drop parser.at tokens.now) }
{
    match mark(tokens, parser.at) {
        Mark::Close => parser.past().done(outer, closed(inside.inside(line))),
        _ => parser.refused(),
    }
}

// What follows the bar of a list is read: the list's end follows, or the tokens are no term.
fn after_tail(
    alloc: Global,
    tokens: &[Lexeme],
    parser: ParserStack,
    line: u32,
    items: Readings,
    tail: Reading,
    outer: Context,
) -> Result<Machine, Memory>
    requires { parser.at ≤ length tokens.now }
    ensures { IfOk result
        (λ m.
        state tokens.now m
        ≡ M.after_tail seen_making outer.commas outer.limit (frames parser.stack.items) line
        (seen_row items) (seen tail) (drop parser.at tokens.now)) }
{
    match mark(tokens, parser.at) {
        Mark::ListClose => {
            let list = Reading::tailed(alloc, line, items, tail)?;
            Ok(parser.past().done(outer, closed(list)))
        }
        _ => Ok(parser.refused()),
    }
}

// An argument is read.
fn after_argument(
    tokens: &[Lexeme],
    parser: ParserStack,
    name: Row<Text>,
    line: u32,
    parts: Readings,
    outer: Context,
    commas: bool,
) -> Result<Machine, Memory>
    requires { parser.at ≤ length tokens.now }
    ensures { IfOk result
        (λ m.
        state tokens.now m
        ≡ M.parts seen_making (Series.Arguments name) line (seen_row parts) outer.commas
        outer.limit (frames parser.stack.items) commas (drop parser.at tokens.now)) }
{
    let _commas = commas;
    match mark(tokens, parser.at) {
        Mark::Comma => {
            let frame = Frame::Parts(Series::Arguments(name), line, parts, outer);
            Ok(parser.past().with(frame)?.start(Context::ARGUMENT))
        }
        Mark::Close => {
            let term = Reading::app(line, name, parts)?;
            Ok(parser.past().done(outer, closed(term)))
        }
        _ => Ok(parser.refused()),
    }
}

// An element of a list is read.
fn after_element(
    tokens: &[Lexeme],
    parser: ParserStack,
    line: u32,
    parts: Readings,
    outer: Context,
    commas: bool,
) -> Result<Machine, Memory>
    requires { parser.at ≤ length tokens.now }
    ensures { IfOk result
        (λ m.
        state tokens.now m
        ≡ M.parts seen_making Series.Elements line (seen_row parts) outer.commas outer.limit
        (frames parser.stack.items) commas (drop parser.at tokens.now)) }
{
    let _commas = commas;
    match mark(tokens, parser.at) {
        Mark::Comma => {
            let frame = Frame::Parts(Series::Elements, line, parts, outer);
            Ok(parser.past().with(frame)?.start(Context::ARGUMENT))
        }
        Mark::ListClose => {
            let list = Reading::items(line, parts)?;
            Ok(parser.past().done(outer, closed(list)))
        }
        Mark::Bar => {
            let frame = Frame::Tail(line, parts, outer);
            Ok(parser.past().with(frame)?.start(Context::ARGUMENT))
        }
        _ => Ok(parser.refused()),
    }
}

// What a token joins the term before it to.
#[tactic(auto, unfolding(crate::specs::Infixes::joined_by))]
fn infix_of(commas: bool, token: &Lexeme) -> Infix
    ensures { result ≡ joined_by commas token.now }
{
    match token {
        Lexeme::Word(name, _, _) => match infix(name.bytes()) {
            None => Infix::Nothing,
            Some((number, fix)) => infix_by(name.bytes(), number, fix),
        },
        Lexeme::Comma => {
            if commas {
                Infix::Nothing
            } else {
                Infix::Chains(Chain::And)
            }
        }
        _ => Infix::Nothing,
    }
}

fn infix_by(name: &[u8], number: u32, fix: Fix) -> Infix
    ensures { result ≡ infix_from name.now (Some (number, fix)) }
{
    if is(b",", name) {
        return Infix::Chains(Chain::And);
    }
    if is(b";", name) {
        return Infix::Chains(Chain::Or);
    }
    binary_by(number, fix)
}

fn binary_by(number: u32, fix: Fix) -> Infix
    ensures { result ≡ binary_of number fix }
{
    match fix {
        Fix::Xfx => Infix::Binary(number, false, false),
        Fix::Xfy => Infix::Binary(number, false, true),
        Fix::Yfx => Infix::Binary(number, true, false),
        _ => Infix::Nothing,
    }
}

fn infix_at(tokens: &[Lexeme], commas: bool, at: usize) -> Infix
    ensures { result ≡ infix_next commas (drop at tokens.now) }
{
    if at >= tokens.len() {
        return Infix::Nothing;
    }
    infix_of(commas, &tokens[at])
}

fn rank(kind: Chain) -> u32
    ensures { result ≡ rank kind }
{
    match kind {
        Chain::And => 1000,
        Chain::Or => 1100,
    }
}

fn operand(y: bool, number: u32) -> u32
    ensures { result ≡ operand y number }
{
    if y { number } else { number.saturating_sub(1) }
}

// A name of one part.
pub fn name_row(alloc: Global, name: &Text) -> Result<Row<Text>, Memory>
    ensures { IfOk result (λ row. row ≡ name.now ∷ []) }
{
    Row::one(alloc, name.copied(alloc)?)
}

// The name of an operator.
fn name_at(alloc: Global, tokens: &[Lexeme], at: usize) -> Result<Row<Text>, Memory>
    ensures { IfOk result (λ row. row ≡ name_next (drop at tokens.now)) }
{
    if at < tokens.len() {
        if let Lexeme::Word(name, _, _) = &tokens[at] {
            return name_row(alloc, name);
        }
    }
    Ok(Row::new(alloc))
}

// Whether an infix is the separator of a chain of this kind.
fn goes_on(join: Infix, kind: Chain) -> bool
    ensures { result ≡ separates kind join }
{
    match join {
        Infix::Chains(other) => matches!(
            (kind, other),
            (Chain::And, Chain::And) | (Chain::Or, Chain::Or)
        ),
        _ => false,
    }
}

// A part of a chain is read: the chain goes on, or it ends.
fn on_chain(
    tokens: &[Lexeme],
    parser: ParserStack,
    kind: Chain,
    line: u32,
    parts: Readings,
    outer: Context,
    commas: bool,
) -> Result<Machine, Memory>
    requires { parser.at ≤ length tokens.now }
    ensures { IfOk result
        (λ m.
        state tokens.now m
        ≡ M.parts seen_making (Series.Chained kind) line (seen_row parts) outer.commas
        outer.limit (frames parser.stack.items) commas (drop parser.at tokens.now)) }
{
    let number = rank(kind);
    if goes_on(infix_at(tokens, commas, parser.at), kind) {
        let frame = Frame::Parts(Series::Chained(kind), line, parts, outer);
        let limit = number - 1;
        return Ok(parser.past().with(frame)?.start(Context { commas, limit }));
    }
    let part = Part {
        reading: Reading::chain(kind, line, parts)?,
        number,
        reach: number,
    };
    Ok(parser.done(outer, part))
}

// A part of a row is read, behind those before it.
fn after_part(
    tokens: &[Lexeme],
    parser: ParserStack,
    series: Series,
    line: u32,
    before: Readings,
    part: Reading,
    outer: Context,
    commas: bool,
) -> Result<Machine, Memory>
    requires { parser.at ≤ length tokens.now }
    ensures { IfOk result
        (λ m.
        state tokens.now m
        ≡ M.parts seen_making series line (seen_then (seen_row before) (seen part))
        outer.commas outer.limit (frames parser.stack.items) commas
        (drop parser.at tokens.now)) }
{
    let parts = before.then(part)?;
    match series {
        Series::Arguments(name) => after_argument(tokens, parser, name, line, parts, outer, commas),
        Series::Elements => after_element(tokens, parser, line, parts, outer, commas),
        Series::Chained(kind) => on_chain(tokens, parser, kind, line, parts, outer, commas),
    }
}

// The last of two operands is read, up to a number.
fn after_right(
    alloc: Global,
    tokens: &[Lexeme],
    parser: ParserStack,
    operator: Operator,
    left: Reading,
    right: Reading,
    reach: u32,
    outer: Context,
) -> Result<Machine, Memory>
    ensures { IfOk result
        (λ m.
        state tokens.now m
        ≡ M.Done outer.commas outer.limit (frames parser.stack.items)
        (P.over operator.number reach
        (seen_app operator.line operator.name (M.two seen_making (seen left) (seen right))))
        (drop parser.at tokens.now)) }
{
    let _tokens = tokens;
    let part = operator.over_two(alloc, left, right, reach)?;
    Ok(parser.done(outer, part))
}

// The one operand is read, up to a number.
fn after_operand(
    alloc: Global,
    tokens: &[Lexeme],
    parser: ParserStack,
    operator: Operator,
    operand: Reading,
    reach: u32,
    outer: Context,
) -> Result<Machine, Memory>
    ensures { IfOk result
        (λ m.
        state tokens.now m
        ≡ M.Done outer.commas outer.limit (frames parser.stack.items)
        (P.over operator.number reach
        (seen_app operator.line operator.name (M.one seen_making (seen operand))))
        (drop parser.at tokens.now)) }
{
    let _tokens = tokens;
    let part = operator.over_one(alloc, operand, reach)?;
    Ok(parser.done(outer, part))
}

// The first of two operands is read: the second begins, where nothing joins the first to what
// follows.
fn at_first(
    tokens: &[Lexeme],
    parser: ParserStack,
    operator: Operator,
    first: Reading,
    outer: Context,
    commas: bool,
) -> Result<Machine, Memory>
    requires { parser.at ≤ length tokens.now }
    ensures { IfOk result
        (λ m.
        state tokens.now m
        ≡ M.at_first seen_making commas operator.number operator.line (seen first)
        operator.name outer.commas outer.limit (frames parser.stack.items)
        (drop parser.at tokens.now)) }
{
    if parser.at < tokens.len() {
        if let Infix::Nothing = infix_at(tokens, commas, parser.at) {
            let limit = operator.number;
            let frame = Frame::Second(operator, first, outer);
            return Ok(parser.with(frame)?.start(Context { commas, limit }));
        }
    }
    Ok(parser.refused())
}

// No frame waits: the tokens are over, or they are no term.
fn finish(tokens: &[Lexeme], parser: ParserStack, part: Part) -> Machine
    requires { parser.at ≤ length tokens.now }
    ensures { state tokens.now result ≡ M.finish (part_seen part) (drop parser.at tokens.now) }
{
    if parser.at < tokens.len() {
        return parser.refused();
    }
    Machine {
        phase: ParserPhase::Yes(part),
        parser,
    }
}

// A part ends here, and the top frame takes it.
fn reduce(
    alloc: Global,
    tokens: &[Lexeme],
    parser: ParserStack,
    part: Part,
    commas: bool,
) -> Result<Machine, Memory>
    requires { parser.at ≤ length tokens.now }
    ensures { IfOk result
        (λ m.
        state tokens.now m
        ≡ M.reduce seen_making commas (frames parser.stack.items) (part_seen part)
        (drop parser.at tokens.now)) }
{
    let ParserStack { mut stack, at } = parser;
    match stack.pop() {
        None => Ok(finish(tokens, ParserStack { stack, at }, part)),
        Some(frame) => reduce_in(
            alloc,
            tokens,
            ParserStack { stack, at },
            frame,
            part,
            commas,
        ),
    }
}

fn reduce_in(
    alloc: Global,
    tokens: &[Lexeme],
    parser: ParserStack,
    frame: Frame,
    part: Part,
    commas: bool,
) -> Result<Machine, Memory>
    requires { parser.at ≤ length tokens.now }
    ensures { IfOk result
        (λ m.
        state tokens.now m
        ≡ M.reduce seen_making commas (frame_seen frame ∷ frames parser.stack.items)
        (part_seen part) (drop parser.at tokens.now)) }
{
    let reading = part.reading;
    match frame {
        Frame::Right(operator, limit, left, outer) => {
            after_right(alloc, tokens, parser, operator, left, reading, limit, outer)
        }
        Frame::Operand(operator, limit, outer) => {
            after_operand(alloc, tokens, parser, operator, reading, limit, outer)
        }
        Frame::First(operator, outer) => {
            at_first(tokens, parser, operator, reading, outer, commas)
        }
        Frame::Second(operator, left, outer) => {
            let limit = operator.number;
            after_right(alloc, tokens, parser, operator, left, reading, limit, outer)
        }
        Frame::Paren(line, outer) => Ok(after_paren(tokens, parser, line, reading, outer)),
        Frame::Parts(series, line, parts, outer) => {
            after_part(tokens, parser, series, line, parts, reading, outer, commas)
        }
        Frame::Tail(line, items, outer) => {
            after_tail(alloc, tokens, parser, line, items, reading, outer)
        }
    }
}

// What waits for the right operand, up to a limit, of the operator in a place.
fn right_frame(
    alloc: Global,
    tokens: &[Lexeme],
    at: usize,
    left: Reading,
    number: u32,
    limit: u32,
    outer: Context,
) -> Result<Frame, Memory>
    ensures { IfOk result
        (λ f.
        frame_seen f
        ≡ M.AtRight (line_seen (seen left).value) (name_next (drop at tokens.now)) number limit
        (seen left) outer.commas outer.limit) }
{
    let name = name_at(alloc, tokens, at)?;
    let line = left.line();
    Ok(Frame::Right(Operator { line, name, number }, limit, left, outer))
}

// The infix operator that stands next takes a part as its left operand.
fn join_right(
    alloc: Global,
    tokens: &[Lexeme],
    parser: ParserStack,
    left: Reading,
    number: u32,
    limit: u32,
    outer: Context,
) -> Result<Machine, Memory>
    requires { parser.at ≤ length tokens.now }
    ensures { IfOk result
        (λ m.
        state tokens.now m
        ≡ M.Start outer.commas limit
        (M.AtRight (line_seen (seen left).value) (name_next (drop parser.at tokens.now)) number
        limit (seen left) outer.commas outer.limit ∷ frames parser.stack.items)
        (drop (parser.at + 1) tokens.now)) }
{
    let commas = outer.commas;
    let frame = right_frame(alloc, tokens, parser.at, left, number, limit, outer)?;
    Ok(parser.past().with(frame)?.start(Context { commas, limit }))
}

// The separator that stands next takes a part as the first of a chain.
fn join_chain(
    alloc: Global,
    tokens: &[Lexeme],
    parser: ParserStack,
    first: Reading,
    kind: Chain,
    outer: Context,
) -> Result<Machine, Memory>
    requires { parser.at ≤ length tokens.now }
    ensures { IfOk result
        (λ m.
        state tokens.now m
        ≡ M.Start outer.commas (rank kind - 1)
        (M.InParts (Series.Chained kind) (line_seen (seen first).value)
        (seen_then no_seen (seen first)) outer.commas outer.limit ∷ frames parser.stack.items)
        (drop (parser.at + 1) tokens.now)) }
{
    let _tokens = tokens;
    let commas = outer.commas;
    let limit = rank(kind) - 1;
    let line = first.line();
    let parts = Readings::none(alloc).then(first)?;
    let frame = Frame::Parts(Series::Chained(kind), line, parts, outer);
    Ok(parser.past().with(frame)?.start(Context { commas, limit }))
}

// A part is read: what follows is joined to it, or it ends here.
pub fn step_done(
    alloc: Global,
    tokens: &[Lexeme],
    parser: ParserStack,
    part: Part,
    context: Context,
) -> Result<Machine, Memory>
    requires { parser.at ≤ length tokens.now }
    ensures { IfOk result
        (λ m.
        state tokens.now m
        ≡ M.step seen_making
        (M.Done context.commas context.limit (frames parser.stack.items) (part_seen part)
        (drop parser.at tokens.now))) }
{
    let commas = context.commas;
    match infix_at(tokens, commas, parser.at) {
        Infix::Binary(number, left, right)
            if number <= context.limit
                && part.number <= operand(left, number)
                && part.reach < number => {
            let limit = operand(right, number);
            join_right(alloc, tokens, parser, part.reading, number, limit, context)
        }
        Infix::Chains(kind) if rank(kind) <= context.limit && part.number < rank(kind) => {
            join_chain(alloc, tokens, parser, part.reading, kind, context)
        }
        _ => reduce(alloc, tokens, parser, part, commas),
    }
}
