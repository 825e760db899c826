use mc_base::{Memory, Row, Text};
use mc_core_program::{by_number, normal_goals, whole_clause, whole_query, with_clauses};
use mc_goals::{flat_goal, normal_goal, query_clause, scoped_clause};
use mc_model::flat::{Flat, Normal};
use mc_program::expr::Expr;
use mc_program::program::{Clause, Goal, Name, Place, Pred, Program, Resolved};
use mc_program::ty::Ty;
use mc_type_table::SizeBudget;
use std::alloc::Global;

const HERE: Place = Place { file: 0, line: 1 };

// The makers below give something smaller where memory is wanting: the texts then differ, and the test fails.

/// Puts an element at the end.
fn put<T: Drop>(list: &mut Vec<T>, element: T) {
    let _ = list.push(element);
}

/// The row of a list.
fn row<T: Drop>(alloc: Global, list: Vec<T>) -> Row<T> {
    match Row::of(list) {
        Ok(row) => row,
        Err(_) => Row::new(alloc),
    }
}

fn one<T: Drop>(alloc: Global, a: T) -> Row<T> {
    let mut list = Vec::new(alloc);
    put(&mut list, a);
    row(alloc, list)
}

fn two<T: Drop>(alloc: Global, a: T, b: T) -> Row<T> {
    let mut list = Vec::new(alloc);
    put(&mut list, a);
    put(&mut list, b);
    row(alloc, list)
}

fn three<T: Drop>(alloc: Global, a: T, b: T, c: T) -> Row<T> {
    let mut list = Vec::new(alloc);
    put(&mut list, a);
    put(&mut list, b);
    put(&mut list, c);
    row(alloc, list)
}

/// Variables as terms.
fn terms(alloc: Global, variables: &[u32]) -> Row<Expr> {
    let mut list = Vec::new(alloc);
    for variable in variables {
        put(&mut list, Expr::Var(*variable));
    }
    row(alloc, list)
}

fn call(alloc: Global, pred: u32, variables: &[u32]) -> Goal {
    Goal::Call(pred, terms(alloc, variables))
}

fn not(alloc: Global, goal: Goal) -> Goal {
    match Box::new(alloc, goal) {
        Ok(goal) => Goal::Not(goal),
        Err(_) => Goal::True,
    }
}

fn some(alloc: Global, variable: u32, goal: Goal) -> Goal {
    match Box::new(alloc, goal) {
        Ok(goal) => Goal::Some(one(alloc, variable), goal),
        Err(_) => Goal::True,
    }
}

/// `( if condition then true else else_part )`
fn choice(alloc: Global, condition: Goal, else_part: Goal) -> Goal {
    match Box::new(alloc, condition) {
        Ok(condition) => match Box::new(alloc, Goal::True) {
            Ok(then_part) => match Box::new(alloc, else_part) {
                Ok(else_part) => Goal::Ite(Row::new(alloc), condition, then_part, else_part),
                Err(_) => Goal::True,
            },
            Err(_) => Goal::True,
        },
        Err(_) => Goal::True,
    }
}

fn clause(vars: u32, head: Row<Expr>, body: Goal) -> Clause {
    Clause {
        vars,
        head,
        body,
        place: HERE,
    }
}

/// A clause without types and names.
fn resolved(alloc: Global, clause: Clause) -> Resolved {
    Resolved {
        clause,
        var_types: Row::new(alloc),
        var_names: Row::new(alloc),
    }
}

/// A predicate of so many integers.
fn pred(alloc: Global, arity: u32) -> Pred {
    let mut types = Vec::new(alloc);
    for _ in 0..arity {
        put(&mut types, Ty::Int);
    }
    Pred {
        name: Name {
            module: Text::empty(alloc),
            name: Text::empty(alloc),
            arity,
        },
        is_func: false,
        types: row(alloc, types),
        clauses: Row::new(alloc),
        builtin: None,
    }
}

fn write(out: &mut Vec<u8>, text: &[u8]) {
    let _ = out.extend_from_slice(text);
}

fn show_number(out: &mut Vec<u8>, n: u32) {
    put(out, b'0' + (n % 10) as u8);
}

fn show_numbers(out: &mut Vec<u8>, list: &[u32]) {
    write(out, b"[");
    for n in list {
        show_number(out, *n);
    }
    write(out, b"]");
}

#[cycle(show)]
fn show_all(out: &mut Vec<u8>, goals: &[Flat]) {
    write(out, b"(");
    for goal in goals {
        show(out, goal);
    }
    write(out, b")");
}

#[cycle(show)]
fn show(out: &mut Vec<u8>, goal: &Flat) {
    match goal {
        Flat::True => write(out, b"true"),
        Flat::Conj(goals) => {
            write(out, b"and");
            show_all(out, goals.as_slice());
        }
        Flat::Disj(goals) => {
            write(out, b"or");
            show_all(out, goals.as_slice());
        }
        Flat::Ite(vars, c, t, e) => {
            write(out, b"if");
            show_numbers(out, vars.as_slice());
            show(out, c);
            show(out, t);
            show(out, e);
        }
        Flat::Not(goal) => {
            write(out, b"not ");
            show(out, goal);
        }
        Flat::Some(vars, goal) => {
            write(out, b"some");
            show_numbers(out, vars.as_slice());
            show(out, goal);
        }
        Flat::Same(v, w) => show_atom(out, b" =", *v, &[*w]),
        Flat::Made(v, s, args) => {
            show_atom(out, b" m", *v, &[*s]);
            show_numbers(out, args.as_slice());
        }
        Flat::Const(v, _) => show_atom(out, b" c", *v, &[]),
        Flat::Call(p, args) => {
            show_atom(out, b" p", *p, &[]);
            show_numbers(out, args.as_slice());
        }
    }
}

fn show_atom(out: &mut Vec<u8>, kind: &[u8], first: u32, others: &[u32]) {
    write(out, kind);
    show_number(out, first);
    for n in others {
        show_number(out, *n);
    }
}

/// The one goal of a predicate with these clauses; nothing where memory is wanting.
fn shown(alloc: Global, arity: u32, clauses: &Row<Resolved>) -> Vec<u8> {
    let mut out = Vec::new(alloc);
    if let Ok(normal) = normal_goal(alloc, 7, &pred(alloc, arity), clauses) {
        show(&mut out, &normal.body);
    }
    out
}

/// The same of one clause, after its scopes were written out.
fn shown_scoped(alloc: Global, arity: u32, clause: Clause) -> Vec<u8> {
    match scoped_clause(alloc, clause) {
        Ok(clause) => shown(alloc, arity, &one(alloc, resolved(alloc, clause))),
        Err(_) => Vec::new(alloc),
    }
}

/// `append([], Ys, Ys).` and `append([X | Xs], Ys, [X | Zs]) :- append(Xs, Ys, Zs).`
#[test]
fn append_is_a_disjunction(rt: HostRuntime) {
    let alloc = rt.alloc();
    let nil = Expr::Con(5, Row::new(alloc));
    let first = three(alloc, nil, Expr::Var(0), Expr::Var(0));
    let taken = Expr::Con(6, terms(alloc, &[0, 1]));
    let built = Expr::Con(6, terms(alloc, &[0, 3]));
    let second = three(alloc, taken, Expr::Var(2), built);
    let fact = clause(1, first, Goal::True);
    let rule = clause(4, second, call(alloc, 2, &[1, 2, 3]));
    let clauses = two(alloc, resolved(alloc, fact), resolved(alloc, rule));
    let out = shown(alloc, 3, &clauses);
    assert_eq!(rt;
        out.as_slice(),
        b"or(and( m05[] =21)and( m06[34] m26[35] p2[415]))".as_slice()
    );
}

/// `r(X, Y) :- Y = X + X * 2.`: the parts come before the atom, inner first.
#[test]
fn parts_come_before_atoms(rt: HostRuntime) {
    let alloc = rt.alloc();
    let product = Expr::Apply(4, two(alloc, Expr::Var(0), Expr::Int(2)));
    let sum = Expr::Apply(3, two(alloc, Expr::Var(0), product));
    let body = Goal::Equal(Expr::Var(1), sum);
    let rule = clause(2, terms(alloc, &[0, 1]), body);
    let out = shown(alloc, 2, &one(alloc, resolved(alloc, rule)));
    assert_eq!(rt; out.as_slice(), b"and( c2 p4[023] p3[031])".as_slice());
}

/// `r(X) :- not p(X + 1), ( q(X) ; fail ).`
#[test]
fn made_variables_are_quantified(rt: HostRuntime) {
    let alloc = rt.alloc();
    let sum = Expr::Apply(3, two(alloc, Expr::Var(0), Expr::Int(1)));
    let negation = not(alloc, Goal::Call(0, one(alloc, sum)));
    let fail = Goal::Disj(Row::new(alloc));
    let either = Goal::Disj(two(alloc, call(alloc, 1, &[0]), fail));
    let body = Goal::Conj(two(alloc, negation, either));
    let rule = clause(1, terms(alloc, &[0]), body);
    let out = shown(alloc, 1, &one(alloc, resolved(alloc, rule)));
    assert_eq!(rt;
        out.as_slice(),
        b"and(not some[12]and( c1 p3[012] p0[2])or( p1[0]))".as_slice()
    );
}

/// `r :- not p(X, Y), q(Y).`: the negation quantifies X alone.
#[test]
fn negations_quantify(rt: HostRuntime) {
    let alloc = rt.alloc();
    let negation = not(alloc, call(alloc, 0, &[0, 1]));
    let body = Goal::Conj(two(alloc, negation, call(alloc, 1, &[1])));
    let out = shown_scoped(alloc, 0, clause(2, Row::new(alloc), body));
    assert_eq!(rt; out.as_slice(), b"and(not some[0] p0[01] p1[1])".as_slice());
}

/// `r(X) :- ( if p(X, Y), not q(Y) then true else some [Z] p(Z, Z) ), 3 = 4.`: the condition quantifies Y.
#[test]
fn each_kind_of_goal(rt: HostRuntime) {
    let alloc = rt.alloc();
    let negation = not(alloc, call(alloc, 1, &[1]));
    let condition = Goal::Conj(two(alloc, call(alloc, 0, &[0, 1]), negation));
    let quantified = some(alloc, 2, call(alloc, 0, &[2, 2]));
    let equation = Goal::Equal(Expr::Int(3), Expr::Int(4));
    let body = Goal::Conj(two(alloc, choice(alloc, condition, quantified), equation));
    let out = shown_scoped(alloc, 1, clause(3, terms(alloc, &[0]), body));
    assert_eq!(rt;
        out.as_slice(),
        b"and(if[1]and( p0[01]not  p1[1])truesome[2] p0[22] c3 c3)".as_slice()
    );
}

/// `X = 3, not member(X, [])`: the negation doesn't quantify X, which occurs outside it.
#[test]
fn outside_a_negation(rt: HostRuntime) {
    let alloc = rt.alloc();
    let nil = Expr::Con(5, Row::new(alloc));
    let member = Goal::Call(0, two(alloc, Expr::Var(0), nil));
    let equation = Goal::Equal(Expr::Var(0), Expr::Int(3));
    let body = Goal::Conj(two(alloc, equation, not(alloc, member)));
    let out = shown_scoped(alloc, 0, clause(1, Row::new(alloc), body));
    assert_eq!(rt;
        out.as_slice(),
        b"and( c0not some[1]and( m15[] p0[01]))".as_slice()
    );
}

fn name(alloc: Global, text: &[u8]) -> Text {
    match Text::new(alloc, text) {
        Ok(name) => name,
        Err(_) => Text::empty(alloc),
    }
}

/// Types, then names.
fn show_variables(out: &mut Vec<u8>, types: &[Ty], names: &[Text]) {
    for ty in types {
        match ty {
            Ty::Int => write(out, b"int:"),
            Ty::Str => write(out, b"str:"),
            _ => write(out, b"other:"),
        }
    }
    for name in names {
        write(out, name.bytes());
        write(out, b",");
    }
}

/// The types and names of the one goal of a predicate of an integer, which has this clause.
fn shown_variables(alloc: Global, clause: Resolved) -> Vec<u8> {
    let mut out = Vec::new(alloc);
    if let Ok(normal) = normal_goal(alloc, 7, &pred(alloc, 1), &one(alloc, clause)) {
        let types = normal.var_types.as_slice();
        show_variables(&mut out, types, normal.var_names.as_slice());
    }
    out
}

/// The types and names of `r(X) :- p(Y, 3).`, where the predicate has an integer, and Y is a string.
#[test]
fn types_and_names(rt: HostRuntime) {
    let alloc = rt.alloc();
    let body = Goal::Call(0, two(alloc, Expr::Var(1), Expr::Int(3)));
    let rule = Resolved {
        clause: clause(2, terms(alloc, &[0]), body),
        var_types: three(alloc, Ty::Int, Ty::Str, Ty::Int),
        var_names: two(alloc, name(alloc, b"X"), name(alloc, b"Y")),
    };
    let out = shown_variables(alloc, rule);
    assert_eq!(rt; out.as_slice(), b"int:str:int:,Y,,".as_slice());
}

/// The goal of a predicate with no clause, and its shape, is `fail`.
#[test]
fn no_clause_is_a_failure(rt: HostRuntime) {
    let alloc = rt.alloc();
    let mut out = Vec::new(alloc);
    if let Ok(shape) = flat_goal(alloc, &pred(alloc, 2)) {
        show(&mut out, &shape.body);
        show_numbers(&mut out, shape.head.as_slice());
        show_number(&mut out, shape.vars);
    }
    assert_eq!(rt; out.as_slice(), b"or()[01]2".as_slice());
}

/// The one goal of a query with so many answers' variables, whose goal is that of a clause without arguments.
fn shown_query(alloc: Global, asked: u32, goal: &Clause, names: &Row<Text>) -> Vec<u8> {
    match query_clause(alloc, goal, names) {
        Ok(clause) => shown(alloc, asked, &one(alloc, resolved(alloc, clause))),
        Err(_) => Vec::new(alloc),
    }
}

/// `q(Z, _Y), not p(Z, W), p(X, Z)`: Z and X are asked for in this order, the negation quantifies W, and `_Y` is
/// quantified around the goal.
#[test]
fn queries_ask_for_named_variables(rt: HostRuntime) {
    let alloc = rt.alloc();
    let negation = not(alloc, call(alloc, 0, &[0, 3]));
    let last = call(alloc, 0, &[2, 0]);
    let body = Goal::Conj(three(alloc, call(alloc, 1, &[0, 1]), negation, last));
    let mut names = Vec::new(alloc);
    for text in [b"Z".as_slice(), b"_Y", b"X", b"W"] {
        put(&mut names, name(alloc, text));
    }
    let goal = clause(4, Row::new(alloc), body);
    let out = shown_query(alloc, 2, &goal, &row(alloc, names));
    assert_eq!(rt;
        out.as_slice(),
        b"some[2]and( p1[02]not some[3] p0[03] p0[10])".as_slice()
    );
}

/// Definitions of types, of which that of the number 1 is `string`.
fn definitions(alloc: Global) -> Vec<Option<Ty>> {
    let mut list = Vec::new(alloc);
    put(&mut list, None);
    put(&mut list, Some(Ty::Str));
    list
}

/// A goal over X, whose type is one that stands for `string`, as a clause without arguments.
fn goal_over_x(alloc: Global, head: Row<Expr>) -> Resolved {
    Resolved {
        clause: clause(1, head, call(alloc, 0, &[0])),
        var_types: one(alloc, Ty::Union(1, Row::new(alloc))),
        var_names: one(alloc, name(alloc, b"X")),
    }
}

/// The types and names of a clause's variables, where it was made.
fn show_resolved(out: &mut Vec<u8>, made: Result<Resolved, Memory>) {
    if let Ok(resolved) = made {
        show_variables(
            out,
            resolved.var_types.as_slice(),
            resolved.var_names.as_slice(),
        );
        show_number(out, resolved.clause.head.len());
    }
}

/// A clause of a program and its query have their types without equivalences; the query has its variable as argument.
#[test]
fn equivalences_are_replaced(rt: HostRuntime) {
    let alloc = rt.alloc();
    let definitions = definitions(alloc);
    let mut room = SizeBudget { parts: 9 };
    let mut out = Vec::new(alloc);
    let fact = goal_over_x(alloc, terms(alloc, &[0]));
    show_resolved(
        &mut out,
        whole_clause(alloc, definitions.as_slice(), fact, &mut room),
    );
    let query = goal_over_x(alloc, Row::new(alloc));
    show_resolved(
        &mut out,
        whole_query(alloc, definitions.as_slice(), query, &mut room),
    );
    assert_eq!(rt; out.as_slice(), b"str:X,1str:X,1".as_slice());
}

/// Clauses of the predicates 1, 0, 1 and of one that isn't there.
fn numbered(alloc: Global) -> Vec<(u32, Resolved)> {
    let mut list = Vec::new(alloc);
    for (pred, called) in [(1, 3), (0, 4), (1, 5), (7, 6)] {
        let body = call(alloc, called, &[]);
        put(
            &mut list,
            (pred, resolved(alloc, clause(0, Row::new(alloc), body))),
        );
    }
    list
}

/// A program of two predicates without arguments.
fn program(alloc: Global) -> Program {
    Program {
        types: Row::new(alloc),
        symbols: Row::new(alloc),
        preds: two(alloc, pred(alloc, 0), pred(alloc, 0)),
    }
}

fn show_goals(out: &mut Vec<u8>, goals: &[Normal]) {
    for goal in goals {
        show_number(out, goal.pred);
        show(out, &goal.body);
    }
}

/// Clauses go to their predicates in their order.
#[test]
fn clauses_go_to_their_predicates(rt: HostRuntime) {
    let alloc = rt.alloc();
    let mut out = Vec::new(alloc);
    if let Ok(rows) = by_number(alloc, 2, numbered(alloc)) {
        let rows = row(alloc, rows);
        let program = program(alloc);
        if rows.len() <= program.preds.len() {
            if let Ok(goals) = normal_goals(alloc, &program.preds, &rows) {
                show_goals(&mut out, goals.as_slice());
            }
        }
        if let Ok(program) = with_clauses(alloc, program, rows.into_vec()) {
            for pred in program.preds.as_slice() {
                show_number(&mut out, pred.clauses.len());
            }
        }
    }
    assert_eq!(rt; out.as_slice(), b"0 p4[]1or( p3[] p5[])12".as_slice());
}
