use crate::sources::shown;
use std::alloc::Global;
use std::process::Abort;
use std::test::Fail;

// What clauses are typed by: constructors, numbers, texts, characters, and their variables. Of a head argument that is no
// variable nothing stands there: the variable in its place is the predicate's.
const TYPED: &str = "\
#pred p(int::out) is det.@p(1). ~ ;\n\
#pred p(string::out) is det.@p(\"a\"). ~ ;\n\
#pred p(char::out) is det.@p('a'). ~ ;\n\
#pred p(char::out) is det.@p(a). ~ ;\n\
#type t ---> a.@#pred p(char::out) is det.@p(a). ~ ;\n\
#type t ---> a.@#pred p(t::out) is det.@p(a). ~ ;\n\
#type t ---> a ; b(int).@#pred p is semidet.@p :- X = b(Y), Y = 1. ~ X:t Y:int ;\n\
#pred p(T::in, T::out) is det.@p(X, X). ~ X:T0 ;\n\
#pred p(T::in, U::in, T::out) is det.@p(X, Y, Z) :- Z = X, Y = Y. ~ X:T0 Y:T1 Z:T0 ;\n\
#pred p(T::in) is semidet.@p(_). ~ _:T0 ;\n\
#pred q(T::in) is semidet.@#pred p is semidet.@q(_).@p :- q(X), X = 1. ~ _:T0 ;X:int ;\n\
#pred q(T::in) is semidet.@#pred p is semidet.@q(_).@p :- X = 1, Y = \"a\", q(X), q(Y). ~ _:T0 ;X:int Y:string ;\n\
#pred p is semidet.@p :- X = Y, Y = Z. ~ X:T0 Y:T0 Z:T0 ;\n\
#pred p is semidet.@p :- X = X, Y = Y. ~ X:T0 Y:T1 ;\n\
#pred p(T::in) is semidet.@p(X) :- Y = Y, X = X. ~ X:T0 Y:T1 ;\n\
";

// Unions with parameters, lists, and equivalences.
const PARAMETERS: &str = "\
#type tree(T) ---> leaf ; node(tree(T), T, tree(T)).@#pred p is semidet.@p :- X = leaf. ~ X:tree(T0) ;\n\
#type tree(T) ---> leaf ; node(tree(T), T, tree(T)).@#pred p is semidet.@p :- X = leaf, Y = leaf. ~ X:tree(T0) Y:tree(T1) ;\n\
#type tree(T) ---> leaf ; node(tree(T), T, tree(T)).@#pred p is semidet.@p :- X = node(L, 1, R). ~ X:tree(int) L:tree(int) R:tree(int) _:int ;\n\
#type tree(T) ---> leaf ; node(tree(T), T, tree(T)).@#pred p(T::in) is semidet.@p(X) :- Y = node(Z, X, Z). ~ X:T0 Y:tree(T0) Z:tree(T0) ;\n\
#type two(A, B) ---> two(A, B).@#pred p is semidet.@p :- X = two(Y, Z), Y = 1, Z = two(Y, X0), X0 = \"a\". ~ X:two(int,two(int,string)) Y:int Z:two(int,string) X0:string ;\n\
#import_module list.@#pred p(list(int)::in) is semidet.@p([X | Y]) :- X = 1, Y = []. ~ X:int Y:list(int) ;\n\
#import_module list.@#pred p is semidet.@p :- X = [Y, Z], Y = 1. ~ X:list(int) Y:int Z:int _:list(int) _:list(int) ;\n\
#import_module list.@#type t == list(int).@#pred p(t::in) is semidet.@p(X) :- X = [Y | Z]. ~ X:list(int) Y:int Z:list(int) ;\n\
#import_module list.@#type t(A) == list(list(A)).@#pred p(t(int)::in) is semidet.@p(X) :- X = [Y | _]. ~ X:list(list(int)) Y:list(int) _:list(list(int)) ;\n\
#type t == u.@#type u == int.@#type v ---> v(t).@#pred p is semidet.@p :- X = v(Y). ~ X:v Y:int ;\n\
#type t(_) ---> tt.@#pred p is semidet.@p :- X = tt. ~ X:t(T0) ;\n\
#type t(A) ---> t(A, f :: A).@#pred p is semidet.@p :- X = t(Y, \"a\"). ~ X:t(string) Y:string _:string ;\n\
";

// Functions, and names that later atoms decide.
const FUNCTIONS: &str = "\
#func f(int) = int.@f(X) = X. ~ X:int ;\n\
#func f(T) = T.@f(X) = Y :- Y = X. ~ X:T0 Y:T0 ;\n\
#func f(int) = string.@#pred p is semidet.@f(_) = \"a\".@p :- X = f(Y). ~ _:int ;X:string Y:int ;\n\
#import_module int.@#pred p(int::in, int::out) is det.@p(X, X + 1). ~ X:int _:int ;\n\
#import_module int.@#pred p is semidet.@p :- X = 1 - 2. ~ X:int _:int _:int ;\n\
#import_module int, pair.@#pred p is semidet.@p :- X = Y - Z, X < 0. ~ X:int Y:int Z:int _:int ;\n\
#import_module int, pair.@#pred p is semidet.@p :- X = Y - Z, Y = \"a\". ~ X:pair(string,T0) Y:string Z:T0 ;\n\
#import_module int, string.@#pred p is semidet.@p :- X = length(\"a\"). ~ X:int _:string ;\n\
#import_module list, string.@#pred p is semidet.@p :- X = length(Y), Y = []. ~ X:int Y:list(T0) ;\n\
#import_module list, string.@#pred p is semidet.@p :- X = Y ++ \"a\". ~ X:string Y:string _:string ;\n\
#type s ---> k.@#type t ---> k.@#pred q(t::in) is semidet.@#pred p is semidet.@q(_).@p :- X = k, q(X). ~ _:t ;X:t ;\n\
#type s ---> k.@#type t ---> k.@#pred q(t::in) is semidet.@#pred p is semidet.@q(_).@p :- q(k). ~ _:t ;_:t ;\n\
#type s ---> k(int).@#type t ---> k(string).@#pred p is semidet.@p :- X = k(1), Y = k(\"a\"). ~ X:s Y:t _:int _:string ;\n\
";

// No typing.
const NONE: &str = "\
#pred p(int::out) is det.@p(\"a\"). ~ 0:2 T1 clause has no typing;\n\
#pred p(char::out) is det.@p(1). ~ 0:2 T1 clause has no typing;\n\
#pred p(string::out) is det.@p(a). ~ 0:2 T1 clause has no typing;\n\
#pred p(T::in) is semidet.@p(1). ~ 0:2 T1 clause has no typing;\n\
#pred p(T::in, U::out) is det.@p(X, X). ~ 0:2 T1 clause has no typing;\n\
#import_module list.@#pred p(T::in, list(T)::out) is det.@p(X, X). ~ 0:3 T1 clause has no typing;\n\
#import_module list.@#pred p is semidet.@p :- X = [X]. ~ 0:3 T1 clause has no typing;\n\
#import_module list.@#pred p is semidet.@p :- X = [1, \"a\"]. ~ 0:3 T1 clause has no typing;\n\
#pred p is semidet.@p :- X = 1, X = \"a\". ~ 0:2 T1 clause has no typing;\n\
#pred p is semidet.@p :- ( X = 1 ; X = \"a\" ). ~ 0:2 T1 clause has no typing;\n\
#pred p is semidet.@p :- \\+ X = 1, X = \"a\". ~ 0:2 T1 clause has no typing;\n\
#func f(int) = int.@f(X) = \"a\" :- X = 1. ~ 0:2 T1 clause has no typing;\n\
#pred q(int::in) is semidet.@#pred p is semidet.@q(1).@p :- q(\"a\").@p :- q(X), X = \"b\". ~ 0:4 T1 clause has no typing;0:5 T1 clause has no typing;\n\
#type s ---> k.@#type t ---> k.@#pred p is semidet.@p :- X = k, X = 1. ~ 0:4 T1 clause has no typing;\n\
#type tree(T) ---> leaf ; node(tree(T), T).@#pred p is semidet.@p :- X = node(node(leaf, 1), \"a\"). ~ 0:3 T1 clause has no typing;\n\
";

// Two typings: the first two resolutions, in the order of candidates, and where they differ.
const TWO: &str = "\
#type t ---> a.@#pred p is semidet.@p :- X = a. ~ 0:3 T2 two typings differ at a: constructor of m.t/0 or character;\n\
#type t ---> c(int).@#func c(int) = int.@#pred p is semidet.@c(X) = X.@p :- X = c(1). ~ 0:5 T2 two typings differ at c: constructor of m.t/0 or function m.c/1;\n\
#func c(int) = int.@#type t ---> c(int).@#pred p is semidet.@c(X) = X.@p :- X = c(1). ~ 0:5 T2 two typings differ at c: function m.c/1 or constructor of m.t/0;\n\
#type s ---> k.@#type t ---> k.@#type u ---> k.@#pred p is semidet.@p :- X = k. ~ 0:5 T2 two typings differ at k: constructor of m.s/0 or constructor of m.t/0;\n\
#type s ---> k ; l.@#type t ---> k ; l.@#pred p is semidet.@p :- X = k, X = Y, Y = l. ~ 0:4 T2 two typings differ at k: constructor of m.s/0 or constructor of m.t/0;\n\
#type s ---> k.@#type t ---> k.@#pred q(t::in) is semidet.@#pred p is semidet.@q(_).@p :- X = k, Y = k, q(X). ~ 0:6 T2 two typings differ at k: constructor of m.s/0 or constructor of m.t/0;\n\
#type s(A) ---> k(A).@#type t ---> k(int).@#pred p is semidet.@p :- X = k(1). ~ 0:4 T2 two typings differ at k: constructor of m.s/1 or constructor of m.t/0;\n\
#import_module int, pair.@#pred p is semidet.@p :- X = 1 - 2. ~ 0:3 T2 two typings differ at -: function int.-/2 or constructor of pair.pair/2;\n\
#import_module pair, int.@#pred p is semidet.@p :- X = 1 - 2. ~ 0:3 T2 two typings differ at -: constructor of pair.pair/2 or function int.-/2;\n\
#module a.@#interface.@#type s ---> k.`#import_module a.@#type t ---> k.@#pred p is semidet.@p :- X = k. ~ 1:4 T2 two typings differ at k: constructor of m.t/0 or constructor of a.s/0;\n\
#module a.@#interface.@#type s ---> k.`#module b.@#interface.@#type t ---> k.`#import_module b, a.@#pred p is semidet.@p :- X = k. ~ 2:3 T2 two typings differ at k: constructor of b.t/0 or constructor of a.s/0;\n\
#module a.@#interface.@#pred q(int::in) is semidet.@#implementation.@q(1).`#module b.@#interface.@#pred q(T::in) is semidet.@#implementation.@q(_).`#import_module a, b.@#pred p is semidet.@p :- q(1). ~ 2:3 T2 two typings differ at q: predicate a.q/1 or predicate b.q/1;\n\
";

// Scopes: quantifiers name variables of their own; state variables and io.
const SCOPES: &str = "\
#pred p is semidet.@p :- some [X] X = 1, some [X] X = \"a\". ~ X:int X:string ;\n\
#pred p is semidet.@p :- ( if some [X] X = 1 then X = 2 else X = \"a\" ). ~ X:int X:string ;\n\
#pred p is semidet.@p :- all [X] ( X = 1 => X = 2 ), X = \"a\". ~ X:int X:string ;\n\
#pred p(int::in, int::out) is det.@p(!X) :- !:X = !.X. ~ _:int _:int ;\n\
#import_module io.@#pred main(io::di, io::uo) is det.@main(!IO) :- io.write_string(\"a\", !IO). ~ _:io _:io _:string ;\n\
#module a.@#interface.@#type s ---> k.`#import_module a.@#type t ---> k.@#pred p is semidet.@p :- X = a.k. ~ X:s ;\n\
#module a.@#interface.@#pred q(int::in) is semidet.@#implementation.@q(1).`#module b.@#interface.@#pred q(string::in) is semidet.@#implementation.@q(\"a\").`#import_module a, b.@#pred p is semidet.@p :- q(X), X = \"b\". ~ ;;X:string ;\n\
";

// Queries, each an item of its own behind the clauses.
const QUERIES: &str = "\
#import_module int, pair. ? X = 1 - 2 ~ 1:1 T2 two typings differ at -: function int.-/2 or constructor of pair.pair/2;\n\
#import_module int, pair. ? X = 1 - 2, X < 0 ~ X:int _:int _:int _:int ;\n\
#pred p(int::out) is det.@p(1). ? p(X), X = \"a\" ~ 1:1 T1 clause has no typing;\n\
#pred p(int::out) is det.@p(\"a\"). ? p(\"a\") ~ 0:2 T1 clause has no typing;1:1 T1 clause has no typing;\n\
#pred p(T::out) is semidet.@p(X) :- X = X. ? p(X) ~ X:T0 ;X:T0 ;\n\
";

// What modules see of the definitions of types: an equivalence that stands behind an interface is seen at home alone, also
// where the modules beside it see the same, and the query sees what the first file sees.
const SIGHT: &str = "\
#module a.@#interface.@#type t.@#pred q(t::in) is semidet.@#implementation.@#type t == int.@q(1).`#import_module a.@#pred p is semidet.@p :- q(1). ~ 1:3 T1 clause has no typing;\n\
#import_module a.@#pred p is semidet.@p :- q(1).`#module a.@#interface.@#type t.@#pred q(t::in) is semidet.@#implementation.@#type t == int.@q(1). ~ 0:3 T1 clause has no typing;\n\
#module a.@#interface.@#type t == int.@#pred q(t::in) is semidet.@#implementation.@q(1).`#import_module a.@#pred p is semidet.@p :- q(X), X = 1. ~ ;X:int ;\n\
#import_module a.@#pred p is semidet.@p :- X = 1.`#module a.@#interface.@#type t.@#pred q(t::in) is semidet.@#implementation.@#type t == int.@q(Y) :- Y = 1.`#module b.@#interface.@#pred r(int::in) is semidet.@#implementation.@r(Z) :- Z = 2. ~ X:int ;Y:int ;Z:int ;\n\
#import_module a.`#module a.@#interface.@#type t.@#pred q(t::in) is semidet.@#implementation.@#type t == int.@q(Y) :- Y = 1. ? q(X) ~ Y:int ;X:t ;\n\
#module a.@#interface.@#type t.@#pred q(t::in) is semidet.@#implementation.@#type t == int.@q(Y) :- Y = 1.`#module b.@#interface.@#import_module a. ? q(X) ~ Y:int ;X:int ;\n\
#module a.@#interface.@#type t.@#pred q(t::in) is semidet.@#implementation.@#type t ---> k.@q(k).`#import_module a.@#pred p is semidet.@p :- q(X), q(X). ~ ;X:t ;\n\
";

// The whole modules of which typing alone refuses something, and the same without what is refused.
const MODULES: &str = "\
#module o.@#interface.@#type a ---> nil ; a(int).@#type b ---> nil ; b(int).@#pred pa(a::in) is semidet.@#pred amb is semidet.@#implementation.@pa(nil).@amb :- X = nil, X = nil. ~ 0:9 T2 two typings differ at nil: constructor of o.a/0 or constructor of o.b/0;\n\
#module o.@#interface.@#type a ---> nil ; a(int).@#type b ---> nil ; b(int).@#pred pa(a::in) is semidet.@#implementation.@pa(nil). ~ ;\n\
#module id.@#interface.@#pred same(T::in, T::out) is det.@#implementation.@#import_module int.@same(X, X + 1). ~ 0:6 T1 clause has no typing;\n\
#module both.@#interface.@#implementation.@#import_module int, pair. ? X = 1 - 2 ~ 1:1 T2 two typings differ at -: function int.-/2 or constructor of pair.pair/2;\n\
";

fn rows_hold(rt: &impl Abort, alloc: Global, table: &str) -> Result<u32, Fail> {
    let mut rows = 0u32;
    for row in table.lines() {
        if let Some((texts, wanted)) = row.split_once(" ~ ") {
            let answer = shown(alloc, texts)?;
            assert_eq!(rt; answer.as_slice(), wanted.as_bytes(), "{row}");
            rows = rows.saturating_add(1);
        }
    }
    Ok(rows)
}

#[test]
fn clauses_are_typed(rt: HostRuntime) -> Result<(), Fail> {
    assert_eq!(rt; rows_hold(&rt, rt.alloc(), TYPED)?, 15);
    Ok(())
}

#[test]
fn types_have_parameters(rt: HostRuntime) -> Result<(), Fail> {
    assert_eq!(rt; rows_hold(&rt, rt.alloc(), PARAMETERS)?, 12);
    Ok(())
}

#[test]
fn functions_are_typed(rt: HostRuntime) -> Result<(), Fail> {
    assert_eq!(rt; rows_hold(&rt, rt.alloc(), FUNCTIONS)?, 13);
    Ok(())
}

#[test]
fn no_resolution_types(rt: HostRuntime) -> Result<(), Fail> {
    assert_eq!(rt; rows_hold(&rt, rt.alloc(), NONE)?, 15);
    Ok(())
}

#[test]
fn two_resolutions_type(rt: HostRuntime) -> Result<(), Fail> {
    assert_eq!(rt; rows_hold(&rt, rt.alloc(), TWO)?, 12);
    Ok(())
}

#[test]
fn scopes_and_states(rt: HostRuntime) -> Result<(), Fail> {
    assert_eq!(rt; rows_hold(&rt, rt.alloc(), SCOPES)?, 7);
    Ok(())
}

#[test]
fn queries_are_items(rt: HostRuntime) -> Result<(), Fail> {
    assert_eq!(rt; rows_hold(&rt, rt.alloc(), QUERIES)?, 5);
    Ok(())
}

#[test]
fn modules_see_definitions(rt: HostRuntime) -> Result<(), Fail> {
    assert_eq!(rt; rows_hold(&rt, rt.alloc(), SIGHT)?, 7);
    Ok(())
}

#[test]
fn whole_modules(rt: HostRuntime) -> Result<(), Fail> {
    assert_eq!(rt; rows_hold(&rt, rt.alloc(), MODULES)?, 4);
    Ok(())
}
