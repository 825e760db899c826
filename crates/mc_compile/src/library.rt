// The library's modules, each as a whole text. What has no clauses here is built in.

/// The module `list`.
pub const LIST: &str = "\
:- module list.
:- interface.

:- type list(T) ---> [] ; [T | list(T)].

:- pred append(list(T), list(T), list(T)).
:- mode append(in, in, out) is det.
:- mode append(out, out, in) is multi.

:- pred member(T, list(T)).
:- mode member(in, in) is semidet.
:- mode member(out, in) is nondet.

:- pred delete(list(T), T, list(T)).
:- mode delete(in, in, out) is nondet.
:- mode delete(in, out, out) is nondet.

:- func length(list(T)) = int.
:- func reverse(list(T)) = list(T).
:- func list(T) ++ list(T) = list(T).

:- implementation.
:- import_module int.

append([], Ys, Ys).
append([X | Xs], Ys, [X | Zs]) :- append(Xs, Ys, Zs).

member(X, [X | _]).
member(X, [_ | Xs]) :- member(X, Xs).

delete([X | Xs], X, Xs).
delete([Y | Xs], X, [Y | Ys]) :- delete(Xs, X, Ys).

length([]) = 0.
length([_ | Xs]) = 1 + length(Xs).

reverse(Xs) = rev(Xs, []).

:- func rev(list(T), list(T)) = list(T).
rev([], A) = A.
rev([X | Xs], A) = rev(Xs, [X | A]).

Xs ++ Ys = Zs :- append(Xs, Ys, Zs).
";

/// The module `bool`.
pub const BOOL: &str = "\
:- module bool.
:- interface.

:- type bool ---> no ; yes.
";

/// The module `maybe`.
pub const MAYBE: &str = "\
:- module maybe.
:- interface.

:- type maybe(T) ---> no ; yes(T).
";

/// The module `pair`.
pub const PAIR: &str = "\
:- module pair.
:- interface.

:- type pair(A, B) ---> (A - B).

:- func fst(pair(A, B)) = A.
:- func snd(pair(A, B)) = B.

:- implementation.

fst(X - _) = X.
snd(_ - Y) = Y.
";

/// The module `int`.
pub const INT: &str = "\
:- module int.
:- interface.

:- func int + int = int.
:- func int - int = int.
:- func int * int = int.
:- func int // int = int.
:- func int div int = int.
:- func int mod int = int.
:- func int rem int = int.
:- func - int = int.

:- pred (int::in) < (int::in) is semidet.
:- pred (int::in) > (int::in) is semidet.
:- pred (int::in) =< (int::in) is semidet.
:- pred (int::in) >= (int::in) is semidet.

:- func max(int, int) = int.
:- func min(int, int) = int.

:- pred nondet_int_in_range(int::in, int::in, int::out) is nondet.

:- implementation.

max(X, Y) = Z :- ( if X > Y then Z = X else Z = Y ).
min(X, Y) = Z :- ( if X < Y then Z = X else Z = Y ).

nondet_int_in_range(L, H, I) :- L =< H, ( I = L ; L < H, nondet_int_in_range(L + 1, H, I) ).
";

/// The module `string`.
pub const STRING: &str = "\
:- module string.
:- interface.
:- import_module list.

:- func string ++ string = string.
:- func length(string) = int.
:- func count_code_points(string) = int.
:- func int_to_string(int) = string.
:- func char_to_string(char) = string.
:- func to_char_list(string) = list(char).

:- pred to_int(string::in, int::out) is semidet.
";

/// The module `char`.
pub const CHAR: &str = "\
:- module char.
:- interface.

:- func to_int(char) = int.

:- pred from_int(int::in, char::out) is semidet.
:- pred is_digit(char::in) is semidet.
";

/// The module `io`.
pub const IO: &str = "\
:- module io.
:- interface.

:- type state.
:- type io == state.

:- pred write_string(string::in, io::di, io::uo) is det.
:- pred write_char(char::in, io::di, io::uo) is det.
:- pred write_int(int::in, io::di, io::uo) is det.
:- pred write(T::in, io::di, io::uo) is det.
:- pred nl(io::di, io::uo) is det.
";

/// The module `require`.
pub const REQUIRE: &str = "\
:- module require.
:- interface.

:- pred error(string::in) is erroneous.
";

/// The texts of the library's modules, in the order in which they are linked.
pub const LIBRARY: [&str; 9] = [LIST, BOOL, MAYBE, PAIR, INT, STRING, CHAR, IO, REQUIRE];
