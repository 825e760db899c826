// The tests of mc_tokens.
use mc_tokens::{Class, FaultKind, Kind, TokenFault, Walk, next_token, skip_class, token_text};
use std::test::Fail;

// One text for each form of a token: the kind and the span of its first token.
#[test]
fn forms(rt: HostRuntime) {
    for (text, kind, start, end) in [
        ("aB_1 ", Kind::Name, 0, 4),
        (" #$&*+-/:<=>?@\\^~a", Kind::Name, 1, 17),
        (";;", Kind::Name, 0, 1),
        ("!X", Kind::Name, 0, 1),
        ("!.X", Kind::Name, 0, 2),
        ("!:_", Kind::Name, 0, 2),
        ("!.x", Kind::Name, 0, 1),
        ("'it''s'", Kind::Quoted, 0, 7),
        ("'\u{e9}\n'x", Kind::Quoted, 0, 5),
        ("Xy_9-", Kind::Var, 0, 4),
        ("_", Kind::Var, 0, 1),
        ("0123x", Kind::Int(123), 0, 4),
        ("0x1fG", Kind::Int(31), 0, 4),
        ("0o178", Kind::Int(15), 0, 4),
        ("0b12", Kind::Int(1), 0, 3),
        ("0x", Kind::Int(0), 0, 1),
        ("0'a'", Kind::Int(97), 0, 3),
        ("0'''", Kind::Int(0), 0, 1),
        ("9223372036854775808", Kind::Int(1 << 63), 0, 19),
        ("\"a\"\"b\\\"\"", Kind::Str, 0, 8),
        ("% c\n(", Kind::Open, 4, 5),
        (")", Kind::Close, 0, 1),
        ("[", Kind::ListOpen, 0, 1),
        ("]", Kind::ListClose, 0, 1),
        ("|", Kind::Bar, 0, 1),
        (",", Kind::Comma, 0, 1),
        (".", Kind::End, 0, 1),
        (".%", Kind::End, 0, 1),
        ("/*/ **/.\n", Kind::End, 7, 8),
        (" \t", Kind::Eof, 2, 2),
    ] {
        match next_token(text.as_bytes(), 0, &Kind::Eof) {
            Ok(token) => {
                assert_eq!(rt; token.kind, kind, "of {text}");
                assert_eq!(rt; (token.start, token.end), (start, end), "of {text}");
            }
            Err(fault) => panic!(rt; "{text} gives {fault:?}"),
        }
    }
}

// What is taken only directly after a token.
#[test]
fn after_a_token(rt: HostRuntime) {
    for (text, at, after, want) in [
        ("f(", 1, Kind::Name, Ok(Kind::OpenCt)),
        ("'f'(", 3, Kind::Quoted, Ok(Kind::OpenCt)),
        ("f (", 1, Kind::Name, Ok(Kind::Open)),
        ("[(", 1, Kind::ListOpen, Ok(Kind::Open)),
        ("X(", 1, Kind::Var, Err(FaultKind::LeftOut)),
        ("X (", 1, Kind::Var, Ok(Kind::Open)),
        ("m.n", 1, Kind::Name, Ok(Kind::Dot)),
        ("m.'n'", 1, Kind::Name, Ok(Kind::Dot)),
        ("m .n", 1, Kind::Name, Err(FaultKind::BadChar)),
        ("m.N", 1, Kind::Name, Err(FaultKind::BadChar)),
        ("X.n", 1, Kind::Var, Err(FaultKind::BadChar)),
        ("1a", 1, Kind::Int(1), Err(FaultKind::LeftOut)),
        ("1 a", 1, Kind::Int(1), Ok(Kind::Name)),
        ("1A", 1, Kind::Int(1), Err(FaultKind::LeftOut)),
    ] {
        let found = match next_token(text.as_bytes(), at, &after) {
            Ok(token) => Ok(token.kind),
            Err(fault) => Err(fault.kind),
        };
        assert_eq!(rt; found, want, "in {text}");
    }
}

// Each fault with its place.
#[test]
fn faults(rt: HostRuntime) {
    for (text, kind, place) in [
        (b"  \0" as &[u8], FaultKind::BadChar, 2),
        (b".a", FaultKind::BadChar, 0),
        (b"'a\\q'", FaultKind::BadChar, 2),
        (b"\"\\x41\"", FaultKind::BadChar, 1),
        (b"\"\\x\\\"", FaultKind::BadChar, 1),
        (b"\"\\x110000\\\"", FaultKind::BadChar, 1),
        (b"\"\\ud800\"", FaultKind::BadChar, 1),
        (b"\"\\9\\\"", FaultKind::BadChar, 1),
        (b"\"\\\r\n\"", FaultKind::BadChar, 1),
        (b" 'a", FaultKind::Unterminated, 1),
        (b"\"a\\x4", FaultKind::Unterminated, 0),
        (b"  /* *", FaultKind::Unterminated, 2),
        (b"9223372036854775809", FaultKind::IntTooLarge, 0),
        (b"0x8000000000000001", FaultKind::IntTooLarge, 0),
        (b"99999999999999999999a", FaultKind::IntTooLarge, 0),
        (b" \xff", FaultKind::NotUtf8, 1),
        (b"'a\xc0\x80'", FaultKind::NotUtf8, 2),
        (b"% \xed\xa0\x80", FaultKind::NotUtf8, 2),
        (b"/*\xf4\x90\x80\x80*/", FaultKind::NotUtf8, 2),
        (b"'\\\xff'", FaultKind::NotUtf8, 2),
        (b"\xc3\xa9", FaultKind::BadChar, 0),
        (b"1.5", FaultKind::LeftOut, 0),
        (b"99999999999999999999.5", FaultKind::LeftOut, 0),
        (b"`", FaultKind::LeftOut, 0),
        (b"{", FaultKind::LeftOut, 0),
        (b"}", FaultKind::LeftOut, 0),
    ] {
        match next_token(text, 0, &Kind::Eof) {
            Ok(token) => panic!(rt; "{token:?}"),
            Err(fault) => assert_eq!(rt; fault, TokenFault { kind, at: place }),
        }
    }
}

// What tokens stand for.
#[test]
fn texts(rt: HostRuntime) -> Result<(), Fail> {
    for (text, want) in [
        ("abc", "abc"),
        ("'a b'", "a b"),
        ("'it\\'s'", "it's"),
        ("'it''s'", "it's"),
        ("'x\\ny'", "x\ny"),
        (
            "\"\\a\\b\\f\\r\\t\\v\\\\\\\"\\`\"",
            "\u{7}\u{8}\u{c}\r\t\u{b}\\\"`",
        ),
        ("\"\\x41\\\\101\\\\u00e9\\U0001F600\"", "AA\u{e9}\u{1f600}"),
        ("\"a\\\nb\u{e9}\"", "ab\u{e9}"),
        ("''", ""),
    ] {
        match next_token(text.as_bytes(), 0, &Kind::Eof) {
            Ok(token) => {
                let found = token_text(rt.alloc(), &token)?;
                assert_eq!(rt; found.bytes(), want.as_bytes(), "of {text}");
            }
            Err(fault) => panic!(rt; "{text} gives {fault:?}"),
        }
    }
    Ok(())
}

// The spans of a whole program, and the end of its first item past a fault.
#[test]
fn program(rt: HostRuntime) -> Result<(), Fail> {
    let text = ":- module m.\nf(X) = X + 0x1f. % end\n";
    let mut walk = Walk::new(text.as_bytes());
    let mut spans = Vec::new(rt.alloc());
    let mut place = 0;
    let mut after = Kind::Eof;
    for _ in 0..100 {
        assert!(rt; place <= walk.text().len());
        match walk.next(place, &after) {
            Ok(token) => {
                spans.push((token.start, token.end))?;
                place = token.end;
                after = token.kind;
            }
            Err(fault) => panic!(rt; "{fault:?}"),
        }
        if after == Kind::Eof {
            break;
        }
    }
    let want = [
        (0, 2),
        (3, 9),
        (10, 11),
        (11, 12),
        (13, 14),
        (14, 15),
        (15, 16),
        (16, 17),
        (18, 19),
        (20, 21),
        (22, 23),
        (24, 28),
        (28, 29),
        (36, 36),
    ];
    assert_eq!(rt; spans.as_slice(), want.as_slice());
    assert_eq!(rt; Walk::new(b"a 'b. c. d.").item_end(0, &Kind::Eof), 5);
    assert_eq!(rt; skip_class(b"  \t x", 0, Class::Blank), 4);
    Ok(())
}
