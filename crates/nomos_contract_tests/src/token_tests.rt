//! The tokens of small texts, and the texts that have none.
use nomos_ir::limits::TEXT_LIMIT;
use nomos_syntax::scan::tokens;
use std::alloc::{AllocError, Global};
use std::test::Fail;

// The tokens of a text, each with its kind and its span, or why it has none.
fn answer(alloc: Global, text: &[u8]) -> Result<String, AllocError> {
    match tokens(alloc, text) {
        Ok(found) => format!(in alloc; "{:?}", found.as_slice()),
        Err(error) => format!(in alloc; "{error:?}"),
    }
}

#[test]
fn texts_have_tokens(rt: HostRuntime) -> Result<(), Fail> {
    let table = [
        ("", "[]"),
        (" \t\r\n", "[]"),
        ("a // b", "[Token { kind: Name, from: 0, to: 1 }]"),
        ("//a\rb\nc", "[Token { kind: Name, from: 6, to: 7 }]"),
        (
            "1a",
            "[Token { kind: Number, from: 0, to: 1 }, Token { kind: Name, from: 1, to: 2 }]",
        ),
        (
            "_9 007",
            "[Token { kind: Name, from: 0, to: 2 }, Token { kind: Number, from: 3, to: 6 }]",
        ),
        (
            "1\x0c2",
            "[Token { kind: Number, from: 0, to: 1 }, Token { kind: Bad, from: 1, to: 2 }, \
            Token { kind: Number, from: 2, to: 3 }]",
        ),
        (
            "\x00\x7f",
            "[Token { kind: Bad, from: 0, to: 1 }, Token { kind: Bad, from: 1, to: 2 }]",
        ),
        (
            "self selfish",
            "[Token { kind: Reserved(SelfWord), from: 0, to: 4 }, Token { kind: Name, from: 5, to: 12 }]",
        ),
        (
            "a-o b",
            "[Token { kind: Name, from: 0, to: 1 }, Token { kind: Symbol(Lollipop), from: 1, to: 3 }, \
            Token { kind: Name, from: 4, to: 5 }]",
        ),
        (
            "a -ox",
            "[Token { kind: Name, from: 0, to: 1 }, Token { kind: Symbol(Minus), from: 2, to: 3 }, \
            Token { kind: Name, from: 3, to: 5 }]",
        ),
        ("-o", "[Token { kind: Symbol(Lollipop), from: 0, to: 2 }]"),
        (
            "-o_",
            "[Token { kind: Symbol(Minus), from: 0, to: 1 }, Token { kind: Name, from: 1, to: 3 }]",
        ),
        (
            "->=>::/\\",
            "[Token { kind: Symbol(Arrow), from: 0, to: 2 }, Token { kind: Symbol(FatArrow), from: 2, to: 4 }, \
            Token { kind: Symbol(DoubleColon), from: 4, to: 6 }, Token { kind: Symbol(Wedge), from: 6, to: 8 }]",
        ),
        (
            "1/ /2",
            "[Token { kind: Number, from: 0, to: 1 }, Token { kind: Symbol(Slash), from: 1, to: 2 }, \
            Token { kind: Symbol(Slash), from: 3, to: 4 }, Token { kind: Number, from: 4, to: 5 }]",
        ),
        ("a\x7f\u{80}", "NotAscii(2)"),
    ];
    let alloc = rt.alloc();
    for (text, wanted) in table {
        assert_eq!(rt;
            answer(alloc, text.as_bytes())?.as_str(),
            wanted,
            "in {text:?}"
        );
    }
    Ok(())
}

#[test]
fn texts_have_a_limit(rt: HostRuntime) -> Result<(), Fail> {
    let alloc = rt.alloc();
    let mut text = vec![in alloc; b' '; TEXT_LIMIT]?;
    assert_eq!(rt; answer(alloc, &text)?.as_str(), "[]");
    text.push(b' ')?;
    assert_eq!(rt; answer(alloc, &text)?.as_str(), "TooLong");
    Ok(())
}
