//! What is answered for small texts.
use nomos_grammar::offence::first_offence;
use nomos_syntax::scan::tokens;
use std::alloc::{AllocError, Global};
use std::test::Fail;

// What is answered for the tokens of a text.
fn answer(alloc: Global, text: &[u8]) -> Result<String, AllocError> {
    match tokens(alloc, text) {
        Ok(found) => format!(in alloc; "{:?}", first_offence(alloc, text, &found)),
        Err(error) => format!(in alloc; "{error:?}"),
    }
}

#[test]
fn texts_are_answered(rt: HostRuntime) -> Result<(), Fail> {
    let table = [
        ("", "Ok(())"),
        ("cost sends; type R a = 1 * b;", "Ok(())"),
        (
            "fn f(x: list int): int = if x = nil int then 1 else 2 + f(x);",
            "Ok(())",
        ),
        (
            "proc T t(xs: list {*} int;) {2} = let v = list {0} int; call t(v;);",
            "Ok(())",
        ),
        ("proc T t(;) = wait x; close; type R", "Err(Syntax(35))"),
        ("type R a = 01;", "Err(Syntax(11))"),
        ("type T a = 1;", "Err(Syntax(5))"),
        ("type R 1000000001", "Err(Limit(Number, 7))"),
        ("proc T t(;) = let v = list 1; close;", "Err(Syntax(28))"),
    ];
    let alloc = rt.alloc();
    for (text, wanted) in table {
        assert_eq!(rt;
            answer(alloc, text.as_bytes())?.as_str(),
            wanted,
            "in {text:?}"
        );
    }
    Ok(())
}
