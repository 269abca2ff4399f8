//! Small scripts, scripts cut at every length, refusals, and the limits.
use nomos_ir::limits::TEXT_LIMIT;
use nomos_script::item::{ScriptItem, Start};
use nomos_script::name::ScriptNames;
use nomos_script::parsing::{ScriptError, parse_script};
use std::alloc::Global;
use std::process::Abort;
use std::test::Fail;

// Names with a blank before each.
fn names_text(alloc: Global, names: &ScriptNames) -> Result<String, Fail> {
    let mut text = String::new(alloc);
    for name in names.as_slice() {
        text.push_str(" ")?;
        text.push_str(name.as_str())?;
    }
    Ok(text)
}

// A start: its line, who pays, what, the contract's name, the values, and the names.
fn start_text(alloc: Global, start: &Start) -> Result<String, Fail> {
    let contract = match &start.contract {
        Some(name) => name.as_str(),
        None => "-",
    };
    let names = names_text(alloc, &start.names)?;
    Ok(format!(in alloc;
        " {} {} {} {} {:?};{}",
        start.line,
        start.sender.as_str(),
        start.proc.as_str(),
        contract,
        start.values,
        names.as_str()
    )?)
}

// Starts, one behind the other.
fn starts_text(alloc: Global, starts: &[Start]) -> Result<String, Fail> {
    let mut text = String::new(alloc);
    for start in starts {
        text.push_str(start_text(alloc, start)?.as_str())?;
    }
    Ok(text)
}

// An item, which begins with its line.
fn item_text(alloc: Global, item: &ScriptItem) -> Result<String, Fail> {
    match item {
        ScriptItem::Deposit { line, name, units } => {
            Ok(format!(in alloc; "{line} deposit {} {units}\n", name.as_str())?)
        }
        ScriptItem::Batch(batch) => {
            let starts = starts_text(alloc, batch.starts.as_slice())?;
            Ok(format!(in alloc; "{} batch{}\n", batch.line, starts.as_str())?)
        }
        ScriptItem::Show { line } => Ok(format!(in alloc; "{line} show\n")?),
    }
}

// Items, a line for each.
fn items_text(alloc: Global, items: &[ScriptItem]) -> Result<String, Fail> {
    let mut text = String::new(alloc);
    for item in items {
        text.push_str(item_text(alloc, item)?.as_str())?;
    }
    Ok(text)
}

// What a text reads as, or why it is refused.
fn read_as(alloc: Global, text: &[u8]) -> Result<String, Fail> {
    match parse_script(alloc, text) {
        Ok(script) => {
            let items = items_text(alloc, script.items().as_slice());
            drop(script);
            items
        }
        Err(error) => Ok(format!(in alloc; "{error:?}")?),
    }
}

// Fails unless the text reads as this, or is refused so.
fn expect(rt: &(impl Abort + AllocGlobal), text: &[u8], wanted: &str) -> Result<(), Fail> {
    let found = read_as(rt.alloc(), text)?;
    assert!(rt; found.as_str() == wanted, "{text:?} is {found}");
    Ok(())
}

#[test]
fn forms_of_lines(rt: HostRuntime) -> Result<(), Fail> {
    let table: [(&[u8], &str); 14] = [
        (b"", ""),
        (b" \t//\n\n", ""),
        (
            b"deposit u 007//\xff\r\n// \xc3\xa9\n\texec  u t ( ;)//",
            "1 deposit u 7\n3 batch 3 u t - [];\n",
        ),
        (b"deposit u 7\r\n\r\nshow\r\n", "1 deposit u 7\n3 show\n"),
        (
            b"deposit deposit 5\nlet let = new new begin(;)",
            "1 deposit deposit 5\n2 batch 2 new begin let [];\n",
        ),
        (
            b"exec u t(1 , - 07,-0,true,false;)",
            "1 batch 1 u t - [Int(1), Int(-7), Int(0), Bool(true), Bool(false)];\n",
        ),
        (
            b"exec u t([],[[],[1,true]];a ,b)",
            "1 batch 1 u t - [List([]), List([List([]), List([Int(1), Bool(true)])])]; a b\n",
        ),
        (
            b"exec self _9(;true,false,new)",
            "1 batch 1 self _9 - []; true false new\n",
        ),
        (b"let p=new u c(;)", "1 batch 1 u c p [];\n"),
        (b"begin\nend", "1 batch\n"),
        (
            b"\nbegin // here\nexec u t(1;)\n\nlet c = new v d(;e)\nend //",
            "2 batch 3 u t - [Int(1)]; 5 v d c []; e\n",
        ),
        (
            b"begin\nend\nbegin\nexec u t(;)\nend\nexec u t(;)",
            "1 batch\n3 batch 4 u t - [];\n6 batch 6 u t - [];\n",
        ),
        (
            b"exec u t(9223372036854775807,-9223372036854775808;)",
            "1 batch 1 u t - [Int(9223372036854775807), Int(-9223372036854775808)];\n",
        ),
        (
            b"deposit u 01000000000000000000",
            "1 deposit u 1000000000000000000\n",
        ),
    ];
    for (text, wanted) in table {
        expect(&rt, text, wanted)?;
    }
    Ok(())
}

#[test]
fn names_among_arguments(rt: HostRuntime) -> Result<(), Fail> {
    let text = b"exec v two(; p, q)\ndeposit u 0\nexec u nope(;)\nexec u c(;)\nlet p = new u c(;)\n\
        let p = new u c(;)\nexec u two(; p)";
    let wanted =
        "1 batch 1 v two - []; p q\n2 deposit u 0\n3 batch 3 u nope - [];\n4 batch 4 u c - [];\n\
        5 batch 5 u c p [];\n6 batch 6 u c p [];\n7 batch 7 u two - []; p\n";
    expect(&rt, text, wanted)
}

#[test]
fn refused_lines(rt: HostRuntime) -> Result<(), Fail> {
    let first: [&[u8]; 52] = [
        b"deposit u 1000000000000000001",
        b"deposit u +1",
        b"deposit u -1",
        b"deposit u 1 2",
        b"deposit u 1;",
        b"deposit u 1\r",
        b"deposit u 1\r\r\n",
        b"deposit\ru 1\n",
        b"deposit \xc3 1",
        b"deposit 1 1",
        b"deposit u1",
        b"deposit u 1a",
        b"deposit u 1\x0c",
        b"deposit u 1 / /",
        b"depositu 1",
        b"DEPOSIT u 1",
        b"execute u t(;)",
        b"letx",
        b"7",
        b"(",
        b"/ /\nlet",
        b"let//",
        b"let c new u f(;)",
        b"let c = u f(;)",
        b"let c = old u f(;)",
        b"let 1 = new u f(;)",
        b"let c = new u f",
        b"exec",
        b"exec u",
        b"exec u t",
        b"exec u t(;) x",
        b"exec u t();",
        b"exec u t(;a,)",
        b"exec u t(;,a)",
        b"exec u t(;1)",
        b"exec u t(;a b)",
        b"exec u t(1,;)",
        b"exec u t(,1;)",
        b"exec u t(1 2;)",
        b"exec u t(- -1;)",
        b"exec u t(-true;)",
        b"exec u t(-;)",
        b"exec u t(True;)",
        b"exec u t([;)",
        b"exec u t(];)",
        b"exec u t([1,];)",
        b"exec u t([,1];)",
        b"exec u t([1;2];)",
        b"exec u t(9223372036854775808;)",
        b"exec u t(-9223372036854775809;)",
        b"end\nfoo",
        b"begin",
    ];
    for text in first {
        expect(&rt, text, "Syntax(1)")?;
    }
    Ok(())
}

#[test]
fn refused_batches(rt: HostRuntime) -> Result<(), Fail> {
    let table: [(&[u8], &str); 10] = [
        (b"exec u t(;)//\nfoo\nbar", "Syntax(2)"),
        (b"begin\nexec u t(;)\n", "Syntax(1)"),
        (b"begin\nend\n\nbegin\n\n", "Syntax(4)"),
        (b"begin\ndeposit u 1\nend", "Syntax(2)"),
        (b"begin\nshow\nend", "Syntax(2)"),
        (b"begin\nbegin\nend\nend", "Syntax(2)"),
        (b"begin\nend\nend", "Syntax(3)"),
        (b"begin x\nend", "Syntax(1)"),
        (b"begin\nend x", "Syntax(2)"),
        (b"show x", "Syntax(1)"),
    ];
    for (text, wanted) in table {
        expect(&rt, text, wanted)?;
    }
    Ok(())
}

#[test]
fn cut_scripts(rt: HostRuntime) -> Result<(), Fail> {
    let text = b"deposit u 7\r\n\nexec u t(-1;)".as_slice();
    for length in 0..=text.len() {
        let front = &text[..length];
        match length {
            0 => expect(&rt, front, "")?,
            1..=10 | 12 => expect(&rt, front, "Syntax(1)")?,
            11 | 13 | 14 => expect(&rt, front, "1 deposit u 7\n")?,
            15..=26 => expect(&rt, front, "Syntax(3)")?,
            _ => expect(&rt, front, "1 deposit u 7\n3 batch 3 u t - [Int(-1)];\n")?,
        }
    }
    Ok(())
}

// A text of a front, a part so many times, and a back.
fn repeated(alloc: Global, parts: [&str; 3], times: usize) -> Result<String, Fail> {
    let [front, part, back] = parts;
    let mut text = String::from_str(alloc, front)?;
    for _ in 0..times {
        text.push_str(part)?;
    }
    text.push_str(back)?;
    Ok(text)
}

// Fails unless a text with so many parts is refused at its line, or not at all.
fn expect_limit(
    rt: &(impl Abort + AllocGlobal),
    parts: [&str; 3],
    times: usize,
    wanted: Option<ScriptError>,
) -> Result<(), Fail> {
    let text = repeated(rt.alloc(), parts, times)?;
    let error = parse_script(rt.alloc(), text.as_bytes()).err();
    assert!(rt; error == wanted, "{times} times in {}", parts[0]);
    Ok(())
}

// A list in lists, so deep.
fn nested(alloc: Global, depth: usize) -> Result<String, Fail> {
    let open = repeated(alloc, ["exec u t(", "[", ""], depth)?;
    Ok(repeated(alloc, [open.as_str(), "]", ";)"], depth)?)
}

// Fails unless a list in lists, so deep, is refused at its line, or not at all.
fn expect_nested(
    rt: &(impl Abort + AllocGlobal),
    depth: usize,
    wanted: Option<ScriptError>,
) -> Result<(), Fail> {
    let text = nested(rt.alloc(), depth)?;
    let error = parse_script(rt.alloc(), text.as_bytes()).err();
    assert!(rt; error == wanted, "{depth} deep");
    Ok(())
}

#[test]
fn limits_of_lines(rt: HostRuntime) -> Result<(), Fail> {
    let refused = Some(ScriptError::Syntax(1));
    expect_limit(&rt, ["exec ", "a", " t(;)"], 64, None)?;
    expect_limit(&rt, ["exec ", "a", " t(;)"], 65, refused)?;
    expect_limit(&rt, ["exec u t(;", "a", ")"], 64, None)?;
    expect_limit(&rt, ["exec u t(;", "a", ")"], 65, refused)?;
    expect_limit(&rt, ["exec u t([1", ",1", "];)"], 9_999, None)?;
    expect_limit(&rt, ["exec u t([1", ",1", "];)"], 10_000, refused)?;
    expect_limit(&rt, ["exec u t([[1", ",1", "]];)"], 9_998, None)?;
    expect_limit(&rt, ["exec u t([[1", ",1", "]];)"], 9_999, refused)?;
    expect_limit(&rt, ["exec u t(1", ",1", ";)"], 10_001, None)?;
    expect_nested(&rt, 64, None)?;
    expect_nested(&rt, 65, refused)
}

#[test]
fn longest_scripts(rt: HostRuntime) -> Result<(), Fail> {
    let mut text = vec![in rt.alloc(); b' '; TEXT_LIMIT]?;
    expect(&rt, &text, "")?;
    text.push(b' ')?;
    expect(&rt, &text, "TooLong")
}
