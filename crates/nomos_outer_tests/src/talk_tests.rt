//! Small talks, and refusals.
use nomos_script::talk_line::TalkLine;
use nomos_script::talk_parsing::parse_talk;
use std::alloc::Global;
use std::process::Abort;
use std::test::Fail;

// What a line says, behind its number.
fn line_text(alloc: Global, number: u32, said: &TalkLine) -> Result<String, Fail> {
    match said {
        TalkLine::Label(name) => Ok(format!(in alloc; "{number} label {}\n", name.as_str())?),
        TalkLine::Value(value) => Ok(format!(in alloc; "{number} value {:?}\n", value.node())?),
        TalkLine::Pay => Ok(format!(in alloc; "{number} pay\n")?),
        TalkLine::Hear => Ok(format!(in alloc; "{number} hear\n")?),
    }
}

// Lines, one behind the other.
fn lines_text(alloc: Global, lines: &[(u32, TalkLine)]) -> Result<String, Fail> {
    let mut text = String::new(alloc);
    for (number, said) in lines {
        text.push_str(line_text(alloc, *number, said)?.as_str())?;
    }
    Ok(text)
}

// What a text reads as, or why it is refused.
fn read_as(alloc: Global, text: &[u8]) -> Result<String, Fail> {
    match parse_talk(alloc, text) {
        Ok(talk) => {
            let lines = lines_text(alloc, talk.as_slice());
            drop(talk);
            lines
        }
        Err(error) => Ok(format!(in alloc; "{error:?}")?),
    }
}

// Fails unless the text reads as this, or is refused so.
fn expect(rt: &(impl Abort + AllocGlobal), text: &[u8], wanted: &str) -> Result<(), Fail> {
    let found = read_as(rt.alloc(), text)?;
    assert!(rt; found.as_str() == wanted, "{text:?} is {found}");
    Ok(())
}

#[test]
fn small_talks(rt: HostRuntime) -> Result<(), Fail> {
    let table: [(&[u8], &str); 16] = [
        (b"", ""),
        (b" \t//\n\n", ""),
        (
            b"label value\nhear\nhear\nlabel burn",
            "1 label value\n2 hear\n3 hear\n4 label burn\n",
        ),
        (b"pay // label\r\n\r\nhear\r\n", "1 pay\n3 hear\n"),
        (b"value - 07", "1 value Int(-7)\n"),
        (
            b"value[[],[true]]//;",
            "1 value List([List([]), List([Bool(true)])])\n",
        ),
        (b"value 1 2", "Syntax(1)"),
        (b"value 1,2", "Syntax(1)"),
        (b"value 1;", "Syntax(1)"),
        (b"\nvalue", "Syntax(2)"),
        (b"value [1", "Syntax(1)"),
        (b"value -", "Syntax(1)"),
        (b"hear\nlabel 1\nshout", "Syntax(2)"),
        (b"label a b", "Syntax(1)"),
        (b"pay 1", "Syntax(1)"),
        (b"hear\r", "Syntax(1)"),
    ];
    for (text, wanted) in table {
        expect(&rt, text, wanted)?;
    }
    Ok(())
}
