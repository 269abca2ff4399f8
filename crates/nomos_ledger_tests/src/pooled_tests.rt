//! Tests: scripts whose single lines threads submit.

use nomos_ir::items::Items;
use nomos_ir::value::Values;
use nomos_pool::pooled::{is_single, pool_items};
use nomos_script::item::{Batch, ScriptItem, ScriptItems, Start};
use nomos_script::name::{ScriptName, is_script_name};
use nomos_script::parsing::parse_script;
use std::process::Abort;
use std::sync::Wait;
use std::thread::Threads;

// One line, alone and between `begin` and `end`, and a contract that is made.
const FOUR_ITEMS: &str = "exec u p(;)
begin
exec u p(;)
end
let c = new u p(;)
show
";

// Only the line that stands alone is a single one.
#[test]
fn a_line_between_begin_and_end_is_not_single(rt: HostRuntime) {
    let Ok(script) = parse_script(rt.alloc(), FOUR_ITEMS.as_bytes()) else {
        panic!(rt; "no script")
    };
    let items = script.items().as_slice();
    assert_eq!(rt; items.len(), 4);
    assert!(rt; is_single(&items[0]));
    assert_eq!(rt; items.iter().filter(|item| is_single(item)).count(), 1);
}

// A name of a script.
fn name_of<R: Abort + AllocGlobal>(rt: &R, text: &str) -> ScriptName {
    let Ok(bytes) = Vec::from_slice(rt.alloc(), text.as_bytes()) else {
        panic!(rt; "memory was wanting")
    };
    if !is_script_name(bytes.as_slice()) {
        panic!(rt; "no name")
    }
    ScriptName::of_vec(bytes)
}

// A single line `exec` on this line of the text.
fn line_of<R: Abort + AllocGlobal>(rt: &R, line: u32, sender: &str) -> ScriptItem {
    let start = Start {
        line,
        sender: name_of(rt, sender),
        proc: name_of(rt, "p"),
        values: Values::empty(),
        names: Items::of_vec(Vec::new(rt.alloc())),
        contract: None,
    };
    let mut starts = Vec::new(rt.alloc());
    if starts.push(start).is_err() {
        panic!(rt; "memory was wanting")
    }
    ScriptItem::Batch(Batch {
        line,
        starts: Items::of_vec(starts),
    })
}

/// Those who send, one after the other.
pub(crate) const SENDERS: [&str; 11] = ["a", "b", "c", "d", "e", "f", "g", "h", "i", "j", "k"];

// So many lines, from the first line on, of eleven senders.
fn lines_of<R: Abort + AllocGlobal>(rt: &R, count: u32) -> Vec<ScriptItem> {
    let mut items = Vec::new(rt.alloc());
    for line in 0..count {
        if items
            .push(line_of(rt, line, SENDERS[line as usize % 11]))
            .is_err()
        {
            panic!(rt; "memory was wanting")
        }
    }
    items
}

// Whether a line is sent by an account.
fn is_of(item: &ScriptItem, sender: &str) -> bool {
    match item {
        ScriptItem::Batch(batch) => match batch.starts.as_slice() {
            [start] => start.sender.as_bytes() == sender.as_bytes(),
            _ => false,
        },
        _ => false,
    }
}

// The line of the text of an item, where it is a batch.
fn text_line(item: &ScriptItem) -> Option<u32> {
    match item {
        ScriptItem::Batch(batch) => Some(batch.line),
        _ => None,
    }
}

/// Whether the lines of an account are every eleventh one from the first on, in order, up to a count.
pub(crate) fn keeps_order(items: &[ScriptItem], sender: &str, first: u32, count: u32) -> bool {
    let mut next = first;
    for item in items {
        if is_of(item, sender) {
            if text_line(item) != Some(next) {
                return false;
            }
            next = next.saturating_add(11);
        }
    }
    next >= count
}

// Fails unless of each account its lines come in the order of the script.
fn expect_orders<R: Abort>(rt: &R, items: &[ScriptItem], count: u32) {
    for first in 0..11 {
        assert!(rt; keeps_order(items, SENDERS[first as usize], first, count));
    }
}

// What items come to with eight threads.
fn pooled<R: Abort + AllocGlobal + Threads + Wait + Sync>(
    rt: &R,
    items: Vec<ScriptItem>,
) -> Result<ScriptItems, u32> {
    match pool_items(rt, rt.alloc(), Items::of_vec(items), 8) {
        Ok(answer) => answer,
        Err(_) => panic!(rt; "memory was wanting"),
    }
}

// A thousand lines of eleven accounts: of each account they keep their order.
#[test]
fn accounts_keep_their_order(rt: HostRuntime) {
    let Ok(items) = pooled(&rt, lines_of(&rt, 1000)) else {
        panic!(rt; "a line was refused")
    };
    assert_eq!(rt; items.len(), 1000);
    expect_orders(&rt, items.as_slice(), 1000);
}

// Another item behind a single line is refused by its line, and one before is not.
#[test]
fn another_item_is_refused_behind_a_single_line(rt: HostRuntime) {
    let mut items = lines_of(&rt, 20);
    assert!(rt; items.push(ScriptItem::Show { line: 20 }).is_ok());
    assert!(rt; matches!(pooled(&rt, items), Err(20)));
}
