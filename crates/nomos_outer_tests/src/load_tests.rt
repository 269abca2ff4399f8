//! Tests: the script of a load, and the summary of a load.
use nomos_ir::value::Value;
use nomos_words::load::{auction_text, push_load_script};
use nomos_words::summary::{Figures, push_summary};
use std::test::Fail;

/// Two bidders, whose bids are drawn from the greatest seed, and a text in front.
#[test]
fn scripts(rt: HostRuntime) -> Result<(), Fail> {
    let mut text = Vec::from_slice(rt.alloc(), b"// a load\n")?;
    push_load_script(&mut text, u64::MAX, 2)?;
    let wanted =
        b"// a load\ndeposit seller 2\nlet ws = new seller keep(0;)\nlet auc = new seller start(0; ws)\n\
        deposit u1 3\nlet w1 = new u1 keep(0;)\nexec u1 place(489; auc, w1)\n\
        deposit u2 3\nlet w2 = new u2 keep(0;)\nexec u2 place(344; auc, w2)\nexec seller ask(; auc)\n";
    assert_eq!(rt; text.as_slice(), wanted.as_slice());
    assert_eq!(rt; auction_text().len(), 1399);
    Ok(())
}

/// With a best bid, and without one.
#[test]
fn summaries(rt: HostRuntime) -> Result<(), Fail> {
    let figures = Figures {
        seed: 7,
        bidders: 10,
        entries: 34,
        firings: 394,
        spent: 32,
        unit: 1,
    };
    let mut text = Vec::new(rt.alloc());
    push_summary(&mut text, &figures, Some(&Value::int(865)))?;
    let wanted = b"bench 7 10\nentries 34\nfirings 394\nspent 32\nbest 865\n";
    assert_eq!(rt; text.as_slice(), wanted.as_slice());
    text.clear();
    push_summary(&mut text, &figures, None)?;
    assert_eq!(rt;
        text.as_slice(),
        b"bench 7 10\nentries 34\nfirings 394\nspent 32\n".as_slice()
    );
    Ok(())
}
