//! The load that `bench` runs: an auction, and a script in which each bidder places a bid.

ghost use Rattle.std.specs.Prelude.{◌≡◌, ◌+◌, ◌++◌, OnOk};
ghost use Rattle.nomos_words.specs.BenchLoad.{auction_text, bid_for, bid_line, bidder_lines, bidders_lines, gas_line, load_script, next_draw, wallet_line};

use crate::auction::AUCTION;
use crate::counted::push_counted;
use std::alloc::AllocError;

/// The text of the auction.
#[tactic(auto, unfolding(crate::specs::BenchLoad::auction_text))]
pub fn auction_text() -> &'static [u8]
    ensures { result.now ≡ auction_text }
{
    AUCTION
}

/// Appends the script: the seller begins the auction, each bidder from 1 on places a bid that is drawn from the seed,
/// and the seller asks for the best (docs/TEXTS.md, "The load of `bench`"). Where memory runs out, a part of it may
/// stand there.
pub fn push_load_script(text: &mut Vec<u8>, seed: u64, bidders: u32) -> Result<(), AllocError>
    ensures { OnOk result (text.new.items ≡ text.old.items ++ load_script seed bidders) }
{
    text.extend_from_slice(
        b"deposit seller 2\nlet ws = new seller keep(0;)\nlet auc = new seller start(0; ws)\n",
    )?;
    push_bidders(text, seed, bidders)?;
    text.extend_from_slice(b"exec seller ask(; auc)\n")?;
    Ok(())
}

// Appends what the bidders do.
fn push_bidders(text: &mut Vec<u8>, seed: u64, bidders: u32) -> Result<(), AllocError>
    ensures { OnOk result (text.new.items ≡ text.old.items ++ bidders_lines seed bidders) }
{
    let mut drawn = seed;
    for before in 0..u64::from(bidders) {
        drawn = next_draw(drawn);
        push_bidder(text, before + 1, bid_for(drawn))?;
    }
    Ok(())
}

// The number that is drawn behind this one.
fn next_draw(drawn: u64) -> u64
    ensures { result ≡ next_draw drawn }
{
    drawn
        .wrapping_mul(6_364_136_223_846_793_005)
        .wrapping_add(1_442_695_040_888_963_407)
}

// The bid for a number that was drawn.
fn bid_for(drawn: u64) -> u64
    ensures { result ≡ bid_for drawn }
{
    1 + (drawn >> 33) % 1000
}

// Appends what a bidder does.
fn push_bidder(text: &mut Vec<u8>, bidder: u64, bid: u64) -> Result<(), AllocError>
    ensures { OnOk result (text.new.items ≡ text.old.items ++ bidder_lines bidder bid) }
{
    push_gas_line(text, bidder)?;
    push_wallet_line(text, bidder)?;
    push_bid_line(text, bidder, bid)
}

// Appends the deposit of a bidder.
fn push_gas_line(text: &mut Vec<u8>, bidder: u64) -> Result<(), AllocError>
    ensures { OnOk result (text.new.items ≡ text.old.items ++ gas_line bidder) }
{
    push_counted(text, b"deposit u", bidder)?;
    text.extend_from_slice(b" 3\n")?;
    Ok(())
}

// Appends the wallet of a bidder.
fn push_wallet_line(text: &mut Vec<u8>, bidder: u64) -> Result<(), AllocError>
    ensures { OnOk result (text.new.items ≡ text.old.items ++ wallet_line bidder) }
{
    push_counted(text, b"let w", bidder)?;
    push_counted(text, b" = new u", bidder)?;
    text.extend_from_slice(b" keep(0;)\n")?;
    Ok(())
}

// Appends the bid of a bidder.
fn push_bid_line(text: &mut Vec<u8>, bidder: u64, bid: u64) -> Result<(), AllocError>
    ensures { OnOk result (text.new.items ≡ text.old.items ++ bid_line bidder bid) }
{
    push_counted(text, b"exec u", bidder)?;
    push_counted(text, b" place(", bid)?;
    push_counted(text, b"; auc, w", bidder)?;
    text.extend_from_slice(b")\n")?;
    Ok(())
}
