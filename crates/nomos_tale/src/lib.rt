//! Tales: a script is run in one of many orders, and each line of its journal says what the firing did.
#![tactic(auto)]

mod after;
mod batch_tale;
mod before;
mod firing_tale;
mod kept_journal;
mod next_firing;
pub mod order;
mod starts;
pub mod tale;
mod tale_words;
mod teller;
pub mod untold;
