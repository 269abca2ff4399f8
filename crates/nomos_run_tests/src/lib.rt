//! Tests of scripts that run on contracts of the whole language, by one worker and by several: what is printed, what
//! their journals tell, and the batches, gates and worlds of several workers.
#![tactic(auto)]

#[cfg(test)]
mod auction_script;
#[cfg(test)]
mod batch_tests;
#[cfg(test)]
mod contracts;
#[cfg(test)]
mod course_tests;
#[cfg(test)]
mod crew_script_tests;
#[cfg(test)]
mod crew_telling;
#[cfg(test)]
mod gates;
#[cfg(test)]
mod journal_tests;
#[cfg(test)]
mod report_tests;
#[cfg(test)]
mod retelling_tests;
#[cfg(test)]
mod shop_tests;
#[cfg(test)]
mod start_tests;
#[cfg(test)]
mod told_scripts;
#[cfg(test)]
mod worlds;
