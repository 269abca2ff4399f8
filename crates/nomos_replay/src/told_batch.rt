//! Batches that a text says, from their first firing to their end.

ghost use Rattle.std.specs.Prelude.{◌≡◌, ◌≤◌, ◌+◌, ◌^◌, ℕ, List, IfOk, MatchResult, length};
ghost use Rattle.nomos_script.specs.declared.item.Batch.{Batch};
ghost use Rattle.nomos_script.specs.declared.item.ScriptItem.{ScriptItem};
ghost use Rattle.nomos_legal.specs.Ending.{IsAllowed};
ghost use Rattle.nomos_legal.specs.Ledger.{LedgerState};
ghost use Rattle.nomos_legal.specs.StandsFor.{WorldStandsFor};
ghost use Rattle.nomos_ledger.specs.Running.{RunsOn};
ghost use Rattle.nomos_walk.specs.Walks.{HasItemRoom};
ghost use Rattle.nomos_ledger.specs.Watching.{IsWatched};
ghost use Rattle.nomos_replay.specs.Stand.{before, fires, told_run};
ghost use Rattle.nomos_replay.specs.Told.{Told, next_limit};
ghost use Rattle.nomos_replay.specs.mirror.JournalReading.{Carries, IsCounted, Stops};
ghost use Rattle.nomos_replay.specs.mirror.BatchUnderWay.{under_way};

use crate::ends::{KeptEnd, judge_end};
use crate::error::ReplayError;
use crate::journal_lines::JournalLines;
use crate::line_kinds::end_in;
use crate::told_firing::{FiringLine, fire_line};
use crate::trial::Trial;
use nomos_deeds::undo::Undo;
use nomos_ledger::watched::Watched;
use nomos_legal::journal::End;

/// Reads and makes the firings of a batch that may make so many, up to its end.
pub(crate) fn replay_firings<M: Undo>(
    trial: &Trial<'_>,
    source: &mut JournalLines<'_>,
    watched: &mut Watched<M>,
    most: u32,
) -> Result<End, ReplayError>
    requires counted { IsCounted source.old }
    requires stands { WorldStandsFor trial.now.accepted.now watched.old.world }
    requires watched { IsWatched trial.now.accepted.now watched.old.world.state watched.old.awake }
    requires within { length watched.old.world.firings ≤ most }
    requires room { HasItemRoom watched.old.world.origin (length watched.old.world.starts) most }
    ensures read { (first : LedgerState) (all items : List ScriptItem) (batch : Batch) (told : Told)
        → next_limit told ≡ most
        → MatchResult result
        (λ e. Carries trial.now.accepted.now first all source.old
        (fires trial.now.version told (under_way batch watched.old.world) items)
        source.new
        (before trial.now.version (told_run trial.now.accepted.now told (under_way batch watched.new.world) e) items))
        (Stops trial.now.accepted.now first all source.old
        (fires trial.now.version told (under_way batch watched.old.world) items)) }
    ensures allowed { IfOk result
        (IsAllowed trial.now.accepted.now watched.new.world.state (length watched.new.world.firings) most) }
    ensures counted { IsCounted source.new }
    ensures ran { IfOk result (λ _. RunsOn trial.now.accepted.now most watched.old.world watched.new.world) }
{
    trial.accepted.know();
    'lines: loop {
        let line = source.next_line(trial.alloc, trial.accepted)?;
        match end_in(line) {
            Ok(end) => {
                let at = source.at;
                return judge_end(
                    trial.alloc,
                    trial.accepted,
                    watched,
                    most,
                    KeptEnd { at, end },
                );
            }
            Err(line) => {
                let at = source.at;
                let read = FiringLine {
                    line: &line,
                    at,
                    most,
                };
                fire_line(trial, watched, read)?;
            }
        }
    }
}
