//! How channels pass to another process.
ghost use Rattle.std.specs.Prelude.{◌<◌, All, IfOk, length};
ghost use Rattle.nomos_types.specs.Judgement.{IsJudgement};
ghost use Rattle.nomos_types.specs.Typed.{IsWellFormed};
ghost use Rattle.nomos_check.specs.mirror.Passing.{TellsChannel, TellsChannels};
ghost use Rattle.nomos_check.specs.mirror.StandingData.{shape_of, IsReady, KeepsCompared};

use crate::asked::Asked;
use crate::comparing::are_alike;
use crate::standing::Standing;
use nomos_ir::ids::{TypeId, VarId};
use nomos_ir::program::Program;
use std::alloc::AllocError;

/// Whether the channel or the reference passes as one of the type. A reference stays; a channel is used up.
pub(crate) fn pass_channel(
    program: &Program,
    asked: &mut Asked<'_>,
    now: &mut Standing,
    v: VarId,
    t: TypeId,
) -> Result<bool, AllocError>
    requires formed { IsWellFormed program.now }
    requires ready { IsReady program.now asked.old }
    requires judgement { IsJudgement program.now (shape_of now.old) }
    requires in_range { t.0 < length program.now.types }
    ensures ready { IsReady program.now asked.new }
    ensures kept { KeepsCompared asked.old asked.new }
    ensures tells { IfOk result (TellsChannel program.now now.old now.new v t asked.old asked.new) }
{
    if let Some(own) = now.shared.get(v) {
        return are_alike(program, asked, own, t);
    }
    let own = match now.linear.get(v) {
        Some(own) => own,
        None => return Ok(false),
    };
    if !are_alike(program, asked, own, t)? {
        return Ok(false);
    }
    now.linear.unbind(v);
    Ok(true)
}

/// Whether the channels pass for the parameters, one after another.
pub(crate) fn pass_channels(
    program: &Program,
    asked: &mut Asked<'_>,
    now: &mut Standing,
    channels: &[VarId],
    pars: &[(VarId, TypeId)],
) -> Result<bool, AllocError>
    requires formed { IsWellFormed program.now }
    requires ready { IsReady program.now asked.old }
    requires judgement { IsJudgement program.now (shape_of now.old) }
    requires in_range { All (λ par. par.1.0 < length program.now.types) pars.now }
    ensures ready { IsReady program.now asked.new }
    ensures kept { KeepsCompared asked.old asked.new }
    ensures tells { IfOk result (TellsChannels program.now now.old now.new channels.now pars.now asked.old asked.new) }
{
    if channels.len() != pars.len() {
        return Ok(false);
    }
    for i in 0..pars.len() {
        if !pass_channel(program, asked, now, channels[i], pars[i].1)? {
            return Ok(false);
        }
    }
    Ok(true)
}
