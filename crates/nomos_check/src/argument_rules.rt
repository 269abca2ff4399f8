//! How the arguments of a spawned or called declaration pass.
ghost use Rattle.std.specs.Prelude.{◌<◌, All, IfOk, length};
ghost use Rattle.std.specs.List.{flat_map};
ghost use Rattle.nomos_ir.specs.CodeParts.{arg_terms};
ghost use Rattle.nomos_ir.specs.Ids.{AllBelow};
ghost use Rattle.nomos_types.specs.Judgement.{IsJudgement};
ghost use Rattle.nomos_types.specs.Typed.{IsWellFormed};
ghost use Rattle.nomos_check.specs.mirror.Passing.{TellsArguments};
ghost use Rattle.nomos_check.specs.mirror.StandingData.{shape_of, IsReady, KeepsCompared};

use crate::asked::Asked;
use crate::giving::pass_values;
use crate::passing::pass_channels;
use crate::standing::Standing;
use nomos_ir::code_node::Args;
use nomos_ir::declaration::ProcDecl;
use nomos_ir::program::Program;
use std::alloc::AllocError;

/// Whether the arguments fit the declaration: values and lists pass first, then channels.
pub(crate) fn pass_arguments(
    program: &Program,
    asked: &mut Asked<'_>,
    now: &mut Standing,
    d: &ProcDecl,
    args: &Args,
) -> Result<bool, AllocError>
    requires formed { IsWellFormed program.now }
    requires ready { IsReady program.now asked.old }
    requires judgement { IsJudgement program.now (shape_of now.old) }
    requires terms { AllBelow (length program.now.terms) (flat_map arg_terms args.now.values) }
    requires in_range { All (λ par. par.1.0 < length program.now.types) d.now.channels }
    ensures ready { IsReady program.now asked.new }
    ensures kept { KeepsCompared asked.old asked.new }
    ensures tells { IfOk result (TellsArguments program.now now.old now.new d.now args.now asked.old asked.new) }
{
    if !pass_values(
        program,
        asked,
        now,
        args.values.as_slice(),
        d.values.as_slice(),
    )? {
        return Ok(false);
    }
    pass_channels(
        program,
        asked,
        now,
        args.channels.as_slice(),
        d.channels.as_slice(),
    )
}
