//! The first `work` that is written.
ghost use Rattle.std.specs.Prelude.{◌≡◌, map};
ghost use Rattle.std.specs.List.{flat_map};
ghost use Rattle.nomos_elaborate.specs.CostModel.{model_of};
ghost use Rattle.nomos_elaborate.specs.WrittenWork.{arm_works, code_works, decl_works, first_of_list, last_works, step_works, written_work};
ghost use Rattle.nomos_surface.specs.CodeView.{arm_tree, arm_trees, code_tree, last_tree};
ghost use Rattle.nomos_surface.specs.FileView.{decl_tree, file_tree};
ghost use Rattle.nomos_surface.specs.StepView.{step_tree};

use nomos_surface::codes::{SurfaceArm, SurfaceCode, SurfaceLast};
use nomos_surface::declarations::SurfaceDecl;
use nomos_surface::steps::SurfaceStep;
use nomos_surface::surface::{CostModel, Surface};

/// The first `work` among steps.
fn work_in_steps(steps: &[SurfaceStep]) -> Option<u32>
    ensures { result ≡ first_of_list (flat_map step_works (map step_tree steps.now)) }
{
    for step in steps {
        if let SurfaceStep::Work { at, .. } = step {
            return Some(*at);
        }
    }
    None
}

/// The first `work` of a code.
#[cycle(works)]
#[tactic(auto, unfolding(crate::specs::WrittenWork::code_works))]
fn work_in_code(code: &SurfaceCode) -> Option<u32>
    ensures { result ≡ first_of_list (code_works (code_tree code.now)) }
{
    match work_in_steps(code.steps.as_slice()) {
        Some(at) => Some(at),
        None => work_in_last(&code.last),
    }
}

/// The first `work` of the codes of a last instruction.
#[cycle(works)]
#[tactic(auto, unfolding(crate::specs::WrittenWork::last_works))]
fn work_in_last(last: &SurfaceLast) -> Option<u32>
    ensures { result ≡ first_of_list (last_works (last_tree last.now)) }
{
    match last {
        SurfaceLast::Close { .. } | SurfaceLast::Fwd { .. } | SurfaceLast::Call { .. } => None,
        SurfaceLast::If { holds, fails, .. } => match work_in_code(holds) {
            Some(at) => Some(at),
            None => work_in_code(fails),
        },
        SurfaceLast::Case { arms, .. } => work_in_arms(arms),
        SurfaceLast::Match { empty, more, .. } => match work_in_code(empty) {
            Some(at) => Some(at),
            None => work_in_code(more),
        },
    }
}

/// The first `work` of the branches of a `case`.
#[cycle(works)]
fn work_in_arms(arms: &[SurfaceArm]) -> Option<u32>
    ensures { result ≡ first_of_list (arm_works (arm_trees (map arm_tree arms.now))) }
{
    for arm in arms {
        if let Some(at) = work_in_arm(arm) {
            return Some(at);
        }
    }
    None
}

/// The first `work` of a branch.
#[cycle(works)]
fn work_in_arm(arm: &SurfaceArm) -> Option<u32>
    ensures { result ≡ first_of_list (code_works (arm_tree arm.now).1) }
{
    work_in_code(&arm.goes)
}

/// The first `work` of a declaration.
fn work_in_decl(decl: &SurfaceDecl) -> Option<u32>
    ensures { result ≡ first_of_list (decl_works (decl_tree decl.now)) }
{
    match decl {
        SurfaceDecl::Definition(_) | SurfaceDecl::Function(_) => None,
        SurfaceDecl::Process(tree) => work_in_code(&tree.code),
        SurfaceDecl::Transaction(tree) => work_in_code(&tree.code),
    }
}

/// The first `work` of declarations.
fn work_in_decls(decls: &[SurfaceDecl]) -> Option<u32>
    ensures { result ≡ first_of_list (flat_map decl_works (map decl_tree decls.now)) }
{
    for decl in decls {
        if let Some(at) = work_in_decl(decl) {
            return Some(at);
        }
    }
    None
}

/// The cost model of a text.
pub(crate) fn model_of(surface: &Surface) -> CostModel
    ensures { result ≡ model_of surface.now.cost }
{
    match surface.cost {
        None => CostModel::Ticks,
        Some(line) => line.model,
    }
}

/// The first `work` that is written where the cost model allows none.
pub(crate) fn written_work(surface: &Surface) -> Option<u32>
    ensures { result ≡ written_work (file_tree surface.now) }
{
    match model_of(surface) {
        CostModel::Ticks | CostModel::Sends => None,
        CostModel::All => work_in_decls(surface.declarations.as_slice()),
    }
}
