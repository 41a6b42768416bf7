//! The spine of a plan: the plan and those below it along the first children.
ghost use Rattle.std.specs.Prelude.{map, IfOk};
ghost use Rattle.mz_plan.specs.Spine.{IsSpine};

use mz_plan::Plan;
use std::alloc::{AllocError, Global};

/// The plan, the first plan below it, the first below that one, and so on to the leaf, as a list.
pub fn spine<'a>(alloc: Global, plan: &'a Plan) -> Result<Vec<&'a Plan>, AllocError>
    ensures { IfOk result (λ spine. IsSpine plan.now (map (λ one. one.now) spine.items)) }
{
    let mut spine = Vec::new(alloc);
    let mut next = Some(plan);
    'down: while let Some(one) = next {
        spine.push(one)?;
        next = one.first();
    }
    Ok(spine)
}
