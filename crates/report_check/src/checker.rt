//! The checker.
ghost use Rattle.std.specs.Prelude.{◌≡◌, ◌≤◌, IfOk, length, map};
ghost use Rattle.net_reader.specs.Seen.{seen_input};
ghost use Rattle.net_reader.specs.Valid.{IsValid};
ghost use Rattle.region_plan.specs.Plan.{PlanData};
ghost use Rattle.report_check.specs.Grounds.{IsGround, IsGroundAlone};
ghost use Rattle.report_check.specs.ReadLines.{seen};
ghost use Rattle.report_check.specs.Verdicts.{judged, most_bytes, verdict_of};

use crate::blocks::{LinesByActor, behind_tickets, blocks_of, switch_block};
use crate::calls::Bounds;
use crate::judge::{Ground, judge, line_behind};
use crate::report::{Report, read_report};
use crate::slots::slots_of;
use crate::verdict::{Flaw, Verdict};
use distances::Distances;
use net_reader::{Call, Input};
use region_plan::Plan;
use std::alloc::{AllocError, Global};

// The verdict on a report that was read.
fn judge_lines(
    alloc: Global,
    ground: &Ground<'_>,
    scripts: &[Vec<Call>],
    found: &Report,
) -> Result<Verdict, AllocError>
    requires { IsGroundAlone ground.now }
    ensures { IfOk result (λ verdict. (plan : PlanData) → IsGround plan ground.now
        → verdict ≡ judged plan ground.now.homes.now (map (λ script. script.items) scripts.now)
        (seen found.now)) }
{
    let blocks = blocks_of(alloc, scripts.len(), &found.calls)?;
    let behind = behind_tickets(alloc, scripts.len(), &found.order)?;
    let lines = LinesByActor {
        calls: &found.calls,
        blocks: &blocks,
        switches: switch_block(&found.calls),
    };
    Ok(judge(ground, scripts, &lines, &found.order, &behind))
}

/// Whether a report is sound for an input over its plan and the plan's distances, and else its
/// first flaw and the line where it stands (docs/FORMATS.md, "The checker"). A report has at most
/// 67,108,864 bytes. The only fault is want of memory.
pub fn check(
    alloc: Global,
    input: &Input,
    plan: &Plan,
    distances: &Distances,
    report: &[u8],
) -> Result<Verdict, AllocError>
    requires valid { IsValid (seen_input input.now) }
    requires distances { distances.now ≡ plan.now.distances }
    requires few { length report.now ≤ most_bytes }
    ensures { IfOk result
        (λ verdict. verdict ≡ verdict_of plan.now (seen_input input.now) report.now) }
{
    let bounds = Bounds {
        nodes: plan.nodes(),
        levels: plan.levels(),
    };
    let slots = slots_of(alloc, input)?;
    match read_report(alloc, bounds, &slots, report)? {
        Err(lines) => Ok(Verdict::Unsound {
            line: line_behind(lines),
            cause: Flaw::Form,
        }),
        Ok(found) => {
            let ground = Ground {
                homes: &input.homes,
                nodes: plan.nodes(),
                stretch: plan.stretch(),
                distances,
            };
            judge_lines(alloc, &ground, &input.scripts, &found)
        }
    }
}
