//! The text of a plan, part by part.
ghost use Rattle.std.specs.Prelude.{◌≡◌, ◌≢◌, ℕ, ◌<◌, ◌≤◌, ◌+◌, ◌-◌, ◌*◌, ◌++◌, [], length, take, drop, true, false, IfOk, OnOk};
ghost use Rattle.region_plan.specs.Plan.{level_at, cluster_at, members_of, nodes_of, levels_of, clusters_of};
ghost use Rattle.region_plan.specs.Kept.{IsKept};
ghost use Rattle.outside.specs.Texts.{fields};
ghost use Rattle.report_text.specs.PlanText.{cluster_head, level_line, plan_line, plan_text_of};
ghost use Rattle.report_text.specs.Written.{IsPart, IsInPlan, IsStep, KeepsBody};
ghost use Rattle.report_text.specs.Written.{clusters_left, levels_left};
ghost use Rattle.report_text.specs.declared.plan.NextPart.TheVariants.{Measures, Level, Cluster, Members, Homes, Done};

use crate::kept::KeptBody;
use region_plan::Plan;
use std::alloc::{AllocError, Global};
use std::marker::Model;
use text_line::Line;

// A part has no more numbers of a list than this.
const MOST_IN_A_PART: usize = 64;

/// What the next part begins with.
#[derive(Clone, Copy)]
enum NextPart {
    Measures,
    Level {
        level: u32,
    },
    Cluster {
        level: u32,
        cluster: u32,
    },
    Members {
        level: u32,
        cluster: u32,
        from: usize,
    },
    Homes {
        level: u32,
        from: u32,
    },
    Done,
}

// The line that measures the plan.
fn write_measures(line: &mut Line, plan: &Plan) -> NextPart
    requires { line.old ≡ [] }
    ensures { IsPart plan.now Measures result line.new }
{
    line.label_number("plan nodes", u64::from(plan.nodes()));
    line.label_number(" k", u64::from(plan.k()));
    line.label_number(" levels", u64::from(plan.levels()));
    line.label_number(" degree", u64::from(plan.degree()));
    line.label_number(" stretch", plan.stretch());
    line.word("\n");
    NextPart::Level { level: 0 }
}

// The line that begins a level.
fn write_level(line: &mut Line, plan: &Plan, level: u32)
    requires empty { line.old ≡ [] }
    requires level { level < levels_of plan.now }
    requires kept { IsKept plan.now }
    ensures { line.new ≡ level_line level (level_at plan.now level) }
{
    line.label_number("level", u64::from(level));
    line.label_number(" radius", 1u64 << plan.exponent(level));
    line.label_number(" clusters", u64::from(plan.clusters(level)));
    line.label_number(" phases", u64::from(plan.phases(level)));
    line.word("\n");
}

// Whether the kept body is that of a level too.
fn is_body_of(kept: &KeptBody, plan: &Plan, level: u32) -> bool
    requires level { level < levels_of plan.now }
    requires keeps { KeepsBody plan.now (Level level) kept.now }
    ensures { result ≡ true → (kept.now.body.items ++ levels_left plan.now (level + 1)
        ≡ clusters_left plan.now level 0) × (0 < length kept.now.body.items) }
{
    let Some(below) = kept.level else {
        return false;
    };
    match level.checked_sub(below) {
        Some(1) => plan.repeats(level),
        _ => false,
    }
}

// Begins a level, or ends the text.
fn begin_level(line: &mut Line, plan: &Plan, level: u32, kept: &mut KeptBody) -> NextPart
    requires empty { line.old ≡ [] }
    requires sound { IsKept plan.now }
    requires keeps { KeepsBody plan.now (Level level) kept.old }
    requires still { kept.old.waits ≡ false }
    ensures { IsStep plan.now (Level level) result kept.new line.new }
{
    if level >= plan.levels() {
        line.word("end\n");
        kept.level = None;
        return NextPart::Done;
    }
    write_level(line, plan, level);
    if is_body_of(kept, plan, level) {
        kept.level = Some(level);
        kept.waits = true;
        return NextPart::Level { level: level + 1 };
    }
    kept.body.clear();
    kept.level = Some(level);
    NextPart::Cluster { level, cluster: 0 }
}

// What stands before a cluster's members.
fn write_cluster(line: &mut Line, plan: &Plan, level: u32, cluster: u32)
    requires empty { line.old ≡ [] }
    requires level { level < levels_of plan.now }
    requires cluster { cluster < clusters_of plan.now level }
    ensures { line.new ≡ cluster_head cluster (cluster_at plan.now level cluster) }
{
    line.label_number("cluster", u64::from(cluster));
    line.label_number(" phase", u64::from(plan.phase_of(level, cluster)));
    line.label_number(" leader", u64::from(plan.leader(level, cluster)));
    line.label_number(" depth", plan.depth(level, cluster));
    line.word(" members");
}

// What stands before a cluster's members, or before the homes.
fn write_cluster_or_homes(line: &mut Line, plan: &Plan, level: u32, cluster: u32) -> NextPart
    requires empty { line.old ≡ [] }
    requires level { level < levels_of plan.now }
    ensures { IsPart plan.now (Cluster level cluster) result line.new }
{
    if cluster < plan.clusters(level) {
        write_cluster(line, plan, level, cluster);
        NextPart::Members {
            level,
            cluster,
            from: 0,
        }
    } else {
        line.word("homes");
        NextPart::Homes { level, from: 0 }
    }
}

// Some members of a cluster, and the line's end behind the last.
fn write_members(line: &mut Line, plan: &Plan, level: u32, cluster: u32, from: usize) -> NextPart
    requires empty { line.old ≡ [] }
    requires level { level < levels_of plan.now }
    requires cluster { cluster < clusters_of plan.now level }
    requires from { from ≤ length (members_of plan.now level cluster) }
    ensures { IsPart plan.now (Members level cluster from) result line.new }
{
    prove!(cluster < plan.clusters(level));
    let (_, rest) = plan.members(level, cluster).split_at(from);
    let count = rest.len().min(MOST_IN_A_PART);
    line.numbers(rest.split_at(count).0);
    if count < rest.len() {
        return NextPart::Members {
            level,
            cluster,
            from: from + count,
        };
    }
    line.word("\n");
    NextPart::Cluster {
        level,
        cluster: cluster + 1,
    }
}

// The homes of these nodes.
fn push_homes(line: &mut Line, plan: &Plan, level: u32, from: u32, to: u32)
    requires empty { line.old ≡ [] }
    requires level { level < levels_of plan.now }
    requires order { from ≤ to }
    requires few { to ≤ from + 64 }
    requires within { to ≤ nodes_of plan.now }
    requires kept { IsKept plan.now }
    ensures text { line.new
        ≡ fields (take (to - from) (drop from (level_at plan.now level).homes)) }
    ensures long { length line.new ≤ 41 * (to - from) }
{
    for node in from..to {
        line.number(u64::from(plan.home(level, node)));
    }
}

// The homes of some nodes, and the line's end behind the last.
fn write_homes(line: &mut Line, plan: &Plan, nodes: u32, level: u32, from: u32) -> NextPart
    requires empty { line.old ≡ [] }
    requires kept { IsKept plan.now }
    requires level { level < levels_of plan.now }
    requires nodes { nodes ≡ nodes_of plan.now }
    requires from { from ≤ nodes }
    ensures { IsPart plan.now (Homes level from) result line.new }
{
    let to = from + (nodes - from).min(MOST_IN_A_PART as u32);
    push_homes(line, plan, level, from, to);
    if to < nodes {
        return NextPart::Homes { level, from: to };
    }
    line.word("\n");
    NextPart::Level { level: level + 1 }
}

// One part of the measures or of the body of a level, and what the next part begins with.
fn write_body_part(line: &mut Line, plan: &Plan, nodes: u32, next: NextPart) -> NextPart
    requires empty { line.old ≡ [] }
    requires sound { IsKept plan.now }
    requires nodes { nodes ≡ nodes_of plan.now }
    requires names { IsInPlan plan.now next }
    requires going { next ≢ Done }
    requires begun { (i : ℕ) → next ≢ Level i }
    ensures { IsPart plan.now next result line.new }
{
    match next {
        NextPart::Measures => write_measures(line, plan),
        NextPart::Cluster { level, cluster } => write_cluster_or_homes(line, plan, level, cluster),
        NextPart::Members {
            level,
            cluster,
            from,
        } => write_members(line, plan, level, cluster, from),
        NextPart::Homes { level, from } => write_homes(line, plan, nodes, level, from),
        NextPart::Level { .. } | NextPart::Done => unreachable!(),
    }
}

// One part more, and what the next one begins with.
fn write_part(
    line: &mut Line,
    plan: &Plan,
    nodes: u32,
    next: NextPart,
    kept: &mut KeptBody,
) -> NextPart
    requires empty { line.old ≡ [] }
    requires sound { IsKept plan.now }
    requires nodes { nodes ≡ nodes_of plan.now }
    requires names { IsInPlan plan.now next }
    requires going { next ≢ Done }
    requires keeps { KeepsBody plan.now next kept.old }
    requires still { kept.old.waits ≡ false }
    ensures { IsStep plan.now next result kept.new line.new }
{
    if let NextPart::Level { level } = next {
        return begin_level(line, plan, level, kept);
    }
    let behind = write_body_part(line, plan, nodes, next);
    kept.keep(line.bytes());
    behind
}

/// The parts of a plan's text, one after another. It takes its memory at once, and keeps one part
/// and the body of a level.
#[derive(Drop)]
pub struct PlanParts<'a> {
    plan: &'a Plan,
    nodes: u32,
    next: NextPart,
    part: Line,
    kept: KeptBody,
    is_body: bool,
}

impl<'a> Model for PlanParts<'a> {
    ghost use Rattle.std.specs.Prelude.{◌≡◌, if◌then◌else◌};
    ghost use Rattle.region_plan.specs.Plan.{nodes_of};
    ghost use Rattle.region_plan.specs.Kept.{IsKept};
    ghost use Rattle.report_text.specs.Written.{IsInPlan, KeepsBody, PartsState, text_left};

    ghost Value = { PartsState };

    ghost view = { λ p. record {
      part = if p.is_body then p.kept.body.items else p.part;
      left = text_left p.plan.now p.next p.kept;
    } };

    ghost invariant = { λ p. (p.nodes ≡ nodes_of p.plan.now) × IsKept p.plan.now
        × IsInPlan p.plan.now p.next × KeepsBody p.plan.now p.next p.kept };
}

impl<'a> PlanParts<'a> {
    /// All parts of the text of a plan.
    pub fn new(alloc: Global, plan: &'a Plan) -> Result<PlanParts<'a>, AllocError>
        ensures text { IfOk result (λ parts. parts.left ≡ plan_text_of plan.now) }
        ensures blank { IfOk result (λ parts. parts.part ≡ []) }
    {
        Ok(PlanParts {
            plan,
            nodes: plan.nodes(),
            next: NextPart::Measures,
            part: Line::new(alloc, plan.nodes() as usize)?,
            kept: KeptBody::new(alloc)?,
            is_body: false,
        })
    }

    /// Makes the next part, which isn't empty, and answers whether there was one left. It can't
    /// fail for want of memory.
    pub fn advance(&mut self) -> bool
        ensures part { result ≡ true → self.old.left ≡ self.new.part ++ self.new.left }
        ensures some { result ≡ true → 0 < length self.new.part }
        ensures none { result ≡ false → (self.old.left ≡ []) × (self.new.left ≡ []) }
        ensures blank { result ≡ false → self.new.part ≡ [] }
    {
        self.part.clear();
        self.is_body = self.kept.waits;
        if self.kept.waits {
            self.kept.waits = false;
            return true;
        }
        if let NextPart::Done = self.next {
            return false;
        }
        self.next = write_part(
            &mut self.part,
            self.plan,
            self.nodes,
            self.next,
            &mut self.kept,
        );
        true
    }

    /// The part that `advance` has just made. Before the first `advance`, and after one that
    /// answered false, it is empty.
    pub fn part(&self) -> &[u8]
        ensures { result.now ≡ self.now.part }
    {
        if self.is_body {
            &self.kept.body
        } else {
            self.part.bytes()
        }
    }
}

// The parts that are left, behind a text.
fn push_parts(text: &mut Vec<u8>, parts: &mut PlanParts<'_>) -> Result<(), AllocError>
    ensures { OnOk result (text.new.items ≡ text.old.items ++ parts.old.left) }
{
    'parts: while parts.advance() {
        text.extend_from_slice(parts.part())?;
    }
    Ok(())
}

/// The text of a plan: its measures, and level by level its clusters and the homes of its nodes.
pub fn plan_text(alloc: Global, plan: &Plan) -> Result<Vec<u8>, AllocError>
    ensures { IfOk result (λ text. text.items ≡ plan_text_of plan.now) }
{
    let mut parts = PlanParts::new(alloc, plan)?;
    let mut text = Vec::new(alloc);
    push_parts(&mut text, &mut parts)?;
    Ok(text)
}
