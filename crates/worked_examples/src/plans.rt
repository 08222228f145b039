//! The measures of plans, computed, and what no plan may be.
ghost use Rattle.std.specs.Prelude.{◌≡◌, ◌<◌, ◌≤◌, ◌*◌, ◌^◌, [], ◌∷◌, length, map};
ghost use Rattle.plan_laws.specs.Examples.{end_of_line, line_level, line_level_0, line_of_four, mean_line_of_four, whole_line};
ghost use Rattle.region_plan.specs.Kept.{IsKept, IsSized};
ghost use Rattle.region_plan.specs.Matched.{HasFewReaders, HasSmallSum, IsMatched};
ghost use Rattle.region_plan.specs.Meanings.{IsTop};
ghost use Rattle.region_plan.specs.Measures.{degree_in, degree_of, most, stretch_of};
ghost use Rattle.region_plan.specs.Plan.{Level, PlanData, clusters_of, inside, leader, levels_of, nodes_of, threshold};
ghost use Rattle.region_plan.specs.Regions.{threshold_of, top_for};
ghost use Rattle.stretch_laws.specs.Plans.{bound_of};
ghost use Rattle.stretch_laws.specs.Tracking.{radius, resting_stretch, stretch};
ghost use Rattle.worked_examples.specs.Plans.{line_with, lone_node, two_apart};

/// Thresholds and radii double from level to level, and the top level is the least whose radius
/// reaches the diameter.
pub fn worked_levels()
    ensures thresholds { map threshold_of (0 ∷ 1 ∷ 2 ∷ 3 ∷ 4 ∷ 5 ∷ [])
        ≡ 1 ∷ 1 ∷ 2 ∷ 4 ∷ 8 ∷ 16 ∷ [] }
    ensures radii { map radius (0 ∷ 1 ∷ 2 ∷ 5 ∷ []) ≡ 1 ∷ 2 ∷ 4 ∷ 32 ∷ [] }
    ensures tops { map top_for (0 ∷ 1 ∷ 2 ∷ 3 ∷ 4 ∷ 5 ∷ 8 ∷ 9 ∷ [])
        ≡ 0 ∷ 0 ∷ 1 ∷ 2 ∷ 2 ∷ 3 ∷ 3 ∷ 4 ∷ [] }
{}

/// How many clusters nodes read, and how many times its distance a find may travel: at the lowest
/// level two nodes are in both clusters. Two clusters apart count as one, and the level whose nodes
/// read most clusters counts, whichever it is.
pub fn worked_measures()
    ensures greatest { most (3 ∷ 5 ∷ 4 ∷ []) ≡ 5 }
    ensures none { most [] ≡ 0 }
    ensures lowest { degree_in line_level_0 ≡ 2 }
    ensures higher { degree_in (line_level 1 1) ≡ 1 }
    ensures degree { degree_of line_of_four ≡ 2 }
    ensures apart { degree_of (line_with 1 (end_of_line ∷ lone_node ∷ [])) ≡ 1 }
    ensures above { degree_of
        (record line_of_four { levels = line_level 1 1 ∷ line_level_0 ∷ [] }) ≡ 2 }
    ensures stretch { stretch_of line_of_four ≡ 144 }
    ensures apart_stretch { stretch_of (line_with 1 (end_of_line ∷ lone_node ∷ [])) ≡ 96 }
    ensures mean_stretch { stretch_of mean_line_of_four ≡ 232 }
    ensures bound { bound_of line_of_four 3 5 ≡ 442 }
    ensures tracking { stretch 3 2 ≡ 137 }
    ensures resting { resting_stretch 3 2 ≡ 112 }
    ensures resting_other { resting_stretch 5 7 ≡ 584 }
{}

/// Plans of the line of four that overlap too much: with five phases, with one phase of which two
/// nodes read two clusters, and with clusters of nine members in all, where eight are few enough.
/// Where few overlap, the degree is small.
pub fn wrong_overlaps()
    ensures phases { HasFewReaders (line_with 5 (whole_line ∷ end_of_line ∷ [])) → ⊥ }
    ensures read { HasFewReaders (line_with 1 (whole_line ∷ end_of_line ∷ [])) → ⊥ }
    ensures sum { HasSmallSum (line_with 1 (whole_line ∷ whole_line ∷ lone_node ∷ [])) → ⊥ }
    ensures degree { (plan : PlanData) → HasFewReaders plan
        → degree_of plan ^ plan.k ≤ plan.k ^ plan.k * nodes_of plan }
{}

/// A matched plan renews its lowest level after each move, and the leader of a cluster has no way
/// to itself. The top level of a network whose diameter is 4 is level 2, neither below nor above.
pub fn wrong_matches()
    ensures first { (plan : PlanData) → IsMatched plan → threshold plan 0 ≡ 2 → ⊥ }
    ensures start { (plan : PlanData) → IsMatched plan → 0 < clusters_of plan 0
        → inside plan 0 0 (leader plan 0 0) ≡ 1 → ⊥ }
    ensures low_top { IsTop two_apart 1 → ⊥ }
    ensures high_top { IsTop two_apart 3 → ⊥ }
{}

/// No plan has no level or 32, a k of 0 or of 9, a reach of 18, or a level that has a home or a row
/// of readers fewer than it has nodes, a cluster more, or the exponent 31.
pub fn wrong_plans()
    ensures empty { (plan : PlanData) → IsKept plan → levels_of plan ≡ 0 → ⊥ }
    ensures high { (plan : PlanData) → IsKept plan → levels_of plan ≡ 32 → ⊥ }
    ensures no_k { (plan : PlanData) → IsKept plan → plan.k ≡ 0 → ⊥ }
    ensures great_k { (plan : PlanData) → IsKept plan → plan.k ≡ 9 → ⊥ }
    ensures reach { (plan : PlanData) → IsKept plan → plan.reach ≡ 18 → ⊥ }
    ensures homes { (level : Level) → IsSized 4 level → length level.homes ≡ 3 → ⊥ }
    ensures readers { (level : Level) → IsSized 4 level → length level.readers ≡ 3 → ⊥ }
    ensures clusters { (level : Level) → IsSized 4 level → length level.clusters ≡ 5 → ⊥ }
    ensures exponent { (level : Level) → IsSized 4 level → level.exponent ≡ 31 → ⊥ }
{}
