//! The flat plan of a network.
ghost use Rattle.std.specs.Prelude.{◌≡◌};
ghost use Rattle.net_graph.specs.Network.{Network};
ghost use Rattle.region_plan.specs.Flat.{IsFlat};
ghost use Rattle.region_plan.specs.Plan.{PlanData};

/// A network has one flat plan.
pub fn flat_is_one()
    ensures { (network : Network) (one two : PlanData) → IsFlat network one → IsFlat network two
        → one ≡ two }
{}
