//! What the members of a crew hold: the shared tracker, and each one's pass.
ghost use Rattle.std.specs.Prelude.{◌≡◌, ◌<◌, ◌≤◌, All, None, length};
ghost use Rattle.std.specs.Arc.{arc_value};
ghost use Rattle.region_plan.specs.Plan.{nodes_of};
ghost use Rattle.station.specs.Handsets.{IsHandsetOf};
ghost use Rattle.station.specs.Passes.{AreFresh, IsPassOf};
ghost use Rattle.station.specs.Setup.{subs_in};
ghost use Rattle.track_c.specs.Facts.{facts};

use crate::object::Network;
use handset::Handset;
use station::{Pass, Tracker};
use std::alloc::Global;
use std::sync::Arc;

/// A tracker over a plan, which the members of its crew share.
#[derive(Drop)]
pub struct Shared {
    pub network: Arc<Network, Global>,
    pub tracker: Tracker,
    pub subs: u32,
    pub ghost plan_is: { (arc_value network).plan ≡ tracker.setup.plan },
    pub ghost subs_are: { subs ≡ subs_in tracker.setup },
}

/// The passes of a tracker that nobody has taken yet: those of the first actors, in order.
#[derive(Drop)]
pub struct Crew {
    pub shared: Arc<Shared, Global>,
    pub starts: Vec<u32>,
    pub passes: Vec<Pass>,
    pub ghost starts_are: { starts.items ≡ (arc_value shared).tracker.setup.homes },
    pub ghost inside: { All (λ node. node < nodes_of (arc_value shared).tracker.setup.plan)
        starts.items },
    pub ghost fresh: { AreFresh (arc_value shared).tracker passes.items },
    pub ghost few: { length passes.items ≤ 128 },
}

/// A caller with its pass.
#[derive(Drop)]
pub struct Caller {
    pub shared: Arc<Shared, Global>,
    pub pass: Pass,
    pub ghost of: { IsPassOf (arc_value shared).tracker pass },
    pub ghost outside: { pass.view.inside ≡ None },
}

/// A subscriber with its pass and its handset.
#[derive(Drop)]
pub struct Subscriber {
    pub shared: Arc<Shared, Global>,
    pub pass: Pass,
    pub handset: Handset,
    pub ghost of: { IsPassOf (arc_value shared).tracker pass },
    pub ghost outside: { pass.view.inside ≡ None },
    // The steps that the handset stands for are told to nobody, so that this has one proof at most.
    pub ghost own: { ∥ IsHandsetOf (arc_value shared).tracker.setup pass.view handset ∥₁ },
}

impl Subscriber {
    // Tells the proof that the handset is the pass's own.
    pub fn reveal(&self)
        ensures { IsHandsetOf (arc_value self.now.shared).tracker.setup self.now.pass.view
            self.now.handset }
    {}
}
