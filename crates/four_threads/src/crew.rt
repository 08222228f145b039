//! Who takes part: the subscriber with its handset, and three callers.
ghost use Rattle.std.specs.Prelude.{◌≡◌, ◌+◌, ◌∷◌, [], length, IfOk, OnOk};
ghost use Rattle.region_plan.specs.Plan.{nodes_of};
ghost use Rattle.station.specs.Handsets.{IsHandsetOf};
ghost use Rattle.station.specs.Opening.{setup_of};
ghost use Rattle.station.specs.Passes.{AreFresh, IsFreshPass, fresh_view};
ghost use Rattle.four_threads.specs.Ready.{IsCrewOf};

use crate::stop::Stop;
use handset::Handset;
use region_plan::Plan;
use station::{Pass, Tracker};
use std::alloc::Global;

// Room for each pass: a move of the line has at most 13 puts, a find at most 12 looks, and each put
// of a move makes at most one find of a caller begin again.
const VISITS: u64 = 200_000;

/// The passes of the subscriber and of three callers, at node 0 (`near`), at 1 (`middle`) and at 3
/// (`far`), and the subscriber's handset.
#[derive(Drop)]
pub struct Crew {
    pub own: Pass,
    pub handset: Handset,
    pub near: Pass,
    pub middle: Pass,
    pub far: Pass,
}

// The last of some fresh passes.
fn next_pass(tracker: &Tracker, passes: &mut Vec<Pass>, actor: u32) -> Pass
    requires fresh { AreFresh tracker.now passes.old.items }
    requires count { length passes.old.items ≡ actor + 1 }
    ensures fresh { AreFresh tracker.now passes.new.items }
    ensures count { length passes.new.items ≡ actor }
    ensures pass { IsFreshPass tracker.now actor result }
{
    let _ = tracker;
    let Some(pass) = passes.pop() else {
        unreachable!()
    };
    pass
}

// The handset of the subscriber, at rest at node 3.
fn resting(alloc: Global, plan: &Plan) -> Result<Handset, Stop>
    requires nodes { nodes_of plan.now ≡ 4 }
    ensures own { IfOk result (IsHandsetOf (setup_of plan.now (3 ∷ []) 4)
        (fresh_view (setup_of plan.now (3 ∷ []) 4) 0)) }
{
    let handset = Handset::new(alloc, 0, 3, plan)?;
    Ok(handset)
}

// All who take part, of the fresh passes of a tracker.
fn crew_of(tracker: &Tracker, mut passes: Vec<Pass>, handset: Handset) -> Crew
    requires fresh { AreFresh tracker.now passes.items }
    requires count { length passes.items ≡ 4 }
    ensures own { IsFreshPass tracker.now 0 result.own }
    ensures near { IsFreshPass tracker.now 1 result.near }
    ensures middle { IsFreshPass tracker.now 2 result.middle }
    ensures far { IsFreshPass tracker.now 3 result.far }
    ensures handset { result.handset ≡ handset }
{
    let far = next_pass(tracker, &mut passes, 3);
    let middle = next_pass(tracker, &mut passes, 2);
    let near = next_pass(tracker, &mut passes, 1);
    let own = next_pass(tracker, &mut passes, 0);
    Crew {
        own,
        handset,
        near,
        middle,
        far,
    }
}

// Sees to room in each fresh pass.
fn reserve(tracker: &Tracker, crew: &mut Crew) -> Result<(), Stop>
    requires own { IsFreshPass tracker.now 0 crew.old.own }
    requires near { IsFreshPass tracker.now 1 crew.old.near }
    requires middle { IsFreshPass tracker.now 2 crew.old.middle }
    requires far { IsFreshPass tracker.now 3 crew.old.far }
    requires handset { IsHandsetOf tracker.now.setup (fresh_view tracker.now.setup 0)
        crew.old.handset }
    ensures crew { OnOk result (IsCrewOf tracker.now crew.new) }
{
    let _ = tracker;
    crew.own.reserve(VISITS)?;
    crew.near.reserve(VISITS)?;
    crew.middle.reserve(VISITS)?;
    crew.far.reserve(VISITS)?;
    Ok(())
}

/// A tracker with one subscriber at node 3 and three callers, and all who take part.
pub fn open(alloc: Global, plan: &Plan) -> Result<(Tracker, Crew), Stop>
    requires nodes { nodes_of plan.now ≡ 4 }
    ensures setup { IfOk result (λ made. made.0.setup ≡ setup_of plan.now (3 ∷ []) 4) }
    ensures crew { IfOk result (λ made. IsCrewOf made.0 made.1) }
{
    let handset = resting(alloc, plan)?;
    let (tracker, passes) = Tracker::new(alloc, plan, &[3], 3)?;
    let mut crew = crew_of(&tracker, passes, handset);
    reserve(&tracker, &mut crew)?;
    Ok((tracker, crew))
}
