//! Where the scripts of an input lead, and the census that tells it.
ghost use Rattle.std.specs.Prelude.{◌≡◌, IfOk, map};
ghost use Rattle.net_reader.specs.Seen.{seen_input};
ghost use Rattle.net_reader.specs.Valid.{IsValid};
ghost use Rattle.scripts.specs.Scripts.{step_of};
ghost use Rattle.directory.specs.Places.{place_at_end};
ghost use Rattle.track.specs.Results.{IsCensusText};
ghost use Rattle.track.specs.Places.{AreLastPlaces, node_if_on};

use census_text::census_of_places;
use net_reader::{Call, Input};
use region_plan::plan_means;
use scripts::scripts_are_valid;
use std::alloc::{AllocError, Global};
use trail_laws::censuses_are_right;

// Where a subscriber is after its script, from its start on: nowhere while it is off.
fn last_place(home: u32, script: &[Call]) -> Option<u32>
    ensures { result ≡ node_if_on (place_at_end home (map step_of script.now)) }
{
    let mut node = home;
    let mut is_off = false;
    for call in script {
        match *call {
            Call::Move { to } => node = to,
            Call::Off => is_off = true,
            // Subscribers make no finds.
            Call::On | Call::Find { .. } => is_off = false,
        }
    }
    if is_off { None } else { Some(node) }
}

// Where each subscriber of an input is after its script.
fn last_places(alloc: Global, input: &Input) -> Result<Vec<Option<u32>>, AllocError>
    requires valid { IsValid (seen_input input.now) }
    ensures { IfOk result (λ places. AreLastPlaces (seen_input input.now) places.items) }
{
    let mut places = Vec::with_capacity(alloc, input.homes.len())?;
    for sub in 0..input.homes.len() {
        places.push(last_place(input.homes[sub], &input.scripts[sub]))?;
    }
    Ok(places)
}

// The census at the end of an input's calls: whatever their order, it tells where the scripts lead.
pub(crate) fn census(alloc: Global, input: &Input) -> Result<Vec<u8>, AllocError>
    requires valid { IsValid (seen_input input.now) }
    ensures { IfOk result (λ text. IsCensusText (seen_input input.now) text.items) }
{
    censuses_are_right();
    scripts_are_valid();
    plan_means();
    let places = last_places(alloc, input)?;
    census_of_places(alloc, input.nodes, &places)
}
