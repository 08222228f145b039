//! How many calls scripts have, and visits at most, and room for them.
ghost use Rattle.std.specs.Prelude.{◌≡◌, [], All, IfOk, List, ℕ, map, vec_capacity};
ghost use Rattle.net_reader.specs.Valid.{count_calls};
ghost use Rattle.scripts.specs.Scripts.{most_in, most_of, most_visits};
ghost use Rattle.machine.specs.Stands.{BeginInside, BeginsInside};
ghost use Rattle.region_plan.specs.Settings.{setting_of};
ghost use Rattle.region_plan.specs.Plan.{nodes_of};
ghost use Rattle.visit_log.specs.Routes.{AreRoutes};

use directory::Done;
use net_reader::{Call, Input};
use region_plan::Plan;
use std::alloc::{AllocError, Global};
use visit_log::Routes;

// Room for the actors of all visits, and for the lines of all calls, and no more.
pub fn rooms_for(
    alloc: Global,
    input: &Input,
    plan: &Plan,
    routes: &Routes,
) -> Result<(Vec<u32>, Vec<Done>), AllocError>
    requires routes { AreRoutes plan.now routes.now }
    requires inside { All (λ script. BeginInside (nodes_of plan.now) script.items)
        input.now.scripts.items }
    ensures empty { IfOk result (λ rooms. (rooms.0.items ≡ []) × (rooms.1.items ≡ [])) }
    ensures visits { IfOk result (λ rooms. (starts : List ℕ)
        → most_visits (setting_of plan.now starts)
        (map (λ script. script.items) input.now.scripts.items) ≡ vec_capacity rooms.0) }
    ensures lines { IfOk result (λ rooms. count_calls
        (map (λ script. script.items) input.now.scripts.items) ≡ vec_capacity rooms.1) }
{
    let visits = most_visits(plan, routes, &input.scripts)?;
    let order = Vec::with_capacity(alloc, visits as usize)?;
    let calls = Vec::with_capacity(alloc, count_calls(&input.scripts)?)?;
    Ok((order, calls))
}

// The most visits of a call.
fn most_of(plan: &Plan, routes: &Routes, call: Call) -> u64
    requires routes { AreRoutes plan.now routes.now }
    requires inside { BeginsInside (nodes_of plan.now) call }
    ensures { (starts : List ℕ) → result ≡ most_of (setting_of plan.now starts) call }
{
    match call {
        Call::Move { .. } => plan.most_writes(),
        Call::Find { from, .. } => routes.most_looks(plan, from),
        Call::Off | Call::On => 1,
    }
}

// The most visits of a script.
fn most_of_script(plan: &Plan, routes: &Routes, script: &[Call]) -> Result<u64, AllocError>
    requires routes { AreRoutes plan.now routes.now }
    requires inside { BeginInside (nodes_of plan.now) script.now }
    ensures { IfOk result
        (λ most. (starts : List ℕ) → most ≡ most_in (setting_of plan.now starts) script.now) }
{
    let mut most = 0u64;
    for call in script {
        most = most
            .checked_add(most_of(plan, routes, *call))
            .ok_or(AllocError)?;
    }
    Ok(most)
}

// The most visits of all scripts.
fn most_visits(plan: &Plan, routes: &Routes, scripts: &[Vec<Call>]) -> Result<u64, AllocError>
    requires routes { AreRoutes plan.now routes.now }
    requires inside { All (λ script. BeginInside (nodes_of plan.now) script.items) scripts.now }
    ensures { IfOk result (λ most. (starts : List ℕ) → most
        ≡ most_visits (setting_of plan.now starts) (map (λ script. script.items) scripts.now)) }
{
    let mut most = 0u64;
    for script in scripts {
        let more = most_of_script(plan, routes, script)?;
        most = most.checked_add(more).ok_or(AllocError)?;
    }
    Ok(most)
}

// How many calls scripts have.
fn count_calls(scripts: &[Vec<Call>]) -> Result<usize, AllocError>
    ensures { IfOk result
        (λ count. count ≡ count_calls (map (λ script. script.items) scripts.now)) }
{
    let mut count = 0usize;
    for script in scripts {
        count = count.checked_add(script.len()).ok_or(AllocError)?;
    }
    Ok(count)
}
