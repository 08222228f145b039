//! The lines of a census.
ghost use Rattle.std.specs.Prelude.{◌≡◌, ◌<◌, ◌≤◌, ◌++◌, ◌*◌, ◌^◌, ℕ, List, IfOk, OnOk, length, string_bytes};
ghost use Rattle.directory.specs.Histories.{History};
ghost use Rattle.directory.specs.Census.{census as census_of};
ghost use Rattle.region_plan.specs.Plan.{nodes_of};
ghost use Rattle.region_plan.specs.Settings.{setting_of};
ghost use Rattle.visit_log.specs.Cells.{GoWith, Hold};
ghost use Rattle.outside.specs.Texts.{fields};
ghost use Rattle.census_text.specs.CensusText.{census_text_of, count_below, is_place, node_line, node_lines, who_at};
ghost use Rattle.census_text.specs.Presence.{is_there, presence_at};

use entry_word::{Key, PresenceMark, unpack_mark};
use region_plan::Plan;
use std::alloc::{AllocError, Global};
use visit_log::PlainCells;

// Whether the presence cell of a subscriber at a node says that it is there.
fn is_there(plan: &Plan, cells: &PlainCells, node: u32, sub: u32) -> bool
    requires goes { GoWith plan.now cells.now }
    requires node { node < nodes_of plan.now }
    requires sub { sub < cells.now.subs }
    ensures { result ≡ is_there plan.now cells.now node sub }
{
    let word = cells.look(plan, Key::Presence { node, sub });
    matches!(unpack_mark(word), Some(PresenceMark::Here { .. }))
}

// Whether a place is this node.
fn is_place(node: u32, place: Option<u32>) -> bool
    ensures { result ≡ is_place node place }
{
    match place {
        Some(place) => place == node,
        None => false,
    }
}

// The subscribers that are at a node, by their cells, ascending.
fn list_by_cells(
    who: &mut Vec<u32>,
    plan: &Plan,
    cells: &PlainCells,
    node: u32,
    subs: u32,
) -> Result<(), AllocError>
    requires goes { GoWith plan.now cells.now }
    requires node { node < nodes_of plan.now }
    requires subs { subs ≡ cells.now.subs }
    ensures { OnOk result (who.new.items ≡ presence_at plan.now cells.now node) }
{
    who.clear();
    for sub in 0..subs {
        if is_there(plan, cells, node, sub) {
            who.push(sub)?;
        }
    }
    Ok(())
}

// The subscribers that are at a node, by where each of them is, ascending.
fn list_by_places(who: &mut Vec<u32>, places: &[Option<u32>], node: u32) -> Result<(), AllocError>
    requires few { length places.now < 2 ^ 32 }
    ensures { OnOk result (who.new.items ≡ who_at places.now node) }
{
    who.clear();
    for sub in 0..places.len() {
        if is_place(node, places[sub]) {
            who.push(sub as u32)?;
        }
    }
    Ok(())
}

// Numbers one after another.
fn push_numbers(text: &mut String, numbers: &[u32]) -> Result<(), AllocError>
    ensures { OnOk result (string_bytes text.new
        ≡ string_bytes text.old ++ fields numbers.now) }
{
    for number in numbers {
        write!(text, " {number}")?;
    }
    Ok(())
}

// The line of a node, none where nobody is there; and how many are.
fn push_node(text: &mut String, node: u32, who: &[u32]) -> Result<u64, AllocError>
    ensures count { IfOk result (λ count. count ≡ length who.now) }
    ensures line { OnOk result (string_bytes text.new
        ≡ string_bytes text.old ++ node_line node who.now) }
{
    if !who.is_empty() {
        write!(text, "node {node} count {} subs", who.len())?;
        push_numbers(text, who)?;
        text.push_str("\n")?;
    }
    Ok(who.len() as u64)
}

// The lines of all nodes, by the cells, and how many subscribers are at them.
fn push_by_cells(
    text: &mut String,
    who: &mut Vec<u32>,
    plan: &Plan,
    cells: &PlainCells,
    subs: u32,
) -> Result<u64, AllocError>
    requires goes { GoWith plan.now cells.now }
    requires subs { subs ≡ cells.now.subs }
    ensures total { IfOk result (λ total. total
        ≡ count_below (presence_at plan.now cells.now) (nodes_of plan.now)) }
    ensures lines { OnOk result (string_bytes text.new ≡ string_bytes text.old
        ++ node_lines (presence_at plan.now cells.now) (nodes_of plan.now)) }
{
    let mut total = 0u64;
    for node in 0..plan.nodes() {
        list_by_cells(who, plan, cells, node, subs)?;
        total += push_node(text, node, who)?;
    }
    Ok(total)
}

// The lines of all nodes, by where each subscriber is, and how many are at them.
fn push_by_places(
    text: &mut String,
    who: &mut Vec<u32>,
    nodes: u32,
    places: &[Option<u32>],
) -> Result<u64, AllocError>
    requires few { length places.now < 2 ^ 32 }
    ensures total { IfOk result (λ total. total ≡ count_below (who_at places.now) nodes) }
    ensures lines { OnOk result (string_bytes text.new ≡ string_bytes text.old
        ++ node_lines (who_at places.now) nodes) }
{
    let mut total = 0u64;
    for node in 0..nodes {
        list_by_places(who, places, node)?;
        total += push_node(text, node, who)?;
    }
    Ok(total)
}

/// The text of a census of the subscribers that the cells were made for: for each node at which
/// some are, a line with their count and their numbers, then `end` and the sum of the counts
/// (docs/FORMATS.md). A subscriber that is off, or in an open passage, is listed nowhere.
pub fn census(
    alloc: Global,
    plan: &Plan,
    cells: &PlainCells,
    subs: u32,
) -> Result<Vec<u8>, AllocError>
    requires goes { GoWith plan.now cells.now }
    requires subs { subs ≡ cells.now.subs }
    ensures text { IfOk result (λ text. text.items
        ≡ census_text_of (presence_at plan.now cells.now) (nodes_of plan.now)) }
    ensures history { (starts : List ℕ) (history : History) → Hold plan.now starts cells.now history
        → IfOk result (λ text. text.items
        ≡ census_text_of (census_of (setting_of plan.now starts) history) (nodes_of plan.now)) }
{
    let mut text = String::new(alloc);
    let mut who = Vec::new(alloc);
    let total = push_by_cells(&mut text, &mut who, plan, cells, subs)?;
    write!(text, "end {total}\n")?;
    Ok(text.into_bytes())
}

/// The same text of a census of so many nodes, by where each subscriber is: `None` is nowhere.
pub fn census_of_places(
    alloc: Global,
    nodes: u32,
    places: &[Option<u32>],
) -> Result<Vec<u8>, AllocError>
    requires few { length places.now < 2 ^ 32 }
    ensures { IfOk result (λ text. text.items ≡ census_text_of (who_at places.now) nodes) }
{
    let mut text = String::new(alloc);
    let mut who = Vec::new(alloc);
    let total = push_by_places(&mut text, &mut who, nodes, places)?;
    write!(text, "end {total}\n")?;
    Ok(text.into_bytes())
}
