//! The writes that a subscriber has ahead.
ghost use Rattle.std.specs.Prelude.{◌≡◌, ◌≤◌, ◌<◌, ◌-◌, [], ℕ, None, IfNone, IfSome, drop, length, vec_capacity, vec_len};
ghost use Rattle.region_plan.specs.Plan.{PlanData};
ghost use Rattle.region_plan.specs.Settings.{setting_of};
ghost use Rattle.handset.specs.Condition.{GoesWith, HandsetData};
ghost use Rattle.handset.specs.NextEntries.{erasures_from, renewals_from};
ghost use Rattle.handset.specs.StepWrites.{due};
ghost use Rattle.handset.specs.declared.stage.Stage.{Stage};
ghost use Rattle.visit_log.specs.Cells.{GoWith};
ghost use Rattle.visit_log.specs.Homes.{AreHomes};
ghost use Rattle.machine.specs.Owed.{HasCome, HasNone, IsAhead, IsNextAhead, MayPut, Owes};

use entry_word::{Act, pack_address};
use handset::{EntryStage, Erasures, Handset, Renewals, entry_writes_are_next};
use region_plan::{Plan, plan_is_sound};
use visit_log::{Homes, PlainCells};

/// A write ahead: the place of its cell among those of the subscriber, whether it commits a move,
/// and its word.
#[derive(Clone, Copy)]
pub struct Ahead {
    pub place: u32,
    pub commits: bool,
    pub word: u64,
}

// Makes the writes of a handset that come next, as many as there is room for, and none of them in
// a cell.
#[inline(never)]
pub fn fill(
    ahead: &mut Vec<Ahead>,
    handset: &mut Handset,
    plan: &Plan,
    homes: &Homes,
    cells: &PlainCells,
)
    requires goes { GoesWith plan.now handset.old }
    requires homes { AreHomes plan.now homes.now }
    requires cells { GoWith plan.now cells.now }
    requires known { handset.old.sub < cells.now.subs }
    requires none { ahead.old.items ≡ [] }
    requires room { 1 ≤ vec_capacity ahead.old }
    ensures ahead { IsAhead plan.now cells.now.subs handset.old handset.new ahead.old ahead.new }
    ensures rests { ahead.new.items ≡ [] → HasNone plan.now handset.old }
    ensures ends { length ahead.new.items < vec_capacity ahead.new
        → due (setting_of plan.now []) handset.new ≡ None }
{
    'writes: while ahead.len() < ahead.capacity() {
        let Some(write) = next_ahead(handset, plan, cells) else {
            return;
        };
        ahead.push_reserved(write);
        push_entries(ahead, handset, plan, homes);
    }
}

// Makes the write that comes next, if one is left, but not in its cell.
fn next_ahead(handset: &mut Handset, plan: &Plan, cells: &PlainCells) -> Option<Ahead>
    requires goes { GoesWith plan.now handset.old }
    requires cells { GoWith plan.now cells.now }
    requires known { handset.old.sub < cells.now.subs }
    ensures next { IfSome result (λ write.
        IsNextAhead plan.now cells.now.subs handset.old handset.new write) }
    ensures rests { IfNone result (HasNone plan.now handset.old) }
    ensures still { IfNone result (handset.new ≡ handset.old) }
{
    // Each home is a cluster of its level.
    plan_is_sound(plan);
    let commits = handset.commits();
    let Some(visit) = handset.write(plan) else {
        return None;
    };
    let Act::Put(key, word) = visit.act else {
        unreachable!()
    };
    Some(Ahead {
        place: cells.place(plan, key),
        commits,
        word,
    })
}

// Makes the writes of entries that come next, as many as there is room for, while each has another
// of its kind behind it.
fn push_entries(ahead: &mut Vec<Ahead>, handset: &mut Handset, plan: &Plan, homes: &Homes)
    requires goes { GoesWith plan.now handset.old }
    requires homes { AreHomes plan.now homes.now }
    ensures { (subs : ℕ) → handset.old.sub < subs
        → IsAhead plan.now subs handset.old handset.new ahead.old ahead.new }
{
    if let Some(renewals) = handset.renewals(plan) {
        return push_renewals(ahead, handset, plan, homes, renewals);
    }
    if let Some(erasures) = handset.erasures() {
        push_erasures(ahead, handset, plan, homes, erasures);
    }
}

// Makes the new addresses that come next, as many as there is room for.
fn push_renewals(
    ahead: &mut Vec<Ahead>,
    handset: &mut Handset,
    plan: &Plan,
    homes: &Homes,
    renewals: Renewals,
)
    requires stage { handset.old.stage ≡ Stage.Renewing renewals.level }
    requires they { renewals ≡ renewals_from handset.old renewals.level }
    requires goes { GoesWith plan.now handset.old }
    requires homes { AreHomes plan.now homes.now }
    ensures { (subs : ℕ) → handset.old.sub < subs
        → IsAhead plan.now subs handset.old handset.new ahead.old ahead.new }
{
    // Each home is a cluster of its level.
    plan_is_sound(plan);
    entry_writes_are_next();
    let Renewals {
        level,
        end,
        node,
        word,
    } = renewals;
    let room = ahead.capacity() - ahead.len();
    let last = level + room.min((end - level) as usize) as u32;
    let places = homes.of(node);
    for level in level..last {
        ahead.push_reserved(Ahead {
            place: places[level as usize],
            commits: false,
            word,
        });
    }
    handset.go_to(EntryStage::Renewing { level: last });
}

// Makes the erasures that come next, as many as there is room for.
fn push_erasures(
    ahead: &mut Vec<Ahead>,
    handset: &mut Handset,
    plan: &Plan,
    homes: &Homes,
    erasures: Erasures,
)
    requires stage { handset.old.stage ≡ Stage.Erasing erasures.level }
    requires they { erasures ≡ erasures_from handset.old erasures.level }
    requires goes { GoesWith plan.now handset.old }
    requires homes { AreHomes plan.now homes.now }
    ensures { (subs : ℕ) → handset.old.sub < subs
        → IsAhead plan.now subs handset.old handset.new ahead.old ahead.new }
{
    // Each home is a cluster of its level.
    plan_is_sound(plan);
    entry_writes_are_next();
    let word = pack_address(None);
    let Erasures { level, last, node } = erasures;
    let addresses = handset.addresses();
    let new = homes.of(node);
    let mut at = level;
    let mut place = homes.of(addresses[level as usize])[level as usize];
    for above in level + 1..last + 1 {
        if ahead.len() == ahead.capacity() {
            break;
        }
        let old = homes.of(addresses[above as usize])[above as usize];
        if old != new[above as usize] {
            ahead.push_reserved(Ahead {
                place,
                commits: false,
                word,
            });
            at = above;
            place = old;
        }
    }
    handset.go_to(EntryStage::Erasing { level: at });
}

// Puts the writes ahead from a place on that don't commit a move, at most so many, into their
// cells, and tells the place behind them.
pub fn put_plain(
    ahead: &[Ahead],
    made: usize,
    sub: u32,
    cells: &mut PlainCells,
    most: usize,
) -> usize
    requires within { made ≤ length ahead.now }
    requires stands { (plan : PlanData) × (old : HandsetData) × (new : HandsetData)
        × MayPut plan sub old new cells.old (drop made ahead.now) }
    ensures on { made ≤ result }
    ensures within { result ≤ length ahead.now }
    ensures few { result - made ≤ most }
    ensures puts { (plan : PlanData) (old new : HandsetData)
        → MayPut plan sub old new cells.old (drop made ahead.now)
        → HasCome plan sub old new cells.old cells.new (result - made) (drop result ahead.now) }
{
    let end = made + most.min(ahead.len() - made);
    for place in made..end {
        let write = ahead[place];
        if write.commits {
            return place;
        }
        cells.put_at(sub, write.place, write.word);
    }
    end
}
