//! How much there may be: the looks that a find has left, the visits and calls of scripts, and the
//! room of a machine. No law above counts on more of these than that they are enough.
ghost use Rattle.std.specs.Prelude.{◌≡◌, ◌≤◌, ◌+◌, ℕ, Option, [], ◌∷◌, length, vec_capacity};
ghost use Rattle.directory.specs.Finds.{Chase, Pursuit, Reader, at_origin, chases, climbs, ended, looks_left};
ghost use Rattle.directory.specs.Courses.{move_to};
ghost use Rattle.directory.specs.Histories.{History, tickets};
ghost use Rattle.directory.specs.Orders.{IsPlayed, caller_in, finds_of, steps_of};
ghost use Rattle.directory.specs.Statements.{CallersCount};
ghost use Rattle.directory.specs.declared.answers.Found.{Found};
ghost use Rattle.machine.specs.Machines.{HasHistory, IsSame, input_at, scripts_at, setting_at};
ghost use Rattle.machine.specs.declared.machine.Machine.{Machine};
ghost use Rattle.net_reader.specs.Valid.{count_calls};
ghost use Rattle.net_reader.specs.declared.said.Call.TheVariants.{Find, Move, Off, On};
ghost use Rattle.plan_laws.specs.Examples.{line_scripts, line_setting};
ghost use Rattle.scripts.specs.Scripts.{most_in, most_visits};
ghost use Rattle.worked_examples.specs.Examples.{OfFirst, find_from};

/// On the line of four a find from node 2 has twelve looks at most, one more than one from node 0.
/// With two readers behind the one that is next it has ten left, and in a chase with five hops left
/// six. A move has thirteen visits at most, and a switch one.
pub fn worked_bounds()
    ensures origin { looks_left line_setting (find_from 2) at_origin ≡ 12 }
    ensures climb { (known : Option ℕ) (weight : ℕ) (reader second third : Reader)
        → looks_left line_setting (find_from 2)
        (climbs known weight reader (second ∷ third ∷ [])) ≡ 10 }
    ensures chase { (chase : Chase) (node : ℕ) → chase.hops_left ≡ 5
        → looks_left line_setting (find_from 2) (chases chase node) ≡ 6 }
    ensures end { (found : Found) → looks_left line_setting (find_from 2) (ended found) ≡ 0 }
    ensures steps { most_in line_setting (Move 2 ∷ Off ∷ On ∷ []) ≡ 15 }
    ensures finds { most_in line_setting (Find 2 0 ∷ Find 0 0 ∷ []) ≡ 23 }
    ensures scripts { most_visits line_setting
        ((Move 2 ∷ Off ∷ On ∷ []) ∷ [] ∷ (Find 2 0 ∷ []) ∷ []) ≡ 27 }
    ensures calls { count_calls ((Move 2 ∷ Off ∷ On ∷ []) ∷ [] ∷ (Find 2 0 ∷ []) ∷ []) ≡ 4 }
{}

/// A caller with four tickets has its fifth look next, and its find began no later.
pub fn worked_callers()
    ensures next { CallersCount → (history : History)
        → IsPlayed line_setting (line_scripts (move_to 2 ∷ []) (find_from 2 ∷ [])) history
        → length (tickets 1 history) ≡ 4
        → (caller_in line_setting (line_scripts (move_to 2 ∷ []) (find_from 2 ∷ [])) history 1).next
        ≡ 4 }
    ensures first { CallersCount → (history : History)
        → IsPlayed line_setting (line_scripts (move_to 2 ∷ []) (find_from 2 ∷ [])) history
        → length (tickets 1 history) ≡ 4
        → (caller_in line_setting (line_scripts (move_to 2 ∷ []) (find_from 2 ∷ [])) history
        1).first ≤ 4 }
{}

/// A machine has room for just what its input may need, whatever its history: where that is 25
/// visits, for an order of 25; where its scripts have four calls, for four; and for its one
/// subscriber, or its two callers. A caller of three finds has room for three lines, a subscriber
/// of two steps for two, and for 64 writes ahead. Turns leave a machine with its room for an order
/// of 25 and for four lines, and with homes and routes of three levels.
pub fn worked_rooms()
    ensures order { (machine : Machine) (history : History) → HasHistory machine history
        → most_visits (setting_at machine) (input_at machine).scripts ≡ 25
        → vec_capacity machine.order ≡ 25 }
    ensures calls { (machine : Machine) (history : History) → HasHistory machine history
        → count_calls (input_at machine).scripts ≡ 4 → vec_capacity machine.calls ≡ 4 }
    ensures subscribers { (machine : Machine) (history : History) → HasHistory machine history
        → length (input_at machine).homes ≡ 1 → vec_capacity machine.subscribers ≡ 1 }
    ensures callers { (machine : Machine) (history : History) → HasHistory machine history
        → (input_at machine).callers ≡ 2 → vec_capacity machine.callers ≡ 2 }
    ensures turns { (old new : Machine) → IsSame old new → vec_capacity old.order ≡ 25
        → vec_capacity new.order ≡ 25 }
    ensures calls_stay { (old new : Machine) → IsSame old new → vec_capacity old.calls ≡ 4
        → vec_capacity new.calls ≡ 4 }
    ensures homes { (old new : Machine) → IsSame old new → old.homes.levels ≡ 3
        → new.homes.levels ≡ 3 }
    ensures routes { (old new : Machine) → IsSame old new → old.routes.levels ≡ 3
        → new.routes.levels ≡ 3 }
    ensures finds { (machine : Machine) (history : History) → HasHistory machine history
        → (input_at machine).callers ≡ 1
        → length (finds_of (setting_at machine) (scripts_at machine)
        (length (input_at machine).homes + 0)) ≡ 3
        → OfFirst machine.callers.items (λ caller. vec_capacity caller.lines ≡ 3) }
    ensures lines { (machine : Machine) (history : History) → HasHistory machine history
        → length (input_at machine).homes ≡ 1 → length (steps_of (scripts_at machine) 0) ≡ 2
        → OfFirst machine.subscribers.items (λ subscriber. vec_capacity subscriber.lines ≡ 2) }
    ensures ahead { (machine : Machine) (history : History) → HasHistory machine history
        → length (input_at machine).homes ≡ 1
        → OfFirst machine.subscribers.items (λ subscriber. vec_capacity subscriber.ahead ≡ 64) }
{}
