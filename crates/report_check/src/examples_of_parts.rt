//! Worked examples of what each part asks, of which flaw is told, and of how reports are read.
ghost use Rattle.std.specs.Prelude.{◌≡◌, ◌<◌, ◌∷◌, [], ℕ, All, Err, List, None, Ok, codes, length, replicate, true};
ghost use Rattle.directory.specs.declared.answers.Done.TheVariants.{Found, Switched};
ghost use Rattle.report_check.specs.Forms.{ReadReportsAreText, ReportsAreRead};
ghost use Rattle.report_check.specs.Reading.{most, report_in};
ghost use Rattle.report_check.specs.declared.slots.Slot.{Slot};
ghost use Rattle.report_check.specs.declared.slots.Slot.TheVariants.{Switch};
ghost use Rattle.report_text.specs.ReportText.{report_of};
ghost use Rattle.report_check.specs.declared.verdict.Flaw.TheVariants.{Again, Form, Place, Tickets, Weight};
ghost use Rattle.report_check.specs.declared.verdict.Verdict.TheVariants.{Sound, Unsound};
ghost use Rattle.report_check.specs.Examples.{◌then◌, near_find, off_then_move, one_move, order_of_zeros, second_found, switches, verdict_for};

/// Finds that answer off: their place is that before their last visit, and their weight is bounded.
pub fn finds_of_off()
    ensures by_its_last { verdict_for switches (codes "switch 0 off 3 number 0 ticket 1" then
        codes "switch 0 on 3 number 0 ticket 3" then
        codes "off 1 3 0 at 3 number 0 level - weight 0 first 0 last 2" then
        codes "order 1 0 1 0" then codes "end 4" then []) ≡ Sound }
    ensures elsewhere { verdict_for switches (codes "switch 0 off 3 number 0 ticket 0" then
        codes "switch 0 on 3 number 0 ticket 2" then
        codes "off 1 3 0 at 2 number 0 level - weight 0 first 1 last 1" then
        codes "order 0 1 0" then codes "end 3" then []) ≡ Unsound 3 Place }
    ensures wrong_count { verdict_for switches (codes "switch 0 off 3 number 0 ticket 0" then
        codes "switch 0 on 3 number 0 ticket 2" then
        codes "off 1 3 0 at 3 number 1 level - weight 0 first 1 last 1" then
        codes "order 0 1 0" then codes "end 3" then []) ≡ Unsound 3 Place }
    ensures too_heavy { verdict_for switches (codes "switch 0 off 3 number 0 ticket 0" then
        codes "switch 0 on 3 number 0 ticket 2" then
        codes "off 1 3 0 at 3 number 0 level - weight 1 first 1 last 1" then
        codes "order 0 1 0" then codes "end 3" then []) ≡ Unsound 3 Weight }
    ensures last_of_another { verdict_for switches (codes "switch 0 off 3 number 0 ticket 0" then
        codes "switch 0 on 3 number 0 ticket 2" then
        codes "off 1 3 0 at 3 number 0 level - weight 0 first 1 last 3" then
        codes "order 0 1 0" then codes "end 3" then []) ≡ Unsound 3 Tickets }
    ensures moved_while_off { verdict_for off_then_move (
        codes "switch 0 off 3 number 0 ticket 0" then
        codes "switch 0 on 3 number 0 ticket 1" then
        codes "switch 0 off 3 number 0 ticket 2" then
        codes "move 0 1 3 2 weight 1 first 3 commit 4 last 5" then
        codes "off 1 3 0 at 2 number 1 level - weight 0 first 6 last 6" then
        codes "order 0 0 0 0 0 0 1" then codes "end 7" then []) ≡ Sound }
{}

/// Moves within a find, behind its last visit, and around it, and a subscriber's own start.
pub fn moves_within_finds()
    ensures by_its_last { verdict_for one_move (
        codes "move 0 1 3 2 weight 1 first 1 commit 2 last 3" then
        codes "find 1 3 0 at 2 number 1 level 2 weight 5 first 0 last 4" then
        codes "order 1 0 0 0 1" then codes "end 5" then []) ≡ Sound }
    ensures met { verdict_for one_move (
        codes "move 0 1 3 2 weight 1 first 1 commit 2 last 3" then
        codes "again 1 3 0 empty 3 weight 5 first 0 last 4" then
        codes "order 1 0 0 0 1" then codes "end 5" then []) ≡ Sound }
    ensures met_behind { verdict_for one_move (
        codes "move 0 1 3 2 weight 1 first 2 commit 3 last 4" then
        codes "again 1 3 0 none weight 0 first 0 last 1" then
        codes "order 1 1 0 0 0" then codes "end 5" then []) ≡ Unsound 2 Again }
    ensures confirmed { verdict_for near_find (
        codes "move 0 1 3 2 weight 1 first 0 commit 1 last 4" then
        codes "find 1 2 0 at 2 number 1 level - weight 1 first 3 last 3" then
        codes "order 0 0 0 1 0" then codes "end 5" then []) ≡ Unsound 2 Weight }
    ensures start_of_its_own { verdict_for second_found (
        codes "find 2 3 1 at 0 number 0 level - weight 3 first 0 last 0" then
        codes "order 2" then codes "end 1" then []) ≡ Sound }
{}

/// Where a line breaks two parts, the first is told, and of two lines that of the first; what can't
/// be read is told before all else.
pub fn first_flaws()
    ensures form_before_all { verdict_for one_move (
        codes "move 0 1 3 2 weight 2 first 0 commit 1 last 2" then
        codes "find 1 3 0 at 4 number 0 level - weight 0 first 3 last 3" then
        codes "order 0 0 0 1" then codes "end 4" then []) ≡ Unsound 2 Form }
    ensures tickets_before_place { verdict_for one_move (
        codes "move 0 1 3 2 weight 1 first 0 commit 1 last 2" then
        codes "find 1 3 0 at 3 number 0 level - weight 0 first 3 last 4" then
        codes "order 0 0 0 1" then codes "end 4" then []) ≡ Unsound 2 Tickets }
    ensures tickets_before_again { verdict_for one_move (
        codes "move 0 1 3 2 weight 1 first 0 commit 1 last 2" then
        codes "again 1 3 0 none weight 0 first 3 last 4" then
        codes "order 0 0 0 1" then codes "end 4" then []) ≡ Unsound 2 Tickets }
    ensures tickets_before_weight { verdict_for one_move (
        codes "move 0 1 3 2 weight 0 first 0 commit 2 last 2" then
        codes "find 1 3 0 at 2 number 1 level - weight 5 first 3 last 3" then
        codes "order 0 0 0 1" then codes "end 4" then []) ≡ Unsound 1 Tickets }
    ensures left_over_before_place { verdict_for one_move (
        codes "move 0 1 3 2 weight 1 first 0 commit 1 last 2" then
        codes "find 1 3 0 at 3 number 0 level - weight 0 first 3 last 3" then
        codes "order 0 0 0 1 1" then codes "end 5" then []) ≡ Unsound 2 Tickets }
    ensures first_line { verdict_for one_move (
        codes "move 0 1 3 2 weight 2 first 0 commit 1 last 2" then
        codes "find 1 3 0 at 3 number 0 level - weight 0 first 3 last 4" then
        codes "order 0 0 0 1" then codes "end 4" then []) ≡ Unsound 1 Weight }
{}

/// The lines of an order are full but for the last, and the reading ends at the first line that
/// can't be read.
pub fn lines_of_orders()
    ensures full { report_in (record { nodes = 4; levels = 3 }) ([]) (
        order_of_zeros 64 then order_of_zeros 1 then codes "end 65" then [])
        ≡ Ok (record { calls = []; order = replicate 65 0 }) }
    ensures not_full { report_in (record { nodes = 4; levels = 3 }) ([]) (
        order_of_zeros 63 then order_of_zeros 2 then codes "end 65" then []) ≡ Err 1 }
    ensures too_long { report_in (record { nodes = 4; levels = 3 }) ([]) (
        order_of_zeros 65 then codes "end 65" then []) ≡ Err 0 }
    ensures second_line { report_in (record { nodes = 4; levels = 3 }) ([]) (
        order_of_zeros 64 then codes "order 0  0" then codes "end 66" then []) ≡ Err 1 }
    ensures empty { report_in (record { nodes = 4; levels = 3 }) ([]) (
        codes "order" then codes "end 0" then []) ≡ Err 0 }
    ensures behind_calls { report_in (record { nodes = 4; levels = 3 }) (Switch 0 true 3 1 ∷ []) (
        codes "switch 0 off 3 number 1 ticket 0" then codes "order 0  0" then
        codes "end 2" then []) ≡ Err 1 }
    ensures no_end { report_in (record { nodes = 4; levels = 3 }) (Switch 0 true 3 1 ∷ []) (
        codes "switch 0 off 3 number 1 ticket 0" then codes "order 0" then
        codes "end 2" then []) ≡ Err 2 }
{}

/// What the laws of reports say: which text is read, by which slots, within which bounds, and that
/// the text of any order is read.
pub fn texts_of_reports()
    ensures text { ReadReportsAreText → (text : List ℕ)
        → report_in (record { nodes = 4; levels = 3 }) ([]) text
        ≡ Ok (record { calls = []; order = 0 ∷ [] })
        → text ≡ codes "order 0" then codes "end 1" then [] }
    ensures own_slots { ReadReportsAreText → (slots : List Slot) (text : List ℕ)
        → report_in (record { nodes = 4; levels = 3 }) slots text
        ≡ Ok (record { calls = Switched 0 true 3 1 6 ∷ []; order = [] })
        → Switch 0 true 3 1 ∷ [] ≡ slots }
    ensures in_bounds { ReadReportsAreText → (slots : List Slot) (text : List ℕ)
        → report_in (record { nodes = 4; levels = 3 }) slots text
        ≡ Ok (record { calls = Found 3 1 0 4 1 None 0 0 0 ∷ []; order = [] }) → ⊥ }
    ensures actors { ReadReportsAreText → (actor : ℕ) (text : List ℕ)
        → report_in (record { nodes = 4; levels = 3 }) ([]) text
        ≡ Ok (record { calls = []; order = actor ∷ [] }) → actor < most }
    ensures read { ReportsAreRead → (order : List ℕ) → All (λ actor. actor < most) order
        → length order < most → report_in (record { nodes = 4; levels = 3 }) ([])
        (report_of (record { calls = []; order = order }))
        ≡ Ok (record { calls = []; order = order }) }
{}
