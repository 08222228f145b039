//! Worked examples, computed.
ghost use Rattle.std.specs.Prelude.{◌≡◌, ◌<◌, ◌++◌, ◌∷◌, [], ℕ, List, None, Some, codes, false, true};
ghost use Rattle.directory.specs.declared.answers.Done.TheVariants.{Found, Switched};
ghost use Rattle.report_check.specs.Cuts.{input_part, report_part};
ghost use Rattle.report_check.specs.Laws.{CallsAreText, NumbersAreText, WordsAreText};
ghost use Rattle.report_check.specs.Reading.{call_in, number_in, starts_with_digit, word_in};
ghost use Rattle.report_check.specs.VerdictText.{verdict_line_of};
ghost use Rattle.report_check.specs.Verdicts.{line_behind};
ghost use Rattle.report_check.specs.declared.slots.Slot.{Slot};
ghost use Rattle.report_check.specs.declared.slots.Slot.TheVariants.{Switch};
ghost use Rattle.report_check.specs.declared.verdict.Flaw.TheVariants.{Form, Tickets, Place, Again, Weight};
ghost use Rattle.report_check.specs.declared.verdict.Verdict.TheVariants.{Sound, Unsound};
ghost use Rattle.report_check.specs.Examples.{◌then◌, both_move, lone_find, near_find, one_move, other_off, switches, three_finds, two_moves, two_moves_near, verdict_for};

/// A sound report, and how it is broken.
pub fn worked_reports()
    ensures whole { verdict_for one_move (
        codes "move 0 1 3 2 weight 1 first 0 commit 3 last 5" then
        codes "find 1 3 0 at 2 number 1 level 0 weight 5 first 6 last 8" then
        codes "order 0 0 0 0 0 0 1 1 1" then codes "end 9" then []) ≡ Sound }
    ensures elsewhere { verdict_for one_move (
        codes "move 0 1 3 2 weight 1 first 0 commit 3 last 5" then
        codes "find 1 3 0 at 3 number 1 level 0 weight 5 first 6 last 8" then
        codes "order 0 0 0 0 0 0 1 1 1" then codes "end 9" then []) ≡ Unsound 2 Place }
    ensures heaviest { verdict_for one_move (
        codes "move 0 1 3 2 weight 1 first 0 commit 3 last 5" then
        codes "find 1 3 0 at 2 number 1 level 0 weight 144 first 6 last 8" then
        codes "order 0 0 0 0 0 0 1 1 1" then codes "end 9" then []) ≡ Sound }
    ensures too_heavy { verdict_for one_move (
        codes "move 0 1 3 2 weight 1 first 0 commit 3 last 5" then
        codes "find 1 3 0 at 2 number 1 level 0 weight 145 first 6 last 8" then
        codes "order 0 0 0 0 0 0 1 1 1" then codes "end 9" then []) ≡ Unsound 2 Weight }
    ensures late_commit { verdict_for one_move (
        codes "move 0 1 3 2 weight 1 first 0 commit 5 last 5" then
        codes "find 1 3 0 at 2 number 1 level 0 weight 5 first 6 last 8" then
        codes "order 0 0 0 0 0 0 1 1 1" then codes "end 9" then []) ≡ Unsound 1 Tickets }
    ensures needless { verdict_for one_move (
        codes "move 0 1 3 2 weight 1 first 0 commit 3 last 5" then
        codes "again 1 3 0 none weight 5 first 6 last 8" then
        codes "order 0 0 0 0 0 0 1 1 1" then codes "end 9" then []) ≡ Unsound 2 Again }
    ensures cut { verdict_for one_move (
        codes "move 0 1 3 2 weight 1 first 0 commit 3 last 5" then
        codes "find 1 3 0 at 2 number 1 level 0 weight 5 first 6 last 8" then
        codes "order 0 0 0 0 0 0 1 1 1" then []) ≡ Unsound 4 Form }
{}

/// Form: lines that may not stand where they stand.
pub fn flaws_of_form()
    ensures nothing { verdict_for one_move ([]) ≡ Unsound 1 Form }
    ensures no_line_feed { verdict_for one_move (
        codes "move 0 1 3 2 weight 1 first 0 commit 3 last 5" then
        codes "find 1 3 0 at 2 number 1 level 0 weight 5 first 6 last 8" then
        codes "order 0 0 0 0 0 0 1 1 1" then codes "end 9") ≡ Unsound 4 Form }
    ensures second_order { verdict_for one_move (
        codes "move 0 1 3 2 weight 1 first 0 commit 3 last 5" then
        codes "find 1 3 0 at 2 number 1 level 0 weight 5 first 6 last 8" then
        codes "order 0 0 0 0 0 0" then codes "order 1 1 1" then codes "end 9" then []
        ) ≡ Unsound 4 Form }
    ensures wrong_end { verdict_for one_move (
        codes "move 0 1 3 2 weight 1 first 0 commit 3 last 5" then
        codes "find 1 3 0 at 2 number 1 level 0 weight 5 first 6 last 8" then
        codes "order 0 0 0 0 0 0 1 1 1" then codes "end 8" then []) ≡ Unsound 4 Form }
    ensures more_behind { verdict_for one_move (
        codes "move 0 1 3 2 weight 1 first 0 commit 3 last 5" then
        codes "find 1 3 0 at 2 number 1 level 0 weight 5 first 6 last 8" then
        codes "order 0 0 0 0 0 0 1 1 1" then codes "end 9" then codes "end 9" then []
        ) ≡ Unsound 5 Form }
    ensures two_blanks { verdict_for one_move (
        codes "move 0 1 3 2 weight 1 first 0 commit 3 last 5" then
        codes "find 1 3 0 at  2 number 1 level 0 weight 5 first 6 last 8" then
        codes "order 0 0 0 0 0 0 1 1 1" then codes "end 9" then []) ≡ Unsound 2 Form }
    ensures leading_zero { verdict_for one_move (
        codes "move 0 1 3 2 weight 1 first 0 commit 3 last 5" then
        codes "find 1 3 0 at 2 number 01 level 0 weight 5 first 6 last 8" then
        codes "order 0 0 0 0 0 0 1 1 1" then codes "end 9" then []) ≡ Unsound 2 Form }
    ensures no_node { verdict_for one_move (
        codes "move 0 1 3 2 weight 1 first 0 commit 3 last 5" then
        codes "again 1 3 0 empty 4 weight 5 first 6 last 8" then
        codes "order 0 0 0 0 0 0 1 1 1" then codes "end 9" then []) ≡ Unsound 2 Form }
    ensures no_level { verdict_for one_move (
        codes "move 0 1 3 2 weight 1 first 0 commit 3 last 5" then
        codes "find 1 3 0 at 2 number 1 level 3 weight 5 first 6 last 8" then
        codes "order 0 0 0 0 0 0 1 1 1" then codes "end 9" then []) ≡ Unsound 2 Form }
    ensures wrong_number { verdict_for one_move (
        codes "move 0 2 3 2 weight 1 first 0 commit 3 last 5" then
        codes "find 1 3 0 at 2 number 1 level 0 weight 5 first 6 last 8" then
        codes "order 0 0 0 0 0 0 1 1 1" then codes "end 9" then []) ≡ Unsound 1 Form }
    ensures too_large { verdict_for one_move (
        codes "move 0 1 3 2 weight 1 first 0 commit 3 last 5" then
        codes "find 1 3 0 at 2 number 1 level 0 weight 9223372036854775808 first 6 last 8" then
        codes "order 0 0 0 0 0 0 1 1 1" then codes "end 9" then []) ≡ Unsound 2 Form }
    ensures largest { verdict_for one_move (
        codes "move 0 1 3 2 weight 1 first 0 commit 3 last 5" then
        codes "find 1 3 0 at 2 number 1 level 0 weight 9223372036854775807 first 6 last 8" then
        codes "order 0 0 0 0 0 0 1 1 1" then codes "end 9" then []) ≡ Unsound 2 Weight }
{}

/// Place and weight, where every ticket is right.
pub fn flaws_of_place()
    ensures off_line { verdict_for one_move (
        codes "move 0 1 3 2 weight 1 first 0 commit 3 last 5" then
        codes "off 1 3 0 at 2 number 1 level 0 weight 5 first 6 last 8" then
        codes "order 0 0 0 0 0 0 1 1 1" then codes "end 9" then []) ≡ Unsound 2 Place }
    ensures wrong_count { verdict_for one_move (
        codes "move 0 1 3 2 weight 1 first 0 commit 3 last 5" then
        codes "find 1 3 0 at 2 number 4294967297 level 0 weight 5 first 6 last 8" then
        codes "order 0 0 0 0 0 0 1 1 1" then codes "end 9" then []) ≡ Unsound 2 Place }
    ensures heavy_move { verdict_for one_move (
        codes "move 0 1 3 2 weight 2 first 0 commit 3 last 5" then
        codes "find 1 3 0 at 2 number 1 level 0 weight 5 first 6 last 8" then
        codes "order 0 0 0 0 0 0 1 1 1" then codes "end 9" then []) ≡ Unsound 1 Weight }
    ensures light_move { verdict_for one_move (
        codes "move 0 1 3 2 weight 0 first 0 commit 1 last 2" then
        codes "find 1 3 0 at 2 number 1 level 0 weight 5 first 3 last 3" then
        codes "order 0 0 0 1" then codes "end 4" then []) ≡ Unsound 1 Weight }
{}

/// Tickets that no call holds, or that aren't the call's.
pub fn flaws_of_tickets()
    ensures stranger { verdict_for one_move (
        codes "move 0 1 3 2 weight 1 first 0 commit 3 last 5" then
        codes "find 1 3 0 at 2 number 1 level 0 weight 5 first 6 last 8" then
        codes "order 0 0 0 0 0 0 1 1 1 2" then codes "end 10" then []) ≡ Unsound 3 Tickets }
    ensures left_over { verdict_for one_move (
        codes "move 0 1 3 2 weight 1 first 0 commit 3 last 5" then
        codes "find 1 3 0 at 2 number 1 level 0 weight 5 first 6 last 8" then
        codes "order 0 0 0 0 0 0 1 1 1 1" then codes "end 10" then []) ≡ Unsound 2 Tickets }
    ensures left_over_move { verdict_for one_move (
        codes "move 0 1 3 2 weight 1 first 0 commit 3 last 5" then
        codes "find 1 3 0 at 2 number 1 level 0 weight 5 first 6 last 8" then
        codes "order 0 0 0 0 0 0 1 1 1 0" then codes "end 10" then []) ≡ Unsound 1 Tickets }
    ensures late_first { verdict_for one_move (
        codes "move 0 1 3 2 weight 1 first 0 commit 3 last 5" then
        codes "find 1 3 0 at 2 number 1 level 0 weight 5 first 7 last 8" then
        codes "order 0 0 0 0 0 0 1 1 1" then codes "end 9" then []) ≡ Unsound 2 Tickets }
    ensures early_last { verdict_for one_move (
        codes "move 0 1 3 2 weight 1 first 0 commit 3 last 5" then
        codes "find 1 3 0 at 2 number 1 level 0 weight 5 first 6 last 5" then
        codes "order 0 0 0 0 0 0 1 1 1" then codes "end 9" then []) ≡ Unsound 2 Tickets }
    ensures no_visits { verdict_for one_move (
        codes "move 0 1 3 2 weight 1 first 0 commit 3 last 5" then
        codes "find 1 3 0 at 2 number 1 level 0 weight 5 first 6 last 8" then
        codes "end 0" then []) ≡ Unsound 1 Tickets }
    ensures in_turn { verdict_for three_finds (
        codes "find 1 3 0 at 3 number 0 level - weight 0 first 0 last 1" then
        codes "find 1 3 0 at 3 number 0 level - weight 0 first 2 last 2" then
        codes "find 1 3 0 at 3 number 0 level - weight 0 first 3 last 3" then
        codes "order 1 1 1 1" then codes "end 4" then []) ≡ Sound }
    ensures ends_before_it_begins { verdict_for three_finds (
        codes "find 1 3 0 at 3 number 0 level - weight 0 first 0 last 1" then
        codes "find 1 3 0 at 3 number 0 level - weight 0 first 2 last 1" then
        codes "find 1 3 0 at 3 number 0 level - weight 0 first 2 last 3" then
        codes "order 1 1 1 1" then codes "end 4" then []) ≡ Unsound 2 Tickets }
{}

/// Moves count by their commits, and a passage is open up to its confirm.
pub fn moves_by_tickets()
    ensures before { verdict_for near_find (
        codes "move 0 1 3 2 weight 1 first 4 commit 7 last 9" then
        codes "find 1 2 0 at 3 number 0 level 0 weight 5 first 0 last 3" then
        codes "order 1 1 1 1 0 0 0 0 0 0" then codes "end 10" then []) ≡ Sound }
    ensures by_lines { verdict_for near_find (
        codes "move 0 1 3 2 weight 1 first 4 commit 7 last 9" then
        codes "find 1 2 0 at 2 number 1 level 0 weight 5 first 0 last 3" then
        codes "order 1 1 1 1 0 0 0 0 0 0" then codes "end 10" then []) ≡ Unsound 2 Place }
    ensures passage { verdict_for near_find (
        codes "move 0 1 3 2 weight 1 first 0 commit 3 last 8" then
        codes "find 1 2 0 at 2 number 1 level - weight 2 first 4 last 6" then
        codes "order 0 0 0 0 1 1 1 0 0" then codes "end 9" then []) ≡ Sound }
    ensures beyond_passage { verdict_for near_find (
        codes "move 0 1 3 2 weight 1 first 0 commit 3 last 8" then
        codes "find 1 2 0 at 2 number 1 level - weight 3 first 4 last 6" then
        codes "order 0 0 0 0 1 1 1 0 0" then codes "end 9" then []) ≡ Unsound 2 Weight }
    ensures met { verdict_for near_find (
        codes "move 0 1 3 2 weight 1 first 0 commit 5 last 7" then
        codes "again 1 2 0 chased weight 999 first 1 last 4" then
        codes "order 0 1 0 0 1 0 0 0" then codes "end 8" then []) ≡ Sound }
    ensures met_heavy { verdict_for near_find (
        codes "move 0 1 3 2 weight 1 first 0 commit 5 last 7" then
        codes "find 1 2 0 at 3 number 0 level 0 weight 999 first 1 last 4" then
        codes "order 0 1 0 0 1 0 0 0" then codes "end 8" then []) ≡ Sound }
    ensures moves_of_another { verdict_for both_move (
        codes "move 0 1 3 2 weight 1 first 0 commit 1 last 2" then
        codes "move 1 1 0 1 weight 1 first 3 commit 4 last 5" then
        codes "find 2 3 0 at 2 number 1 level - weight 5 first 6 last 6" then
        codes "order 0 0 0 1 1 1 2" then codes "end 7" then []) ≡ Sound }
    ensures met_another { verdict_for both_move (
        codes "move 0 1 3 2 weight 1 first 0 commit 1 last 2" then
        codes "move 1 1 0 1 weight 1 first 4 commit 6 last 7" then
        codes "again 2 3 0 none weight 5 first 3 last 5" then
        codes "order 0 0 0 2 1 2 1 1" then codes "end 8" then []) ≡ Unsound 3 Again }
{}

/// Switches.
pub fn switches_by_tickets()
    ensures switched { verdict_for switches (codes "switch 0 off 3 number 0 ticket 0" then
        codes "switch 0 on 3 number 0 ticket 2" then
        codes "off 1 3 0 at 3 number 0 level - weight 0 first 1 last 1" then
        codes "order 0 1 0" then codes "end 3" then []) ≡ Sound }
    ensures told_on { verdict_for switches (codes "switch 0 off 3 number 0 ticket 0" then
        codes "switch 0 on 3 number 0 ticket 2" then
        codes "find 1 3 0 at 3 number 0 level - weight 0 first 1 last 1" then
        codes "order 0 1 0" then codes "end 3" then []) ≡ Unsound 3 Place }
    ensures switch_is_no_move { verdict_for switches (
        codes "switch 0 off 3 number 0 ticket 0" then
        codes "switch 0 on 3 number 0 ticket 2" then
        codes "again 1 3 0 none weight 0 first 1 last 3" then codes "order 0 1 0 1" then
        codes "end 4" then []) ≡ Unsound 3 Again }
    ensures two_tickets { verdict_for switches (codes "switch 0 off 3 number 0 ticket 1" then
        codes "switch 0 on 3 number 0 ticket 3" then
        codes "off 1 3 0 at 3 number 0 level - weight 0 first 2 last 2" then
        codes "order 0 0 1 0" then codes "end 4" then []) ≡ Unsound 1 Tickets }
    ensures wrong_state { verdict_for switches (codes "switch 0 on 3 number 0 ticket 0" then
        codes "switch 0 on 3 number 0 ticket 2" then
        codes "off 1 3 0 at 3 number 0 level - weight 0 first 1 last 1" then
        codes "order 0 1 0" then codes "end 3" then []) ≡ Unsound 1 Form }
    ensures switch_of_another { verdict_for other_off (
        codes "switch 1 off 0 number 0 ticket 0" then
        codes "find 2 3 0 at 3 number 0 level - weight 0 first 1 last 1" then
        codes "order 1 2" then codes "end 2" then []) ≡ Sound }
{}

/// Where texts are cut: on the first line, with blanks and a carriage return, at the first of two,
/// nowhere, and at a last line without its line feed.
pub fn example_cuts()
    ensures first { input_part (codes "report" then codes "yes" then []) ≡ [] }
    ensures first_report { report_part (codes "report" then codes "yes" then [])
        ≡ codes "yes" then [] }
    ensures blanks { input_part (codes "sub 3" then codes " \treport \r" then codes "end" then [])
        ≡ codes "sub 3" then [] }
    ensures blanks_report { report_part (codes "sub 3" then codes " \treport \r" then codes "end")
        ≡ codes "end" }
    ensures first_of_two { input_part (codes "k 2" then codes "report" then codes "report" then [])
        ≡ codes "k 2" then [] }
    ensures second_is_report { report_part (codes "k 2" then codes "report" then
        codes "report" then []) ≡ codes "report" then [] }
    ensures nowhere { input_part (codes "k 2" then codes "reports" then codes "report x" then
        codes "a report") ≡ codes "k 2" then codes "reports" then codes "report x" then
        codes "a report" }
    ensures nowhere_report { report_part (codes "k 2" then codes "reports" then
        codes "report x" then codes "a report") ≡ [] }
    ensures two_returns { report_part (codes "k 2" then codes "report\r\r" then codes "end")
        ≡ [] }
    ensures empty_lines { report_part (codes "k 2" then ([]) then codes " " then codes "report" then
        codes "end") ≡ codes "end" }
    ensures last { input_part (codes "k 2" then codes "report") ≡ codes "k 2" then [] }
    ensures last_report { report_part (codes "k 2" then codes "report") ≡ [] }
{}

/// Lines that tell verdicts, and the last number of a line, which stands still.
pub fn example_verdicts()
    ensures sound { verdict_line_of Sound ≡ codes "yes" ++ 10 ∷ [] }
    ensures unsound { verdict_line_of (Unsound 12 Weight) ≡ codes "no 12 weight" ++ 10 ∷ [] }
    ensures form { verdict_line_of (Unsound 1 Form) ≡ codes "no 1 form" ++ 10 ∷ [] }
    ensures tickets { verdict_line_of (Unsound 2 Tickets) ≡ codes "no 2 tickets" ++ 10 ∷ [] }
    ensures place { verdict_line_of (Unsound 3 Place) ≡ codes "no 3 place" ++ 10 ∷ [] }
    ensures again { verdict_line_of (Unsound 4 Again) ≡ codes "no 4 again" ++ 10 ∷ [] }
    ensures last_line { line_behind 4294967294 ≡ 4294967295 }
    ensures stands_still { line_behind 4294967295 ≡ 4294967295 }
{}

/// Tickets of a subscriber without calls are of no move: the line of a find breaks its own part
/// before they are found to be left over.
pub fn moves_of_nobody()
    ensures again { verdict_for lone_find (
        codes "again 1 3 0 none weight 5 first 0 last 2" then
        codes "order 1 0 1" then codes "end 3" then []) ≡ Unsound 1 Again }
    ensures weight { verdict_for lone_find (
        codes "find 1 3 0 at 3 number 0 level 0 weight 999 first 0 last 2" then
        codes "order 1 0 1" then codes "end 3" then []) ≡ Unsound 1 Weight }
    ensures light { verdict_for lone_find (
        codes "find 1 3 0 at 3 number 0 level 0 weight 0 first 0 last 2" then
        codes "order 1 0 1" then codes "end 3" then []) ≡ Unsound 2 Tickets }
    ensures without { verdict_for lone_find (
        codes "find 1 3 0 at 3 number 0 level 0 weight 0 first 0 last 1" then
        codes "order 1 1" then codes "end 2" then []) ≡ Sound }
{}

/// Commits and last tickets that are none, and two moves of one subscriber.
pub fn moves_by_commits()
    ensures sound { verdict_for one_move (
        codes "move 0 1 3 2 weight 1 first 0 commit 1 last 2" then
        codes "find 1 3 0 at 2 number 1 level - weight 5 first 3 last 3" then
        codes "order 0 0 0 1" then codes "end 4" then []) ≡ Sound }
    ensures commit_first { verdict_for one_move (
        codes "move 0 1 3 2 weight 1 first 0 commit 0 last 2" then
        codes "find 1 3 0 at 2 number 1 level - weight 5 first 3 last 3" then
        codes "order 0 0 0 1" then codes "end 4" then []) ≡ Unsound 1 Tickets }
    ensures commit_of_another { verdict_for one_move (
        codes "move 0 1 3 2 weight 1 first 0 commit 1 last 3" then
        codes "find 1 3 0 at 3 number 0 level - weight 5 first 1 last 1" then
        codes "order 0 1 0 0" then codes "end 4" then []) ≡ Unsound 1 Tickets }
    ensures last_of_another { verdict_for one_move (
        codes "move 0 1 3 2 weight 1 first 0 commit 1 last 3" then
        codes "find 1 3 0 at 2 number 1 level - weight 5 first 3 last 3" then
        codes "order 0 0 0 1" then codes "end 4" then []) ≡ Unsound 1 Tickets }
    ensures between_moves { verdict_for two_moves (
        codes "move 0 1 3 2 weight 1 first 0 commit 1 last 2" then
        codes "move 0 2 2 0 weight 2 first 4 commit 5 last 6" then
        codes "find 1 3 0 at 2 number 1 level - weight 5 first 3 last 3" then
        codes "order 0 0 0 1 0 0 0" then codes "end 7" then []) ≡ Sound }
    ensures behind_moves { verdict_for two_moves (
        codes "move 0 1 3 2 weight 1 first 0 commit 1 last 2" then
        codes "move 0 2 2 0 weight 2 first 3 commit 4 last 5" then
        codes "find 1 3 0 at 2 number 1 level - weight 5 first 6 last 6" then
        codes "order 0 0 0 0 0 0 1" then codes "end 7" then []) ≡ Unsound 3 Place }
    ensures passage_of_the_last { verdict_for two_moves_near (
        codes "move 0 1 3 2 weight 1 first 0 commit 1 last 2" then
        codes "move 0 2 2 0 weight 2 first 3 commit 4 last 6" then
        codes "find 1 0 0 at 0 number 2 level - weight 4 first 5 last 5" then
        codes "order 0 0 0 0 0 1 0" then codes "end 7" then []) ≡ Sound }
    ensures beyond_it { verdict_for two_moves_near (
        codes "move 0 1 3 2 weight 1 first 0 commit 1 last 2" then
        codes "move 0 2 2 0 weight 2 first 3 commit 4 last 6" then
        codes "find 1 0 0 at 0 number 2 level - weight 5 first 5 last 5" then
        codes "order 0 0 0 0 0 1 0" then codes "end 7" then []) ≡ Unsound 3 Weight }
{}

/// Words, numbers and lines that are read, and what the laws say of the texts that they are read
/// from: a number has a blank before it, no leading zeros, and is below its limit.
pub fn example_readings()
    ensures word { word_in (codes "end") (codes "end 9") ≡ Some (codes " 9") }
    ensures short_word { word_in (codes "end") (codes "en") ≡ None }
    ensures begins { WordsAreText → (text : List ℕ)
        → word_in (codes "end") text ≡ Some (codes " 9") → text ≡ codes "end 9" }
    ensures stands { WordsAreText → word_in (codes "end") (codes "end 9") ≡ Some (codes " 9") }
    ensures number { number_in 80 (codes " 79 x") ≡ Some (79, codes " x") }
    ensures limit { number_in 79 (codes " 79 x") ≡ None }
    ensures zeros { number_in 80 (codes " 079") ≡ None }
    ensures no_blank { number_in 80 (codes "79") ≡ None }
    ensures digits { NumbersAreText → (text : List ℕ)
        → number_in 80 text ≡ Some (79, codes " x") → text ≡ codes " 79 x" }
    ensures below { NumbersAreText → (n : ℕ) (text rest : List ℕ)
        → number_in 80 text ≡ Some (n, rest) → n < 80 }
    ensures stops { NumbersAreText → (n : ℕ) (text rest : List ℕ)
        → number_in 80 text ≡ Some (n, rest) → starts_with_digit rest ≡ false }
    ensures written { NumbersAreText → number_in 80 (codes " 79 x") ≡ Some (79, codes " x") }
    ensures call { call_in (record { nodes = 4; levels = 3 }) (Switch 0 true 3 1)
        (codes "switch 0 off 3 number 1 ticket 6" then codes "end 7")
        ≡ Some (Switched 0 true 3 1 6, codes "end 7") }
    ensures other_slot { call_in (record { nodes = 4; levels = 3 }) (Switch 0 false 3 1)
        (codes "switch 0 off 3 number 1 ticket 6" then codes "end 7") ≡ None }
    ensures line { CallsAreText → (text : List ℕ)
        → call_in (record { nodes = 4; levels = 3 }) (Switch 0 true 3 1) text
        ≡ Some (Switched 0 true 3 1 6, codes "end 7")
        → text ≡ codes "switch 0 off 3 number 1 ticket 6" then codes "end 7" }
    ensures own_slot { CallsAreText → (slot : Slot) (text rest : List ℕ)
        → call_in (record { nodes = 4; levels = 3 }) slot text ≡ Some (Switched 0 true 3 1 6, rest)
        → Switch 0 true 3 1 ≡ slot }
    ensures in_bounds { CallsAreText → (slot : Slot) (text rest : List ℕ)
        → call_in (record { nodes = 4; levels = 3 }) slot text
        ≡ Some (Found 3 1 0 4 1 None 0 0 0, rest) → ⊥ }
    ensures line_read { CallsAreText → call_in (record { nodes = 4; levels = 3 })
        (Switch 0 true 3 1) (codes "switch 0 off 3 number 1 ticket 6" then codes "end 7")
        ≡ Some (Switched 0 true 3 1 6, codes "end 7") }
{}
