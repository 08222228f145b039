//! Worked examples, computed: each kind of line.
ghost use Rattle.std.specs.Prelude.{◌≡◌, ◌++◌, [], ◌∷◌, Some, None, true, false, codes};
ghost use Rattle.directory.specs.declared.answers.Done.TheVariants.{Moved, Switched, Found, Off, Again};
ghost use Rattle.directory.specs.declared.answers.Why.TheVariants.{Empty, NoEntry, Chased};
ghost use Rattle.net_reader.specs.declared.fault.InputCause.TheVariants.{TooLarge, Apart, Unknown, Nowhere};
ghost use Rattle.outside.specs.Texts.{◌then◌};
ghost use Rattle.report_text.specs.SummaryText.{summary_of};
ghost use Rattle.report_text.specs.ReportText.{call_line, cause_field, last_line, refused_line_of, report_of};

/// The line of a call of each kind.
pub fn example_calls()
    ensures moved { call_line (Moved 0 1 3 2 1 0 3 5)
        ≡ codes "move 0 1 3 2 weight 1 first 0 commit 3 last 5" ++ 10 ∷ [] }
    ensures found { call_line (Found 1 2 0 3 0 (Some 0) 5 0 3)
        ≡ codes "find 1 2 0 at 3 number 0 level 0 weight 5 first 0 last 3" ++ 10 ∷ [] }
    ensures near { call_line (Found 1 2 0 2 1 None 2 4 6)
        ≡ codes "find 1 2 0 at 2 number 1 level - weight 2 first 4 last 6" ++ 10 ∷ [] }
    ensures off { call_line (Off 1 2 0 3 0 (Some 10) 5 1 4)
        ≡ codes "off 1 2 0 at 3 number 0 level 10 weight 5 first 1 last 4" ++ 10 ∷ [] }
    ensures switched_off { call_line (Switched 0 true 3 0 0)
        ≡ codes "switch 0 off 3 number 0 ticket 0" ++ 10 ∷ [] }
    ensures switched_on { call_line (Switched 0 false 3 0 2)
        ≡ codes "switch 0 on 3 number 0 ticket 2" ++ 10 ∷ [] }
    ensures empty { call_line (Again 1 3 0 (Empty 2) 5 6 16)
        ≡ codes "again 1 3 0 empty 2 weight 5 first 6 last 16" ++ 10 ∷ [] }
    ensures no_entry { call_line (Again 1 3 0 NoEntry 5 6 16)
        ≡ codes "again 1 3 0 none weight 5 first 6 last 16" ++ 10 ∷ [] }
    ensures chased { call_line (Again 1 3 0 Chased 5 6 16)
        ≡ codes "again 1 3 0 chased weight 5 first 6 last 16" ++ 10 ∷ [] }
{}

/// Reports and refusals.
pub fn example_lines()
    ensures nothing { report_of (record { calls = []; order = [] }) ≡ codes "end 0" ++ 10 ∷ [] }
    ensures refused { refused_line_of (record { line = 4; cause = TooLarge })
        ≡ codes "refused 4 too-large" ++ 10 ∷ [] }
    ensures apart { refused_line_of (record { line = 6; cause = Apart 2 })
        ≡ codes "refused 6 apart 2" ++ 10 ∷ [] }
{}

/// Lines whose fields are all different, and the report of an order with one call.
pub fn example_fields()
    ensures moved { call_line (Moved 9 8 7 6 5 4 3 2)
        ≡ codes "move 9 8 7 6 weight 5 first 4 commit 3 last 2" ++ 10 ∷ [] }
    ensures off { call_line (Off 9 8 7 6 5 (Some 4) 3 2 1)
        ≡ codes "off 9 8 7 at 6 number 5 level 4 weight 3 first 2 last 1" ++ 10 ∷ [] }
    ensures found { call_line (Found 9 8 7 6 5 (Some 4) 3 2 1)
        ≡ codes "find 9 8 7 at 6 number 5 level 4 weight 3 first 2 last 1" ++ 10 ∷ [] }
    ensures switched { call_line (Switched 9 true 8 7 6)
        ≡ codes "switch 9 off 8 number 7 ticket 6" ++ 10 ∷ [] }
    ensures switched_on { call_line (Switched 9 false 8 7 6)
        ≡ codes "switch 9 on 8 number 7 ticket 6" ++ 10 ∷ [] }
    ensures report { report_of
        (record { calls = Switched 0 true 3 0 0 ∷ []; order = 0 ∷ 1 ∷ [] })
        ≡ (codes "switch 0 off 3 number 0 ticket 0" ++ 10 ∷ [])
        then (codes "order 0 1" ++ 10 ∷ []) then (codes "end 2" ++ 10 ∷ []) }
    ensures unknown { cause_field Unknown ≡ codes " unknown" }
    ensures nowhere { cause_field Nowhere ≡ codes " nowhere" }
{}

/// The summary of no call, and of a call of each kind: of an outcome's visits the order tells how
/// many there are.
pub fn example_summaries()
    ensures nothing { summary_of (record { calls = []; order = [] })
        ≡ codes "summary moves 0 moved 0 finds 0 again 0 travelled 0 visits 0" ++ 10 ∷ [] }
    ensures one { summary_of (record {
      calls = Moved 0 1 1 0 4 0 3 8 ∷ [];
      order = 0 ∷ 0 ∷ 0 ∷ 0 ∷ 0 ∷ 0 ∷ 0 ∷ 0 ∷ 0 ∷ [];
    }) ≡ codes "summary moves 1 moved 4 finds 0 again 0 travelled 0 visits 9" ++ 10 ∷ [] }
    ensures each { summary_of (record {
      calls = Moved 0 1 3 2 18446744073709551615 0 3 5 ∷ Moved 0 2 2 3 1 6 7 8
          ∷ Switched 0 true 3 2 9 ∷ Switched 0 false 3 2 11 ∷ Found 1 2 0 3 0 (Some 0) 5 0 3
          ∷ Off 1 2 0 3 0 None 20 10 10 ∷ Again 1 3 0 Chased 300 6 16 ∷ [];
      order = 0 ∷ 1 ∷ [];
    }) ≡ codes "summary moves 2 moved 18446744073709551616 finds 2 again 1 travelled 325 visits 2"
        ++ 10 ∷ [] }
{}
