//! Lines of texts, computed, where no field has the value of another.
ghost use Rattle.std.specs.Prelude.{◌≡◌, ◌++◌, [], ◌∷◌, codes, map, true, Some};
ghost use Rattle.directory.specs.declared.answers.Done.TheVariants.{Again, Moved, Off as OffBy, Switched as SwitchedTo};
ghost use Rattle.directory.specs.declared.answers.Why.TheVariants.{Chased, Empty as EmptyAt};
ghost use Rattle.json_form.specs.Inputs.{input_json_of};
ghost use Rattle.json_form.specs.Reports.{report_json_of};
ghost use Rattle.json_form.specs.Taking.{call_in, listing_of_values};
ghost use Rattle.json_form.specs.Values.{row, whole, wholes};
ghost use Rattle.net_graph.specs.Walks.{make_edge};
ghost use Rattle.net_reader.specs.declared.said.Call.TheVariants.{Find, Move, Off, On};
ghost use Rattle.outside.specs.Texts.{◌then◌};
ghost use Rattle.net_reader.specs.declared.fault.InputCause.TheVariants.{Apart, Form, Nowhere, Switched, TooLarge, TooMany, Unfinished, Unknown};
ghost use Rattle.plan_laws.specs.Examples.{end_of_line, line_level, line_of_four, whole_line};
ghost use Rattle.report_text.specs.PlanText.{cluster_line, homes_line, level_line, plan_line, plan_text_of};
ghost use Rattle.report_text.specs.ReportText.{cause_field};

/// The lines of a plan: its measures, a level, a cluster and homes.
pub fn worked_plan_lines()
    ensures measures { plan_line (record line_of_four { k = 9 })
        ≡ codes "plan nodes 4 k 9 levels 3 degree 2 stretch 144" ++ 10 ∷ [] }
    ensures level { level_line 7 (record (line_level 5 1) {
      phases = 3;
      clusters = whole_line ∷ end_of_line ∷ [];
    }) ≡ codes "level 7 radius 32 clusters 2 phases 3" ++ 10 ∷ [] }
    ensures cluster { cluster_line 9 (record {
      leader = 7;
      phase = 8;
      members = 5 ∷ 6 ∷ [];
      weights = 2 ∷ 3 ∷ [];
      depth = 4;
    }) ≡ codes "cluster 9 phase 8 leader 7 depth 4 members 5 6" ++ 10 ∷ [] }
    ensures homes { homes_line (record (line_level 5 1) { homes = 3 ∷ 1 ∷ 2 ∷ [] })
        ≡ codes "homes 3 1 2" ++ 10 ∷ [] }
{}

/// The text of the plan of the line of four.
pub fn worked_plan_text()
    ensures { plan_text_of line_of_four
        ≡ (codes "plan nodes 4 k 2 levels 3 degree 2 stretch 144" ++ 10 ∷ [])
        then (codes "level 0 radius 1 clusters 2 phases 2" ++ 10 ∷ [])
        then (codes "cluster 0 phase 0 leader 0 depth 3 members 0 1 2 3" ++ 10 ∷ [])
        then (codes "cluster 1 phase 1 leader 3 depth 1 members 2 3" ++ 10 ∷ [])
        then (codes "homes 0 0 0 1" ++ 10 ∷ [])
        then (codes "level 1 radius 2 clusters 1 phases 1" ++ 10 ∷ [])
        then (codes "cluster 0 phase 0 leader 0 depth 3 members 0 1 2 3" ++ 10 ∷ [])
        then (codes "homes 0 0 0 0" ++ 10 ∷ [])
        then (codes "level 2 radius 4 clusters 1 phases 1" ++ 10 ∷ [])
        then (codes "cluster 0 phase 0 leader 0 depth 3 members 0 1 2 3" ++ 10 ∷ [])
        then (codes "homes 0 0 0 0" ++ 10 ∷ [])
        then (codes "end" ++ 10 ∷ []) }
{}

/// What a refusal calls each cause.
pub fn worked_causes()
    ensures { map cause_field (Form ∷ TooLarge ∷ TooMany ∷ Unknown ∷ Switched ∷ Nowhere
        ∷ Unfinished ∷ Apart 7 ∷ [])
        ≡ codes " form" ∷ codes " too-large" ∷ codes " too-many" ∷ codes " unknown"
        ∷ codes " switched" ∷ codes " nowhere" ∷ codes " unfinished" ∷ codes " apart 7" ∷ [] }
{}

/// The JSON of an input with each kind of call, and of reports of one call.
pub fn worked_json()
    ensures input { input_json_of (record {
      format = 2;
      nodes = 9;
      k = 3;
      edges = make_edge 1 2 5 ∷ [];
      homes = 4 ∷ 6 ∷ [];
      callers = 1;
      scripts = (Move 7 ∷ []) ∷ (Off ∷ On ∷ []) ∷ (Find 8 0 ∷ []) ∷ [];
      order = 2 ∷ 0 ∷ [];
    })
        ≡ codes "{\"callers\":1,\"calls\":[[\"move\",0,7],[\"off\",1],[\"on\",1]," then
        codes "[\"find\",2,8,0]],\"edges\":[[1,2,5]],\"k\":3,\"nodes\":9," then
        codes "\"order\":[2,0],\"subs\":[4,6],\"track\":2}" then 10 ∷ [] }
    ensures moved { report_json_of (record { calls = Moved 9 8 7 6 5 4 3 2 ∷ []; order = [] })
        ≡ codes "{\"calls\":[{\"actor\":9,\"commit\":3,\"first\":4,\"from\":7," then
        codes "\"kind\":\"move\",\"last\":2,\"number\":8,\"to\":6,\"weight\":5}]," then
        codes "\"order\":[],\"visits\":0}" then 10 ∷ [] }
    ensures switched { report_json_of
        (record { calls = SwitchedTo 9 true 8 7 6 ∷ []; order = [] })
        ≡ codes "{\"calls\":[{\"actor\":9,\"kind\":\"switch\",\"node\":8," then
        codes "\"number\":7,\"off\":true,\"ticket\":6}],\"order\":[],\"visits\":0}" then
        10 ∷ [] }
    ensures off { report_json_of
        (record { calls = OffBy 9 8 7 6 5 (Some 4) 3 2 1 ∷ []; order = [] })
        ≡ codes "{\"calls\":[{\"actor\":9,\"first\":2,\"from\":8,\"kind\":\"off\"," then
        codes "\"last\":1,\"level\":4,\"node\":6,\"number\":5,\"sub\":7," then
        codes "\"weight\":3}],\"order\":[],\"visits\":0}" then 10 ∷ [] }
    ensures again { report_json_of
        (record { calls = Again 9 8 7 (EmptyAt 6) 5 4 3 ∷ []; order = [] })
        ≡ codes "{\"calls\":[{\"actor\":9,\"first\":4,\"from\":8,\"kind\":\"again\"," then
        codes "\"last\":3,\"node\":6,\"sub\":7,\"weight\":5,\"why\":\"empty\"}]," then
        codes "\"order\":[],\"visits\":0}" then 10 ∷ [] }
    ensures chased { report_json_of
        (record { calls = Again 9 8 7 Chased 5 4 3 ∷ []; order = [] })
        ≡ codes "{\"calls\":[{\"actor\":9,\"first\":4,\"from\":8,\"kind\":\"again\"," then
        codes "\"last\":3,\"node\":null,\"sub\":7,\"weight\":5,\"why\":\"chased\"}]," then
        codes "\"order\":[],\"visits\":0}" then 10 ∷ [] }
{}

/// A row of a move has its actor first, and in the values of keys k isn't the number of nodes.
pub fn worked_shapes()
    ensures row { call_in (row (codes "move") (0 ∷ 5 ∷ []))
        ≡ Some (record { actor = 0; call = Move 5 }) }
    ensures values { listing_of_values (record {
      callers = whole 0;
      calls = wholes [];
      edges = wholes [];
      k = whole 2;
      nodes = whole 3;
      order = wholes [];
      subs = wholes [];
      track = whole 1;
    }) ≡ Some (record {
      format = 1;
      nodes = 3;
      k = 2;
      edges = [];
      homes = [];
      callers = 0;
      calls = [];
      order = [];
    }) }
{}
