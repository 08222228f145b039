//! Worked examples, computed: the JSON of an input and of calls, and values with the shape and
//! without.
ghost use Rattle.std.specs.Prelude.{◌≡◌, ◌++◌, [], ◌∷◌, codes, false, is_some, map, true, Some, None};
ghost use Rattle.net_graph.specs.Walks.{make_edge};
ghost use Rattle.net_reader.specs.declared.said.Call.TheVariants.{Find};
ghost use Rattle.outside.specs.Texts.{◌then◌};
ghost use Rattle.directory.specs.declared.answers.Done.TheVariants.{Again, Found, Switched};
ghost use Rattle.directory.specs.declared.answers.Why.TheVariants.{NoEntry};
ghost use Rattle.serde_json.specs.Data.{member, no_members, null, object};
ghost use Rattle.json_form.specs.Inputs.{input_json_of, listing_value};
ghost use Rattle.json_form.specs.Keyed.{keyed_but, lone_listing, lone_value};
ghost use Rattle.json_form.specs.Reports.{report_json_of};
ghost use Rattle.json_form.specs.Shapes.{TellsListing};
ghost use Rattle.json_form.specs.Taking.{call_in, edge_in, listing_in, values_of};
ghost use Rattle.json_form.specs.Values.{row, whole, wholes};

/// The JSON of an input.
pub fn example_input()
    ensures { input_json_of (record {
      format = 1;
      nodes = 2;
      k = 2;
      edges = make_edge 0 1 1 ∷ make_edge 1 1 3 ∷ [];
      homes = 1 ∷ [];
      callers = 1;
      scripts = [] ∷ (Find 0 0 ∷ []) ∷ [];
      order = [];
    })
        ≡ codes "{\"callers\":1,\"calls\":[[\"find\",1,0,0]],\"edges\":[[0,1,1],[1,1,3]]," then
        codes "\"k\":2,\"nodes\":2,\"order\":[],\"subs\":[1],\"track\":1}" then 10 ∷ [] }
{}

/// The JSON of reports: of a find that climbed and one that has to be made again; and of a find
/// that didn't climb and a switch on.
pub fn example_report()
    ensures climbed { report_json_of (record {
      calls = Found 9 8 7 6 5 (Some 4) 3 2 1 ∷ Again 1 0 0 NoEntry 0 3 3 ∷ [];
      order = 1 ∷ 0 ∷ 0 ∷ [];
    })
        ≡ codes "{\"calls\":[{\"actor\":9,\"first\":2,\"from\":8,\"kind\":\"find\"," then
        codes "\"last\":1,\"level\":4,\"node\":6,\"number\":5,\"sub\":7,\"weight\":3}," then
        codes "{\"actor\":1,\"first\":3,\"from\":0,\"kind\":\"again\",\"last\":3," then
        codes "\"node\":null,\"sub\":0,\"weight\":0,\"why\":\"none\"}]," then
        codes "\"order\":[1,0,0],\"visits\":3}" then 10 ∷ [] }
    ensures without { report_json_of (record {
      calls = Found 9 8 7 6 5 None 3 2 1 ∷ Switched 9 false 8 7 6 ∷ [];
      order = [];
    })
        ≡ codes "{\"calls\":[{\"actor\":9,\"first\":2,\"from\":8,\"kind\":\"find\"," then
        codes "\"last\":1,\"level\":null,\"node\":6,\"number\":5,\"sub\":7," then
        codes "\"weight\":3},{\"actor\":9,\"kind\":\"switch\",\"node\":8,\"number\":7," then
        codes "\"off\":false,\"ticket\":6}],\"order\":[],\"visits\":0}" then 10 ∷ [] }
{}

/// Values with the shape of an input, the greatest number too, and without: an object without keys,
/// one with a key too many, and a number with a digit too many.
pub fn example_shapes()
    ensures lone { listing_in (lone_value (whole 1) no_members) ≡ Some (lone_listing 1) }
    ensures most { is_some (listing_in (lone_value (whole 999999999999999999) no_members)) ≡ true }
    ensures none { listing_in (object no_members) ≡ None }
    ensures more { listing_in
        (lone_value (whole 1) (member (codes "zone") null no_members)) ≡ None }
    ensures long { listing_in (lone_value (whole 1000000000000000000) no_members) ≡ None }
{}

/// Which listing a value tells: with its order or, where that is empty, without; and no other
/// order, and no number of nineteen digits.
pub fn worked_shapes()
    ensures full { TellsListing (listing_value (lone_listing 1)) (lone_listing 1) }
    ensures brief { TellsListing (lone_value (whole 1) no_members) (lone_listing 1) }
    ensures order { TellsListing (lone_value (whole 1) no_members)
        (record (lone_listing 1) { order = 0 ∷ [] }) → ⊥ }
    ensures long { TellsListing (lone_value (whole 1000000000000000000) no_members)
        (lone_listing 1000000000000000000) → ⊥ }
{}

/// Rows that are no edges and no calls: a number is left out or one too many, or there is no word,
/// or an unknown one. And of the keys but the order none may be absent.
pub fn example_rows()
    ensures edges { map edge_in (wholes (0 ∷ 1 ∷ []) ∷ wholes (0 ∷ 1 ∷ 2 ∷ 3 ∷ []) ∷ [])
        ≡ None ∷ None ∷ [] }
    ensures shorter { map call_in (row (codes "move") (0 ∷ []) ∷ row (codes "find") (0 ∷ 1 ∷ [])
        ∷ row (codes "off") [] ∷ row (codes "on") [] ∷ []) ≡ None ∷ None ∷ None ∷ None ∷ [] }
    ensures longer { map call_in (row (codes "move") (0 ∷ 1 ∷ 2 ∷ [])
        ∷ row (codes "find") (0 ∷ 1 ∷ 2 ∷ 3 ∷ []) ∷ row (codes "off") (0 ∷ 1 ∷ [])
        ∷ row (codes "on") (0 ∷ 1 ∷ []) ∷ []) ≡ None ∷ None ∷ None ∷ None ∷ [] }
    ensures words { map call_in (row (codes "of") (0 ∷ []) ∷ row (codes "offer") (0 ∷ [])
        ∷ wholes (0 ∷ 1 ∷ []) ∷ wholes [] ∷ []) ≡ None ∷ None ∷ None ∷ None ∷ [] }
    ensures keys { map (λ place. is_some (values_of (keyed_but place)))
        (0 ∷ 1 ∷ 2 ∷ 3 ∷ 4 ∷ 5 ∷ 6 ∷ 7 ∷ [])
        ≡ false ∷ false ∷ false ∷ false ∷ false ∷ false ∷ false ∷ true ∷ [] }
{}
