//! Worked examples, computed: the text of an input, and of a listing.
ghost use Rattle.std.specs.Prelude.{◌≡◌, ◌++◌, [], ◌∷◌, codes};
ghost use Rattle.net_graph.specs.Walks.{make_edge};
ghost use Rattle.net_reader.specs.declared.said.Call.TheVariants.{Move, Find, Off, On};
ghost use Rattle.outside.specs.Texts.{◌then◌};
ghost use Rattle.input_text.specs.Listing.{input_text_of};

/// An input with a line of each kind: its calls stand by actor.
pub fn example_texts()
    ensures { input_text_of (record {
      format = 2;
      nodes = 2;
      k = 3;
      edges = make_edge 0 1 1048576 ∷ [];
      homes = 1 ∷ 0 ∷ [];
      callers = 1;
      scripts = (Off ∷ On ∷ []) ∷ (Move 1 ∷ []) ∷ (Find 0 1 ∷ []) ∷ [];
      order = 2 ∷ 0 ∷ [];
    })
        ≡ (codes "track 2" ++ 10 ∷ []) then (codes "nodes 2" ++ 10 ∷ [])
        then (codes "k 3" ++ 10 ∷ []) then (codes "edge 0 1 1048576" ++ 10 ∷ [])
        then (codes "sub 1" ++ 10 ∷ []) then (codes "sub 0" ++ 10 ∷ [])
        then (codes "callers 1" ++ 10 ∷ []) then (codes "off 0" ++ 10 ∷ [])
        then (codes "on 0" ++ 10 ∷ []) then (codes "move 1 1" ++ 10 ∷ [])
        then (codes "find 2 0 1" ++ 10 ∷ []) then (codes "order 2 0" ++ 10 ∷ []) }
{}
