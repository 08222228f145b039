//! The grammar of inputs, computed: how many fields a line has, what a field is, the limits, and
//! nodes apart.
ghost use Rattle.std.specs.List.{filter};
ghost use Rattle.std.specs.Prelude.{◌≡◌, ◌⊎◌, [], ◌∷◌, ◌++◌, codes, length, map, replicate, Ok, Err, true, is_some, Contains, ℕ, List};
ghost use Rattle.directory.specs.Writes.{numbers_from};
ghost use Rattle.net_graph.specs.declared.edge.Edge.{Edge};
ghost use Rattle.net_graph.specs.Network.{IsFirstApart};
ghost use Rattle.net_graph.specs.Walks.{make_edge};
ghost use Rattle.net_reader.specs.declared.fault.InputCause.TheVariants.{Form, Nowhere, Switched, TooMany, Unknown, Unfinished, TooLarge};
ghost use Rattle.net_reader.specs.declared.said.Call.TheVariants.{Find, Move, Off, On};
ghost use Rattle.net_reader.specs.declared.said.Spoken.{Spoken};
ghost use Rattle.net_reader.specs.Input.{IsInput, read};
ghost use Rattle.net_reader.specs.TextLines.{begins_comment, is_blank, word_of};
ghost use Rattle.net_reader.specs.Reading.{most_bytes};
ghost use Rattle.net_reader.specs.Said.{place_after};
ghost use Rattle.net_reader.specs.Shown.{◌then◌, refusal_at, two_nodes};
ghost use Rattle.net_reader.specs.Table.{judge, may_stand, most_calls, most_nodes};
ghost use Rattle.worked_examples.specs.Grammar.{apart_at, apart_text, by_sub, first_edge, line_words, moved_once, said_up_to, switched_off, switched_on};

/// Each line with its fields, with one field more, and with one less; a weight, nodes and k of 0;
/// and calls by an actor that isn't of their kind.
pub fn worked_lines()
    ensures edge { judge (said_up_to 3 1)
        (codes "edge" ∷ codes "0" ∷ codes "1" ∷ codes "5" ∷ [])
        ≡ Ok (record (said_up_to 4 1) { edges = make_edge 0 1 5 ∷ [] }) }
    ensures find { judge (said_up_to 6 1)
        (codes "find" ∷ codes "1" ∷ codes "2" ∷ codes "0" ∷ [])
        ≡ Ok (record (said_up_to 7 1) { calls = record { actor = 1; call = Find 2 0 } ∷ [] }) }
    ensures off { judge (said_up_to 6 2) (codes "off" ∷ codes "0" ∷ [])
        ≡ Ok (record (said_up_to 7 2) { calls = record { actor = 0; call = Off } ∷ [] }) }
    ensures no_off { judge (said_up_to 6 1) (codes "off" ∷ codes "0" ∷ []) ≡ Err Form }
    ensures no_on { judge (said_up_to 6 1) (codes "on" ∷ codes "0" ∷ []) ≡ Err Form }
    ensures track_more { judge (said_up_to 0 0) (codes "track" ∷ codes "1" ∷ codes "1" ∷ [])
        ≡ Err Form }
    ensures nodes_more { judge (said_up_to 1 1) (codes "nodes" ∷ codes "4" ∷ codes "4" ∷ [])
        ≡ Err Form }
    ensures k_more { judge (said_up_to 2 1) (codes "k" ∷ codes "2" ∷ codes "2" ∷ []) ≡ Err Form }
    ensures edge_more { judge (said_up_to 3 1)
        (codes "edge" ∷ codes "0" ∷ codes "1" ∷ codes "5" ∷ codes "5" ∷ []) ≡ Err Form }
    ensures edge_less { judge (said_up_to 3 1) (codes "edge" ∷ codes "0" ∷ codes "1" ∷ [])
        ≡ Err Form }
    ensures sub_more { judge (said_up_to 3 1) (codes "sub" ∷ codes "3" ∷ codes "3" ∷ [])
        ≡ Err Form }
    ensures sub_less { judge (said_up_to 3 1) (codes "sub" ∷ []) ≡ Err Form }
    ensures callers_more { judge (said_up_to 5 1)
        (codes "callers" ∷ codes "1" ∷ codes "1" ∷ []) ≡ Err Form }
    ensures move_less { judge (said_up_to 6 1) (codes "move" ∷ codes "0" ∷ []) ≡ Err Form }
    ensures find_more { judge (said_up_to 6 1)
        (codes "find" ∷ codes "1" ∷ codes "2" ∷ codes "0" ∷ codes "0" ∷ []) ≡ Err Form }
    ensures find_less { judge (said_up_to 6 1) (codes "find" ∷ codes "1" ∷ codes "2" ∷ [])
        ≡ Err Form }
    ensures off_more { judge (said_up_to 6 2) (codes "off" ∷ codes "0" ∷ codes "0" ∷ [])
        ≡ Err Form }
    ensures on_more { judge (said_up_to 6 2) (codes "on" ∷ codes "0" ∷ codes "0" ∷ [])
        ≡ Err Form }
    ensures on_past_subs { judge (said_up_to 6 2) (codes "on" ∷ codes "1" ∷ []) ≡ Err Unknown }
    ensures no_weight { judge (said_up_to 3 1)
        (codes "edge" ∷ codes "0" ∷ codes "1" ∷ codes "0" ∷ []) ≡ Err Form }
    ensures nodes_0 { judge (said_up_to 1 1) (codes "nodes" ∷ codes "0" ∷ []) ≡ Err Form }
    ensures k_0 { judge (said_up_to 2 1) (codes "k" ∷ codes "0" ∷ []) ≡ Err Form }
    ensures find_by_sub { judge (said_up_to 6 1)
        (codes "find" ∷ codes "0" ∷ codes "2" ∷ codes "0" ∷ []) ≡ Err Unknown }
{}

/// Lines without a number, and lines that name a node or a subscriber that there isn't. A text
/// doesn't end before its callers, nor do they stand before a subscriber; the second subscriber is
/// counted behind the first. No edge stands behind a subscriber, and no call behind an order. And
/// for the last line so far, of each kind, which may stand behind it.
pub fn worked_places()
    ensures no_format { judge (said_up_to 0 0) (codes "track" ∷ []) ≡ Err Form }
    ensures no_nodes { judge (said_up_to 1 1) (codes "nodes" ∷ []) ≡ Err Form }
    ensures no_k { judge (said_up_to 2 1) (codes "k" ∷ []) ≡ Err Form }
    ensures no_callers { judge (said_up_to 5 1) (codes "callers" ∷ []) ≡ Err Form }
    ensures no_sub_off { judge (said_up_to 6 2) (codes "off" ∷ []) ≡ Err Form }
    ensures no_sub_on { judge (said_up_to 6 2) (codes "on" ∷ []) ≡ Err Form }
    ensures edge_past_nodes { judge (said_up_to 3 1)
        (codes "edge" ∷ codes "4" ∷ codes "1" ∷ codes "5" ∷ []) ≡ Err Unknown }
    ensures edge_to_past_nodes { judge (said_up_to 3 1)
        (codes "edge" ∷ codes "0" ∷ codes "4" ∷ codes "5" ∷ []) ≡ Err Unknown }
    ensures sub_past_nodes { judge (said_up_to 5 1) (codes "sub" ∷ codes "4" ∷ [])
        ≡ Err Unknown }
    ensures move_past_nodes { judge (said_up_to 6 1) (codes "move" ∷ codes "0" ∷ codes "4" ∷ [])
        ≡ Err Unknown }
    ensures find_past_nodes { judge (said_up_to 6 1)
        (codes "find" ∷ codes "1" ∷ codes "4" ∷ codes "0" ∷ []) ≡ Err Unknown }
    ensures find_past_subs { judge (said_up_to 6 1)
        (codes "find" ∷ codes "1" ∷ codes "2" ∷ codes "1" ∷ []) ≡ Err Unknown }
    ensures second_sub { judge (said_up_to 5 1) (codes "sub" ∷ codes "2" ∷ [])
        ≡ Ok (record (said_up_to 5 1) { homes = 3 ∷ 2 ∷ [] }) }
    ensures callers_first { judge (record (said_up_to 4 1) { homes = [] })
        (codes "callers" ∷ codes "1" ∷ []) ≡ Err Form }
    ensures ends_early { read (two_nodes (codes "sub 0" then [])) ≡ refusal_at 4 Unfinished }
    ensures ends_late { read (two_nodes (codes "sub 0" then codes "callers 0" then []))
        ≡ Ok (
          record {
            place = 6;
            format = 1;
            nodes = 2;
            k = 2;
            edges = [];
            homes = 0 ∷ [];
            callers = 0;
            calls = [];
            order = [];
          },
          5,
        ) }
    ensures edge_behind { judge (said_up_to 5 1)
        (codes "edge" ∷ codes "0" ∷ codes "1" ∷ codes "5" ∷ []) ≡ Err Form }
    ensures move_behind { judge (said_up_to 8 1) (codes "move" ∷ codes "0" ∷ codes "2" ∷ [])
        ≡ Err Form }
    ensures off_behind { judge (said_up_to 8 2) (codes "off" ∷ codes "0" ∷ []) ≡ Err Form }
    ensures on_behind { judge (said_up_to 8 2) (codes "on" ∷ codes "0" ∷ []) ≡ Err Form }
    ensures stand { map (λ last. filter (may_stand last) (numbers_from 1 8)) (numbers_from 0 9)
        ≡ (1 ∷ []) ∷ (2 ∷ []) ∷ (3 ∷ []) ∷ (4 ∷ 5 ∷ []) ∷ (4 ∷ 5 ∷ []) ∷ (5 ∷ 6 ∷ [])
        ∷ (7 ∷ 8 ∷ []) ∷ (7 ∷ 8 ∷ []) ∷ (8 ∷ []) ∷ [] }
{}

/// Calls of a subscriber that has moved, or has switched off, or on again.
pub fn worked_calls()
    ensures back { judge moved_once (codes "move" ∷ codes "0" ∷ codes "3" ∷ [])
        ≡ Ok (by_sub (Move 2 ∷ Move 3 ∷ [])) }
    ensures stays { judge moved_once (codes "move" ∷ codes "0" ∷ codes "2" ∷ []) ≡ Err Nowhere }
    ensures on { judge switched_off (codes "on" ∷ codes "0" ∷ []) ≡ Ok switched_on }
    ensures move_off { judge switched_off (codes "move" ∷ codes "0" ∷ codes "2" ∷ [])
        ≡ Err Switched }
    ensures off_twice { judge switched_off (codes "off" ∷ codes "0" ∷ []) ≡ Err Switched }
    ensures on_first { judge moved_once (codes "on" ∷ codes "0" ∷ []) ≡ Err Switched }
    ensures on_twice { judge switched_on (codes "on" ∷ codes "0" ∷ []) ≡ Err Switched }
    ensures move_on { judge switched_on (codes "move" ∷ codes "0" ∷ codes "2" ∷ [])
        ≡ Ok (by_sub (Off ∷ On ∷ Move 2 ∷ [])) }
    ensures place { map (place_after 3) ((Off ∷ []) ∷ (Off ∷ On ∷ Move 2 ∷ []) ∷ []) ≡ 3 ∷ 2 ∷ [] }
{}

/// Fields are parted by spaces and tabs alone, and a comment begins with one sign alone, which is
/// its line's first field: further on it is a field like others. No line has another word than
/// these.
pub fn worked_bytes()
    ensures blanks { (b : ℕ) → is_blank b ≡ true → (b ≡ 32) ⊎ (b ≡ 9) }
    ensures comments { (b : ℕ) (rest : List ℕ) → begins_comment (b ∷ rest) ≡ true → b ≡ 35 }
    ensures words { (field : List ℕ) → is_some (word_of field) ≡ true
        → Contains line_words field }
    ensures comment { judge (said_up_to 6 1) (codes "#move" ∷ codes "x" ∷ [])
        ≡ Ok (said_up_to 6 1) }
    ensures behind { judge (said_up_to 5 1) (codes "callers" ∷ codes "1" ∷ codes "#" ∷ [])
        ≡ Err Form }
{}

/// The limits of both formats, on both sides; a line that is too large and too many in one is
/// refused as too large.
pub fn worked_limits()
    ensures nodes { map most_nodes (1 ∷ 2 ∷ []) ≡ 256 ∷ 1024 ∷ [] }
    ensures calls { map most_calls (1 ∷ 2 ∷ []) ≡ 8192 ∷ 16384 ∷ [] }
    ensures bytes { most_bytes ≡ 4194304 }
    ensures last_call { (calls : List Spoken) → length calls ≡ 8191
        → judge (record (said_up_to 7 1) { calls = calls })
        (codes "find" ∷ codes "1" ∷ codes "2" ∷ codes "0" ∷ [])
        ≡ Ok (record (said_up_to 7 1) {
          calls = calls ++ record { actor = 1; call = Find 2 0 } ∷ [];
        }) }
    ensures call_past { (calls : List Spoken) → length calls ≡ 8192
        → judge (record (said_up_to 7 1) { calls = calls })
        (codes "find" ∷ codes "1" ∷ codes "2" ∷ codes "0" ∷ []) ≡ Err TooMany }
    ensures last_call_of_2 { (calls : List Spoken) → length calls ≡ 16383
        → judge (record (said_up_to 7 2) { calls = calls })
        (codes "find" ∷ codes "1" ∷ codes "2" ∷ codes "0" ∷ [])
        ≡ Ok (record (said_up_to 7 2) {
          calls = calls ++ record { actor = 1; call = Find 2 0 } ∷ [];
        }) }
    ensures call_past_2 { (calls : List Spoken) → length calls ≡ 16384
        → judge (record (said_up_to 7 2) { calls = calls })
        (codes "find" ∷ codes "1" ∷ codes "2" ∷ codes "0" ∷ []) ≡ Err TooMany }
    ensures last_edge { (edges : List Edge) → length edges ≡ 32767
        → judge (record (said_up_to 4 1) { edges = edges })
        (codes "edge" ∷ codes "0" ∷ codes "1" ∷ codes "5" ∷ [])
        ≡ Ok (record (said_up_to 4 1) {
          edges = edges ++ record { a = 0; b = 1; weight = 5 } ∷ [];
        }) }
    ensures edge_past { (edges : List Edge) → length edges ≡ 32768
        → judge (record (said_up_to 4 1) { edges = edges })
        (codes "edge" ∷ codes "0" ∷ codes "1" ∷ codes "5" ∷ []) ≡ Err TooMany }
    ensures edge_both { (edges : List Edge) → length edges ≡ 32768
        → judge (record (said_up_to 4 1) { edges = edges })
        (codes "edge" ∷ codes "9" ∷ codes "9" ∷ codes "1048577" ∷ []) ≡ Err TooLarge }
    ensures order_64 { judge (said_up_to 7 1) (codes "order" ∷ replicate 64 (codes "1"))
        ≡ Ok (record (said_up_to 8 1) { order = replicate 64 1 }) }
    ensures order_65 { judge (said_up_to 7 1) (codes "order" ∷ replicate 65 (codes "1"))
        ≡ Err TooMany }
{}

/// Of two nodes apart the lesser is told, at the last line of the text, which may be a comment or
/// have no line feed.
pub fn worked_apart()
    ensures least { IsFirstApart 4 first_edge 2 }
    ensures other { IsFirstApart 4 first_edge 3 → ⊥ }
    ensures joined { IsFirstApart 4 first_edge 1 → ⊥ }
    ensures input { IsInput apart_text (apart_at 8 2) }
    ensures other_line { IsInput apart_text (apart_at 6 2) → ⊥ }
{}
