//! Worked examples, computed: the first words of a start, the texts of small loads, and the format
//! of loads at its limits.
ghost use Rattle.std.specs.Prelude.{◌≡◌, ◌++◌, [], ◌∷◌, codes};
ghost use Rattle.outside.specs.Texts.{◌then◌};
ghost use Rattle.make_load.specs.Draws.{draws_below, generator_of};
ghost use Rattle.make_load.specs.Load.{format_of, load_text_of};

/// The first six words of the generator of start 42: a word is a draw below 2^32.
pub fn example_draws()
    ensures { (draws_below 0x1_0000_0000 6 (generator_of 42)).value
        ≡ 0xa15c02b7 ∷ 0x7b47f409 ∷ 0xba1d3330 ∷ 0x83d2f293 ∷ 0xbfa4784b ∷ 0xcbed606e ∷ [] }
{}

/// Two nodes, one subscriber and one move; and four nodes, two subscribers and two callers: a move
/// and a find, with turns of all four actors.
pub fn example_loads()
    ensures one { load_text_of
        (record { start = 42; nodes = 2; k = 2; subs = 1; callers = 0; calls = 1 })
        ≡ (codes "track 1" ++ 10 ∷ []) then (codes "nodes 2" ++ 10 ∷ [])
        then (codes "k 2" ++ 10 ∷ []) then (codes "edge 0 1 8" ++ 10 ∷ [])
        then (codes "edge 1 0 4" ++ 10 ∷ []) then (codes "sub 1" ++ 10 ∷ [])
        then (codes "callers 0" ++ 10 ∷ []) then (codes "move 0 0" ++ 10 ∷ [])
        then (codes "order 0 0 0 0 0 0 0 0" ++ 10 ∷ []) }
    ensures two { load_text_of
        (record { start = 24; nodes = 4; k = 3; subs = 2; callers = 2; calls = 2 })
        ≡ (codes "track 1" ++ 10 ∷ []) then (codes "nodes 4" ++ 10 ∷ [])
        then (codes "k 3" ++ 10 ∷ []) then (codes "edge 0 1 6" ++ 10 ∷ [])
        then (codes "edge 0 2 5" ++ 10 ∷ []) then (codes "edge 1 3 13" ++ 10 ∷ [])
        then (codes "edge 0 1 5" ++ 10 ∷ []) then (codes "edge 1 0 9" ++ 10 ∷ [])
        then (codes "sub 2" ++ 10 ∷ []) then (codes "sub 1" ++ 10 ∷ [])
        then (codes "callers 2" ++ 10 ∷ []) then (codes "move 0 1" ++ 10 ∷ [])
        then (codes "find 3 2 1" ++ 10 ∷ [])
        then (codes "order 2 0 2 2 2 2 0 0 0 1 1 0 3 1 0 1" ++ 10 ∷ []) }
{}

/// The first format has as many nodes and calls as it may, and one more of either is the second's.
pub fn example_formats()
    ensures most { format_of
        (record { start = 0; nodes = 256; k = 1; subs = 1; callers = 0; calls = 8192 }) ≡ 1 }
    ensures nodes { format_of
        (record { start = 0; nodes = 257; k = 1; subs = 1; callers = 0; calls = 8192 }) ≡ 2 }
    ensures calls { format_of
        (record { start = 0; nodes = 256; k = 1; subs = 1; callers = 0; calls = 8193 }) ≡ 2 }
{}
