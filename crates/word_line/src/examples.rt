//! Worked examples, computed.
ghost use Rattle.std.specs.Prelude.{◌≡◌, [], ◌∷◌, codes, Some, None};
ghost use Rattle.word_line.specs.declared.command.Command.TheVariants.{Census, Check, Costs, Cover, FromJson, Make, MeanCover, MeanReplay, MeanStretch, Replay, ReplayJson, Run, Stretch, ToJson, Trial};
ghost use Rattle.word_line.specs.Forms.{command_of};

/// Words that are a command, and words that are none.
pub fn example_words()
    ensures cover { command_of (codes "cover" ∷ []) ≡ Some Cover }
    ensures replay { command_of (codes "replay" ∷ []) ≡ Some Replay }
    ensures census { command_of (codes "census" ∷ []) ≡ Some Census }
    ensures costs { command_of (codes "costs" ∷ []) ≡ Some Costs }
    ensures stretch { command_of (codes "stretch" ∷ []) ≡ Some Stretch }
    ensures check { command_of (codes "check" ∷ []) ≡ Some Check }
    ensures run { command_of (codes "run" ∷ []) ≡ Some Run }
    ensures to_json { command_of (codes "tojson" ∷ []) ≡ Some ToJson }
    ensures from_json { command_of (codes "fromjson" ∷ []) ≡ Some FromJson }
    ensures replay_json { command_of (codes "replayjson" ∷ []) ≡ Some ReplayJson }
    ensures mean_cover { command_of (codes "meancover" ∷ []) ≡ Some MeanCover }
    ensures mean_replay { command_of (codes "meanreplay" ∷ []) ≡ Some MeanReplay }
    ensures mean_stretch { command_of (codes "meanstretch" ∷ []) ≡ Some MeanStretch }
    ensures make { command_of (codes "make" ∷ codes "042" ∷ codes "2" ∷ codes "2" ∷ codes "1"
        ∷ codes "0" ∷ codes "1" ∷ [])
        ≡ Some (Make (record { start = 42; nodes = 2; k = 2; subs = 1; callers = 0; calls = 1 })) }
    ensures largest { command_of (codes "trial" ∷ codes "7" ∷ codes "1024" ∷ codes "2"
        ∷ codes "64" ∷ codes "64" ∷ codes "16384" ∷ [])
        ≡ Some (Trial (record {
          start = 7;
          nodes = 1024;
          k = 2;
          subs = 64;
          callers = 64;
          calls =
              16384;
        })) }
    ensures nothing { command_of [] ≡ None }
    ensures more { command_of (codes "replay" ∷ codes "x" ∷ []) ≡ None }
    ensures option { command_of (codes "--help" ∷ []) ≡ None }
    ensures few { command_of (codes "make" ∷ codes "1" ∷ codes "2" ∷ []) ≡ None }
    ensures no_call { command_of (codes "make" ∷ codes "1" ∷ codes "1" ∷ codes "1" ∷ codes "1"
        ∷ codes "0" ∷ codes "1" ∷ []) ≡ None }
    ensures minus { command_of (codes "make" ∷ codes "-1" ∷ codes "2" ∷ codes "2" ∷ codes "1"
        ∷ codes "1" ∷ codes "1" ∷ []) ≡ None }
    ensures wide { command_of (codes "make" ∷ codes "1" ∷ codes "257" ∷ codes "1" ∷ codes "1"
        ∷ codes "1" ∷ codes "1" ∷ []) ≡ None }
    ensures widest { command_of (codes "make" ∷ codes "1" ∷ codes "1025" ∷ codes "2" ∷ codes "1"
        ∷ codes "1" ∷ codes "1" ∷ []) ≡ None }
    ensures subs { command_of (codes "make" ∷ codes "1" ∷ codes "2" ∷ codes "2" ∷ codes "65"
        ∷ codes "1" ∷ codes "1" ∷ []) ≡ None }
    ensures calls { command_of (codes "make" ∷ codes "1" ∷ codes "2" ∷ codes "2" ∷ codes "1"
        ∷ codes "1" ∷ codes "16385" ∷ []) ≡ None }
    ensures digits { command_of (codes "make" ∷ codes "1000000000000000000" ∷ codes "2"
        ∷ codes "2" ∷ codes "1" ∷ codes "1" ∷ codes "1" ∷ []) ≡ None }
{}
