//! Words at the ends of their ranges, computed: the last number that is taken, and the first that
//! isn't.
ghost use Rattle.std.specs.Prelude.{◌≡◌, [], ◌∷◌, codes, Some, None, is_some, true, Contains, ℕ, List};
ghost use Rattle.word_line.specs.declared.command.Command.TheVariants.{Census, Make, Replay};
ghost use Rattle.word_line.specs.Forms.{command_of, number_in, number_of, plain_command};
ghost use Rattle.worked_examples.specs.Words.{load_words, names_alone, usual_load, usual_numbers};

/// A number has from one digit to 18, and nothing but digits.
pub fn worked_numbers()
    ensures none { number_of [] ≡ None }
    ensures one { number_of (codes "7") ≡ Some 7 }
    ensures digits_17 { number_of (codes "12345678901234567") ≡ Some 12345678901234567 }
    ensures digits_18 { number_of (codes "123456789012345678") ≡ Some 123456789012345678 }
    ensures digits_19 { number_of (codes "1234567890123456789") ≡ None }
    ensures zeros_18 { number_of (codes "000000000000000042") ≡ Some 42 }
    ensures zeros_19 { number_of (codes "0000000000000000042") ≡ None }
    ensures letter { number_of (codes "1a") ≡ None }
    ensures colon { number_of (codes "1:") ≡ None }
    ensures slash { number_of (codes "/1") ≡ None }
    ensures blank { number_of (codes " 1") ≡ None }
    ensures plus { number_of (codes "+1") ≡ None }
    ensures least { number_in 2 4 (codes "2") ≡ Some 2 }
    ensures below { number_in 2 4 (codes "1") ≡ None }
    ensures most { number_in 2 4 (codes "4") ≡ Some 4 }
    ensures above { number_in 2 4 (codes "5") ≡ None }
{}

/// Each measure of a load at both its ends: the last number that is taken, and the first that
/// isn't, the other measures being within theirs.
pub fn worked_loads()
    ensures start { command_of (load_words 0 (codes "999999999999999999"))
        ≡ Some (Make (record usual_load { start = 999999999999999999 })) }
    ensures start_19 { command_of (load_words 0 (codes "1000000000000000000")) ≡ None }
    ensures nodes_0 { command_of (load_words 1 (codes "0")) ≡ None }
    ensures nodes_1 { command_of (load_words 1 (codes "1"))
        ≡ Some (Make (record usual_load { nodes = 1 })) }
    ensures nodes_1024 { command_of (load_words 1 (codes "1024"))
        ≡ Some (Make (record usual_load { nodes = 1024 })) }
    ensures nodes_1025 { command_of (load_words 1 (codes "1025")) ≡ None }
    ensures k_0 { command_of (load_words 2 (codes "0")) ≡ None }
    ensures k_1 { command_of (load_words 2 (codes "1"))
        ≡ Some (Make (record usual_load { k = 1 })) }
    ensures k_7 { command_of (load_words 2 (codes "7"))
        ≡ Some (Make (record usual_load { k = 7 })) }
    ensures k_8 { command_of (load_words 2 (codes "8"))
        ≡ Some (Make (record usual_load { k = 8 })) }
    ensures k_9 { command_of (load_words 2 (codes "9")) ≡ None }
    ensures subs_0 { command_of (load_words 3 (codes "0")) ≡ None }
    ensures subs_64 { command_of (load_words 3 (codes "64"))
        ≡ Some (Make (record usual_load { subs = 64 })) }
    ensures subs_65 { command_of (load_words 3 (codes "65")) ≡ None }
    ensures callers_0 { command_of (load_words 4 (codes "0"))
        ≡ Some (Make (record usual_load { callers = 0 })) }
    ensures callers_64 { command_of (load_words 4 (codes "64"))
        ≡ Some (Make (record usual_load { callers = 64 })) }
    ensures callers_65 { command_of (load_words 4 (codes "65")) ≡ None }
    ensures calls_0 { command_of (load_words 5 (codes "0"))
        ≡ Some (Make (record usual_load { calls = 0 })) }
    ensures calls_most { command_of (load_words 5 (codes "16384"))
        ≡ Some (Make (record usual_load { calls = 16384 })) }
    ensures calls_past { command_of (load_words 5 (codes "16385")) ≡ None }
    ensures widest_of_1 { command_of (codes "make" ∷ codes "1" ∷ codes "256" ∷ codes "1" ∷ codes "1"
        ∷ codes "1" ∷ codes "1" ∷ [])
        ≡ Some (Make (record usual_load { nodes = 256; k = 1 })) }
    ensures idle { command_of (codes "make" ∷ codes "1" ∷ codes "1" ∷ codes "1" ∷ codes "1"
        ∷ codes "0" ∷ codes "0" ∷ [])
        ≡ Some (Make (record usual_load { nodes = 1; k = 1; callers = 0; calls = 0 })) }
    ensures usual { command_of (codes "make" ∷ usual_numbers) ≡ Some (Make usual_load) }
    ensures different { command_of (codes "make" ∷ codes "9" ∷ codes "8" ∷ codes "7" ∷ codes "6"
        ∷ codes "5" ∷ codes "4" ∷ [])
        ≡ Some (Make (record { start = 9; nodes = 8; k = 7; subs = 6; callers = 5; calls = 4 })) }
{}

/// A name is taken whole, as it is written, and alone; of seven numbers none is left out.
pub fn worked_names()
    ensures names { (name : List ℕ) → is_some (plain_command name) ≡ true
        → Contains names_alone name }
    ensures all_names { (name : List ℕ) (rest : List (List ℕ))
        → is_some (command_of (name ∷ rest)) ≡ true
        → Contains (codes "make" ∷ codes "trial" ∷ names_alone) name }
    ensures replay { command_of (codes "replay" ∷ []) ≡ Some Replay }
    ensures census { command_of (codes "census" ∷ []) ≡ Some Census }
    ensures capital { command_of (codes "Replay" ∷ []) ≡ None }
    ensures shorter { command_of (codes "repla" ∷ []) ≡ None }
    ensures longer { command_of (codes "replayx" ∷ []) ≡ None }
    ensures empty { command_of ([] ∷ []) ≡ None }
    ensures empty_behind { command_of (codes "replay" ∷ [] ∷ []) ≡ None }
    ensures seven { command_of (codes "make" ∷ codes "1" ∷ codes "2" ∷ codes "2" ∷ codes "1"
        ∷ codes "1" ∷ codes "1" ∷ codes "1" ∷ []) ≡ None }
    ensures five { command_of (codes "make" ∷ codes "1" ∷ codes "2" ∷ codes "2" ∷ codes "1"
        ∷ codes "1" ∷ []) ≡ None }
{}
