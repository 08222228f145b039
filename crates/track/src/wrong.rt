//! Ends that no status may tell, each wrong in one part; the numbers of statuses; and what the laws
//! of the top calls say of one command.
ghost use Rattle.std.specs.Prelude.{◌≡◌, [], ◌∷◌, ◌++◌, ◌<◌, ◌≤◌, ℕ, Bool, List, Option, length, map, Ok, Some, None, true, false};
ghost use Rattle.make_load.specs.Load.{load_text_of};
ghost use Rattle.net_reader.specs.Input.{Contents, IsInput};
ghost use Rattle.net_reader.specs.Reading.{most_bytes};
ghost use Rattle.report_check.specs.Cuts.{input_part, report_part};
ghost use Rattle.report_check.specs.Verdicts.{most_bytes as most_text_bytes};
ghost use Rattle.report_check.specs.declared.verdict.Flaw.{Flaw};
ghost use Rattle.report_check.specs.declared.verdict.Verdict.TheVariants.{Unsound as Flawed};
ghost use Rattle.report_text.specs.ReportText.{report_of};
ghost use Rattle.word_line.specs.declared.command.Command.{Command};
ghost use Rattle.word_line.specs.declared.command.Command.TheVariants.{Census, Check, Cover, FromJson, Make, Replay, Run};
ghost use Rattle.word_line.specs.declared.load.Load.{Load};
ghost use Rattle.track.specs.declared.status.Status.{Status};
ghost use Rattle.track.specs.declared.status.Status.TheVariants.{Done, Refused, BadWords, OutOfMemory, ReadFailed, WriteFailed, TooLong, Unsound};
ghost use Rattle.track.specs.Ends.{Ends, EndsAlone, EndsAs, IsShort, Streams, Tells, status_number, streams};
ghost use Rattle.track.specs.Laws.{BytesHaveOneText, IsComplete, IsCompleteAlone, RunsAreReplayed};
ghost use Rattle.track.specs.Results.{IsText, SaysByJson, in_order, outcome_for, verdict_for};
ghost use Rattle.track.specs.Transfer.{IsEndOf};

/// A status with bytes left, a fault, or something written that it may not come with.
pub fn wrong_ends()
    ensures unread { EndsAs Cover Done (streams None 0 None 0)
        (streams (Some (1 ∷ [])) 0 None 0) → ⊥ }
    ensures read_fault { EndsAs Cover Done (streams None 0 None 0)
        (streams None 1 None 0) → ⊥ }
    ensures write_fault { EndsAs Cover Done (streams None 0 None 0)
        (streams None 0 None 1) → ⊥ }
    ensures refused_unread { EndsAs Cover Refused (streams None 0 None 0)
        (streams (Some (1 ∷ [])) 0 None 0) → ⊥ }
    ensures spoke { EndsAs Cover OutOfMemory (streams None 0 (Some []) 0)
        (streams None 0 (Some (1 ∷ [])) 0) → ⊥ }
    ensures memory_fault { EndsAs Cover OutOfMemory (streams None 0 None 0)
        (streams None 1 None 0) → ⊥ }
    ensures spoke_then_failed { EndsAs Cover ReadFailed (streams None 0 (Some []) 0)
        (streams None 1 (Some (1 ∷ [])) 0) → ⊥ }
    ensures no_fault { EndsAs Cover ReadFailed (streams None 0 None 0)
        (streams None 0 None 0) → ⊥ }
    ensures no_write_fault { EndsAs Cover WriteFailed (streams None 0 None 0)
        (streams None 0 None 0) → ⊥ }
    ensures unread_at_fault { EndsAs Cover WriteFailed (streams None 0 None 0)
        (streams (Some (1 ∷ [])) 0 None 1) → ⊥ }
    ensures short { EndsAs Cover TooLong (streams (Some []) 0 None 0)
        (streams None 0 None 0) → ⊥ }
    ensures check_short { EndsAs Check TooLong (streams (Some []) 0 None 0)
        (streams None 0 None 0) → ⊥ }
    ensures no_verdict { EndsAs Replay Unsound (streams (Some []) 0 None 0)
        (streams None 0 None 0) → ⊥ }
    ensures bad_words { EndsAs Cover BadWords (streams None 0 None 0)
        (streams None 0 None 0) → ⊥ }
    ensures memory_write_fault { EndsAs Cover OutOfMemory (streams None 0 None 0)
        (streams None 0 None 1) → ⊥ }
    ensures both_faults { EndsAs Cover WriteFailed (streams None 0 None 0)
        (streams None 1 None 1) → ⊥ }
    ensures lost { EndsAs Cover WriteFailed (streams (Some []) 0 (Some (1 ∷ [])) 0)
        (streams (Some []) 0 (Some []) 1) → ⊥ }
    ensures long_spoke { EndsAs Cover TooLong (streams None 0 (Some []) 0)
        (streams None 0 (Some (1 ∷ [])) 0) → ⊥ }
    ensures long_fault { EndsAs Cover TooLong (streams None 0 None 0)
        (streams None 1 None 0) → ⊥ }
    ensures no_form { Ends false None Done (streams None 0 None 0)
        (streams None 0 None 0) → ⊥ }
    ensures touched { Ends false None BadWords (streams None 0 (Some []) 0)
        (streams None 0 (Some (1 ∷ [])) 0) → ⊥ }
    ensures run { Ends false (Some Run) Done (streams None 0 None 0)
        (streams None 0 None 0) → ⊥ }
{}

/// The same of a command that reads nothing; and a status that it never has.
pub fn wrong_ends_alone()
    ensures silent { EndsAlone (1 ∷ []) Done (streams None 0 (Some []) 0)
        (streams None 0 (Some []) 0) → ⊥ }
    ensures read { EndsAlone [] Done (streams (Some (1 ∷ [])) 0 None 0)
        (streams (Some []) 0 None 0) → ⊥ }
    ensures no_fault { EndsAlone [] WriteFailed (streams None 0 None 0)
        (streams None 0 None 0) → ⊥ }
    ensures other { EndsAlone (1 ∷ []) WriteFailed (streams None 0 (Some []) 0)
        (streams None 0 (Some (2 ∷ [])) 1) → ⊥ }
    ensures read_fault { EndsAlone [] Done (streams None 0 None 0)
        (streams None 1 None 0) → ⊥ }
    ensures write_fault { EndsAlone [] Done (streams None 0 None 0)
        (streams None 0 None 1) → ⊥ }
    ensures memory_spoke { EndsAlone [] OutOfMemory (streams None 0 (Some []) 0)
        (streams None 0 (Some (1 ∷ [])) 0) → ⊥ }
    ensures memory_read { EndsAlone [] OutOfMemory (streams (Some (1 ∷ [])) 0 None 0)
        (streams (Some []) 0 None 0) → ⊥ }
    ensures failed_read { EndsAlone [] WriteFailed (streams (Some (1 ∷ [])) 0 None 0)
        (streams (Some []) 0 None 1) → ⊥ }
    ensures refused { (text : List ℕ) (before now : Streams)
        → EndsAlone text Refused before now → ⊥ }
    ensures unsound { (text : List ℕ) (before now : Streams)
        → EndsAlone text Unsound before now → ⊥ }
    ensures bad_words { (text : List ℕ) (before now : Streams)
        → EndsAlone text BadWords before now → ⊥ }
    ensures read_failed { (text : List ℕ) (before now : Streams)
        → EndsAlone text ReadFailed before now → ⊥ }
    ensures long { (text : List ℕ) (before now : Streams)
        → EndsAlone text TooLong before now → ⊥ }
{}

/// More bytes than a command may be given, and a text that was written for them, whole or in part;
/// or a fault that was met behind them all.
pub fn wrong_lengths()
    ensures whole { (bytes : List ℕ) (now : Streams) → most_bytes < length bytes
        → EndsAs Cover Done (streams (Some bytes) 0 None 0) now → ⊥ }
    ensures refused { (bytes : List ℕ) (now : Streams) → most_bytes < length bytes
        → EndsAs Cover Refused (streams (Some bytes) 0 None 0) now → ⊥ }
    ensures begun { (bytes : List ℕ) (now : Streams) → most_bytes < length bytes
        → EndsAs Cover WriteFailed (streams (Some bytes) 0 None 0) now → ⊥ }
    ensures check_whole { (bytes : List ℕ) (now : Streams) → most_text_bytes < length bytes
        → EndsAs Check Unsound (streams (Some bytes) 0 None 0) now → ⊥ }
    ensures check_part { (bytes : List ℕ) (now : Streams) → most_bytes < length (input_part bytes)
        → EndsAs Check Done (streams (Some bytes) 0 None 0) now → ⊥ }
    ensures check_begun { (bytes : List ℕ) (now : Streams) → most_bytes < length (input_part bytes)
        → EndsAs Check WriteFailed (streams (Some bytes) 0 None 0) now → ⊥ }
    ensures read_failed { (bytes : List ℕ) → most_bytes < length bytes
        → EndsAs Cover ReadFailed (streams (Some bytes) 0 None 0)
        (streams (Some []) 1 None 0) → ⊥ }
    ensures check_failed { (bytes : List ℕ) → most_text_bytes < length bytes
        → EndsAs Check ReadFailed (streams (Some bytes) 0 None 0)
        (streams (Some []) 1 None 0) → ⊥ }
{}

/// A count of faults that rose by two.
pub fn wrong_counts()
    ensures read { EndsAs Cover ReadFailed (streams None 0 None 0) (streams None 2 None 0) → ⊥ }
    ensures write { EndsAs Cover WriteFailed (streams None 0 None 0)
        (streams None 0 None 2) → ⊥ }
    ensures alone { EndsAlone [] WriteFailed (streams None 0 None 0)
        (streams None 0 None 2) → ⊥ }
{}

/// A fault that isn't the one that the status tells: of writing, beside one of reading or beside
/// bytes that are too many; and of either, to a command that reads nothing.
pub fn wrong_faults()
    ensures read_failed { EndsAs Cover ReadFailed (streams None 0 None 0)
        (streams None 1 None 1) → ⊥ }
    ensures too_long { EndsAs Cover TooLong (streams None 0 None 0)
        (streams None 0 None 1) → ⊥ }
    ensures memory_write { EndsAlone [] OutOfMemory (streams None 0 None 0)
        (streams None 0 None 1) → ⊥ }
    ensures memory_read { EndsAlone [] OutOfMemory (streams None 0 None 0)
        (streams None 1 None 0) → ⊥ }
    ensures write_failed { EndsAlone [] WriteFailed (streams None 0 None 0)
        (streams None 1 None 1) → ⊥ }
{}

/// What is left is an end of what was left: neither other bytes, nor more than were left.
pub fn wrong_rests()
    ensures other { IsEndOf (Some (1 ∷ [])) (Some (2 ∷ [])) → ⊥ }
    ensures more { IsEndOf (Some []) (Some (1 ∷ [])) → ⊥ }
    ensures front { IsEndOf (Some (1 ∷ 2 ∷ [])) (Some (1 ∷ [])) → ⊥ }
    ensures unknown { IsEndOf (Some []) None → ⊥ }
{}

/// The statuses by number; words of no command end with 2 alone, and no status has 7. What a status
/// says goes by whether the command reads an input.
pub fn told_numbers()
    ensures numbers { map status_number (Done ∷ Refused ∷ BadWords ∷ OutOfMemory ∷ ReadFailed
        ∷ WriteFailed ∷ TooLong ∷ Unsound ∷ []) ≡ 0 ∷ 1 ∷ 2 ∷ 3 ∷ 4 ∷ 5 ∷ 6 ∷ 8 ∷ [] }
    ensures no_form { (before now : Streams) → Tells false None 0 before now → ⊥ }
    ensures bad_words { (threads : Bool) (before now : Streams) (number : ℕ)
        → Tells threads None number before now → number ≡ 2 }
    ensures spoke { Tells false None 2 (streams None 0 (Some []) 0)
        (streams None 0 (Some (1 ∷ [])) 0) → ⊥ }
    ensures seven { (threads : Bool) (command : Option Command) (before now : Streams)
        → Tells threads command 7 before now → ⊥ }
    ensures reads { (threads : Bool) (status : Status) (before now : Streams)
        → Ends threads (Some Cover) status before now → EndsAs Cover status before now }
    ensures makes { (threads : Bool) (load : Load) (status : Status) (before now : Streams)
        → Ends threads (Some (Make load)) status before now
        → EndsAlone (load_text_of load) status before now }
{}

/// What the laws of the top calls say where all that they ask for holds: two texts of a cover are
/// one, and it isn't refused too; a census that has memory is done, as is JSON that says an input,
/// and a check whose report has a flaw says so; and a run prints an order whole, of which each
/// replay has the same text. What was written, where nothing stood before, is the one text of the
/// bytes, or a front of it.
pub fn told_laws()
    ensures one { BytesHaveOneText → (bytes one other : List ℕ) (s t : Status)
        → IsText Cover bytes s one → IsText Cover bytes t other → one ≡ other }
    ensures refused { BytesHaveOneText → (bytes one other : List ℕ)
        → IsText Cover bytes Done one → IsText Cover bytes Refused other → ⊥ }
    ensures done { IsComplete → (bytes : List ℕ) (contents : Contents) (status : Status)
        (left written : Option (List ℕ)) → EndsAs Census status
        (streams (Some bytes) 0 (Some []) 0) (streams left 0 written 0)
        → length bytes ≤ most_bytes → IsInput bytes (Ok contents)
        → (status ≡ OutOfMemory → ⊥) → status ≡ Done }
    ensures checked { IsComplete → (bytes : List ℕ) (contents : Contents) (status : Status)
        (left written : Option (List ℕ)) (line : ℕ) (flaw : Flaw) → EndsAs Check status
        (streams (Some bytes) 0 (Some []) 0) (streams left 0 written 0)
        → IsShort Check bytes → IsInput (input_part bytes) (Ok contents)
        → verdict_for contents (report_part bytes) ≡ Flawed line flaw
        → (status ≡ OutOfMemory → ⊥) → status ≡ Unsound }
    ensures json { IsComplete → (bytes : List ℕ) (contents : Contents) (status : Status)
        (left written : Option (List ℕ)) → EndsAs FromJson status
        (streams (Some bytes) 0 (Some []) 0) (streams left 0 written 0)
        → IsShort FromJson bytes → SaysByJson bytes contents
        → (status ≡ OutOfMemory → ⊥) → status ≡ Done }
    ensures alone { IsCompleteAlone → (text : List ℕ) (status : Status)
        (left written : Option (List ℕ)) → EndsAlone text status
        (streams left 0 (Some []) 0) (streams left 0 written 0)
        → (status ≡ OutOfMemory → ⊥) → status ≡ Done }
    ensures printed { RunsAreReplayed → (bytes : List ℕ) (contents : Contents) (status : Status)
        (text : List ℕ) → IsInput bytes (Ok contents) → IsText Run bytes status text
        → ((order : List ℕ) → text ≡ report_of (outcome_for (in_order contents order))
        → (outcome_for (in_order contents order)).order ≡ order → ⊥) → ⊥ }
    ensures replayed { RunsAreReplayed → (bytes : List ℕ) (contents : Contents) (status : Status)
        (text : List ℕ) → IsInput bytes (Ok contents) → IsText Run bytes status text
        → ((order : List ℕ) → text ≡ report_of (outcome_for (in_order contents order))
        → ((others : List ℕ) (other : Status) (replayed : List ℕ)
        → IsInput others (Ok (in_order contents order)) → IsText Replay others other replayed
        → replayed ≡ text) → ⊥) → ⊥ }
    ensures written { BytesHaveOneText → (bytes text : List ℕ) (now : Streams)
        → IsText Cover bytes Done text
        → EndsAs Cover Done (streams (Some bytes) 0 (Some []) 0) now → now.written ≡ Some text }
    ensures written_refused { BytesHaveOneText → (bytes text : List ℕ) (now : Streams)
        → IsText Cover bytes Refused text
        → EndsAs Cover Refused (streams (Some bytes) 0 (Some []) 0) now → now.written ≡ Some text }
    ensures written_check { BytesHaveOneText → (bytes text : List ℕ) (now : Streams)
        → IsText Check bytes Unsound text
        → EndsAs Check Unsound (streams (Some bytes) 0 (Some []) 0) now → now.written ≡ Some text }
    ensures begun { BytesHaveOneText → (bytes text part : List ℕ) (s : Status)
        (left : Option (List ℕ)) → IsText Cover bytes s text → EndsAs Cover WriteFailed
        (streams (Some bytes) 0 (Some []) 0) (streams left 0 (Some part) 1)
        → (back : List ℕ) × (text ≡ part ++ back) }
{}
