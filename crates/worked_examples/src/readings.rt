//! What a reader of reports takes, by its laws, for whatever text and at their limits: numbers up to
//! 2^63, and networks of 1,024 nodes and 31 levels.
ghost use Rattle.std.specs.Prelude.{◌≡◌, ◌<◌, ◌^◌, ◌++◌, ℕ, List, Ok, Some, map};
ghost use Rattle.directory.specs.Outcomes.{Outcome};
ghost use Rattle.directory.specs.declared.answers.Done.{Done};
ghost use Rattle.outside.specs.Texts.{field};
ghost use Rattle.report_text.specs.ReportText.{call_line, report_of};
ghost use Rattle.report_check.specs.Forms.{ReadReportsAreText, slot_told};
ghost use Rattle.report_check.specs.Laws.{CallsAreText, NumbersAreText, WordsAreText};
ghost use Rattle.report_check.specs.Reading.{call_in, number_in, report_in, word_in};

/// Whatever word, number, call or report is read, the text begins with what is written of it.
pub fn worked_readings()
    ensures word { WordsAreText → (word text rest : List ℕ) → word_in word text ≡ Some rest
        → text ≡ word ++ rest }
    ensures number { NumbersAreText → (n : ℕ) (text rest : List ℕ)
        → number_in (2 ^ 63) text ≡ Some (n, rest) → (n < 2 ^ 63) × (text ≡ field n ++ rest) }
    ensures call { CallsAreText → (text rest : List ℕ) (call : Done)
        → call_in (record { nodes = 1024; levels = 31 }) (slot_told call) text ≡ Some (call, rest)
        → text ≡ call_line call ++ rest }
    ensures report { ReadReportsAreText → (text : List ℕ) (outcome : Outcome)
        → report_in (record { nodes = 1024; levels = 31 }) (map slot_told outcome.calls) text
        ≡ Ok outcome → text ≡ report_of outcome }
{}
