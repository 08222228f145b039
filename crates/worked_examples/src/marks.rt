//! What each kind of mark at node 2 of the line of four tells of the history before it.
ghost use Rattle.std.specs.Prelude.{◌≡◌, Some, ℕ, false, length, slice_get, true};
ghost use Rattle.entry_word.specs.declared.mark.PresenceMark.TheVariants.{Coming, Gone, Here, Off};
ghost use Rattle.directory.specs.Histories.{History, puts_to};
ghost use Rattle.directory.specs.Puts.{course_in};
ghost use Rattle.directory.specs.Standing.{commits, number, off, standing};
ghost use Rattle.plan_laws.specs.Examples.{line_setting};
ghost use Rattle.trail_laws.specs.Trail.{MarkTells};
ghost use Rattle.worked_examples.specs.Trails.{line_mark};

/// A Here and an Off tell where the subscriber stands, its number and its state; a Gone tells the
/// move of its number, among those that are committed.
pub fn worked_marks()
    ensures here { (history : History) (p : ℕ) → MarkTells line_setting 0 history 2 (Here p)
        → 2 ≡ standing line_setting 0 history }
    ensures here_number { (history : History) (p : ℕ)
        → MarkTells line_setting 0 history 2 (Here p) → p ≡ number 0 history }
    ensures here_on { (history : History) (p : ℕ)
        → MarkTells line_setting 0 history 2 (Here p) → off 0 history ≡ false }
    ensures off_here { (history : History) (p : ℕ)
        → MarkTells line_setting 0 history 2 (Off p) → 2 ≡ standing line_setting 0 history }
    ensures off_number { (history : History) (p : ℕ)
        → MarkTells line_setting 0 history 2 (Off p) → p ≡ number 0 history }
    ensures is_off { (history : History) (p : ℕ)
        → MarkTells line_setting 0 history 2 (Off p) → off 0 history ≡ true }
    ensures gone { (history : History) → MarkTells line_setting 0 history 2 (Gone 3 1)
        → slice_get (commits 0 history) 2 ≡ Some (record { number = 3; from = 2; to = 1 }) }
    ensures gone_first { (history : History) (to : ℕ)
        → MarkTells line_setting 0 history 2 (Gone 0 to) → ⊥ }
    ensures gone_outside { (history : History) (p : ℕ)
        → MarkTells line_setting 0 history 2 (Gone p 4) → ⊥ }
{}

/// A Coming from node 3 tells the last move that was begun, of a subscriber that is on: before its
/// commit the subscriber stands at node 3, and after it at the mark's own node, with its Gone at
/// node 3.
pub fn worked_comings()
    ensures last { (history : History) → MarkTells line_setting 0 history 2 (Coming 4 3)
        → 4 ≡ length (course_in line_setting 0 (puts_to 0 history)).moves }
    ensures inside { (history : History) (p : ℕ)
        → MarkTells line_setting 0 history 2 (Coming p 4) → ⊥ }
    ensures on { (history : History) → MarkTells line_setting 0 history 2 (Coming 4 3)
        → off 0 history ≡ false }
    ensures begun { (history : History) → MarkTells line_setting 0 history 2 (Coming 4 3)
        → number 0 history ≡ 3 → 3 ≡ standing line_setting 0 history }
    ensures committed { (history : History) → MarkTells line_setting 0 history 2 (Coming 4 3)
        → number 0 history ≡ 4 → 2 ≡ standing line_setting 0 history }
    ensures left { (history : History) → MarkTells line_setting 0 history 2 (Coming 4 3)
        → number 0 history ≡ 4 → line_mark history 3 ≡ Gone 4 2 }
    ensures early { (history : History) → MarkTells line_setting 0 history 2 (Coming 4 3)
        → number 0 history ≡ 2 → ⊥ }
    ensures late { (history : History) → MarkTells line_setting 0 history 2 (Coming 4 3)
        → number 0 history ≡ 5 → ⊥ }
{}
