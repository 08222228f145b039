//! Finds over given words, computed, and what is no part of a find.
ghost use Rattle.std.specs.Prelude.{◌≡◌, ℕ, [], ◌∷◌, Option, Some, None};
ghost use Rattle.directory.specs.Standing.{number};
ghost use Rattle.plan_laws.specs.Examples.{line_setting};
ghost use Rattle.worked_examples.specs.Examples.{find_from};
ghost use Rattle.directory.specs.Finds.{find, answer_of, key_of};
ghost use Rattle.directory.specs.Parts.{AreNothing, LeadOn};
ghost use Rattle.entry_word.specs.Marks.{mark_word};
ghost use Rattle.entry_word.specs.Addresses.{address_word};
ghost use Rattle.entry_word.specs.declared.visit.Key.TheVariants.{Presence, Entry};
ghost use Rattle.entry_word.specs.declared.mark.PresenceMark.TheVariants.{Empty, Here, Gone, Coming, Off};
ghost use Rattle.directory.specs.declared.answers.Why.TheVariants.{Empty as EmptyAt, NoEntry, Chased};
ghost use Rattle.directory.specs.declared.answers.Found.TheVariants.{At, Off as OffAt, Again};

/// What finds make of given words.
pub fn worked_finds()
    ensures sixth_hop { key_of (find_from 0) (find line_setting (find_from 0)
        (mark_word (Coming 1 3) ∷ mark_word (Coming 9 2) ∷ mark_word (Coming 9 1)
        ∷ mark_word (Coming 9 0) ∷ mark_word (Coming 9 1) ∷ mark_word (Coming 9 2)
        ∷ mark_word (Coming 9 3) ∷ [])) ≡ (Some (Presence 3 0)) }
    ensures too_long { answer_of (find line_setting (find_from 0)
        (mark_word (Coming 1 3) ∷ mark_word (Coming 9 2) ∷ mark_word (Coming 9 1)
        ∷ mark_word (Coming 9 0) ∷ mark_word (Coming 9 1) ∷ mark_word (Coming 9 2)
        ∷ mark_word (Coming 9 3) ∷ mark_word (Coming 9 2) ∷ [])) ≡ Some (Again Chased 9) }
    ensures last_look_answers { answer_of (find line_setting (find_from 0)
        (mark_word (Coming 1 3) ∷ mark_word (Coming 9 2) ∷ mark_word (Coming 9 1)
        ∷ mark_word (Coming 9 0) ∷ mark_word (Coming 9 1) ∷ mark_word (Coming 9 2)
        ∷ mark_word (Coming 9 3) ∷ mark_word (Here 4) ∷ [])) ≡ Some (At 3 4 None 9) }
    ensures coming_at_origin { key_of (find_from 0)
        (find line_setting (find_from 0) (mark_word (Coming 1 3) ∷ [])) ≡ (Some (Presence 3 0)) }
    ensures lower_known { key_of (find_from 3) (find line_setting (find_from 3)
        (mark_word (Coming 1 2) ∷ mark_word (Gone 1 1) ∷ mark_word (Coming 2 0) ∷ []))
        ≡ (Some (Presence 0 0)) }
    ensures same_known { answer_of (find line_setting (find_from 3)
        (mark_word (Coming 1 2) ∷ mark_word (Gone 2 1) ∷ mark_word (Coming 2 0) ∷ []))
        ≡ Some (At 1 2 None 2) }
    ensures greatest_known { answer_of (find line_setting (find_from 3)
        (mark_word (Coming 1 2) ∷ mark_word (Gone 3 1) ∷ mark_word (Gone 1 0)
        ∷ mark_word (Coming 3 1) ∷ [])) ≡ Some (At 0 3 None 3) }
    ensures greatest_last { answer_of (find line_setting (find_from 3)
        (mark_word (Coming 1 2) ∷ mark_word (Gone 1 1) ∷ mark_word (Gone 3 0)
        ∷ mark_word (Coming 3 1) ∷ [])) ≡ Some (At 0 3 None 3) }
    ensures known_at_origin { answer_of (find line_setting (find_from 3)
        (mark_word (Gone 2 0) ∷ address_word (Some (record { number = 1; node = 1 }))
        ∷ mark_word (Coming 2 0) ∷ [])) ≡ Some (At 1 2 (Some 0) 4) }
    ensures not_known_at_origin { key_of (find_from 3)
        (find line_setting (find_from 3) (mark_word (Gone 2 0)
        ∷ address_word (Some (record { number = 1; node = 1 })) ∷ mark_word (Coming 3 0) ∷ []))
        ≡ (Some (Presence 0 0)) }
    ensures kept_in_chase { answer_of (find line_setting (find_from 3)
        (mark_word (Gone 2 0) ∷ address_word (Some (record { number = 1; node = 1 }))
        ∷ mark_word (Gone 1 2) ∷ mark_word (Coming 2 0) ∷ [])) ≡ Some (At 2 2 (Some 0) 5) }
    ensures no_entry { answer_of (find line_setting (find_from 3)
        (mark_word Empty ∷ address_word None ∷ address_word None ∷ address_word None
        ∷ address_word None ∷ [])) ≡ Some (Again NoEntry 18) }
    ensures fourth_entry { key_of (find_from 3) (find line_setting (find_from 3)
        (mark_word Empty ∷ address_word None ∷ address_word None ∷ address_word None ∷ []))
        ≡ (Some (Entry 2 0 0)) }
    ensures empty_met { answer_of (find line_setting (find_from 3)
        (mark_word Empty ∷ address_word None ∷ address_word
        (Some (record { number = 1; node = 1 })) ∷ mark_word Empty ∷ []))
        ≡ Some (Again (EmptyAt 1) 8) }
    ensures off_met { answer_of (find line_setting (find_from 3)
        (mark_word Empty ∷ address_word None ∷ address_word
        (Some (record { number = 1; node = 1 })) ∷ mark_word (Off 1) ∷ []))
        ≡ Some (OffAt 1 1 (Some 0) 8) }
    ensures off_at_origin { answer_of (find line_setting (find_from 3) (mark_word (Off 1) ∷ []))
        ≡ Some (OffAt 3 1 None 0) }
{}

/// Marks that lead on from node 3, one that is Gone and then one that is Coming, with the way over
/// them and what is known behind them.
pub fn worked_parts()
    ensures leads { LeadOn line_setting None 3 (mark_word (Gone 4 0) ∷ mark_word (Coming 5 2) ∷ [])
        (Some 4) 2 5 }
    ensures nothing { AreNothing (address_word None ∷ address_word None ∷ []) }
{}

/// An address is not nothing, behind entries of nothing too. Neither a Here leads on, nor a Coming
/// whose number is known; and marks that lead on tell where to, over which way, and what is known.
pub fn wrong_parts()
    ensures address { AreNothing (address_word (Some (record { number = 1; node = 1 })) ∷ []) → ⊥ }
    ensures later { AreNothing
        (address_word None ∷ address_word (Some (record { number = 1; node = 1 })) ∷ []) → ⊥ }
    ensures here { (known last_known : Option ℕ) (last weight : ℕ)
        → LeadOn line_setting known 3 (mark_word (Here 4) ∷ []) last_known last weight → ⊥ }
    ensures coming { (last_known : Option ℕ) (last weight : ℕ)
        → LeadOn line_setting (Some 4) 3 (mark_word (Coming 4 2) ∷ []) last_known last weight
        → ⊥ }
    ensures to { (last_known : Option ℕ) (last weight : ℕ)
        → LeadOn line_setting None 3 (mark_word (Gone 4 0) ∷ []) last_known last weight
        → last ≡ 0 }
    ensures way { (last_known : Option ℕ) (last weight : ℕ)
        → LeadOn line_setting None 3 (mark_word (Gone 4 0) ∷ []) last_known last weight
        → weight ≡ 3 }
    ensures known { (last_known : Option ℕ) (last weight : ℕ)
        → LeadOn line_setting None 3 (mark_word (Gone 4 0) ∷ []) last_known last weight
        → last_known ≡ Some 4 }
{}
