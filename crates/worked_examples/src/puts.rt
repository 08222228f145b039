//! Puts of a subscriber, computed, and what they tell after each of them.
ghost use Rattle.std.specs.Prelude.{◌≡◌, [], ◌∷◌, Some, None, true, false, map, length};
ghost use Rattle.directory.specs.Courses.{move_to, switch_off, switch_on, course_at, after_steps};
ghost use Rattle.directory.specs.Histories.{before, through, changes_here};
ghost use Rattle.directory.specs.Writes.{writes, step_writes, visits, numbers_from, mark_at, entry_at};
ghost use Rattle.directory.specs.Puts.{steps_in, puts_left};
ghost use Rattle.directory.specs.Standing.{standing, number, passage, off};
ghost use Rattle.directory.specs.Census.{census};
ghost use Rattle.directory.specs.Looks.{IsQuiet, moves_at};
ghost use Rattle.directory.specs.Keys.{key_node, opening};
ghost use Rattle.plan_laws.specs.Examples.{line_setting};
ghost use Rattle.worked_examples.specs.Examples.{three, act_at};
ghost use Rattle.entry_word.specs.declared.visit.Key.TheVariants.{Presence, Entry};
ghost use Rattle.entry_word.specs.declared.mark.PresenceMark.TheVariants.{Empty, Here, Gone, Coming};

/// What a subscriber writes, and what its puts tell after each of them.
pub fn worked_puts()
    ensures standings { map (λ t. standing line_setting 0
        (before t (visits line_setting 0 (move_to 2 ∷ switch_off ∷ switch_on ∷ []))))
        (numbers_from 0 9) ≡ 3 ∷ 3 ∷ 3 ∷ 3 ∷ 2 ∷ 2 ∷ 2 ∷ 2 ∷ 2 ∷ [] }
    ensures numbers { map
        (λ t. number 0
        (before t (visits line_setting 0 (move_to 2 ∷ switch_off ∷ switch_on ∷ []))))
        (numbers_from 0 9) ≡ 0 ∷ 0 ∷ 0 ∷ 0 ∷ 1 ∷ 1 ∷ 1 ∷ 1 ∷ 1 ∷ [] }
    ensures passages { map (λ t. passage line_setting 0
        (before t (visits line_setting 0 (move_to 2 ∷ switch_off ∷ switch_on ∷ []))))
        (numbers_from 0 9) ≡ 0 ∷ 0 ∷ 0 ∷ 0 ∷ 1 ∷ 0 ∷ 0 ∷ 0 ∷ 0 ∷ [] }
    ensures offs { map
        (λ t. off 0 (before t (visits line_setting 0 (move_to 2 ∷ switch_off ∷ switch_on ∷ []))))
        (numbers_from 0 9) ≡ false ∷ false ∷ false ∷ false ∷ false ∷ false ∷ false ∷ true ∷ false
        ∷ [] }
    ensures censuses { map (λ t. census line_setting
        (before t (visits line_setting 0 (move_to 2 ∷ switch_off ∷ switch_on ∷ []))) 2)
        (numbers_from 0 9) ≡ ([]) ∷ ([]) ∷ ([]) ∷ ([]) ∷ ([]) ∷ (0 ∷ []) ∷ (0 ∷ []) ∷ ([])
        ∷ (0 ∷ []) ∷ [] }
    ensures censuses_before { map (λ t. census line_setting
        (before t (visits line_setting 0 (move_to 2 ∷ switch_off ∷ switch_on ∷ []))) 3)
        (numbers_from 0 9) ≡ (0 ∷ []) ∷ (0 ∷ []) ∷ (0 ∷ []) ∷ (0 ∷ []) ∷ ([]) ∷ ([]) ∷ ([]) ∷ ([])
        ∷ ([]) ∷ [] }
    ensures steps_shown { map
        (λ t. steps_in
        (before t (visits line_setting 0 (move_to 2 ∷ switch_off ∷ switch_on ∷ []))))
        (numbers_from 0 9) ≡ ([]) ∷ (move_to 2 ∷ []) ∷ (move_to 2 ∷ []) ∷ (move_to 2 ∷ [])
        ∷ (move_to 2 ∷ []) ∷ (move_to 2 ∷ []) ∷ (move_to 2 ∷ []) ∷ (move_to 2 ∷ switch_off ∷ [])
        ∷ (move_to 2 ∷ switch_off ∷ switch_on ∷ []) ∷ [] }
    ensures left { map
        (λ t. length
        (puts_left line_setting 0
        (before t (visits line_setting 0 (move_to 2 ∷ switch_off ∷ switch_on ∷ [])))))
        (numbers_from 0 9) ≡ 0 ∷ 5 ∷ 4 ∷ 3 ∷ 2 ∷ 1 ∷ 0 ∷ 0 ∷ 0 ∷ [] }
    ensures here_changes { map (λ t. changes_here line_setting
        (before t (visits line_setting 0 (move_to 2 ∷ switch_off ∷ switch_on ∷ [])))
        (act_at (visits line_setting 0 (move_to 2 ∷ switch_off ∷ switch_on ∷ [])) t))
        (numbers_from 0 8) ≡ false ∷ false ∷ false ∷ true ∷ true ∷ false ∷ true ∷ true ∷ [] }
    ensures moves_told { map
        (moves_at 0 (visits line_setting 0 (move_to 2 ∷ switch_off ∷ switch_on ∷ [])))
        (numbers_from 0 9) ≡ true ∷ true ∷ true ∷ true ∷ true ∷ true ∷ false ∷ false ∷ false ∷ [] }
    ensures moves_told_later { map
        (moves_at 0 (visits line_setting 0 (switch_off ∷ switch_on ∷ move_to 2 ∷ [])))
        (numbers_from 0 9) ≡ false ∷ false ∷ true ∷ true ∷ true ∷ true ∷ true ∷ true ∷ false ∷ [] }
    ensures quiet_at_switches { IsQuiet
        (visits line_setting 0 (move_to 2 ∷ switch_off ∷ switch_on ∷ [])) 0 6 7 }
    ensures first_put_is_of_a_move { IsQuiet
        (visits line_setting 0 (move_to 2 ∷ switch_off ∷ switch_on ∷ [])) 0 5 6 → ⊥ }
    ensures last_put_is_of_a_move { IsQuiet
        (visits line_setting 0 (switch_off ∷ switch_on ∷ move_to 2 ∷ [])) 0 1 2 → ⊥ }
    ensures quiet_before_a_move { IsQuiet
        (visits line_setting 0 (switch_off ∷ switch_on ∷ move_to 2 ∷ [])) 0 0 1 }
    ensures moves_between_switches { IsQuiet
        (visits line_setting 0 (switch_off ∷ switch_on ∷ move_to 2 ∷ switch_off ∷ [])) 0 1 8 → ⊥ }
    ensures through_has_it { map
        (λ t. length (through t (visits line_setting 0 (move_to 2 ∷ switch_off ∷ switch_on ∷ []))))
        (0 ∷ 3 ∷ []) ≡ 1 ∷ 4 ∷ [] }
    ensures passages_again { map (λ t. passage line_setting 0
        (before t (visits line_setting 0 (move_to 2 ∷ move_to 3 ∷ move_to 2 ∷ []))))
        (numbers_from 0 21) ≡ 0 ∷ 0 ∷ 0 ∷ 0 ∷ 1 ∷ 0 ∷ 0 ∷ 0 ∷ 0 ∷ 0 ∷ 0 ∷ 1 ∷ 0 ∷ 0 ∷ 0 ∷ 0 ∷ 0 ∷ 0
        ∷ 1 ∷ 0 ∷ 0 ∷ [] }
    ensures steps_after_switches { steps_in (visits line_setting 0
        (switch_off ∷ switch_on ∷ move_to 2 ∷ [])) ≡ switch_off ∷ switch_on ∷ move_to 2 ∷ [] }
    ensures fourth_writes { step_writes three (after_steps three (course_at 0)
        (move_to 1 ∷ move_to 2 ∷ move_to 0 ∷ [])) (move_to 1)
        ≡ mark_at 1 (Coming 4 0) ∷ entry_at 0 1 (Some (record { number = 4; node = 1 }))
        ∷ entry_at 1 1 (Some (record { number = 4; node = 1 }))
        ∷ entry_at 2 1 (Some (record { number = 4; node = 1 })) ∷ mark_at 0 (Gone 4 1)
        ∷ mark_at 1 (Here 4) ∷ entry_at 0 0 None ∷ entry_at 1 0 None ∷ entry_at 2 0 None
        ∷ mark_at 0 Empty ∷ [] }
    ensures three_writes { writes three (course_at 0) (move_to 1 ∷ move_to 2 ∷ move_to 0 ∷ [])
        ≡ mark_at 1 (Coming 1 0) ∷ entry_at 0 1 (Some (record { number = 1; node = 1 }))
        ∷ entry_at 1 1 (Some (record { number = 1; node = 1 }))
        ∷ entry_at 2 1 (Some (record { number = 1; node = 1 })) ∷ mark_at 0 (Gone 1 1)
        ∷ mark_at 1 (Here 1) ∷ entry_at 0 0 None ∷ entry_at 1 0 None ∷ entry_at 2 0 None
        ∷ mark_at 0 Empty ∷ mark_at 2 (Coming 2 1)
        ∷ entry_at 0 2 (Some (record { number = 2; node = 2 }))
        ∷ entry_at 1 2 (Some (record { number = 2; node = 2 })) ∷ mark_at 1 (Gone 2 2)
        ∷ mark_at 2 (Here 2) ∷ entry_at 0 1 None ∷ entry_at 1 1 None ∷ mark_at 0 (Coming 3 2)
        ∷ entry_at 0 0 (Some (record { number = 3; node = 0 }))
        ∷ entry_at 1 0 (Some (record { number = 3; node = 0 }))
        ∷ entry_at 2 0 (Some (record { number = 3; node = 0 })) ∷ mark_at 2 (Gone 3 0)
        ∷ mark_at 0 (Here 3) ∷ entry_at 0 2 None ∷ entry_at 1 2 None ∷ entry_at 2 1 None
        ∷ mark_at 1 Empty ∷ mark_at 2 Empty ∷ [] }
    ensures entry_at_leader { key_node line_setting (Entry 0 1 0) ≡ 3 }
    ensures no_such_level { opening line_setting (Entry 9 0 0) ≡ 0 }
    ensures no_such_subscriber { opening line_setting (Presence 0 5) ≡ 0 }
{}
