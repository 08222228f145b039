//! Laws of courses, and of what a subscriber writes.
ghost use Rattle.std.specs.Prelude.{List, [], false, if◌then◌else◌, length, nat_le, ℕ, ◌++◌, ◌+◌, ◌<◌, ◌∷◌, ◌≡◌, ◌≢◌};
ghost use Rattle.directory.specs.Courses.{Course, MayStep, Move, Step, address_node, after_step, after_steps, base, course_at, gathered_weight, last_stop, move_to, next_move};
ghost use Rattle.directory.specs.Settings.{Setting};
ghost use Rattle.directory.specs.Standing.{number};
ghost use Rattle.directory.specs.Writes.{writes};
ghost use Rattle.directory.specs.Statements.{MovesAreShort};

/// The last renewal of a level after one more move.
pub fn base_after()
    ensures { (level : ℕ) (moves : List Move) (move : Move) → base level (moves ++ move ∷ [])
        ≡ if nat_le level move.renewed then move.number else base level moves }
{}

/// What a move does to a level: the levels that it renews have its node and have gathered nothing;
/// the others keep their node, and gather its weight.
pub fn levels_after_move()
    ensures gathered { (setting : Setting) (first : ℕ) (steps : List Step) (node level : ℕ)
        → let course : Course = after_steps setting (course_at first) steps in
        gathered_weight (after_step setting course (move_to node)) level
        ≡ if nat_le level (next_move setting course node).renewed then 0
        else gathered_weight course level + setting.distance (last_stop course) node }
    ensures address { (setting : Setting) (first : ℕ) (steps : List Step) (node level : ℕ)
        → let course : Course = after_steps setting (course_at first) steps in
        address_node (after_step setting course (move_to node)) level
        ≡ if nat_le level (next_move setting course node).renewed then node
        else address_node course level }
{}

/// No move has more writes than the most.
pub fn moves_are_short()
    ensures { MovesAreShort }
{}

/// More steps only add writes at the end.
pub fn writes_joined()
    ensures { (setting : Setting) (course : Course) (steps more : List Step)
        → writes setting course (steps ++ more) ≡ writes setting course steps
        ++ writes setting (after_steps setting course steps) more }
{}

/// A move may come to another node of the network while the subscriber is on, unless it has made
/// 2^32 - 1 moves; never to where it is.
pub fn moves_that_may_come()
    ensures may { (setting : Setting) (course : Course) (node : ℕ) → node < setting.nodes
        → node ≢ last_stop course → course.is_off ≡ false → length course.moves < 4294967295
        → MayStep setting course (move_to node) }
    ensures still { (setting : Setting) (course : Course)
        → MayStep setting course (move_to (last_stop course)) → ⊥ }
    ensures few { (setting : Setting) (course : Course) (node : ℕ)
        → MayStep setting course (move_to node)
        → length course.moves < 4294967295 }
{}
