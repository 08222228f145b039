//! Workers, plays and runs that aren't any: each is wrong in one part.
ghost use Rattle.std.specs.Prelude.{◌≡◌, ◌+◌, ◌^◌, ◌<◌, [], ◌∷◌, ℕ, List, None, Some, suc, take};
ghost use Rattle.directory.specs.Histories.{IsFront};
ghost use Rattle.directory.specs.Legal.{IsLegal};
ghost use Rattle.directory.specs.Orders.{history_of};
ghost use Rattle.directory.specs.Outcomes.{Outcome};
ghost use Rattle.distances.specs.Table.{DistanceTable};
ghost use Rattle.entry_word.specs.declared.visit.Visit.{Visit};
ghost use Rattle.machine.specs.Stands.{BelongTogether, setting_over};
ghost use Rattle.net_reader.specs.Input.{Contents};
ghost use Rattle.plan_laws.specs.Examples.{line_of_four};
ghost use Rattle.region_plan.specs.Plan.{PlanData};
ghost use Rattle.scripts.specs.Scripts.{scripts_of};
ghost use Rattle.station.specs.Passes.{IsPassOf, PassData, TrackerData};
ghost use Rattle.station.specs.Setup.{Setup, setting_in, subs_in};
ghost use Rattle.station.specs.Turns.{event_actor};
ghost use Rattle.station.specs.declared.view.TurnEvent.{TurnEvent};
ghost use Rattle.station.specs.declared.view.TurnEvent.TheVariants.{GivenBack, Lost, Won};
ghost use Rattle.runner.specs.Examples.{HasSeen, count_by, idle_input, line_setup, moving_input, moving_visits, switching_input};
ghost use Rattle.runner.specs.Playing.{next_of};
ghost use Rattle.runner.specs.Roles.{IsSetFor};
ghost use Rattle.runner.specs.Runs.{AreFreshWorkers, AreWorkersOf, HasFinished, IsOutcomeOfRun, actors_of};
ghost use Rattle.runner.specs.Workers.{HasPlayed, HasStayed, IsWorkerOf, KeptNone};
ghost use Rattle.runner.specs.declared.finder.Finder.{Finder};
ghost use Rattle.runner.specs.declared.mover.Mover.{Mover};
ghost use Rattle.runner.specs.declared.role.Role.TheVariants as roles;
ghost use Rattle.runner.specs.declared.worker.Played.{Played};
ghost use Rattle.runner.specs.declared.worker.Played.TheVariants.{Finished, Stopped};
ghost use Rattle.runner.specs.declared.worker.Worker.{Worker};

/// A worker has a pass of the tracker, in no node, and serves an actor of the input by that actor's
/// own script. Each visit of the pass was its actor's next one, and is counted; and there is room
/// for the visits that are left, and for no more than a pass may have.
pub fn wrong_workers()
    ensures of { (input : Contents) (tracker : TrackerData) (worker : Worker)
        → IsWorkerOf input tracker worker → IsPassOf tracker worker.pass }
    ensures inside { (input : Contents) (tracker : TrackerData) (worker : Worker)
        → IsWorkerOf input tracker worker → worker.pass.view.inside ≡ Some 1 → ⊥ }
    ensures unknown { (tracker : TrackerData) (worker : Worker) → HasSeen worker 2 []
        → IsWorkerOf idle_input tracker worker → ⊥ }
    ensures unplayed { (tracker : TrackerData) (worker : Worker) → tracker.setup ≡ line_setup
        → HasSeen worker 1 (count_by 1 ∷ []) → IsWorkerOf idle_input tracker worker → ⊥ }
    ensures uncounted { (input : Contents) (tracker : TrackerData) (worker : Worker)
        → HasSeen worker 1 [] → worker.made ≡ 1 → IsWorkerOf input tracker worker → ⊥ }
    ensures no_room { (tracker : TrackerData) (worker : Worker) → tracker.setup ≡ line_setup
        → HasSeen worker 0 [] → worker.pass.spare ≡ 0
        → IsWorkerOf switching_input tracker worker → ⊥ }
    ensures room { (input : Contents) (tracker : TrackerData) (worker : Worker)
        → worker.pass.spare ≡ 2 ^ 56 + 1 → IsWorkerOf input tracker worker → ⊥ }
    ensures caller { (tracker : TrackerData) (worker : Worker) (mover : Mover)
        → HasSeen worker 1 [] → worker.role ≡ roles.Mover mover
        → IsWorkerOf idle_input tracker worker → ⊥ }
    ensures subscriber { (tracker : TrackerData) (worker : Worker) (finder : Finder)
        → HasSeen worker 0 [] → worker.role ≡ roles.Finder finder
        → IsWorkerOf idle_input tracker worker → ⊥ }
    ensures script { (tracker : TrackerData) (worker : Worker) (mover : Mover)
        → HasSeen worker 0 [] → worker.role ≡ roles.Mover mover → mover.script.items ≡ []
        → IsWorkerOf switching_input tracker worker → ⊥ }
{}

/// A play goes on from what its pass had seen, by the same actor at the same seat. It is finished
/// where no visit is left, with no more turns lost than it had tries, and it stops where one is
/// left and its tries are used up, by the turns that it lost and the gates that were closed. For
/// each visit that it makes it wins a turn at the visit's node and gives it back, and it wins no
/// other; and each turn is lost at the node of the visit that comes next in the order of these
/// visits, neither sooner nor later. At a shut gate it loses no turn, and its pass and its count
/// stay as they are.
pub fn wrong_plays()
    ensures finished { (input : Contents) (tracker : TrackerData) (tries : ℕ) (old new : Worker)
        (visit : Visit) → HasPlayed input tracker tries old new Finished
        → next_of input tracker.setup new.pass.view ≡ Some visit → ⊥ }
    ensures many { (input : Contents) (tracker : TrackerData) (old new : Worker)
        → HasPlayed input tracker 0 old new Finished → old.pass.view.lost ≡ []
        → new.pass.view.lost ≡ record { node = 2; word = 6 } ∷ [] → ⊥ }
    ensures stopped { (input : Contents) (tracker : TrackerData) (tries held kept : ℕ)
        (old new : Worker) → HasPlayed input tracker tries old new (Stopped held kept)
        → next_of input tracker.setup new.pass.view ≡ None → ⊥ }
    ensures early { (input : Contents) (tracker : TrackerData) (old new : Worker)
        → HasPlayed input tracker 10 old new (Stopped 3 4) → ⊥ }
    ensures unlost { (input : Contents) (tracker : TrackerData) (tries kept : ℕ)
        (old new : Worker) → HasPlayed input tracker tries old new (Stopped 1 kept)
        → new.pass.view.lost ≡ old.pass.view.lost → ⊥ }
    ensures unmade { (input : Contents) (tracker : TrackerData) (tries : ℕ) (old new : Worker)
        (played : Played) → HasSeen old 0 [] → HasSeen new 0 []
        → (has : HasPlayed input tracker tries old new played)
        → has.gone.events ≡ Won 0 2 ∷ GivenBack 0 2 ∷ [] → ⊥ }
    ensures stranger { (input : Contents) (tracker : TrackerData) (tries : ℕ) (old new : Worker)
        (played : Played) (event : TurnEvent) (events : List TurnEvent) → HasSeen old 0 []
        → (has : HasPlayed input tracker tries old new played)
        → has.gone.events ≡ event ∷ events → event_actor event ≡ 1 → ⊥ }
    ensures unlogged { (input : Contents) (tracker : TrackerData) (tries : ℕ) (old new : Worker)
        (played : Played) → new.pass.view.turns ≡ []
        → (has : HasPlayed input tracker tries old new played)
        → has.gone.events ≡ Won 0 2 ∷ [] → ⊥ }
    ensures roomy { (input : Contents) (tracker : TrackerData) (tries : ℕ) (old new : Worker)
        (played : Played) → HasPlayed input tracker tries old new played → new.made ≡ old.made
        → new.pass.spare ≡ suc old.pass.spare → ⊥ }
    ensures idle { (tracker : TrackerData) (tries : ℕ) (old new : Worker)
        → tracker.setup ≡ line_setup → HasSeen old 1 [] → HasSeen new 1 []
        → old.pass.view.lost ≡ [] → new.pass.view.lost ≡ record { node = 2; word = 6 } ∷ []
        → HasPlayed idle_input tracker tries old new Finished → ⊥ }
    ensures elsewhere { (tracker : TrackerData) (tries : ℕ) (old new : Worker) (played : Played)
        → tracker.setup ≡ line_setup → HasSeen old 0 [] → HasSeen new 0 []
        → old.pass.view.lost ≡ [] → new.pass.view.lost ≡ record { node = 2; word = 6 } ∷ []
        → HasPlayed switching_input tracker tries old new played → ⊥ }
    ensures sooner { (tracker : TrackerData) (tries : ℕ) (old new : Worker) (played : Played)
        → tracker.setup ≡ line_setup → HasSeen old 0 (take 1 moving_visits)
        → HasSeen new 0 (take 1 moving_visits)
        → (has : HasPlayed moving_input tracker tries old new played)
        → has.gone.events ≡ Lost 0 2 2 ∷ [] → ⊥ }
    ensures later { (tracker : TrackerData) (tries : ℕ) (old new : Worker) (played : Played)
        → tracker.setup ≡ line_setup → HasSeen old 0 [] → HasSeen new 0 []
        → (has : HasPlayed moving_input tracker tries old new played)
        → has.gone.events ≡ Lost 0 0 2 ∷ [] → ⊥ }
    ensures ahead { (tracker : TrackerData) (tries count : ℕ) (old new : Worker) (played : Played)
        (events : List TurnEvent) → tracker.setup ≡ line_setup → HasSeen old 0 []
        → HasSeen new 0 (take (suc count) moving_visits)
        → (has : HasPlayed moving_input tracker tries old new played)
        → has.gone.events ≡ Lost 0 3 2 ∷ events → ⊥ }
    ensures behind { (tracker : TrackerData) (tries : ℕ) (old new : Worker) (played : Played)
        → tracker.setup ≡ line_setup → HasSeen old 0 [] → HasSeen new 0 (take 1 moving_visits)
        → (has : HasPlayed moving_input tracker tries old new played)
        → has.gone.events ≡ Won 0 2 ∷ GivenBack 0 2 ∷ Lost 0 2 2 ∷ [] → ⊥ }
    ensures aside { (tracker : TrackerData) (tries : ℕ) (old new : Worker) (played : Played)
        → tracker.setup ≡ line_setup → HasSeen old 0 [] → HasSeen new 0 (take 1 moving_visits)
        → (has : HasPlayed moving_input tracker tries old new played)
        → has.gone.events ≡ Won 0 3 ∷ GivenBack 0 3 ∷ [] → ⊥ }
    ensures held { (tracker : TrackerData) (tries : ℕ) (old new : Worker) (played : Played)
        → tracker.setup ≡ line_setup → HasSeen old 0 [] → HasSeen new 0 (take 1 moving_visits)
        → (has : HasPlayed moving_input tracker tries old new played)
        → has.gone.events ≡ Won 0 2 ∷ [] → ⊥ }
    ensures forgotten { (input : Contents) (tracker : TrackerData) (tries : ℕ) (old new : Worker)
        (played : Played) → HasSeen old 1 (count_by 0 ∷ []) → HasSeen new 1 []
        → HasPlayed input tracker tries old new played → ⊥ }
    ensures actor { (input : Contents) (tracker : TrackerData) (tries : ℕ) (old new : Worker)
        (played : Played) → HasSeen old 0 [] → HasSeen new 1 []
        → HasPlayed input tracker tries old new played → ⊥ }
    ensures seat { (input : Contents) (tracker : TrackerData) (tries : ℕ) (old new : Worker)
        (played : Played) → HasPlayed input tracker tries old new played
        → new.pass.seat ≡ suc old.pass.seat → ⊥ }
    ensures serves { (input : Contents) (tracker : TrackerData) (tries : ℕ) (old new : Worker)
        (played : Played) → HasPlayed input tracker tries old new played
        → IsWorkerOf input tracker new }
    ensures closed { KeptNone (Stopped 2 1) → ⊥ }
    ensures shut { (old new : Worker) → HasStayed old new (Stopped 1 2) → ⊥ }
    ensures visited { (old new : Worker) (played : Played) → HasSeen old 0 []
        → HasSeen new 0 (count_by 0 ∷ []) → HasStayed old new played → ⊥ }
    ensures counted { (old new : Worker) (played : Played) → new.made ≡ suc old.made
        → HasStayed old new played → ⊥ }
{}

/// A run has a worker for each actor, in their order, on a tracker that was made for its input; and
/// it opens with workers that have made no visit, lost no turn and begun no call. Once it is
/// finished, its history has all that a worker has seen, no other visits, and each as its actor's
/// next one; its outcome is that of its order, and the history of that order begins with its own.
pub fn wrong_runs()
    ensures few { (tracker : TrackerData) (worker : Worker)
        → AreWorkersOf idle_input tracker (worker ∷ []) → ⊥ }
    ensures swapped { (input : Contents) (tracker : TrackerData) (worker other : Worker)
        → HasSeen worker 1 [] → AreWorkersOf input tracker (worker ∷ other ∷ []) → ⊥ }
    ensures serves { (input : Contents) (tracker : TrackerData) (worker other : Worker)
        → AreWorkersOf input tracker (worker ∷ other ∷ []) → IsWorkerOf input tracker other }
    ensures visited { (tracker : TrackerData) (worker : Worker) → HasSeen worker 0 (count_by 0 ∷ [])
        → AreFreshWorkers tracker (worker ∷ []) → ⊥ }
    ensures turned { (tracker : TrackerData) (worker : Worker)
        → worker.pass.view.lost ≡ record { node = 2; word = 6 } ∷ []
        → AreFreshWorkers tracker (worker ∷ []) → ⊥ }
    ensures counted { (tracker : TrackerData) (worker : Worker) → worker.made ≡ 1
        → AreFreshWorkers tracker (worker ∷ []) → ⊥ }
    ensures begun { (tracker : TrackerData) (worker : Worker) (mover : Mover)
        → worker.role ≡ roles.Mover mover → mover.begun ≡ 1
        → AreFreshWorkers tracker (worker ∷ []) → ⊥ }
    ensures done { (tracker : TrackerData) (worker : Worker) (finder : Finder)
        → worker.role ≡ roles.Finder finder → finder.done ≡ 1
        → AreFreshWorkers tracker (worker ∷ []) → ⊥ }
    ensures plan { (input : Contents) (setup : Setup) (plan : PlanData) (distances : DistanceTable)
        → IsSetFor input setup plan distances → setup.plan ≡ plan }
    ensures distances { (input : Contents) (setup : Setup) (plan : PlanData)
        (distances : DistanceTable) → IsSetFor input setup plan distances
        → BelongTogether input plan distances }
    ensures home { (setup : Setup) (plan : PlanData) (distances : DistanceTable)
        → IsSetFor idle_input setup plan distances → setup.homes ≡ 2 ∷ [] → ⊥ }
    ensures actors { (setup : Setup) (plan : PlanData) (distances : DistanceTable)
        → IsSetFor idle_input setup plan distances → setup.actors ≡ 3 → ⊥ }
    ensures unheard { (input : Contents) (setup : Setup) (worker : Worker) (outcome : Outcome)
        → HasSeen worker 0 (count_by 1 ∷ [])
        → (run : HasFinished input setup (worker ∷ []) outcome) → run.history ≡ [] → ⊥ }
    ensures more { (input : Contents) (setup : Setup) (worker : Worker) (outcome : Outcome)
        → HasSeen worker 0 [] → (run : HasFinished input setup (worker ∷ []) outcome)
        → run.history ≡ count_by 0 ∷ [] → ⊥ }
    ensures stranger { (input : Contents) (setup : Setup) (worker : Worker) (outcome : Outcome)
        → (run : HasFinished input setup (worker ∷ []) outcome)
        → run.history ≡ count_by 1 ∷ [] → ⊥ }
    ensures legal { (input : Contents) (setup : Setup) (workers : List Worker) (outcome : Outcome)
        → (run : HasFinished input setup workers outcome) → (sub : ℕ) → sub < subs_in setup
        → IsLegal (setting_in setup) sub run.history }
    ensures unplayed { (workers : List Worker) (outcome : Outcome)
        → (run : HasFinished idle_input line_setup workers outcome)
        → run.history ≡ count_by 1 ∷ [] → ⊥ }
    ensures outcome { (workers : List Worker) (outcome : Outcome)
        → (run : HasFinished idle_input line_setup workers outcome)
        → run.history ≡ [] → outcome.order ≡ 1 ∷ [] → ⊥ }
    ensures begins { (input : Contents) (setup : Setup) (workers : List Worker) (outcome : Outcome)
        → (run : HasFinished input setup workers outcome) → IsFront run.history
        (history_of (setting_in setup) (scripts_of input) (actors_of run.history)) }
    ensures unmade { IsOutcomeOfRun (setting_in line_setup) (scripts_of idle_input)
        (record { calls = []; order = 1 ∷ [] }) → ⊥ }
    ensures left_out { IsOutcomeOfRun (setting_in line_setup) (scripts_of switching_input)
        (record { calls = []; order = 0 ∷ [] }) → ⊥ }
{}
