//! What every record has in common, as laws. Each function states some and does nothing.

ghost use Rattle.std.specs.Prelude.{◌≡◌, ◌≢◌, ◌<◌, ◌≤◌, ℕ, Some, false};
ghost use Rattle.ground_task.specs.Placed.{IsPlaced};
ghost use Rattle.ground_task.specs.States.{StateValue};
ghost use Rattle.ground_task.specs.Tasks.{TaskValue};
ghost use Rattle.dead_ends.specs.Reachable.{IsDeadState, initial_state};
ghost use Rattle.explored.specs.declared.classes.Most.{Most};
ghost use Rattle.plain_runs.specs.Alike.{AreAlike};
ghost use Rattle.search_runs.specs.Runs.{has_starve};
ghost use Rattle.search_runs.specs.Spaces.{IsAt};
ghost use Rattle.search_runs.specs.declared.answers.Answer.{Answer};
ghost use Rattle.search_runs.specs.declared.answers.Answer.TheVariants as answer;
ghost use Rattle.search_runs.specs.declared.nodes.Node.{Node};
ghost use Rattle.search_records.specs.Claims.{Claims};
ghost use Rattle.search_records.specs.Complete.{HasRoom, IsDecided};
ghost use Rattle.search_records.specs.Nodes.{AreWithinEachOther, IsRightStatus};
ghost use Rattle.search_records.specs.Records.{IsLegalWithin, IsPlainWithin, IsSound, answer_in, config_of};
ghost use Rattle.search_records.specs.declared.record.Record.{Record};

/// The answer of a legal record holds of its task.
pub fn answers_claim()
    ensures { (most : Most) (t : TaskValue) (limit workers : ℕ) (r : Record) (a : Answer) → 0 < most.states → 0 < most.boxes
        → IsPlaced t.raw t.places → IsLegalWithin most t limit workers r → answer_in r ≡ Some a
        → Claims t limit most r.journal (config_of r) a }
{}

/// The status of each node of a legal record is right for its state.
pub fn statuses_are_right()
    ensures { (most : Most) (t : TaskValue) (limit workers : ℕ) (r : Record) (n : ℕ) (x : Node StateValue) → 0 < most.states
        → 0 < most.boxes → IsPlaced t.raw t.places → IsLegalWithin most t limit workers r → IsAt r.nodes n x
        → IsRightStatus t workers r.boxes x.state x.status }
{}

/// What the nodes, the boxes and the site of a legal record name is there.
pub fn legal_records_are_sound()
    ensures { (most : Most) (t : TaskValue) (limit workers : ℕ) (r : Record) → 0 < most.states → 0 < most.boxes
        → most.states ≤ 1000000000 → most.boxes ≤ 1000000000 → IsPlaced t.raw t.places → IsLegalWithin most t limit workers r → IsSound r }
{}

/// A plain record is a legal one of one worker. Where no worker starved, two plain records of one task and one limit are
/// one but for the form of their boxes.
pub fn plain_records()
    ensures legal { (most : Most) (t : TaskValue) (limit : ℕ) (r : Record) → IsPlainWithin most t limit r
        → IsLegalWithin most t limit 1 r }
    ensures one { (most : Most) (t : TaskValue) (limit : ℕ) (q r : Record) → IsPlainWithin most t limit q
        → IsPlainWithin most t limit r → has_starve q.journal ≡ false → has_starve r.journal ≡ false
        → AreAlike AreWithinEachOther q.journal (config_of q) r.journal (config_of r) }
{}

/// Where no worker starved, a legal record has a plan, or that there is none, where the limit and the bounds leave room for all
/// that may be reached and no number leaves its range there. It has that there is none where the initial state is dead.
pub fn enough_room_decides()
    ensures room { (most : Most) (t : TaskValue) (limit workers : ℕ) (r : Record) (a : Answer) → 0 < most.states
        → 0 < most.boxes → IsPlaced t.raw t.places → IsLegalWithin most t limit workers r → answer_in r ≡ Some a
        → a ≢ answer.Starved → HasRoom t limit most → IsDecided a }
    ensures dead { (most : Most) (t : TaskValue) (limit workers : ℕ) (r : Record) (a : Answer) → 0 < most.states
        → 0 < most.boxes → IsPlaced t.raw t.places → IsLegalWithin most t limit workers r → answer_in r ≡ Some a
        → a ≢ answer.Starved → IsDeadState t (initial_state t) → a ≡ answer.Exhausted }
{}
