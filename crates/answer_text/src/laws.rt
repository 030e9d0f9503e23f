//! Laws of texts. Each function states some and does nothing.

ghost use Rattle.std.specs.Prelude.{◌≡◌, ◌≢◌, ◌<◌, ◌≤◌, ◌^◌, ℕ, List, All, false, length};
ghost use Rattle.std.specs.List.{concat};
ghost use Rattle.ground_task.specs.States.{StateValue};
ghost use Rattle.ground_task.specs.Tasks.{TaskValue};
ghost use Rattle.ground_task.specs.Valid.{IsValid};
ghost use Rattle.plan_text.specs.Plans.{ReadsAs};
ghost use Rattle.plan_text.specs.declared.step.Step.{Step};
ghost use Rattle.explored.specs.declared.classes.Most.{Most};
ghost use Rattle.search_runs.specs.Answers.{path_to};
ghost use Rattle.search_runs.specs.Runs.{has_starve};
ghost use Rattle.search_runs.specs.declared.answers.Answer.{Answer};
ghost use Rattle.search_runs.specs.declared.answers.Answer.TheVariants as answer;
ghost use Rattle.search_runs.specs.declared.nodes.Node.{Node};
ghost use Rattle.search_records.specs.Records.{answer_in, IsPlainWithin};
ghost use Rattle.search_records.specs.declared.record.Record.{Record};
ghost use Rattle.answer_text.specs.Readings.{AreStepsOf};
ghost use Rattle.answer_text.specs.Texts.{IsTextOf, plan_lines};

/// The text of a plan reads as the steps that the names of its ground actions spell. A path has no more actions than there are
/// nodes before its end.
pub fn plans_are_read()
    ensures steps { (t : TaskValue) (path : List ℕ) → IsValid t.raw → All (λ a. a < length t.raw.actions) path
        → length path < 2 ^ 64
        → (steps : List Step) × AreStepsOf t path steps × ReadsAs (concat (plan_lines t path)) steps }
    ensures short { (nodes : List (Node StateValue)) (n : ℕ) → length (path_to nodes n) ≤ n }
{}

/// Each answer but that of a starved worker has a text, and one.
pub fn answers_have_one_text()
    ensures one { (r : Record) (a : Answer) (text other : List ℕ) → IsTextOf r a text → IsTextOf r a other → text ≡ other }
    ensures some { (r : Record) (a : Answer) → a ≢ answer.Starved → (text : List ℕ) × IsTextOf r a text }
{}

/// Two plain records of one task and one limit, in which no worker starved, have one answer, and the text of the one is that of
/// the other.
pub fn plain_records_have_one_text()
    ensures answer { (most : Most) (t : TaskValue) (limit : ℕ) (q r : Record) → IsPlainWithin most t limit q
        → IsPlainWithin most t limit r → has_starve q.journal ≡ false → has_starve r.journal ≡ false
        → answer_in q ≡ answer_in r }
    ensures text { (most : Most) (t : TaskValue) (limit : ℕ) (q r : Record) (a : Answer) (text : List ℕ)
        → IsPlainWithin most t limit q → IsPlainWithin most t limit r → has_starve q.journal ≡ false
        → has_starve r.journal ≡ false → IsTextOf q a text → IsTextOf r a text }
{}
