//! What the relation of texts and steps has to do with itself.

ghost use Rattle.std.specs.Prelude.{◌≡◌, ◌⊎◌, ℕ, List, flat_map, IsTrue};
ghost use Rattle.std.specs.List.{list_all};
ghost use Rattle.num_ends.specs.Names.{IsGroundText};
ghost use Rattle.plan_text.specs.declared.step.Step.{Step};
ghost use Rattle.plan_text.specs.Plans.{is_named, SpellsStep, IsSkipped, ReadsAs, IsFirstBad, step_line};

/// A text reads as one list of steps, or has one first bad line; not both. A line spells one step at most, and a skipped
/// line spells none. So the call that reads a plan answers each text as it must, but for want of
/// memory.
pub fn plan_has_one_reading()
    ensures step { (line : List ℕ) (first second : Step) → SpellsStep line first → SpellsStep line second → first ≡ second }
    ensures skipped { (line : List ℕ) (step : Step) → IsSkipped line → SpellsStep line step → ⊥ }
    ensures steps { (text : List ℕ) (first second : List Step) → ReadsAs text first → ReadsAs text second → first ≡ second }
    ensures some { (text : List ℕ) → ((steps : List Step) × ReadsAs text steps) ⊎ ((number : ℕ) × IsFirstBad text number) }
    ensures steps_or_bad { (text : List ℕ) (steps : List Step) (number : ℕ) → ReadsAs text steps → IsFirstBad text number → ⊥ }
    ensures bad { (text : List ℕ) (first second : ℕ) → IsFirstBad text first → IsFirstBad text second → first ≡ second }
{}

/// The lines of steps whose words are names in lower case read as these steps. The text of a ground action spells the
/// step of its names.
pub fn written_steps_are_read()
    ensures lines { (steps : List Step) → IsTrue (list_all is_named steps) → ReadsAs (flat_map step_line steps) steps }
    ensures ground_text { (text : List ℕ) (is : IsGroundText text) → SpellsStep text (record { name = is.name; args = is.objects }) }
{}
