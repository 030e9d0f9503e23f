//! What the words of a box say.

ghost use Rattle.std.specs.Prelude.{◌≡◌, ◌<◌, ◌+◌, ◌*◌, ℕ, length};
ghost use Rattle.box_model.specs.Boxes.{fact_in, fluent_in};
ghost use Rattle.box_model.specs.declared.state_box.StateBox.{StateBox};
ghost use Rattle.box_words.specs.Words.{words_of, width_of, box_of, fact_at, interval_at, IsEndWords, IsWordable};

/// The words of a box are so many as its numbers of facts and of fluents say, and they decode to the box: each fact and
/// each fluent alone, and so the whole.
pub fn words_decode()
    ensures count { (b : StateBox) → length (words_of b) ≡ width_of (length b.facts) (length b.fluents) }
    ensures facts { (b : StateBox) (f : ℕ) → f < length b.facts → fact_at (words_of b) f ≡ fact_in b f }
    ensures fluents { (b : StateBox) (x : ℕ) → IsWordable b → x < length b.fluents → interval_at (length b.facts) (words_of b) x ≡ fluent_in b x }
    ensures whole { (b : StateBox) → IsWordable b → box_of (length b.facts) (length b.fluents) (words_of b) ≡ b }
{}

/// In the words of a box each end of a fluent is infinite or at a decimal of the code.
pub fn ends_are_decimals()
    ensures lower { (b : StateBox) (x : ℕ) → IsWordable b → x < length b.fluents → IsEndWords (words_of b) (length b.facts + 8 * x) }
    ensures upper { (b : StateBox) (x : ℕ) → IsWordable b → x < length b.fluents → IsEndWords (words_of b) (length b.facts + 8 * x + 4) }
{}
