//! What the reading of a text has to do with its pieces.

ghost use Rattle.std.specs.Prelude.{◌≡◌, ◌⊎◌, ℕ, List, Some, None};
ghost use Rattle.sexp_text.specs.Pieces.{Piece, Token, IsTextOf, SpellsTokens};
ghost use Rattle.sexp_text.specs.declared.trees.Tree.{Tree};
ghost use Rattle.sexp_text.specs.declared.trees.SexpFault.{SexpFault};
ghost use Rattle.sexp_text.specs.Trees.{AreTrees, IsTextFault};
ghost use Rattle.sexp_text.specs.Reading.{items_at, items_of_pieces, tokens_said};

/// The items of a text are those of its pieces, and a text says tokens exactly where it is read as these tokens.
/// So it says at most one list of tokens, and none where it is not read.
pub fn reading_is_exact()
    ensures places { (text : List ℕ) (pieces : List Piece) → IsTextOf pieces text → items_at text 0 ≡ items_of_pieces 0 pieces }
    ensures said { (text : List ℕ) (tokens : List Token) → SpellsTokens text tokens → tokens_said (items_at text 0) ≡ Some tokens }
    ensures read { (text : List ℕ) (tokens : List Token) → tokens_said (items_at text 0) ≡ Some tokens → SpellsTokens text tokens }
    ensures one { (text : List ℕ) (first second : List Token) → SpellsTokens text first → SpellsTokens text second → first ≡ second }
    ensures none { (text : List ℕ) → tokens_said (items_at text 0) ≡ None → (tokens : List Token) → SpellsTokens text tokens → ⊥ }
{}

/// A text has trees or a first fault, and not both; it has one list of trees or one first fault. So the call that reads
/// trees answers each text as it must, but for want of memory.
pub fn text_has_one_answer()
    ensures some { (text : List ℕ) → ((trees : List Tree) × AreTrees text trees) ⊎ ((fault : SexpFault) × IsTextFault text fault) }
    ensures trees { (text : List ℕ) (first second : List Tree) → AreTrees text first → AreTrees text second → first ≡ second }
    ensures trees_or_fault { (text : List ℕ) (trees : List Tree) (fault : SexpFault) → AreTrees text trees → IsTextFault text fault → ⊥ }
    ensures fault { (text : List ℕ) (first second : SexpFault) → IsTextFault text first → IsTextFault text second → first ≡ second }
{}
