//! What the grammar has to do with what the trees of a text say.

ghost use Rattle.std.specs.Prelude.{◌≡◌, ◌≤◌, ◌^◌, ℕ, List, [], length};
ghost use Rattle.sexp_text.specs.declared.trees.Tree.{Tree};
ghost use Rattle.sexp_text.specs.Trees.{AreTrees};
ghost use Rattle.pddl_terms.specs.declared.files.Domain.{Domain};
ghost use Rattle.pddl_terms.specs.declared.files.Problem.{Problem};
ghost use Rattle.pddl_terms.specs.Readable.{IsReadableDomain, IsReadableProblem};
ghost use Rattle.pddl_trees.specs.Domains.{domain_in};
ghost use Rattle.pddl_trees.specs.Problems.{problem_in};
ghost use Rattle.pddl_trees.specs.Texts.{SaysWithoutFault};
ghost use Rattle.pddl_grammar.specs.Domains.{SpellsDomain};
ghost use Rattle.pddl_grammar.specs.Problems.{SpellsProblem};

/// A text whose trees say a domain without a fault spells this domain, and the trees of a text that spells a domain say
/// it without a fault. So a text spells at most one domain. Trees without a fault spell one. What is spelled is readable.
pub fn domains_are_spelled()
    ensures read { (text : List ℕ) (trees : List Tree) (domain : Domain) → SaysWithoutFault Domain text trees (domain_in text trees) domain
        → SpellsDomain text domain }
    ensures again { (text : List ℕ) (domain : Domain) → SpellsDomain text domain
        → (trees : List Tree) × SaysWithoutFault Domain text trees (domain_in text trees) domain }
    ensures one { (text : List ℕ) (first second : Domain) → SpellsDomain text first → SpellsDomain text second → first ≡ second }
    ensures faultless { (text : List ℕ) (trees : List Tree) → AreTrees text trees → (domain_in text trees).faults ≡ []
        → (domain : Domain) × SpellsDomain text domain }
    ensures readable { (text : List ℕ) (domain : Domain) → length text ≤ 2 ^ 30 → SpellsDomain text domain → IsReadableDomain domain }
{}

/// A text whose trees say a problem without a fault spells this problem, and the trees of a text that spells a problem say
/// it without a fault. So a text spells at most one problem. Trees without a fault spell one. What is spelled is readable.
pub fn problems_are_spelled()
    ensures read { (text : List ℕ) (trees : List Tree) (problem : Problem) → SaysWithoutFault Problem text trees (problem_in text trees) problem
        → SpellsProblem text problem }
    ensures again { (text : List ℕ) (problem : Problem) → SpellsProblem text problem
        → (trees : List Tree) × SaysWithoutFault Problem text trees (problem_in text trees) problem }
    ensures one { (text : List ℕ) (first second : Problem) → SpellsProblem text first → SpellsProblem text second → first ≡ second }
    ensures faultless { (text : List ℕ) (trees : List Tree) → AreTrees text trees → (problem_in text trees).faults ≡ []
        → (problem : Problem) × SpellsProblem text problem }
    ensures readable { (text : List ℕ) (problem : Problem) → length text ≤ 2 ^ 30 → SpellsProblem text problem → IsReadableProblem problem }
{}
