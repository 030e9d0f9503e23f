//! What is answered to a text, and the grammar.

ghost use Rattle.std.specs.Prelude.{◌≡◌, ◌⊎◌, ℕ, List};
ghost use Rattle.pddl_terms.specs.declared.files.Domain.{Domain};
ghost use Rattle.pddl_terms.specs.declared.files.Problem.{Problem};
ghost use Rattle.pddl_trees.specs.Domains.{domain_in};
ghost use Rattle.pddl_trees.specs.Problems.{problem_in};
ghost use Rattle.pddl_grammar.specs.Domains.{SpellsDomain};
ghost use Rattle.pddl_grammar.specs.Problems.{SpellsProblem};
ghost use Rattle.pddl_reader.specs.declared.faults.ReadFault.{ReadFault};
ghost use Rattle.pddl_reader.specs.Answers.{IsReadFault};

/// Each text of which a domain is to be read spells a domain or has a first fault, and not both, and one first fault at
/// most. So the call that reads domains answers each text as it must, but for want of memory.
pub fn domains_are_answered()
    ensures some { (text : List ℕ) → ((domain : Domain) × SpellsDomain text domain) ⊎ ((fault : ReadFault) × IsReadFault Domain domain_in text fault) }
    ensures refused { (text : List ℕ) (fault : ReadFault) (domain : Domain) → IsReadFault Domain domain_in text fault → SpellsDomain text domain → ⊥ }
    ensures fault { (text : List ℕ) (first second : ReadFault) → IsReadFault Domain domain_in text first → IsReadFault Domain domain_in text second → first ≡ second }
{}

/// Each text of which a problem is to be read spells a problem or has a first fault, and not both, and one first fault at
/// most. So the call that reads problems answers each text as it must, but for want of memory.
pub fn problems_are_answered()
    ensures some { (text : List ℕ) → ((problem : Problem) × SpellsProblem text problem) ⊎ ((fault : ReadFault) × IsReadFault Problem problem_in text fault) }
    ensures refused { (text : List ℕ) (fault : ReadFault) (problem : Problem) → IsReadFault Problem problem_in text fault → SpellsProblem text problem → ⊥ }
    ensures fault { (text : List ℕ) (first second : ReadFault) → IsReadFault Problem problem_in text first → IsReadFault Problem problem_in text second → first ≡ second }
{}
