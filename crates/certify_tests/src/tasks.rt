//! Small tasks, each by the texts of a domain and a problem.

/// The texts of a domain and a problem.
pub(crate) type Pair = (&'static str, &'static str);

const TANK_DOMAIN: &str = "(define (domain tank) (:functions (water))
 (:action leak :effect (decrease (water) 1)))";

const DRY: &str =
    "(define (problem dry) (:domain tank) (:init (= (water) 0)) (:goal (>= (water) 1)))";

const CELLS_DOMAIN: &str = "(define (domain cells) (:functions (mass))
 (:action grow :effect (increase (mass) (* (mass) (mass))))
 (:action split :precondition (> (mass) 2) :effect (decrease (mass) 1)))";

// A tank that only loses water is to be filled.
pub(crate) const TANK: Pair = (TANK_DOMAIN, DRY);

// Stairs that end at the second floor are to lead to the fifth.
pub(crate) const STAIRS: Pair = (
    "(define (domain stairs) (:functions (floor))
 (:action climb :precondition (< (floor) 2) :effect (increase (floor) 1)))",
    "(define (problem roof) (:domain stairs) (:init (= (floor) 0)) (:goal (>= (floor) 5)))",
);

// Of two lamps the one without a wire is to be lit.
pub(crate) const LAMPS: Pair = (
    "(define (domain lamps) (:predicates (lit ?l) (wired ?l))
 (:action light :parameters (?l) :precondition (wired ?l) :effect (lit ?l))
 (:action cut :parameters (?l) :effect (and (not (wired ?l)) (not (lit ?l)))))",
    "(define (problem dark) (:domain lamps) (:objects a b) (:init (wired a)) (:goal (lit b)))",
);

// Scales with a fact and two fluents, of one and of two decimal places.
pub(crate) const SCALES: Pair = (
    "(define (domain scales) (:predicates (level)) (:functions (left) (right))
 (:action add :precondition (<= (left) 1) :effect (and (increase (left) 0.5) (not (level))))
 (:action tare :precondition (level) :effect (assign (right) 0.25)))",
    "(define (problem far) (:domain scales) (:init (= (left) 0) (= (right) 0.25) (level))
 (:goal (and (>= (left) 3) (>= (right) 0) (level))))",
);

// Cells grow by their square and split, and are to be fewer than none.
pub(crate) const CELLS: Pair = (
    CELLS_DOMAIN,
    "(define (problem less) (:domain cells) (:init (= (mass) 0)) (:goal (< (mass) 0)))",
);

// The same with the other action first.
pub(crate) const SPLITS: Pair = (
    "(define (domain splits) (:functions (mass))
 (:action split :precondition (> (mass) 2) :effect (decrease (mass) 1))
 (:action grow :effect (increase (mass) (* (mass) (mass)))))",
    "(define (problem less) (:domain splits) (:init (= (mass) 0)) (:goal (< (mass) 0)))",
);

// The same cells, whose square is to be above four.
pub(crate) const AREAS: Pair = (
    CELLS_DOMAIN,
    "(define (problem area) (:domain cells) (:init (= (mass) 0)) (:goal (> (* (mass) (mass)) 4)))",
);

// A goal that never holds leaves no fact and no fluent.
pub(crate) const NOTHING: Pair = (
    "(define (domain d) (:functions (x)) (:action a :effect (increase (x) 1)))",
    "(define (problem p) (:domain d) (:init (= (x) 0)) (:goal (or)))",
);

// More supporters than a search takes.
pub(crate) const CROWD: Pair = (
    "(define (domain crowd) (:functions (f0) (f1) (f2) (f3) (f4) (f5))
 (:action up :parameters (?a ?b ?c) :effect (and (increase (f0) 1) (increase (f1) 1) (increase (f2) 1) (increase (f3) 1) (increase (f4) 1) (increase (f5) 1))))",
    "(define (problem many) (:domain crowd) (:objects a b c d e f g h i j k l m n o p q r s t u v w x y z)
 (:init (= (f0) 0) (= (f1) 0) (= (f2) 0) (= (f3) 0) (= (f4) 0) (= (f5) 0))
 (:goal (and (>= (f0) 1) (>= (f1) 1) (>= (f2) 1) (>= (f3) 1) (>= (f4) 1) (>= (f5) 1))))",
);

// A fluent that an action assigns has no value at first.
pub(crate) const UNSET: Pair = (
    "(define (domain d) (:functions (x) (y))
 (:action a :effect (assign (x) 1)))",
    "(define (problem p) (:domain d) (:init (= (y) 0)) (:goal (>= (y) 1)))",
);

// A domain with an unknown name.
pub(crate) const UNKNOWN: Pair = (
    "(define (domain d) (:action a :effect (increase (z) 1)))",
    DRY,
);

// A problem that has no end.
pub(crate) const UNENDED: Pair = (TANK_DOMAIN, "(define (problem p)");
