//! Laws of decimals and intervals over members, for every count of places and numbers of any size. Each function
//! states one and does nothing.

ghost use Rattle.std.specs.Prelude.{◌≡◌, ◌↔◌, ◌≤◌, ℕ, List, Bool, IsTrue, not};
ghost use Rattle.num_ends.specs.Decimal.{Decimal, is_less, is_at_most, is_same_value, sum_of, difference_of, product_of, trimmed};
ghost use Rattle.num_ends.specs.declared.ends.End.{End};
ghost use Rattle.num_ends.specs.Ends.{Interval, has, is_above, is_below, lower_covers, upper_covers, is_within, hull_of, may_less, may_less_equal, may_equal};
ghost use Rattle.num_ends.specs.Texts.{IsNumeral};
ghost use Rattle.num_ends.specs.Arithmetic.{HasPlaces, end_at, outward_of, interval_sum, interval_difference, interval_product};
ghost use Rattle.num_ends.specs.Laws.{IsInhabited, HasMember, MeetLess, MeetAtMost, MeetEqual, HoldsMembers, PlacesUpTo, BothPlaces, FitsLower, FitsUpper};

/// Decimals are in one total order, up to equal values.
pub fn order()
    ensures less { (a b c : Decimal) → IsTrue (is_less a b) → IsTrue (is_less b c) → IsTrue (is_less a c) }
    ensures at_most { (a b c : Decimal) → IsTrue (is_at_most a b) → IsTrue (is_at_most b c) → IsTrue (is_at_most a c) }
    ensures less_at_most { (a b c : Decimal) → IsTrue (is_less a b) → IsTrue (is_at_most b c) → IsTrue (is_less a c) }
    ensures at_most_less { (a b c : Decimal) → IsTrue (is_at_most a b) → IsTrue (is_less b c) → IsTrue (is_less a c) }
    ensures total { (a b : Decimal) → is_at_most a b ≡ not (is_less b a) }
    ensures same { (a b : Decimal) → IsTrue (is_same_value a b) ↔ (IsTrue (is_at_most a b) × IsTrue (is_at_most b a)) }
{}

/// Equal values have one trimmed decimal, which is the one of the fewest places.
pub fn trimmed()
    ensures same { (a b : Decimal) → IsTrue (is_same_value a b) ↔ (trimmed a ≡ trimmed b) }
    ensures value { (d : Decimal) → IsTrue (is_same_value (trimmed d) d) }
    ensures again { (d : Decimal) → trimmed (trimmed d) ≡ trimmed d }
    ensures fewest { (a b : Decimal) → IsTrue (is_same_value a b) → (trimmed a).p ≤ b.p }
{}

/// What is said of decimals, and what is made of them, depends on their values alone: it is the same of trimmed ones.
pub fn values()
    ensures less { (a b : Decimal) → is_less (trimmed a) (trimmed b) ≡ is_less a b }
    ensures at_most { (a b : Decimal) → is_at_most (trimmed a) (trimmed b) ≡ is_at_most a b }
    ensures same { (a b : Decimal) → is_same_value (trimmed a) (trimmed b) ≡ is_same_value a b }
    ensures sum { (a b : Decimal) → trimmed (sum_of (trimmed a) (trimmed b)) ≡ trimmed (sum_of a b) }
    ensures difference { (a b : Decimal) → trimmed (difference_of (trimmed a) (trimmed b)) ≡ trimmed (difference_of a b) }
    ensures product { (a b : Decimal) → trimmed (product_of (trimmed a) (trimmed b)) ≡ trimmed (product_of a b) }
{}

/// An end that is as far out as another leaves out no decimal that the other lets in.
pub fn ends()
    ensures lower { (l k : End) (d : Decimal) → IsTrue (lower_covers l k) → IsTrue (is_above k d) → IsTrue (is_above l d) }
    ensures upper { (u v : End) (d : Decimal) → IsTrue (upper_covers u v) → IsTrue (is_below v d) → IsTrue (is_below u d) }
    ensures lower_itself { (l : End) → IsTrue (lower_covers l l) }
    ensures upper_itself { (u : End) → IsTrue (upper_covers u u) }
    ensures lower_chain { (l k m : End) → IsTrue (lower_covers l k) → IsTrue (lower_covers k m) → IsTrue (lower_covers l m) }
    ensures upper_chain { (u v w : End) → IsTrue (upper_covers u v) → IsTrue (upper_covers v w) → IsTrue (upper_covers u w) }
{}

/// A pair of ends is inhabited exactly where some decimal lies between them.
pub fn members()
    ensures { (i : Interval) → IsInhabited i ↔ HasMember i }
{}

/// The three tests tell exactly whether some members stand so.
pub fn meetings()
    ensures less { (i j : Interval) → IsInhabited i → IsInhabited j → IsTrue (may_less i j) ↔ MeetLess i j }
    ensures at_most { (i j : Interval) → IsInhabited i → IsInhabited j → IsTrue (may_less_equal i j) ↔ MeetAtMost i j }
    ensures equal { (i j : Interval) → IsInhabited i → IsInhabited j → IsTrue (may_equal i j) ↔ MeetEqual i j }
{}

/// An inhabited interval is within another exactly where each of its members is a member of the other.
pub fn within()
    ensures { (i j : Interval) → IsInhabited i → IsTrue (is_within i j) ↔ HoldsMembers i j }
{}

/// The hull is the least interval around both.
pub fn hull()
    ensures first { (i j : Interval) → IsTrue (is_within i (hull_of i j)) }
    ensures second { (i j : Interval) → IsTrue (is_within j (hull_of i j)) }
    ensures least { (i j k : Interval) → IsTrue (is_within i k) → IsTrue (is_within j k) → IsTrue (is_within (hull_of i j) k) }
{}

/// What is combined of members is a member of what is combined of intervals.
pub fn arithmetic()
    ensures sum { (i j : Interval) (a b : Decimal) → IsTrue (has i a) → IsTrue (has j b) → IsTrue (has (interval_sum i j) (sum_of a b)) }
    ensures difference { (i j : Interval) (a b : Decimal) → IsTrue (has i a) → IsTrue (has j b) → IsTrue (has (interval_difference i j) (difference_of a b)) }
    ensures product { (i j : Interval) (a b : Decimal) → IsTrue (has i a) → IsTrue (has j b) → IsTrue (has (interval_product i j) (product_of a b)) }
{}

/// An interval is within the one that is moved outward, a wider one gives a wider one, ends that fit stay, and each
/// finite end has the asked count of places.
pub fn outward()
    ensures around { (q : ℕ) (i : Interval) → PlacesUpTo q i → IsTrue (is_within i (outward_of q i)) }
    ensures wider { (q : ℕ) (i j : Interval) → PlacesUpTo q i → PlacesUpTo q j → IsTrue (is_within i j) → IsTrue (is_within (outward_of q i) (outward_of q j)) }
    ensures kept { (q : ℕ) (i : Interval) → FitsLower q i.0 → FitsUpper q i.1 → outward_of q i ≡ (end_at q i.0, end_at q i.1) }
    ensures lower_places { (q : ℕ) (i : Interval) → HasPlaces q (outward_of q i).0 }
    ensures upper_places { (q : ℕ) (i : Interval) → HasPlaces q (outward_of q i).1 }
{}

/// Wider intervals give wider ones, where the places of the ends are the same.
pub fn widening()
    ensures sum { (p q : ℕ) (i j m n : Interval) → BothPlaces p i m → BothPlaces q j n → IsInhabited i → IsInhabited j → IsTrue (is_within i m) → IsTrue (is_within j n) → IsTrue (is_within (interval_sum i j) (interval_sum m n)) }
    ensures difference { (p q : ℕ) (i j m n : Interval) → BothPlaces p i m → BothPlaces q j n → IsInhabited i → IsInhabited j → IsTrue (is_within i m) → IsTrue (is_within j n) → IsTrue (is_within (interval_difference i j) (interval_difference m n)) }
    ensures product { (p q : ℕ) (i j m n : Interval) → BothPlaces p i m → BothPlaces q j n → IsInhabited i → IsInhabited j → IsTrue (is_within i m) → IsTrue (is_within j n) → IsTrue (is_within (interval_product i j) (interval_product m n)) }
{}

/// A text writes one decimal at most.
pub fn numerals()
    ensures { (text : List ℕ) (d e : Decimal) → IsNumeral text d → IsNumeral text e → d ≡ e }
{}
