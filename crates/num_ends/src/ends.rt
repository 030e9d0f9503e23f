//! The ends of intervals.

ghost use Rattle.std.specs.Prelude.{◌≡◌, cond};
ghost use Rattle.num_ends.specs.Ends.{is_above, is_below, is_inhabited, is_end_below, lower_covers, upper_covers};

use crate::dec::Dec;

/// A lower or an upper end of an interval.
#[derive(Clone, Copy, Debug)]
pub enum End {
    /// Below every decimal.
    NegInf,
    /// An open end: the decimal itself is left out.
    Excl(Dec),
    /// A closed end: the decimal itself is a member.
    Incl(Dec),
    /// Above every decimal.
    PosInf,
}

impl End {
    /// Whether a decimal lies on the inner side of this lower end.
    pub(crate) fn is_above(&self, d: Dec) -> bool
        ensures { result ≡ is_above self.now d }
    {
        match self {
            End::NegInf => true,
            End::Excl(e) => e.is_less(d),
            End::Incl(e) => e.is_at_most(d),
            End::PosInf => false,
        }
    }

    /// Whether a decimal lies on the inner side of this upper end.
    pub(crate) fn is_below(&self, d: Dec) -> bool
        ensures { result ≡ is_below self.now d }
    {
        match self {
            End::NegInf => false,
            End::Excl(e) => d.is_less(*e),
            End::Incl(e) => d.is_at_most(*e),
            End::PosInf => true,
        }
    }

    /// Whether some decimal lies between this lower end and an upper one.
    pub(crate) fn is_inhabited(&self, upper: &End) -> bool
        ensures { result ≡ is_inhabited self.now upper.now }
    {
        match (self, upper) {
            (End::PosInf, _) | (_, End::NegInf) => false,
            (End::NegInf, _) | (_, End::PosInf) => true,
            (End::Incl(a), End::Incl(b)) => a.is_at_most(*b),
            (End::Incl(a), End::Excl(b)) => a.is_less(*b),
            (End::Excl(a), End::Incl(b)) => a.is_less(*b),
            (End::Excl(a), End::Excl(b)) => a.is_less(*b),
        }
    }

    /// Whether some value past this lower end is less than some value before an upper one.
    pub(crate) fn is_end_below(&self, upper: &End) -> bool
        ensures { result ≡ is_end_below self.now upper.now }
    {
        match (self, upper) {
            (End::PosInf, _) | (_, End::NegInf) => false,
            (End::NegInf, _) | (_, End::PosInf) => true,
            (End::Incl(a), End::Incl(b)) => a.is_less(*b),
            (End::Incl(a), End::Excl(b)) => a.is_less(*b),
            (End::Excl(a), End::Incl(b)) => a.is_less(*b),
            (End::Excl(a), End::Excl(b)) => a.is_less(*b),
        }
    }

    /// Whether this lower end is as far out as another.
    pub fn lower_covers(&self, other: &End) -> bool
        ensures { result ≡ lower_covers self.now other.now }
    {
        match (self, other) {
            (End::NegInf, _) | (_, End::PosInf) => true,
            (End::PosInf, _) | (_, End::NegInf) => false,
            (End::Incl(a), End::Incl(b)) => a.is_at_most(*b),
            (End::Incl(a), End::Excl(b)) => a.is_at_most(*b),
            (End::Excl(a), End::Incl(b)) => a.is_less(*b),
            (End::Excl(a), End::Excl(b)) => a.is_at_most(*b),
        }
    }

    /// Whether this upper end is as far out as another.
    pub fn upper_covers(&self, other: &End) -> bool
        ensures { result ≡ upper_covers self.now other.now }
    {
        match (self, other) {
            (End::PosInf, _) | (_, End::NegInf) => true,
            (End::NegInf, _) | (_, End::PosInf) => false,
            (End::Incl(a), End::Incl(b)) => b.is_at_most(*a),
            (End::Incl(a), End::Excl(b)) => b.is_at_most(*a),
            (End::Excl(a), End::Incl(b)) => b.is_less(*a),
            (End::Excl(a), End::Excl(b)) => b.is_at_most(*a),
        }
    }

    /// The further out of two lower ends.
    pub(crate) fn lower_hull(&self, other: &End) -> End
        ensures { result ≡ cond (lower_covers self.now other.now) self.now other.now }
    {
        if self.lower_covers(other) {
            *self
        } else {
            *other
        }
    }

    /// The further out of two upper ends.
    pub(crate) fn upper_hull(&self, other: &End) -> End
        ensures { result ≡ cond (upper_covers self.now other.now) self.now other.now }
    {
        if self.upper_covers(other) {
            *self
        } else {
            *other
        }
    }
}
