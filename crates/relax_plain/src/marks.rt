//! The actions that are still to be looked at.

ghost use Rattle.std.specs.Prelude.{◌≡◌, ◌<◌, ◌≤◌, All, length, replicate, false, true, slice_set, MatchOption, IfOk, ℕ};
ghost use Rattle.relax_plain.specs.Marks.{is_marked, MarksMore};

use num_ends::NoMemory;
use std::alloc::Global;
use std::marker::Model;

/// A mark per action. None is set below `from`, so a search for the next one begins there.
#[derive(Drop)]
pub(crate) struct Marks {
    marks: Vec<bool>,
    from: usize,
}

impl Model for Marks {
    ghost use Rattle.std.specs.Prelude.{List, Bool};
    ghost use Rattle.relax_plain.specs.Marks.{IsQuietBelow};

    ghost Value = { List Bool };

    ghost view = { λ m. m.marks.items };

    ghost invariant = { λ m. IsQuietBelow m.marks.items m.from };
}

/// The first mark that is set from here on.
fn first_set(marks: &[bool], from: usize) -> Option<usize>
    ensures { MatchOption result
        ((number : ℕ) → from ≤ number → is_marked marks.now number ≡ false)
        (λ number. (number < length marks.now) × (is_marked marks.now number ≡ true) × ((before : ℕ) → from ≤ before → before < number → is_marked marks.now before ≡ false)) }
{
    'search: for number in from..marks.len() {
        if marks[number] {
            return Some(number);
        }
    }
    None
}

impl Marks {
    /// So many marks, all set.
    pub(crate) fn all(alloc: Global, count: usize) -> Result<Marks, NoMemory>
        ensures { IfOk result (λ m. m ≡ replicate count true) }
    {
        let marks = vec![in alloc; true; count]?;
        Ok(Marks { marks, from: 0 })
    }

    /// Takes away the first mark and gives its number, or `None` where none is set.
    pub(crate) fn next(&mut self) -> Option<usize>
        ensures { MatchOption result
            (((number : ℕ) → is_marked self.old number ≡ false) × (self.new ≡ self.old))
            (λ number. (number < length self.old) × (is_marked self.old number ≡ true) × (self.new ≡ slice_set self.old number false)) }
    {
        match first_set(self.marks.as_slice(), self.from) {
            Some(number) => {
                self.marks[number] = false;
                self.from = number + 1;
                Some(number)
            }
            None => None,
        }
    }

    fn set(&mut self, number: usize)
        requires known { number < length self.old }
        ensures { self.new ≡ slice_set self.old number true }
    {
        self.marks[number] = true;
        self.from = self.from.min(number);
    }

    /// Sets these marks too.
    pub(crate) fn set_all(&mut self, numbers: &[u32])
        requires known { All (λ number. number < length self.old) numbers.now }
        ensures { MarksMore numbers.now self.old self.new }
    {
        'each: for number in numbers {
            self.set(*number as usize);
        }
    }
}
