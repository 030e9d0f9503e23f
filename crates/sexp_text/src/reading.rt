//! Trees from marks in order, with a stack of the brackets that are open.

ghost use Rattle.std.specs.Prelude.{◌≡◌, ◌≢◌, ◌+◌, ◌^◌, ◌<◌, ◌≤◌, ◌∷◌, [], ◌++◌, Some, None, IfErr, IfOk, OnOk, length};
ghost use Rattle.sexp_text.specs.declared.marks.Mark.TheVariants as marks;
ghost use Rattle.sexp_text.specs.declared.trees.SexpFault.TheVariants as faults;
ghost use Rattle.sexp_text.specs.Reading.{IsPlaced};
ghost use Rattle.sexp_text.specs.Trees.{marked, AreTrees, IsTextFault};
ghost use Rattle.sexp_text.specs.Open.{marks_read, depth_of, depth_after, IsRefusal, outermost};

use crate::marks::{Mark, Marked, Span};
use crate::scan::next_mark;
use crate::trees::{SexpFault, Tree};
use sqlite_items::Items;
use std::alloc::Global;
use std::mem::replace;

/// How many brackets may be open at once.
const MOST_OPEN: usize = 64;

// The trees before a bracket that is open, and the place of the bracket.
#[derive(Drop)]
struct Outer {
    trees: Vec<Tree>,
    bracket: u32,
}

// The brackets that are open, from the outermost on, and the trees behind the last of them.
#[derive(Drop)]
struct Reading {
    outer: Vec<Outer>,
    trees: Vec<Tree>,
}

impl Reading {
    fn leaf(&mut self, span: Span) -> Result<(), SexpFault>
        ensures marks { OnOk result (marks_read self.new ≡ marks_read self.old ++ marked marks.Leaf span.from span.to ∷ []) }
        ensures depth { OnOk result (depth_of self.new ≡ depth_of self.old) }
        ensures err { IfErr result (λ fault. fault ≡ faults.NoMemory) }
    {
        self.trees.push(Tree::Leaf(span))?;
        Ok(())
    }

    fn opening(&mut self, alloc: Global, at: u32) -> Result<(), SexpFault>
        ensures marks { OnOk result (marks_read self.new ≡ marks_read self.old ++ marked marks.Opening at (at + 1) ∷ []) }
        ensures depth { OnOk result (depth_of self.new ≡ depth_of self.old + 1) }
        ensures err { IfErr result (λ fault. fault ≡ faults.NoMemory) }
    {
        let trees = replace(&mut self.trees, Vec::new(alloc));
        self.outer.push(Outer { trees, bracket: at })?;
        Ok(())
    }

    fn closing(&mut self, at: u32) -> Result<(), SexpFault>
        requires { at < 2 ^ 30 }
        ensures marks { OnOk result (marks_read self.new ≡ marks_read self.old ++ marked marks.Closing at (at + 1) ∷ []) }
        ensures depth { OnOk result (depth_of self.new + 1 ≡ depth_of self.old) }
        ensures err { IfErr result (λ fault. IsRefusal (marked marks.Closing at (at + 1)) (depth_of self.old) fault) }
    {
        let Some(Outer { trees, bracket }) = self.outer.pop() else {
            return Err(SexpFault::Stray(at));
        };
        let inner = replace(&mut self.trees, trees);
        let span = Span {
            from: bracket,
            to: at + 1,
        };
        self.trees.push(Tree::List(span, Items::from_vec(inner)))?;
        Ok(())
    }

    // Takes the next mark.
    fn take(&mut self, alloc: Global, mark: Marked) -> Result<(), SexpFault>
        requires placed { IsPlaced mark.mark mark.span.from mark.span.to }
        requires few { mark.span.to ≤ 2 ^ 30 }
        ensures marks { OnOk result (marks_read self.new ≡ marks_read self.old ++ mark ∷ []) }
        ensures depth { OnOk result (depth_after mark.mark (depth_of self.old) ≡ Some (depth_of self.new)) }
        ensures err { IfErr result (λ fault. IsRefusal mark (depth_of self.old) fault) }
    {
        match mark.mark {
            Mark::Leaf => self.leaf(mark.span),
            Mark::Closing => self.closing(mark.span.from),
            Mark::Opening => {
                if self.outer.len() == MOST_OPEN {
                    return Err(SexpFault::TooDeep(mark.span.from));
                }
                self.opening(alloc, mark.span.from)
            }
        }
    }

    // The trees, where no bracket is open.
    fn finish(self) -> Result<Vec<Tree>, SexpFault>
        ensures ok { IfOk result (λ trees. (outermost self.outer.items ≡ None) × (trees ≡ self.trees)) }
        ensures err { IfErr result (λ fault. (position : _) × (outermost self.outer.items ≡ Some position) × (fault ≡ faults.Unclosed position)) }
    {
        let Reading { outer, trees } = self;
        match outer.first() {
            None => Ok(trees),
            Some(open) => Err(SexpFault::Unclosed(open.bracket)),
        }
    }
}

/// The trees of a text in order, of which there are none where a byte isn't allowed outside a comment, a bracket has no
/// partner, or more than 64 brackets are open at once. The first fault in the order of the text is answered, and a
/// bracket that isn't closed where there is no other fault. Without memory for the trees the error says so, and nothing
/// of the text.
pub fn read_trees(alloc: Global, bytes: &[u8]) -> Result<Vec<Tree>, SexpFault>
    requires { length bytes.now ≤ 2 ^ 30 }
    ensures trees { IfOk result (λ trees. AreTrees bytes.now trees.items) }
    ensures fault { IfErr result (λ fault. fault ≢ faults.NoMemory → IsTextFault bytes.now fault) }
{
    let mut reading = Reading {
        outer: Vec::new(alloc),
        trees: Vec::new(alloc),
    };
    let mut at = 0;
    loop {
        match next_mark(bytes, at) {
            Ok(Some(mark)) => {
                reading.take(alloc, mark)?;
                at = mark.span.to as usize;
            }
            Ok(None) => return reading.finish(),
            Err(position) => return Err(SexpFault::BadByte(position)),
        }
    }
}
