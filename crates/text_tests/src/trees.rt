//! The marks and trees of small texts.

ghost use Rattle.std.specs.Prelude.{◌≤◌, ◌^◌, length};

use num_ends::folded_text;
use sexp_text::{Mark, SexpFault, Span, Tree, is_word, next_mark, read_trees};
use std::alloc::Global;
use std::test::Fail;

#[test]
fn marks_stand_in_order(rt: HostRuntime) -> Result<(), Fail> {
    let text = b" (Ab; (c)\n?x-1\t)";
    let expected = [
        (Mark::Opening, 1, 2),
        (Mark::Leaf, 2, 4),
        (Mark::Leaf, 10, 14),
        (Mark::Closing, 15, 16),
    ];
    let mut at = 0;
    for (mark, from, to) in expected {
        assert!(rt; at <= text.len());
        let next = next_mark(text, at).ok().ok_or("a bad byte")?;
        let marked = next.ok_or("the end")?;
        assert!(rt; marked.mark == mark);
        assert!(rt; marked.span.from == from && marked.span.to == to);
        at = marked.span.to as usize;
    }
    assert!(rt; at <= text.len());
    assert!(rt; next_mark(text, at) == Ok(None));
    Ok(())
}

#[test]
fn a_byte_that_is_not_allowed_has_its_position(rt: HostRuntime) -> Result<(), Fail> {
    assert!(rt; next_mark(b" ; \xff\n \xc3", 0) == Err(6));
    assert!(rt; next_mark(b"\x7f", 0) == Err(0));
    Ok(())
}

#[test]
fn letters_are_folded(rt: HostRuntime) -> Result<(), Fail> {
    let alloc = rt.alloc();
    let text = folded_text(alloc, b"Ab-Z[1]")?;
    assert_eq!(rt; text.as_slice(), b"ab-z[1]".as_slice());
    assert!(rt; is_word(b"aB", b"ab") && !is_word(b"ab", b"abc") && !is_word(b"abc", b"ab"));
    Ok(())
}

// The fault of a text, where it has one.
fn fault_of(alloc: Global, text: &[u8]) -> Option<SexpFault>
    requires { length text.now ≤ 2 ^ 30 }
{
    match read_trees(alloc, text) {
        Ok(_) => None,
        Err(fault) => Some(fault),
    }
}

#[test]
fn trees_have_their_places(rt: HostRuntime) -> Result<(), Fail> {
    let alloc = rt.alloc();
    let trees = read_trees(alloc, b"(a (bc))d ; (")?;
    assert_eq!(rt; trees.len(), 2);
    let is_list = match &trees[0] {
        Tree::List(span, inner) => {
            let inner = inner.as_slice();
            assert_eq!(rt; inner.len(), 2);
            let is_leaf = match &inner[0] {
                Tree::Leaf(span) => *span == Span { from: 1, to: 2 },
                _ => false,
            };
            let is_inner_list = match &inner[1] {
                Tree::List(span, words) => *span == Span { from: 3, to: 7 } && words.len() == 1,
                _ => false,
            };
            *span == Span { from: 0, to: 8 } && is_leaf && is_inner_list
        }
        _ => false,
    };
    assert!(rt; is_list);
    let is_leaf = match &trees[1] {
        Tree::Leaf(span) => *span == Span { from: 8, to: 9 },
        _ => false,
    };
    assert!(rt; is_leaf);
    Ok(())
}

#[test]
fn the_first_fault_is_answered(rt: HostRuntime) -> Result<(), Fail> {
    let alloc = rt.alloc();
    assert!(rt; fault_of(alloc, b"(a) ; )").is_none());
    assert!(rt; fault_of(alloc, b"").is_none());
    assert!(rt; fault_of(alloc, b"(a)) (") == Some(SexpFault::Stray(3)));
    assert!(rt; fault_of(alloc, b"(a)\xc3)") == Some(SexpFault::BadByte(3)));
    assert!(rt; fault_of(alloc, b"() ( (a) (") == Some(SexpFault::Unclosed(3)));
    assert!(rt; fault_of(alloc, b"( \x00") == Some(SexpFault::BadByte(2)));
    Ok(())
}

#[test]
fn brackets_are_open_to_a_depth(rt: HostRuntime) -> Result<(), Fail> {
    let alloc = rt.alloc();
    let deep =
        b"(((((((((((((((((((((((((((((((((((((((((((((((((((((((((((((((())))))))))))))))))))))))))))))))))))))))))))))))))))))))))))))))";
    assert!(rt; fault_of(alloc, deep).is_none());
    let deeper = b"(((((((((((((((((((((((((((((((((((((((((((((((((((((((((((((((((";
    assert!(rt; fault_of(alloc, deeper) == Some(SexpFault::TooDeep(64)));
    Ok(())
}
