//! Texts and names on worked examples.

use num_ends::{List, Text, folded, folded_text, is_name, is_name_folded};

#[test]
fn texts_are_lists(rt: HostRuntime) {
    let mut text = Text::new(rt.alloc());
    assert!(rt; text.push(b'a').is_ok() && text.len() == 1);
    assert!(rt; text.as_slice() == b"a".as_slice());
    let mut list = List::from_vec(text.into_vec());
    assert!(rt; list.extend_from_slice(b"bc").is_ok() && list.len() == 3);
    list.truncate(2);
    assert!(rt; Text::from_vec(list.into_vec()).as_slice() == b"ab".as_slice());
}

#[test]
fn names_are_told(rt: HostRuntime) {
    let rows: [(&[u8], bool, bool); 12] = [
        (b"move", true, true),
        (b"Move", false, true),
        (b"_a-b.c_9", true, true),
        (b"z", true, true),
        (b"", false, false),
        (b"9a", false, false),
        (b"-a", false, false),
        (b".a", false, false),
        (b"a b", false, false),
        (b"?a", false, false),
        (b"a@", false, false),
        (b"a\x80", false, false),
    ];
    for (bytes, lower, any) in rows {
        assert_eq!(rt; is_name(bytes), lower);
        assert_eq!(rt; is_name_folded(bytes), any);
    }
}

#[test]
fn capital_letters_are_folded(rt: HostRuntime) {
    let rows = [
        (b'A', b'a'),
        (b'Z', b'z'),
        (b'@', b'@'),
        (b'[', b'['),
        (b'a', b'a'),
        (0xC4, 0xC4),
    ];
    for (byte, want) in rows {
        assert_eq!(rt; folded(byte), want);
    }
    match folded_text(rt.alloc(), b"Pick-UP?X") {
        Ok(text) => assert!(rt; text.as_slice() == b"pick-up?x".as_slice()),
        Err(_) => panic!(rt; "no memory"),
    }
}
