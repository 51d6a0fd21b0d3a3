use mode6_frame::{ItemFault, Items, read_items};
use std::alloc::{AllocError, Global};
use std::test::Fail;

/// The names, with a bar before each, and the values, with an equals sign before each.
fn barred(alloc: Global, items: &Items) -> Result<Vec<u8>, AllocError> {
    let mut text = Vec::new(alloc);
    for i in 0..items.len() {
        text.push(b'|')?;
        text.extend_from_slice(items.get(i).name.as_slice())?;
        if let Some(value) = &items.get(i).value {
            text.push(b'=')?;
            text.extend_from_slice(value.as_slice())?;
        }
    }
    Ok(text)
}

#[test]
fn items_are_read_and_white_space_and_empty_slots_skipped(rt: HostRuntime) -> Result<(), Fail> {
    let cases = [
        (b" \t\r\n".as_slice(), b"".as_slice()),
        (b",, ,".as_slice(), b"".as_slice()),
        (b" a\t,\r\n, b\r\n".as_slice(), b"|a|b".as_slice()),
        (b"!#~+<>{}".as_slice(), b"|!#~+<>{}".as_slice()),
        (b"a=,b = ,c=\"\"".as_slice(), b"|a=|b=|c=".as_slice()),
        (
            b"a\t=\r\n b =\tc \r\n, d=\"x, y \" ,e".as_slice(),
            b"|a=b =\tc|d=x, y |e".as_slice(),
        ),
    ];
    for (text, wanted) in cases {
        let items = read_items(rt.alloc(), text)?;
        assert!(rt; barred(rt.alloc(), &items)?.as_slice() == wanted);
    }
    Ok(())
}

#[test]
fn the_first_octet_at_which_no_text_goes_on_is_told(rt: HostRuntime) {
    let cases = [
        (b"a  \tb,=".as_slice(), 4),
        (b"=16".as_slice(), 0),
        (b"a, b\"".as_slice(), 4),
        (b"a,\x7f".as_slice(), 2),
        (b"a\x0b".as_slice(), 1),
        (b"a=b \"".as_slice(), 4),
        (b"a=b \n c".as_slice(), 6),
        (b"a=\"b\" c".as_slice(), 6),
        (b"a=\"b,\t".as_slice(), 5),
        (b"a=\"b, c=d".as_slice(), 9),
    ];
    for (text, place) in cases {
        let fault = read_items(rt.alloc(), text).err();
        assert_eq!(rt; fault, Some(ItemFault::At { place }), "{text:?}");
    }
}
