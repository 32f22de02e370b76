//! Lists of the model and of numbers, each grown once.

use std::test::Fail;
use vd_model::{Item, Items, Part, Parts, Tag};
use vd_num::{Bytes, Lines, Name, Words};

/// What takes memory answers with its result where there is memory.
#[test]
fn lists_of_numbers_grow(rt: HostRuntime) -> Result<(), Fail> {
    let mut bytes = Bytes::new(rt.alloc());
    bytes.push(7)?;
    bytes.extend_from_slice(&[8, 9])?;
    assert_eq!(rt; bytes.as_slice(), [7, 8, 9].as_slice());
    let mut name = Name::new(rt.alloc());
    name.push(b'v')?;
    assert_eq!(rt; name.as_slice(), b"v".as_slice());
    let mut lines = Lines::new(rt.alloc());
    lines.push(3)?;
    assert_eq!(rt; lines.as_slice(), [3].as_slice());
    let words = Words::new(rt.alloc(), 5)?;
    assert_eq!(rt; words.len(), 5);
    Ok(())
}

/// The lists of the model, too.
#[test]
fn lists_of_the_model_grow(rt: HostRuntime) -> Result<(), Fail> {
    let mut items = Items::new(rt.alloc());
    items.push(Item::Word(Tag::Session))?;
    items.push(Item::Number(0))?;
    assert_eq!(rt; items.as_slice().len(), 2);
    let part = Part {
        at: 0x1000,
        len: 16,
        writable: false,
    };
    let mut parts = Parts::new(rt.alloc());
    parts.push(part)?;
    assert_eq!(rt; parts.as_slice(), [part].as_slice());
    Ok(())
}
