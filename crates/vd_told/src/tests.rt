//! An answer that is told through the bound, kept and printed.

use crate::Told;
use std::test::Fail;
use vd_answers::Hears;
use vd_model::{Answer, Item, Tag};

/// Tells one of each kind, through the bound alone.
fn tell_id<T: Hears>(told: &mut T)
    requires { T.is_ready told.old }
{
    told.fields(&[Item::Word(Tag::Id), Item::Number(7)]);
}

#[test]
fn an_answer_is_kept_and_printed(rt: HostRuntime) -> Result<(), Fail> {
    let mut told = Told::new(rt.alloc())?;
    tell_id(&mut told);
    assert_eq!(rt; told.printed.bytes.as_slice(), b"ok id 7\n".as_slice());
    let Some(Answer::Done(items)) = &told.kept.answer else {
        return Err("not done".into());
    };
    let is_id = matches!(items.as_slice(), [Item::Word(Tag::Id), Item::Number(7)]);
    assert!(rt; is_id);
    Ok(())
}

#[test]
fn a_fault_is_kept_and_printed(rt: HostRuntime) -> Result<(), Fail> {
    let mut told = Told::new(rt.alloc())?;
    told.answer(Answer::BadId { id: 3 });
    assert_eq!(rt; told.printed.bytes.as_slice(), b"used bad 3\n".as_slice());
    assert!(rt; matches!(&told.kept.answer, Some(Answer::BadId { id: 3 })));
    Ok(())
}
