//! Answers that are told through the bound, and kept.

use crate::{Hears, Kept, tell};
use std::test::Fail;
use vd_model::{Answer, Item, Tag};
use vd_num::Errno;

/// Tells an identity, through the bound alone.
fn tell_id<T: Hears>(told: &mut T, id: u64)
    requires { T.is_ready told.old }
{
    told.fields(&[Item::Word(Tag::Id), Item::Number(id)]);
}

#[test]
fn fields_are_kept(rt: HostRuntime) -> Result<(), Fail> {
    let mut kept = Kept::new(rt.alloc())?;
    tell_id(&mut kept, 7);
    let Some(Answer::Done(items)) = &kept.answer else {
        return Err("not done".into());
    };
    let is_id = matches!(items.as_slice(), [Item::Word(Tag::Id), Item::Number(7)]);
    assert!(rt; is_id);
    Ok(())
}

#[test]
fn texts_are_kept(rt: HostRuntime) -> Result<(), Fail> {
    let mut short = Kept::new(rt.alloc())?;
    short.short_text(&[1, 2]);
    let mut long = Kept::new(rt.alloc())?;
    long.text(&[1, 2])?;
    for kept in [short, long] {
        let Some(Answer::Done(items)) = &kept.answer else {
            return Err("not done".into());
        };
        let [Item::Text(text)] = items.as_slice() else {
            return Err("no text".into());
        };
        assert_eq!(rt; text.as_slice(), [1, 2].as_slice());
    }
    Ok(())
}

#[test]
fn an_end_is_told(rt: HostRuntime) -> Result<(), Fail> {
    let mut done = Kept::new(rt.alloc())?;
    tell(&mut done, Ok(()));
    assert!(rt; matches!(&done.answer, Some(Answer::Done(items)) if items.as_slice().is_empty()));
    let mut refused = Kept::new(rt.alloc())?;
    tell(&mut refused, Err(Errno::Inval));
    assert!(rt; matches!(&refused.answer, Some(Answer::Err(Errno::Inval))));
    Ok(())
}
