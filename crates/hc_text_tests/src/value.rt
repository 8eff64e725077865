// The places of the values are SQLite's: "Sort Order" of https://www.sqlite.org/datatype3.html.
use crate::made::{blob, ladder, text};
use hc_value::{Blob, Class, Str, Value, class, cmp, copy};
use std::alloc::Global;
use std::test::Fail;

#[test]
fn values_stand_in_one_order(rt: HostRuntime) -> Result<(), Fail> {
    let values = ladder(rt.alloc())?;
    for (i, a) in values.iter().enumerate() {
        for (j, b) in values.iter().enumerate() {
            assert_eq!(rt; cmp(a, b), i.cmp(&j), "{a:?} and {b:?}");
            assert_eq!(rt; *a == *b, i == j);
        }
    }
    Ok(())
}

#[test]
fn a_copy_is_the_same_value_of_the_same_class(rt: HostRuntime) -> Result<(), Fail> {
    let values = ladder(rt.alloc())?;
    for value in &values {
        let copied = copy(rt.alloc(), value)?;
        assert_eq!(rt; copied, *value);
        assert_eq!(rt; class(&copied), class(value));
    }
    Ok(())
}

#[test]
fn each_value_has_its_class(rt: HostRuntime) -> Result<(), Fail> {
    let alloc = rt.alloc();
    assert_eq!(rt; class(&Value::Null), Class::Null);
    assert_eq!(rt; class(&Value::Int(7)), Class::Int);
    assert_eq!(rt; class(&text(alloc, "7")?), Class::Text);
    assert_eq!(rt; class(&blob(alloc, b"7")?), Class::Blob);
    Ok(())
}

#[test]
fn texts_and_blobs_are_made_of_what_is_there(rt: HostRuntime) -> Result<(), Fail> {
    let alloc = rt.alloc();
    let taken = Str::from_string(String::from_str(alloc, "grün")?);
    assert_eq!(rt; taken.as_bytes(), b"gr\xc3\xbcn".as_slice());
    assert_eq!(rt; taken, Str::from_text(alloc, "grün")?);
    let bytes = [0u8, 255].to_vec(alloc)?;
    assert_eq!(rt;
        Blob::from_vec(bytes),
        Blob::from_slice(alloc, b"\x00\xff")?
    );
    Ok(())
}
