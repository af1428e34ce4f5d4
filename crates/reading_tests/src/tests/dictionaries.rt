// Small dictionaries, where memory is ample.
use dictionary_core::{AddRefusal, Dictionary, bucket_of};
use forth_reader::Names;
use std::test::Fail;

#[test]
fn finds_the_newest(rt: HostRuntime) -> Result<(), Fail> {
    assert_eq!(rt; bucket_of("A"), 1);
    assert_eq!(rt; bucket_of("a"), 1);
    let mut words: Dictionary<u16> = Dictionary::new(rt.alloc())?;
    for (place, name) in ["A", "B", "a"].iter().enumerate() {
        assert_eq!(rt; words.add(name, place as u16), Ok(place as u32));
    }
    assert_eq!(rt; words.find("B"), Some((1, &1)));
    assert_eq!(rt; words.looks(), 1);
    assert_eq!(rt; words.find("A"), Some((2, &2)));
    assert_eq!(rt; words.len(), 3);
    assert_eq!(rt; words.older(2), Some(0));
    assert_eq!(rt; words.head(2), Some(1));
    let all = words.mark();
    words.forget_to(all);
    assert_eq!(rt; words.len(), 3);
    Ok(())
}

#[test]
fn forgets_and_fills(rt: HostRuntime) -> Result<(), Fail> {
    let mut words: Dictionary<u16> = Dictionary::new(rt.alloc())?;
    assert_eq!(rt; words.add("A", 0), Ok(0));
    assert_eq!(rt; words.add("B", 1), Ok(1));
    let two = words.mark();
    assert_eq!(rt; words.add("a", 2), Ok(2));
    assert_eq!(rt; words.look_up("a"), Some(2));
    words.forget_to(two);
    assert_eq!(rt; words.find("a"), Some((0, &0)));
    assert_eq!(rt; words.look_up("C"), None);
    for place in 2..512 {
        assert_eq!(rt; words.add("X", place), Ok(u32::from(place)));
    }
    assert_eq!(rt; words.add("Y", 512), Err((AddRefusal::Full, 512)));
    Ok(())
}

#[test]
fn counts_looks(rt: HostRuntime) -> Result<(), Fail> {
    let mut names = Names::new(rt.alloc())?;
    names.push("A")?;
    assert_eq!(rt; names.looks(), 0);
    assert!(rt; names.same(0, "a"));
    assert_eq!(rt; names.looks(), 1);
    names.cut(0);
    assert_eq!(rt; names.looks(), 1);
    Ok(())
}
