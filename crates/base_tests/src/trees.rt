//! Lists and guards.
use amdl_tree::{Boxed, List, Lit, NoMemory};

#[test]
fn lists_change(rt: HostRuntime) -> Result<(), NoMemory> {
    let mut list = List::new(rt.alloc());
    list.push(1)?;
    list.push(3)?;
    list.insert(1, 2)?;
    assert!(rt; list.as_slice() == [1, 2, 3].as_slice());
    assert!(rt; list.remove(0) == 1);
    assert!(rt; list.replace(1, 4) == 3);
    assert!(rt; list.as_slice() == [2, 4].as_slice());
    Ok(())
}

#[test]
fn guards_compare(rt: HostRuntime) -> Result<(), NoMemory> {
    let denied = Lit::Not(Boxed::new(rt.alloc(), Lit::True)?);
    let doubly = Lit::Not(Boxed::new(rt.alloc(), Lit::Not(Boxed::new(rt.alloc(), Lit::True)?))?);
    assert!(rt; denied == Lit::Not(Boxed::new(rt.alloc(), Lit::True)?));
    assert!(rt; denied != doubly);
    assert!(rt; doubly != Lit::True);
    Ok(())
}
