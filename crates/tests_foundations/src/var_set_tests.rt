use mc_varset::VarSet;
use std::test::Fail;

#[test]
fn with_memory_to_spare(rt: HostRuntime) -> Result<(), Fail> {
    let mut evens = VarSet::new(rt.alloc(), 5)?;
    evens.insert(0);
    evens.insert(2);
    evens.insert(4);
    let mut small = VarSet::new(rt.alloc(), 5)?;
    small.insert(0);
    small.insert(1);
    let mut all = evens.copy(rt.alloc())?;
    all.union_with(&small);
    assert!(rt; all.contains(1));
    assert!(rt; !all.contains(3));
    assert_eq!(rt; all.count(), 4);
    assert!(rt; evens.is_subset(&all));
    assert!(rt; !all.is_subset(&evens));
    all.minus(&small);
    all.remove(4);
    assert!(rt; all.contains(2));
    assert_eq!(rt; all.count(), 1);
    assert_eq!(rt; evens.count(), 3);
    Ok(())
}
