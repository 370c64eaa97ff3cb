//! The counts of two semaphores after each call, worked by hand.

use std::test::Fail;
use sync_objects::Semas;
use tx_types::ObjNo;

#[test]
fn each_count_is_its_own(rt: HostRuntime) -> Result<(), Fail> {
    let mut semas = Semas::new(rt.alloc()).map_err(|_| "no memory")?;
    let (first, last) = (ObjNo::new(0), ObjNo::new(255));
    assert_eq!(rt; (semas.get(first), semas.get(last)), (0, 0));
    semas.create(first, 3);
    semas.create(last, 0xFFFF_FFFF);
    semas.set(first, 2);
    assert_eq!(rt; (semas.get(first), semas.get(last)), (2, 0xFFFF_FFFF));
    semas.remove(last);
    assert_eq!(rt; (semas.get(first), semas.get(last)), (2, 0));
    Ok(())
}
