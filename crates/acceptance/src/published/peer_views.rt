use super::unheard::unheard;
use std::test::Fail;
use sys_vars::PeerViews;

#[test]
fn views_are_pushed_assigned_and_cleared(rt: HostRuntime) -> Result<(), Fail> {
    let mut views = PeerViews::new(rt.alloc())?;
    views.push(unheard());
    let mut others = PeerViews::new(rt.alloc())?;
    others.assign(&views);
    views.clear();
    assert_eq!(rt; (views.len(), others.len()), (0, 1));
    assert_eq!(rt; *others.get(0), unheard());
    Ok(())
}
