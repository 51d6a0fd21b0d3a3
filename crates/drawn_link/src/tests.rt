use crate::run::{LinkEnd, link_run};
use draws::Draws;
use std::test::Fail;

/// What a listing over a link came to, in a few numbers: requests, places and, where it completed,
/// pages, refusals and rows.
fn shown(end: &LinkEnd) -> [u64; 5] {
    let given = end.given;
    let places = end.places.as_slice().len() as u64;
    match &end.result {
        Ok(listing) => [
            given,
            places,
            u64::from(listing.pages),
            u64::from(listing.refused),
            listing.rows.len() as u64,
        ],
        Err(_) => [given, places, 0, 0, 0],
    }
}

#[test]
fn a_number_draws_one_listing(rt: HostRuntime) -> Result<(), Fail> {
    for number in [7, 0, u64::MAX] {
        let first = shown(&link_run(rt.alloc(), Draws::of(number))?);
        let again = link_run(rt.alloc(), Draws::of(number))?;
        if let Err(fault) = &again.result {
            let _ = println!(rt; "{fault:?}");
        }
        assert!(rt; first == shown(&again), "{number}");
    }
    Ok(())
}
