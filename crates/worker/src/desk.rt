use std::alloc::Global;

/// Where a worker works: its number, counted from 0, its port and its clock.
#[derive(Drop)]
pub struct Desk<P, C> {
    pub alloc: Global,
    pub who: u32,
    pub port: P,
    pub clock: C,
}
