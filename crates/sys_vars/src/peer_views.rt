ghost use Rattle.std.specs.Prelude.{◌≡◌, ◌≤◌, ◌<◌, ◌++◌, [], ◌∷◌, IfOk, IsOk, Some, length, slice_get, vec_capacity};
ghost use Rattle.std.specs.Option.{option_copied};
ghost use Rattle.sys_vars.specs.Variables.{peer_of};
ghost use Rattle.sys_vars.specs.declared.peer_views.TheConstants.{MAX_PEERS};

use crate::peer_view::PeerView;
use std::alloc::{AllocError, Global};
use std::marker::Model;

/// The most peers.
pub const MAX_PEERS: usize = 32;

/// What is published of the peers, in the order of their association numbers. There is room for the
/// most peers from the start, so that views are pushed, and made equal to others, without memory.
#[derive(Drop)]
pub struct PeerViews {
    views: Vec<PeerView>,
}

impl Model for PeerViews {
    ghost use Rattle.std.specs.Prelude.{◌≤◌, List, length, vec_capacity};
    ghost use Rattle.sys_vars.specs.declared.peer_view.PeerView.{PeerView};
    ghost use Rattle.sys_vars.specs.declared.peer_views.TheConstants.{MAX_PEERS};

    ghost Value = { List PeerView };

    ghost view = { λ v. v.views.items };

    ghost invariant = { λ v. (length v.views.items ≤ MAX_PEERS)
        × (MAX_PEERS ≤ vec_capacity v.views) };
}

impl PeerViews {
    /// No views.
    pub fn new(alloc: Global) -> Result<PeerViews, AllocError>
        ensures { IfOk result (λ views. views ≡ []) }
    {
        let views = Vec::with_capacity(alloc, MAX_PEERS)?;
        Ok(PeerViews { views })
    }

    /// These views. Memory is taken only where there is no room for the most peers yet.
    pub fn of(views: Vec<PeerView>) -> Result<PeerViews, AllocError>
        requires { length views.items ≤ MAX_PEERS }
        ensures value { IfOk result (λ of. of ≡ views.items) }
        ensures roomy { MAX_PEERS ≤ vec_capacity views → IsOk result }
    {
        let mut views = views;
        views.reserve(MAX_PEERS - views.len())?;
        Ok(PeerViews { views })
    }

    /// Appends the view of one peer more. Takes no memory.
    pub fn push(&mut self, view: PeerView)
        requires { length self.old < MAX_PEERS }
        ensures { self.new ≡ self.old ++ view ∷ [] }
    {
        self.views.push_reserved(view);
    }

    /// Takes all views out. Takes no memory.
    pub fn clear(&mut self)
        ensures { self.new ≡ [] }
    {
        self.views.clear();
    }

    /// Makes these views equal to others. Takes no memory.
    pub fn assign(&mut self, from: &PeerViews)
        ensures { self.new ≡ from.now }
    {
        self.views.clear();
        let Ok(()) = self.views.extend_from_slice(from.views.as_slice()) else {
            unreachable!()
        };
    }

    /// The same views once more.
    pub fn copy(&self) -> Result<PeerViews, AllocError>
        ensures { IfOk result (λ views. views ≡ self.now) }
    {
        let mut views = PeerViews::new(*self.views.allocator())?;
        views.assign(self);
        Ok(views)
    }

    /// How many peers there are.
    pub fn len(&self) -> usize
        ensures len { result ≡ length self.now }
        ensures at_most { length self.now ≤ MAX_PEERS }
    {
        self.views.len()
    }

    /// The view at a place, counted from 0.
    pub fn get(&self, place: usize) -> &PeerView
        requires { place < length self.now }
        ensures view { slice_get self.now place ≡ Some result.now }
        ensures at_most { length self.now ≤ MAX_PEERS }
    {
        &self.views[place]
    }

    /// The peer with this association number.
    pub fn find(&self, assoc: u16) -> Option<&PeerView>
        ensures { option_copied result ≡ peer_of self.now assoc }
    {
        for place in 0..self.views.len() {
            let view = &self.views[place];
            if view.assoc == assoc {
                return Some(view);
            }
        }
        None
    }
}
