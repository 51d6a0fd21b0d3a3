ghost use Rattle.std.specs.Prelude.{◌≡◌, ◌≤◌, length};
ghost use Rattle.std.specs.List.{All};
ghost use Rattle.associations.specs.Associations.{IsAssociation};
ghost use Rattle.associations.specs.Showing.{AreViews, IsViewOf, estimate_shown};

use crate::association::Association;
use crate::peers::MAX_PEERS;
use clock_filter::Estimate;
use fixed_time::{MAX_DISPERSION, Span};
use sys_vars::{PeerView, PeerViews};

/// The estimate that a server shows.
pub(crate) fn show_estimate(estimate: Option<Estimate>) -> Estimate
    ensures { result ≡ estimate_shown estimate }
{
    match estimate {
        Some(estimate) => estimate,
        None => Estimate {
            offset: Span(0),
            delay: 0,
            disp: MAX_DISPERSION,
            jitter: 0,
            at: 0,
        },
    }
}

/// The view of the server of this number.
fn view(server: &Association, assoc: u16) -> PeerView
    requires { IsAssociation server.now }
    ensures { IsViewOf assoc server.now result }
{
    let estimate = show_estimate(server.estimate);
    PeerView {
        assoc,
        addr: server.line.addr,
        key: server.line.key,
        hpoll: server.line.poll,
        ppoll: server.ppoll,
        pmode: server.pmode,
        leap: server.leap,
        stratum: server.stratum,
        precision: server.precision,
        root_delay: server.root_delay,
        root_disp: server.root_disp,
        refid: server.refid,
        reference: server.reference,
        received: server.received,
        reach: server.reach,
        offset: estimate.offset,
        delay: estimate.delay,
        disp: estimate.disp,
        jitter: estimate.jitter,
        stages: server.filter.stages(),
        auth_ok: server.auth_ok,
        selection: server.selection,
        events: server.events,
        code: server.code,
    }
}

/// Puts the views of the servers in the place of others, in the order of their numbers.
pub(crate) fn view_all(list: &[Association], views: &mut PeerViews)
    requires few { length list.now ≤ MAX_PEERS }
    requires sound { All IsAssociation list.now }
    ensures { AreViews list.now views.new }
{
    views.clear();
    for place in 0..list.len() {
        views.push(view(&list[place], place as u16 + 1));
    }
}
