ghost use Rattle.std.specs.Prelude.{◌≡◌, ℕ, List, None, Some};
ghost use Rattle.edge_traits.specs.declared.port.Event.{Event};
ghost use Rattle.list_telling.specs.Histories.{IsServersHistory, telling_of};
ghost use Rattle.mrulist_coverage.specs.Coverage.{CoversLast, listing_after};
ghost use Rattle.mrulist_coverage.specs.Tellings.{IsToldFrom, nothing_known};
ghost use Rattle.mrulist_reader.specs.declared.listing.End.TheVariants.{Listed};
ghost use Rattle.mrulist_reader.specs.Readers.{listing_dialogue, new_reader};
ghost use Rattle.mru_items.specs.declared.query.Query.{Query};
ghost use Rattle.mru_items.specs.Queries.{IsQuery};
ghost use Rattle.net_addr.specs.declared.addr.Addr.{Addr};
ghost use Rattle.ntpq_client.specs.Dialogues.{Follows, ready};
ghost use Rattle.ntpq_client.specs.Talks.{new_talk};
ghost use Rattle.responders.specs.Parts.{IsPart, Part};
ghost use Rattle.server_core.specs.declared.op.Op.{Op};
ghost use Rattle.server_core.specs.States.{ServerState};
ghost use Rattle.shared_book.specs.declared.common.Common.{Common};
ghost use Rattle.worker.specs.declared.act.Act.{Act};
ghost use Rattle.wire.specs.declared.wire.WireEvent.{WireEvent};
ghost use Rattle.wire.specs.Placing.{places_in};
ghost use Rattle.wire.specs.Wires.{IsHonest, IsWorkers, client_events, worker_events};

/// Over an honest wire all that the client took is told from the history of the worker's session,
/// by the places that are found for it: a datagram may be lost, come again or late, and a request
/// be answered at several places; but what was asked after an answer was taken is answered behind
/// it.
pub fn a_wire_is_told()
    ghost given: { record {
      common : Common;
      opening : ServerState;
      history : List Op;
      server : Addr;
      client : Addr;
      acts : List Act;
      wire : List WireEvent;
    } }
    requires history { IsServersHistory given.opening given.history }
    requires origin { given.common.origin ≡ given.opening.origin }
    requires workers { IsWorkers given.common given.opening given.history given.acts given.wire }
    requires honest { IsHonest given.server given.client given.opening.origin.0 given.wire }
    ensures { IsToldFrom (telling_of given.common.salt given.client.ip given.opening given.history)
        given.server nothing_known (client_events given.wire)
        (places_in given.client given.acts given.wire) }
{}

/// What a worker did in its part of a session, which it began without a carry, is what the worker
/// of a wire did, where its events are those of the wire's worker.
pub fn a_worker_of_a_session_is_one_of_a_wire()
    ghost given: { record {
      common : Common;
      opening : ServerState;
      history : List Op;
      part : Part;
      wire : List WireEvent;
    } }
    requires carry { given.part.before.carry ≡ None }
    ensures { (is : IsPart given.common given.opening given.history given.part)
        → is.did.events ≡ worker_events given.wire
        → IsWorkers given.common given.opening given.history given.part.after.acts given.wire }
{}

/// A listing over an honest wire that completed, whatever was lost, repeated or late, covers the
/// client list of the worker's session as it stood at the place of the last datagram.
pub fn a_listing_over_a_wire_covers()
    ghost given: { record {
      common : Common;
      opening : ServerState;
      history : List Op;
      server : Addr;
      client : Addr;
      query : Query;
      acts : List Act;
      wire : List WireEvent;
    } }
    requires history { IsServersHistory given.opening given.history }
    requires origin { given.common.origin ≡ given.opening.origin }
    requires workers { IsWorkers given.common given.opening given.history given.acts given.wire }
    requires honest { IsHonest given.server given.client given.opening.origin.0 given.wire }
    requires query { IsQuery given.query }
    requires follows { Follows listing_dialogue
        (ready (new_talk given.server) (new_reader given.query)) (client_events given.wire) }
    ensures { (now : ℕ)
        → (listing_after given.server given.query (client_events given.wire)).end
        ≡ Some (Listed now)
        → CoversLast
        (telling_of given.common.salt given.client.ip given.opening given.history)
        (places_in given.client given.acts given.wire) given.query.filter
        (listing_after given.server given.query (client_events given.wire)).rows now }
{}
