ghost use Rattle.std.specs.Prelude.{◌≡◌, ◌<◌, ◌^◌, ◌++◌, ℕ, List, None, Some, [], slice_get};
ghost use Rattle.edge_traits.specs.declared.port.Event.{Event};
ghost use Rattle.list_telling.specs.Histories.{IsServersHistory, telling_of};
ghost use Rattle.mru_items.specs.declared.query.Query.{Query};
ghost use Rattle.mru_items.specs.Queries.{IsQuery};
ghost use Rattle.mrulist_coverage.specs.Coverage.{CoversLast, listing_after};
ghost use Rattle.mrulist_reader.specs.declared.listing.End.TheVariants.{Listed};
ghost use Rattle.mrulist_reader.specs.Readers.{listing_dialogue, new_reader};
ghost use Rattle.net_addr.specs.declared.addr.Addr.{Addr};
ghost use Rattle.ntpq_client.specs.Dialogues.{Follows, ready};
ghost use Rattle.ntpq_client.specs.Talks.{new_talk};
ghost use Rattle.pilot.specs.Flights.{readied_for};
ghost use Rattle.pilot.specs.Views.{PilotParts};
ghost use Rattle.responders.specs.Flown.{Flown, IsPiloted};
ghost use Rattle.responders.specs.Laws.{Session};
ghost use Rattle.responders.specs.Parts.{Part};
ghost use Rattle.responders.specs.Sessions.{IsServed, IsSession};
ghost use Rattle.server_core.specs.States.{ServerState};
ghost use Rattle.shared_book.specs.declared.common.Common.{Common};
ghost use Rattle.worker.specs.Doings.{doing_of};
ghost use Rattle.worker.specs.Workers.{WorkerView};
ghost use Rattle.wire.specs.declared.wire.WireEvent.{WireEvent};
ghost use Rattle.wire.specs.Placing.{places_in};
ghost use Rattle.wire.specs.Sessions.{HappenedAt, IsJournal, IsOpening, IsReadied};
ghost use Rattle.wire.specs.Wires.{AreCarried, AreListing, client_events, worker_events};

use edge_traits::{Clock, Port};
use list_telling::laws::{journals_are_tellable, rules_have_flags};
use server_core::{Book, Journal};

/// What a listing posts are whole control messages to its server, numbered 1, 2 and so on, each of
/// which asks for a nonce or for a page that a server reads, whatever the listing was told and by
/// whom.
pub fn a_listing_sends_requests()
    ghost given: { record { server : Addr; query : Query; origin : ℕ; events : List Event } }
    requires query { IsQuery given.query }
    requires origin { given.origin < 2 ^ 64 }
    requires follows { Follows listing_dialogue
        (ready (new_talk given.server) (new_reader given.query)) given.events }
    ensures { AreListing given.server given.origin 0 given.events }
{}

/// The history of a session is one that a server can have, where its book opened with a client list
/// and its pilot was made ready: what was taken was not refused, and the numbers of the records climb
/// from that of the first one.
pub fn a_session_is_a_servers_history()
    ghost session: { Session }
    requires opening { IsOpening session.opening }
    requires readied { IsReadied session.opening session.flown }
    requires journal { IsJournal session.history }
    requires session { IsSession session.common session.opening session.history session.parts
        session.flown }
    ensures { IsServersHistory session.opening session.history }
{}

/// A pilot that is made ready for a session begins it with a number not below that of the record
/// which is published then.
pub fn a_readied_pilot_is_not_behind()
    ghost given: { record {
      opening : ServerState;
      pilot : PilotParts;
      flown : Flown;
      new : PilotParts;
    } }
    requires { IsPiloted (readied_for given.opening.published given.pilot) given.flown given.new }
    ensures { IsReadied given.opening given.flown }
{}

/// So is the history of a session that was served, where the journal has it.
pub fn a_served_session_is_a_servers_history<P: Port, C: Clock>(journal: &Journal)
    ghost given: { record {
      common : Common;
      opening : ServerState;
      olds : List (WorkerView P C);
      news : List (WorkerView P C);
      pilot : PilotParts;
      new : PilotParts;
    } }
    requires opening { IsOpening given.opening }
    requires served { IsServed
        (doing_of P.trace P.faults P.quiets P.address P.most C.readings)
        given.common given.opening journal.now given.olds given.news
        (readied_for given.opening.published given.pilot) given.new }
    ensures { IsServersHistory given.opening journal.now }
{
    journals_are_tellable(journal);
}

/// A book without clients opens so.
pub fn a_book_without_clients_opens_so(book: &Book)
    requires { book.now.state.rows ≡ [] }
    ensures { IsOpening book.now.state }
{
    let _ = book.listed();
    rules_have_flags(&book.latest().rules);
    let _ = (book.stamp(), book.origin());
}

/// Where a worker's port tells what happens at it, what it tells of its part of a session happened
/// there.
pub fn what_a_port_tells_happened()
    ghost given: { record {
      session : Session;
      number : ℕ;
      part : Part;
      before : List Event;
      events : List Event;
    } }
    requires part { slice_get given.session.parts given.number ≡ Some given.part }
    requires before { given.part.before.trace ≡ Some given.before }
    requires after { given.part.after.trace ≡ Some (given.before ++ given.events) }
    ensures { (is : IsSession given.session.common given.session.opening given.session.history
        given.session.parts given.session.flown)
        → HappenedAt given.session.common given.session.opening given.session.history given.number
        given.session.parts is.worked given.part given.events }
{}

/// A listing of a session that completed, over a wire to one of its workers which brings to each end
/// only what the other had sent there before, covers the client list of the session as it stood at
/// the place of the last datagram.
pub fn a_listing_of_a_session_covers()
    ghost given: { record {
      session : Session;
      number : ℕ;
      part : Part;
      server : Addr;
      client : Addr;
      query : Query;
      wire : List WireEvent;
    } }
    requires opening { IsOpening given.session.opening }
    requires readied { IsReadied given.session.opening given.session.flown }
    requires journal { IsJournal given.session.history }
    requires origin { given.session.common.origin ≡ given.session.opening.origin }
    requires carry { given.part.before.carry ≡ None }
    requires carried { AreCarried given.server given.client [] given.wire }
    requires query { IsQuery given.query }
    requires follows { Follows listing_dialogue
        (ready (new_talk given.server) (new_reader given.query)) (client_events given.wire) }
    ensures { (is : IsSession given.session.common given.session.opening given.session.history
        given.session.parts given.session.flown)
        → HappenedAt given.session.common given.session.opening given.session.history given.number
        given.session.parts is.worked given.part (worker_events given.wire)
        → (now : ℕ)
        → (listing_after given.server given.query (client_events given.wire)).end
        ≡ Some (Listed now)
        → CoversLast
        (telling_of given.session.common.salt given.client.ip given.session.opening
        given.session.history)
        (places_in given.client given.part.after.acts given.wire) given.query.filter
        (listing_after given.server given.query (client_events given.wire)).rows now }
{}
