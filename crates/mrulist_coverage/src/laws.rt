ghost use Rattle.std.specs.Prelude.{◌≡◌, ◌≢◌, ◌+◌, ◌≤◌, ℕ, List, None, Option, Some};
ghost use Rattle.edge_traits.specs.declared.port.Event.{Event};
ghost use Rattle.mode6_frame.specs.declared.errors.TheConstants.{BAD_NAME};
ghost use Rattle.mru_items.specs.declared.query.MruFilter.{MruFilter};
ghost use Rattle.mru_items.specs.declared.query.Query.{Query};
ghost use Rattle.mru_items.specs.Queries.{IsQuery};
ghost use Rattle.mrulist_coverage.specs.Coverage.{CoversLast, listing_after};
ghost use Rattle.mrulist_coverage.specs.Still.{IsCalm, IsCompleteIf, IsStill, client_after};
ghost use Rattle.mrulist_coverage.specs.Tellings.{IsTelling, IsToldFrom, Telling, nothing_known};
ghost use Rattle.mrulist_reader.specs.declared.listing.End.TheVariants.{BadReply, Listed, Refused};
ghost use Rattle.mrulist_reader.specs.Readers.{listing_dialogue, new_reader};
ghost use Rattle.net_addr.specs.declared.addr.Addr.{Addr};
ghost use Rattle.ntpq_client.specs.Dialogues.{Follows, ready};
ghost use Rattle.ntpq_client.specs.Talks.{new_talk, stuck};
ghost use Rattle.recency.specs.declared.limits.TheConstants.{MAX_DEPTH};

/// Where all that a client took is told from one history of its server's client list, whatever was
/// lost, repeated or late: a listing that completed covers the list as it stood at the place of the
/// last datagram; no whole answer was none that it had asked for; and no refusal ended it for want
/// of a client that it named.
pub fn a_completed_listing_covers()
    ghost given: { record {
      t : Telling;
      server : Addr;
      query : Query;
      events : List Event;
      places : List (Option ℕ);
    } }
    requires telling { IsTelling given.t }
    requires query { IsQuery given.query }
    requires follows { Follows listing_dialogue
        (ready (new_talk given.server) (new_reader given.query)) given.events }
    requires told { IsToldFrom given.t given.server nothing_known given.events given.places }
    ensures covers { (now : ℕ)
        → (listing_after given.server given.query given.events).end ≡ Some (Listed now)
        → CoversLast given.t given.places given.query.filter
        (listing_after given.server given.query given.events).rows now }
    ensures never_bad { (listing_after given.server given.query given.events).end ≢ Some BadReply }
    ensures never_refused { (listing_after given.server given.query given.events).end ≢ Some (Refused BAD_NAME) }
{}

/// Where nothing that was asked of the server was lost, and the clients of its list that pass the
/// filter were the same while it was listed: the client hasn't given up, it posted no more requests
/// than a client list has rows and two, and if its listing has ended it completed.
pub fn a_still_listing_completes()
    ghost given: { record {
      t : Telling;
      server : Addr;
      query : Query;
      events : List Event;
      places : List (Option ℕ);
    } }
    requires telling { IsTelling given.t }
    requires query { IsQuery given.query }
    requires follows { Follows listing_dialogue
        (ready (new_talk given.server) (new_reader given.query)) given.events }
    requires told { IsToldFrom given.t given.server nothing_known given.events given.places }
    requires still { IsStill given.t given.server given.query.filter given.events given.places }
    ensures unstuck { stuck (client_after given.server given.query given.events).talk ≡ None }
    ensures few { (client_after given.server given.query given.events).talk.posted ≤ MAX_DEPTH + 2 }
    ensures complete { IsCompleteIf
        (client_after given.server given.query given.events).plan.end }
{}

/// Where each request has one answer, of which no datagram was taken twice, no more datagrams were
/// taken in answer to a request than its answer has.
pub fn a_calm_trace_is_still()
    ghost given: { record {
      t : Telling;
      server : Addr;
      wanted : MruFilter;
      events : List Event;
      places : List (Option ℕ);
    } }
    requires telling { IsTelling given.t }
    requires told { IsToldFrom given.t given.server nothing_known given.events given.places }
    requires calm { IsCalm given.t given.server given.wanted given.events given.places }
    ensures still { IsStill given.t given.server given.wanted given.events given.places }
{}
