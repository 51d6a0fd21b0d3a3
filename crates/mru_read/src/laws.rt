ghost use Rattle.std.specs.Prelude.{◌≡◌, ◌≤◌, List, Some, length, take};
ghost use Rattle.mru_items.specs.Queries.{IsRead};
ghost use Rattle.mru_read.specs.Pages.{IsMost, Start, page_of, page_parts, passing_from, start_of};
ghost use Rattle.mru_read.specs.declared.pages.Page.{Page};
ghost use Rattle.recency.specs.declared.row.Row.{Row};

use mru_items::ReadRequest;

/// A page that a read asks for has a datagram, and no more than the read allows.
pub fn a_page_has_few_datagrams(request: &ReadRequest, now: u64)
    ghost given: { record { rows : List Row; page : Page } }
    requires read { IsRead request.now }
    requires page { page_of given.rows request.now now ≡ Some given.page }
    ensures some { 1 ≤ page_parts given.page }
    ensures few { page_parts given.page ≤ request.now.frags }
{}

/// A page that a read asks for has the first of the rows that pass from its start on, as many as it
/// may have: the limit and the bound on datagrams allow them, and no greater number.
pub fn a_page_is_the_longest(request: &ReadRequest, now: u64)
    ghost given: { record { rows : List Row; start : Start; page : Page } }
    requires read { IsRead request.now }
    requires start { start_of given.rows request.now.pairs ≡ Some given.start }
    requires page { page_of given.rows request.now now ≡ Some given.page }
    ensures rows { given.page.rows
        ≡ take (length given.page.rows) (passing_from given.rows request.now given.start) }
    ensures most { IsMost given.rows request.now given.start now (length given.page.rows) }
{}
