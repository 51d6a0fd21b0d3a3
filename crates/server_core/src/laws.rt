ghost use Rattle.std.specs.Prelude.{◌≡◌, ◌<◌, ◌≤◌, ◌+◌, ◌++◌, ◌∷◌, ◌^◌, ℕ, List, length, slice_get, None, Some, true, false};
ghost use Rattle.server_core.specs.declared.op.Op.{Op};
ghost use Rattle.server_core.specs.Histories.{Place, IsLegal, IsLegalAt, published_by, records_in, reply_at, state_after_all, state_at};
ghost use Rattle.mru_read.specs.Histories.{IsListHistory, list_at};
ghost use Rattle.recency.specs.Rows.{IsClientList};
ghost use Rattle.server_core.specs.Moves.{HaveMoments, Run, list_history, listing_of};
ghost use Rattle.server_core.specs.Journals.{published_in};
ghost use Rattle.server_core.specs.States.{ServerState, refusal_of, reply_to, stamp_after, state_after};
ghost use Rattle.server_core.specs.Verdicts.{is_ignored};

use crate::class::{Ask, ReadAsk};
use crate::op::Op;
use sys_vars::Record;

/// A request for the time that is not ignored draws a stamp after the last one.
pub fn stamps_rise(ask: &Ask, moment: u64)
    ghost server: { ServerState }
    requires { is_ignored server.published ask.now ≡ false }
    ensures { server.stamp < stamp_after server (Op.Arrive ask.now moment) }
{}

/// No operation takes the last stamp back.
pub fn stamps_stay(op: &Op)
    ghost server: { ServerState }
    ensures { server.stamp ≤ stamp_after server op.now }
{}

/// Two requests of one moment, one right after the other, draw stamps that are one apart.
pub fn one_moment_is_one_apart(first: &Ask, second: &Ask, moment: u64)
    ghost server: { ServerState }
    requires first { is_ignored server.published first.now ≡ false }
    requires second { is_ignored server.published second.now ≡ false }
    ensures { let arrived = state_after server (Op.Arrive first.now moment) in
        stamp_after arrived (Op.Arrive second.now moment) ≡ arrived.stamp + 1 }
{}

/// A request for the time that is taken stands in a legal history.
pub fn requests_that_are_taken_are_legal(ask: &Ask, moment: u64)
    ghost place: { Place }
    requires { refusal_of place.before place.opening.stamp (Op.Arrive ask.now moment) ≡ None }
    ensures { IsLegalAt place.opening (Op.Arrive ask.now moment) }
{}

/// Legal operations, and legal ones from the state that they make, are legal as a whole.
pub fn legal_histories_join()
    ghost place: { Place }
    requires before { IsLegal place.opening place.before }
    requires after { IsLegal (state_after_all place.opening place.before) place.after }
    ensures { IsLegal place.opening (place.before ++ place.after) }
{}

/// A client that is ignored leaves the server as it was.
pub fn ignored_clients_change_nothing(ask: &Ask, moment: u64)
    ghost server: { ServerState }
    requires { is_ignored server.published ask.now ≡ true }
    ensures { state_after server (Op.Arrive ask.now moment) ≡ server }
{}

/// An operation is answered by the state that those before it make, whatever follows.
pub fn replies_stand_at_their_places(op: &Op)
    ghost place: { Place }
    ensures { reply_at place.opening (place.before ++ op.now ∷ place.after) (length place.before)
        ≡ Some (reply_to (state_after_all place.opening place.before) op.now) }
{}

/// What is published is the last of the records that were.
pub fn the_last_record_is_published(opening: &Record)
    ghost ops: { List Op }
    ensures { slice_get (published_by opening.now ops) (length (records_in ops))
        ≡ Some (published_in opening.now ops) }
{}

/// A read that is taken stands in a legal history.
pub fn reads_that_are_taken_are_legal(ask: &ReadAsk, moment: u64)
    ghost place: { Place }
    requires { refusal_of place.before place.opening.stamp (Op.Read ask.now moment) ≡ None }
    ensures { IsLegalAt place.opening (Op.Read ask.now moment) }
{}

/// Over legal operations the client list of a server has a history of its own, in which each
/// operation is a move, and which has the server's rows and last stamp at each place.
pub fn operations_move_the_client_list()
    ghost run: { Run }
    requires list { IsClientList run.opening.limits run.opening.rows run.opening.stamp }
    requires stamp { run.opening.stamp < 2 ^ 64 }
    requires legal { IsLegal run.opening run.ops }
    requires moments { HaveMoments run.ops }
    ensures history { IsListHistory (list_history run.opening run.ops) }
    ensures places { (place : ℕ)
        → list_at (list_history run.opening run.ops) place
        ≡ listing_of (state_at run.opening run.ops place) }
{}
