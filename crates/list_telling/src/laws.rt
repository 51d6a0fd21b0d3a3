ghost use Rattle.std.specs.Prelude.{◌≡◌, ◌<◌, ◌^◌, ◌++◌, ◌∷◌, ℕ, List, length, Contains};
ghost use Rattle.edge_traits.specs.declared.salt.Salt.{Salt};
ghost use Rattle.list_telling.specs.Histories.{AreTellableOps, HaveFlags, IsServersHistory, IsTakenIn, IsTellableAsk, IsTellableOp, IsTold, telling_of};
ghost use Rattle.list_telling.specs.Requests.{place_of};
ghost use Rattle.mac_keys.specs.declared.keys.Key.{Key};
ghost use Rattle.mrulist_coverage.specs.Tellings.{IsTelling};
ghost use Rattle.net_addr.specs.declared.addr.Addr.{Addr};
ghost use Rattle.server_core.specs.declared.class.Class.{Class};
ghost use Rattle.server_core.specs.declared.op.Op.{Op};
ghost use Rattle.server_core.specs.Histories.{state_after_all};
ghost use Rattle.server_core.specs.Moves.{HasMoment, HaveMoments};
ghost use Rattle.server_core.specs.Responses.{grams_of, response_of};
ghost use Rattle.server_core.specs.States.{ServerState};
ghost use Rattle.sys_vars.specs.declared.context.Context.{Context};

use access_rules::{Rule, Rules};
use edge_traits::Salt;
use net_addr::{Ip, write_text};
use server_core::{Ask, Journal, Op};

/// Over a history that a server can have, what it tells is the history of one client list, whose
/// clients can be told.
pub fn a_server_tells(salt: Salt, client: Ip)
    ghost given: { record { opening : ServerState; ops : List Op } }
    requires { IsServersHistory given.opening given.ops }
    ensures { IsTelling (telling_of salt client given.opening given.ops) }
{}

/// Each datagram of the sequential server's answer to a listing's request is an answer that the
/// listing may count on: at the place of its read, with the page that the list has there, or the
/// refusal of one whose clients do not stand there as named.
pub fn an_answer_is_told()
    ghost given: { record {
      opening : ServerState;
      keys : List Key;
      context : Context;
      from : Addr;
      octets : List ℕ;
      class : Class;
      before : List Op;
      op : Op;
      after : List Op;
      sent : ℕ;
      gram : List ℕ;
    } }
    requires history { IsServersHistory given.opening (given.before ++ given.op ∷ given.after) }
    requires taken { IsTakenIn given.opening given.keys given.context given.from given.octets
        given.class given.before given.after given.op }
    requires gram { Contains (grams_of given.keys given.context given.sent (response_of
        (state_after_all given.opening given.before) given.context given.class)) given.gram }
    ensures { IsTold (telling_of given.context.salt given.from.ip given.opening
        (given.before ++ given.op ∷ given.after)) given.octets given.gram
        (place_of (length given.before) (response_of
        (state_after_all given.opening given.before) given.context given.class)) }
{}

/// The numbers of a journal's operations have their widths.
pub fn journals_are_tellable(journal: &Journal)
    ensures tellable { AreTellableOps journal.now }
    ensures moments { HaveMoments journal.now }
{
    for place in 0..journal.len() {
        is_tellable(journal.get(place));
    }
}

/// The flags of rules have 16 bits.
pub fn rules_have_flags(rules: &Rules)
    ensures { HaveFlags rules.now }
{
    for place in 0..rules.len() {
        has_flags(*rules.get(place));
    }
}

/// The numbers of an operation have their widths.
fn is_tellable(op: &Op)
    ensures tellable { IsTellableOp op.now }
    ensures moment { HasMoment op.now }
{
    match op {
        Op::Publish(record) => rules_have_flags(&record.rules),
        Op::Arrive(ask, moment) => {
            is_tellable_ask(ask);
            has_moment(*moment);
        }
        Op::Read(_, moment) | Op::Sweep(moment) => has_moment(*moment),
        Op::Look(..) | Op::Stop(_) => {}
    }
}

/// Those of a request for the time have: the text of its address is that of one.
fn is_tellable_ask(ask: &Ask)
    ensures { IsTellableAsk ask.now }
{
    let _ = write_text(&ask.from);
}

/// A moment has 64 bits.
fn has_moment(moment: u64)
    ensures { moment < 2 ^ 64 }
{}

/// The flags of a rule have 16.
fn has_flags(rule: Rule)
    ensures { rule.flags < 2 ^ 16 }
{}
