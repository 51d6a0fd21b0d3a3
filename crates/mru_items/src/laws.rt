ghost use Rattle.std.specs.Prelude.{◌≡◌, ◌≤◌, ◌<◌, ◌^◌, List, Some, Contains, length, min};
ghost use Rattle.std.specs.List.{AllByRecursion};
ghost use Rattle.hex.specs.Hex.{lower_digits};
ghost use Rattle.mode6_frame.specs.declared.message.TheConstants.{MAX_BODY};
ghost use Rattle.mode6_frame.specs.Cuts.{AreShort};
ghost use Rattle.mode6_frame.specs.ItemTexts.{IsWritable};
ghost use Rattle.mru_items.specs.Answers.{IsAnswer, answer_in, answer_items};
ghost use Rattle.mru_items.specs.Queries.{ArePairs, ArePairsTold, IsQuery, IsReadOf, named_of, read_of, request_items, request_text};
ghost use Rattle.mode6_frame.specs.Items.{IsItemText};
ghost use Rattle.mode6_frame.specs.declared.items.Item.{Item};
ghost use Rattle.mru_items.specs.declared.pair.Pair.{Pair};
ghost use Rattle.mru_items.specs.declared.pair.TheConstants.{MAX_PAIRS};
ghost use Rattle.mru_items.specs.declared.query.ReadRequest.{ReadRequest};
ghost use Rattle.net_addr.specs.Addresses.{IsAddr};

use crate::answer::{Nonce, PageAnswer};
use crate::pair::Pair;
use crate::query::Query;
use fixed_time::Ntp64;

/// What an answer's items tell is the answer.
pub fn answers_are_read_back(answer: &PageAnswer)
    requires answer { IsAnswer answer.now }
    requires rows { length answer.now.rows < 2 ^ 64 }
    requires digits { AllByRecursion (Contains lower_digits) answer.now.nonce }
    ensures told { answer_in (answer_items answer.now) ≡ Some answer.now }
    ensures writable { AllByRecursion IsWritable (answer_items answer.now) }
    ensures short { AreShort (answer_items answer.now) }
{}

/// What a read's items ask for is the read: its pairs have a client's timestamps, and are those whose
/// stamps a server has whose clocks begin at `origin`.
pub fn requests_are_read_back(
    query: &Query,
    nonce: &Nonce,
    pairs: &[Pair],
    told: &[Pair],
    origin: Ntp64,
)
    requires query { IsQuery query.now }
    requires digits { AllByRecursion (Contains lower_digits) nonce.now }
    requires pairs { ArePairs pairs.now }
    requires few { length pairs.now ≤ MAX_PAIRS }
    requires told { ArePairsTold origin.0 pairs.now told.now }
    ensures read { IsReadOf
        (request_items nonce.now (read_of query.now told.now)) origin.0
        (read_of query.now pairs.now) }
    ensures writable { AllByRecursion IsWritable
        (request_items nonce.now (read_of query.now told.now)) }
    ensures spelled { IsItemText (request_text nonce.now (read_of query.now told.now))
        (request_items nonce.now (read_of query.now told.now)) }
{}

/// A text that is written for a read asks for no other: whatever its items ask a server for whose
/// clocks begin at `origin`, it shows the same clients, and names pairs of that server's own stamps
/// whose timestamps are those that were written.
pub fn a_request_asks_for_its_read_alone(query: &Query, nonce: &Nonce, told: &[Pair], origin: Ntp64)
    ghost given: { record { pairs : List Pair; items : List Item; read : ReadRequest } }
    requires query { IsQuery query.now }
    requires digits { AllByRecursion (Contains lower_digits) nonce.now }
    requires addresses { AllByRecursion (λ pair. IsAddr pair.addr) told.now }
    requires few { length told.now ≤ MAX_PAIRS }
    requires told { ArePairsTold origin.0 given.pairs told.now }
    requires items { IsItemText (request_text nonce.now (read_of query.now told.now)) given.items }
    requires read { IsReadOf given.items origin.0 given.read }
    ensures filter { given.read.filter ≡ query.now.filter }
    ensures pairs { ArePairsTold origin.0 given.read.pairs told.now }
{}

/// A read names four pairs at least of those that there are, and its body fits into one datagram.
pub fn at_least_four_pairs_are_named(query: &Query, nonce: &Nonce, pairs: &[Pair])
    requires query { IsQuery query.now }
    requires digits { AllByRecursion (Contains lower_digits) nonce.now }
    requires pairs { ArePairs pairs.now }
    ensures four { min 4 (length pairs.now) ≤ length (named_of query.now pairs.now) }
    ensures fits { length (request_text nonce.now
        (read_of query.now (named_of query.now pairs.now))) ≤ MAX_BODY }
{}
