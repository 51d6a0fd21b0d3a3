ghost use Rattle.std.specs.Prelude.{◌≡◌, ◌≤◌, ◌+◌, ◌*◌, ◌++◌, ◌∷◌, [], ℕ, IfOk, OnOk, length, flat_map};
ghost use Rattle.std.specs.List.{AllByRecursion};
ghost use Rattle.mode6_frame.specs.Cuts.{IsCuttable};
ghost use Rattle.sys_vars.specs.Contexts.{nonce_for};
ghost use Rattle.sys_vars.specs.Answers.{IsWithin, answer_of, error_octets, grams_for, grams_of, head_about, is_refused, nonce_grams, nonce_item, status_body, status_grams, status_of, status_pair, variable_grams, variable_grams_of};
ghost use Rattle.sys_vars.specs.Variables.{first_unknown, subject_of};

use crate::answer::Answer;
use crate::asked::{Asked, NameNumbers, What};
use crate::context::Context;
use crate::number_text::fixed;
use crate::peer_view::PeerView;
use crate::peer_views::{MAX_PEERS, PeerViews};
use crate::published::Record;
use crate::status::{peer_status, system_status};
use crate::subject::{Subject, subject_of};
use crate::variables::{first_unknown, variables};
use access_rules::{IGNORE, NOQUERY, flags_for, has_flag};
use edge_traits::{Grams, Octets};
use mode6_frame::{
    BAD_ASSOCIATION, BAD_NAME, HEAD_LEN, Head, Item, Items, MAX_BODY, cut, error_gram, whole_gram,
};
use mode6_nonce::{NONCE_LEN, make};
use net_addr::Ip;
use std::alloc::{AllocError, Global};

/// The answer to a control request that came in this context, made of one record (RFC 9327,
/// sections 2 and 4).
///
/// The status of the system is answered with the association number and status word of each peer,
/// 16 bits each, that of a peer with no body. Variables stand in as many datagrams as they need,
/// each of which then begins with the record's epoch as a tag. A nonce is the item `nonce`, which
/// `make` of `mode6_nonce` gives for the sender's address at the time of the context. The status in
/// the head is that of whom the association names, unless the answer is an error; with a nonce it is
/// the system's. A sender whose restrict flags have `ignore` or `noquery` gets no answer.
pub fn answer(
    alloc: Global,
    rec: &Record,
    asked: &Asked,
    context: &Context,
) -> Result<Answer, AllocError>
    ensures value { IfOk result (λ given. given ≡ answer_of rec.now asked.now context.now) }
    ensures short { IfOk result IsWithin }
{
    if is_refused(rec, asked) {
        return Ok(Answer::Ignored);
    }
    Ok(Answer::Given {
        epoch: rec.epoch,
        grams: grams(alloc, rec, asked, context)?,
    })
}

/// Whether the restrict flags of the sender refuse the request.
fn is_refused(rec: &Record, asked: &Asked) -> bool
    ensures { result ≡ is_refused rec.now asked.now }
{
    let flags = flags_for(&rec.rules, &asked.from.ip);
    has_flag(flags, IGNORE) || has_flag(flags, NOQUERY)
}

/// The datagrams that answer what is asked for.
fn grams(alloc: Global, rec: &Record, asked: &Asked, context: &Context) -> Result<Grams, AllocError>
    ensures value { IfOk result (λ grams. grams ≡ grams_of rec.now asked.now context.now) }
    ensures short { IfOk result (AllByRecursion (λ gram. length gram ≤ HEAD_LEN + MAX_BODY)) }
{
    let head = &asked.head;
    match &asked.what {
        What::Status => one(alloc, status_gram(rec, head)),
        What::Vars(names) => variable_grams_of(alloc, rec, head, names),
        What::Nonce => nonce_grams(alloc, rec, head, &nonce_for(context, &asked.from.ip)),
        What::Bad(code) => one(alloc, error_gram(head, *code)),
    }
}

/// The datagram that tells the status of whom the association names.
fn status_gram(rec: &Record, head: &Head) -> Octets
    ensures value { result ∷ [] ≡ status_grams rec.now head.now (subject_of rec.now head.now.assoc) }
    ensures short { length result ≤ HEAD_LEN + MAX_BODY }
{
    match subject_of(rec, head.assoc) {
        Some(subject) => {
            let body = status_body(rec, &subject);
            whole_gram(&head_about(rec, &subject, head), body.as_slice())
        }
        None => error_gram(head, BAD_ASSOCIATION),
    }
}

/// The datagrams that give the variables of these numbers of whom the association names.
fn variable_grams_of(
    alloc: Global,
    rec: &Record,
    head: &Head,
    names: &NameNumbers,
) -> Result<Grams, AllocError>
    ensures value { IfOk result (λ grams. grams
        ≡ variable_grams_of rec.now head.now names.now (subject_of rec.now head.now.assoc)) }
    ensures short { IfOk result (AllByRecursion (λ gram. length gram ≤ HEAD_LEN + MAX_BODY)) }
{
    match subject_of(rec, head.assoc) {
        Some(subject) => {
            variable_grams(
                alloc,
                rec,
                &subject,
                &head_about(rec, &subject, head),
                names,
            )
        }
        None => one(alloc, error_gram(head, BAD_ASSOCIATION)),
    }
}

/// What an answer about the system or a peer repeats of its request, and the status of that
/// subject.
fn head_about(rec: &Record, subject: &Subject, head: &Head) -> Head
    ensures { result ≡ head_about rec.now subject.now head.now }
{
    Head {
        version: head.version,
        opcode: head.opcode,
        sequence: head.sequence,
        status: status_of(rec, subject),
        assoc: head.assoc,
    }
}

/// The status word of the system or of a peer.
fn status_of(rec: &Record, subject: &Subject) -> u16
    ensures { result ≡ status_of rec.now subject.now }
{
    match subject {
        Subject::System => system_status(&rec.system),
        Subject::Peer(peer) => peer_status(peer),
    }
}

/// The body that tells the status of the system or of a peer.
fn status_body(rec: &Record, subject: &Subject) -> Octets
    ensures value { result ≡ status_body rec.now subject.now }
    ensures short { length result ≤ 4 * MAX_PEERS }
{
    match subject {
        Subject::System => pairs(&rec.peers),
        Subject::Peer(_) => Octets::new(),
    }
}

/// The association number and the status word of each peer.
fn pairs(peers: &PeerViews) -> Octets
    ensures value { result ≡ flat_map status_pair peers.now }
    ensures short { length result ≤ 4 * MAX_PEERS }
{
    let mut octets = Octets::new();
    for place in 0..peers.len() {
        put_pair(&mut octets, peers.get(place));
    }
    octets
}

/// Appends the association number and the status word of a peer.
fn put_pair(octets: &mut Octets, peer: &PeerView)
    requires { length octets.old + 4 ≤ 2048 }
    ensures value { octets.new ≡ octets.old ++ status_pair peer.now }
    ensures longer { length octets.new ≡ length octets.old + 4 }
{
    octets.put(&peer.assoc.to_be_bytes());
    octets.put(&peer_status(peer).to_be_bytes());
}

/// The datagrams that give the variables of these numbers, or tell that a name is unknown.
fn variable_grams(
    alloc: Global,
    rec: &Record,
    subject: &Subject,
    head: &Head,
    names: &NameNumbers,
) -> Result<Grams, AllocError>
    ensures value { IfOk result (λ grams. grams
        ≡ variable_grams rec.now subject.now head.now names.now
        (first_unknown subject.now names.now)) }
    ensures short { IfOk result (AllByRecursion (λ gram. length gram ≤ HEAD_LEN + MAX_BODY)) }
{
    match first_unknown(subject, names.as_slice()) {
        Some(_) => one(alloc, error_gram(head, BAD_NAME)),
        None => {
            let items = variables(alloc, rec, subject, names.as_slice())?;
            cut(alloc, &items, rec.epoch, head)
        }
    }
}

/// The nonce that a client at this address gets in this context.
fn nonce_for(context: &Context, ip: &Ip) -> [u8; NONCE_LEN]
    ensures { result ≡ nonce_for context.now ip.now }
{
    make(&context.salt, ip, context.time())
}

/// The datagrams that tell a nonce.
fn nonce_grams(
    alloc: Global,
    rec: &Record,
    head: &Head,
    nonce: &[u8; NONCE_LEN],
) -> Result<Grams, AllocError>
    ensures value { IfOk result (λ grams. grams ≡ nonce_grams rec.now head.now nonce.now) }
    ensures short { IfOk result (AllByRecursion (λ gram. length gram ≤ HEAD_LEN + MAX_BODY)) }
{
    let items = nonce_items(alloc, nonce)?;
    cut(
        alloc,
        &items,
        rec.epoch,
        &head_about(rec, &Subject::System, head),
    )
}

/// A nonce as the one item of an answer.
fn nonce_items(alloc: Global, nonce: &[u8; NONCE_LEN]) -> Result<Items, AllocError>
    ensures value { IfOk result (λ items. items ≡ nonce_item nonce.now ∷ []) }
    ensures cuttable { (tag : ℕ) → IfOk result (IsCuttable tag) }
{
    let mut items = Vec::new(alloc);
    items.push(Item {
        name: fixed(alloc, b"nonce")?,
        value: Some(fixed(alloc, nonce)?),
    })?;
    Ok(Items::of(items))
}

/// The answer of one datagram.
fn one(alloc: Global, gram: Octets) -> Result<Grams, AllocError>
    requires { length gram ≤ HEAD_LEN + MAX_BODY }
    ensures value { IfOk result (λ grams. grams ≡ gram ∷ []) }
    ensures short { IfOk result (AllByRecursion (λ gram. length gram ≤ HEAD_LEN + MAX_BODY)) }
{
    let mut grams = Vec::new(alloc);
    grams.push(gram)?;
    Ok(Grams::of(grams))
}
