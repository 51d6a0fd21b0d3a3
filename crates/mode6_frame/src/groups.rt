ghost use Rattle.std.specs.Prelude.{◌≡◌, ◌+◌, ◌++◌, ◌∷◌, ◌≤◌, ◌*◌, [], List, Some, None, false, length, bytes_eq, IfOk, OnOk, OnErr, Ok};
ghost use Rattle.std.specs.List.{position_or_len};
ghost use Rattle.mode6_frame.specs.Frames.{parts_of};
ghost use Rattle.mode6_frame.specs.Groups.{begun, first_status, fragment_kept, fragment_step, group_with, groups_by, is_whole, joined, kept_after, made_of, mismatch_of, piece_of, pieces_kept, pieces_with, step_by, step_of, surplus_in, surplus_of, tag_of, untagged};
ghost use Rattle.mode6_frame.specs.declared.groups.Group.{Group};
ghost use Rattle.mode6_frame.specs.declared.groups.Piece.{Piece};
ghost use Rattle.mode6_frame.specs.declared.groups.Step.{Step};

use crate::joining::{find_piece, made};
use crate::message::Frame;
use crate::tags::{is_same, tag_in, untagged_in};
use edge_traits::Text;
use std::alloc::{AllocError, Global};
use std::marker::Model;

/// The most answers of which fragments are kept (our own rule).
pub const MAX_GROUPS: usize = 8;

/// The most fragments that are kept of one answer (our own rule).
pub const MAX_PIECES: usize = 128;

/// Why a datagram is not used, in the order of the tests.
#[derive(Clone, Copy, Debug, PartialEq, Eq)]
pub enum Unused {
    /// It is no response.
    NotAnswer,
    /// It responds to another sequence number.
    OtherSequence,
    /// It responds to another operation.
    OtherOpcode,
    /// Its place in its answer is taken.
    Repeated,
    /// It would be a fragment too many.
    Many,
}

/// What becomes of a datagram.
#[derive(Drop)]
pub enum Step {
    /// It is not used.
    Unused(Unused),
    /// It is kept, and more are wanted.
    Waiting,
    /// It refuses the request, with this error code (RFC 9327, section 3.4).
    Refused(u8),
    /// With it an answer is whole: its status and its text, without tags.
    Whole { status: u16, text: Text },
}

/// What is kept of a fragment.
#[derive(Drop)]
pub struct Piece {
    /// The place of its first octet in the whole answer.
    pub offset: u16,
    /// Whether more follow.
    pub more: bool,
    /// Its status word.
    pub status: u16,
    /// How many octets of the answer it has, the tag with them.
    pub span: usize,
    /// Its text, without the tag.
    pub text: Text,
}

/// The fragments of one answer, in order of arrival.
#[derive(Drop)]
pub struct Pieces {
    kept: Vec<Piece>,
}

impl Model for Pieces {
    ghost use Rattle.std.specs.Prelude.{List};
    ghost use Rattle.mode6_frame.specs.declared.groups.Piece.{Piece};

    ghost Value = { List Piece };

    ghost view = { λ p. p.kept.items };
}

impl Pieces {
    /// The fragments, first to last.
    fn as_slice(&self) -> &[Piece]
        ensures { result.now ≡ self.now }
    {
        self.kept.as_slice()
    }

    /// Adds the fragment that came last.
    fn push(&mut self, piece: Piece) -> Result<(), AllocError>
        ensures pushed { OnOk result (self.new ≡ self.old ++ piece ∷ []) }
        ensures kept { OnErr result (self.new ≡ self.old) }
    {
        self.kept.push(piece)?;
        Ok(())
    }

    /// Takes the fragment off that came last.
    fn pop(&mut self)
        ensures { (rest : List Piece) (piece : Piece) → self.old ≡ rest ++ piece ∷ [] → self.new ≡ rest }
    {
        let _ = self.kept.pop();
    }
}

/// The fragments of one answer, with its tag.
#[derive(Drop)]
pub struct Group {
    /// The first 25 octets of each body, or none.
    pub tag: Text,
    pub pieces: Pieces,
}

/// The fragments of the answers to one request, put together as they come (RFC 9327, section 2).
#[derive(Drop)]
pub struct Groups {
    opcode: u8,
    sequence: u16,
    groups: Vec<Group>,
}

impl Model for Groups {
    ghost use Rattle.std.specs.Prelude.{◌≤◌, All, length};
    ghost use Rattle.mode6_frame.specs.Groups.{GroupsParts};
    ghost use Rattle.mode6_frame.specs.declared.groups.TheConstants.{MAX_GROUPS, MAX_PIECES};

    ghost Value = { GroupsParts };

    ghost view = { λ g. record {
      opcode = g.opcode;
      sequence = g.sequence;
      groups = g.groups.items;
    } };

    ghost invariant = { λ g. (length g.groups.items ≤ MAX_GROUPS)
        × All (λ group. length group.pieces ≤ MAX_PIECES) g.groups.items };
}

impl Groups {
    /// No fragments yet, of the answers to the request of this operation and sequence number.
    pub fn new(alloc: Global, opcode: u8, sequence: u16) -> Groups
        ensures { result ≡ record { opcode = opcode; sequence = sequence; groups = [] } }
    {
        Groups {
            opcode,
            sequence,
            groups: Vec::new(alloc),
        }
    }

    /// Why a datagram is no answer to the request.
    fn mismatch(&self, frame: &Frame<'_>) -> Option<Unused>
        ensures { result ≡ mismatch_of self.now (parts_of frame.now) }
    {
        if !frame.response {
            return Some(Unused::NotAnswer);
        }
        if frame.sequence != self.sequence {
            return Some(Unused::OtherSequence);
        }
        if frame.opcode != self.opcode {
            return Some(Unused::OtherOpcode);
        }
        None
    }

    /// Takes one datagram (RFC 9327, section 2).
    ///
    /// The tests come in the order of `Unused`, an error response behind the first three. A datagram
    /// of offset 0 without `more` is a whole answer and is not kept. Any other is kept with the
    /// fragments of its tag, of which each but itself is compared once, and is joined with them where
    /// they are all there. After want of memory what is kept is as it was.
    pub fn take(&mut self, alloc: Global, frame: &Frame<'_>) -> Result<Step, AllocError>
        ensures step { IfOk result (λ step. step ≡ step_of self.old (parts_of frame.now)) }
        ensures after { OnOk result (self.new ≡ kept_after self.old (parts_of frame.now)) }
        ensures kept { OnErr result (self.new ≡ self.old) }

        // What is kept never falls, is one more where more is wanted, and is at most 1,024.
        ensures grows { pieces_kept self.old ≤ pieces_kept self.new }
        ensures waiting { result ≡ Ok Step.Waiting
            → pieces_kept self.new ≡ pieces_kept self.old + 1 }
        ensures at_most { pieces_kept self.new ≤ MAX_GROUPS * MAX_PIECES }
    {
        if let Some(why) = self.mismatch(frame) {
            return Ok(Step::Unused(why));
        }
        take_answer(alloc, &mut self.groups, frame)
    }
}

/// Takes one datagram that answers the request.
fn take_answer(
    alloc: Global,
    groups: &mut Vec<Group>,
    frame: &Frame<'_>,
) -> Result<Step, AllocError>
    ensures step { IfOk result
        (λ step. step ≡ step_by None groups.old.items (parts_of frame.now)) }
    ensures after { OnOk result
        (groups.new.items ≡ groups_by None groups.old.items (parts_of frame.now)) }
    ensures kept { OnErr result (groups.new.items ≡ groups.old.items) }
{
    if frame.error {
        return Ok(Step::Refused((frame.status >> 8) as u8));
    }
    if has_whole_answer(frame) {
        return whole(alloc, frame);
    }
    take_fragment(alloc, groups, frame)
}

/// Whether a datagram has a whole answer.
fn has_whole_answer(frame: &Frame<'_>) -> bool
    ensures { result ≡ is_whole (parts_of frame.now) }
{
    frame.offset == 0 && !frame.more
}

/// The answer that a datagram has.
fn whole(alloc: Global, frame: &Frame<'_>) -> Result<Step, AllocError>
    ensures { IfOk result
        (λ step. step ≡ Step.Whole frame.now.status (untagged frame.now.body.now)) }
{
    let text = Vec::from_slice(alloc, untagged_in(frame.body))?;
    Ok(Step::Whole {
        status: frame.status,
        text: Text::of(text),
    })
}

/// Takes one fragment of an answer.
fn take_fragment(
    alloc: Global,
    groups: &mut Vec<Group>,
    frame: &Frame<'_>,
) -> Result<Step, AllocError>
    requires { is_whole (parts_of frame.now) ≡ false }
    ensures step { IfOk result (λ step. step
        ≡ fragment_step (surplus_of groups.old.items (parts_of frame.now))
        (pieces_with groups.old.items (parts_of frame.now))) }
    ensures after { OnOk result (groups.new.items
        ≡ fragment_kept (surplus_of groups.old.items (parts_of frame.now)) groups.old.items
        (parts_of frame.now)) }
    ensures kept { OnErr result (groups.new.items ≡ groups.old.items) }
{
    let place = place_for(groups.as_slice(), frame);
    if place == groups.len() {
        return begin(alloc, groups, frame);
    }
    if let Some(why) = surplus_in_group(&groups[place], frame.offset) {
        return Ok(Step::Unused(why));
    }
    extend(alloc, &mut groups[place], frame)
}

/// The place of the group of a fragment's tag, or how many groups there are.
fn place_for(groups: &[Group], frame: &Frame<'_>) -> usize
    ensures { result
        ≡ position_or_len (λ (group : Group). bytes_eq group.tag (tag_of frame.now.body.now)) groups.now }
{
    place_of(groups, tag_in(frame.body))
}

/// The place of the group of a tag, or how many groups there are.
fn place_of(groups: &[Group], tag: &[u8]) -> usize
    ensures { result
        ≡ position_or_len (λ (group : Group). bytes_eq group.tag tag.now) groups.now }
{
    for place in 0..groups.len() {
        let group = &groups[place];
        if is_same(group.tag.as_slice(), tag) {
            return place;
        }
    }
    groups.len()
}

/// Begins a group with the first fragment of its tag, if there is room for one.
fn begin(alloc: Global, groups: &mut Vec<Group>, frame: &Frame<'_>) -> Result<Step, AllocError>
    requires { is_whole (parts_of frame.now) ≡ false }
    ensures step { IfOk result (λ step. step
        ≡ fragment_step (surplus_in None (length groups.old.items) frame.now.offset)
        (piece_of (parts_of frame.now) ∷ [])) }
    ensures after { OnOk result (groups.new.items
        ≡ begun (surplus_in None (length groups.old.items) frame.now.offset) groups.old.items
        (parts_of frame.now)) }
    ensures kept { OnErr result (groups.new.items ≡ groups.old.items) }
{
    if groups.len() >= MAX_GROUPS {
        return Ok(Step::Unused(Unused::Many));
    }
    groups.push(new_group(alloc, frame)?)?;
    Ok(Step::Waiting)
}

/// The group of a fragment alone.
fn new_group(alloc: Global, frame: &Frame<'_>) -> Result<Group, AllocError>
    ensures { IfOk result (λ group. group ≡ record {
      tag = tag_of frame.now.body.now;
      pieces = piece_of (parts_of frame.now) ∷ [];
    }) }
{
    let tag = Text::of(Vec::from_slice(alloc, tag_in(frame.body))?);
    let mut kept = Vec::new(alloc);
    kept.push(piece_in(alloc, frame)?)?;
    Ok(Group {
        tag,
        pieces: Pieces { kept },
    })
}

/// Why a fragment from this place on is not kept in the group of its tag.
fn surplus_in_group(group: &Group, offset: u16) -> Option<Unused>
    ensures { result ≡ surplus_in (Some group.now) 0 offset }
{
    let pieces = group.pieces.as_slice();
    if let Some(_kept) = find_piece(pieces, u128::from(offset)) {
        return Some(Unused::Repeated);
    }
    if pieces.len() >= MAX_PIECES {
        return Some(Unused::Many);
    }
    None
}

/// Keeps a fragment in the group of its tag, and joins the group where it is whole.
fn extend(alloc: Global, group: &mut Group, frame: &Frame<'_>) -> Result<Step, AllocError>
    ensures step { IfOk result (λ step. step
        ≡ made_of (first_status (group.old.pieces ++ piece_of (parts_of frame.now) ∷ []))
        (joined (group.old.pieces ++ piece_of (parts_of frame.now) ∷ []))) }
    ensures after { OnOk result
        (group.new ≡ group_with group.old (piece_of (parts_of frame.now))) }
    ensures kept { OnErr result (group.new ≡ group.old) }
{
    group.pieces.push(piece_in(alloc, frame)?)?;
    match made(alloc, group.pieces.as_slice()) {
        Ok(step) => Ok(step),
        Err(fault) => {
            group.pieces.pop();
            Err(fault)
        }
    }
}

/// What is kept of a fragment.
fn piece_in(alloc: Global, frame: &Frame<'_>) -> Result<Piece, AllocError>
    ensures { IfOk result (λ piece. piece ≡ piece_of (parts_of frame.now)) }
{
    let text = Vec::from_slice(alloc, untagged_in(frame.body))?;
    Ok(Piece {
        offset: frame.offset,
        more: frame.more,
        status: frame.status,
        span: frame.body.len(),
        text: Text::of(text),
    })
}
