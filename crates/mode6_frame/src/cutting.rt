ghost use Rattle.std.specs.Prelude.{◌≡◌, ◌+◌, ◌≤◌, ℕ, true, false, List, [], ◌∷◌, ◌++◌, length, codes, nat_le, IfOk, OnOk};
ghost use Rattle.std.specs.List.{AllByRecursion};
ghost use Rattle.byteorder.specs.Endian.{big_bytes};
ghost use Rattle.edge_traits.specs.declared.octets.TheConstants.{MAX_OCTETS};
ghost use Rattle.hex.specs.Hex.{encode_lower};
ghost use Rattle.mode6_frame.specs.Drafts.{parts_after, grams_of};
ghost use Rattle.mode6_frame.specs.Cuts.{AreShort, IsCuttable, TAG_ITEM_LEN, datagrams, laid, lengths_of, octets_in, part_frame, parts_count, runs_after, tag_item, whole_part, width_of};
ghost use Rattle.mode6_frame.specs.Frames.{spelled_frame};
ghost use Rattle.mode6_frame.specs.ItemTexts.{item_text, plain_text};

use crate::item_writing::{add_item, text_len};
use crate::items::{Item, Items};
use crate::message::{Frame, HEAD_LEN, Head, MAX_BODY};
use crate::writing::write;
use edge_traits::{Grams, Octets};
use std::alloc::{AllocError, Global};

/// The most octets of an item's text that fit behind a tag (our own rule).
pub const MAX_ITEM: usize = 440;

/// The response to a request whose body is this, whole in one datagram (RFC 9327, section 2).
pub fn whole_gram(head: &Head, body: &[u8]) -> Octets
    requires { length body.now ≤ MAX_BODY }
    ensures spelled { result ≡ spelled_frame (part_frame head.now (whole_part body.now)) }
    ensures short { length result ≤ HEAD_LEN + MAX_BODY }
{
    part_gram(head, 0, false, body)
}

/// The datagrams of the answer with these items, in order (RFC 9327, section 2).
///
/// A text of at most 468 octets stands in one datagram, without the tag. Otherwise each datagram
/// begins with the tag as the item `resp`, and takes items as long as they fit.
pub fn cut(alloc: Global, items: &Items, tag: u64, head: &Head) -> Result<Grams, AllocError>
    requires { IsCuttable tag items.now }
    ensures value { IfOk result (λ grams. grams ≡ datagrams head.now tag items.now) }
    ensures count { IfOk result (λ grams. length grams ≡ parts_count (lengths_of items.now)) }
    ensures short { IfOk result
        (AllByRecursion (λ gram. length gram ≤ HEAD_LEN + MAX_BODY)) }
{
    if !fits_whole(items) {
        return cut_tagged(alloc, items, tag, head);
    }
    let mut grams = Vec::new(alloc);
    grams.push(whole_gram(head, plain_body(items).as_slice()))?;
    Ok(Grams::of(grams))
}

/// Whether the text of the items fits into one datagram.
fn fits_whole(items: &Items) -> bool
    requires { AreShort items.now }
    ensures { result ≡ nat_le (length (plain_text items.now)) MAX_BODY }
{
    let mut used: usize = 0;
    for i in 0..items.len() {
        used += 2 + text_len(items.get(i));
        if used > MAX_BODY {
            return false;
        }
    }
    true
}

/// The text of items in one datagram.
fn plain_body(items: &Items) -> Octets
    requires { length (plain_text items.now) ≤ MAX_BODY }
    ensures { result ≡ plain_text items.now }
{
    let mut body = Octets::new();
    if items.len() == 0 {
        return body;
    }
    add_item(&mut body, items.get(0));
    for i in 1..items.len() {
        add_spaced(&mut body, items.get(i));
    }
    body.put(b"\r\n");
    body
}

/// The datagrams of an answer that one does not hold: each begins with the tag.
fn cut_tagged(alloc: Global, items: &Items, tag: u64, head: &Head) -> Result<Grams, AllocError>
    requires short { AreShort items.now }
    requires placed { octets_in (laid tag 0 (runs_after TAG_ITEM_LEN items.now)) ≤ 65535 }
    ensures { IfOk result
        (λ grams. grams ≡ grams_of head.now (laid tag 0 (runs_after TAG_ITEM_LEN items.now))) }
{
    let mut draft = Draft {
        grams: Vec::new(alloc),
        offset: 0,
        body: tag_octets(tag),
    };
    for i in 0..items.len() {
        take_item(&mut draft, items.get(i), tag, head)?;
    }
    end_draft(draft, head)
}

/// An answer under way: its full datagrams, and the body of the next, with its place.
#[derive(Drop)]
struct Draft {
    grams: Vec<Octets>,
    offset: usize,
    body: Octets,
}

/// Puts an item into the body under way, or into the next where it does not fit.
fn take_item(draft: &mut Draft, item: &Item, tag: u64, head: &Head) -> Result<(), AllocError>
    requires short { length (item_text item.now) ≤ MAX_ITEM }
    requires room { length draft.old.body + 3 ≤ MAX_BODY }
    requires placed { draft.old.offset ≤ 65535 }
    ensures grams { (items : List Item) → OnOk result
        (draft.new.grams.items
        ++ grams_of head.now (parts_after tag draft.new.offset draft.new.body items)
        ≡ draft.old.grams.items
        ++ grams_of head.now (parts_after tag draft.old.offset draft.old.body (item.now ∷ items))) }
    ensures octets { (items : List Item) → OnOk result
        (draft.new.offset + octets_in (parts_after tag draft.new.offset draft.new.body items)
        ≡ draft.old.offset
        + octets_in (parts_after tag draft.old.offset draft.old.body (item.now ∷ items))) }
    ensures room { OnOk result (length draft.new.body + 3 ≤ MAX_BODY) }
{
    if draft.body.len() + 2 + text_len(item) + 3 <= MAX_BODY {
        add_spaced(&mut draft.body, item);
        return Ok(());
    }
    end_part(draft, tag, head)?;
    add_spaced(&mut draft.body, item);
    Ok(())
}

/// Makes the body under way a datagram that others follow, and begins the next.
fn end_part(draft: &mut Draft, tag: u64, head: &Head) -> Result<(), AllocError>
    requires room { length draft.old.body + 3 ≤ MAX_BODY }
    requires placed { draft.old.offset ≤ 65535 }
    ensures grams { OnOk result (draft.new.grams.items ≡ draft.old.grams.items
        ++ spelled_frame (part_frame head.now (record {
          offset = draft.old.offset;
          more = true;
          body = draft.old.body ++ codes ",\r\n";
        })) ∷ []) }
    ensures offset { OnOk result
        (draft.new.offset ≡ draft.old.offset + (length draft.old.body + 3)) }
    ensures body { OnOk result (draft.new.body ≡ tag_item tag) }
{
    draft.body.put(b",\r\n");
    let gram = part_gram(head, draft.offset, true, draft.body.as_slice());
    draft.grams.push(gram)?;
    draft.offset += draft.body.len();
    draft.body = tag_octets(tag);
    Ok(())
}

/// Makes the body under way the last datagram.
fn end_draft(draft: Draft, head: &Head) -> Result<Grams, AllocError>
    requires room { length draft.body + 3 ≤ MAX_BODY }
    requires placed { draft.offset ≤ 65535 }
    ensures { IfOk result (λ grams. grams ≡ draft.grams.items
        ++ spelled_frame (part_frame head.now (record {
          offset = draft.offset;
          more = false;
          body = draft.body ++ codes "\r\n";
        })) ∷ []) }
{
    let mut draft = draft;
    draft.body.put(b"\r\n");
    let gram = part_gram(head, draft.offset, false, draft.body.as_slice());
    draft.grams.push(gram)?;
    Ok(Grams::of(draft.grams))
}

/// The response with one part of an answer: its place, and whether more follow.
fn part_gram(head: &Head, offset: usize, more: bool, body: &[u8]) -> Octets
    requires body { length body.now ≤ MAX_BODY }
    requires placed { offset ≤ 65535 }
    ensures spelled { result ≡ spelled_frame (part_frame head.now
        (record { offset = offset; more = more; body = body.now })) }
    ensures short { length result ≤ HEAD_LEN + MAX_BODY }
{
    write(&Frame {
        leap: 0,
        version: head.version,
        response: true,
        error: false,
        more,
        opcode: head.opcode,
        sequence: head.sequence,
        status: head.status,
        assoc: head.assoc,
        offset: offset as u16,
        body,
        rest: &[],
    })
}

/// Appends an item behind a comma and a space.
fn add_spaced(body: &mut Octets, item: &Item)
    requires { length body.old + width_of item.now ≤ MAX_OCTETS }
    ensures added { body.new ≡ body.old ++ (codes ", " ++ item_text item.now) }
    ensures longer { length body.new ≡ length body.old + width_of item.now }
{
    body.put(b", ");
    add_item(body, item);
}

/// The tag as an item.
fn tag_octets(tag: u64) -> Octets
    ensures tag { result ≡ tag_item tag }
    ensures length { length result ≡ TAG_ITEM_LEN }
{
    let mut octets = Octets::new();
    octets.put(b"resp=0x");
    octets.put(&tag_digits(tag));
    octets
}

/// The digits of a tag.
fn tag_digits(tag: u64) -> [u8; 16]
    ensures { result ≡ encode_lower (big_bytes 8 tag) }
{
    let mut digits = [0; 16];
    hex::encode_to_slice(tag.to_be_bytes(), &mut digits).unwrap();
    digits
}
