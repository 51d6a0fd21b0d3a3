ghost use Rattle.std.specs.Prelude.{◌≡◌, ◌<◌, ◌≤◌, codes, length};
ghost use Rattle.std.specs.List.{AllByRecursion, flat_map, join_by};
ghost use Rattle.mode6_frame.specs.declared.message.TheConstants.{MAX_BODY};
ghost use Rattle.mode6_frame.specs.Cuts.{AreGreedy, AreShort, IsCuttable, LieFrom, TAG_ITEM_LEN, lengths_of, parts_count, parts_cut, runs_after, tag_text};
ghost use Rattle.mode6_frame.specs.Groups.{tag_of};
ghost use Rattle.mode6_frame.specs.Items.{IsItemText};
ghost use Rattle.mode6_frame.specs.ItemTexts.{IsWritable, item_text};
ghost use Rattle.mode6_frame.specs.Served.{text_in};

use crate::items::Items;

/// The bodies of an answer's parts, end to end and without their tags, are a text of its items.
pub fn answers_are_read_back(items: &Items, tag: u64)
    requires writable { AllByRecursion IsWritable items.now }
    requires cuttable { IsCuttable tag items.now }
    ensures { IsItemText (text_in (parts_cut tag items.now)) items.now }
{}

/// Items with a comma and a space between, and no line end, are a text of them; for no items it is
/// empty.
pub fn spaced_items_are_read_back(items: &Items)
    requires writable { AllByRecursion IsWritable items.now }
    ensures { IsItemText (join_by item_text (codes ", ") items.now) items.now }
{}

/// The parts lie end to end from the first octet on, all but the last say that more follow, and no
/// body is too long.
pub fn parts_lie_end_to_end(items: &Items, tag: u64)
    requires { AreShort items.now }
    ensures lie { LieFrom 0 (parts_cut tag items.now) }
    ensures short { AllByRecursion (λ part. length part.body ≤ MAX_BODY) (parts_cut tag items.now) }
{}

/// The items of the parts are those of the answer, in their order; each part takes items as long as
/// they fit.
pub fn parts_are_filled(items: &Items)
    requires { AreShort items.now }
    ensures joined { flat_map (λ run. run) (runs_after TAG_ITEM_LEN items.now) ≡ items.now }
    ensures greedy { AreGreedy TAG_ITEM_LEN (runs_after TAG_ITEM_LEN items.now) }
{}

/// The parts of an answer in several share its tag.
pub fn parts_share_a_tag(items: &Items, tag: u64)
    requires short { AreShort items.now }
    requires several { 2 ≤ length (parts_cut tag items.now) }
    ensures { AllByRecursion (λ part. tag_of part.body ≡ tag_text tag) (parts_cut tag items.now) }
{}

/// Different tags are told apart by their texts.
pub fn tags_are_told_apart(tag: u64, other: u64)
    requires { tag_text tag ≡ tag_text other }
    ensures { tag ≡ other }
{}

/// How many parts there are follows from the lengths of the items' texts.
pub fn lengths_tell_the_number_of_parts(items: &Items, others: &Items, tag: u64, other: u64)
    requires { lengths_of items.now ≡ lengths_of others.now }
    ensures { length (parts_cut tag items.now) ≡ length (parts_cut other others.now) }
{}

/// Short items that make few parts can be cut: their bodies have places that a frame can tell.
pub fn few_parts_can_be_cut(items: &Items, tag: u64)
    requires short { AreShort items.now }
    requires few { parts_count (lengths_of items.now) ≤ 140 }
    ensures { IsCuttable tag items.now }
{}

/// Few short items can be cut.
pub fn few_items_can_be_cut(items: &Items, tag: u64)
    requires short { AreShort items.now }
    requires few { length items.now < 140 }
    ensures { IsCuttable tag items.now }
{}
