ghost use Rattle.std.specs.Prelude.{◌≡◌, ◌↔◌, List, Some, Contains};
ghost use Rattle.mode6_frame.specs.Frames.{parts_of};
ghost use Rattle.mode6_frame.specs.Groups.{GroupsParts, kept_after, step_of};
ghost use Rattle.mode6_frame.specs.Items.{IsItemText};
ghost use Rattle.mode6_frame.specs.Readings.{items_read};
ghost use Rattle.mode6_frame.specs.Served.{AreOf, AreServed, IsDatagramOf, IsTold, Served};

use crate::items::Items;
use crate::message::Frame;

/// The items that are read of a text are exactly those that it is a text of.
pub fn a_text_has_the_items_that_are_read(text: &[u8], items: &Items)
    ensures { (items_read text.now ≡ Some items.now) ↔ IsItemText text.now items.now }
{}

/// Where fragments of these answers alone are kept, a datagram of one of them leads to a whole answer
/// only if it tells that one, and to a refusal only if that one is the refusal; what is kept then is
/// again of these answers.
pub fn a_whole_answer_is_of_its_last_datagram(frame: &Frame<'_>)
    ghost given: { record { answers : List Served; answer : Served; groups : GroupsParts } }
    requires served { AreServed given.answers }
    requires among { Contains given.answers given.answer }
    requires datagram { IsDatagramOf given.answer (parts_of frame.now) }
    requires kept { AreOf given.answers given.groups }
    ensures told { IsTold given.answer (step_of given.groups (parts_of frame.now)) }
    ensures kept { AreOf given.answers (kept_after given.groups (parts_of frame.now)) }
{}
