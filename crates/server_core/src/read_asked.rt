ghost use Rattle.std.specs.Prelude.{◌≡◌, ◌↔◌, List, IsTrue, IfOk};
ghost use Rattle.std.specs.Option.{option_copied};
ghost use Rattle.mode6_frame.specs.declared.items.Item.{Item};
ghost use Rattle.mode6_frame.specs.Frames.{parts_of, FitsFrame};
ghost use Rattle.mode6_frame.specs.declared.operations.TheConstants.{OP_READ_MRU};
ghost use Rattle.server_core.specs.declared.class.Class.{Class};
ghost use Rattle.sys_vars.specs.declared.asked.What.{What};
ghost use Rattle.server_core.specs.Control.{IsHeadOf};
ghost use Rattle.server_core.specs.Reads.{HasGoodNonce, IsReadText, IsRequestClass, nonce_in};

use crate::class::{Class, ReadAsk, Unheard};
use crate::control::head_of;
use edge_traits::Text;
use mode6_frame::{BAD_FORMAT, BAD_VALUE, Frame, ItemFault, Items, read_items};
use mode6_nonce::check;
use mru_items::{RequestFault, read_request};
use net_addr::Addr;
use std::alloc::{AllocError, Global};
use sys_vars::{Asked, Context, What};

/// What a read of the client list asks for (RFC 9327, section 4, command 10). Whether its body is a
/// text of items is tested first, then its nonce, and then all other items.
pub(crate) fn classify_read(
    alloc: Global,
    frame: &Frame<'_>,
    from: &Addr,
    context: &Context,
) -> Result<Class, AllocError>
    requires fits { FitsFrame (parts_of frame.now) }
    requires reads { frame.now.opcode ≡ OP_READ_MRU }
    ensures found { IfOk result
        (λ class. IsRequestClass (parts_of frame.now) from.now context.now class) }
    ensures only { (class : Class)
        → IsRequestClass (parts_of frame.now) from.now context.now class
        → IfOk result (λ it. it ≡ class) }
{
    match read_items(alloc, frame.body) {
        Ok(items) => classify_items(alloc, frame, &items, from, context),
        Err(ItemFault::At { .. }) => Ok(Class::Look(refused(frame, from, BAD_FORMAT))),
        Err(ItemFault::NoMemory) => Err(AllocError),
    }
}

/// What these items of a read ask for.
fn classify_items(
    alloc: Global,
    frame: &Frame<'_>,
    items: &Items,
    from: &Addr,
    context: &Context,
) -> Result<Class, AllocError>
    requires fits { FitsFrame (parts_of frame.now) }
    requires text { IsReadText (parts_of frame.now) items.now }
    requires one { (others : List Item) → IsReadText (parts_of frame.now) others → items.now ≡ others }
    ensures found { IfOk result
        (λ class. IsRequestClass (parts_of frame.now) from.now context.now class) }
    ensures only { (class : Class)
        → IsRequestClass (parts_of frame.now) from.now context.now class
        → IfOk result (λ it. it ≡ class) }
{
    if !has_good_nonce(items, from, context) {
        return Ok(Class::Silent(Unheard::BadNonce));
    }
    match read_request(alloc, items, context.origin) {
        Ok(request) => Ok(Class::Read(ReadAsk {
            from: *from,
            head: head_of(frame),
            request,
        })),
        Err(RequestFault::BadValue) => Ok(Class::Look(refused(frame, from, BAD_VALUE))),
        Err(RequestFault::NoMemory) => Err(AllocError),
    }
}

/// A request that is refused with this error code.
fn refused(frame: &Frame<'_>, from: &Addr, code: u8) -> Asked
    requires { FitsFrame (parts_of frame.now) }
    ensures from { result.from ≡ from.now }
    ensures head { IsHeadOf (parts_of frame.now) result.head }
    ensures what { result.what ≡ What.Bad code }
{
    Asked {
        from: *from,
        head: head_of(frame),
        what: What::Bad(code),
    }
}

/// Whether the first item `nonce` has a value that is a good nonce for this sender now.
fn has_good_nonce(items: &Items, from: &Addr, context: &Context) -> bool
    ensures { IsTrue result ↔ HasGoodNonce from.now context.now items.now }
{
    match nonce_in(items) {
        Some(nonce) => check(&context.salt, &from.ip, nonce.as_slice(), context.time()),
        None => false,
    }
}

/// The value of the first item `nonce`, where there is one and it has a value.
fn nonce_in(items: &Items) -> Option<&Text>
    ensures { option_copied result ≡ nonce_in items.now }
{
    for i in 0..items.len() {
        let item = items.get(i);
        if item.name.as_slice() == b"nonce".as_slice() {
            return item.value.as_ref();
        }
    }
    None
}
