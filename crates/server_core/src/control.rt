ghost use Rattle.std.specs.Prelude.{◌≡◌, ◌≢◌, ◌≤◌, List, length, IfOk, IfErr};
ghost use Rattle.mac_keys.specs.declared.keys.Key.{Key};
ghost use Rattle.mode6_frame.specs.declared.items.Item.{Item};
ghost use Rattle.mode6_frame.specs.Frames.{parts_of, FitsFrame, mode_of};
ghost use Rattle.sys_vars.specs.declared.asked.Asked.{Asked};
ghost use Rattle.sys_vars.specs.declared.asked.What.{What};
ghost use Rattle.sys_vars.specs.declared.asked.TheConstants.{MAX_NAMES};
ghost use Rattle.ntp_packet.specs.declared.leap_version_mode.TheConstants.{MODE_CONTROL};
ghost use Rattle.server_core.specs.declared.class.Class.{Class};
ghost use Rattle.server_core.specs.Class.{IsClass};
ghost use Rattle.server_core.specs.Reads.{IsRequestClass};
ghost use Rattle.server_core.specs.Control.{HasItems, IsReadRequest, AreNumbersAsked, IsWhat, IsHeadOf, IsAskedOf, frame_number, has_answer_bit};

use crate::class::{Class, Unheard};
use crate::read_asked::classify_read;
use mode6_frame::{
    BAD_FORMAT, BAD_OPERATION, Frame, FrameFault, Head, ItemFault, Items, OP_READ_MRU,
    OP_READ_NONCE, OP_READ_STATUS, OP_READ_VARIABLES, read_items,
};
use net_addr::Addr;
use std::alloc::{AllocError, Global};
use sys_vars::{Asked, Context, NameNumbers, What, name_number};

/// What a datagram of a control message's mode asks for.
pub(crate) fn classify_control(
    alloc: Global,
    bytes: &[u8],
    from: &Addr,
    context: &Context,
) -> Result<Class, AllocError>
    requires mode { mode_of bytes.now ≡ MODE_CONTROL }
    ensures found { (keys : List Key)
        → IfOk result (λ class. IsClass bytes.now from.now keys context.now class) }
    ensures only { (keys : List Key) → (class : Class)
        → IsClass bytes.now from.now keys context.now class → IfOk result (λ it. it ≡ class) }
    ensures no_memory { IfErr result (λ _. IsReadRequest bytes.now) }
{
    match mode6_frame::read(bytes) {
        Err(fault) => Ok(Class::Silent(Unheard::Frame(number_of(fault)))),
        Ok(frame) => {
            if is_answer(&frame) {
                Ok(Class::Silent(Unheard::NotRequest))
            } else {
                classify_request(alloc, &frame, from, context)
            }
        }
    }
}

/// What a control request asks for.
fn classify_request(
    alloc: Global,
    frame: &Frame<'_>,
    from: &Addr,
    context: &Context,
) -> Result<Class, AllocError>
    requires { FitsFrame (parts_of frame.now) }
    ensures found { IfOk result
        (λ class. IsRequestClass (parts_of frame.now) from.now context.now class) }
    ensures only { (class : Class)
        → IsRequestClass (parts_of frame.now) from.now context.now class
        → IfOk result (λ it. it ≡ class) }
    ensures no_memory { IfErr result (λ _. HasItems frame.now.opcode) }
{
    if frame.opcode == OP_READ_MRU {
        classify_read(alloc, frame, from, context)
    } else {
        Ok(Class::Look(asked_by(alloc, frame, from)?))
    }
}

fn number_of(fault: FrameFault) -> u8
    ensures { result ≡ frame_number fault }
{
    match fault {
        FrameFault::Short => 1,
        FrameFault::BadVersion => 2,
        FrameFault::BadMode => 3,
        FrameFault::BadCount => 4,
    }
}

/// Whether a bit is set that no request has.
fn is_answer(frame: &Frame<'_>) -> bool
    ensures { result ≡ has_answer_bit (parts_of frame.now) }
{
    frame.response || frame.error || frame.more
}

fn asked_by(alloc: Global, frame: &Frame<'_>, from: &Addr) -> Result<Asked, AllocError>
    requires fits { FitsFrame (parts_of frame.now) }
    requires other { frame.now.opcode ≢ OP_READ_MRU }
    ensures found { IfOk result (λ asked. IsAskedOf (parts_of frame.now) from.now asked) }
    ensures only { (asked : Asked) → IsAskedOf (parts_of frame.now) from.now asked
        → IfOk result (λ it. it ≡ asked) }
    ensures no_memory { IfErr result (λ _. frame.now.opcode ≡ OP_READ_VARIABLES) }
{
    let what = what_asked(alloc, frame)?;
    Ok(Asked {
        from: *from,
        head: head_of(frame),
        what,
    })
}

/// What the answer to a request repeats of it.
pub(crate) fn head_of(frame: &Frame<'_>) -> Head
    requires { FitsFrame (parts_of frame.now) }
    ensures { IsHeadOf (parts_of frame.now) result }
{
    Head {
        version: frame.version,
        opcode: frame.opcode,
        sequence: frame.sequence,
        status: 0,
        assoc: frame.assoc,
    }
}

fn what_asked(alloc: Global, frame: &Frame<'_>) -> Result<What, AllocError>
    requires fits { FitsFrame (parts_of frame.now) }
    requires other { frame.now.opcode ≢ OP_READ_MRU }
    ensures found { IfOk result (λ what. IsWhat (parts_of frame.now) what) }
    ensures only { (what : What) → IsWhat (parts_of frame.now) what
        → IfOk result (λ it. it ≡ what) }
    ensures no_memory { IfErr result (λ _. frame.now.opcode ≡ OP_READ_VARIABLES) }
{
    if frame.opcode == OP_READ_STATUS {
        Ok(What::Status)
    } else if frame.opcode == OP_READ_VARIABLES {
        variables_asked(alloc, frame)
    } else if frame.opcode == OP_READ_NONCE {
        Ok(What::Nonce)
    } else {
        Ok(What::Bad(BAD_OPERATION))
    }
}

/// What a request to read variables asks for.
fn variables_asked(alloc: Global, frame: &Frame<'_>) -> Result<What, AllocError>
    requires fits { FitsFrame (parts_of frame.now) }
    requires reads { frame.now.opcode ≡ OP_READ_VARIABLES }
    ensures found { IfOk result (λ what. IsWhat (parts_of frame.now) what) }
    ensures only { (what : What) → IsWhat (parts_of frame.now) what
        → IfOk result (λ it. it ≡ what) }
{
    match read_items(alloc, frame.body) {
        Ok(items) => Ok(What::Vars(numbers_asked(alloc, frame.assoc, &items)?)),
        Err(ItemFault::At { .. }) => Ok(What::Bad(BAD_FORMAT)),
        Err(ItemFault::NoMemory) => Err(AllocError),
    }
}

/// The numbers by which the names of these items are asked of an association, or of the system.
fn numbers_asked(alloc: Global, assoc: u16, items: &Items) -> Result<NameNumbers, AllocError>
    requires { length items.now ≤ MAX_NAMES }
    ensures { IfOk result (λ numbers. AreNumbersAsked assoc items.now numbers) }
{
    let mut numbers = Vec::new(alloc);
    for i in 0..items.len() {
        numbers.push(name_number(assoc, items.get(i).name.as_slice()))?;
    }
    Ok(NameNumbers::of(numbers))
}
