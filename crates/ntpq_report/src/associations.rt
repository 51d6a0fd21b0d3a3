ghost use Rattle.std.specs.Prelude.{◌≡◌, ◌≢◌, ◌↔◌, ◌+◌, ◌%◌, ◌^◌, ◌<◌, ◌≤◌, List, Ok, IfOk, length, take, drop, slice_index_or};
ghost use Rattle.std.specs.Result.{IsErrOf};
ghost use Rattle.byteorder.specs.Endian.{big_bytes};
ghost use Rattle.mode6_frame.specs.Told.{IsUnless};
ghost use Rattle.ntpq_report.specs.declared.associations.AssociationStatus.{AssociationStatus};
ghost use Rattle.ntpq_report.specs.declared.faults.ReportFault.TheVariants.{BadReply, NoMemory};
ghost use Rattle.ntpq_report.specs.Associations.{FitsAssociation, IsStatusBody, association_octets};

use crate::faults::ReportFault;
use byteorder::{BigEndian, ByteOrder};
use std::alloc::{AllocError, Global};
use std::marker::Model;

/// The octets that an association takes in the body.
pub const ASSOCIATION_LEN: usize = 4;

/// An association of a server, with its status word (RFC 9327, section 3.2).
#[derive(Clone, Copy, Debug, PartialEq, Eq)]
pub struct AssociationStatus {
    /// Its number.
    pub assoc: u16,
    /// Its peer status word.
    pub status: u16,
}

/// The associations of a server, in its order.
#[derive(Drop)]
pub struct Associations {
    kept: Vec<AssociationStatus>,
}

impl Model for Associations {
    ghost use Rattle.std.specs.Prelude.{List};
    ghost use Rattle.ntpq_report.specs.declared.associations.AssociationStatus.{AssociationStatus};

    ghost Value = { List AssociationStatus };

    ghost view = { λ a. a.kept.items };
}

impl Associations {
    /// How many there are.
    pub fn len(&self) -> usize
        ensures { result ≡ length self.now }
    {
        self.kept.len()
    }

    /// The association at a place, counted from 0.
    pub fn get(&self, place: usize) -> AssociationStatus
        requires { place < length self.now }
        ensures { result ≡ slice_index_or self.now place result }
    {
        self.kept[place]
    }
}

/// The associations that the body of an answer to read status names (RFC 9327, section 4): each by
/// its number and its status word.
pub fn read_associations(alloc: Global, body: &[u8]) -> Result<Associations, ReportFault>
    ensures found { IfOk result (λ associations. IsStatusBody body.now associations) }
    ensures only { (associations : List AssociationStatus) → IsStatusBody body.now associations
        → IsUnless NoMemory result (Ok associations) }

    // The refusals: want of memory comes freely.
    ensures refused { IsErrOf result BadReply ↔ (length body.now % ASSOCIATION_LEN ≢ 0) }
{
    if body.len() % ASSOCIATION_LEN != 0 {
        return Err(ReportFault::BadReply);
    }
    Ok(Associations {
        kept: named_in(alloc, body)?,
    })
}

/// The associations in a body of whole ones.
fn named_in(alloc: Global, body: &[u8]) -> Result<Vec<AssociationStatus>, AllocError>
    requires { length body.now % ASSOCIATION_LEN ≡ 0 }
    ensures { IfOk result (λ kept. IsStatusBody body.now kept.items) }
{
    let mut kept = Vec::new(alloc);
    for place in 0..body.len() / ASSOCIATION_LEN {
        kept.push(association_at(body, ASSOCIATION_LEN * place))?;
    }
    Ok(kept)
}

/// The association at a place of the body.
fn association_at(body: &[u8], at: usize) -> AssociationStatus
    requires { at + ASSOCIATION_LEN ≤ length body.now }
    ensures spelled { association_octets result ≡ take ASSOCIATION_LEN (drop at body.now) }
    ensures fits { FitsAssociation result }
{
    AssociationStatus {
        assoc: word_at(body, at),
        status: word_at(body, at + 2),
    }
}

/// The word of 16 bits at a place of the body.
fn word_at(body: &[u8], at: usize) -> u16
    requires { at + 2 ≤ length body.now }
    ensures spelled { big_bytes 2 result ≡ take 2 (drop at body.now) }
    ensures fits { result < 2 ^ 16 }
{
    BigEndian::read_u16(&body[at..])
}
