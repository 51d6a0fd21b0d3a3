ghost use Rattle.std.specs.Prelude.{◌≡◌, Some, None, IfOk, IfSome, IsOk, OnOk};
ghost use Rattle.mru_items.specs.Queries.{IsQuery};
ghost use Rattle.ntpq_client.specs.Requests.{IsRequest};
ghost use Rattle.mrulist_reader.specs.Readers.{after_refusal, after_silence, after_whole, due_of, listing_of, new_reader};

use crate::listing::{End, Listing};
use crate::progress::Progress;
use crate::requests::nonce_request;
use edge_traits::Text;
use mru_items::Query;
use ntpq_client::{Plan, Request};
use std::alloc::{AllocError, Global};
use std::marker::Model;

/// A listing under way.
#[derive(Drop)]
pub struct Reader {
    progress: Progress,
    // The request that is due.
    due: Option<Request>,
}

impl Model for Reader {
    ghost use Rattle.std.specs.Prelude.{◌≡◌, IfSome};
    ghost use Rattle.ntpq_client.specs.Requests.{IsRequest};
    ghost use Rattle.mrulist_reader.specs.Readers.{ReaderParts, due_of};

    ghost Value = { ReaderParts };

    ghost view = { λ r. r.progress };

    ghost invariant = { λ r. (r.due ≡ due_of r.progress) × IfSome r.due IsRequest };
}

impl Reader {
    /// A listing of this query, before its first request.
    pub fn new(alloc: Global, query: &Query) -> Reader
        requires { IsQuery query.now }
        ensures { result ≡ new_reader query.now }
    {
        Reader {
            progress: Progress::new(alloc, query),
            due: Some(nonce_request(alloc)),
        }
    }

    /// How the listing ended, if it did.
    pub fn end(&self) -> Option<End>
        ensures { result ≡ self.now.end }
    {
        self.progress.end()
    }

    /// How many whole answers the listing took: those to requests for a nonce with them.
    pub fn whole_answers(&self) -> u32
        ensures { result ≡ self.now.whole }
    {
        self.progress.whole_answers()
    }

    /// What a listing that ended at this time comes to.
    pub fn into_listing(self, alloc: Global, now: u64) -> Result<Listing, AllocError>
        ensures { IfOk result (λ listing. listing ≡ listing_of self now) }
    {
        self.progress.into_listing(alloc, now)
    }
}

/// What is due after a step that was done.
fn due_after(
    alloc: Global,
    progress: &Progress,
    done: Result<(), AllocError>,
) -> Result<Option<Request>, AllocError>
    ensures value { IfOk result (λ due. due ≡ due_of progress.now) }
    ensures request { IfOk result (λ due. IfSome due IsRequest) }
    ensures done { OnOk result (IsOk done) }
{
    match done {
        Ok(()) => progress.due(alloc),
        Err(fault) => Err(fault),
    }
}

/// Keeps what is due after a step that was done; without memory the listing ends, and nothing is.
fn settle(
    alloc: Global,
    progress: &mut Progress,
    due: &mut Option<Request>,
    done: Result<(), AllocError>,
) -> Result<(), AllocError>
    ensures due { due.new ≡ due_of progress.new }
    ensures request { IfSome due.new IsRequest }
    ensures kept { OnOk result (progress.new ≡ progress.old) }
    ensures done { OnOk result (IsOk done) }
{
    match due_after(alloc, progress, done) {
        Ok(next) => {
            *due = next;
            Ok(())
        }
        Err(fault) => {
            progress.end_badly();
            *due = None;
            Err(fault)
        }
    }
}

impl Plan for Reader {
    ghost due = { λ reader. due_of reader };

    ghost whole = { λ status text reader. after_whole status text reader };

    ghost refused = { λ code reader. after_refusal code reader };

    ghost silent = { λ reader. after_silence reader };

    fn due(&self) -> Option<&Request> {
        self.due.as_ref()
    }

    fn whole(&mut self, alloc: Global, status: u16, text: Text) -> Result<(), AllocError> {
        let _ = status;
        let done = self.progress.answer(alloc, text.as_slice());
        settle(alloc, &mut self.progress, &mut self.due, done)
    }

    fn refused(&mut self, alloc: Global, code: u8) -> Result<(), AllocError> {
        let done = self.progress.refuse(alloc, code);
        settle(alloc, &mut self.progress, &mut self.due, done)
    }

    fn silent(&mut self, alloc: Global) -> Result<(), AllocError> {
        self.progress.keep_silent();
        settle(alloc, &mut self.progress, &mut self.due, Ok(()))
    }
}
