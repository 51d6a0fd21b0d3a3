ghost use Rattle.std.specs.Prelude.{◌≡◌, Some, None, IfOk, IfSome, OnOk, option_map};
ghost use Rattle.mode6_frame.specs.Items.{AreNameOctets};
ghost use Rattle.mru_items.specs.Answers.{answer_told, nonce_told};
ghost use Rattle.mru_items.specs.Queries.{IsQuery};
ghost use Rattle.ntpq_client.specs.Requests.{IsRequest};
ghost use Rattle.mrulist_reader.specs.declared.listing.End.{End};
ghost use Rattle.mrulist_reader.specs.Readers.{after_answer, after_nonce, after_page, after_refusal, after_silence, after_text, due_of, ended_badly, listing_of, new_reader};

use crate::confirming::is_asked;
use crate::listing::{End, Listing};
use crate::requests::{nonce_request, read_request};
use crate::table::Table;
use crate::trail::{add_pairs, cut_behind};
use mode6_frame::BAD_NAME;
use mru_items::{
    AnswerFault, Nonce, PageAnswer, Pair, Query, named_pairs, read_answer, read_nonce,
};
use ntpq_client::Request;
use std::alloc::{AllocError, Global};
use std::marker::Model;

/// How far a listing has come.
#[derive(Drop)]
pub struct Progress {
    query: Query,
    nonce: Option<Nonce>,
    rows: Table,
    trail: Vec<Pair>,
    whole: u32,
    pages: u32,
    refused: u32,
    end: Option<End>,
}

impl Model for Progress {
    ghost use Rattle.std.specs.Prelude.{IfSome};
    ghost use Rattle.mode6_frame.specs.Items.{AreNameOctets};
    ghost use Rattle.mru_items.specs.Queries.{IsQuery};
    ghost use Rattle.mrulist_reader.specs.Readers.{ReaderParts};

    ghost Value = { ReaderParts };

    ghost view = { λ p. record {
      query = p.query;
      nonce = p.nonce;
      rows = p.rows;
      trail = p.trail.items;
      whole = p.whole;
      pages = p.pages;
      refused = p.refused;
      end = p.end;
    } };

    // A request repeats the nonce without quotes.
    ghost invariant = { λ p. IsQuery p.query × IfSome p.nonce AreNameOctets };
}

impl Progress {
    /// A listing of this query, before its first request.
    pub(crate) fn new(alloc: Global, query: &Query) -> Progress
        requires { IsQuery query.now }
        ensures { result ≡ new_reader query.now }
    {
        Progress {
            query: *query,
            nonce: None,
            rows: Table::new(alloc),
            trail: Vec::new(alloc),
            whole: 0,
            pages: 0,
            refused: 0,
            end: None,
        }
    }

    /// How the listing ended, if it did.
    pub(crate) fn end(&self) -> Option<End>
        ensures { result ≡ self.now.end }
    {
        self.end
    }

    /// How many whole answers the listing took.
    pub(crate) fn whole_answers(&self) -> u32
        ensures { result ≡ self.now.whole }
    {
        self.whole
    }

    /// The request that is due, None where the listing has ended.
    pub(crate) fn due(&self, alloc: Global) -> Result<Option<Request>, AllocError>
        ensures value { IfOk result (λ due. due ≡ due_of self.now) }
        ensures request { IfOk result (λ due. IfSome due IsRequest) }
    {
        if self.end.is_some() {
            return Ok(None);
        }
        match &self.nonce {
            None => Ok(Some(nonce_request(alloc))),
            Some(nonce) => {
                match read_request(alloc, nonce, &self.query, self.trail.as_slice()) {
                    Ok(request) => Ok(Some(request)),
                    Err(fault) => Err(fault),
                }
            }
        }
    }

    /// Goes on after a whole answer to the request that was due.
    pub(crate) fn answer(&mut self, alloc: Global, text: &[u8]) -> Result<(), AllocError>
        ensures { OnOk result (self.new ≡ after_text self.old.nonce text.now self.old) }
    {
        if self.nonce.is_none() {
            self.take_nonce(alloc, text)
        } else {
            self.take_answer(alloc, text)
        }
    }

    /// Goes on after a refusal.
    pub(crate) fn refuse(&mut self, alloc: Global, code: u8) -> Result<(), AllocError>
        ensures { OnOk result (self.new ≡ after_refusal code self.old) }
    {
        let named = named_pairs(alloc, &self.query, self.trail.as_slice())?.len();
        if code == BAD_NAME && self.nonce.is_some() && named > 0 {
            let kept = self.trail.len().saturating_sub(named);
            self.trail.truncate(kept);
            self.refused = self.refused.saturating_add(1);
        } else {
            self.end = Some(End::Refused(code));
        }
        Ok(())
    }

    /// Goes on after a take that found nothing.
    pub(crate) fn keep_silent(&mut self)
        ensures { self.new ≡ after_silence self.old }
    {
        self.nonce = None;
    }

    /// Ends after an answer that was not asked for.
    pub(crate) fn end_badly(&mut self)
        ensures { self.new ≡ ended_badly self.old }
    {
        self.end = Some(End::BadReply);
    }

    /// What a listing that ended at this time comes to.
    pub(crate) fn into_listing(self, alloc: Global, now: u64) -> Result<Listing, AllocError>
        ensures { IfOk result (λ listing. listing ≡ listing_of self now) }
    {
        match self.rows.into_rows(alloc) {
            Ok(rows) => Ok(Listing {
                rows,
                now,
                pages: self.pages,
                refused: self.refused,
            }),
            Err(fault) => Err(fault),
        }
    }

    /// Goes on after the answer to a request for a nonce.
    fn take_nonce(&mut self, alloc: Global, text: &[u8]) -> Result<(), AllocError>
        ensures { OnOk result (self.new ≡ after_nonce (nonce_told text.now) self.old) }
    {
        match read_nonce(alloc, text) {
            Ok(nonce) => {
                self.nonce = Some(nonce);
                self.whole = self.whole.saturating_add(1);
                Ok(())
            }
            Err(AnswerFault::BadReply) => {
                self.end_badly();
                Ok(())
            }
            Err(AnswerFault::NoMemory) => Err(AllocError),
        }
    }

    /// Goes on after the answer to a read.
    fn take_answer(&mut self, alloc: Global, text: &[u8]) -> Result<(), AllocError>
        ensures { OnOk result (self.new ≡ after_answer (answer_told text.now) self.old) }
    {
        match read_answer(alloc, text) {
            Ok(page) => self.take_page(alloc, &page),
            Err(AnswerFault::BadReply) => {
                self.end_badly();
                Ok(())
            }
            Err(AnswerFault::NoMemory) => Err(AllocError),
        }
    }

    /// Goes on after a page.
    fn take_page(&mut self, alloc: Global, page: &PageAnswer) -> Result<(), AllocError>
        requires { AreNameOctets page.now.nonce }
        ensures { OnOk result (self.new ≡ after_answer (Some page.now) self.old) }
    {
        let named = named_pairs(alloc, &self.query, self.trail.as_slice())?;
        if is_asked(named.as_slice(), page) {
            self.add_page(alloc, page)
        } else {
            self.end_badly();
            Ok(())
        }
    }

    /// Adds a page that was asked for.
    fn add_page(&mut self, alloc: Global, page: &PageAnswer) -> Result<(), AllocError>
        requires { AreNameOctets page.now.nonce }
        ensures { OnOk result (self.new ≡ after_page page.now self.old) }
    {
        self.rows.add(alloc, page.rows.as_slice())?;
        cut_behind(&mut self.trail, page.older);
        add_pairs(&mut self.trail, page.rows.as_slice())?;
        self.nonce = Some(page.nonce);
        self.whole = self.whole.saturating_add(1);
        self.pages = self.pages.saturating_add(1);
        self.end = end_of(page.ended);
        Ok(())
    }
}

/// How a page ends a listing that ends the list at this time, if it does.
fn end_of(ended: Option<u64>) -> Option<End>
    ensures { result ≡ option_map End.Listed ended }
{
    match ended {
        Some(now) => Some(End::Listed(now)),
        None => None,
    }
}
