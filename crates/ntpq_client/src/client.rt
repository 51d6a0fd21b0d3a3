ghost use Rattle.std.specs.Prelude.{◌≡◌, ◌+◌, ◌<◌, ◌≤◌, Some, None, Ok, List, ℕ, OnOk, OnErr, IfOk};
ghost use Rattle.mode6_frame.specs.Frames.{parts_of};
ghost use Rattle.ntpq_client.specs.Talks.{new_talk, stuck, heard, after_heard, after_post, heard_news, patience, after_event, news_of};
ghost use Rattle.edge_traits.specs.declared.port.Event.{Event};
ghost use Rattle.ntpq_client.specs.declared.news.News.{News};

use crate::fault::AskFault;
use crate::news::News;
use mode6_frame::{Frame, Groups, Step, read};
use net_addr::{Addr, is_same_addr};
use std::alloc::{AllocError, Global};
use std::marker::Model;

/// The most requests that a client posts (our own rule).
pub const MAX_REQUESTS: u16 = 60_000;

/// After so many datagrams that it does not use a client gives up (our own rule).
pub const MAX_UNUSED: u32 = 1_000_000;

/// After so many takes in a row that found nothing, with no datagram used between them, a client
/// gives up (our own rule).
pub const MAX_QUIETS: u8 = 5;

/// A client of one server: it posts requests, one after another, and puts the answers to the last
/// one together.
#[derive(Drop)]
pub struct Client {
    server: Addr,
    posted: u16,
    unused: u32,
    quiets: u8,
    current: Groups,
}

impl Model for Client {
    ghost use Rattle.std.specs.Prelude.{◌≤◌};
    ghost use Rattle.ntpq_client.specs.Talks.{Talk};
    ghost use Rattle.ntpq_client.specs.declared.client.TheConstants.{MAX_REQUESTS, MAX_UNUSED, MAX_QUIETS};

    ghost Value = { Talk };

    ghost view = { λ c. record {
      server = c.server;
      posted = c.posted;
      unused = c.unused;
      quiets = c.quiets;
      current = c.current;
    } };

    ghost invariant = { λ c. (c.posted ≤ MAX_REQUESTS) × (c.unused ≤ MAX_UNUSED)
        × (c.quiets ≤ MAX_QUIETS) };
}

impl Client {
    /// A client of this server that has posted nothing yet.
    pub fn new(alloc: Global, server: Addr) -> Client
        ensures { result ≡ new_talk server }
    {
        Client {
            server,
            posted: 0,
            unused: 0,
            quiets: 0,
            current: Groups::new(alloc, 0, 0),
        }
    }

    /// The server's address.
    pub(crate) fn server(&self) -> Addr
        ensures { result ≡ self.now.server }
    {
        self.server
    }

    /// How many requests were posted.
    pub fn posted(&self) -> u16
        ensures posted { result ≡ self.now.posted }
        ensures at_most { self.now.posted ≤ MAX_REQUESTS }
    {
        self.posted
    }

    /// Why the client has given up, if it has.
    #[tactic(auto, unfolding(crate::specs::Talks::stuck))]
    pub(crate) fn stuck(&self) -> Option<AskFault>
        ensures { result ≡ stuck self.now }
    {
        if self.quiets >= MAX_QUIETS {
            Some(AskFault::NoReply)
        } else if self.unused >= MAX_UNUSED {
            Some(AskFault::Flooded)
        } else {
            None
        }
    }

    /// A request of this operation was posted, with the next sequence number.
    pub(crate) fn note_post(&mut self, alloc: Global, opcode: u8)
        requires { self.old.posted < MAX_REQUESTS }
        ensures after { self.new ≡ after_post opcode (self.old.posted + 1) self.old }
        ensures quiets { self.new.quiets ≡ self.old.quiets }
    {
        self.posted += 1;
        self.current = Groups::new(alloc, opcode, self.posted);
    }

    /// A take found nothing for a while.
    #[tactic(auto, unfolding(crate::specs::Talks::stuck, crate::specs::Talks::after_event))]
    pub(crate) fn note_silence(&mut self)
        requires { stuck self.old ≡ None }
        ensures after { self.new ≡ after_event Event.Silence self.old }
        ensures quiets { self.new.quiets ≡ self.old.quiets + 1 }
        ensures posted { self.new.posted ≡ self.old.posted }
    {
        self.quiets += 1;
    }

    /// What a datagram is to the client that was taken from this address.
    #[tactic(auto, unfolding(crate::specs::Talks::heard, crate::specs::Talks::after_heard, crate::specs::Talks::heard_news))]
    pub(crate) fn hear(
        &mut self,
        alloc: Global,
        from: &Addr,
        octets: &[u8],
    ) -> Result<News, AllocError>
        requires { stuck self.old ≡ None }
        ensures news { IfOk result (λ news.
            news ≡ heard_news (heard self.old.server from.now octets.now) self.old) }
        ensures after { OnOk result
            (self.new ≡ after_heard (heard self.old.server from.now octets.now) self.old) }
        ensures kept { OnErr result (self.new ≡ self.old) }
        ensures quiets { self.new.quiets ≤ self.old.quiets }
        ensures less { result ≡ Ok News.Nothing → patience self.new < patience self.old }
        ensures posted { self.new.posted ≡ self.old.posted }
    {
        if !is_same_addr(from, &self.server) {
            self.pass_over();
            return Ok(News::Nothing);
        }
        match read(octets) {
            Err(_) => {
                self.pass_over();
                Ok(News::Nothing)
            }
            Ok(frame) => self.hear_frame(alloc, &frame),
        }
    }

    /// A datagram was taken in which nothing was heard.
    #[tactic(auto, unfolding(crate::specs::Talks::stuck, crate::specs::Talks::after_heard))]
    fn pass_over(&mut self)
        requires { stuck self.old ≡ None }
        ensures after { self.new ≡ after_heard None self.old }
        ensures quiets { self.new.quiets ≡ self.old.quiets }
        ensures less { patience self.new < patience self.old }
    {
        self.unused += 1;
    }

    /// What a control message from the server is to the client.
    #[tactic(auto, unfolding(crate::specs::Talks::stuck, crate::specs::Talks::after_heard, crate::specs::Talks::heard_news))]
    fn hear_frame(&mut self, alloc: Global, frame: &Frame<'_>) -> Result<News, AllocError>
        requires { stuck self.old ≡ None }
        ensures news { IfOk result (λ news.
            news ≡ heard_news (Some (parts_of frame.now)) self.old) }
        ensures after { OnOk result (self.new ≡ after_heard (Some (parts_of frame.now)) self.old) }
        ensures kept { OnErr result (self.new ≡ self.old) }
        ensures quiets { self.new.quiets ≤ self.old.quiets }
        ensures less { result ≡ Ok News.Nothing → patience self.new < patience self.old }
        ensures posted { self.new.posted ≡ self.old.posted }
    {
        match self.current.take(alloc, frame)? {
            Step::Unused(_) => {
                self.unused += 1;
                Ok(News::Nothing)
            }
            Step::Waiting => {
                self.quiets = 0;
                Ok(News::Nothing)
            }
            Step::Refused(code) => {
                self.quiets = 0;
                Ok(News::Denied { code })
            }
            Step::Whole { status, text } => {
                self.quiets = 0;
                Ok(News::Answered { status, text })
            }
        }
    }
}
