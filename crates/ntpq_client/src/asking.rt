ghost use Rattle.std.specs.Prelude.{◌≡◌, ◌+◌, ◌-◌, ◌≤◌, Some, None, Ok, Err};
ghost use Rattle.edge_traits.specs.Ports.{IsPortKept};
ghost use Rattle.edge_traits.specs.Told.{Rose};
ghost use Rattle.ntpq_client.specs.Requests.{IsRequest};
ghost use Rattle.ntpq_client.specs.Talks.{stuck};
ghost use Rattle.ntpq_client.specs.Dialogues.{due_again};
ghost use Rattle.ntpq_client.specs.Ends.{Causes, Asked};
ghost use Rattle.ntpq_client.specs.Exchanges.{AnswerIs, IsOutcome};

use crate::client::Client;
use crate::conversing::converse;
use crate::fault::AskFault;
use crate::news::News;
use crate::plan::Plan;
use crate::request::Request;
use edge_traits::{Port, Text};
use mode6_frame::{HEAD_LEN, MAX_BODY};
use std::alloc::{AllocError, Global};
use std::marker::Model;

impl Client {
    /// Asks one request: the status word and the text of a whole answer. It is posted again after
    /// each take that found nothing.
    pub fn ask<P: Port>(
        &mut self,
        alloc: Global,
        request: &Request,
        port: &mut P,
    ) -> Result<(u16, Text), AskFault>
        requires request { IsRequest request.now }
        requires most { HEAD_LEN + MAX_BODY ≤ P.most port.old }
        ensures asked { Asked request.now self.old self.new result
            (P.trace port.old) (P.trace port.new) }
        ensures causes { Causes result (P.faults port.old) (P.faults port.new)
            (P.is_closed port.new) }
        // The port found nothing at least as often as the client's count rose.
        ensures quiets { Rose (self.new.quiets - self.old.quiets)
            (P.quiets port.old) (P.quiets port.new) }
        ensures kept { IsPortKept P.faults P.quiets P.address P.most port.old port.new }

        // A client that has given up stays so, and calls its port no more.
        ensures stuck { (fault : AskFault) → stuck self.old ≡ Some fault → result ≡ Err fault }
        ensures port_kept { (fault : AskFault) → stuck self.old ≡ Some fault
            → port.new ≡ port.old }
    {
        let mut single = Single {
            request,
            news: News::Nothing,
        };
        converse(alloc, self, &mut single, port)?;
        answer_of(single.news)
    }
}

/// One request, and what was heard of it.
#[derive(Drop)]
struct Single<'a> {
    request: &'a Request,
    news: News,
}

impl<'a> Model for Single<'a> {
    ghost use Rattle.ntpq_client.specs.Requests.{IsRequest};
    ghost use Rattle.ntpq_client.specs.Dialogues.{SingleParts};

    ghost Value = { SingleParts };

    ghost view = { λ s. record { request = s.request.now; news = s.news } };

    ghost invariant = { λ s. IsRequest s.request.now };
}

/// What is answered of the last news.
fn answer_of(news: News) -> Result<(u16, Text), AskFault>
    requires { IsOutcome news }
    ensures { AnswerIs result news }
{
    match news {
        News::Answered { status, text } => Ok((status, text)),
        News::Denied { code } => Err(AskFault::Refused(code)),
        News::Nothing => unreachable!(),
        News::Quiet => unreachable!(),
    }
}

impl Plan for Single<'_> {
    ghost use Rattle.ntpq_client.specs.declared.news.News.{News};

    ghost due = { λ s. due_again s.request s.news };

    ghost whole = { λ status text s. record s { news = News.Answered status text } };

    ghost refused = { λ code s. record s { news = News.Denied code } };

    ghost silent = { λ s. record s { news = News.Quiet } };

    fn due(&self) -> Option<&Request> {
        match self.news {
            News::Nothing => Some(self.request),
            News::Quiet => Some(self.request),
            News::Answered { .. } => None,
            News::Denied { .. } => None,
        }
    }

    fn whole(&mut self, _alloc: Global, status: u16, text: Text) -> Result<(), AllocError> {
        self.news = News::Answered { status, text };
        Ok(())
    }

    fn refused(&mut self, _alloc: Global, code: u8) -> Result<(), AllocError> {
        self.news = News::Denied { code };
        Ok(())
    }

    fn silent(&mut self, _alloc: Global) -> Result<(), AllocError> {
        self.news = News::Quiet;
        Ok(())
    }
}
