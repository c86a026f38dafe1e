// How a request ends: its reply; and how a task ends: its status.
ghost use Rattle.std.specs.Prelude.{◌≡◌, ◌++◌, ◌∷◌, [], IfOk, OnOk};
ghost use Rattle.std.specs.Option.{option_copied};
ghost use Rattle.uw_chain.specs.Endings.{end_by_break, end_of_request, end_of_table, end_with, end_with_page, status_of_code, status_of_task, with_header, with_cached_value};

use crate::outcome::{Ending, RouteEnd};
use crate::request::Request;
use std::alloc::Global;
use uw_base::texts::is;
use uw_base::{Bytes, Memory};
use uw_reply::Reply;

/// The status of a code, that of 500 where the code has none.
#[tactic(auto, unfolding(crate::specs::Endings::status_of_code))]
pub fn status_of_code(code: u16) -> &'static [u8]
    ensures { result.now ≡ status_of_code code }
{
    match code {
        200 => b"200 OK",
        204 => b"204 No Content",
        301 => b"301 Moved Permanently",
        302 => b"302 Found",
        304 => b"304 Not Modified",
        400 => b"400 Bad Request",
        401 => b"401 Unauthorized",
        403 => b"403 Forbidden",
        404 => b"404 Not Found",
        405 => b"405 Method Not Allowed",
        410 => b"410 Gone",
        413 => b"413 Content Too Large",
        429 => b"429 Too Many Requests",
        503 => b"503 Service Unavailable",
        _ => b"500 Internal Server Error",
    }
}

impl Request {
    /// Puts a header line behind the others.
    pub fn add_header(&mut self, line: Bytes) -> Result<(), Memory>
        ensures { OnOk result (self.new ≡ with_header self.old line) }
    {
        self.headers.push(line)
    }

    /// Ends with a status and the body so far, or without a reply.
    pub fn end_with(self, alloc: Global, status: &[u8], closed: bool) -> Result<RouteEnd, Memory>
        ensures { IfOk result (λ ending. ending ≡ end_with status.now closed self) }
    {
        let head_only = is(self.vars.get(b"REQUEST_METHOD"), b"HEAD");
        Ok(RouteEnd {
            reply: Reply {
                status: Bytes::from_slice(alloc, status)?,
                headers: self.headers,
                body: self.body,
                closed,
            },
            head_only,
        })
    }

    /// Ends with a status: the body so far where something was sent, else the status's page.
    #[tactic(auto, unfolding(crate::specs::Endings::end_with_page))]
    pub fn end_with_page(mut self, alloc: Global, status: &[u8]) -> Result<RouteEnd, Memory>
        ensures { IfOk result (λ ending. ending ≡ end_with_page status.now self) }
    {
        if self.sent {
            return self.end_with(alloc, status, false);
        }
        self.add_header(Bytes::from_slice(alloc, b"Content-Type: text/plain")?)?;
        self.body = Bytes::joined(alloc, status, b"\n")?;
        self.end_with(alloc, status, false)
    }

    /// Ends behind the last rule: with what was sent, or because nothing was found.
    #[tactic(auto, unfolding(crate::specs::Endings::end_of_table))]
    pub fn end_of_table(self, alloc: Global) -> Result<RouteEnd, Memory>
        ensures { IfOk result (λ ending. ending ≡ end_of_table self) }
    {
        if self.sent {
            self.end_with(alloc, b"200 OK", false)
        } else {
            self.end_with_page(alloc, b"404 Not Found")
        }
    }

    /// Ends by `break`: with a status; or with what was sent, or without a reply.
    #[tactic(auto, unfolding(crate::specs::Endings::end_by_break))]
    pub fn end_by_break(self, alloc: Global, status: Option<&[u8]>) -> Result<RouteEnd, Memory>
        ensures { IfOk result (λ ending. ending ≡ end_by_break (option_copied status.entry) self) }
    {
        match status {
            Some(status) => self.end_with(alloc, status, false),
            None => {
                let closed = !self.sent;
                self.end_with(alloc, b"200 OK", closed)
            }
        }
    }

    /// Ends by how the rules came to their end.
    pub fn end(self, alloc: Global, ending: Ending) -> Result<RouteEnd, Memory>
        ensures { IfOk result (λ end. end ≡ end_of_request ending self) }
    {
        match ending {
            Ending::OfTable | Ending::Task(_) => self.end_of_table(alloc),
            Ending::Break(Some(status)) => self.end_by_break(alloc, Some(status.as_slice())),
            Ending::Break(None) => self.end_by_break(alloc, None),
            Ending::Page(code) => self.end_with_page(alloc, status_of_code(code)),
            Ending::Failing => self.end_with_page(alloc, status_of_code(500)),
        }
    }

    /// Puts a value that a cache has behind the body, without a copy of its own, and its content type into the head.
    pub fn put_value(
        &mut self,
        alloc: Global,
        content_type: &[u8],
        value: &[u8],
    ) -> Result<(), Memory>
        ensures { OnOk result (self.new ≡ with_cached_value content_type.now value.now self.old) }
    {
        self.add_header(Bytes::joined(alloc, b"Content-Type: ", content_type)?)?;
        self.body.append(value)
    }
}

/// The status of a task whose rules ended so: its own, or 0 at the end of the table, or -1.
pub fn status_of_task(ending: &Ending) -> i64
    ensures { result ≡ status_of_task ending.now }
{
    match ending {
        Ending::OfTable => 0,
        Ending::Task(status) => *status,
        Ending::Break(_) | Ending::Page(_) | Ending::Failing => -1,
    }
}
