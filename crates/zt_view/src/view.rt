//! The history that the requests share, and how each request is answered.

ghost use Rattle.std.specs.Prelude.{◌≡◌, ◌≤◌, [], IfOk, IfSome, Some, Ok, false, length};
ghost use Rattle.http_server.specs.Response.{IsBlank};

use crate::guard::Own;
use crate::noted::noted_word;
use crate::question::{ViewQuestion, found};
use crate::requests::{ViewRequest, wish};
use crate::responses::{Content, fill, fill_found, fill_talk, refuse, tell_lack, tell_line};
use crate::talk::talk;
use bytes::Bytes;
use http::{HeaderValue, Request, StatusCode};
use http_server::{Response, Service};
use std::alloc::{AllocError, Global};
use zt_console::{Book, tree_text_with};
use zt_text::Notes;

/// The history that the requests share.
#[derive(Drop)]
pub struct View {
    pub alloc: Global,
    pub own: Own,
    /// A header of each response, which tells this start of the program from others.
    pub start: HeaderValue,
    /// The name of the trace with which the history began; empty if it began at the opening.
    pub trace: Vec<u8>,
    /// The notes and names of that trace.
    pub notes: Notes,
    /// The history. It is `None` only while lines are answered.
    pub book: Option<Book>,
    /// Whether the view was asked to end.
    pub is_ended: bool,
    ghost ready: { ∥ IfSome book (λ b. 1 ≤ length b.session.clients) ∥₁ },
}

impl View {
    ghost use Rattle.zt_view.specs.Answers.{AnswersWish, AnswersLines, AnswersQuestion, AnswersTree, IsAnswered, wish_of};
    ghost use Rattle.zt_view.specs.declared.requests.ViewRequest.TheVariants as asked;
    ghost use Rattle.http.specs.Request.{body_of};
    ghost use Rattle.std.specs.Fmt.{decimal};
    ghost use Rattle.http_header.specs.FieldValue.{plain_value};
    ghost use Rattle.zt_view.specs.Guard.{IsOwnOf};

    /// Makes a view of a book with at least one client, at a port. `trace` is the name of its trace, `notes` what the comments of
    /// that have, and `start` the number of this start of the program.
    pub fn new(
        alloc: Global,
        port: u16,
        start: u64,
        trace: &str,
        notes: Notes,
        book: Book,
    ) -> Result<View, AllocError>
        requires { 1 ≤ length book.session.clients }
        ensures own { IfOk result (λ view. IsOwnOf port view.own) }
        ensures start { IfOk result (λ view. view.start ≡ plain_value (decimal start)) }
        ensures trace { IfOk result (λ view. view.trace.items ≡ trace.now) }
        ensures notes { IfOk result (λ view. view.notes ≡ notes) }
        ensures book { IfOk result (λ view. view.book ≡ Some book) }
        ensures goes_on { IfOk result (λ view. view.is_ended ≡ false) }
    {
        Ok(View {
            alloc,
            own: Own::new(alloc, port)?,
            start: HeaderValue::from_u64(alloc, start)?,
            trace: Vec::from_slice(alloc, trace.as_bytes())?,
            notes,
            book: Some(book),
            is_ended: false,
        })
    }

    /// Answers a request.
    pub fn answer(&mut self, request: &Request<Bytes>, response: &mut Response)
        requires { IsBlank response.old }
        ensures { IsAnswered self.old request.now response.new self.new }
    {
        match self.own.admits(request.uri(), request.headers()) {
            Ok(()) => self.answer_admitted(request, response),
            Err(status) => refuse(response, &self.start, status),
        }
    }

    /// Answers an admitted request.
    fn answer_admitted(&mut self, request: &Request<Bytes>, response: &mut Response)
        requires { IsBlank response.old }
        ensures { AnswersWish (wish_of request.now) self.old (body_of request.now) response.new self.new }
    {
        let uri = request.uri();
        match wish(request.method().as_str(), uri.path(), uri.query()) {
            Ok(asked) => self.answer_asked(asked, request.body(), response),
            Err(lack) => tell_lack(response, &self.start, lack),
        }
    }

    /// Answers a request by what it asks for.
    fn answer_asked(&mut self, asked: ViewRequest, body: &Bytes, response: &mut Response)
        requires { IsBlank response.old }
        ensures { AnswersWish (Ok asked) self.old body.now response.new self.new }
    {
        match asked {
            ViewRequest::Page(part) => {
                let text = Bytes::from_static(part.text().as_bytes());
                fill(response, &self.start, StatusCode::OK, part.content(), text);
            }
            ViewRequest::Trace => {
                tell_line(self.alloc, response, &self.start, self.trace.as_slice());
            }
            ViewRequest::Noted => {
                tell_line(self.alloc, response, &self.start, noted_word(&self.notes));
            }
            ViewRequest::Lines => self.answer_lines(body.as_slice(), response),
            ViewRequest::Tree => self.answer_tree(response),
            ViewRequest::Answer(question) => self.answer_question(question, response),
            ViewRequest::End => self.answer_end(response),
        }
    }

    /// Answers lines with the text that a run writes for them.
    fn answer_lines(&mut self, lines: &[u8], response: &mut Response)
        requires { IsBlank response.old }
        ensures { AnswersLines self.old lines.now response.new self.new }
    {
        match self.book.take() {
            Some(book) => {
                let (book, told) = talk(self.alloc, book, lines);
                self.book = Some(book);
                fill_talk(self.alloc, response, &self.start, told);
            }
            None => refuse(response, &self.start, StatusCode::INTERNAL_SERVER_ERROR),
        }
    }

    /// Answers with the session text of the whole tree, with the notes and names.
    fn answer_tree(&self, response: &mut Response)
        requires { IsBlank response.old }
        ensures { AnswersTree self.now.book self.now response.new self.now }
    {
        match &self.book {
            Some(book) => {
                let text = tree_text_with(self.alloc, book, &self.notes);
                fill_found(self.alloc, response, &self.start, text);
            }
            None => refuse(response, &self.start, StatusCode::INTERNAL_SERVER_ERROR),
        }
    }

    /// Answers a question about the history.
    fn answer_question(&mut self, question: ViewQuestion, response: &mut Response)
        requires { IsBlank response.old }
        ensures { AnswersQuestion question self.old response.new self.new }
    {
        match &mut self.book {
            Some(book) => {
                let found = found(self.alloc, book, question);
                fill_found(self.alloc, response, &self.start, found);
            }
            None => refuse(response, &self.start, StatusCode::INTERNAL_SERVER_ERROR),
        }
    }

    /// Answers that the server ends, and ends it.
    fn answer_end(&mut self, response: &mut Response)
        requires { IsBlank response.old }
        ensures { AnswersWish (Ok asked.End) self.old [] response.new self.new }
    {
        self.is_ended = true;
        let text = Bytes::from_static(b"ended\n");
        fill(response, &self.start, StatusCode::OK, Content::Plain, text);
    }
}

impl Service for View {
    ghost use Rattle.zt_view.specs.Answers.{IsAnswered};

    ghost answers = { IsAnswered };

    fn call(
        &mut self,
        request: &Request<Bytes>,
        response: &mut Response,
    ) -> Result<(), AllocError> {
        self.answer(request, response);
        Ok(())
    }
}
