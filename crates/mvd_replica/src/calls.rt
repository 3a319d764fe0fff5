//! The calls of a program: each gives what it asks for, or the refusal.
ghost use Rattle.std.specs.Prelude.{◌≡◌, ◌≢◌, true};
ghost use Rattle.mvd_wire.specs.declared.request.Request.TheVariants.{Put, Delete, Find, Range, Row, Rows};
ghost use Rattle.mvd_wire.specs.declared.request.Request.TheVariants.{Keys, Conflicts};
ghost use Rattle.mvd_site.specs.Answer.{is_question, places_reply, rows_reply};
ghost use Rattle.mvd_site.specs.FromStates.{push_reply};
ghost use Rattle.mvd_site.specs.Prepared.{IsFrugal};
ghost use Rattle.mvd_wire.specs.declared.reply.Reply.TheVariants.{Refused};
ghost use Rattle.mvd_replica.specs.Asks.{AreCounts, ArePlaces, AreRows, IsDoneReply, IsReplyTo, IsRow, IsWritten};
ghost use Rattle.mvd_replica.specs.Asks.{TellsAnswer, counts_told, put_reply, question_told, row_told};
ghost use Rattle.mvd_replica.specs.Commits.{AnswersOneRequest};
ghost use Rattle.mvd_replica.specs.ReplicaCalls.{ReplicaAnswers, TellsRoot};
ghost use Rattle.mvd_replica.specs.Replicas.{site_of};

use crate::replica::Replica;
use mvd_docs::{Document, Field, Term, ViewName};
use mvd_dots::{Context, Dot, Refusal};
use mvd_keys::{Key, Path, Place};
use mvd_peer::Endpoint;
use mvd_site::Prepared;
use mvd_wire::{Items, Prefix, Reply, Request, RowValue};
use sqlite::Alter;

/// The rows of a view: of each its term, how many siblings it has, the sum of their numbers, and the
/// least and the greatest of these.
pub type ViewRows = Items<(Term, u64, i128, Option<(i64, i64)>)>;

impl<S: Alter> Endpoint for Replica<S> {
    ghost answers = { ReplicaAnswers };

    fn ask(&mut self, request: Request) -> Reply {
        let reply = self.answer(&request);
        drop(request);
        reply
    }
}

impl<S: Alter> Replica<S> {
    /// Writes a document in place of the documents that were seen, and gives its dot. After Ok it is stored, where
    /// the store is sound.
    pub fn put(&mut self, key: Key, seen: Context, document: Document) -> Result<Dot, Refusal>
        ensures { AnswersOneRequest self.old (Put key seen document) (put_reply result) self.new }
    {
        let request = Request::Put(key, seen, document);
        let reply = self.write(&request);
        spend(request);
        dot_in(reply)
    }

    /// Removes the documents that were seen. After Ok that is stored, where the store is sound.
    pub fn delete(&mut self, key: Key, seen: Context) -> Result<(), Refusal>
        ensures { AnswersOneRequest self.old (Delete key seen) (push_reply result) self.new }
    {
        let request = Request::Delete(key, seen);
        let reply = self.write(&request);
        spend(request);
        done_in(reply)
    }

    /// The places of a term at an indexed field: at most 1,000, those after a place if one is given, and whether more
    /// follow.
    pub fn find(
        &self,
        field: Field,
        term: Term,
        after: Option<(Key, Dot)>,
    ) -> Result<(Items<Place>, bool), Refusal>
        ensures { TellsAnswer (site_of self.now) (Find field term after) (places_reply result) }
    {
        let request = Request::Find(field, term, after);
        let reply = self.look_up(&request);
        spend(request);
        places_in(reply)
    }

    /// The places of all terms from one to another at an indexed field: a page, as `find` gives it.
    pub fn range(
        &self,
        field: Field,
        from: Term,
        to: Term,
        after: Option<Place>,
    ) -> Result<(Items<Place>, bool), Refusal>
        ensures { TellsAnswer (site_of self.now) (Range field from to after) (places_reply result) }
    {
        let request = Request::Range(field, from, to, after);
        let reply = self.look_up(&request);
        spend(request);
        places_in(reply)
    }

    /// One row of a view.
    pub fn row(&self, view: ViewName, term: Term) -> Result<RowValue, Refusal>
        ensures { row_told result ≡ question_told (site_of self.now) (Row view term) }
    {
        let request = Request::Row(view, term);
        let reply = self.look_up(&request);
        spend(request);
        row_in(reply)
    }

    /// The rows of a view: at most 1,000, those after a term if one is given, and whether more follow.
    pub fn rows(&self, view: ViewName, after: Option<Term>) -> Result<(ViewRows, bool), Refusal>
        ensures { TellsAnswer (site_of self.now) (Rows view after) (rows_reply result) }
    {
        let request = Request::Rows(view, after);
        let reply = self.look_up(&request);
        spend(request);
        rows_in(reply)
    }

    /// The keys that begin with a prefix, with their numbers of siblings: at most 1,000, those after a key if one is
    /// given, and whether more follow. A deleted key has no sibling.
    pub fn keys(
        &self,
        prefix: Prefix,
        after: Option<Key>,
    ) -> Result<(Items<(Key, u32)>, bool), Refusal>
        ensures { TellsAnswer (site_of self.now) (Keys prefix after) (counts_told result) }
    {
        let request = Request::Keys(prefix, after);
        let reply = self.look_up(&request);
        spend(request);
        counts_in(reply)
    }

    /// The keys in conflict, those with two siblings or more, with their numbers of siblings: a page, as `keys` gives
    /// it.
    pub fn conflicts(&self, after: Option<Key>) -> Result<(Items<(Key, u32)>, bool), Refusal>
        ensures { TellsAnswer (site_of self.now) (Conflicts after) (counts_told result) }
    {
        let request = Request::Conflicts(after);
        let reply = self.look_up(&request);
        spend(request);
        counts_in(reply)
    }

    /// The digest of the root of the hash tree: replicas with the same states have the same.
    pub fn root(&self) -> Result<[u8; 32], Refusal>
        ensures { TellsRoot (site_of self.now) result }
    {
        if self.is_broken() {
            return Err(Refusal::Broken);
        }
        let path = Path::new(self.alloc, &[])?;
        match self.node(&path) {
            Ok(digests) => Ok(digests.own),
            Err(refusal) => Err(refusal),
        }
    }

    /// Has a request answered.
    fn write(&mut self, request: &Request) -> Reply
        ensures answers { AnswersOneRequest self.old request.now result self.new }
        ensures kind { IsReplyTo request.now result }
    {
        self.answer(request)
    }

    /// The reply to a question, which changes nothing.
    fn look_up(&self, request: &Request) -> Reply
        requires { is_question request.now ≡ true }
        ensures tells { TellsAnswer (site_of self.now) request.now result }
        ensures kind { IsReplyTo request.now result }
        ensures frugal { IsFrugal (site_of self.now).states request.now → result ≢ Refused Refusal.Memory }
    {
        match self.site.prepare(request) {
            Ok(Prepared::Answer(reply)) => reply,
            Ok(Prepared::Change(_)) => unreachable!(),
            Err(refusal) => Reply::Refused(refusal),
        }
    }
}

// It stands by itself, so that a call does not carry how each part of a request is dropped.
fn spend(_request: Request) {}

/// The dot of a put that was taken.
fn dot_in(reply: Reply) -> Result<Dot, Refusal>
    requires { IsWritten reply }
    ensures { put_reply result ≡ reply }
{
    match reply {
        Reply::Written(dot) => Ok(dot),
        Reply::Refused(refusal) => Err(refusal),
        _ => unreachable!(),
    }
}

/// That a delete was taken.
fn done_in(reply: Reply) -> Result<(), Refusal>
    requires { IsDoneReply reply }
    ensures { push_reply result ≡ reply }
{
    match reply {
        Reply::Done => Ok(()),
        Reply::Refused(refusal) => Err(refusal),
        _ => unreachable!(),
    }
}

/// A page of an index.
fn places_in(reply: Reply) -> Result<(Items<Place>, bool), Refusal>
    requires { ArePlaces reply }
    ensures { places_reply result ≡ reply }
{
    match reply {
        Reply::Places(places, more) => Ok((places, more)),
        Reply::Refused(refusal) => Err(refusal),
        _ => unreachable!(),
    }
}

/// A row of a view.
fn row_in(reply: Reply) -> Result<RowValue, Refusal>
    requires { IsRow reply }
    ensures { row_told result ≡ reply }
{
    match reply {
        Reply::Row(row) => Ok(row),
        Reply::Refused(refusal) => Err(refusal),
        _ => unreachable!(),
    }
}

/// A page of a view.
fn rows_in(reply: Reply) -> Result<(ViewRows, bool), Refusal>
    requires { AreRows reply }
    ensures { rows_reply result ≡ reply }
{
    match reply {
        Reply::Rows(rows, more) => Ok((rows, more)),
        Reply::Refused(refusal) => Err(refusal),
        _ => unreachable!(),
    }
}

/// A page of keys with their numbers of siblings.
fn counts_in(reply: Reply) -> Result<(Items<(Key, u32)>, bool), Refusal>
    requires { AreCounts reply }
    ensures { counts_told result ≡ reply }
{
    match reply {
        Reply::Counts(keys, more) => Ok((keys, more)),
        Reply::Refused(refusal) => Err(refusal),
        _ => unreachable!(),
    }
}
