//! Who comes in, and who goes.
ghost use Rattle.std.specs.Prelude.{◌≡◌, ◌-◌, ◌^◌, ◌<◌, IfSome, None, OnErr, OnOk, Some, false, length, min};
ghost use Rattle.std.specs.BTreeMap.{insert_entry};
ghost use Rattle.std.specs.Ordering.{nat_cmp};
ghost use Rattle.mvd_conn.specs.History.{new_history};
ghost use Rattle.mvd_host.specs.Hosts.{client_of, clients_most};
ghost use Rattle.mvd_server.specs.Closing.{IsDeserted, client_count};
ghost use Rattle.mvd_server.specs.Guarded.{IsGuardedBy, first_guard};
ghost use Rattle.mvd_server.specs.Talking.{Comes, ComesBy, DoesAct, GoesAtOnce, IsGoneBy, MayPart};
ghost use Rattle.mvd_server.specs.Talking.{TalksDeeds, TurnsAway, talking_of};
ghost use Rattle.mvd_server.specs.declared.talks.Kind.TheVariants.{Http};
ghost use Rattle.mvd_server.specs.declared.talks.Kind.{Kind};
ghost use Rattle.mvd_web.specs.Inside.{web_of};
ghost use Rattle.mvd_web.specs.Web.{IsNew};
ghost use Rattle.mvd_web.specs.declared.web_connection.WebConnection.{WebConnection};

use crate::talks::own::FIRST_OWN;
use crate::talks::{Kind, Talks};
use mvd_conn::Guard;
use mvd_host::CLIENTS_MAX;
use mvd_web::WebConnection;
use std::alloc::AllocError;

impl Talks {
    /// Takes a client in, and gives its number. It is `None` where there is no place, or memory was refused: then it has
    /// none. One that speaks frames has to show a token in its first frame; over HTTP each request has to.
    pub fn admit(&mut self, kind: Kind) -> Option<u64>
        ensures guarded { IfSome result (λ number. IsGuardedBy kind self.old.passes (client_of self.new.host number)) }
        ensures comes { IfSome result (λ number. ComesBy kind number (talking_of self.old) (talking_of self.new)) }
        ensures none { result ≡ None → talking_of self.new ≡ talking_of self.old }
        ensures deeds { TalksDeeds self.old self.new }
        ensures own { self.new.sessions ≡ self.old.sessions }
    {
        match kind {
            Kind::Frames => self.admit_frames(),
            Kind::Http => self.admit_web(),
        }
    }

    fn admit_frames(&mut self) -> Option<u64>
        ensures guarded { IfSome result (λ number.
            client_of self.new.host number ≡ Some (new_history (first_guard self.old.passes))) }
        ensures comes { IfSome result (λ number. DoesAct (Comes number) (talking_of self.old) (talking_of self.new)) }
        ensures none { result ≡ None → talking_of self.new ≡ talking_of self.old }
        ensures deeds { TalksDeeds self.old self.new }
        ensures own { self.new.sessions ≡ self.old.sessions }
    {
        let guard = self.first_guard();
        match self.host.admit(guard) {
            Ok(number) => number,
            Err(_) => None,
        }
    }

    /// What a client has shown that comes.
    fn first_guard(&self) -> Option<Guard>
        ensures { result ≡ first_guard self.now.passes }
    {
        match &self.passes {
            Some(_) => Some(Guard::Asks),
            None => None,
        }
    }

    fn admit_web(&mut self) -> Option<u64>
        ensures comes { IfSome result (λ number. ComesBy Http number (talking_of self.old) (talking_of self.new)) }
        ensures none { result ≡ None → talking_of self.new ≡ talking_of self.old }
        ensures deeds { TalksDeeds self.old self.new }
        ensures own { self.new.sessions ≡ self.old.sessions }
    {
        if self.is_crowded() {
            return None;
        }
        let number = self.next;
        if number >= FIRST_OWN {
            return None;
        }
        match self.open_web(number) {
            Ok(()) => {
                self.next = number + 1;
                Some(number)
            }
            Err(_) => None,
        }
    }

    /// Whether as many are there over HTTP as may be.
    fn is_crowded(&self) -> bool
        ensures { result ≡ false → length (talking_of self.now).webs < clients_most }
    {
        self.webs.len() >= CLIENTS_MAX
    }

    fn open_web(&mut self, number: u64) -> Result<(), AllocError>
        ensures opens { OnOk result ((web : WebConnection) × IsNew (web_of web) × (talking_of self.new ≡
            record (talking_of self.old) { webs = insert_entry nat_cmp (talking_of self.old).webs number web })) }
        ensures same { OnErr result (talking_of self.new ≡ talking_of self.old) }
        ensures own { self.new.sessions ≡ self.old.sessions }
    {
        let web = WebConnection::new(self.alloc, self.keys);
        drop(self.webs.insert(number, web)?);
        Ok(())
    }

    /// Gives a number to one for which there is no place: nobody had it, and nobody gets it again. It is `None` where
    /// all were given.
    pub fn turn_away(&mut self) -> Option<u64>
        ensures away { IfSome result (λ number.
            DoesAct (TurnsAway number) (talking_of self.old) (talking_of self.new)) }
        ensures deeds { TalksDeeds self.old self.new }
    {
        let number = self.next;
        if number == u64::MAX {
            return None;
        }
        self.next += 1;
        Some(number)
    }

    /// The number of clients.
    pub fn clients(&self) -> usize
        ensures count { result ≡ min (client_count (talking_of self.now)) (2 ^ 64 - 1) }
        ensures none { result ≡ 0 → IsDeserted (talking_of self.now) }
    {
        self.host.len().saturating_add(self.webs.len())
    }

    /// Lets a client go for which nothing is left to do.
    pub fn dismiss(&mut self, number: u64)
        ensures gone { (kind : Kind) → IsGoneBy kind number (talking_of self.old) (talking_of self.new) }
        ensures deeds { MayPart number (talking_of self.old) → TalksDeeds self.old self.new }
        ensures own { self.new.sessions ≡ self.old.sessions }
    {
        drop(self.webs.remove(&number));
        drop(self.batches.remove(&number));
        self.parked.remove(number);
        self.host.dismiss(number);
    }

    /// Lets a client go that has just come.
    pub fn turn_back(&mut self, kind: Kind, number: u64)
        ensures gone { IsGoneBy kind number (talking_of self.old) (talking_of self.new) }
        ensures deeds { GoesAtOnce kind number (talking_of self.old) (talking_of self.new) }
        ensures own { self.new.sessions ≡ self.old.sessions }
    {
        match kind {
            Kind::Frames => self.host.dismiss(number),
            Kind::Http => self.dismiss(number),
        }
    }
}
