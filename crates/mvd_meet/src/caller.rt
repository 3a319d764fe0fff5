//! A side of a session that is asked by mail: the frames of a window leave, and later what came is told.
ghost use Rattle.std.specs.Prelude.{◌≡◌, ◌≢◌, ◌≤◌, ◌++◌, [], Err, None, IfErr, IfOk, OnErr, OnOk, drop, false, length};
ghost use Rattle.std.specs.Prelude.{true};
ghost use Rattle.mvd_dots.specs.declared.refusals.Refusal.TheVariants.{BadBody, Memory};
ghost use Rattle.mvd_meet.specs.Callers.{CallerAsks, CallerHears, CallerSays, CallerTells, CannotAsk, SendsTo};
ghost use Rattle.mvd_meet.specs.Callers.{asked_in_window, asked_of_caller, came_at, has_all, has_ended};
ghost use Rattle.mvd_meet.specs.Callers.{leaving_at, only_of, questions_at, sort_of};
ghost use Rattle.mvd_meet.specs.Posts.{TookAll, asks_pushes};
ghost use Rattle.mvd_wire.specs.declared.request.Request.TheVariants.{Bye, Hello};

use crate::asked::{Asked, Sort};
use crate::post::Post;
use mvd_dots::Refusal;
use mvd_peer::{Told, Window};
use mvd_remote::Frames;
use mvd_wire::Token;
use std::alloc::Global;

/// A side, what is to leave to it, and what came of it.
#[derive(Drop)]
pub struct Caller {
    alloc: Global,
    post: Post,
    /// Nothing more comes.
    ended: bool,
    /// The number of questions that were asked.
    questions: u64,
}

impl Caller {
    /// A side that was asked nothing.
    pub fn new(alloc: Global) -> Caller
        ensures leaving { leaving_at result ≡ [] }
        ensures came { came_at result ≡ [] }
        ensures asked { asked_of_caller result ≡ None }
        ensures goes_on { has_ended result ≡ false }
        ensures questions { questions_at result ≡ 0 }
    {
        Caller {
            alloc,
            post: Post::new(alloc),
            ended: false,
            questions: 0,
        }
    }

    /// The bytes that are to leave.
    pub fn leaving(&self) -> &[u8]
        ensures { result.now ≡ leaving_at self.now }
    {
        self.post.leaving()
    }

    /// So many of them left.
    pub fn left(&mut self, count: usize)
        requires { count ≤ length (leaving_at self.old) }
        ensures leaving { leaving_at self.new ≡ drop count (leaving_at self.old) }
        ensures came { came_at self.new ≡ came_at self.old }
        ensures asked { asked_of_caller self.new ≡ asked_of_caller self.old }
        ensures ended { has_ended self.new ≡ has_ended self.old }
        ensures questions { questions_at self.new ≡ questions_at self.old }
    {
        self.post.left(count);
    }

    /// Takes bytes that came, and the replies that are whole. Where memory is refused, none is taken.
    pub fn feed(&mut self, bytes: &[u8]) -> Result<(), Refusal>
        ensures ok { OnOk result (came_at self.new ≡ came_at self.old ++ bytes.now) }
        ensures err { OnErr result (came_at self.new ≡ came_at self.old) }
        ensures memory { IfErr result (λ refusal. refusal ≡ Memory) }
        // A part of the longest frame waits at most, and what comes at once.
        ensures bounded { OnOk result (length self.new.post.waits ≤ 1462147) }
        // What is whole is taken.
        ensures took { OnOk result (TookAll self.new.post) }
        ensures leaving { leaving_at self.new ≡ leaving_at self.old }
        ensures asked { asked_of_caller self.new ≡ asked_of_caller self.old }
        ensures ended { has_ended self.new ≡ has_ended self.old }
        ensures questions { questions_at self.new ≡ questions_at self.old }
    {
        self.post.feed(bytes)
    }

    /// Nothing more comes: it is at its end, or reading failed.
    pub fn end(&mut self, has_failed: bool)
        // So nothing more is waited for.
        ensures ended { has_ended self.new ≡ true }
        ensures questions { questions_at self.new ≡ questions_at self.old }
        ensures leaving { leaving_at self.new ≡ leaving_at self.old }
        ensures came { came_at self.new ≡ came_at self.old }
        ensures asked { asked_of_caller self.new ≡ asked_of_caller self.old }
    {
        self.ended = true;
        if has_failed {
            self.post.fail();
        }
    }

    /// The number of questions that were asked, a Hello and a Bye among them.
    pub fn questions(&self) -> u64
        ensures { result ≡ questions_at self.now }
    {
        self.questions
    }

    /// Whether pushes are asked, which may change it.
    pub fn is_pushed(&self) -> bool
        ensures { result ≡ asks_pushes (asked_of_caller self.now) }
    {
        self.post.is_pushed()
    }

    /// Whether all came that is due, or nothing more comes.
    pub fn has_all(&self) -> bool
        ensures { result ≡ has_all self.now }
    {
        self.ended || self.post.has_come()
    }

    /// The frames of a window are to leave, and what they ask for is due. Where more came than was asked before, it is
    /// refused with 33. Where it is refused, it is as it was: no part of a frame leaves.
    pub fn ask(&mut self, window: &Window) -> Result<(), Refusal>
        ensures asks { OnOk result (CallerAsks window.now self.old self.new) }
        ensures err { OnErr result (self.new ≡ self.old) }
        ensures more { came_at self.old ≢ [] → result ≡ Err BadBody }
        ensures cannot { IfErr result (CannotAsk self.old) }
    {
        if !self.post.is_quiet() {
            return Err(Refusal::BadBody);
        }
        let asked = asked_by(self.alloc, window)?;
        self.send(asked)
    }

    /// A Hello that shows a token is to leave.
    pub fn greet(&mut self, token: &Token) -> Result<(), Refusal>
        ensures says { OnOk result (CallerSays (Hello token.now) self.old self.new) }
        ensures err { OnErr result (self.new ≡ self.old) }
        ensures cannot { IfErr result (CannotAsk self.old) }
    {
        let frames = Frames::hello(self.alloc, token)?;
        self.send(Asked {
            sort: Sort::Pushes,
            frames,
        })
    }

    /// A Bye is to leave.
    pub fn part(&mut self) -> Result<(), Refusal>
        ensures says { OnOk result (CallerSays Bye self.old self.new) }
        ensures err { OnErr result (self.new ≡ self.old) }
        ensures cannot { IfErr result (CannotAsk self.old) }
    {
        let frames = Frames::bye(self.alloc)?;
        self.send(Asked {
            sort: Sort::Pushes,
            frames,
        })
    }

    /// Frames are to leave, and what they ask for is due.
    fn send(&mut self, asked: Asked) -> Result<(), Refusal>
        ensures asks { OnOk result (SendsTo asked self.old self.new) }
        ensures err { OnErr result (self.new ≡ self.old) }
        ensures cannot { IfErr result (CannotAsk self.old) }
    {
        let count = asked.frames.nones().len() as u64;
        match self.post.send(asked) {
            Ok(()) => {
                self.questions = self.questions.saturating_add(count);
                Ok(())
            }
            Err(refusal) => Err(refusal),
        }
    }

    /// What came of what was asked, if something was.
    pub fn tell(&mut self) -> Option<Told>
        ensures { CallerTells (asked_of_caller self.old) self.old self.new result }
    {
        self.post.tell()
    }

    /// Whether a Hello or a Bye was answered by Done.
    pub fn is_answered(&mut self) -> Result<(), Refusal>
        ensures { CallerHears self.old self.new result }
    {
        match self.tell() {
            Some(Told::Pushes(answers)) => only_of(&answers),
            Some(Told::Refused(refusal)) => Err(refusal),
            _ => Err(Refusal::BadBody),
        }
    }
}

/// The one answer of a window of one request.
fn only_of(answers: &[Result<(), Refusal>]) -> Result<(), Refusal>
    ensures { result ≡ only_of answers.now }
{
    match answers {
        [answer] => *answer,
        _ => Err(Refusal::BadBody),
    }
}

/// The frames of a window.
fn asked_by(alloc: Global, window: &Window) -> Result<Asked, Refusal>
    ensures frames { IfOk result (λ asked. asked ≡ asked_in_window window.now) }
    ensures memory { IfErr result (λ refusal. refusal ≡ Memory) }
{
    let frames = Frames::of(alloc, window)?;
    let sort = sort_of(window);
    Ok(Asked { sort, frames })
}

/// What a window asks for.
pub(crate) fn sort_of(window: &Window) -> Sort
    ensures { result ≡ sort_of window.now }
{
    match window {
        Window::Nodes(_) => Sort::Nodes,
        Window::Pages(_) => Sort::Pages,
        Window::Gets(_) => Sort::States,
        Window::Pushes(_) => Sort::Pushes,
    }
}
