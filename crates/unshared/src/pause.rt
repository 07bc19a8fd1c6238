// Why an instruction doesn't go on now, and the replies that it got.
ghost use Rattle.std.specs.Prelude.{◌≡◌, Bool, Option};
ghost use Rattle.store_object.specs.declared.reply.Reply.{Reply};
ghost use Rattle.unshared.specs.Silent.{Gives};
ghost use Rattle.unshared.specs.Talk.{Talks, are_used, asks, asks_object, asks_kind, asks_word, asks_thread, asks_ended, asks_done, stops, object_in, kind_in, word_in, thread_in, ended_in, done_in, is_stopped, over_with};

use mn_outside::NoMemory;
use std::marker::Model;
use store_object::{Cause, Reply, Request};

/// Why an instruction halts: it makes a request, its thread is over, there is no rule, or a number names no type yet.
#[derive(Clone, Copy)]
pub(crate) enum Halt {
    Asks(Request),
    Over,
    Stuck,
    Unnamed,
}

/// Why an instruction doesn't go on. Want of memory is free.
#[derive(Clone, Copy)]
pub(crate) enum Pause {
    Halts(Halt),
    NoMemory,
}

impl From<NoMemory> for Pause {
    ghost use Rattle.unshared.specs.declared.pause.Pause.TheVariants as pause;

    ghost from_gives = { λ _ e. e ≡ pause.NoMemory };

    fn from(_none: NoMemory) -> Pause {
        Pause::NoMemory
    }
}

// The number of an object.
fn object_in(reply: Reply) -> Result<u32, Pause>
    ensures { Gives (λ number. number) (object_in reply) result }
{
    match reply {
        Reply::Object(number) => Ok(number),
        _ => Err(Pause::Halts(Halt::Stuck)),
    }
}

// The number of a type.
fn kind_in(reply: Reply) -> Result<u32, Pause>
    ensures { Gives (λ number. number) (kind_in reply) result }
{
    match reply {
        Reply::Kind(number) => Ok(number),
        _ => Err(Pause::Halts(Halt::Stuck)),
    }
}

// A word, or a length.
fn word_in(reply: Reply) -> Result<u64, Pause>
    ensures { Gives (λ word. word) (word_in reply) result }
{
    match reply {
        Reply::Word(word) => Ok(word),
        _ => Err(Pause::Halts(Halt::Stuck)),
    }
}

// The number of a thread.
fn thread_in(reply: Reply) -> Result<u32, Pause>
    ensures { Gives (λ number. number) (thread_in reply) result }
{
    match reply {
        Reply::Thread(number) => Ok(number),
        _ => Err(Pause::Halts(Halt::Stuck)),
    }
}

// Whether a thread has finished, if there is such a thread.
fn ended_in(reply: Reply) -> Result<Option<bool>, Pause>
    ensures { Gives (λ (ended : Option Bool). ended) (ended_in reply) result }
{
    match reply {
        Reply::Ended(has_finished) => Ok(Some(has_finished)),
        Reply::Unknown => Ok(None),
        _ => Err(Pause::Halts(Halt::Stuck)),
    }
}

fn done_in(reply: Reply) -> Result<(), Pause>
    ensures { Gives (λ nothing. nothing) (done_in reply) result }
{
    match reply {
        Reply::Done => Ok(()),
        _ => Err(Pause::Halts(Halt::Stuck)),
    }
}

// Whether the run has stopped at a limit.
fn is_stopped(reply: Reply) -> bool
    ensures { result ≡ is_stopped reply }
{
    match reply {
        Reply::Stopped(_) => true,
        _ => false,
    }
}

/// The replies that an instruction got and hasn't used yet, in order.
#[derive(Drop)]
pub(crate) struct Replies<'a> {
    rest: &'a [Reply],
}

impl<'a> Model for Replies<'a> {
    ghost use Rattle.std.specs.Prelude.{List};
    ghost use Rattle.store_object.specs.declared.reply.Reply.{Reply};

    ghost Value = { List Reply };

    ghost view = { λ r. r.rest.now };
}

impl<'a> Replies<'a> {
    pub(crate) fn of(rest: &'a [Reply]) -> Replies<'a>
        ensures { result ≡ rest.now }
    {
        Replies { rest }
    }

    /// Whether all were used.
    pub(crate) fn are_used(&self) -> bool
        ensures { result ≡ are_used self.now }
    {
        match self.rest {
            [] => true,
            [_, ..] => false,
        }
    }

    /// The thread is over; with replies left there is no rule.
    pub(crate) fn over(&self) -> Halt
        ensures { result ≡ over_with self.now }
    {
        match self.rest {
            [] => Halt::Over,
            [_, ..] => Halt::Stuck,
        }
    }

    /// The reply to a request: the next one, or else the request is made.
    pub(crate) fn ask(&mut self, request: Request) -> Result<Reply, Pause>
        ensures { Talks (λ reply. reply) (asks request self.old) result self.new }
    {
        match self.rest {
            [reply, rest @ ..] => {
                self.rest = rest;
                Ok(*reply)
            }
            [] => Err(Pause::Halts(Halt::Asks(request))),
        }
    }

    /// An object's number; at a limit of the heap the thread is over.
    #[tactic(auto, unfolding(crate::specs::Talk::asks_object))]
    pub(crate) fn object(&mut self, request: Request) -> Result<u32, Pause>
        ensures { Talks (λ number. number) (asks_object request self.old) result self.new }
    {
        let reply = self.ask(request)?;
        if is_stopped(reply) {
            return Err(Pause::Halts(self.over()));
        }
        Ok(object_in(reply)?)
    }

    /// The number of an exact type.
    #[tactic(auto, unfolding(crate::specs::Talk::asks_kind))]
    pub(crate) fn kind(&mut self, request: Request) -> Result<u32, Pause>
        ensures { Talks (λ number. number) (asks_kind request self.old) result self.new }
    {
        let reply = self.ask(request)?;
        Ok(kind_in(reply)?)
    }

    /// A word, or a length.
    #[tactic(auto, unfolding(crate::specs::Talk::asks_word))]
    pub(crate) fn word(&mut self, request: Request) -> Result<u64, Pause>
        ensures { Talks (λ word. word) (asks_word request self.old) result self.new }
    {
        let reply = self.ask(request)?;
        Ok(word_in(reply)?)
    }

    /// The number of a thread; at the limit of threads the thread is over.
    #[tactic(auto, unfolding(crate::specs::Talk::asks_thread))]
    pub(crate) fn thread(&mut self, request: Request) -> Result<u32, Pause>
        ensures { Talks (λ number. number) (asks_thread request self.old) result self.new }
    {
        let reply = self.ask(request)?;
        if is_stopped(reply) {
            return Err(Pause::Halts(self.over()));
        }
        Ok(thread_in(reply)?)
    }

    /// Whether a thread has finished; None where there is no such thread.
    #[tactic(auto, unfolding(crate::specs::Talk::asks_ended))]
    pub(crate) fn ended(&mut self, request: Request) -> Result<Option<bool>, Pause>
        ensures { Talks (λ (ended : Option Bool). ended) (asks_ended request self.old) result self.new }
    {
        let reply = self.ask(request)?;
        Ok(ended_in(reply)?)
    }

    #[tactic(auto, unfolding(crate::specs::Talk::asks_done))]
    pub(crate) fn done(&mut self, request: Request) -> Result<(), Pause>
        ensures { Talks (λ nothing. nothing) (asks_done request self.old) result self.new }
    {
        let reply = self.ask(request)?;
        Ok(done_in(reply)?)
    }

    /// Stops the run at a limit.
    #[tactic(auto, unfolding(crate::specs::Talk::stops))]
    pub(crate) fn stop(&mut self, cause: Cause) -> Result<(), Pause>
        ensures { Talks (λ nothing. nothing) (stops cause self.old) result self.new }
    {
        let reply = self.ask(Request::Stop { cause })?;
        if is_stopped(reply) {
            return Err(Pause::Halts(self.over()));
        }
        Err(Pause::Halts(Halt::Stuck))
    }
}
