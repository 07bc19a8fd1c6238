// What the state does at each request that it serves: one function for each, as the table has them.
ghost use Rattle.std.specs.Prelude.{◌≡◌, ◌+◌, ◌<◌, ◌≤◌, IfOk, OnOk, OnErr, IsOk, IsTrue, slice_get};
ghost use Rattle.std.specs.HashMap.{spare};
ghost use Rattle.store_object.specs.Store.{Store, Shape, is_live, is_object, is_place, shape_of, word_at, with_word, summed};
ghost use Rattle.store_object.specs.Answer.{answer, is_named, served, allocated, started, ended_reply};
ghost use Rattle.store_object.specs.declared.request.Request.TheVariants as ask;
ghost use Rattle.store_object.specs.State.{Holds, Gives, room_of};
ghost use Rattle.store_object.specs.World.{IsAlloc};
ghost use Rattle.store_object.specs.Replay.{noted};

use crate::state::State;
use crate::{Cause, Event, Place, Reply, Request, THREAD_LIMIT};
use std::alloc::AllocError;

// The sum of two words: at 32 bits, with the sign extended, where it is narrow, and else at 64 bits.
fn summed(narrow: bool, old: u64, word: u64) -> u64
    ensures { result ≡ summed narrow old word }
{
    let sum = old.wrapping_add(word);
    if !narrow {
        return sum;
    }
    let low = sum % (1 << 32);
    if low < 1 << 31 {
        low
    } else {
        low + 0xFFFF_FFFF_0000_0000
    }
}

impl State {
    /// Answers a request, and notes it in the history unless it is refused.
    pub(crate) fn answer(
        &mut self,
        history: &mut Vec<Event>,
        thread: u32,
        request: Request,
    ) -> Result<Reply, AllocError>
        ghost store: { Store }
        requires { Holds self.old store }
        ensures ok { IfOk result (λ reply. Gives self.new reply (answer store thread request)) }
        ensures noted { IfOk result (λ reply. history.new.items ≡ noted history.old.items thread request reply) }
        ensures err { OnErr result (Holds self.new store) }
        ensures same { OnErr result (history.new.items ≡ history.old.items) }
        ensures reserved { 0 < room_of self.old history.old → ¬ (IsAlloc request) → IsOk result }
        ensures room { room_of self.old history.old ≤ room_of self.new history.new + 1 }
        ensures kept { OnErr result (room_of self.old history.old ≤ room_of self.new history.new) }
    {
        if self.is_over {
            return Ok(Reply::Halted);
        }
        if !self.is_live(thread) || !self.is_named(request) {
            return Ok(Reply::Improper);
        }
        history.reserve(1)?;
        let reply = self.serve(thread, request)?;
        let event = Event {
            thread,
            request,
            reply,
        };
        history.push_reserved(event);
        Ok(reply)
    }

    /// Serves the request of a live thread that names what is there.
    pub(crate) fn serve(&mut self, thread: u32, request: Request) -> Result<Reply, AllocError>
        ghost store: { Store }
        requires holds { Holds self.old store }
        requires live { IsTrue (is_live store thread) }
        requires named { IsTrue (is_named store request) }
        ensures ok { IfOk result (λ reply. Gives self.new reply (served store thread request)) }
        ensures err { OnErr result (Holds self.new store) }
        ensures reserved { 0 < spare self.old.statics.words → ¬ (IsAlloc request) → IsOk result }
        ensures spare { spare self.old.statics.words ≤ spare self.new.statics.words + 1 }
        ensures kept { OnErr result (spare self.old.statics.words ≤ spare self.new.statics.words) }
    {
        match request {
            Request::Alloc {
                kind,
                length,
                words,
            } => self.alloc(kind, length, words),
            Request::TypeOf { object } => Ok(Reply::Kind(self.objects.at(object).kind)),
            Request::Length { object } => Ok(Reply::Word(u64::from(
                self.objects.at(object).length,
            ))),
            Request::Load { place } => Ok(Reply::Word(self.load(place))),
            Request::Save { place, word } => {
                self.save(place, word)?;
                Ok(Reply::Done)
            }
            Request::Exchange { place, word } => self.exchange(place, word),
            Request::CompareExchange {
                place,
                word,
                comparand,
            } => self.compare_exchange(place, word, comparand),
            Request::Add {
                place,
                word,
                narrow,
            } => self.add(place, word, narrow),
            Request::Print { .. } => Ok(Reply::Done),
            Request::Start { .. } => Ok(self.start()),
            Request::Ended { thread: other } => Ok(self.ended(other)),
            Request::Finish => Ok(self.finish(thread)),
            Request::Fall { .. } => {
                self.is_over = true;
                Ok(Reply::Done)
            }
            Request::Stop { cause } => {
                self.is_over = true;
                Ok(Reply::Stopped(cause))
            }
        }
    }

    fn alloc(&mut self, kind: u32, len: u32, words: u64) -> Result<Reply, AllocError>
        ghost store: { Store }
        requires { Holds self.old store }
        ensures ok { IfOk result (λ reply. Gives self.new reply (allocated store (record { kind = kind; length = len; words = words }))) }
        ensures err { OnErr result (Holds self.new store) }
        ensures statics { self.new.statics ≡ self.old.statics }
    {
        if !self.objects.has_heap(words) {
            self.is_over = true;
            return Ok(Reply::Stopped(Cause::Heap));
        }
        let number = self.objects.add(kind, len, words)?;
        Ok(Reply::Object(number))
    }

    // The word at a place.
    fn load(&self, place: Place) -> u64
        ghost store: { Store }
        requires holds { Holds self.now store }
        requires there { IsTrue (is_place store place) }
        ensures { result ≡ word_at store place }
    {
        match place {
            Place::Object { object, index } => self.objects.load(object, index),
            Place::Fixed { kind, index } => self.statics.load(kind, index),
        }
    }

    // Puts a word at a place.
    fn save(&mut self, place: Place, word: u64) -> Result<(), AllocError>
        ghost store: { Store }
        requires holds { Holds self.old store }
        requires there { IsTrue (is_place store place) }
        ensures ok { OnOk result (Holds self.new (with_word store place word)) }
        ensures err { OnErr result (Holds self.new store) }
        ensures reserved { 0 < spare self.old.statics.words → IsOk result }
        ensures spare { spare self.old.statics.words ≤ spare self.new.statics.words + 1 }
    {
        match place {
            Place::Object { object, index } => {
                self.objects.save(object, index, word);
                Ok(())
            }
            Place::Fixed { kind, index } => self.statics.save(kind, index, word),
        }
    }

    fn exchange(&mut self, place: Place, word: u64) -> Result<Reply, AllocError>
        ghost store: { Store }
        requires holds { Holds self.old store }
        requires there { IsTrue (is_place store place) }
        ensures ok { IfOk result (λ reply. Gives self.new reply (served store 0 (ask.Exchange place word))) }
        ensures err { OnErr result (Holds self.new store) }
        ensures reserved { 0 < spare self.old.statics.words → IsOk result }
        ensures spare { spare self.old.statics.words ≤ spare self.new.statics.words + 1 }
    {
        let old = self.load(place);
        self.save(place, word)?;
        Ok(Reply::Word(old))
    }

    fn compare_exchange(
        &mut self,
        place: Place,
        word: u64,
        comparand: u64,
    ) -> Result<Reply, AllocError>
        ghost store: { Store }
        requires holds { Holds self.old store }
        requires there { IsTrue (is_place store place) }
        ensures ok { IfOk result (λ reply. Gives self.new reply (served store 0 (ask.CompareExchange place word comparand))) }
        ensures err { OnErr result (Holds self.new store) }
        ensures reserved { 0 < spare self.old.statics.words → IsOk result }
        ensures spare { spare self.old.statics.words ≤ spare self.new.statics.words + 1 }
    {
        let found = self.load(place);
        if found == comparand {
            self.save(place, word)?;
        }
        Ok(Reply::Word(found))
    }

    fn add(&mut self, place: Place, word: u64, narrow: bool) -> Result<Reply, AllocError>
        ghost store: { Store }
        requires holds { Holds self.old store }
        requires there { IsTrue (is_place store place) }
        ensures ok { IfOk result (λ reply. Gives self.new reply (served store 0 (ask.Add place word narrow))) }
        ensures err { OnErr result (Holds self.new store) }
        ensures reserved { 0 < spare self.old.statics.words → IsOk result }
        ensures spare { spare self.old.statics.words ≤ spare self.new.statics.words + 1 }
    {
        let sum = summed(narrow, self.load(place), word);
        self.save(place, sum)?;
        Ok(Reply::Word(sum))
    }

    fn start(&mut self) -> Reply
        ghost store: { Store }
        requires { Holds self.old store }
        ensures ok { Gives self.new result (started store) }
        ensures statics { self.new.statics ≡ self.old.statics }
    {
        let number = self.finished.len();
        if number >= THREAD_LIMIT {
            self.is_over = true;
            return Reply::Stopped(Cause::Threads);
        }
        self.finished.push_reserved(false);
        Reply::Thread(number as u32)
    }

    fn ended(&self, thread: u32) -> Reply
        ghost store: { Store }
        requires { Holds self.now store }
        ensures { result ≡ ended_reply (slice_get store.finished thread) }
    {
        match self.finished.get(thread as usize) {
            Some(has_finished) => Reply::Ended(*has_finished),
            None => Reply::Unknown,
        }
    }

    fn finish(&mut self, thread: u32) -> Reply
        ghost store: { Store }
        requires holds { Holds self.old store }
        requires live { IsTrue (is_live store thread) }
        ensures ok { Gives self.new result (served store thread ask.Finish) }
        ensures statics { self.new.statics ≡ self.old.statics }
    {
        self.finished[thread as usize] = true;
        Reply::Done
    }
}
