// What the store holds, and what is there of what a request names.
ghost use Rattle.std.specs.Prelude.{◌≡◌, ◌<◌, IfOk, IsTrue};
ghost use Rattle.store_object.specs.Store.{Store, opening, is_live, is_object, is_place};
ghost use Rattle.store_object.specs.Answer.{is_named};
ghost use Rattle.store_object.specs.State.{Holds};

use crate::objects::Objects;
use crate::statics::Statics;
use crate::{INDEX_LIMIT, Place, Request, THREAD_LIMIT};
use std::alloc::{AllocError, Global};

/// What the store holds.
#[derive(Drop)]
pub(crate) struct State {
    pub objects: Objects,
    pub statics: Statics,
    /// One for each started thread: whether it has finished. It has room for `THREAD_LIMIT`.
    pub finished: Vec<bool>,
    /// Whether the history has ended.
    pub is_over: bool,
}

impl State {
    pub(crate) fn new(alloc: Global) -> Result<State, AllocError>
        ensures { IfOk result (λ state. Holds state opening) }
    {
        let mut finished = Vec::with_capacity(alloc, THREAD_LIMIT)?;
        finished.push_reserved(false);
        Ok(State {
            objects: Objects::new(alloc),
            statics: Statics::new(alloc),
            finished,
            is_over: false,
        })
    }

    /// Whether the thread was started and hasn't finished.
    pub(crate) fn is_live(&self, thread: u32) -> bool
        ghost store: { Store }
        requires { Holds self.now store }
        ensures { result ≡ is_live store thread }
    {
        match self.finished.get(thread as usize) {
            Some(has_finished) => !*has_finished,
            None => false,
        }
    }

    /// Whether what the request names is there.
    pub(crate) fn is_named(&self, request: Request) -> bool
        ghost store: { Store }
        requires { Holds self.now store }
        ensures { result ≡ is_named store request }
    {
        match request {
            Request::TypeOf { object } => self.is_object(object),
            Request::Length { object } => self.is_object(object),
            Request::Start { object } => self.is_object(object),
            Request::Load { place } => self.is_place(place),
            Request::Save { place, .. } => self.is_place(place),
            Request::Exchange { place, .. } => self.is_place(place),
            Request::CompareExchange { place, .. } => self.is_place(place),
            Request::Add { place, .. } => self.is_place(place),
            Request::Alloc { .. } => true,
            Request::Print { .. } => true,
            Request::Ended { .. } => true,
            Request::Finish => true,
            Request::Fall { .. } => true,
            Request::Stop { .. } => true,
        }
    }

    fn is_object(&self, object: u32) -> bool
        ghost store: { Store }
        requires { Holds self.now store }
        ensures { result ≡ is_object store object }
    {
        self.objects.find(object).is_some()
    }

    fn is_place(&self, place: Place) -> bool
        ghost store: { Store }
        requires { Holds self.now store }
        ensures { result ≡ is_place store place }
    {
        match place {
            Place::Object { object, index } => match self.objects.find(object) {
                Some(held) => (index as usize) < held.words && index < INDEX_LIMIT,
                None => false,
            },
            Place::Fixed { index, .. } => index < INDEX_LIMIT,
        }
    }
}
