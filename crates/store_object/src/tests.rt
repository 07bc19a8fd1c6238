use crate::{Cause, Event, Form, Place, Reply, Request, World};
use mn_outside::NoMemory;
use std::process::Abort;
use std::test::Fail;

const FIELD: Place = Place::Object {
    object: 1,
    index: 1,
};

const COUNT: Place = Place::Fixed { kind: 9, index: 0 };

const OTHER: Place = Place::Fixed { kind: 10, index: 0 };

const FAR: Place = Place::Fixed {
    kind: 9,
    index: 16_777_215,
};

const PAST: Place = Place::Fixed {
    kind: 9,
    index: 16_777_216,
};

const LAST: Place = Place::Object {
    object: 1,
    index: 4_194_301,
};

// Every request with its reply, refusals among them.
#[rattlefmt::skip]
const SCRIPT: [(u32, Request, Reply); 32] = [
    (0, Request::Alloc { kind: 7, length: 3, words: 2 }, Reply::Object(1)),
    (0, Request::Alloc { kind: 8, length: 0, words: 0 }, Reply::Object(2)),
    (0, Request::TypeOf { object: 1 }, Reply::Kind(7)),
    (0, Request::Length { object: 1 }, Reply::Word(3)),
    (0, Request::TypeOf { object: 0 }, Reply::Improper),
    (0, Request::Length { object: 3 }, Reply::Improper),
    (0, Request::Load { place: FIELD }, Reply::Word(0)),
    (0, Request::Save { place: FIELD, word: 40 }, Reply::Done),
    (0, Request::Exchange { place: FIELD, word: 41 }, Reply::Word(40)),
    (0, Request::CompareExchange { place: FIELD, word: 42, comparand: 40 }, Reply::Word(41)),
    (0, Request::Load { place: FIELD }, Reply::Word(41)),
    (0, Request::CompareExchange { place: FIELD, word: 42, comparand: 41 }, Reply::Word(41)),
    (0, Request::Load { place: FIELD }, Reply::Word(42)),
    (0, Request::Load { place: Place::Object { object: 1, index: 0 } }, Reply::Word(0)),
    (0, Request::Load { place: Place::Object { object: 1, index: 2 } }, Reply::Improper),
    (0, Request::Load { place: Place::Object { object: 2, index: 0 } }, Reply::Improper),
    (0, Request::Add { place: FIELD, word: 0x7FFF_FFFF, narrow: true }, Reply::Word(0xFFFF_FFFF_8000_0029)),
    (0, Request::Add { place: FIELD, word: u64::MAX, narrow: false }, Reply::Word(0xFFFF_FFFF_8000_0028)),
    (0, Request::Add { place: FIELD, word: 0x8000_0000, narrow: true }, Reply::Word(40)),
    (0, Request::Print { form: Form::Number, word: 5 }, Reply::Done),
    (0, Request::Print { form: Form::String, word: 0 }, Reply::Done),
    (1, Request::Finish, Reply::Improper),
    (0, Request::Start { object: 4 }, Reply::Improper),
    (0, Request::Start { object: 2 }, Reply::Thread(1)),
    (0, Request::Ended { thread: 1 }, Reply::Ended(false)),
    (1, Request::Ended { thread: 0 }, Reply::Ended(false)),
    (1, Request::Finish, Reply::Done),
    (1, Request::Print { form: Form::Number, word: 6 }, Reply::Improper),
    (0, Request::Ended { thread: 1 }, Reply::Ended(true)),
    (0, Request::Ended { thread: 2 }, Reply::Unknown),
    (0, Request::Stop { cause: Cause::Depth }, Reply::Stopped(Cause::Depth)),
    (0, Request::Finish, Reply::Halted),
];

// Static words begin as 0, and those of two kinds or two indices are apart.
#[rattlefmt::skip]
const STATICS: [(u32, Request, Reply); 9] = [
    (0, Request::Load { place: COUNT }, Reply::Word(0)),
    (0, Request::Save { place: COUNT, word: 1 }, Reply::Done),
    (0, Request::Save { place: OTHER, word: 2 }, Reply::Done),
    (0, Request::Save { place: FAR, word: 3 }, Reply::Done),
    (0, Request::Load { place: COUNT }, Reply::Word(1)),
    (0, Request::Load { place: OTHER }, Reply::Word(2)),
    (0, Request::Load { place: FAR }, Reply::Word(3)),
    (0, Request::Load { place: PAST }, Reply::Improper),
    (0, Request::Save { place: PAST, word: 4 }, Reply::Improper),
];

// An exception that nobody catches ends the history.
#[rattlefmt::skip]
const FALL: [(u32, Request, Reply); 3] = [
    (0, Request::Fall { kind: 12 }, Reply::Done),
    (0, Request::Finish, Reply::Halted),
    (5, Request::TypeOf { object: 0 }, Reply::Halted),
];

// 4,194,304 is the most: 2 for the object, and its words.
#[rattlefmt::skip]
const FULL_HEAP: [(u32, Request, Reply); 4] = [
    (0, Request::Alloc { kind: 1, length: 0, words: 4_194_302 }, Reply::Object(1)),
    (0, Request::Save { place: LAST, word: 1 }, Reply::Done),
    (0, Request::Alloc { kind: 1, length: 0, words: 0 }, Reply::Stopped(Cause::Heap)),
    (0, Request::Load { place: LAST }, Reply::Halted),
];

// Asks each request in turn, and compares its reply.
fn follow(
    rt: &impl Abort,
    world: &mut World,
    script: &[(u32, Request, Reply)],
) -> Result<(), NoMemory> {
    for (thread, request, reply) in script {
        world.reserve()?;
        assert_eq!(rt; world.ask(*thread, *request)?, *reply, "at {request:?}");
    }
    Ok(())
}

// The history has what was not refused, in order.
fn expect_kept(rt: &impl Abort, history: &[Event], scripts: &[&[(u32, Request, Reply)]]) {
    let mut at: usize = 0;
    for script in scripts {
        for (thread, request, reply) in *script {
            if *reply != Reply::Halted && *reply != Reply::Improper {
                let event = Event {
                    thread: *thread,
                    request: *request,
                    reply: *reply,
                };
                assert_eq!(rt; history.get(at).copied(), Some(event));
                at = at.wrapping_add(1);
            }
        }
    }
    assert_eq!(rt; history.len(), at);
}

#[test]
fn keeps_what_is_not_refused(rt: HostRuntime) -> Result<(), Fail> {
    let mut world = World::new(rt.alloc())?;
    follow(&rt, &mut world, &SCRIPT)?;
    expect_kept(&rt, world.history(), &[SCRIPT.as_slice()]);
    expect_kept(&rt, world.into_history().as_slice(), &[SCRIPT.as_slice()]);
    Ok(())
}

// A request that wants for memory leaves the history, and gets its reply when it is asked again.
fn insist(
    rt: &impl Abort,
    world: &mut World,
    thread: u32,
    request: Request,
) -> Result<Reply, NoMemory> {
    let before = world.history().len();
    match world.ask(thread, request) {
        Ok(reply) => Ok(reply),
        Err(NoMemory) => {
            assert_eq!(rt; world.history().len(), before);
            world.ask(thread, request)
        }
    }
}

// `tools/refuse` runs this with each one allocation refused in turn.
#[test]
fn goes_on_after_want_of_memory(rt: HostRuntime) -> Result<(), Fail> {
    let mut world = match World::new(rt.alloc()) {
        Ok(world) => world,
        Err(NoMemory) => World::new(rt.alloc())?,
    };
    for script in [STATICS.as_slice(), SCRIPT.as_slice()] {
        for (thread, request, reply) in script {
            assert_eq!(rt;
                insist(&rt, &mut world, *thread, *request)?,
                *reply,
                "at {request:?}"
            );
        }
    }
    expect_kept(
        &rt,
        world.history(),
        &[STATICS.as_slice(), SCRIPT.as_slice()],
    );
    Ok(())
}

#[test]
fn follows_the_scripts(rt: HostRuntime) -> Result<(), Fail> {
    for script in [STATICS.as_slice(), FALL.as_slice(), FULL_HEAP.as_slice()] {
        follow(&rt, &mut World::new(rt.alloc())?, script)?;
    }
    Ok(())
}

// An object that never fits.
#[test]
fn stops_past_the_heap(rt: HostRuntime) -> Result<(), Fail> {
    for words in [4_194_303, u64::MAX] {
        let request = Request::Alloc {
            kind: 1,
            length: 0,
            words,
        };
        let script = [
            (0, request, Reply::Stopped(Cause::Heap)),
            (0, Request::Finish, Reply::Halted),
        ];
        follow(&rt, &mut World::new(rt.alloc())?, &script)?;
    }
    Ok(())
}

// 63 threads besides thread 0.
#[test]
fn stops_past_the_threads(rt: HostRuntime) -> Result<(), Fail> {
    let mut world = World::new(rt.alloc())?;
    follow(
        &rt,
        &mut world,
        &[(
            0,
            Request::Alloc {
                kind: 1,
                length: 0,
                words: 0,
            },
            Reply::Object(1),
        )],
    )?;
    for number in 1..64 {
        follow(
            &rt,
            &mut world,
            &[(0, Request::Start { object: 1 }, Reply::Thread(number))],
        )?;
    }
    follow(
        &rt,
        &mut world,
        &[
            (
                63,
                Request::Start { object: 1 },
                Reply::Stopped(Cause::Threads),
            ),
            (0, Request::Finish, Reply::Halted),
        ],
    )?;
    Ok(())
}
