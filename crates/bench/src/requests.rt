// Mixed requests to the store, for benchmarks.
use mn_outside::NoMemory;
use std::alloc::Global;
use store_object::{Place, Reply, Request, World};

// The word that each eighth request raises by 1.
const COUNTER: Place = Place::Fixed {
    kind: 4_000_000_000,
    index: 0,
};

/// What the requests came to.
#[derive(Clone, Copy, Debug, PartialEq, Eq)]
pub struct Asked {
    /// The number of the last object.
    pub objects: u32,
    /// The last sum of the counter.
    pub counter: u64,
    /// How many replies were Halted, Improper or Stopped.
    pub refused: u64,
}

// Request i of the mix: of each eight the first allocates an object of four words, and the others read and write
// words of it, of an earlier object, which hops about, and of up to 65,536 static places.
fn request(i: u32) -> Request {
    let round = i / 8;
    let object = round + 1;
    let word = u64::from(i);
    let own = Place::Object { object, index: 1 };
    let earlier = Place::Object {
        object: 1 + round.wrapping_mul(2_654_435_761) % object,
        index: round % 4,
    };
    let fixed = Place::Fixed {
        kind: round % 64,
        index: round / 64 % 1024,
    };
    match i % 8 {
        0 => Request::Alloc {
            kind: 7,
            length: 4,
            words: 4,
        },
        1 => Request::Save { place: own, word },
        2 => Request::Load { place: earlier },
        3 => Request::Exchange {
            place: earlier,
            word,
        },
        4 => Request::CompareExchange {
            place: earlier,
            word: 1,
            comparand: word.wrapping_sub(1),
        },
        5 => Request::Save { place: fixed, word },
        6 => Request::Load { place: fixed },
        _ => Request::Add {
            place: COUNTER,
            word: 1,
            narrow: false,
        },
    }
}

/// Makes so many mixed requests of thread 0 to a new store. Up to 5,592,400 the heap has room.
pub fn store_of(alloc: Global, requests: u32) -> Result<Asked, NoMemory> {
    let mut world = World::new(alloc)?;
    let mut asked = Asked {
        objects: 0,
        counter: 0,
        refused: 0,
    };
    for i in 0..requests {
        match world.ask(0, request(i))? {
            Reply::Object(number) => asked.objects = number,
            Reply::Word(word) => {
                if i % 8 == 7 {
                    asked.counter = word;
                }
            }
            Reply::Halted | Reply::Improper | Reply::Stopped(_) => {
                asked.refused = asked.refused.wrapping_add(1);
            }
            _ => {}
        }
    }
    Ok(asked)
}
