//! A time for each object.

ghost use Rattle.std.specs.Prelude.{◌≡◌, ◌<◌, length, replicate, slice_set, IfOk};
ghost use Rattle.std.specs.Int.{int_min};
ghost use Rattle.acceptance.specs.Walks.{time};

use crate::object::ObjectId;
use std::alloc::Global;
use std::marker::Model;
use xa_io::OutOfMemory;

/// One time for each object of a pool, in seconds since 1970.
#[derive(Debug, Drop)]
pub struct Times {
    times: Vec<i64>,
}

impl Model for Times {
    ghost use Rattle.std.specs.Prelude.{List, ℤ};

    ghost Value = { List ℤ };

    ghost view = { λ t. t.times.items };
}

impl Times {
    /// The same time for each of so many objects.
    pub fn flat(alloc: Global, objects: u32, now: i64) -> Result<Times, OutOfMemory>
        ensures { IfOk result (λ times. times ≡ replicate objects now) }
    {
        match vec![in alloc; now; objects as usize] {
            Ok(times) => Ok(Times { times }),
            Err(_) => Err(OutOfMemory),
        }
    }

    /// The time of an object, which is one of those that have a time.
    pub fn time(&self, object: ObjectId) -> i64
        requires { object.number < length self.now }
        ensures { result ≡ time self.now object.number }
    {
        self.times[object.number as usize]
    }

    /// Sets an object's time to the smaller of the two; the other times stay.
    pub fn lower(&mut self, object: ObjectId, bound: i64)
        requires { object.number < length self.old }
        ensures { self.new ≡ slice_set self.old object.number (int_min (time self.old object.number) bound) }
    {
        let number = object.number as usize;
        if self.times[number] > bound {
            self.times[number] = bound;
        }
    }
}
