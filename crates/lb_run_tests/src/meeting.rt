//! A gate at which two lanes meet.
use lb_io::{Gate, Point};
use std::sync::atomic::{AtomicU64, Ordering};

// How often a lane that is held looks at its word before it is let go.
const MOST_TURNS: u64 = 200_000_000;

/// Where the two lanes meet: lane 0 at a point of its way, and lane 1 before its first row.
#[derive(Clone, Copy, Debug)]
pub struct Place {
    /// The point of lane 0.
    pub point: Point,
    /// At which pass of that point lane 0 is held, counted from 1.
    pub pass: u64,
    /// The point that lane 1 is to pass before lane 0 goes on.
    pub until: Point,
    /// How often lane 1 is to pass it.
    pub times: u64,
}

/// The gate. It holds lane 1 before its rows until lane 0 is at the place, and lane 0 there until lane 1 has done its
/// part. A lane that was held too long is let go, and the gate remembers it.
#[derive(Drop)]
pub struct Meeting {
    place: Place,
    // how often lane 0 came to the point
    came: AtomicU64,
    // how often lane 1 passed its point
    passed: AtomicU64,
    // how many holds came to their limit
    late: AtomicU64,
}

impl Meeting {
    /// A gate that no lane has come to.
    pub fn new(place: Place) -> Meeting {
        Meeting {
            place,
            came: AtomicU64::new(0),
            passed: AtomicU64::new(0),
            late: AtomicU64::new(0),
        }
    }

    /// Whether lane 0 was held at the place, lane 1 did its part meanwhile, and no hold came to its limit.
    pub fn was_kept(&self) -> bool {
        self.came.load(Ordering::SeqCst) >= self.place.pass
            && self.passed.load(Ordering::SeqCst) >= self.place.times
            && self.late.load(Ordering::SeqCst) == 0
    }

    // Holds a lane until the word has come to the count, or too many turns have passed.
    fn hold(&self, word: &AtomicU64, count: u64) {
        for _ in 0..MOST_TURNS {
            if word.load(Ordering::SeqCst) >= count {
                return;
            }
        }
        self.late.fetch_add(1, Ordering::SeqCst);
    }

    // Lane 0 is held at the pass that the place names. At later ones it goes on at once, since lane 1 has done its part.
    fn pass_first(&self, point: Point) {
        if point != self.place.point {
            return;
        }
        let before = self.came.fetch_add(1, Ordering::SeqCst);
        if before.saturating_add(1) >= self.place.pass {
            self.hold(&self.passed, self.place.times);
        }
    }

    // Lane 1 is held before its first row. Before later ones it goes on at once, since lane 0 has come to the place.
    fn pass_second(&self, point: Point) {
        if point == Point::BeforeRow {
            self.hold(&self.came, self.place.pass);
        }
        if point == self.place.until {
            self.passed.fetch_add(1, Ordering::SeqCst);
        }
    }
}

impl Gate for Meeting {
    fn pass_here(&self, lane: u32, point: Point) {
        if lane == 0 {
            self.pass_first(point);
        } else {
            self.pass_second(point);
        }
    }
}
