// One list that is measured.
use fault::Fault;
use field::{Field, value};
use interpolation::{Gathering, open};
use std::alloc::{AllocError, Global};
use std::fmt;

// A word of n places, of which t are right, with more letters until the load is reached.
#[derive(Clone, Copy)]
pub(crate) struct Task {
    name: &'static str,
    n: usize,
    k: usize,
    t: usize,
    load: usize,
}

const COEFFICIENTS: [u8; 4] = [1, 2, 3, 4];

const ROOM: usize = 256;

impl fmt::Display for Task {
    fn fmt<W: fmt::Write>(&self, f: &mut fmt::Formatter<W>) -> fmt::Result {
        write!(f, "{}, t {}, load {}", self.name, self.t, self.load)
    }
}

impl Task {
    pub(crate) fn new(name: &'static str, n: usize, k: usize, t: usize, load: usize) -> Task {
        Task {
            name,
            n,
            k,
            t,
            load,
        }
    }

    // Letter number `extra` of a place: the word's where it is right, and else others.
    fn letter_at<F: Field>(&self, field: &F, place: u8, extra: u8) -> u8 {
        let right = value(field, &COEFFICIENTS[0..self.k.min(4)], place);
        if extra == 0 && (place as usize) < self.t {
            right
        } else {
            field.add(right, (place % 3).wrapping_add(extra).wrapping_add(1))
        }
    }

    // The pairs, place after place, and then again with other letters.
    pub(crate) fn pairs<F: Field>(
        &self,
        heap: Global,
        field: &F,
    ) -> Result<Vec<(u8, u8)>, AllocError> {
        let n = self.n.max(1);
        let mut pairs = Vec::new(heap);
        for i in 0..self.load {
            let place = (i % n % 64) as u8;
            pairs.push((place, self.letter_at(field, place, (i / n % 4) as u8)))?;
        }
        Ok(pairs)
    }

    // Lists the task; answers how many polynomials there are.
    pub(crate) fn list<F: Field>(&self, field: &F, pairs: &[(u8, u8)]) -> Result<usize, Fault> {
        let plan = open(self.k, self.t, self.load)?;
        let mut fitting = Gathering::new(field, plan);
        for (point, letter) in pairs {
            let _ = fitting.take(*point, *letter);
        }
        let mut buf = [0u8; ROOM];
        fitting.close().walk(&mut buf)
    }
}
