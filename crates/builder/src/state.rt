// What the builder has made so far.
ghost use Rattle.builder.specs.Ready.{Ready};

use scheme::Scheme;

// A product past a limit is needed: the 33rd, or one that is the 65th variable.
#[derive(Clone, Copy, Debug, PartialEq, Eq)]
pub struct Full;

// The scheme so far, for so many choices, and the sets of its variables. Nothing compares or prints one.
#[derive(Clone, Copy)]
pub struct Work {
    pub choices: usize,
    pub scheme: Scheme,
    pub sets: [u64; Scheme::MAX_VARIABLES],
    ghost ready: { Ready choices scheme sets },
}
