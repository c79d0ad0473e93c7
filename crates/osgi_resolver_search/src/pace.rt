//! How many decisions a search makes at once.

ghost use Rattle.std.specs.Prelude.{◌<◌, ◌≤◌};
ghost use Rattle.osgi_resolver_search.specs.declared.pace.TheConstants.{LONGEST_STRIDE, LONGEST_PAUSE};

/// How many decisions are made at once, at most.
const LONGEST_STRIDE: u64 = 4096;

/// How many single steps come, at most, before several decisions at once are tried again.
const LONGEST_PAUSE: u64 = 64;

/// How many decisions are made at once, and how many single steps come before that is tried again.
#[derive(Clone, Copy)]
pub struct Pace {
    stride: u64,
    /// Single steps that are left before the stride is tried.
    left: u64,
    /// Single steps that come after the next stride that is not gone whole.
    pause: u64,
    ghost strides: { (0 < stride) × (stride ≤ LONGEST_STRIDE) },
    ghost pauses: { (left ≤ LONGEST_PAUSE) × (pause ≤ LONGEST_PAUSE) },
}

impl Pace {
    /// One decision at first.
    pub fn new() -> Pace {
        Pace {
            stride: 1,
            left: 0,
            pause: 1,
        }
    }

    /// How many decisions to make at once.
    pub fn most(&self) -> u64
        ensures most { (0 < result) × (result ≤ LONGEST_STRIDE) }
    {
        if self.left > 0 { 1 } else { self.stride }
    }

    /// The pace after the search went on by this many words. A stride that was gone whole doubles the next. After any other come
    /// single steps, and then a stride of two: one step the first time, then twice as many each time, at most LONGEST_PAUSE.
    pub fn after(self, gone: u64) -> Pace {
        if self.left > 0 {
            return Pace {
                stride: self.stride,
                left: self.left - 1,
                pause: self.pause,
            };
        }
        if gone < self.stride {
            return Pace {
                stride: 2,
                left: self.pause,
                pause: (2 * self.pause).min(LONGEST_PAUSE),
            };
        }
        Pace {
            stride: (2 * self.stride).min(LONGEST_STRIDE),
            left: 0,
            pause: self.pause,
        }
    }
}
