// A pause, for a program that has to try again later.
#![tactic(auto)]

use std::thread;
use std::time::{Clock, Duration};

// Waits a thousandth of a second. A signal does not cut it short.
pub fn pause(clock: &impl Clock) {
    thread::sleep(clock, Duration::from_millis(1));
}
