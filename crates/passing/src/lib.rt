// Items one after another, from the front of what was read: as long as an item cannot be cut there, and what it prints has room.
#![tactic(auto)]

ghost use Rattle.std.specs.Prelude.{◌≡◌, false, ◌-◌, length};
ghost use Rattle.lines.specs.Adding.{room};
ghost use Rattle.printout.specs.Stepping.{between_in, Placed, Ready, UnbegunKept};
ghost use Rattle.passing.specs.Passing.{goes_on, PassedWith, Waits};

use items::LONGEST_ITEM;
use lines::Text;
use printout::{Going, PLACES, Went, account_before, step};
use telling::{END_LINE, FIGURE_LINES, GAP_LINE, SEQUENCE_LINE};

// The most octets that one item prints, an account: a gap may stand at each place and behind the last.
const MOST_TEXT: usize = SEQUENCE_LINE + FIGURE_LINES + GAP_LINE * (PLACES + 1) + END_LINE;

// Whether the next item can be passed. Kept: one test after another, as in its definition; joined by `&&` each is split again in the proof.
fn goes_on(rest: usize, ended: bool, room: usize, stops: bool) -> bool
    ensures { result ≡ goes_on rest ended room stops }
{
    if stops {
        return false;
    }
    if room < MOST_TEXT {
        return false;
    }
    if ended {
        return 0 < rest;
    }
    LONGEST_ITEM <= rest
}

// Passes items from the front of the input, and puts what they print behind what was put before.
fn pass_items(
    g: Going,
    marks: &mut [u8],
    elapsed: &mut [u32],
    sizes: &mut [u16],
    input: &[u8],
    ended: bool,
    text: &mut Text,
) -> Went
    requires { Placed g marks.old elapsed.old sizes.old }
    ensures passed { PassedWith Placed (between_in g marks.old elapsed.old sizes.old) input.now ended
        result marks.new elapsed.new sizes.new text.old text.new }
    ensures unbegun { UnbegunKept (between_in g marks.old elapsed.old sizes.old) result.going marks.new elapsed.new sizes.new }
    ensures stops_after { goes_on (length input.now - result.used) ended (room text.new) result.stops ≡ false }
{
    let mut going = g;
    let mut left = input.len();
    let mut stops = false;
    while goes_on(left, ended, text.room(), stops) {
        let item = &input[input.len() - left..];
        let w = step(going, marks, elapsed, sizes, item, text);
        going = w.going;
        left = left - w.used;
        stops = w.stops;
    }
    Went {
        going: going,
        used: input.len() - left,
        stops: stops,
    }
}

// Passes items, and closes with the last account where the input has ended and nothing of it is left.
pub fn pass(
    g: Going,
    marks: &mut [u8],
    elapsed: &mut [u32],
    sizes: &mut [u16],
    input: &[u8],
    ended: bool,
    text: &mut Text,
) -> Went
    requires { Placed g marks.old elapsed.old sizes.old }
    ensures passed { PassedWith Placed (between_in g marks.old elapsed.old sizes.old) input.now ended
        result marks.new elapsed.new sizes.new text.old text.new }
    ensures unbegun { UnbegunKept (between_in g marks.old elapsed.old sizes.old) result.going marks.new elapsed.new sizes.new }
    ensures ready { Ready g marks.old elapsed.old sizes.old → Ready result.going marks.new elapsed.new sizes.new }
    ensures waits { Waits input.now ended result text.new }
{
    let w = pass_items(g, marks, elapsed, sizes, input, ended, text);
    let more_may_come = !ended;
    if w.stops || more_may_come || text.room() < MOST_TEXT {
        return w;
    }
    account_before(w.going, marks, elapsed, sizes, text);
    Went { stops: true, ..w }
}
