// The printed account: items on standard input, accounts on standard output, and what failed on standard error.
#![tactic(auto)]

mod failures;

ghost use Rattle.std.specs.Prelude.{◌≡◌, true, false, length, take, IsOk};
ghost use Rattle.std.specs.declared.io.Error.{Error};
ghost use Rattle.printout.specs.Stepping.{between_in, Placed, Ready, UnbegunKept};
ghost use Rattle.account.specs.declared.Ran.TheVariants.{Whole, Front};
ghost use Rattle.account.specs.Turning.{TellsAll, TellsFront, TurnedWith, TurnsWith};

use failures::{tell_read_failed, tell_usage, tell_write_failed};
use feeding::{End, large_buffer, move_down, read_on};
use hearing::taking::clear;
use lines::Text;
use passing::pass;
use printout::{Going, PLACES};
use std::env::{Env, FillError};
use std::io;
use std::io::{Read, Write};
use std::time::Clock;

// What is there after a read: the octets that were not passed yet, where the text to print ends, whether it is the last, and why
// reading stopped.
#[derive(Clone, Copy)]
struct Done {
    going: Going,
    have: usize,
    at: usize,
    over: bool,
    end: End,
}

// Reads on, passes the items that are all there, and puts what they print into memory. A failed read does not end the input, so
// no last account is put there.
fn turn<R: Read>(
    from: &mut R,
    clock: &impl Clock,
    g: Going,
    marks: &mut [u8],
    elapsed: &mut [u32],
    sizes: &mut [u16],
    input: &mut [u8],
    have: usize,
    out: &mut [u8],
) -> Done
    requires { TurnsWith Placed g marks.old elapsed.old sizes.old input.old have }
    ensures turned { TurnedWith Placed (between_in g marks.old elapsed.old sizes.old) (take have input.old)
        (R.remaining from.old) (R.remaining from.new) result marks.new elapsed.new sizes.new input.new out.new }
    ensures unbegun { UnbegunKept (between_in g marks.old elapsed.old sizes.old) result.going marks.new elapsed.new sizes.new }
    ensures ready { Ready g marks.old elapsed.old sizes.old → Ready result.going marks.new elapsed.new sizes.new }
{
    let fed = read_on(from, clock, input, have);
    let n = fed.have;
    let mut text = Text { out, at: 0 };
    let w = pass(
        g,
        marks,
        elapsed,
        sizes,
        &input[..n],
        fed.end.is_over(),
        &mut text,
    );
    let going = w.going;
    let used = w.used;
    move_down(input, used, n - used);
    Done {
        going: going,
        have: n - used,
        at: text.at,
        over: w.stops,
        end: fed.end,
    }
}

// What came of a run whose text is written: all of it, or its front where a read failed.
#[derive(Clone, Copy)]
enum Ran {
    Whole,
    Front,
}

// What came of the run with this turn, whose text was written or could not be.
fn ran_by(over: bool, told: io::Result<()>) -> io::Result<Ran>
    ensures whole { result ≡ Ok Whole → (over ≡ true) × IsOk told }
    ensures front { result ≡ Ok Front → (over ≡ false) × IsOk told }
    ensures unwritten { (error : Error) → result ≡ Err error → told ≡ Err error }
{
    told?;
    if over {
        return Ok(Ran::Whole);
    }
    Ok(Ran::Front)
}

// A failed read is told at once, before what was read so far is printed.
fn tell_cut(to: &impl Eprint, end: End) {
    if let End::Failed(error) = end {
        tell_read_failed(to, error);
    }
}

// Reads until the input ends or a read fails, and prints. Where the turns are used up, the rest of the input counts as not read.
fn run<R: Read, W: Write>(
    from: &mut R,
    to: &mut W,
    rt: &(impl Clock + Eprint),
    marks: &mut [u8],
    elapsed: &mut [u32],
    sizes: &mut [u16],
    input: &mut [u8],
    out: &mut [u8],
) -> io::Result<Ran>
    requires { (length marks.old ≡ 4096) × (length elapsed.old ≡ 4096) × (length sizes.old ≡ 4096) }
    ensures whole { result ≡ Ok Whole → TellsAll (R.remaining from.old) (W.contents to.old) (W.contents to.new) }
    ensures front { result ≡ Ok Front → TellsFront (R.remaining from.old) (W.contents to.old) (W.contents to.new) }
{
    clear(marks, elapsed, sizes);
    let mut going = Going {
        begun: None,
        place: 0,
        offset: 0,
    };
    let mut have: usize = 0;
    for _ in 0..u64::MAX {
        let t = turn(from, rt, going, marks, elapsed, sizes, input, have, out);
        tell_cut(rt, t.end);
        let ran = ran_by(t.over, to.write_all(&out[..t.at]))?;
        if t.over || matches!(t.end, End::Failed(_)) {
            return Ok(ran);
        }
        going = t.going;
        have = t.have;
    }
    Ok(Ran::Front)
}

// Kept: the check does not find the length of an array as long as this one where it is lent.
fn text_buffer() -> [u8; 524288]
    ensures { length result ≡ 524288 }
{
    [0; 524288]
}

fn print_accounts<R: Read, W: Write>(
    from: &mut R,
    to: &mut W,
    rt: &(impl Clock + Eprint),
) -> io::Result<Ran>
    ensures whole { result ≡ Ok Whole → TellsAll (R.remaining from.old) (W.contents to.old) (W.contents to.new) }
    ensures front { result ≡ Ok Front → TellsFront (R.remaining from.old) (W.contents to.old) (W.contents to.new) }
{
    run(
        from,
        to,
        rt,
        &mut [0; PLACES],
        &mut [0; PLACES],
        &mut [0; PLACES],
        &mut large_buffer(),
        &mut text_buffer(),
    )
}

// Whether the program was given an argument, behind its own name.
fn has_argument(env: &impl Env) -> bool {
    let mut text = [0u8; 64];
    !matches!(env.arg(1, &mut text), Err(FillError::NotPresent))
}

fn main(rt: HostRuntime) {
    if has_argument(&rt) {
        tell_usage(&rt);
        return;
    }
    if let Err(error) = print_accounts(&mut rt.stdin(), &mut rt.stdout(), &rt) {
        tell_write_failed(&rt, error);
    }
}
