// The printed account, item by item: what one item prints and leaves.
#![tactic(auto)]

ghost use Rattle.std.specs.Prelude.{◌≡◌, ◌+◌, ◌≤◌, true, length};
ghost use Rattle.lines.specs.Adding.{Adds};
ghost use Rattle.telling.specs.Account.{bad_line};
ghost use Rattle.printout.specs.Printed.{account_before, answer_text, key_step, frame_step, heard_in, most_text, step_of, used_by};
ghost use Rattle.printout.specs.Stepping.{between_in, Placed, Ready, Steps, StepsWith};

use hearing::contradicting::Span;
use hearing::following::{empty_span, hear_next};
use hearing::taking::{clear_heard, open_head, whole};
use items::{Item, Key, next_item};
use lines::Text;
use reception::Head;
use reception::record::Record;
use telling::{put_account, put_bad, put_refused};
use units::Refusal;

// The places of the record of a sequence.
pub const PLACES: usize = 4096;

// A sequence that was begun, beside the three lists of its record: the record's head, and the places in which packets were heard.
#[derive(Clone, Copy)]
pub struct Begun {
    pub head: Head,
    pub span: Span,
}

// What is there between two items: the sequence, if one was begun, and how many items and octets went before.
#[derive(Clone, Copy)]
pub struct Going {
    pub begun: Option<Begun>,
    pub place: u64,
    pub offset: u64,
}

// What is there after an item, how many octets it had, and whether the program stops.
#[derive(Clone, Copy)]
pub struct Went {
    pub going: Going,
    pub used: usize,
    pub stops: bool,
}

// The account of the record, where one was begun.
pub fn account_before(g: Going, marks: &[u8], elapsed: &[u32], sizes: &[u16], text: &mut Text)
    requires placed { Placed g marks.now elapsed.now sizes.now }
    requires most_text_in_bounds { text.old.at + most_text ≤ length text.old.out.now }
    ensures { Adds (account_before (between_in g marks.now elapsed.now sizes.now)) most_text text.old text.new }
{
    if let Some(b) = g.begun {
        let kept = Record {
            head: b.head,
            marks,
            elapsed,
            sizes,
        };
        put_account(text, &kept, b.span.end);
    }
}

// A key: prints the account before, and begins an empty record.
fn begin(
    g: Going,
    marks: &mut [u8],
    elapsed: &mut [u32],
    sizes: &mut [u16],
    k: Key,
    text: &mut Text,
) -> Went
    requires placed { Placed g marks.old elapsed.old sizes.old }
    requires stamp_bound { k.stamp ≤ 59999 }
    requires most_text_in_bounds { text.old.at + most_text ≤ length text.old.out.now }
    ensures { Steps (key_step (between_in g marks.old elapsed.old sizes.old) k) 14
        result marks.new elapsed.new sizes.new text.old text.new }
{
    account_before(g, marks, elapsed, sizes, text);
    let held = match g.begun {
        Some(b) => b.span,
        None => whole(marks.len()),
    };
    clear_heard(held, marks, elapsed, sizes);
    Went {
        going: Going {
            begun: Some(Begun {
                head: open_head(k.bearer, k.period, k.stamp),
                span: empty_span(marks.len()),
            }),
            place: g.place.wrapping_add(1),
            offset: g.offset.wrapping_add(14),
        },
        used: 14,
        stops: false,
    }
}

// Bad input: prints where it is, and stops.
fn bad(g: Going, text: &mut Text) -> Went
    requires { text.old.at + most_text ≤ length text.old.out.now }
    ensures { Adds (bad_line g.offset) 64 text.old text.new
        × (result.going ≡ g) × (result.stops ≡ true) × (result.used ≡ 0) }
{
    put_bad(text, g.offset);
    Went {
        going: g,
        used: 0,
        stops: true,
    }
}

// A refused frame is told with its place.
fn put_answer(text: &mut Text, place: u64, t: Result<(), Refusal>)
    requires { text.old.at + most_text ≤ length text.old.out.now }
    ensures { Adds (answer_text place t) 128 text.old text.new }
{
    if let Err(r) = t {
        put_refused(text, place, r);
    }
}

// A frame into the record that was begun.
fn hear_frame(
    g: Going,
    b: Begun,
    marks: &mut [u8],
    elapsed: &mut [u32],
    sizes: &mut [u16],
    body: &[u8],
    text: &mut Text,
) -> Went
    requires placed { Placed g marks.old elapsed.old sizes.old }
    requires most_text_in_bounds { (text.old.at + most_text ≤ length text.old.out.now) × (length body.now ≤ 8192) }
    requires begun { g.begun ≡ Some b }
    ensures { Steps
        (frame_step (between_in g marks.old elapsed.old sizes.old) (4 + length body.now)
        (heard_in (between_in g marks.old elapsed.old sizes.old) body.now))
        (4 + length body.now)
        result marks.new elapsed.new sizes.new text.old text.new }
{
    let size = 4 + body.len();
    let h = b.head;
    let t = hear_next(h, b.span, marks, elapsed, sizes, h.bearer, h.period, body);
    let head = t.head;
    let span = t.span;
    let answer = t.answer;
    let place = g.place.wrapping_add(1);
    put_answer(text, place, answer);
    Went {
        going: Going {
            begun: Some(Begun { head, span }),
            place,
            offset: g.offset.wrapping_add(size as u64),
        },
        used: size,
        stops: false,
    }
}

// The item in front of the input.
pub fn step(
    g: Going,
    marks: &mut [u8],
    elapsed: &mut [u32],
    sizes: &mut [u16],
    input: &[u8],
    text: &mut Text,
) -> Went
    requires placed { Placed g marks.old elapsed.old sizes.old }
    requires most_text_in_bounds { text.old.at + most_text ≤ length text.old.out.now }
    ensures steps { StepsWith Placed
        (step_of (between_in g marks.old elapsed.old sizes.old) input.now)
        (used_by (between_in g marks.old elapsed.old sizes.old) input.now)
        result marks.new elapsed.new sizes.new text.old text.new }
    ensures ready { Ready g marks.old elapsed.old sizes.old → Ready result.going marks.new elapsed.new sizes.new }
{
    match next_item(input) {
        Ok(Item::Begins(k)) => begin(g, marks, elapsed, sizes, k, text),
        Ok(Item::Frame(n)) => {
            let Some(b) = g.begun else {
                return bad(g, text);
            };
            let body = &input[4..4 + n];
            hear_frame(g, b, marks, elapsed, sizes, body, text)
        }
        Err(_) => bad(g, text),
    }
}
