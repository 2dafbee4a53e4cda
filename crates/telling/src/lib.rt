// The text of an account, put into lent memory line by line.
#![tactic(auto)]

mod figures;
mod gaps;

ghost use Rattle.std.specs.Prelude.{◌≡◌, false, ◌+◌, ◌≤◌, length};
ghost use Rattle.lines.specs.Adding.{Adds};
ghost use Rattle.reception.specs.Lent.{kept};
ghost use Rattle.reception.specs.Neighbours.{NoneFrom};
ghost use Rattle.reception.specs.Hearing.{damaged_kept};
ghost use Rattle.telling.specs.Account.{account_text, refused_line, bad_line, most_account};

use figures::{put_close, put_figures, put_sequence};
use gaps::put_gaps;
use lines::Text;
use reception::record::Record;
use reporting::counting::count;
use units::Refusal;

// The most octets of a number: a space, and 20 digits.
const NUMBER: usize = 1 + 20;

// The most octets of each kind of line in an account: words, numbers, and the line's end.
pub const SEQUENCE_LINE: usize = 8 + 3 * NUMBER + 7 + 1;

pub const FIGURE_LINES: usize = (4 + 2 * NUMBER + 1) + (5 + 2 * NUMBER + 1) + (7 + 2 * NUMBER + 1);

pub const GAP_LINE: usize = 3 + 3 * NUMBER + 1;

pub const END_LINE: usize = 3 + 1;

// The account of an undamaged record in which nothing was heard from the place last on: its sequence, its figures, its gaps, and the
// end.
pub fn put_account(text: &mut Text, r: &Record, last: usize)
    requires none_from { NoneFrom r.now.marks.now last }
    requires undamaged { damaged_kept (kept r.now) ≡ false }
    requires in_bounds { text.old.at + most_account (length r.now.marks.now) ≤ length text.old.out.now }
    ensures { Adds (account_text (kept r.now)) (most_account (length r.now.marks.now)) text.old text.new }
{
    let figures = count(r, last);
    put_sequence(text, r.head);
    put_figures(text, figures);
    put_gaps(text, r, figures.sent.0 as usize);
    put_close(text);
}

// The line of a refused frame: its place among all items, from 1, the refusal's number, and both checks where it tells of one.
pub fn put_refused(text: &mut Text, place: u64, r: Refusal)
    requires { text.old.at + 128 ≤ length text.old.out.now }
    ensures { Adds (refused_line place r) 128 text.old text.new }
{
    let number = u64::from(r.number());
    match r.checks() {
        Some(c) => {
            let found = u64::from(c.found);
            let worked_out = u64::from(c.worked_out);
            text.put_line(b"refused", &[place, number, found, worked_out]);
        }
        None => text.put_line(b"refused", &[place, number]),
    }
}

// The line of an item that is none, which begins at this offset.
pub fn put_bad(text: &mut Text, offset: u64)
    requires { text.old.at + 64 ≤ length text.old.out.now }
    ensures { Adds (bad_line offset) 64 text.old text.new }
{
    text.put_line(b"bad input", &[offset]);
}
