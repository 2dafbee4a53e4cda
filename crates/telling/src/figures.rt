// The lines of an account beside its gaps: the sequence, what was sent, heard and missing, and the end.
ghost use Rattle.std.specs.Prelude.{cond, [], ◌+◌, ◌≤◌, length};
ghost use Rattle.lines.specs.Text.{line};
ghost use Rattle.lines.specs.Adding.{Adds};
ghost use Rattle.telling.specs.Account.{closed_word, open_word, end_word, sequence_line};
ghost use Rattle.telling.specs.Parts.{figures_of};

use lines::Text;
use reception::{Head, Report};

// Whether a sequence is closed or open.
fn put_state(text: &mut Text, closed: bool)
    requires { text.old.at + 7 ≤ length text.old.out.now }
    ensures { Adds (cond closed closed_word open_word) 7 text.old text.new }
{
    if closed {
        text.put(b" closed");
    } else {
        text.put(b" open");
    }
}

// The line of the sequence.
pub fn put_sequence(text: &mut Text, h: Head)
    requires { text.old.at + 79 ≤ length text.old.out.now }
    ensures { Adds (sequence_line h) 79 text.old text.new }
{
    text.put_fields(
        b"sequence",
        &[u64::from(h.bearer), u64::from(h.period), u64::from(h.stamp)],
    );
    put_state(text, h.closed);
    text.put_end();
}

// The lines of what was sent, heard and missing: packets, octets.
pub fn put_figures(text: &mut Text, r: Report)
    requires { text.old.at + 145 ≤ length text.old.out.now }
    ensures { Adds (figures_of r) 145 text.old text.new }
{
    text.put_line(b"sent", &[u64::from(r.sent.0), r.sent_octets.0]);
    text.put_line(b"heard", &[u64::from(r.heard.0), r.heard_octets.0]);
    text.put_line(b"missing", &[u64::from(r.missing.0), r.missing_octets.0]);
}

// The line that closes an account.
pub fn put_close(text: &mut Text)
    requires { text.old.at + 4 ≤ length text.old.out.now }
    ensures { Adds (line end_word []) 4 text.old text.new }
{
    text.put_line(b"end", &[]);
}
