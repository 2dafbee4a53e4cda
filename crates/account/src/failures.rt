// What is told on standard error: the call that failed, the system's reason, and what to do.
use std::io::Write;
use std::{fmt, io};

// The system's words for an error: std puts its number behind them, which is left out here.
#[derive(Clone, Copy)]
struct Reason(io::Error);

impl fmt::Display for Reason {
    fn fmt<W: fmt::Write>(&self, f: &mut fmt::Formatter<W>) -> fmt::Result {
        let error = self.0;
        let mut memory = [0u8; 256];
        let mut rest = &mut memory[..];
        let _ = write!(rest, "{error}");
        let size = 256usize.saturating_sub(rest.len());
        let text = std::str::from_utf8(&memory[..size]).unwrap_or("");
        match text.split_once(" (os error ") {
            Some((words, _)) => f.write_str(words),
            None => f.write_str(text),
        }
    }
}

// The reads may also have run out with no error of the system's.
pub fn tell_read_failed(to: &impl Eprint, error: Option<io::Error>) {
    let _ = match error {
        Some(error) => eprintln!(to; "account: standard input cannot be read: {}", Reason(error)),
        None => eprintln!(to; "account: standard input cannot be read"),
    };
    let _ = eprintln!(to;
        "account: the input is cut off, so its last accounts may be missing; run again with all of it"
    );
}

pub fn tell_write_failed(to: &impl Eprint, error: io::Error) {
    let _ = eprintln!(to;
        "account: standard output cannot be written: {}",
        Reason(error)
    );
    let _ = eprintln!(to;
        "account: the rest is not printed; run again with all of the input where its text has room"
    );
}

pub fn tell_usage(to: &impl Eprint) {
    let _ = eprintln!(to; "usage: account < ITEMS > ACCOUNTS");
    let _ = eprintln!(to;
        "It takes no argument: it reads items from standard input and prints accounts on standard output."
    );
}
