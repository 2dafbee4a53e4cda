// What a call by value and the same call in place gave, compared: the answer, every number of the state, and every octet.
use sender::{Called, Sender};
use std::{fmt, io};
use units::Refusal;

// What a call answered, with how many octets it wrote.
#[derive(Clone, Copy, Debug, PartialEq, Eq)]
struct Answer(Result<usize, Refusal>);

impl fmt::Display for Answer {
    fn fmt<W: fmt::Write>(&self, f: &mut fmt::Formatter<W>) -> fmt::Result {
        match self.0 {
            Err(r) => write!(f, "refused {}", r.in_one()),
            Ok(0) => write!(f, "done"),
            Ok(n) => write!(f, "{n} octets"),
        }
    }
}

// What a call gave: its answer, and the sender after it.
#[derive(Clone, Copy)]
pub struct Gave {
    answer: Answer,
    sender: Sender,
}

impl From<Called<()>> for Gave {
    fn from(c: Called<()>) -> Gave {
        Gave {
            answer: Answer(c.answer.map(|()| 0)),
            sender: c.sender,
        }
    }
}

impl From<Called<usize>> for Gave {
    fn from(c: Called<usize>) -> Gave {
        Gave {
            answer: Answer(c.answer),
            sender: c.sender,
        }
    }
}

fn alike<T: PartialEq>(a: &T, b: &T) -> &'static str {
    if a == b { "alike" } else { "NOT alike" }
}

// The two senders, each advanced in its own way, and where the comparison is printed.
#[derive(Clone, Copy)]
pub struct Both<'a, P> {
    to: &'a P,
    pub by_value: Sender,
    pub in_place: Sender,
}

impl<'a, P: Print> Both<'a, P> {
    pub fn new(to: &'a P, sender: Sender) -> Self {
        Both {
            to,
            by_value: sender,
            in_place: sender,
        }
    }

    // Prints the answer by value, and whether the call in place gave the same. The memories are compared as a whole: what a call
    // leaves alone counts too.
    pub fn compare(
        &mut self,
        name: &str,
        first: Gave,
        second: Gave,
        a: &[u8],
        b: &[u8],
    ) -> io::Result<()> {
        self.by_value = first.sender;
        self.in_place = second.sender;
        let answers = alike(&first.answer, &second.answer);
        let senders = alike(&first.sender, &second.sender);
        let octets = alike(&a, &b);
        println!(self.to;
            "{name}: {}; answer {answers}, sender {senders}, octets {octets}",
            first.answer
        )
    }
}
