// Text put into lent memory: words, numbers in decimal and the ends of lines, one behind the other.
// Callers have lent enough: what a number takes is never more than 21 octets.
#![tactic(auto)]

ghost use Rattle.std.specs.Prelude.{◌≡◌, [], ◌∷◌, ◌++◌, ◌+◌, ◌*◌, ◌≤◌, length};
ghost use Rattle.lines.specs.Text.{decimal, field, fields_of, line};

// Memory, and the place up to which text was put into it.
#[derive(Drop)]
pub struct Text<'a> {
    pub out: &'a mut [u8],
    pub at: usize,
    ghost inside: { at ≤ length out.now },
}

impl<'a> Text<'a> {
    ghost use Rattle.lines.specs.Adding.{room, Adds};

    // How many octets have room still.
    pub fn room(&self) -> usize
        ensures { result ≡ room self.now }
    {
        self.out.len() - self.at
    }

    // All of a word.
    pub fn put(&mut self, word: &[u8])
        requires { self.old.at + length word.now ≤ length self.old.out.now }
        ensures { Adds word.now (length word.now) self.old self.new }
    {
        let end = self.at + word.len();
        self.out[self.at..end].copy_from_slice(word);
        self.at = end;
    }

    // A space, and n in decimal.
    pub fn put_number(&mut self, n: u64)
        requires { self.old.at + 21 ≤ length self.old.out.now }
        ensures { Adds (field n) 21 self.old self.new }
    {
        let first = self.at + 1;
        let end = first + digits_of(n);
        self.out[self.at] = 32;
        put_digits(&mut self.out[first..end], n);
        self.at = end;
    }

    // The end of a line.
    pub fn put_end(&mut self)
        requires { self.old.at + 1 ≤ length self.old.out.now }
        ensures { Adds (10 ∷ []) 1 self.old self.new }
    {
        self.out[self.at] = 10;
        self.at += 1;
    }

    // A word and numbers behind it, and no line's end yet.
    pub fn put_fields(&mut self, word: &[u8], numbers: &[u64])
        requires { self.old.at + (length word.now + 21 * length numbers.now) ≤ length self.old.out.now }
        ensures { Adds (word.now ++ fields_of numbers.now) (length word.now + 21 * length numbers.now) self.old self.new }
    {
        self.put(word);
        for n in numbers {
            self.put_number(*n);
        }
    }

    // A line of a word and numbers.
    pub fn put_line(&mut self, word: &[u8], numbers: &[u64])
        requires { self.old.at + (length word.now + 21 * length numbers.now + 1) ≤ length self.old.out.now }
        ensures { Adds (line word.now numbers.now) (length word.now + 21 * length numbers.now + 1) self.old self.new }
    {
        self.put_fields(word, numbers);
        self.put_end();
    }
}

// How many decimal digits n has.
fn digits_of(n: u64) -> usize
    ensures { (result ≡ length (decimal n)) × (result ≤ 20) }
{
    1 + n.max(1).ilog10() as usize
}

// The decimal digits of n, which fill out, the last one first.
fn put_digits(out: &mut [u8], n: u64)
    requires { length out.old ≡ length (decimal n) }
    ensures { out.new ≡ decimal n }
{
    let mut rest = n;
    for i in (1..out.len()).rev() {
        out[i] = (48 + rest % 10) as u8;
        rest = rest / 10;
    }
    out[0] = (48 + rest) as u8;
}
