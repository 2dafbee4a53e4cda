// What the account program reads: the item in front of a row of octets, one that begins a sequence or a frame.
#![tactic(auto)]

ghost use Rattle.std.specs.Prelude.{◌≡◌, ◌≤◌, length};
ghost use Rattle.items.specs.Items.{body_length, kind, item_of};

use fields::little::{four, two};
use units::limits::LAST_STAMP;

// The longest body of a frame.
const MOST_BODY: u32 = 8192;

// The longest item: its length and its kind, and the longest body.
pub const LONGEST_ITEM: usize = 4 + MOST_BODY as usize;

// Whose octets a sequence counts, and when it began.
#[derive(Clone, Copy)]
pub struct Key {
    pub bearer: u32,
    pub period: u32,
    pub stamp: u32,
}

#[derive(Clone, Copy)]
pub enum Item {
    // An item that begins a sequence.
    Begins(Key),
    // A frame, with the length of its body.
    Frame(usize),
}

// Why no item stands in front.
#[derive(Clone, Copy)]
pub enum NoItem {
    // No more octets can mend it.
    Wrong,
    // Its octets are not all there.
    Cut,
}

// An item of kind 1 whose body has n octets.
fn read_key(s: &[u8], n: u32) -> Result<Item, NoItem>
    requires { (4 ≤ length s.now) × (kind s.now ≡ 1) × (n ≡ body_length s.now) }
    ensures { result ≡ item_of s.now }
{
    if n != 10 {
        return Err(NoItem::Wrong);
    }
    if s.len() < 14 {
        return Err(NoItem::Cut);
    }
    let stamp = two(s, 12);
    if LAST_STAMP < stamp as u64 {
        return Err(NoItem::Wrong);
    }
    Ok(Item::Begins(Key {
        bearer: four(s, 4),
        period: four(s, 8),
        stamp,
    }))
}

// An item of kind 2 whose body has n octets.
fn read_frame(s: &[u8], n: u32) -> Result<Item, NoItem>
    requires { (4 ≤ length s.now) × (kind s.now ≡ 2) × (n ≡ body_length s.now) }
    ensures { result ≡ item_of s.now }
{
    if MOST_BODY < n {
        return Err(NoItem::Wrong);
    }
    let body = n as usize;
    if s.len() < 4 + body {
        return Err(NoItem::Cut);
    }
    Ok(Item::Frame(body))
}

// The item in front of the input.
pub fn next_item(input: &[u8]) -> Result<Item, NoItem>
    ensures { result ≡ item_of input.now }
{
    if input.len() < 4 {
        return Err(NoItem::Cut);
    }
    let n = two(input, 0);
    let kind = two(input, 2);
    match kind {
        1 => read_key(input, n),
        2 => read_frame(input, n),
        _ => Err(NoItem::Wrong),
    }
}
