// A record that is only read.
ghost use Rattle.reception.specs.Damage.{Matched};

use crate::Head;

// A record that is only read: its head, and what was heard of each packet number, in three lists that match.
#[derive(Clone, Copy)]
pub struct Record<'a> {
    pub head: Head,
    pub marks: &'a [u8],
    pub elapsed: &'a [u32],
    pub sizes: &'a [u16],
    pub ghost matched: { Matched marks.now elapsed.now sizes.now },
}
