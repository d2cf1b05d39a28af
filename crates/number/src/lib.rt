// The numbers of a file, read and written, and the reasons for a refusal.

#![tactic(auto)]

ghost use Rattle.std.specs.Prelude.{◌≡◌, ◌++◌, ◌+◌, ◌<◌, ◌≤◌, length, take, drop};
ghost use Rattle.meaning.specs.Limits.{most_groups, number_end};
ghost use Rattle.meaning.specs.Number.{refusal as refusal_number, has_place, groups, number, bytes_read, numbers_on, number_bytes};
ghost use Rattle.meaning.specs.File.{inside, item, rising, kind_if, gapped as gapped_kind, kind_of, feature_of};
ghost use Rattle.number.specs.Answers.{reason_of, number_of};

// Why a call refuses.
#[derive(Clone, Copy)]
pub enum Reason {
    Ends,
    Padded,
    Endless,
    Limit,
    Range,
    Unordered,
    LeftOver,
    Outgrown,
    Held,
    Unclosed,
    Small,
    Malformed,
    Gaps,
    Unequal,
}

// Why what was read is at fault, and where: the place of the first byte of the number at fault.
#[derive(Clone, Copy)]
pub struct Fault(pub Reason, pub usize);

impl From<Fault> for Reason {
    ghost from_gives = { λ fault reason. reason ≡ fault.0 };

    // Why what was read is at fault, for a refusal that names no place.
    fn from(fault: Fault) -> Reason {
        fault.0
    }
}

// A number that was read: its value, and the place after it.
#[derive(Clone, Copy)]
pub struct Number {
    pub value: usize,
    pub next: usize,
}

// How many values a group has, and the least byte that says that one group follows.
const GROUP: usize = 128;

// How many groups a number has at most.
const MOST_GROUPS: usize = 3;

// The first number that these groups cannot hold: "to 2,097,151".
pub const NUMBER_END: usize = GROUP * GROUP * GROUP;

impl From<Reason> for u64 {
    ghost from_gives = { λ reason n. n ≡ refusal_number (reason_of reason) };

    // The paper's number for a reason.
    fn from(reason: Reason) -> u64 {
        match reason {
            Reason::Ends => 1,
            Reason::Padded => 12,
            Reason::Endless => 13,
            Reason::Limit | Reason::Outgrown => 2,
            Reason::Range => 3,
            Reason::Unordered => 4,
            Reason::LeftOver => 5,
            Reason::Held => 6,
            Reason::Unclosed => 7,
            Reason::Small => 8,
            Reason::Malformed => 9,
            Reason::Gaps => 10,
            Reason::Unequal => 11,
        }
    }
}

impl Reason {
    // Whether a fault for this reason has a place in a file.
    pub fn has_place(self) -> bool
        ensures { result ≡ has_place (reason_of self) }
    {
        matches!(
            self,
            Reason::Ends
                | Reason::Padded
                | Reason::Endless
                | Reason::Limit
                | Reason::Range
                | Reason::Unordered
        )
    }
}

// At most so many groups from a place on, of the number that begins at `first`.
fn groups_at(most: usize, first: usize, bytes: &[u8], place: usize) -> Result<Number, Fault>
    requires { most ≤ most_groups }
    ensures { number_of result ≡ groups most first bytes.now place }
{
    if most == 0 {
        return Err(Fault(Reason::Endless, first));
    }
    if bytes.len() <= place {
        return Err(Fault(Reason::Ends, first));
    }
    let byte = bytes[place] as usize;
    if byte < GROUP {
        return Ok(Number {
            value: byte,
            next: place + 1,
        });
    }
    let high = groups_at(most - 1, first, bytes, place + 1)?;
    if high.value == 0 {
        return Err(Fault(Reason::Padded, first));
    }
    Ok(Number {
        value: byte % GROUP + GROUP * high.value,
        next: high.next,
    })
}

// The number at a place.
pub fn number_at(bytes: &[u8], at: usize) -> Result<Number, Fault>
    ensures { number_of result ≡ number bytes.now at }
{
    groups_at(MOST_GROUPS, at, bytes, at)
}

// A number that has to be `low` or more and below `high`; the reason is for one that is not.
pub fn item_at(
    bytes: &[u8],
    at: usize,
    low: usize,
    high: usize,
    reason: Reason,
) -> Result<Number, Fault>
    ensures { number_of result ≡ item (inside low high) (reason_of reason) bytes.now at }
{
    let number = number_at(bytes, at)?;
    if number.value < low {
        return Err(Fault(reason, at));
    }
    if high <= number.value {
        return Err(Fault(reason, at));
    }
    Ok(number)
}

// A number in its range that has to be `least` or more: range before order.
pub fn rising_at(
    bytes: &[u8],
    at: usize,
    low: usize,
    high: usize,
    least: usize,
) -> Result<Number, Fault>
    ensures { number_of result ≡ rising low high least bytes.now at }
{
    let number = item_at(bytes, at, low, high, Reason::Range)?;
    if number.value < least {
        return Err(Fault(Reason::Unordered, at));
    }
    Ok(number)
}

// The next feature of a list of gaps: the number says how far it is above `least`.
fn gap_at(bytes: &[u8], at: usize, low: usize, high: usize, least: usize) -> Result<Number, Fault>
    ensures { number_of result ≡ feature_of gapped_kind low high least bytes.now at }
{
    let gap = number_at(bytes, at)?;
    if high <= least {
        return Err(Fault(Reason::Range, at));
    }
    if high - least <= gap.value {
        return Err(Fault(Reason::Range, at));
    }
    let feature = least + gap.value;
    if feature < low {
        return Err(Fault(Reason::Range, at));
    }
    Ok(Number {
        value: feature,
        next: gap.next,
    })
}

// The next feature of a list, in a file of either kind.
pub fn feature_at(
    bytes: &[u8],
    at: usize,
    gapped: bool,
    low: usize,
    high: usize,
    least: usize,
) -> Result<Number, Fault>
    ensures { number_of result ≡ feature_of (kind_if gapped) low high least bytes.now at }
{
    if gapped {
        return gap_at(bytes, at, low, high, least);
    }
    rising_at(bytes, at, low, high, least)
}

// Whether a task file is of the new kind, by its first number.
pub fn is_gapped(bytes: &[u8]) -> bool
    ensures { kind_if result ≡ kind_of bytes.now 0 }
{
    match number_at(bytes, 0) {
        Ok(number) => number.value == 0,
        Err(_) => false,
    }
}

// How many bytes are read of the number at a place.
pub fn bytes_read(bytes: &[u8], at: usize) -> usize
    ensures { result ≡ bytes_read bytes.now at }
{
    for i in 0..MOST_GROUPS {
        if bytes.len() <= at + i {
            return i;
        }
        if (bytes[at + i] as usize) < GROUP {
            return i + 1;
        }
    }
    MOST_GROUPS
}

// The place of the number that stands so many numbers behind the one at a place.
pub fn numbers_on(bytes: &[u8], at: usize, count: usize) -> usize
    ensures { result ≡ numbers_on count bytes.now at }
{
    let mut place = at;
    for _ in 0..count {
        match number_at(bytes, place) {
            Ok(number) => {
                place = number.next;
            }
            Err(_) => {
                return place;
            }
        }
    }
    place
}

// How many bytes a number has in a file.
pub fn width(n: usize) -> usize
    requires { n < number_end }
    ensures { result ≡ length (number_bytes n) }
{
    let mut left = n;
    let mut count: usize = 1;
    while GROUP <= left {
        left = left / GROUP;
        count += 1;
    }
    count
}

// Writes a number from a place on, low group first, and answers the place after it.
pub fn write_number(room: &mut [u8], at: usize, n: usize) -> usize
    requires { (n < number_end) × (at + length (number_bytes n) ≤ length room.old) }
    ensures after { result ≡ at + length (number_bytes n) }
    ensures written { room.new ≡ take at room.old ++ (number_bytes n ++ drop result room.old) }
{
    let mut left = n;
    let mut next = at;
    while GROUP <= left {
        room[next] = (GROUP + left % GROUP) as u8;
        left = left / GROUP;
        next += 1;
    }
    room[next] = left as u8;
    next + 1
}
