// A slot area: n slots of as many words as are due for n features. Rows are reduced by the slots and inserted, weights are found, the shape is tested.

#![tactic(auto)]

ghost use Rattle.std.specs.Prelude.{◌≡◌, ◌&&◌, false, cond, ℕ, ◌+◌, ◌*◌, ◌≤◌, ◌<◌, eqb, ltb, length, replicate};
ghost use Rattle.meaning.specs.Limits.{word_bits, most_features};
ghost use Rattle.meaning.specs.Slot.{Reduced};
ghost use Rattle.meaning.specs.Sets.{◌⊕◌};
ghost use Rattle.meaning.specs.Workspace.{has, packed, words_for};
ghost use Rattle.theory.specs.Contents.{slot_words};
ghost use Rattle.theory.specs.Tells.{Tells};
ghost use Rattle.theory.specs.Slots.{lead};
ghost use Rattle.theory.specs.Reduce.{red};
ghost use Rattle.theory.specs.Insert.{insert};
ghost use Rattle.theory.specs.Postponed.{added};
ghost use Rattle.words.specs.Change.{summed, toggled};
ghost use Rattle.slots.specs.Change.{Led, cleared, marked};
ghost use Rattle.slots.specs.Area.{slot_at, slot_put, slots_in, LedArea};
ghost use Rattle.slots.specs.Waiting.{Indexes, Waiting, settled_in};
ghost use Rattle.slots.specs.Inserting.{slot_cleared, slot_after};
ghost use Rattle.slots.specs.Settling.{settled_slot};
ghost use Rattle.slots.specs.Find.{found, Collected};
ghost use Rattle.slots.specs.Shape.{Apart, Shaped, AllShaped};

use limits::MOST_WORDS;

// Slot i, where slots are w words long.
fn slot_of(area: &[u64], w: usize, i: usize) -> &[u64]
    requires { i * w + w ≤ length area.now }
    ensures { (result.now ≡ slot_at w area.now i) × (length result.now ≡ w) }
{
    let base = i * w;
    &area[base..base + w]
}

// Makes slot i the same as a row.
fn write_slot(area: &mut [u64], i: usize, row: &[u64])
    requires { i * length row.now + length row.now ≤ length area.old }
    ensures { area.new ≡ slot_put (length row.now) area.old i row.now }
{
    let w = row.len();
    let base = i * w;
    words::copy(&mut area[base..base + w], row);
}

// Adds a set to another. Its least member is p, if it has any, so the words before that of p stay.
fn add_from(sum: &mut [u64], set: &[u64], p: usize)
    requires { (length sum.old ≡ length set.now) × (p < word_bits * length set.now) × Led p (has set.now) }
    ensures { sum.new ≡ summed sum.old set.now }
{
    let k = p / words::WORD_BITS;
    words::add(&mut sum[k..], &set[k..]);
}

// Adds slot p to a row, where it is not empty.
fn add_slot(area: &[u64], n: usize, p: usize, row: &mut [u64])
    requires { LedArea n area.now × (p < n) × (length row.old ≡ words_for n) }
    ensures { row.new ≡ summed row.old (slot_at (words_for n) area.now p) }
{
    let slot = slot_of(area, row.len(), p);
    if words::has(slot, p) {
        add_from(row, slot, p);
    }
}

// Adds to a row each slot whose index two sets share, from `start` on; below that the first has no member.
fn add_slots(area: &[u64], n: usize, own: &[u64], chosen: &[u64], start: usize, row: &mut [u64])
    requires { LedArea n area.now × (length own.now ≡ words_for n) × (length chosen.now ≡ words_for n) × (length row.old ≡ words_for n)
        × (start ≤ n) × ((f : ℕ) → f < start → has own.now f ≡ false) }
    ensures { (f : ℕ) → has row.new f ≡ added (slots_in n area.now) (λ i. has own.now i && has chosen.now i) n (has row.old) f }
{
    // A walk and no count: an iterator over the members would be this same walk behind a type of its own.
    let mut p = words::next_shared(own, chosen, start);
    while p < n {
        add_slot(area, n, p, row);
        p = words::next_shared(own, chosen, p + 1);
    }
}

// Adds to a row each slot whose index it has. A slot brings in no other slot's index, so the row can be walked while it changes.
pub fn reduce(area: &[u64], n: usize, row: &mut [u64])
    requires { Reduced n (slots_in n area.now) × (length area.now ≡ n * words_for n) × (length row.old ≡ words_for n) × (n ≤ most_features)
        × ((f : ℕ) → n ≤ f → has row.old f ≡ false) }
    ensures { row.new ≡ packed n (red (slots_in n area.now) n (has row.old)) }
{
    // A walk and no count: the row changes under it, so no iterator can hold it.
    let mut p = words::next_member(row, 0);
    while p < n {
        add_slot(area, n, p, row);
        p = words::next_member(row, p + 1);
    }
}

// Adds to a row each slot whose index it has by then, where a set has the indices of the slots that are not empty. A settled slot may bring in the index of a pending one above it.
fn reduce_upward(area: &[u64], n: usize, full: &[u64], row: &mut [u64])
    requires { LedArea n area.now × Indexes (slots_in n area.now) full.now × (length full.now ≡ words_for n) × (length row.old ≡ words_for n) }
    ensures { (f : ℕ) → has row.new f ≡ red (slots_in n area.now) n (has row.old) f }
{
    // A walk and no count: the row changes under it, so no iterator can hold it.
    let mut p = words::next_shared(row, full, 0);
    while p < n {
        add_slot(area, n, p, row);
        p = words::next_shared(row, full, p + 1);
    }
}

// Adds a row to a slot that has the row's least member p.
fn clear_index(slot: &mut [u64], p: usize, row: &[u64])
    requires { (length slot.old ≡ length row.now) × (p < word_bits * length row.now) × Led p (has row.now) }
    ensures { slot.new ≡ cleared p row.now slot.old }
{
    if words::has(slot, p) {
        add_from(slot, row, p);
    }
}

// Takes a row's least member p out of the pending slots below p; no other pending slot can have it.
fn clear_pending(area: &mut [u64], p: usize, pending: &[u64], row: &[u64])
    requires { (p * length row.now ≤ length area.old) × (p < word_bits * length row.now) × Led p (has row.now) × (length pending.now ≡ length row.now) × (length row.now ≤ most_features) }
    ensures { (i : ℕ) → slot_at (length row.now) area.new i ≡ slot_cleared (has pending.now) p row.now area.old p i }
{
    let w = row.len();
    // A walk and no count: an iterator over the members would be this same walk behind a type of its own.
    let mut i = words::next_member(pending, 0);
    while i < p {
        let base = i * w;
        clear_index(&mut area[base..base + w], p, row);
        i = words::next_member(pending, i + 1);
    }
}

// A reduced row becomes the slot of its least member p, which is pending.
fn put(area: &mut [u64], p: usize, full: &mut [u64], pending: &mut [u64], row: &[u64])
    requires { (p * length row.now + length row.now ≤ length area.old) × (p < word_bits * length row.now) × Led p (has row.now) × (length full.old ≡ length row.now)
        × (length pending.old ≡ length row.now) × (length row.now ≤ most_features) }
    ensures slots { (i : ℕ) → slot_at (length row.now) area.new i ≡ slot_after (has pending.old) p row.now area.old i }
    ensures full { full.new ≡ toggled full.old p }
    ensures pending { pending.new ≡ toggled pending.old p }
{
    clear_pending(area, p, pending, row);
    write_slot(area, p, row);
    words::toggle(full, p);
    words::toggle(pending, p);
}

// Inserts a row: what is left of it, if anything, becomes the slot of its least member, which is pending. The row is spent.
pub fn insert(area: &mut [u64], n: usize, full: &mut [u64], pending: &mut [u64], row: &mut [u64])
    requires { Waiting n full.old pending.old area.old × (length row.old ≡ words_for n) × ((f : ℕ) → n ≤ f → has row.old f ≡ false) }
    ensures waiting { Waiting n full.new pending.new area.new }
    ensures row { settled_in n pending.new area.new ≡ insert n (settled_in n pending.old area.old) (has row.old) }
{
    reduce_upward(area, n, full, row);
    let p = words::next_member(row, 0);
    if p < n {
        put(area, p, full, pending, row);
    }
}

// Settles slot i with room for a row: the pending slots whose indices it has are added. A pending slot and an empty one stay.
fn settle_slot(area: &mut [u64], n: usize, full: &[u64], pending: &[u64], i: usize, row: &mut [u64])
    requires { LedArea n area.old × Indexes (slots_in n area.old) full.now × (length full.now ≡ words_for n) × (length pending.now ≡ words_for n)
        × (length row.old ≡ words_for n) × (i < n) }
    ensures { (j f : ℕ) → j < n → has (slot_at (words_for n) area.new j) f
        ≡ cond (eqb j i) (settled_slot n (has pending.now) (slots_in n area.old) i f) (slots_in n area.old j f) }
{
    if words::has(pending, i) {
        return;
    }
    if !words::has(full, i) {
        return;
    }
    let slot = slot_of(area, row.len(), i);
    if n <= words::next_shared(slot, pending, i) {
        return;
    }
    words::copy(row, slot);
    add_slots(area, n, slot, pending, i, row);
    write_slot(area, i, row);
}

// Settles every slot, with room for a row.
fn settle_slots(area: &mut [u64], n: usize, full: &[u64], pending: &[u64], row: &mut [u64])
    requires { Waiting n full.now pending.now area.old × (length row.old ≡ words_for n) }
    ensures { area.new ≡ slot_words n (settled_in n pending.now area.old) }
{
    for i in 0..n {
        settle_slot(area, n, full, pending, i, row);
    }
}

// Settles the slots, with room for a row; nothing is pending then. Where nothing was, no slot is looked at.
pub fn settle(area: &mut [u64], n: usize, full: &[u64], pending: &mut [u64], row: &mut [u64])
    requires { Waiting n full.now pending.old area.old × (length row.old ≡ words_for n) }
    ensures words { area.new ≡ slot_words n (settled_in n pending.old area.old) }
    ensures none { pending.new ≡ replicate (words_for n) 0 }
{
    if words::is_empty(pending) {
        return;
    }
    settle_slots(area, n, full, pending, row);
    words::clear(pending);
}

// Puts feature i in a set, or takes it out, where slot i has feature m.
fn mark(set: &mut [u64], area: &[u64], w: usize, i: usize, m: usize)
    requires { (i * w + w ≤ length area.now) × (m < word_bits * w) × (i < word_bits * length set.old) }
    ensures { set.new ≡ marked (has (slot_at w area.now i) m) set.old i }
{
    if words::has(slot_of(area, w, i), m) {
        words::toggle(set, i);
    }
}

// Marks each of the first `count` slots that has the feature which a closure gives for it.
fn mark_slots<F: Fn(usize) -> usize>(set: &mut [u64], area: &[u64], count: usize, feature: F)
    ghost of: { ℕ → ℕ }
    requires room { (count * length set.old ≤ length area.now) × (count ≤ word_bits * length set.old) }
    requires callable { (i : ℕ) → i < count → F.pre feature i }
    requires features { (i m : ℕ) → i < count → F.post feature i m → (m ≡ of i) × (m < word_bits * length set.old) }
    ensures { Collected (λ i. has (slot_at (length set.old) area.now i) (of i)) (has set.old) count set.new }
{
    let w = set.len();
    for i in 0..count {
        mark(set, area, w, i, feature(i));
    }
}

// The index m and each slot that has it; only the slots up to m can.
fn witness(area: &[u64], m: usize, set: &mut [u64])
    requires { (m * length set.old + length set.old ≤ length area.now) × (m < word_bits * length set.old) × (m < most_features) }
    ensures { (f : ℕ) → has set.new f ≡ (ltb f (m + 1) && has (slot_at (length set.old) area.now f) m) ⊕ eqb f m }
{
    words::clear(set);
    words::toggle(set, m);
    mark_slots(set, area, m + 1, |_| m);
}

// The least weights that meet every slot evenly and oddly a set, of which `left` is left: none where nothing is left.
pub fn find(area: &[u64], n: usize, left: &[u64], room: &mut [u64]) -> bool
    requires { Reduced n (slots_in n area.now) × (length area.now ≡ n * words_for n) × (length left.now ≡ words_for n) × (n ≤ most_features) × (words_for n ≤ length room.old) }
    ensures { (result ≡ ltb (lead n (has left.now)) n)
        × (room.new ≡ found n (slots_in n area.now) (has left.now) room.old) }
{
    let m = words::next_member(left, 0);
    if n <= m {
        return false;
    }
    let w = left.len();
    witness(area, m, &mut room[..w]);
    true
}

// The indices of the slots that are not empty, as far as a slot's own bit says so.
pub fn indices(area: &[u64], n: usize, full: &mut [u64])
    requires { (length area.now ≡ n * length full.old) × (n ≤ word_bits * length full.old) }
    ensures { (f : ℕ) → has full.new f ≡ (ltb f n && has (slot_at (length full.old) area.now f) f) }
{
    words::clear(full);
    mark_slots(full, area, n, |i| i);
}

// Whether two sets share no feature above i.
fn apart(a: &[u64], b: &[u64], i: usize) -> bool
    requires { (length a.now ≡ length b.now) × (i < word_bits * length a.now) }
    ensures { Tells result (Apart (has a.now) (has b.now) i) }
{
    let k = i / words::WORD_BITS;
    let mut common = ((a[k] & b[k]) >> (i % words::WORD_BITS)) >> 1;
    for j in k + 1..a.len() {
        common |= a[j] & b[j];
    }
    common == 0
}

// Whether slot i is empty, or has i as least member, no other slot's index and no bit at n or beyond.
fn is_shaped(slot: &[u64], n: usize, i: usize, full: &[u64]) -> bool
    requires { (length slot.now ≡ words_for n) × (length full.now ≡ words_for n) × (n ≤ most_features) × (i < n) }
    ensures { Tells result (Shaped n i (has full.now) (has slot.now)) }
{
    let bits = slot.len() * words::WORD_BITS;
    let least = words::next_member(slot, 0);
    if least == bits {
        return true;
    }
    if least != i {
        return false;
    }
    if words::next_member(slot, n) != bits {
        return false;
    }
    apart(slot, full, i)
}

// The same of slot i of an area.
fn is_slot_shaped(area: &[u64], n: usize, i: usize, full: &[u64]) -> bool
    requires { (length area.now ≡ n * words_for n) × (length full.now ≡ words_for n) × (n ≤ most_features) × (i < n) }
    ensures { Tells result (Shaped n i (has full.now) (has (slot_at (words_for n) area.now i))) }
{
    is_shaped(slot_of(area, full.len(), i), n, i, full)
}

// Each slot beside the indices of all.
fn all_shaped(area: &[u64], n: usize, full: &[u64]) -> bool
    requires { (length area.now ≡ n * words_for n) × (length full.now ≡ words_for n) × (n ≤ most_features) }
    ensures { Tells result (AllShaped n area.now full.now) }
{
    (0..n).all(|i| is_slot_shaped(area, n, i, full))
}

fn is_reduced_by(area: &[u64], n: usize, full: &mut [u64]) -> bool
    requires { (length area.now ≡ n * words_for n) × (length full.old ≡ words_for n) × (n ≤ most_features) }
    ensures { Tells result (Reduced n (slots_in n area.now)) }
{
    indices(area, n, full);
    all_shaped(area, n, full)
}

// Whether an area has the reduced shape, which includes that no slot has a bit at n or beyond.
pub fn is_reduced(area: &[u64], n: usize) -> bool
    requires { (length area.now ≡ n * words_for n) × (n ≤ most_features) }
    ensures { Tells result (Reduced n (slots_in n area.now)) }
{
    let w = layout::words_for(n);
    let mut full = [0u64; MOST_WORDS];
    is_reduced_by(area, n, &mut full[..w])
}
