// Mends a task's list of pairs: the file with the largest good sublist, the pairs that are dropped for it, and the pair behind a refusal 6 or 7.

#![tactic(auto)]

ghost use Rattle.std.specs.Prelude.{◌≡◌, ◌≤◌, length, Ok};
ghost use Rattle.meaning.specs.Limits.{fault_words};
ghost use Rattle.meaning.specs.Workspace.{words_for};
ghost use Rattle.meaning.specs.Mend.{Mends, Drops, FaultsPairs};
ghost use Rattle.writer.specs.Answer.{outcome_of};
ghost use Rattle.mending.specs.Answer.{ReadBy, KeptIn, Answers, fault_of};

use keeping::Fault;
use limits::{FAULT_WORDS, HEADER_WORDS, MOST_WORDS};
use number::Reason;
use reader::Header;

// The list is good, the start holds a listed pair, or the list is not closed under an operator.
#[derive(Clone, Copy)]
pub enum PairFault {
    Good,
    Held,
    Unclosed,
}

// Puts the pairs that are kept of a task that was read into words.
fn fill_kept(task: &[u8], words: &[u64], header: Header, kept: &mut [u64])
    requires { ReadBy task.now words.now header × (length kept.old ≡ words_for header.features) }
    ensures { KeptIn task.now kept.new }
{
    let v = header.variables;
    let n = header.features;
    words::copy(kept, layout::pairs(words, v, n));
    keeping::keep_largest(
        task,
        header.next,
        header.operators,
        layout::sizes(words, v),
        layout::start(words, v, n),
        kept,
    );
}

// Writes the mended task of a file that was read, by its header in words and its counts, as a file of the kind that came. The pairs that are kept go to the lent words.
fn mend_in(
    task: &[u8],
    words: &[u64],
    header: Header,
    kept: &mut [u64],
    room: &mut [u8],
) -> Result<usize, Reason>
    requires { ReadBy task.now words.now header × (length kept.old ≡ words_for header.features) }
    ensures { Mends task.now room.old (outcome_of result room.new) }
{
    let v = header.variables;
    let n = header.features;
    fill_kept(task, words, header, kept);
    writer::write_task(
        &task[header.next..],
        header.operators,
        number::is_gapped(task),
        layout::sizes(words, v),
        layout::start(words, v, n),
        layout::goal(words, v, n),
        kept,
        room,
    )
}

// Writes the pairs that are dropped of a file that was read, by its header in words and its counts: the listed ones without those that are kept, in the lent words.
fn drop_in(
    task: &[u8],
    words: &[u64],
    header: Header,
    pairs: &mut [u64],
    room: &mut [u8],
) -> Result<usize, Reason>
    requires { ReadBy task.now words.now header × (length pairs.old ≡ words_for header.features) }
    ensures { Drops task.now room.old (outcome_of result room.new) }
{
    fill_kept(task, words, header, pairs);
    words::add(
        pairs,
        layout::pairs(words, header.variables, header.features),
    );
    writer::weight_file(pairs, room)
}

// Reads a task up to 5 and writes what is asked for: what is dropped of its pairs, or the mended file. It is told by a flag: of a closure it would have to be asked what it leaves
// in the words and the room that it is lent, which is no plainer.
fn answer(task: &[u8], dropping: bool, room: &mut [u8]) -> Result<usize, Reason>
    ensures { Answers dropping task.now room.old (outcome_of result room.new) }
{
    let mut words = [0u64; HEADER_WORDS];
    let header = task::read(task, &mut words)?;
    let mut pairs = [0u64; MOST_WORDS];
    let pairs = &mut pairs[..layout::words_for(header.features)];
    if dropping {
        return drop_in(task, &words, header, pairs, room);
    }
    mend_in(task, &words, header, pairs, room)
}

// Writes the task file that keeps of a task's listed pairs the largest good sublist.
pub fn mend(task: &[u8], room: &mut [u8]) -> Result<usize, Reason>
    ensures { Mends task.now room.old (outcome_of result room.new) }
{
    answer(task, false, room)
}

// Writes the listed pairs that are dropped for it, increasing, with their count.
pub fn dropped(task: &[u8], room: &mut [u8]) -> Result<usize, Reason>
    ensures { Drops task.now room.old (outcome_of result room.new) }
{
    answer(task, true, room)
}

// Tells the fault of a list that was read, by its header in words and its counts; the room has a word for the pair and one for the operator.
fn tell_fault(task: &[u8], words: &[u64], header: Header, room: &mut [u64]) -> PairFault
    requires { ReadBy task.now words.now header × (fault_words ≤ length room.old) }
    ensures { FaultsPairs task.now room.old (record { answer = fault_of (Ok result); lent = room.new }) }
{
    let v = header.variables;
    let n = header.features;
    match keeping::first_fault(
        task,
        header.next,
        header.operators,
        layout::sizes(words, v),
        layout::start(words, v, n),
        layout::pairs(words, v, n),
    ) {
        None => PairFault::Good,
        Some(Fault::Held(pair)) => {
            room[0] = pair as u64;
            PairFault::Held
        }
        Some(Fault::Unclosed(pair, operator)) => {
            room[0] = pair as u64;
            room[1] = operator as u64;
            PairFault::Unclosed
        }
    }
}

// Says whether a task's list of pairs is good, and otherwise which pair is behind the refusal, and which operator. The file is judged up to 5, then the room.
pub fn pair_fault(task: &[u8], room: &mut [u64]) -> Result<PairFault, Reason>
    ensures { FaultsPairs task.now room.old (record { answer = fault_of result; lent = room.new }) }
{
    let mut words = [0u64; HEADER_WORDS];
    let header = task::read(task, &mut words)?;
    if room.len() < FAULT_WORDS {
        return Err(Reason::Small);
    }
    Ok(tell_fault(task, &words, header, room))
}
