// An operator as one record of its entries: read from a file, or judged where it is handed over.

#![tactic(auto)]

ghost use Rattle.std.specs.Prelude.{List, ℕ, ◌≡◌, [], ◌∷◌, suc, ◌<◌, ◌≤◌, length, take};
ghost use Rattle.meaning.specs.Limits.{most_variables};
ghost use Rattle.meaning.specs.Task.{names};
ghost use Rattle.meaning.specs.Number.{Range};
ghost use Rattle.meaning.specs.File.{inside, entries_of, operator_of};
ghost use Rattle.meaning.specs.Answer.{operator_in, fine, need, entries_judged};
ghost use Rattle.theory.specs.Walk.{entry_at};
ghost use Rattle.operator.specs.Entries.{entries_in, Named};
ghost use Rattle.operator.specs.Records.{blank_for, record_of, entry_read_of, operator_read_of, judgement_of};

use limits::MOST_ENTRIES;
use meaning::Entry;
use number::{Fault, Reason};
use std::marker::Model;
use std::slice::from_ref;

// The entries below the count, each a variable with its before and its after value; what stands behind them says nothing. Document 01 names this form: "a struct by value with arrays of
// variables, before and after values and a count".
#[derive(Drop)]
pub struct Operator {
    pub count: usize,
    pub variables: [usize; MOST_ENTRIES],
    pub befores: [usize; MOST_ENTRIES],
    pub afters: [usize; MOST_ENTRIES],
}

// An operator's entries, lent: the parts of a record's arrays, so that the record is not copied at each call.
#[derive(Drop)]
pub struct Entries<'a> {
    variables: &'a [usize],
    befores: &'a [usize],
    afters: &'a [usize],
}

// An entry that was read, and the place after it.
#[derive(Clone, Copy)]
struct EntryRead {
    entry: Entry,
    next: usize,
}

// An operator that was read, and the place after it.
#[derive(Drop)]
pub struct OperatorRead {
    pub operator: Operator,
    pub next: usize,
}

// Clauses see the meaning's operator.
impl<'a> Model for Entries<'a> {
    ghost use Rattle.std.specs.Prelude.{◌≡◌, length};
    ghost use Rattle.meaning.specs.Task as meaning;
    ghost use Rattle.operator.specs.Entries.{entries_in, Named};

    ghost Value = { meaning.Operator };

    ghost view = { λ e. entries_in e.variables.now e.befores.now e.afters.now };

    ghost invariant = { λ e. (length e.befores.now ≡ length e.variables.now) × (length e.afters.now ≡ length e.variables.now) };
}

impl<'a> Entries<'a> {
    // The entries that stand in three slices.
    pub fn new(variables: &'a [usize], befores: &'a [usize], afters: &'a [usize]) -> Self
        requires { (length befores.now ≡ length variables.now) × (length afters.now ≡ length variables.now) }
        ensures { result ≡ entries_in variables.now befores.now afters.now }
    {
        Entries {
            variables,
            befores,
            afters,
        }
    }

    // An operator of one entry.
    pub fn one(entry: &'a Entry) -> Self
        ensures { result ≡ entry.now ∷ [] }
    {
        let variable = &entry.variable;
        let before = &entry.before;
        let after = &entry.after;
        Entries::new(from_ref(variable), from_ref(before), from_ref(after))
    }

    // The variables of the entries.
    pub fn variables(&self) -> &'a [usize]
        ensures { (befores : List ℕ) × (afters : List ℕ) × (self.now ≡ entries_in result.now befores afters) }
    {
        let Entries { variables, .. } = self;
        variables
    }

    // How many entries there are.
    pub fn len(&self) -> usize
        ensures { result ≡ length self.now }
    {
        self.variables.len()
    }

    // The entry at a place.
    pub fn at(&self, k: usize) -> Entry
        requires { k < length self.now }
        ensures { result ≡ entry_at self.now k }
    {
        let Entries {
            variables,
            befores,
            afters,
        } = self;
        Entry {
            variable: variables[k],
            before: befores[k],
            after: afters[k],
        }
    }

    // The first n entries.
    pub fn first(&self, n: usize) -> Entries<'a>
        requires { n ≤ length self.now }
        ensures { result ≡ take n self.now }
    {
        let Entries {
            variables,
            befores,
            afters,
        } = self;
        Entries {
            variables: &variables[..n],
            befores: &befores[..n],
            afters: &afters[..n],
        }
    }

    // The entry of a variable, the first if there were several.
    pub fn named(&self, u: usize) -> Option<Entry>
        ensures { Named self.now u result }
    {
        for k in 0..self.len() {
            let entry = self.at(k);
            if entry.variable == u {
                return Some(entry);
            }
        }
        None
    }

    // Whether there is an entry of a variable.
    pub fn names(&self, u: usize) -> bool
        ensures { result ≡ names self.now u }
    {
        self.named(u).is_some()
    }
}

impl Operator {
    // A record for so many entries, before they are read.
    fn blank(count: usize) -> Operator
        ensures { result ≡ blank_for count }
    {
        let none = [0usize; MOST_ENTRIES];
        Operator {
            count,
            variables: none,
            befores: none,
            afters: none,
        }
    }

    // The record's entries.
    pub fn entries(&self) -> Entries<'_>
        requires { self.now.count ≤ most_variables }
        ensures { result ≡ operator_in (record_of self.now) }
    {
        let count = self.count;
        Entries::new(
            &self.variables[..count],
            &self.befores[..count],
            &self.afters[..count],
        )
    }
}

// Reads one entry, whose variable is `least` or more.
fn read_entry(bytes: &[u8], at: usize, sizes: &[u64], least: usize) -> Result<EntryRead, Fault>
    ensures { entry_read_of result ≡ entries_of sizes.now 1 least bytes.now at }
{
    let variable = number::rising_at(bytes, at, 0, sizes.len(), least)?;
    let size = sizes[variable.value] as usize;
    let before = number::item_at(bytes, variable.next, 0, size, Reason::Range)?;
    let after = number::item_at(bytes, before.next, 0, size, Reason::Range)?;
    Ok(EntryRead {
        entry: Entry {
            variable: variable.value,
            before: before.value,
            after: after.value,
        },
        next: after.next,
    })
}

// Reads so many entries.
fn read_entries(bytes: &[u8], at: usize, sizes: &[u64], count: usize) -> Result<OperatorRead, Fault>
    requires { (length sizes.now ≤ most_variables) × (count ≤ most_variables) }
    ensures { operator_read_of result ≡ entries_of sizes.now count 0 bytes.now at }
{
    let mut operator = Operator::blank(count);
    let mut next = at;
    let mut least = 0;
    for k in 0..count {
        let read = read_entry(bytes, next, sizes, least)?;
        operator.variables[k] = read.entry.variable;
        operator.befores[k] = read.entry.before;
        operator.afters[k] = read.entry.after;
        next = read.next;
        least = read.entry.variable + 1;
    }
    Ok(OperatorRead { operator, next })
}

// Reads an operator: its entry count, 1 to the number of variables, and its entries.
pub fn read_operator(bytes: &[u8], at: usize, sizes: &[u64]) -> Result<OperatorRead, Fault>
    requires { length sizes.now ≤ most_variables }
    ensures { operator_read_of result ≡ operator_of sizes.now bytes.now at }
{
    let count = number::item_at(bytes, at, 1, sizes.len() + 1, Reason::Range)?;
    read_entries(bytes, count.next, sizes, count.value)
}

// Judges one entry, whose variable has to be `least` or more.
fn judge_entry(sizes: &[u64], least: usize, entry: Entry) -> Result<(), Reason>
    ensures { judgement_of result ≡ entries_judged sizes.now least (entry ∷ []) fine }
{
    if sizes.len() <= entry.variable {
        return Err(Reason::Range);
    }
    if entry.variable < least {
        return Err(Reason::Unordered);
    }
    let size = sizes[entry.variable] as usize;
    if size <= entry.before {
        return Err(Reason::Range);
    }
    if size <= entry.after {
        return Err(Reason::Range);
    }
    Ok(())
}

// Judges an operator in file order: its count, then entry by entry.
pub fn judge_operator(operator: &Operator, sizes: &[u64]) -> Result<(), Reason>
    requires { length sizes.now ≤ most_variables }
    ensures { judgement_of result
        ≡ need (inside 1 (suc (length sizes.now)) operator.now.count) Range (entries_judged sizes.now 0 (operator_in (record_of operator.now)) fine) }
{
    if operator.count < 1 {
        return Err(Reason::Range);
    }
    if sizes.len() < operator.count {
        return Err(Reason::Range);
    }
    let entries = operator.entries();
    let mut least = 0;
    for k in 0..entries.len() {
        let entry = entries.at(k);
        judge_entry(sizes, least, entry)?;
        least = entry.variable + 1;
    }
    Ok(())
}
