// The numbers of the C face: each call's answer as one number, case times 2^32 plus value.

#![tactic(auto)]

ghost use Rattle.std.specs.Prelude.{◌≡◌, ◌<◌, Result, Ok, Err, refl};
ghost use Rattle.meaning.specs.Number.{refusal};
ghost use Rattle.number.specs.Answers.{reason_of};
ghost use Rattle.number.specs.declared.Reason.{Reason};
ghost use Rattle.checking.specs.Answer.{verdict_of};
ghost use Rattle.finding.specs.Found.{found_of};
ghost use Rattle.editing.specs.Answers.{edited_of};
ghost use Rattle.mending.specs.Answer.{fault_of};
ghost use Rattle.showing.specs.Answer.{displayed_of};
ghost use Rattle.writer.specs.Answer.{written_of};
ghost use Rattle.codes.specs.Code.{Code, value_end, code, number_of, refused_case, answer_code, verdict_code, length_code, finding_code, edit_code, fault_code, holder_code, Fits};

use checking::Verdict;
use finding::Found;
use mending::PairFault;
use number::Reason;
use showing::Displayed;

// Every value is below this number.
const VALUE_END: u64 = 4294967296;

// A refusal's case in every call.
const REFUSED: u64 = 3;

// One number for a case and a value.
fn coded(case: u64, value: u64) -> u64
    requires { (case < 4) × (value < value_end) }
    ensures { result ≡ number_of (code case value) }
{
    case * VALUE_END + value
}

// What a call answers where it does not refuse, with the code of each of its answers.
pub trait Answered {
    ghost answered: { Result Self Reason → Code };

    // The number of an answer that is no refusal.
    fn number(self) -> u64
        requires { (answered (Ok self)).value < value_end }
        ensures { result ≡ number_of (answered (Ok self)) };

    // A refusal has the same code in every call.
    ghost refuses: { (reason : Reason) → answered (Err reason) ≡ code refused_case (refusal (reason_of reason)) };
}

// A length: words due, or the bytes of a task file, a weight file or a line.
impl Answered for usize {
    ghost answered = { λ r. answer_code length_code (written_of r) };

    ghost refuses = { λ reason. refl };

    fn number(self) -> u64 {
        coded(0, self as u64)
    }
}

// An edit that is done.
impl Answered for () {
    ghost answered = { λ r. answer_code edit_code (edited_of r) };

    ghost refuses = { λ reason. refl };

    fn number(self) -> u64 {
        coded(0, 0)
    }
}

// Whether weights are found.
impl Answered for Found {
    ghost answered = { λ r. answer_code finding_code (found_of r) };

    ghost refuses = { λ reason. refl };

    fn number(self) -> u64 {
        match self {
            Found::Separated => coded(0, 0),
            Found::Nothing => coded(1, 0),
        }
    }
}

// A list's fault.
impl Answered for PairFault {
    ghost answered = { λ r. answer_code fault_code (fault_of r) };

    ghost refuses = { λ reason. refl };

    fn number(self) -> u64 {
        match self {
            PairFault::Good => coded(0, 0),
            PairFault::Held => coded(1, 0),
            PairFault::Unclosed => coded(2, 0),
        }
    }
}

// The file that holds the bytes at fault.
impl Answered for Displayed {
    ghost answered = { λ r. answer_code holder_code (displayed_of r) };

    ghost refuses = { λ reason. refl };

    fn number(self) -> u64 {
        match self {
            Displayed::Task => coded(0, 0),
            Displayed::Weights => coded(1, 0),
        }
    }
}

// A call's answer as a number; that its value fits follows from what the call promises.
pub fn number<A: Answered>(answer: Result<A, Reason>) -> u64
    requires { (A.answered answer).value < value_end }
    ensures { result ≡ number_of (A.answered answer) }
{
    match answer {
        Ok(result) => result.number(),
        Err(reason) => coded(REFUSED, u64::from(reason)),
    }
}

// The same of a verdict, which holds its refusal itself.
pub fn verdict_number(verdict: Verdict) -> u64
    requires { Fits verdict_code (verdict_of verdict) }
    ensures { result ≡ number_of (answer_code verdict_code (verdict_of verdict)) }
{
    match verdict {
        Verdict::Accepted => coded(0, 0),
        Verdict::EndsAlike => coded(1, 0),
        Verdict::Operator(j) => coded(2, j as u64),
        Verdict::Refused(n) => coded(REFUSED, n),
    }
}
